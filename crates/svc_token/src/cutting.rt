// A text is cut into tokens.
ghost use Rattle.std.specs.Prelude.{◌≡◌, ◌<◌, ◌≤◌, ◌+◌, false, true, min, length, take, drop, ℕ, List, OnOk, IsSome, IfSome, Option, Some, None, option_map};
ghost use Rattle.std.specs.Result.{IsErrOf};
ghost use Rattle.std.specs.List.{take_while};
ghost use Rattle.std.specs.Char.{is_ascii_digit};
ghost use Rattle.svc_token.specs.declared.token.Token.{Token};
ghost use Rattle.svc_token.specs.Word.{is_word, is_word_byte, decimal_value};
ghost use Rattle.svc_token.specs.Cutting.{is_blank, word_token, number_at, closing, StopsOrEnds, quoted_at, long_mark_at, short_mark_at, mark_at, front, Cuts};

use crate::keyword::spelled_keyword;
use crate::mark::mark;
use crate::token::{MAX_NAME_LEN, is_word_byte};
use crate::{BytesRef, NameRef, Token};
use memchr::memchr2;
use std::alloc::AllocFailed;

/// Why a text was not cut.
#[derive(Clone, Copy, Debug, PartialEq, Eq)]
pub enum CutError {
    /// The text is no list of tokens.
    Bad,
    /// Out of memory.
    OutOfMemory,
}

impl<T: Drop> From<AllocFailed<T>> for CutError {
    ghost use Rattle.svc_token.specs.declared.cutting.CutError.TheVariants.{OutOfMemory};
    ghost use Rattle.std.specs.Prelude.{◌≡◌};

    ghost from_gives = { λ _ e. e ≡ OutOfMemory };

    fn from(_: AllocFailed<T>) -> Self {
        CutError::OutOfMemory
    }
}

/// Whether a byte is a blank: a space, a tab or CR.
pub fn is_blank(b: u8) -> bool
    ensures { result ≡ is_blank b }
{
    b == b' ' || b == b'\t' || b == b'\r'
}

// How many bytes the word at the front has.
fn word_len(text: &[u8]) -> usize
    ensures { result ≡ length (take_while is_word_byte text.now) }
{
    text.iter().take_while(|b| is_word_byte(**b)).count()
}

// How many bytes the number at the front has.
fn digits_len(text: &[u8]) -> usize
    ensures { result ≡ length (take_while is_ascii_digit text.now) }
{
    text.iter().take_while(|b| b.is_ascii_digit()).count()
}

// The number that the digits spell, or 2^64 - 1 for any greater one.
fn value(digits: &[u8]) -> u64
    ensures { result ≡ min (decimal_value digits.now) 18446744073709551615 }
{
    let mut value = 0u64;
    for digit in digits {
        value = value
            .saturating_mul(10)
            .saturating_add(u64::from(digit.saturating_sub(b'0')));
    }
    value
}

// The token of a word.
#[tactic(auto, unfolding(crate::specs::Cutting::word_token))]
fn word(bytes: &[u8]) -> Token<'_>
    requires { is_word bytes.now ≡ true }
    ensures { result ≡ word_token bytes.now }
{
    match spelled_keyword(bytes) {
        Some(keyword) => Token::Keyword(keyword),
        None => {
            if bytes.len() <= MAX_NAME_LEN {
                Token::Name(NameRef::new(bytes))
            } else {
                Token::Long
            }
        }
    }
}

// The number of the first `len` bytes, which are digits.
#[tactic(auto, unfolding(crate::specs::Cutting::number_at))]
fn number(text: &[u8], len: usize) -> Option<(Token<'_>, usize)>
    requires { len ≤ length text.now }
    ensures what { result ≡ number_at (take len text.now) text.now }
    ensures len { IfSome result (λ x. x.1 ≡ len) }
{
    let (digits, rest) = text.split_at(len);
    if let [b, ..] = rest {
        if is_word_byte(*b) {
            return None;
        }
    }
    Some((Token::Number(value(digits)), len))
}

// How many bytes stand before the first quote or backslash.
fn plain_len(bytes: &[u8]) -> usize
    ensures fits { result ≤ length bytes.now }
    ensures passed { (n : ℕ) → closing n false bytes.now ≡ closing (n + result) false (drop result bytes.now) }
    ensures stops { StopsOrEnds (drop result bytes.now) }
{
    match memchr2(b'"', b'\\', bytes) {
        Some(len) => len,
        None => bytes.len(),
    }
}

// How many bytes a quoted text has that goes on with these, the opening quote among them.
fn quoted_len(rest: &[u8]) -> Option<usize>
    ensures what { result ≡ closing 1 false rest.now }
    ensures fits { IfSome result (λ n. n ≤ length rest.now + 1) }
    ensures some { IfSome result (λ n. 0 < n) }
{
    let mut left = rest;
    let mut len = 1;
    while !left.is_empty() {
        let (plain, stop) = left.split_at(plain_len(left));
        len += plain.len();
        match stop {
            [b'"', ..] => return Some(len + 1),
            [_, _, behind @ ..] => {
                len += 2;
                left = behind;
            }
            _ => return None,
        }
    }
    None
}

// The quoted text at the front, whose first byte is a quote.
#[tactic(auto, unfolding(crate::specs::Cutting::quoted_at))]
fn quoted(text: &[u8]) -> Option<(Token<'_>, usize)>
    requires { 0 < length text.now }
    ensures what { result ≡ quoted_at text.now }
    ensures some { IfSome result (λ x. 0 < x.1) }
    ensures fits { IfSome result (λ x. x.1 ≤ length text.now) }
{
    let len = quoted_len(&text[1..])?;
    Some((Token::Quoted(BytesRef::new(&text[..len])), len))
}

// The longest token at the front, and how many bytes it has.
#[tactic(auto, unfolding(crate::specs::Cutting::front))]
fn front(text: &[u8]) -> Option<(Token<'_>, usize)>
    ensures what { result ≡ front text.now }
    ensures some { IfSome result (λ x. 0 < x.1) }
    ensures fits { IfSome result (λ x. x.1 ≤ length text.now) }
{
    match text {
        [] => None,
        [first, rest @ ..] => {
            if first.is_ascii_alphabetic() {
                let len = word_len(text);
                Some((word(&text[..len]), len))
            } else if first.is_ascii_digit() {
                number(text, digits_len(text))
            } else if *first == b'"' {
                quoted(text)
            } else {
                mark(*first, rest)
            }
        }
    }
}

/// Cuts a text into its tokens, which take the place of those in `tokens`. `Bad` exactly where the text is no list of
/// tokens; `OutOfMemory` where `tokens` can't grow. After an error `tokens` holds the tokens before the place of the error.
pub fn cut<'a>(text: &'a [u8], tokens: &mut Vec<Token<'a>>) -> Result<(), CutError>
    ensures found { OnOk result (Cuts text.now tokens.new.items) }
    ensures bad { IsErrOf result CutError.Bad → (any : List Token) → Cuts text.now any → ⊥ }
{
    tokens.clear();
    let mut rest = text;
    while !rest.is_empty() {
        if is_blank(rest[0]) {
            rest = &rest[1..];
        } else {
            let Some((token, len)) = front(rest) else {
                return Err(CutError::Bad);
            };
            tokens.push(token)?;
            rest = &rest[len..];
        }
    }
    Ok(())
}

/// No text is cut in two ways.
pub fn one_cut()
    ensures { (text : List ℕ) (a b : List Token) → Cuts text a → Cuts text b → a ≡ b }
{}
