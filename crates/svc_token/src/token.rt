// The tokens of a line.
ghost use Rattle.std.specs.Prelude.{◌≡◌, ◌↔◌, IsTrue};
ghost use Rattle.std.specs.List.{list_all};
ghost use Rattle.svc_token.specs.Word.{IsName, is_word_byte, is_word};

use crate::keyword::spelled_keyword;
use crate::{BytesRef, Keyword, NameRef};

/// The most bytes that a name has.
pub const MAX_NAME_LEN: usize = 32;

/// A token of a line. What it lends is lent from the line.
#[derive(Debug, Drop)]
pub enum Token<'a> {
    /// A word that is a keyword.
    Keyword(Keyword),
    /// A word of at most 32 bytes that is no keyword, with its bytes.
    Name(NameRef<'a>),
    /// A word of more than 32 bytes, which is no name.
    Long,
    /// Digits, with the number that they spell, or 2^64 - 1 for any greater one.
    Number(u64),
    /// A quoted text as it stands, with its quotes and escapes.
    Quoted(BytesRef<'a>),
    /// `:`
    Colon,
    /// `=`
    Equals,
    /// `,`
    Comma,
    /// `(`
    Open,
    /// `)`
    Close,
    /// `+`
    Plus,
    /// `++`
    Join,
    /// `-` that no digit follows directly.
    Minus,
    /// `-` directly followed by a digit: where a literal may stand it begins one, elsewhere it is the operator.
    Dash,
    /// `*`
    Star,
    /// `/`
    Slash,
    /// `%`
    Percent,
    /// `<`
    Less,
    /// `<=`
    LessOrEqual,
    /// `<>`
    NotEqual,
    /// `>`
    Greater,
    /// `>=`
    GreaterOrEqual,
}

/// Whether a byte is a letter, a digit or `_`, with which a word goes on.
pub(crate) fn is_word_byte(b: u8) -> bool
    ensures { result ≡ is_word_byte b }
{
    b.is_ascii_alphabetic() || b.is_ascii_digit() || b == b'_'
}

// Whether a word may go on with these bytes.
fn are_word_bytes(bytes: &[u8]) -> bool
    ensures { result ≡ list_all is_word_byte bytes.now }
{
    bytes.iter().all(|b| is_word_byte(*b))
}

// Whether the bytes are a word.
fn is_word(bytes: &[u8]) -> bool
    ensures { result ≡ is_word bytes.now }
{
    match bytes {
        [] => false,
        [first, rest @ ..] => first.is_ascii_alphabetic() && are_word_bytes(rest),
    }
}

/// Whether the bytes are a name: a word of at most 32 bytes that is no keyword.
pub fn is_name(bytes: &[u8]) -> bool
    ensures { IsTrue result ↔ IsName bytes.now }
{
    is_word(bytes) && bytes.len() <= MAX_NAME_LEN && spelled_keyword(bytes).is_none()
}
