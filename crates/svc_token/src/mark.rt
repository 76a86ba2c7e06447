// The marks between words and numbers.
ghost use Rattle.std.specs.Prelude.{◌≡◌, ◌==◌, ◌<◌, ◌≤◌, ◌+◌, length, IfSome};
ghost use Rattle.std.specs.Char.{is_ascii_digit};
ghost use Rattle.svc_token.specs.Cutting.{begins, long_mark_at, short_mark_at, mark_at};

use crate::Token;

// Whether the next byte is this one.
fn goes_on_with(rest: &[u8], next: u8) -> bool
    ensures { result ≡ begins (λ b. b == next) rest.now }
{
    match rest {
        [] => false,
        [b, ..] => *b == next,
    }
}

// Whether the next byte is a digit.
fn goes_on_with_digit(rest: &[u8]) -> bool
    ensures { result ≡ begins is_ascii_digit rest.now }
{
    match rest {
        [] => false,
        [b, ..] => b.is_ascii_digit(),
    }
}

// The mark of one byte, of those that no other mark begins with.
fn short_mark(first: u8) -> Option<(Token<'static>, usize)>
    ensures { result ≡ short_mark_at first }
{
    let token = match first {
        b':' => Token::Colon,
        b'=' => Token::Equals,
        b',' => Token::Comma,
        b'(' => Token::Open,
        b')' => Token::Close,
        b'*' => Token::Star,
        b'/' => Token::Slash,
        b'%' => Token::Percent,
        _ => return None,
    };
    Some((token, 1))
}

// The longest mark that begins with `+`, `<`, `>` or `-`.
fn long_mark(first: u8, rest: &[u8]) -> Option<(Token<'static>, usize)>
    ensures { result ≡ long_mark_at first rest.now }
{
    let (token, len) = match first {
        b'+' if goes_on_with(rest, b'+') => (Token::Join, 2),
        b'+' => (Token::Plus, 1),
        b'<' if goes_on_with(rest, b'>') => (Token::NotEqual, 2),
        b'<' if goes_on_with(rest, b'=') => (Token::LessOrEqual, 2),
        b'<' => (Token::Less, 1),
        b'>' if goes_on_with(rest, b'=') => (Token::GreaterOrEqual, 2),
        b'>' => (Token::Greater, 1),
        b'-' if goes_on_with_digit(rest) => (Token::Dash, 1),
        b'-' => (Token::Minus, 1),
        _ => return None,
    };
    Some((token, len))
}

// The mark that begins with this byte, and goes on with the rest.
#[tactic(auto, unfolding(crate::specs::Cutting::mark_at))]
pub(crate) fn mark(first: u8, rest: &[u8]) -> Option<(Token<'static>, usize)>
    ensures what { result ≡ mark_at first rest.now }
    ensures some { IfSome result (λ x. 0 < x.1) }
    ensures fits { IfSome result (λ x. x.1 ≤ length rest.now + 1) }
{
    match first {
        b'+' | b'<' | b'>' | b'-' => long_mark(first, rest),
        _ => short_mark(first),
    }
}
