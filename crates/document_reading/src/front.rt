// What stands at the front of tokens.
ghost use Rattle.std.specs.Prelude.{◌≡◌, option_map};
ghost use Rattle.document_reading.specs.Reading.{name_at, type_of, type_at, rank_at, equals_at, from_at};

use svc_token::{Keyword, NameRef, Token};
use svc_value::ValueType;

/// A name and what follows; `None` where something else stands there.
pub(crate) fn named<'t, 'a>(tokens: &'t [Token<'a>]) -> Option<(NameRef<'a>, &'t [Token<'a>])>
    ensures { option_map (λ x. (x.0, x.1.now)) result ≡ name_at tokens.now }
{
    match tokens {
        [name, rest @ ..] => match name {
            Token::Name(name) => Some((name.lend(), rest)),
            _ => None,
        },
        _ => None,
    }
}

// The type that a keyword names.
fn type_of(word: Keyword) -> Option<ValueType>
    ensures { result ≡ type_of word }
{
    match word {
        Keyword::Int => Some(ValueType::Int),
        Keyword::Text => Some(ValueType::Text),
        _ => None,
    }
}

/// `: TYPE` and what follows; `None` where something else stands there.
pub(crate) fn typed<'t, 'a>(tokens: &'t [Token<'a>]) -> Option<(ValueType, &'t [Token<'a>])>
    ensures { option_map (λ x. (x.0, x.1.now)) result ≡ type_at tokens.now }
{
    match tokens {
        [Token::Colon, word, rest @ ..] => match word {
            Token::Keyword(word) => {
                let ty = type_of(*word)?;
                Some((ty, rest))
            }
            _ => None,
        },
        _ => None,
    }
}

/// `rank NUMBER` and what follows; `None` where something else stands there.
pub(crate) fn ranked<'t, 'a>(tokens: &'t [Token<'a>]) -> Option<(u64, &'t [Token<'a>])>
    ensures { option_map (λ x. (x.0, x.1.now)) result ≡ rank_at tokens.now }
{
    match tokens {
        [Token::Keyword(Keyword::Rank), number, rest @ ..] => match number {
            Token::Number(rank) => Some((*rank, rest)),
            _ => None,
        },
        _ => None,
    }
}

/// What follows `=`; `None` where something else stands there.
pub(crate) fn equated<'t, 'a>(tokens: &'t [Token<'a>]) -> Option<&'t [Token<'a>]>
    ensures { option_map (λ x. x.now) result ≡ equals_at tokens.now }
{
    match tokens {
        [Token::Equals, rest @ ..] => Some(rest),
        _ => None,
    }
}

/// What follows `from`; `None` where something else stands there.
pub(crate) fn sent_from<'t, 'a>(tokens: &'t [Token<'a>]) -> Option<&'t [Token<'a>]>
    ensures { option_map (λ x. x.now) result ≡ from_at tokens.now }
{
    match tokens {
        [Token::Keyword(Keyword::From), rest @ ..] => Some(rest),
        _ => None,
    }
}
