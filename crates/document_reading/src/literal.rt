// Literals.
ghost use Rattle.std.specs.Prelude.{◌≡◌, ◌∷◌, [], option_map};
ghost use Rattle.svc_token.specs.declared.token.Token.TheVariants.{Quoted};
ghost use Rattle.document_reading.specs.Grammar.{IsLiteral};
ghost use Rattle.document_reading.specs.Reading.{whole, negative, literal_value, quoted_of, ParsesAs};

use crate::line_error::LineError;
use crate::refusal::Code;
use std::alloc::Global;
use std::str;
use svc_token::Token;
use svc_value::{LiteralError, Value, read_literal};

// The value of a number.
#[tactic(auto, unfolding(crate::specs::Reading::whole))]
fn whole(n: u64) -> Option<Value>
    ensures { result ≡ whole n }
{
    if n < 1 << 63 {
        Some(Value::Int(n as i64))
    } else {
        None
    }
}

// The value of a number behind `-`.
#[tactic(auto, unfolding(crate::specs::Reading::negative))]
fn negative(n: u64) -> Option<Value>
    ensures { result ≡ negative n }
{
    if n < 1 << 63 {
        Some(Value::Int(-(n as i64)))
    } else if n == 1 << 63 {
        Some(Value::Int(i64::MIN))
    } else {
        None
    }
}

// The value of the number that these tokens are, with its sign.
fn number(tokens: &[Token<'_>]) -> Option<Value>
    ensures { result ≡ literal_value tokens.now }
{
    match tokens {
        [number] => match number {
            Token::Number(n) => whole(*n),
            _ => None,
        },
        [Token::Dash, number] => match number {
            Token::Number(n) => negative(*n),
            _ => None,
        },
        _ => None,
    }
}

// The bytes of the quoted text that these tokens are.
fn quoted<'a>(tokens: &[Token<'a>]) -> Option<&'a [u8]>
    ensures { option_map (λ raw. raw.now) result ≡ quoted_of tokens.now }
{
    match tokens {
        [text] => match text {
            Token::Quoted(raw) => Some(raw.as_slice()),
            _ => None,
        },
        _ => None,
    }
}

// The value of a quoted text.
fn text_value(alloc: Global, raw: &[u8]) -> Result<Value, LineError>
    ensures { ParsesAs (IsLiteral (Quoted raw.now ∷ [])) result }
{
    let Ok(text) = str::from_utf8(raw) else {
        return Err(LineError::Refused(Code::E04));
    };
    match read_literal(alloc, text) {
        Ok(Value::Words(text)) => Ok(Value::Words(text)),
        Ok(_) => Err(LineError::Refused(Code::E04)),
        Err(LiteralError::Bad { .. }) => Err(LineError::Refused(Code::E04)),
        Err(LiteralError::OutOfMemory) => Err(LineError::OutOfMemory),
    }
}

/// The value of the literal that these tokens are; `E04` exactly where they are none.
pub(crate) fn literal(alloc: Global, tokens: &[Token<'_>]) -> Result<Value, LineError>
    ensures { ParsesAs (IsLiteral tokens.now) result }
{
    match quoted(tokens) {
        Some(raw) => text_value(alloc, raw),
        None => match number(tokens) {
            Some(value) => Ok(value),
            None => Err(LineError::Refused(Code::E04)),
        },
    }
}
