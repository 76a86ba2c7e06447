// What a derived service computes by: an expression and members.
ghost use Rattle.std.specs.Prelude.{◌≡◌, not, length};
ghost use Rattle.std.specs.List.{take_while};
ghost use Rattle.document_reading.specs.declared.statement.Body.TheVariants.{Formula};
ghost use Rattle.document_reading.specs.Grammar.{AreMembers, IsOver, IsBody};
ghost use Rattle.document_reading.specs.Reading.{name_of, is_comma, is_over, ParsesAs};

use crate::line_error::LineError;
use crate::refusal::Code;
use crate::statement::{Body, NameRefs, NamedFormula};
use std::alloc::Global;
use svc_expr::{ExprError, Reading, read_tokens};
use svc_token::{Keyword, NameRef, Token};

// The name that a token is.
fn name_of<'a>(token: &Token<'a>) -> Option<NameRef<'a>>
    ensures { result ≡ name_of token.now }
{
    match token {
        Token::Name(name) => Some(name.lend()),
        _ => None,
    }
}

// Whether a token is a comma.
fn is_comma(token: &Token<'_>) -> bool
    ensures { result ≡ is_comma token.now }
{
    matches!(token, Token::Comma)
}

// The names that these tokens are, with commas between.
fn members<'a>(alloc: Global, tokens: &[Token<'a>]) -> Result<NameRefs<'a>, LineError>
    ensures { ParsesAs (AreMembers tokens.now) result }
{
    let mut members = NameRefs::new(alloc);
    let mut at_name = true;
    for token in tokens {
        if at_name {
            let Some(name) = name_of(token) else {
                return Err(LineError::Refused(Code::E04));
            };
            members.push(name)?;
        } else if !is_comma(token) {
            return Err(LineError::Refused(Code::E04));
        }
        at_name = !at_name;
    }
    if at_name {
        return Err(LineError::Refused(Code::E04));
    }
    Ok(members)
}

// An expression that was read, with these members.
fn formula<'a>(reading: Reading, members: NameRefs<'a>) -> Body<'a>
    ensures { result ≡ Formula (record { expr = reading.expr; names = reading.names; members = members.entry }) }
{
    let Reading { expr, names } = reading;
    Body::Formula(NamedFormula {
        expr,
        names,
        members,
    })
}

// The expression that these tokens are, with these members.
fn over<'a>(
    alloc: Global,
    tokens: &[Token<'a>],
    members: NameRefs<'a>,
) -> Result<Body<'a>, LineError>
    ensures { ParsesAs (IsOver members.entry tokens.now) result }
{
    match read_tokens(alloc, tokens) {
        Ok(reading) => Ok(formula(reading, members)),
        Err(ExprError::Bad) => Err(LineError::Refused(Code::E04)),
        Err(ExprError::TooLarge) => Ok(Body::TooLarge),
        Err(ExprError::OutOfMemory) => Err(LineError::OutOfMemory),
    }
}

// Whether a token is the word `over`.
fn is_over(token: &Token<'_>) -> bool
    ensures { result ≡ is_over token.now }
{
    matches!(token, Token::Keyword(Keyword::Over))
}

// How many tokens stand before the first `over`.
fn over_at(tokens: &[Token<'_>]) -> usize
    ensures { result ≡ length (take_while (λ token. not (is_over token)) tokens.now) }
{
    tokens.iter().take_while(|token| !is_over(token)).count()
}

/// What these tokens are to compute by: an expression alone, or with its members behind `over`. `E04` exactly where they are
/// neither.
pub(crate) fn body<'a>(alloc: Global, tokens: &[Token<'a>]) -> Result<Body<'a>, LineError>
    ensures { ParsesAs (IsBody tokens.now) result }
{
    let (before, rest) = tokens.split_at(over_at(tokens));
    match rest {
        [] => over(alloc, before, NameRefs::new(alloc)),
        [_, behind @ ..] => match members(alloc, behind) {
            Ok(members) => over(alloc, before, members),
            Err(stop) => Err(stop),
        },
    }
}
