// Reading tokens from left to right: one function for each kind of level.
ghost use Rattle.std.specs.Prelude.{◌≡◌, Option, Some, None};
ghost use Rattle.svc_expr.specs.Grammar.{tighter, IsLeft, call_of, aggregate_of};
ghost use Rattle.svc_expr.specs.Reading.{naming, inner, operand_at, call_at, called_at, unary_at, level_at, compared_at, comparison_at, denial_at, else_at, then_at, whole_at};
ghost use Rattle.svc_expr.specs.SizedExpr.{fit, part_of, Gives};

use crate::leaves::{behind_dash, member_call, quoted};
use crate::level::{Form, Level};
use crate::operators::{call_of, joins, place_of};
use crate::parts::{choice, form, name, pair, positive};
use crate::sized_expr::{ReadError, SizedExpr};
use std::alloc::Global;
use svc_token::{Keyword, Token};
use svc_value::Name;

// What is read one level of the text further in.
#[cycle(reader)]
fn enter<'a, 't>(
    alloc: Global,
    names: &[Name],
    level: Level,
    room: u32,
    rest: &'a [Token<'t>],
) -> Result<(Option<SizedExpr>, &'a [Token<'t>]), ReadError>
    ensures { Gives (λ x. (part_of x.0, x.1.now)) result ((inner fit (naming fit names.now) room).enter level rest.now) }
{
    if room == 0 {
        return Err(ReadError::Bad);
    }
    read(alloc, names, level, room - 1, rest)
}

// What is read at a level.
#[cycle(reader)]
pub(crate) fn read<'a, 't>(
    alloc: Global,
    names: &[Name],
    level: Level,
    room: u32,
    rest: &'a [Token<'t>],
) -> Result<(Option<SizedExpr>, &'a [Token<'t>]), ReadError>
    ensures { Gives (λ x. (part_of x.0, x.1.now)) result (level_at fit (naming fit names.now) (inner fit (naming fit names.now) room) level rest.now) }
{
    match level {
        Level::Whole => whole(alloc, names, room, rest),
        Level::Disjunction => left(alloc, names, Level::Disjunction, room, rest),
        Level::Conjunction => left(alloc, names, Level::Conjunction, room, rest),
        Level::Denial => denial(alloc, names, room, rest),
        Level::Comparison => comparison(alloc, names, room, rest),
        Level::Sum => left(alloc, names, Level::Sum, room, rest),
        Level::Product => left(alloc, names, Level::Product, room, rest),
        Level::Unary => unary(alloc, names, room, rest),
        Level::Operand => operand(alloc, names, room, rest),
    }
}

#[cycle(reader)]
#[tactic(auto, unfolding(crate::specs::Reading::operand_at))]
fn operand<'a, 't>(
    alloc: Global,
    names: &[Name],
    room: u32,
    rest: &'a [Token<'t>],
) -> Result<(Option<SizedExpr>, &'a [Token<'t>]), ReadError>
    ensures { Gives (λ x. (part_of x.0, x.1.now)) result (operand_at fit (naming fit names.now) (inner fit (naming fit names.now) room) rest.now) }
{
    let [first, after @ ..] = rest else {
        return Err(ReadError::Bad);
    };
    match first {
        Token::Number(n) => Ok((positive(alloc, *n)?, after)),
        Token::Dash => behind_dash(alloc, after),
        Token::Quoted(raw) => quoted(alloc, raw.as_slice(), after),
        Token::Name(spelled) => {
            let place = place_of(names, spelled.as_str().as_bytes());
            Ok((name(alloc, place)?, after))
        }
        Token::Open => {
            let (part, rest) = enter(alloc, names, Level::Whole, room, after)?;
            match rest {
                [Token::Close, after @ ..] => Ok((part, after)),
                _ => Err(ReadError::Bad),
            }
        }
        Token::Keyword(keyword) => call(alloc, names, *keyword, room, after),
        _ => Err(ReadError::Bad),
    }
}

// A call behind the keyword that names it.
#[cycle(reader)]
fn call<'a, 't>(
    alloc: Global,
    names: &[Name],
    keyword: Keyword,
    room: u32,
    rest: &'a [Token<'t>],
) -> Result<(Option<SizedExpr>, &'a [Token<'t>]), ReadError>
    ensures { Gives (λ x. (part_of x.0, x.1.now)) result (call_at fit (naming fit names.now) (inner fit (naming fit names.now) room) keyword rest.now) }
{
    match rest {
        [Token::Open, after @ ..] => called(alloc, names, keyword, room, after),
        _ => Err(ReadError::Bad),
    }
}

// A call behind its bracket.
#[cycle(reader)]
fn called<'a, 't>(
    alloc: Global,
    names: &[Name],
    keyword: Keyword,
    room: u32,
    rest: &'a [Token<'t>],
) -> Result<(Option<SizedExpr>, &'a [Token<'t>]), ReadError>
    ensures { Gives (λ x. (part_of x.0, x.1.now)) result (called_at fit (naming fit names.now) (inner fit (naming fit names.now) room) (call_of keyword) (aggregate_of keyword) rest.now) }
{
    let Some(call) = call_of(keyword) else {
        return member_call(alloc, keyword, room > 0, rest);
    };
    let (part, rest) = enter(alloc, names, Level::Whole, room, rest)?;
    match rest {
        [Token::Close, after @ ..] => Ok((form(alloc, call, part)?, after)),
        _ => Err(ReadError::Bad),
    }
}

// The operator `-` before its operand, or an operand.
#[cycle(reader)]
#[tactic(auto, unfolding(crate::specs::Reading::unary_at))]
fn unary<'a, 't>(
    alloc: Global,
    names: &[Name],
    room: u32,
    rest: &'a [Token<'t>],
) -> Result<(Option<SizedExpr>, &'a [Token<'t>]), ReadError>
    ensures { Gives (λ x. (part_of x.0, x.1.now)) result (unary_at fit (naming fit names.now) (inner fit (naming fit names.now) room) rest.now) }
{
    match rest {
        [Token::Minus, after @ ..] => {
            let (part, rest) = enter(alloc, names, Level::Unary, room, after)?;
            Ok((form(alloc, Form::Neg, part)?, rest))
        }
        _ => operand(alloc, names, room, rest),
    }
}

// A side of a level that joins from the left.
#[cycle(reader)]
fn side<'a, 't>(
    alloc: Global,
    names: &[Name],
    level: Level,
    room: u32,
    rest: &'a [Token<'t>],
) -> Result<(Option<SizedExpr>, &'a [Token<'t>]), ReadError>
    requires { IsLeft level }
    ensures { Gives (λ x. (part_of x.0, x.1.now)) result (level_at fit (naming fit names.now) (inner fit (naming fit names.now) room) (tighter level) rest.now) }
{
    read(alloc, names, level.tighter(), room, rest)
}

// A level that joins from the left.
#[cycle(reader)]
fn left<'a, 't>(
    alloc: Global,
    names: &[Name],
    level: Level,
    room: u32,
    text: &'a [Token<'t>],
) -> Result<(Option<SizedExpr>, &'a [Token<'t>]), ReadError>
    requires { IsLeft level }
    ensures { Gives (λ x. (part_of x.0, x.1.now)) result (level_at fit (naming fit names.now) (inner fit (naming fit names.now) room) level text.now) }
{
    let (mut part, mut rest) = side(alloc, names, level, room, text)?;
    for _ in 0..rest.len() {
        let [token, after @ ..] = rest else {
            return Ok((part, rest));
        };
        let Some(op) = joins(level, token) else {
            return Ok((part, rest));
        };
        let (other, behind) = side(alloc, names, level, room, after)?;
        part = pair(alloc, op, part, other)?;
        rest = behind;
    }
    Ok((part, rest))
}

// One comparison, which does not chain.
#[cycle(reader)]
#[tactic(auto, unfolding(crate::specs::Reading::compared_at))]
fn comparison<'a, 't>(
    alloc: Global,
    names: &[Name],
    room: u32,
    rest: &'a [Token<'t>],
) -> Result<(Option<SizedExpr>, &'a [Token<'t>]), ReadError>
    ensures { Gives (λ x. (part_of x.0, x.1.now)) result (comparison_at fit (naming fit names.now) (inner fit (naming fit names.now) room) rest.now) }
{
    let (part, rest) = left(alloc, names, Level::Sum, room, rest)?;
    let [token, after @ ..] = rest else {
        return Ok((part, rest));
    };
    let Some(op) = joins(Level::Comparison, token) else {
        return Ok((part, rest));
    };
    let (other, rest) = left(alloc, names, Level::Sum, room, after)?;
    Ok((pair(alloc, op, part, other)?, rest))
}

// `not` before its operand, or a comparison.
#[cycle(reader)]
#[tactic(auto, unfolding(crate::specs::Reading::denial_at))]
fn denial<'a, 't>(
    alloc: Global,
    names: &[Name],
    room: u32,
    rest: &'a [Token<'t>],
) -> Result<(Option<SizedExpr>, &'a [Token<'t>]), ReadError>
    ensures { Gives (λ x. (part_of x.0, x.1.now)) result (denial_at fit (naming fit names.now) (inner fit (naming fit names.now) room) rest.now) }
{
    match rest {
        [Token::Keyword(Keyword::Not), after @ ..] => {
            let (part, rest) = enter(alloc, names, Level::Denial, room, after)?;
            Ok((form(alloc, Form::Not, part)?, rest))
        }
        _ => comparison(alloc, names, room, rest),
    }
}

// A whole expression.
#[cycle(reader)]
#[tactic(auto, unfolding(crate::specs::Reading::whole_at))]
fn whole<'a, 't>(
    alloc: Global,
    names: &[Name],
    room: u32,
    rest: &'a [Token<'t>],
) -> Result<(Option<SizedExpr>, &'a [Token<'t>]), ReadError>
    ensures { Gives (λ x. (part_of x.0, x.1.now)) result (whole_at fit (naming fit names.now) (inner fit (naming fit names.now) room) rest.now) }
{
    let [Token::Keyword(Keyword::If), after @ ..] = rest else {
        return left(alloc, names, Level::Disjunction, room, rest);
    };
    let (c, rest) = enter(alloc, names, Level::Whole, room, after)?;
    behind_if(alloc, names, room, c, rest)
}

// What stands behind the condition.
#[cycle(reader)]
fn behind_if<'a, 't>(
    alloc: Global,
    names: &[Name],
    room: u32,
    c: Option<SizedExpr>,
    rest: &'a [Token<'t>],
) -> Result<(Option<SizedExpr>, &'a [Token<'t>]), ReadError>
    ensures { Gives (λ x. (part_of x.0, x.1.now)) result (then_at fit (naming fit names.now) (inner fit (naming fit names.now) room) (part_of c) rest.now) }
{
    let [Token::Keyword(Keyword::Then), after @ ..] = rest else {
        return Err(ReadError::Bad);
    };
    let (a, rest) = enter(alloc, names, Level::Whole, room, after)?;
    behind_then(alloc, names, room, c, a, rest)
}

// What stands behind the first branch.
#[cycle(reader)]
fn behind_then<'a, 't>(
    alloc: Global,
    names: &[Name],
    room: u32,
    c: Option<SizedExpr>,
    a: Option<SizedExpr>,
    rest: &'a [Token<'t>],
) -> Result<(Option<SizedExpr>, &'a [Token<'t>]), ReadError>
    ensures { Gives (λ x. (part_of x.0, x.1.now)) result (else_at fit (naming fit names.now) (inner fit (naming fit names.now) room) (part_of c) (part_of a) rest.now) }
{
    let [Token::Keyword(Keyword::Else), after @ ..] = rest else {
        return Err(ReadError::Bad);
    };
    let (b, rest) = enter(alloc, names, Level::Whole, room, after)?;
    Ok((choice(alloc, c, a, b)?, rest))
}
