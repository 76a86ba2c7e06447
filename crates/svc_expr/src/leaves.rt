// Operands that hold no expression.
ghost use Rattle.std.specs.Prelude.{◌≡◌, Option, Some, None};
ghost use Rattle.svc_expr.specs.Grammar.{aggregate_of};
ghost use Rattle.svc_expr.specs.Quoted.{quoted_meaning};
ghost use Rattle.svc_expr.specs.Reading.{aggregate_at, negative_at, words_at};
ghost use Rattle.svc_expr.specs.SizedExpr.{fit, part_of, Gives};

use crate::operators::aggregate_of;
use crate::parts::{aggregate, negative, text};
use crate::quoting::unquote;
use crate::sized_expr::{ReadError, SizedExpr};
use std::alloc::Global;
use svc_token::{Keyword, Token};

/// The number that `-` makes negative.
pub(crate) fn behind_dash<'a, 't>(
    alloc: Global,
    rest: &'a [Token<'t>],
) -> Result<(Option<SizedExpr>, &'a [Token<'t>]), ReadError>
    ensures { Gives (λ x. (part_of x.0, x.1.now)) result (negative_at fit rest.now) }
{
    let [first, after @ ..] = rest else {
        return Err(ReadError::Bad);
    };
    match first {
        Token::Number(n) => Ok((negative(alloc, *n)?, after)),
        _ => Err(ReadError::Bad),
    }
}

/// The text that a quoted text means.
pub(crate) fn quoted<'a, 't>(
    alloc: Global,
    raw: &[u8],
    rest: &'a [Token<'t>],
) -> Result<(Option<SizedExpr>, &'a [Token<'t>]), ReadError>
    ensures { Gives (λ x. (part_of x.0, x.1.now)) result (words_at fit (quoted_meaning raw.now) rest.now) }
{
    match unquote(alloc, raw)? {
        Some(words) => Ok((text(alloc, words)?, rest)),
        None => Err(ReadError::Bad),
    }
}

/// A call over the members behind its bracket, where a level of the text is left for it.
pub(crate) fn member_call<'a, 't>(
    alloc: Global,
    keyword: Keyword,
    has_room: bool,
    rest: &'a [Token<'t>],
) -> Result<(Option<SizedExpr>, &'a [Token<'t>]), ReadError>
    ensures { Gives (λ x. (part_of x.0, x.1.now)) result (aggregate_at fit has_room (aggregate_of keyword) rest.now) }
{
    if !has_room {
        return Err(ReadError::Bad);
    }
    let Some(call) = aggregate_of(keyword) else {
        return Err(ReadError::Bad);
    };
    match rest {
        [Token::Close, after @ ..] => Ok((aggregate(alloc, call)?, after)),
        _ => Err(ReadError::Bad),
    }
}
