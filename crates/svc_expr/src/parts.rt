// Trees from their parts, while they are within the limits.
ghost use Rattle.std.specs.Prelude.{◌≡◌, ◌≤◌, ◌<◌, ◌^◌, Some, None, pos, neg_ℤ, nat_le, nat_lt, if◌then◌else◌};
ghost use Rattle.svc_expr.specs.Tree.{given, words, number, nodes, depth, tree_of};
ghost use Rattle.svc_expr.specs.Types.{name_count};
ghost use Rattle.svc_expr.specs.Grammar.{aggregated};
ghost use Rattle.svc_expr.specs.Reading.{formed_part, pair_part, choice_part};
ghost use Rattle.svc_expr.specs.SizedExpr.{fit, part_of, Gives};

use crate::gathering::MAX_NAMES;
use crate::level::{Aggregate, Form};
use crate::sized_expr::{MAX_DEPTH, MAX_NODES, ReadError, SizedExpr};
use crate::{Boxed, Expr, ExprKind, Op};
use std::alloc::Global;
use svc_value::ValueText;

#[tactic(auto, unfolding(crate::specs::SizedExpr::fit))]
fn build(
    alloc: Global,
    kind: ExprKind,
    count: u32,
    height: u32,
) -> Result<Option<SizedExpr>, ReadError>
    requires counted { count ≡ nodes (tree_of (record { kind = kind })) }
    requires measured { height ≡ depth (tree_of (record { kind = kind })) }
    requires named { name_count (tree_of (record { kind = kind })) ≤ MAX_NAMES }
    ensures { Gives part_of result (Some (fit (tree_of (record { kind = kind })))) }
{
    if count > MAX_NODES || height > MAX_DEPTH {
        return Ok(None);
    }
    Ok(Some(SizedExpr {
        expr: Expr {
            kind: Boxed::new(alloc, kind)?,
        },
        count,
        height,
    }))
}

fn whole_number(alloc: Global, z: i64) -> Result<Option<SizedExpr>, ReadError>
    ensures { Gives part_of result (Some (fit (number z))) }
{
    build(alloc, ExprKind::Int(z), 1, 1)
}

/// The number without a sign; `Bad` where it is no `i64`.
pub(crate) fn positive(alloc: Global, n: u64) -> Result<Option<SizedExpr>, ReadError>
    ensures { Gives part_of result (if nat_lt n (2 ^ 63) then Some (fit (number (pos n))) else None) }
{
    if n >= 1 << 63 {
        return Err(ReadError::Bad);
    }
    whole_number(alloc, n as i64)
}

/// The number behind `-`; `Bad` where it is no `i64`.
pub(crate) fn negative(alloc: Global, n: u64) -> Result<Option<SizedExpr>, ReadError>
    ensures { Gives part_of result (if nat_le n (2 ^ 63) then Some (fit (number (neg_ℤ (pos n)))) else None) }
{
    if n > 1 << 63 {
        return Err(ReadError::Bad);
    }
    let z = -(n as i128);
    whole_number(alloc, z as i64)
}

/// A text.
pub(crate) fn text(alloc: Global, text: ValueText) -> Result<Option<SizedExpr>, ReadError>
    ensures { Gives part_of result (Some (fit (words text))) }
{
    build(alloc, ExprKind::Words(text), 1, 1)
}

/// The name at this place.
#[tactic(auto, unfolding(crate::specs::SizedExpr::fit))]
pub(crate) fn name(alloc: Global, place: usize) -> Result<Option<SizedExpr>, ReadError>
    ensures { Gives part_of result (Some (fit (given place))) }
{
    if place > 255 {
        return Ok(None);
    }
    build(alloc, ExprKind::Given(place as u8), 1, 1)
}

/// A call over the members.
pub(crate) fn aggregate(alloc: Global, aggregate: Aggregate) -> Result<Option<SizedExpr>, ReadError>
    ensures { Gives part_of result (Some (fit (aggregated aggregate))) }
{
    match aggregate {
        Aggregate::Sum => build(alloc, ExprKind::Sum, 1, 1),
        Aggregate::Count => build(alloc, ExprKind::Count, 1, 1),
        Aggregate::Min => build(alloc, ExprKind::Min, 1, 1),
        Aggregate::Max => build(alloc, ExprKind::Max, 1, 1),
    }
}

/// A form of one operand.
pub(crate) fn form(
    alloc: Global,
    form: Form,
    a: Option<SizedExpr>,
) -> Result<Option<SizedExpr>, ReadError>
    ensures { Gives part_of result (Some (formed_part fit form (part_of a))) }
{
    let Some(a) = a else {
        return Ok(None);
    };
    let (count, height) = (a.count + 1, a.height + 1);
    match form {
        Form::Neg => build(alloc, ExprKind::Neg(a.expr), count, height),
        Form::Not => build(alloc, ExprKind::Not(a.expr), count, height),
        Form::Len => build(alloc, ExprKind::Len(a.expr), count, height),
        Form::Number => build(alloc, ExprKind::Number(a.expr), count, height),
        Form::TextOf => build(alloc, ExprKind::TextOf(a.expr), count, height),
    }
}

/// An operator on two parts.
pub(crate) fn pair(
    alloc: Global,
    op: Op,
    a: Option<SizedExpr>,
    b: Option<SizedExpr>,
) -> Result<Option<SizedExpr>, ReadError>
    ensures { Gives part_of result (Some (pair_part fit op (part_of a) (part_of b))) }
{
    let Some(a) = a else {
        return Ok(None);
    };
    let Some(b) = b else {
        return Ok(None);
    };
    let (count, height) = (a.count + b.count + 1, a.height.max(b.height) + 1);
    build(alloc, ExprKind::Pair(op, a.expr, b.expr), count, height)
}

/// `if c then a else b`
pub(crate) fn choice(
    alloc: Global,
    c: Option<SizedExpr>,
    a: Option<SizedExpr>,
    b: Option<SizedExpr>,
) -> Result<Option<SizedExpr>, ReadError>
    ensures { Gives part_of result (Some (choice_part fit (part_of c) (part_of a) (part_of b))) }
{
    let Some(c) = c else {
        return Ok(None);
    };
    let Some(a) = a else {
        return Ok(None);
    };
    let Some(b) = b else {
        return Ok(None);
    };
    let count = c.count + a.count + b.count + 1;
    let height = c.height.max(a.height).max(b.height) + 1;
    build(alloc, ExprKind::If(c.expr, a.expr, b.expr), count, height)
}
