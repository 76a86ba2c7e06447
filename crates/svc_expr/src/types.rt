// The types of expressions.
ghost use Rattle.std.specs.Prelude.{◌≡◌, ◌≤◌, ◌<◌, ◌+◌, ◌^◌, IfOk, IfErr, OnOk, None, Some, if◌then◌else◌, slice_get};
ghost use Rattle.std.specs.List.{position_from};
ghost use Rattle.svc_expr.specs.Tree.{nodes, tree_of};
ghost use Rattle.svc_expr.specs.Types.{choice_type, converted, is_mistyped, pair_type, parts, type_in};
ghost use Rattle.svc_expr.specs.Typing.{one_typed, root_gives, typed_from};

use crate::{Expr, ExprKind, Op, TypeErrorAt};
use svc_value::ValueType;

// The type, and the number of the node behind; or the node that has none.
type Typing = Result<(ValueType, u32), TypeErrorAt>;

fn only_if(fits: bool, gives: ValueType) -> Option<ValueType>
    ensures { result ≡ (if fits then Some gives else None) }
{
    if fits { Some(gives) } else { None }
}

fn convert(takes: ValueType, gives: ValueType, operand: ValueType) -> Option<ValueType>
    ensures { result ≡ converted takes gives operand }
{
    only_if(takes == operand, gives)
}

fn join_types(op: Op, x: ValueType, y: ValueType) -> Option<ValueType>
    ensures { result ≡ pair_type op x y }
{
    match op {
        Op::Join => only_if(
            x == ValueType::Text && y == ValueType::Text,
            ValueType::Text,
        ),
        Op::Eq | Op::Ne | Op::Lt | Op::Le | Op::Gt | Op::Ge => only_if(x == y, ValueType::Int),
        Op::Add | Op::Sub | Op::Mul | Op::Div | Op::Rem | Op::And | Op::Or => {
            only_if(x == ValueType::Int && y == ValueType::Int, ValueType::Int)
        }
    }
}

fn choose_type(condition: ValueType, x: ValueType, y: ValueType) -> Option<ValueType>
    ensures { result ≡ choice_type condition x y }
{
    only_if(condition == ValueType::Int && x == y, x)
}

fn type_at(given: &[ValueType], place: u8) -> Option<ValueType>
    ensures { result ≡ slice_get given.now place }
{
    given.get(usize::from(place)).copied()
}

fn at_root(ty: Option<ValueType>, node: u32, next: u32) -> Typing
    ensures { result ≡ root_gives ty node next }
{
    match ty {
        Some(ty) => Ok((ty, next)),
        None => Err(TypeErrorAt { node }),
    }
}

#[cycle(typing)]
fn one(takes: ValueType, gives: ValueType, a: &Expr, given: &[ValueType], node: u32) -> Typing
    requires { node + nodes (tree_of a.now) + 1 < 2 ^ 32 }
    ensures typing { result ≡ one_typed takes gives node (typed_from given.now (node + 1) (tree_of a.now)) }
    ensures next { IfOk result (λ x. x.1 ≡ node + 1 + nodes (tree_of a.now)) }
{
    let (operand, next) = typed(a, given, node + 1)?;
    at_root(convert(takes, gives, operand), node, next)
}

#[cycle(typing)]
fn typed(expr: &Expr, given: &[ValueType], node: u32) -> Typing
    requires { node + nodes (tree_of expr.now) < 2 ^ 32 }
    ensures typing { result ≡ typed_from given.now node (tree_of expr.now) }
    ensures next { IfOk result (λ x. x.1 ≡ node + nodes (tree_of expr.now)) }
{
    match expr.kind.get() {
        ExprKind::Words(_) => Ok((ValueType::Text, node + 1)),
        ExprKind::Given(place) => at_root(type_at(given, *place), node, node + 1),
        ExprKind::Neg(a) | ExprKind::Not(a) => one(ValueType::Int, ValueType::Int, a, given, node),
        ExprKind::Len(a) | ExprKind::Number(a) => {
            one(ValueType::Text, ValueType::Int, a, given, node)
        }
        ExprKind::TextOf(a) => one(ValueType::Int, ValueType::Text, a, given, node),
        ExprKind::Pair(op, a, b) => {
            let (x, next) = typed(a, given, node + 1)?;
            let (y, next) = typed(b, given, next)?;
            at_root(join_types(*op, x, y), node, next)
        }
        ExprKind::If(c, a, b) => {
            let (condition, next) = typed(c, given, node + 1)?;
            let (x, next) = typed(a, given, next)?;
            let (y, next) = typed(b, given, next)?;
            at_root(choose_type(condition, x, y), node, next)
        }
        ExprKind::Int(_) | ExprKind::Sum | ExprKind::Count | ExprKind::Min | ExprKind::Max => {
            Ok((ValueType::Int, node + 1))
        }
    }
}

/// The type of the expression where the k-th name has the k-th given type. An error exactly where some node has no type
/// although each of its operands has one, with the number of the first such node in preorder, from 0.
pub fn type_of(expr: &Expr, given: &[ValueType]) -> Result<ValueType, TypeErrorAt>
    requires { nodes (tree_of expr.now) < 2 ^ 32 }
    ensures has_type { IfOk result (λ ty. type_in (tree_of expr.now) given.now ≡ Some ty) }
    ensures no_error { OnOk result (position_from (is_mistyped given.now) 0 (parts (tree_of expr.now)) ≡ None) }
    ensures first_error { IfErr result (λ e. position_from (is_mistyped given.now) 0 (parts (tree_of expr.now)) ≡ Some e.node) }
{
    let (ty, _) = typed(expr, given, 0)?;
    Ok(ty)
}
