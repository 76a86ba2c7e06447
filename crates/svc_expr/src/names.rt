// What an expression asks of its names and of its members.
ghost use Rattle.std.specs.Prelude.{◌≡◌};
ghost use Rattle.svc_expr.specs.Tree.{tree_of};
ghost use Rattle.svc_expr.specs.Types.{name_count, takes_numbers};

use crate::{Expr, ExprKind};

/// One more than the greatest number of a `Given`, and 0 where there is none.
pub fn names_of(expr: &Expr) -> u16
    ensures { result ≡ name_count (tree_of expr.now) }
{
    match expr.kind.get() {
        ExprKind::Given(place) => u16::from(*place) + 1,
        ExprKind::Neg(a)
        | ExprKind::Not(a)
        | ExprKind::Len(a)
        | ExprKind::Number(a)
        | ExprKind::TextOf(a) => names_of(a),
        ExprKind::Pair(_, a, b) => names_of(a).max(names_of(b)),
        ExprKind::If(c, a, b) => names_of(c).max(names_of(a)).max(names_of(b)),
        ExprKind::Int(_)
        | ExprKind::Words(_)
        | ExprKind::Sum
        | ExprKind::Count
        | ExprKind::Min
        | ExprKind::Max => 0,
    }
}

/// Whether each member has to be a whole number: true exactly where the expression has `sum()`, `min()` or `max()`.
pub fn needs_int_members(expr: &Expr) -> bool
    ensures { result ≡ takes_numbers (tree_of expr.now) }
{
    match expr.kind.get() {
        ExprKind::Sum | ExprKind::Min | ExprKind::Max => true,
        ExprKind::Neg(a)
        | ExprKind::Not(a)
        | ExprKind::Len(a)
        | ExprKind::Number(a)
        | ExprKind::TextOf(a) => needs_int_members(a),
        ExprKind::Pair(_, a, b) => needs_int_members(a) || needs_int_members(b),
        ExprKind::If(c, a, b) => {
            needs_int_members(c) || needs_int_members(a) || needs_int_members(b)
        }
        ExprKind::Int(_) | ExprKind::Words(_) | ExprKind::Given(_) | ExprKind::Count => false,
    }
}
