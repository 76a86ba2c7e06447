// Whole numbers: exact results, tested once.
ghost use Rattle.std.specs.Prelude.{◌≡◌, pos, neg_ℤ, not, IsTrue, ◌↔◌};
ghost use Rattle.svc_expr.specs.Meaning.{exact, is_true, truth, quotient, remainder, compared, of_numbers};

use crate::Op;
use std::cmp::Ordering;
use svc_value::{Fault, Value};

/// The number, or `overflow` where it has not 64 bits.
pub(crate) fn fitted(number: i128) -> Value
    ensures { result ≡ exact number }
{
    if i64::MIN as i128 <= number && number <= i64::MAX as i128 {
        Value::Int(number as i64)
    } else {
        Value::Bad(Fault::Overflow)
    }
}

/// 1 for true, 0 for false.
pub(crate) fn from_bool(holds: bool) -> Value
    ensures { result ≡ truth holds }
{
    Value::Int(if holds { 1 } else { 0 })
}

/// Whether the number counts as true.
pub(crate) fn counts_as_true(number: i64) -> bool
    ensures { result ≡ is_true number }
{
    number != 0
}

/// `-x`
pub(crate) fn negated(x: i64) -> Value
    ensures { result ≡ exact (neg_ℤ x) }
{
    fitted(-(x as i128))
}

fn divided(x: i64, y: i64) -> Value
    ensures { result ≡ quotient x y }
{
    if y == 0 {
        return Value::Bad(Fault::Zero);
    }
    fitted(x as i128 / y as i128)
}

fn rest_of(x: i64, y: i64) -> Value
    ensures { result ≡ remainder x y }
{
    if y == 0 {
        return Value::Bad(Fault::Zero);
    }
    fitted(x as i128 % y as i128)
}

/// What a comparison says of operands in this order; no value of meaning for another operator.
pub(crate) fn compare(op: Op, order: Ordering) -> Value
    ensures { result ≡ compared op order }
{
    match op {
        Op::Eq => from_bool(order.is_eq()),
        Op::Ne => from_bool(order.is_ne()),
        Op::Lt => from_bool(order.is_lt()),
        Op::Le => from_bool(order.is_le()),
        Op::Gt => from_bool(order.is_gt()),
        Op::Ge => from_bool(order.is_ge()),
        _ => Value::Bad(Fault::Number),
    }
}

/// `x op y`
pub(crate) fn calculate(op: Op, x: i64, y: i64) -> Value
    ensures { result ≡ of_numbers op x y }
{
    match op {
        Op::Add => fitted(x as i128 + y as i128),
        Op::Sub => fitted(x as i128 - y as i128),
        Op::Mul => fitted(x as i128 * y as i128),
        Op::Div => divided(x, y),
        Op::Rem => rest_of(x, y),
        Op::And => from_bool(counts_as_true(x) && counts_as_true(y)),
        Op::Or => from_bool(counts_as_true(x) || counts_as_true(y)),
        _ => compare(op, x.cmp(&y)),
    }
}
