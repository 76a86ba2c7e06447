// The values of parts that need no memory. They are returned by value, so an expression that makes no text is evaluated fast.
ghost use Rattle.std.specs.Prelude.{◌≡◌, ◌≤◌, length, not, neg_ℤ, slice_index_or};
ghost use Rattle.svc_value.specs.declared.value.Value.{Value};
ghost use Rattle.svc_expr.specs.ValueRef.{Says};
ghost use Rattle.svc_expr.specs.Meaning.{characters, exact, is_true, meaning, number_or_fault, of_number, of_pair, of_text, of_texts, signed_number, truth, untyped};
ghost use Rattle.svc_expr.specs.Tree.{tree_of};

use crate::members::{greatest_of, least_of, sum_of};
use crate::numbers::{calculate, compare, counts_as_true, from_bool, negated};
use crate::texts::{count_characters, parse_number};
use crate::{Expr, ExprKind, Op};
use svc_value::limits::MAX_DEPENDENCIES;
use svc_value::{Fault, Value, ValueText};

/// The value of a part, where no text has to be made for it. A text is lent.
#[derive(Clone, Copy)]
pub(crate) enum ValueRef<'a> {
    /// A whole number.
    Int(i64),
    /// A text that stands in the expression or among the given values.
    Text(&'a ValueText),
    /// A fault.
    Bad(Fault),
    /// Not known: the part joins texts, or writes a number as one.
    Unknown,
}

// The value, with its text lent.
fn lent<'a>(value: &'a Value) -> ValueRef<'a>
    ensures { Says result value.now }
{
    match value {
        Value::Int(number) => ValueRef::Int(*number),
        Value::Words(text) => ValueRef::Text(text),
        Value::Bad(fault) => ValueRef::Bad(*fault),
    }
}

// The value that was made, where it is no text.
fn made<'a>(value: &Value) -> ValueRef<'a>
    ensures { Says result value.now }
{
    match value {
        Value::Int(number) => ValueRef::Int(*number),
        Value::Words(_) => ValueRef::Unknown,
        Value::Bad(fault) => ValueRef::Bad(*fault),
    }
}

fn named<'a>(given: &'a [Value], place: u8) -> ValueRef<'a>
    ensures { Says result (slice_index_or given.now place untyped) }
{
    match given.get(usize::from(place)) {
        Some(value) => lent(value),
        None => ValueRef::Bad(Fault::Number),
    }
}

fn negation<'a>(operand: ValueRef<'a>) -> ValueRef<'a>
    ensures { (value : Value) → Says operand.entry value → Says result (of_number (λ z. exact (neg_ℤ z)) value) }
{
    match operand {
        ValueRef::Int(number) => made(&negated(number)),
        ValueRef::Text(_) => ValueRef::Bad(Fault::Number),
        ValueRef::Bad(fault) => ValueRef::Bad(fault),
        ValueRef::Unknown => ValueRef::Unknown,
    }
}

fn denial<'a>(operand: ValueRef<'a>) -> ValueRef<'a>
    ensures { (value : Value) → Says operand.entry value → Says result (of_number (λ z. truth (not (is_true z))) value) }
{
    match operand {
        ValueRef::Int(number) => made(&from_bool(!counts_as_true(number))),
        ValueRef::Text(_) => ValueRef::Bad(Fault::Number),
        ValueRef::Bad(fault) => ValueRef::Bad(fault),
        ValueRef::Unknown => ValueRef::Unknown,
    }
}

fn len_of<'a>(operand: ValueRef<'a>) -> ValueRef<'a>
    ensures { (value : Value) → Says operand.entry value → Says result (of_text characters value) }
{
    match operand {
        ValueRef::Int(_) => ValueRef::Bad(Fault::Number),
        ValueRef::Text(text) => made(&count_characters(text.as_str())),
        ValueRef::Bad(fault) => ValueRef::Bad(fault),
        ValueRef::Unknown => ValueRef::Unknown,
    }
}

fn number_of<'a>(operand: ValueRef<'a>) -> ValueRef<'a>
    ensures { (value : Value) → Says operand.entry value → Says result (of_text (λ text. number_or_fault (signed_number text)) value) }
{
    match operand {
        ValueRef::Int(_) => ValueRef::Bad(Fault::Number),
        ValueRef::Text(text) => made(&parse_number(text.as_str())),
        ValueRef::Bad(fault) => ValueRef::Bad(fault),
        ValueRef::Unknown => ValueRef::Unknown,
    }
}

fn compare_texts<'a>(op: Op, x: &ValueText, y: &ValueText) -> ValueRef<'a>
    ensures { Says result (of_texts op x.now y.now) }
{
    match op {
        Op::Join => ValueRef::Unknown,
        _ => made(&compare(op, x.as_str().cmp(y.as_str()))),
    }
}

fn pair_of<'a>(op: Op, left: ValueRef<'a>, right: ValueRef<'a>) -> ValueRef<'a>
    ensures { (x y : Value) → Says left.entry x → Says right.entry y → Says result (of_pair op x y) }
{
    match (left, right) {
        (ValueRef::Int(x), ValueRef::Int(y)) => made(&calculate(op, x, y)),
        (ValueRef::Bad(fault), _) => ValueRef::Bad(fault),
        (ValueRef::Unknown, _) => ValueRef::Unknown,
        (_, ValueRef::Bad(fault)) => ValueRef::Bad(fault),
        (_, ValueRef::Unknown) => ValueRef::Unknown,
        (ValueRef::Text(x), ValueRef::Text(y)) => compare_texts(op, x, y),
        _ => ValueRef::Bad(Fault::Number),
    }
}

/// The value of the expression; `Unknown` where a text has to be made for it.
pub(crate) fn borrowed_value<'a>(
    expr: &'a Expr,
    given: &'a [Value],
    members: &[Value],
) -> ValueRef<'a>
    requires { length members.now ≤ MAX_DEPENDENCIES }
    ensures { Says result (meaning (tree_of expr.now) given.now members.now) }
{
    match expr.kind.get() {
        ExprKind::Int(number) => ValueRef::Int(*number),
        ExprKind::Words(text) => ValueRef::Text(text),
        ExprKind::Given(place) => named(given, *place),
        ExprKind::Neg(a) => negation(borrowed_value(a, given, members)),
        ExprKind::Not(a) => denial(borrowed_value(a, given, members)),
        ExprKind::Pair(op, a, b) => {
            let left = borrowed_value(a, given, members);
            let right = borrowed_value(b, given, members);
            pair_of(*op, left, right)
        }
        ExprKind::If(condition, a, b) => match borrowed_value(condition, given, members) {
            ValueRef::Int(number) if counts_as_true(number) => borrowed_value(a, given, members),
            ValueRef::Int(_) => borrowed_value(b, given, members),
            ValueRef::Text(_) => ValueRef::Bad(Fault::Number),
            ValueRef::Bad(fault) => ValueRef::Bad(fault),
            ValueRef::Unknown => ValueRef::Unknown,
        },
        ExprKind::Len(a) => len_of(borrowed_value(a, given, members)),
        ExprKind::Number(a) => number_of(borrowed_value(a, given, members)),
        ExprKind::TextOf(_) => ValueRef::Unknown,
        ExprKind::Sum => made(&sum_of(members)),
        ExprKind::Count => ValueRef::Int(members.len() as i64),
        ExprKind::Min => made(&least_of(members)),
        ExprKind::Max => made(&greatest_of(members)),
    }
}
