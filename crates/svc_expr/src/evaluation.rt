// The value of an expression.
ghost use Rattle.std.specs.Prelude.{◌≡◌, ◌≤◌, All, length, IfOk, IsOk, OnErr, true, false, not, neg_ℤ, slice_index_or};
ghost use Rattle.std.specs.Fmt.{signed_decimal};
ghost use Rattle.svc_value.specs.declared.value.Value.TheVariants.{Words};
ghost use Rattle.svc_expr.specs.Meaning.{IsNoText, characters, exact, has_text, is_join, is_true, meaning, number_or_fault, of_number, of_pair, of_text, signed_number, truth, untyped};
ghost use Rattle.svc_expr.specs.Operand.{value_of};
ghost use Rattle.svc_expr.specs.Tree.{tree_of};

use crate::members::{greatest_of, least_of, sum_of};
use crate::numbers::{calculate, counts_as_true, from_bool, negated};
use crate::operand::{Operand, View};
use crate::texts::{combine, count_characters, parse_number, print_number};
use crate::value_ref::{ValueRef, borrowed_value};
use crate::{Expr, ExprKind, Op};
use std::alloc::Global;
use svc_value::limits::MAX_DEPENDENCIES;
use svc_value::{Fault, OutOfMemory, Value};

fn named<'a>(given: &'a [Value], place: u8) -> Operand<'a>
    ensures { value_of result ≡ slice_index_or given.now place untyped }
{
    match given.get(usize::from(place)) {
        Some(value) => Operand::of(value),
        None => Operand::Made(Value::Bad(Fault::Number)),
    }
}

fn negation(operand: &Operand) -> Value
    ensures { result ≡ of_number (λ z. exact (neg_ℤ z)) (value_of operand.now) }
{
    match operand.view() {
        View::Int(number) => negated(number),
        View::Text(_) => Value::Bad(Fault::Number),
        View::Bad(fault) => Value::Bad(fault),
    }
}

fn denial(operand: &Operand) -> Value
    ensures { result ≡ of_number (λ z. truth (not (is_true z))) (value_of operand.now) }
{
    match operand.view() {
        View::Int(number) => from_bool(!counts_as_true(number)),
        View::Text(_) => Value::Bad(Fault::Number),
        View::Bad(fault) => Value::Bad(fault),
    }
}

fn len_of(operand: &Operand) -> Value
    ensures { result ≡ of_text characters (value_of operand.now) }
{
    match operand.view() {
        View::Int(_) => Value::Bad(Fault::Number),
        View::Text(text) => count_characters(text),
        View::Bad(fault) => Value::Bad(fault),
    }
}

fn number_of(operand: &Operand) -> Value
    ensures { result ≡ of_text (λ text. number_or_fault (signed_number text)) (value_of operand.now) }
{
    match operand.view() {
        View::Int(_) => Value::Bad(Fault::Number),
        View::Text(text) => parse_number(text),
        View::Bad(fault) => Value::Bad(fault),
    }
}

fn text_of(alloc: Global, operand: &Operand) -> Result<Value, OutOfMemory>
    ensures { IfOk result (λ value. value ≡ of_number (λ z. Words (signed_decimal z)) (value_of operand.now)) }
{
    match operand.view() {
        View::Int(number) => print_number(alloc, number),
        View::Text(_) => Ok(Value::Bad(Fault::Number)),
        View::Bad(fault) => Ok(Value::Bad(fault)),
    }
}

fn pair_of(alloc: Global, op: Op, left: &Operand, right: &Operand) -> Result<Value, OutOfMemory>
    ensures value { IfOk result (λ value. value ≡ of_pair op (value_of left.now) (value_of right.now)) }
    ensures no_memory { OnErr result (is_join op ≡ true) }
{
    match (left.view(), right.view()) {
        (View::Bad(fault), _) => Ok(Value::Bad(fault)),
        (_, View::Bad(fault)) => Ok(Value::Bad(fault)),
        (View::Int(x), View::Int(y)) => Ok(calculate(op, x, y)),
        (View::Text(x), View::Text(y)) => combine(alloc, op, x, y),
        _ => Ok(Value::Bad(Fault::Number)),
    }
}

// The value of a part, with the texts that are made for it.
#[tactic(auto, using(std::proofs::lemmas::Bool::or_left, std::proofs::lemmas::Bool::or_right))]
fn part<'a>(
    alloc: Global,
    expr: &'a Expr,
    given: &'a [Value],
    members: &[Value],
) -> Result<Operand<'a>, OutOfMemory>
    requires { length members.now ≤ MAX_DEPENDENCIES }
    ensures value { IfOk result (λ operand. value_of operand ≡ meaning (tree_of expr.now) given.now members.now) }
    ensures no_memory { OnErr result (has_text (tree_of expr.now) ≡ true) }
{
    match expr.kind.get() {
        ExprKind::Int(number) => Ok(Operand::Made(Value::Int(*number))),
        ExprKind::Words(text) => Ok(Operand::Lent(text)),
        ExprKind::Given(place) => Ok(named(given, *place)),
        ExprKind::Neg(a) => {
            let operand = part(alloc, a, given, members)?;
            Ok(Operand::Made(negation(&operand)))
        }
        ExprKind::Not(a) => {
            let operand = part(alloc, a, given, members)?;
            Ok(Operand::Made(denial(&operand)))
        }
        ExprKind::Pair(op, a, b) => {
            let left = part(alloc, a, given, members)?;
            let right = part(alloc, b, given, members)?;
            Ok(Operand::Made(pair_of(alloc, *op, &left, &right)?))
        }
        ExprKind::If(condition, a, b) => {
            let condition = part(alloc, condition, given, members)?;
            match condition.view() {
                View::Int(number) if counts_as_true(number) => part(alloc, a, given, members),
                View::Int(_) => part(alloc, b, given, members),
                View::Text(_) => Ok(Operand::Made(Value::Bad(Fault::Number))),
                View::Bad(fault) => Ok(Operand::Made(Value::Bad(fault))),
            }
        }
        ExprKind::Len(a) => {
            let operand = part(alloc, a, given, members)?;
            Ok(Operand::Made(len_of(&operand)))
        }
        ExprKind::Number(a) => {
            let operand = part(alloc, a, given, members)?;
            Ok(Operand::Made(number_of(&operand)))
        }
        ExprKind::TextOf(a) => {
            let operand = part(alloc, a, given, members)?;
            Ok(Operand::Made(text_of(alloc, &operand)?))
        }
        ExprKind::Sum => Ok(Operand::Made(sum_of(members))),
        ExprKind::Count => Ok(Operand::Made(Value::Int(members.len() as i64))),
        ExprKind::Min => Ok(Operand::Made(least_of(members))),
        ExprKind::Max => Ok(Operand::Made(greatest_of(members))),
    }
}

/// The value of the expression where the k-th name has the k-th given value. A fault is a value; `OutOfMemory` for want of
/// memory alone, and never on a tree without texts, joins and `text(..)` over given values that are no texts.
pub fn eval(
    alloc: Global,
    expr: &Expr,
    given: &[Value],
    members: &[Value],
) -> Result<Value, OutOfMemory>
    requires { length members.now ≤ MAX_DEPENDENCIES }
    ensures value { IfOk result (λ value. value ≡ meaning (tree_of expr.now) given.now members.now) }
    ensures no_memory { has_text (tree_of expr.now) ≡ false → All IsNoText given.now → IsOk result }
{
    match borrowed_value(expr, given, members) {
        ValueRef::Int(number) => Ok(Value::Int(number)),
        ValueRef::Text(text) => Ok(Value::Words(text.copy()?)),
        ValueRef::Bad(fault) => Ok(Value::Bad(fault)),
        ValueRef::Unknown => part(alloc, expr, given, members)?.into_value(),
    }
}
