// Texts: as one, their numbers of characters, the whole numbers that they spell, and the decimal text of a number.
ghost use Rattle.std.specs.Prelude.{◌≡◌, ◌≤◌, true, length, IfOk, OnErr};
ghost use Rattle.svc_expr.specs.Meaning.{characters, is_join, concatenation, number_or_fault, of_texts, signed_number};
ghost use Rattle.std.specs.Fmt.{signed_decimal};
ghost use Rattle.svc_value.specs.declared.value.Value.TheVariants.{Words};

use crate::Op;
use crate::numbers::compare;
use itoa::Buffer;
use std::alloc::Global;
use svc_value::{Fault, MAX_TEXT_LEN, OutOfMemory, TextError, Value, ValueText};

fn stored(alloc: Global, text: &str) -> Result<Value, OutOfMemory>
    requires { length text.now ≤ MAX_TEXT_LEN }
    ensures { IfOk result (λ value. value ≡ Words text.now) }
{
    match ValueText::new(alloc, text) {
        Ok(text) => Ok(Value::Words(text)),
        Err(_) => Err(OutOfMemory),
    }
}

fn join(alloc: Global, x: &str, y: &str) -> Result<Value, OutOfMemory>
    ensures { IfOk result (λ value. value ≡ concatenation x.now y.now) }
{
    if x.len() > MAX_TEXT_LEN || y.len() > MAX_TEXT_LEN - x.len() {
        return Ok(Value::Bad(Fault::Long));
    }
    let mut text = String::with_capacity(alloc, x.len() + y.len())?;
    text.push_str(x)?;
    text.push_str(y)?;
    stored(alloc, &text)
}

/// `x op y`
pub(crate) fn combine(alloc: Global, op: Op, x: &str, y: &str) -> Result<Value, OutOfMemory>
    ensures value { IfOk result (λ value. value ≡ of_texts op x.now y.now) }
    ensures no_memory { OnErr result (is_join op ≡ true) }
{
    match op {
        Op::Join => join(alloc, x, y),
        _ => Ok(compare(op, x.cmp(y))),
    }
}

/// How many characters the text has.
pub(crate) fn count_characters(text: &str) -> Value
    ensures { result ≡ characters text.now }
{
    Value::Int(text.chars().count() as i64)
}

/// The whole number that the text spells, or the fault `number`.
pub(crate) fn parse_number(text: &str) -> Value
    ensures { result ≡ number_or_fault (signed_number text.now) }
{
    if text.starts_with('+') {
        return Value::Bad(Fault::Number);
    }
    match text.parse::<i64>() {
        Ok(number) => Value::Int(number),
        Err(_) => Value::Bad(Fault::Number),
    }
}

/// The decimal text of a number.
pub(crate) fn print_number(alloc: Global, number: i64) -> Result<Value, OutOfMemory>
    ensures { IfOk result (λ value. value ≡ Words (signed_decimal number)) }
{
    let mut buffer = Buffer::new();
    stored(alloc, buffer.format(number))
}
