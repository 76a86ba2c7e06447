// Literals, and the texts that values are printed as, read.
ghost use Rattle.std.specs.Prelude.{ℕ, List, ◌≡◌, ◌≢◌, ◌<◌, ◌≤◌, length, take, slice_index, IfOk, IfErr, MatchBool};
ghost use Rattle.svc_value.specs.Literal.{IsLiteral, IsSomeLiteral, IsPrinted, IsSomePrinted, IsWholeQuoted, IsRefused};
ghost use Rattle.svc_value.specs.Reading.{BeginsWith, IsQuotedValue, fault_by};
ghost use Rattle.svc_value.specs.Printed.{fault_text, printed_value};
ghost use Rattle.svc_value.specs.Layout.{IsWithin};

use crate::digits::read_number;
use crate::inside::{Form, read_quoted};
use crate::printing::fault_text;
use crate::{Fault, Value};
use std::alloc::{AllocError, Global};

/// Why a text is refused.
#[derive(Clone, Copy, Debug, PartialEq, Eq)]
pub enum LiteralError {
    /// The text is none of those that are read: its first `place` bytes begin one, and no more do.
    Bad { place: usize },
    /// Out of memory.
    OutOfMemory,
}

impl From<AllocError> for LiteralError {
    ghost use Rattle.svc_value.specs.declared.literal.LiteralError.TheVariants.{OutOfMemory};
    ghost use Rattle.std.specs.Prelude.{◌≡◌};

    ghost from_gives = { λ _ e. e ≡ OutOfMemory };

    fn from(_: AllocError) -> Self {
        LiteralError::OutOfMemory
    }
}

/// The value of the literal that `text` is: decimal digits, `-` directly followed by decimal digits, or a quoted text;
/// memory for a text comes from `alloc`. A number has 64 bits, and leading zeros are allowed; a quoted text means at most
/// 256 bytes. `Bad` exactly where `text` is no literal: `place` is the length of the longest front that begins one.
/// `OutOfMemory` when memory runs out.
pub fn read_literal(alloc: Global, text: &str) -> Result<Value, LiteralError>
    ensures ok { IfOk result (λ value. IsLiteral text.now value) }
    ensures bad { IfErr result (IsRefused IsSomeLiteral text.now) }
{
    let bytes = text.as_bytes();
    if begins_with(bytes, b'"') {
        read_text(alloc, text, Form::Any)
    } else {
        read_number(bytes, Form::Any)
    }
}

/// The value that is printed as `text`; memory for a text comes from `alloc`. `Bad` exactly where no value is: `place` is
/// the length of the longest front that begins the text of one. `OutOfMemory` when memory runs out.
pub fn read_value(alloc: Global, text: &str) -> Result<Value, LiteralError>
    ensures ok { IfOk result (λ value. IsPrinted text.now value) }
    ensures bad { IfErr result (IsRefused IsSomePrinted text.now) }
{
    let bytes = text.as_bytes();
    if begins_with(bytes, b'"') {
        read_text(alloc, text, Form::Printed)
    } else if begins_with(bytes, b'!') {
        read_fault(bytes)
    } else {
        read_number(bytes, Form::Printed)
    }
}

/// A text is at most one literal.
pub fn one_literal()
    ensures { (text : List ℕ) (a b : Value) → IsLiteral text a → IsLiteral text b → a ≡ b }
{}

/// Two values are not printed alike.
pub fn one_printed()
    ensures { (a b : Value) → IsWithin a → IsWithin b → printed_value a ≡ printed_value b → a ≡ b }
{}

// The quoted text that all of `text` is, in a form of `form`.
fn read_text(alloc: Global, text: &str, form: Form) -> Result<Value, LiteralError>
    ensures ok { IfOk result (IsQuotedValue form text.now) }
    ensures bad { IfErr result (IsRefused (IsWholeQuoted form) text.now) }
{
    match read_quoted(alloc, text, form) {
        Ok((words, len)) if len == text.len() => Ok(Value::Words(words)),
        Ok((_, len)) => Err(LiteralError::Bad { place: len }),
        Err(error) => Err(error),
    }
}

// The fault that is printed as these bytes, which begin with `!`.
fn read_fault(bytes: &[u8]) -> Result<Value, LiteralError>
    requires mark { BeginsWith bytes.now 33 }
    ensures ok { IfOk result (IsPrinted bytes.now) }
    ensures bad { IfErr result (IsRefused IsSomePrinted bytes.now) }
{
    match fault_by(bytes) {
        Some(fault) => read_name(bytes, fault),
        None => Err(LiteralError::Bad { place: 1 }),
    }
}

// The fault that these bytes can be, by the first letter of its name.
fn fault_by(bytes: &[u8]) -> Option<Fault>
    ensures { result ≡ fault_by bytes.now }
{
    if bytes.len() < 2 {
        return None;
    }
    match bytes[1] {
        b'o' => Some(Fault::Overflow),
        b'z' => Some(Fault::Zero),
        b'l' => Some(Fault::Long),
        b'n' => Some(Fault::Number),
        b'e' => Some(Fault::Empty),
        _ => None,
    }
}

// The fault, where all of the bytes are its text.
fn read_name(bytes: &[u8], fault: Fault) -> Result<Value, LiteralError>
    ensures ok { IfOk result (λ value. (value ≡ Value.Bad fault) × (bytes.now ≡ fault_text fault)) }
    ensures bad { IfErr result (IsRefused (λ text. text ≡ fault_text fault) bytes.now) }
{
    let text = fault_text(fault).as_bytes();
    let common = common_len(bytes, text);
    if common < bytes.len() || common < text.len() {
        return Err(LiteralError::Bad { place: common });
    }
    Ok(Value::Bad(fault))
}

fn begins_with(bytes: &[u8], byte: u8) -> bool
    requires { 0 < byte }
    ensures begins { MatchBool result (BeginsWith bytes.now byte) (slice_index bytes.now 0 ≢ byte) }
{
    !bytes.is_empty() && bytes[0] == byte
}

// How many bytes two lists have in common from their front on.
fn common_len(left: &[u8], right: &[u8]) -> usize
    ensures left { result ≤ length left.now }
    ensures right { result ≤ length right.now }
    ensures same { take result left.now ≡ take result right.now }
    ensures differ { result < length left.now → result < length right.now → slice_index left.now result ≢ slice_index right.now result }
{
    let mut common = 0;
    while common < left.len() && common < right.len() && left[common] == right[common] {
        common += 1;
    }
    common
}
