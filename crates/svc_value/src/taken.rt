// What is taken from the front of some bytes as a value.
ghost use Rattle.std.specs.Prelude.{◌≡◌, ◌≤◌, ◌<◌, ◌⊎◌, ◌∷◌, length, take, drop, IfOk, IfErr, IfSome, IsNone, OnErr};
ghost use Rattle.std.specs.Str.{IsValidUpTo, valid_up_to, error_len};
ghost use Rattle.std.specs.Str.Lossy.{utf8_error_len};
ghost use Rattle.svc_value.specs.Layout.{fault_code};
ghost use Rattle.svc_value.specs.Prefix.{IsPlace};
ghost use Rattle.svc_value.specs.Taken.{HasTextLen, IsAtFront, IsRefusedValue};
ghost use Rattle.svc_value.specs.Utf8Front.{IsTextOf, char_len};

use crate::{Fault, MAX_TEXT_LEN, OutOfMemory, Value, ValueText};
use std::alloc::Global;
use std::str;
use std::str::Utf8Error;

/// Why bytes begin with no value: the field of the first wrong byte, or that the bytes end too soon.
#[derive(Clone, Copy, Debug, PartialEq, Eq)]
pub enum ValueReason {
    /// The bytes end before the value does.
    Short,
    /// The first byte is none of the three tags.
    Tag,
    /// The length of a text is above 256.
    Length,
    /// A text is not UTF-8.
    Utf8,
    /// The code is that of no fault.
    FaultCode,
}

/// Why no value is taken.
#[derive(Clone, Copy, Debug, PartialEq, Eq)]
pub enum ValueError {
    /// No front of the bytes is a value: the first `place` of them begin one, no more do, for this reason.
    Bad { place: usize, reason: ValueReason },
    /// Out of memory.
    OutOfMemory,
}

impl From<OutOfMemory> for ValueError {
    ghost use Rattle.svc_value.specs.declared.taken.ValueError.TheVariants.{OutOfMemory};
    ghost use Rattle.std.specs.Prelude.{◌≡◌};

    ghost from_gives = { λ _ e. e ≡ OutOfMemory };

    fn from(_: OutOfMemory) -> Self {
        ValueError::OutOfMemory
    }
}

/// The value whose bytes `bytes` begin with, and how many they are; a text is copied to memory of `alloc`. `Bad` exactly
/// where they begin with none: `place` is the length of the longest front that begins a value, and `reason` the field of
/// the byte behind it, or `Short` exactly where `place` is the whole length. `OutOfMemory` when memory runs out.
#[tactic(auto, using(crate::proofs::ValuePlaces::nothing_bad, crate::proofs::ValuePlaces::tag_bad))]
pub fn take_value(alloc: Global, bytes: &[u8]) -> Result<(Value, usize), ValueError>
    ensures ok { IfOk result (λ taken. IsAtFront bytes.now taken.0 taken.1) }
    ensures bad { IfErr result (IsRefusedValue bytes.now) }
{
    match bytes {
        [] => Err(ValueError::Bad {
            place: 0,
            reason: ValueReason::Short,
        }),
        [1, rest @ ..] => take_number(rest),
        [2, rest @ ..] => take_text(alloc, rest),
        [3, rest @ ..] => take_fault(rest),
        _ => Err(ValueError::Bad {
            place: 0,
            reason: ValueReason::Tag,
        }),
    }
}

// The value behind the tag of a whole number.
#[tactic(auto, using(crate::proofs::ValuePlaces::number_bad))]
fn take_number(rest: &[u8]) -> Result<(Value, usize), ValueError>
    ensures ok { IfOk result (λ taken. IsAtFront (1 ∷ rest.now) taken.0 taken.1) }
    ensures bad { IfErr result (IsRefusedValue (1 ∷ rest.now)) }
{
    match rest {
        [a, b, c, d, e, f, g, h, ..] => {
            let number = i64::from_be_bytes([*a, *b, *c, *d, *e, *f, *g, *h]);
            Ok((Value::Int(number), 9))
        }
        _ => Err(ValueError::Bad {
            place: 1 + rest.len(),
            reason: ValueReason::Short,
        }),
    }
}

// The value behind the tag of a fault.
#[tactic(auto, using(crate::proofs::ValueReads::no_code, crate::proofs::ValueReads::wrong_code, crate::proofs::ValueReads::fault_read))]
fn take_fault(rest: &[u8]) -> Result<(Value, usize), ValueError>
    ensures ok { IfOk result (λ taken. IsAtFront (3 ∷ rest.now) taken.0 taken.1) }
    ensures bad { IfErr result (IsRefusedValue (3 ∷ rest.now)) }
{
    if rest.is_empty() {
        return Err(ValueError::Bad {
            place: 1,
            reason: ValueReason::Short,
        });
    }
    match fault_of(rest[0]) {
        Some(fault) => Ok((Value::Bad(fault), 2)),
        None => Err(ValueError::Bad {
            place: 1,
            reason: ValueReason::FaultCode,
        }),
    }
}

fn fault_of(code: u8) -> Option<Fault>
    ensures some { IfSome result (λ fault. fault_code fault ≡ code) }
    ensures none { IsNone result → (code < 1) ⊎ (5 < code) }
{
    match code {
        1 => Some(Fault::Overflow),
        2 => Some(Fault::Zero),
        3 => Some(Fault::Long),
        4 => Some(Fault::Number),
        5 => Some(Fault::Empty),
        _ => None,
    }
}

// The value behind the tag of a text.
#[tactic(auto, using(crate::proofs::ValueReads::text_read, crate::proofs::ValueReads::text_ends, crate::proofs::ValueReads::text_wrong))]
fn take_text(alloc: Global, rest: &[u8]) -> Result<(Value, usize), ValueError>
    ensures ok { IfOk result (λ taken. IsAtFront (2 ∷ rest.now) taken.0 taken.1) }
    ensures bad { IfErr result (IsRefusedValue (2 ∷ rest.now)) }
{
    let len = text_len(rest)?;
    let body = &rest[2..];
    match text_of(body, len) {
        Ok(text) => Ok((Value::Words(ValueText::kept(alloc, text)?), 3 + len)),
        Err(place) if place == body.len() => Err(ValueError::Bad {
            place: 3 + place,
            reason: ValueReason::Short,
        }),
        Err(place) => Err(ValueError::Bad {
            place: 3 + place,
            reason: ValueReason::Utf8,
        }),
    }
}

// The length of the text behind its tag.
#[tactic(auto, using(crate::proofs::ValueReads::no_length, crate::proofs::ValueReads::high_wrong, crate::proofs::ValueReads::half_length, crate::proofs::ValueReads::low_wrong))]
fn text_len(rest: &[u8]) -> Result<usize, ValueError>
    ensures ok { IfOk result (λ len. HasTextLen rest.now len) }
    ensures bad { IfErr result (IsRefusedValue (2 ∷ rest.now)) }
{
    if rest.is_empty() {
        return Err(ValueError::Bad {
            place: 1,
            reason: ValueReason::Short,
        });
    }
    if rest[0] > 1 {
        return Err(ValueError::Bad {
            place: 1,
            reason: ValueReason::Length,
        });
    }
    if rest.len() == 1 {
        return Err(ValueError::Bad {
            place: 2,
            reason: ValueReason::Short,
        });
    }
    let len = usize::from(rest[0]) * 256 + usize::from(rest[1]);
    if len > MAX_TEXT_LEN {
        return Err(ValueError::Bad {
            place: 2,
            reason: ValueReason::Length,
        });
    }
    Ok(len)
}

// The first `len` bytes as a text, or how many of the bytes begin a text of that length.
#[tactic(auto, using(crate::proofs::Utf8Places::text_short, crate::proofs::Utf8Places::text_cut))]
fn text_of(bytes: &[u8], len: usize) -> Result<&str, usize>
    ensures text { IfOk result (λ text. text.now ≡ take len bytes.now) }
    ensures is_text { IfOk result (λ _. IsTextOf len (take len bytes.now)) }
    ensures place { IfErr result (λ place. IsPlace (IsTextOf len) bytes.now place) }
    ensures no_text { OnErr result (¬ (IsTextOf len (take len bytes.now))) }
{
    let front = &bytes[..len.min(bytes.len())];
    match str::from_utf8(front) {
        Ok(text) if text.len() == len => Ok(text),
        Ok(text) => Err(text.len()),
        Err(error) => Err(end_of_text(front, len, error)),
    }
}

// How many of the bytes begin a text of `len` bytes, where `error` says how many of them are one.
#[tactic(auto, using(crate::proofs::Utf8Places::stops_here, crate::proofs::Utf8Places::stops_within))]
fn end_of_text(bytes: &[u8], len: usize, error: Utf8Error) -> usize
    requires valid { IsValidUpTo bytes.now (valid_up_to error) }
    requires fault { error_len error ≡ utf8_error_len (drop (valid_up_to error) bytes.now) }
    requires fits { length bytes.now ≤ len }
    ensures { IsPlace (IsTextOf len) bytes.now result }
{
    let start = error.valid_up_to();
    let first = bytes[start];
    if first < 0xC2 || first > 0xF4 || len - start < char_len(first) {
        return start;
    }
    start + error.error_len().unwrap_or(bytes.len() - start)
}

// How many bytes a character has whose first byte is this.
fn char_len(first: u8) -> usize
    ensures { result ≡ char_len first }
{
    match first {
        0..=0xBF => 1,
        0xC0..=0xDF => 2,
        0xE0..=0xEF => 3,
        _ => 4,
    }
}
