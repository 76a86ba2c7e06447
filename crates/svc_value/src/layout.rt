// The bytes of a value.
ghost use Rattle.std.specs.Prelude.{◌≡◌, ◌≤◌, ◌++◌, ◌∷◌, [], ℕ, List, length, OnOk, OnErr};
ghost use Rattle.std.specs.Str.{IsUtf8};
ghost use Rattle.std.specs.Int.{w16, w64, to_be_bytes, cast_unsigned};
ghost use Rattle.svc_value.specs.Layout.{fault_code, layout, IsWithin};

use crate::limits::MAX_TEXT_LEN;
use crate::{Fault, OutOfMemory, Value, ValueText};

/// Appends the bytes of `value`: a tag, and then a whole number in 8 bytes, a text behind its length in 2 bytes, or the
/// code of a fault. After `OutOfMemory` `out` is as it was.
pub fn put_value(value: &Value, out: &mut Vec<u8>) -> Result<(), OutOfMemory>
    ensures ok { OnOk result (out.new.items ≡ out.old.items ++ layout value.now) }
    ensures within { IsWithin value.now }
    ensures err { OnErr result (out.new.items ≡ out.old.items) }
{
    match value {
        Value::Int(number) => put_number(*number, out),
        Value::Words(text) => put_text(text, out),
        Value::Bad(fault) => put_fault(*fault, out),
    }
}

fn put_number(number: i64, out: &mut Vec<u8>) -> Result<(), OutOfMemory>
    ensures ok { OnOk result (out.new.items ≡ out.old.items ++ 1 ∷ to_be_bytes w64 (cast_unsigned w64 number)) }
    ensures err { OnErr result (out.new.items ≡ out.old.items) }
{
    out.reserve(9)?;
    out.push_reserved(1);
    out.extend_from_slice(&number.to_be_bytes())?;
    Ok(())
}

fn put_text(text: &ValueText, out: &mut Vec<u8>) -> Result<(), OutOfMemory>
    ensures ok { OnOk result (out.new.items ≡ out.old.items ++ 2 ∷ to_be_bytes w16 (length text.now) ++ text.now) }
    ensures within { (length text.now ≤ MAX_TEXT_LEN) × IsUtf8 text.now }
    ensures err { OnErr result (out.new.items ≡ out.old.items) }
{
    let bytes = text.as_str().as_bytes();
    let len = bytes.len() as u16;
    out.reserve(3 + bytes.len())?;
    out.push_reserved(2);
    out.extend_from_slice(&len.to_be_bytes())?;
    out.extend_from_slice(bytes)?;
    Ok(())
}

fn put_fault(fault: Fault, out: &mut Vec<u8>) -> Result<(), OutOfMemory>
    ensures ok { OnOk result (out.new.items ≡ out.old.items ++ 3 ∷ fault_code fault ∷ []) }
    ensures err { OnErr result (out.new.items ≡ out.old.items) }
{
    out.extend_from_slice(&[3, code_of(fault)])?;
    Ok(())
}

fn code_of(fault: Fault) -> u8
    ensures { result ≡ fault_code fault }
{
    match fault {
        Fault::Overflow => 1,
        Fault::Zero => 2,
        Fault::Long => 3,
        Fault::Number => 4,
        Fault::Empty => 5,
    }
}

/// No value's bytes begin another's: bytes begin with one value at most.
pub fn one_value()
    ensures { (a b : Value) (xs ys : List ℕ) → IsWithin a → IsWithin b → layout a ++ xs ≡ layout b ++ ys → (a ≡ b) × (xs ≡ ys) }
{}
