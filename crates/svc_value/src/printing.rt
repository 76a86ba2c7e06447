// The text of a value.
ghost use Rattle.std.specs.Prelude.{◌≡◌, ◌<◌, ◌++◌, true, false, OnOk, OnErr};
ghost use Rattle.std.specs.Fmt.{digit_glyph, signed_decimal};
ghost use Rattle.std.specs.List.{position};
ghost use Rattle.std.specs.Io.{StartsWith};
ghost use Rattle.svc_value.specs.Printed.{is_escaped, quoted_byte, between_quotes, fault_text, printed_value};

use crate::{Fault, OutOfMemory, Value};
use itoa::Buffer;

/// Appends the text of `value`: decimal digits with `-` where negative, a quoted text in which each character that does
/// not stand for itself is escaped, or `!` and the name of a fault. After `OutOfMemory` `out` is as it was.
pub fn print_value(value: &Value, out: &mut Vec<u8>) -> Result<(), OutOfMemory>
    ensures ok { OnOk result (out.new.items ≡ out.old.items ++ printed_value value.now) }
    ensures err { OnErr result (out.new.items ≡ out.old.items) }
{
    match value {
        Value::Int(number) => print_number(*number, out),
        Value::Words(text) => print_text(text.as_str().as_bytes(), out),
        Value::Bad(fault) => print_fault(*fault, out),
    }
}

fn print_number(number: i64, out: &mut Vec<u8>) -> Result<(), OutOfMemory>
    ensures ok { OnOk result (out.new.items ≡ out.old.items ++ signed_decimal number) }
    ensures err { OnErr result (out.new.items ≡ out.old.items) }
{
    let mut buffer = Buffer::new();
    out.extend_from_slice(buffer.format(number).as_bytes())?;
    Ok(())
}

fn print_fault(fault: Fault, out: &mut Vec<u8>) -> Result<(), OutOfMemory>
    ensures ok { OnOk result (out.new.items ≡ out.old.items ++ fault_text fault) }
    ensures err { OnErr result (out.new.items ≡ out.old.items) }
{
    out.extend_from_slice(fault_text(fault).as_bytes())?;
    Ok(())
}

// `!` and the name of a fault.
pub(crate) fn fault_text(fault: Fault) -> &'static str
    ensures { result.now ≡ fault_text fault }
{
    match fault {
        Fault::Overflow => "!overflow",
        Fault::Zero => "!zero",
        Fault::Long => "!long",
        Fault::Number => "!number",
        Fault::Empty => "!empty",
    }
}

fn print_text(text: &[u8], out: &mut Vec<u8>) -> Result<(), OutOfMemory>
    ensures ok { OnOk result (out.new.items ≡ out.old.items ++ between_quotes text.now) }
    ensures err { OnErr result (out.new.items ≡ out.old.items) }
{
    let start = out.len();
    let result = print_quoted(text, out);
    if result.is_err() {
        out.truncate(start);
    }
    result
}

// The text between quotes; after `OutOfMemory` a front of it may stand behind what was there.
#[tactic(auto, using(crate::proofs::Quoting::escaped_there))]
fn print_quoted(text: &[u8], out: &mut Vec<u8>) -> Result<(), OutOfMemory>
    ensures ok { OnOk result (out.new.items ≡ out.old.items ++ between_quotes text.now) }
    ensures kept { StartsWith out.new.items out.old.items }
{
    out.push(b'"')?;
    let mut rest = text;
    while let Some(count) = plain_len(rest) {
        out.extend_from_slice(&rest[..count])?;
        print_escape(rest[count], out)?;
        rest = &rest[count + 1..];
    }
    out.extend_from_slice(rest)?;
    out.push(b'"')?;
    Ok(())
}

// How many bytes stand for themselves before the first that does not.
fn plain_len(text: &[u8]) -> Option<usize>
    ensures { result ≡ position is_escaped text.now }
{
    text.iter().position(|byte| is_escaped(*byte))
}

fn is_escaped(byte: u8) -> bool
    ensures { result ≡ is_escaped byte }
{
    byte < 32 || byte == 127 || byte == b'"' || byte == b'\\'
}

// What stands for a byte that does not stand for itself.
fn print_escape(byte: u8, out: &mut Vec<u8>) -> Result<(), OutOfMemory>
    requires { is_escaped byte ≡ true }
    ensures ok { OnOk result (out.new.items ≡ out.old.items ++ quoted_byte byte) }
    ensures err { OnErr result (out.new.items ≡ out.old.items) }
{
    match byte {
        b'"' => out.extend_from_slice(b"\\\"")?,
        b'\\' => out.extend_from_slice(b"\\\\")?,
        b'\n' => out.extend_from_slice(b"\\n")?,
        b'\t' => out.extend_from_slice(b"\\t")?,
        _ => out.extend_from_slice(&[b'\\', b'x', hex_digit(byte / 16), hex_digit(byte % 16)])?,
    }
    Ok(())
}

// The digit in lower case.
fn hex_digit(digit: u8) -> u8
    requires { digit < 16 }
    ensures { result ≡ digit_glyph false digit }
{
    if digit < 10 {
        b'0' + digit
    } else {
        b'a' + (digit - 10)
    }
}
