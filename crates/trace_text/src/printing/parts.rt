// Numbers and bytes in a trace line. After `OutOfMemory` a front of what is appended may stand behind `out`.
ghost use Rattle.std.specs.Prelude.{◌≡◌, ◌<◌, ◌++◌, false, OnOk};
ghost use Rattle.std.specs.Fmt.{digit_glyph, decimal};
ghost use Rattle.std.specs.Io.{StartsWith};
ghost use Rattle.trace_text.specs.Lines.{hex};

use itoa::Buffer;
use svc_value::OutOfMemory;

// Appends the decimal digits.
pub(crate) fn append_number(number: u64, out: &mut Vec<u8>) -> Result<(), OutOfMemory>
    ensures ok { OnOk result (out.new.items ≡ out.old.items ++ decimal number) }
    ensures kept { StartsWith out.new.items out.old.items }
{
    let mut buffer = Buffer::new();
    out.extend_from_slice(buffer.format(number).as_bytes())?;
    Ok(())
}

// Appends two hexadecimal digits for each byte.
pub(crate) fn append_hex(bytes: &[u8], out: &mut Vec<u8>) -> Result<(), OutOfMemory>
    ensures ok { OnOk result (out.new.items ≡ out.old.items ++ hex bytes.now) }
    ensures kept { StartsWith out.new.items out.old.items }
{
    for byte in bytes {
        out.extend_from_slice(&[hex_digit(*byte / 16), hex_digit(*byte % 16)])?;
    }
    Ok(())
}

// The digits in lower case.
const DIGITS: [u8; 16] = *b"0123456789abcdef";

// The digit in lower case.
fn hex_digit(digit: u8) -> u8
    requires { digit < 16 }
    ensures { result ≡ digit_glyph false digit }
{
    DIGITS[usize::from(digit)]
}
