// The line of a refusal.
ghost use Rattle.std.specs.Prelude.{◌≡◌, IfOk};
ghost use Rattle.qprop_cli.specs.Refusals.{code_text, refusal_line};

use document_reading::{Code, Refusal};
use std::alloc::Global;
use svc_value::{OutOfMemory, Value, print_value};

/// The name of a code, as it is printed.
fn code_name(code: Code) -> &'static str
    ensures { result.now ≡ code_text code }
{
    match code {
        Code::E01 => "E01",
        Code::E02 => "E02",
        Code::E03 => "E03",
        Code::E04 => "E04",
        Code::E05 => "E05",
        Code::E06 => "E06",
        Code::E07 => "E07",
        Code::E08 => "E08",
        Code::E09 => "E09",
        Code::E10 => "E10",
        Code::E11 => "E11",
        Code::E12 => "E12",
        Code::E13 => "E13",
        Code::E14 => "E14",
        Code::E15 => "E15",
        Code::E16 => "E16",
        Code::E17 => "E17",
        Code::E18 => "E18",
        Code::E19 => "E19",
        Code::E20 => "E20",
        Code::E21 => "E21",
    }
}

/// The line `refused LINE CODE` of `refusal`, in memory of `alloc`.
pub(crate) fn refusal_text(alloc: Global, refusal: Refusal) -> Result<Vec<u8>, OutOfMemory>
    ensures { IfOk result (λ text. text.items ≡ refusal_line refusal) }
{
    let mut text = Vec::from_slice(alloc, b"refused ")?;
    print_value(&Value::Int(i64::from(refusal.line)), &mut text)?;
    text.extend_from_slice(b" ")?;
    text.extend_from_slice(code_name(refusal.code).as_bytes())?;
    text.extend_from_slice(b"\n")?;
    Ok(text)
}
