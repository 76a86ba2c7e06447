// The settled text.
ghost use Rattle.std.specs.Prelude.{◌≡◌, ◌++◌, length, codes, OnOk, OnErr};
ghost use Rattle.std.specs.Io.{StartsWith};
ghost use Rattle.svc_value.specs.Printed.{printed_value};
ghost use Rattle.trace_text.specs.Settled.{settle_line, settled_block};

use svc_graph::Book;
use svc_value::{OutOfMemory, ServiceId, Value, print_value};

/// Appends the block of the leg number `k`, from 1, to `out`: the line `settle K`, and one line `NAME VALUE` for each service of
/// `book` in the order of declaration, with the values of `values`, of which there is one for each service. After `OutOfMemory`
/// `out` is as it was.
pub fn settled_text(
    k: u32,
    book: &Book,
    values: &[Value],
    out: &mut Vec<u8>,
) -> Result<(), OutOfMemory>
    requires { length values.now ≡ length book.now }
    ensures ok { OnOk result (out.new.items ≡ out.old.items ++ settled_block k book.now values.now) }
    ensures err { OnErr result (out.new.items ≡ out.old.items) }
{
    let start = out.len();
    let result = append_block(k, book, values, out);
    if result.is_err() {
        out.truncate(start);
    }
    result
}

// Appends the line of a service, of which a front may stand behind `out` after `OutOfMemory`.
fn append_line(name: &str, value: &Value, out: &mut Vec<u8>) -> Result<(), OutOfMemory>
    ensures ok { OnOk result (out.new.items ≡ out.old.items ++ (name.now ++ codes " " ++ printed_value value.now ++ codes "\n")) }
    ensures kept { StartsWith out.new.items out.old.items }
{
    out.extend_from_slice(name.as_bytes())?;
    out.extend_from_slice(b" ")?;
    print_value(value, out)?;
    out.extend_from_slice(b"\n")?;
    Ok(())
}

// Appends the line `settle K`.
fn append_settle(k: u32, out: &mut Vec<u8>) -> Result<(), OutOfMemory>
    ensures ok { OnOk result (out.new.items ≡ out.old.items ++ settle_line k) }
    ensures kept { StartsWith out.new.items out.old.items }
{
    out.extend_from_slice(b"settle ")?;
    print_value(&Value::Int(i64::from(k)), out)?;
    out.extend_from_slice(b"\n")?;
    Ok(())
}

// Appends the block.
fn append_block(k: u32, book: &Book, values: &[Value], out: &mut Vec<u8>) -> Result<(), OutOfMemory>
    requires { length values.now ≡ length book.now }
    ensures ok { OnOk result (out.new.items ≡ out.old.items ++ settled_block k book.now values.now) }
    ensures kept { StartsWith out.new.items out.old.items }
{
    append_settle(k, out)?;
    for i in 0..book.len() {
        append_line(book.name(ServiceId(i as u16)), &values[i], out)?;
    }
    Ok(())
}
