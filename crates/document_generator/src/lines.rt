// The lines of a generated document.
ghost use Rattle.std.specs.Prelude.{◌≡◌, ◌<◌, ◌≤◌, ◌+◌, ◌++◌, codes, OnOk};
ghost use Rattle.document_generator.specs.Generator.{number_text, input_name, derived_name, service_name, pair_text, input_line, derived_head, derived_line, set_line, add_line, drop_line};

use svc_value::limits::MAX_SERVICES;
use svc_value::{OutOfMemory, Value, print_value};

// Appends a number.
fn write_number(out: &mut Vec<u8>, number: u16) -> Result<(), OutOfMemory>
    ensures { OnOk result (out.new.items ≡ out.old.items ++ number_text number) }
{
    print_value(&Value::Int(i64::from(number)), out)
}

// Appends the name of the k-th input.
fn write_input_name(out: &mut Vec<u8>, k: u16) -> Result<(), OutOfMemory>
    ensures { OnOk result (out.new.items ≡ out.old.items ++ input_name k) }
{
    out.extend_from_slice(b"i")?;
    write_number(out, k)
}

// Appends the name of the j-th derived service.
fn write_derived_name(out: &mut Vec<u8>, j: u16) -> Result<(), OutOfMemory>
    ensures { OnOk result (out.new.items ≡ out.old.items ++ derived_name j) }
{
    out.extend_from_slice(b"d")?;
    write_number(out, j)
}

// Appends the name of service n.
fn write_service_name(out: &mut Vec<u8>, inputs: u16, n: u16) -> Result<(), OutOfMemory>
    requires { n < MAX_SERVICES }
    ensures { OnOk result (out.new.items ≡ out.old.items ++ service_name inputs n) }
{
    if n < inputs {
        write_input_name(out, n + 1)
    } else {
        write_derived_name(out, n + 1 - inputs)
    }
}

// Appends the names of two members, or one where both are the same.
fn write_pair(out: &mut Vec<u8>, inputs: u16, p: u16, q: u16) -> Result<(), OutOfMemory>
    requires p { p < MAX_SERVICES }
    requires q { q < MAX_SERVICES }
    ensures { OnOk result (out.new.items ≡ out.old.items ++ pair_text inputs p q) }
{
    write_service_name(out, inputs, p)?;
    if p == q {
        return Ok(());
    }
    out.extend_from_slice(b", ")?;
    write_service_name(out, inputs, q)
}

/// Appends the line of the k-th input.
pub fn write_input(out: &mut Vec<u8>, k: u16, value: u16) -> Result<(), OutOfMemory>
    ensures { OnOk result (out.new.items ≡ out.old.items ++ (input_line k value ++ codes "\n")) }
{
    out.extend_from_slice(b"input ")?;
    write_input_name(out, k)?;
    out.extend_from_slice(b" : int = ")?;
    write_number(out, value)?;
    out.extend_from_slice(b"\n")?;
    Ok(())
}

// Appends the name of the j-th derived service, its type and its rank.
fn write_head(out: &mut Vec<u8>, j: u16) -> Result<(), OutOfMemory>
    ensures { OnOk result (out.new.items ≡ out.old.items ++ derived_head j) }
{
    out.extend_from_slice(b"derived ")?;
    write_derived_name(out, j)?;
    out.extend_from_slice(b" : int rank ")?;
    write_number(out, j)
}

/// Appends the line of the j-th derived service.
pub fn write_derived(
    out: &mut Vec<u8>,
    inputs: u16,
    j: u16,
    p: u16,
    q: u16,
) -> Result<(), OutOfMemory>
    requires p { p < MAX_SERVICES }
    requires q { q < MAX_SERVICES }
    ensures { OnOk result (out.new.items ≡ out.old.items ++ (derived_line inputs j p q ++ codes "\n")) }
{
    write_head(out, j)?;
    out.extend_from_slice(b" = sum() over ")?;
    write_pair(out, inputs, p, q)?;
    out.extend_from_slice(b"\n")?;
    Ok(())
}

/// Appends the line that sets the k-th input.
pub fn write_set(out: &mut Vec<u8>, k: u16, value: u16) -> Result<(), OutOfMemory>
    ensures { OnOk result (out.new.items ≡ out.old.items ++ (set_line k value ++ codes "\n")) }
{
    out.extend_from_slice(b"set ")?;
    write_input_name(out, k)?;
    out.extend_from_slice(b" = ")?;
    write_number(out, value)?;
    out.extend_from_slice(b"\n")?;
    Ok(())
}

/// Appends the line that gives the j-th derived service a member.
pub fn write_add(out: &mut Vec<u8>, inputs: u16, j: u16, q: u16) -> Result<(), OutOfMemory>
    requires { q < MAX_SERVICES }
    ensures { OnOk result (out.new.items ≡ out.old.items ++ (add_line inputs j q ++ codes "\n")) }
{
    out.extend_from_slice(b"add ")?;
    write_derived_name(out, j)?;
    out.extend_from_slice(b" ")?;
    write_service_name(out, inputs, q)?;
    out.extend_from_slice(b"\n")?;
    Ok(())
}

/// Appends the line that takes a member of the j-th derived service.
pub fn write_drop(out: &mut Vec<u8>, inputs: u16, j: u16, q: u16) -> Result<(), OutOfMemory>
    requires { q < MAX_SERVICES }
    ensures { OnOk result (out.new.items ≡ out.old.items ++ (drop_line inputs j q ++ codes "\n")) }
{
    out.extend_from_slice(b"drop ")?;
    write_derived_name(out, j)?;
    out.extend_from_slice(b" ")?;
    write_service_name(out, inputs, q)?;
    out.extend_from_slice(b"\n")?;
    Ok(())
}
