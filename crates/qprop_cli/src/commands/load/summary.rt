// The line that sums up the run of a document.
ghost use Rattle.std.specs.Prelude.{◌≡◌, ◌≤◌, ◌++◌, [], length, IfOk, OnOk};
ghost use Rattle.std.specs.Fmt.{signed_decimal};
ghost use Rattle.svc_expr.specs.Meaning.{numbers_in, total};
ghost use Rattle.svc_plan.specs.Rows.{AreLegsAfter};
ghost use Rattle.qprop_cli.specs.Commands.Load.{fault_count, load_line};

use crate::commands::counts::append_counts;
use itoa::Buffer;
use std::alloc::Global;
use svc_plan::Leg;
use svc_value::limits::{MAX_LEGS, MAX_SERVICES};
use svc_value::{OutOfMemory, Value, print_value};

/// The line of a document with these legs and these settled values, in memory of `alloc`.
pub(crate) fn load_text(
    alloc: Global,
    legs: &[Leg],
    values: &[Value],
) -> Result<Vec<u8>, OutOfMemory>
    requires legs { AreLegsAfter [] legs.now }
    requires few { length legs.now ≤ MAX_LEGS }
    requires values { length values.now ≤ MAX_SERVICES }
    ensures { IfOk result (λ text. text.items ≡ load_line legs.now values.now) }
{
    let mut text = Vec::from_slice(alloc, b"load ")?;
    append_counts(legs, &mut text)?;
    text.extend_from_slice(b" faults=")?;
    print_value(&Value::Int(fault_count(values) as i64), &mut text)?;
    text.extend_from_slice(b" sum=")?;
    append_sum(exact_sum(values), &mut text)?;
    text.extend_from_slice(b"\n")?;
    Ok(text)
}

// How many of the values are faults.
fn fault_count(values: &[Value]) -> u64
    requires { length values.now ≤ MAX_SERVICES }
    ensures count { result ≡ fault_count values.now }
    ensures few { result ≤ MAX_SERVICES }
{
    let mut count = 0u64;
    for value in values {
        if matches!(value, Value::Bad(_)) {
            count += 1;
        }
    }
    count
}

// The exact sum of the whole numbers among the values.
fn exact_sum(values: &[Value]) -> i128
    requires { length values.now ≤ MAX_SERVICES }
    ensures { result ≡ total (numbers_in values.now) }
{
    let mut sum: i128 = 0;
    for value in values {
        if let Value::Int(number) = value {
            sum += *number as i128;
        }
    }
    sum
}

// Appends the decimal digits of a sum, with `-` where it is negative.
fn append_sum(sum: i128, out: &mut Vec<u8>) -> Result<(), OutOfMemory>
    ensures { OnOk result (out.new.items ≡ out.old.items ++ signed_decimal sum) }
{
    let mut buffer = Buffer::new();
    out.extend_from_slice(buffer.format(sum).as_bytes())?;
    Ok(())
}
