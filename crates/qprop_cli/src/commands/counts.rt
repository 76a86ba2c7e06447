// What an accepted document counts.
ghost use Rattle.std.specs.Prelude.{◌≡◌, ◌≤◌, ◌++◌, [], length, OnOk};
ghost use Rattle.svc_plan.specs.Rows.{AreLegsAfter};
ghost use Rattle.qprop_cli.specs.Commands.Check.{change_count, counts_text, service_count};

use svc_plan::Leg;
use svc_value::limits::MAX_LEGS;
use svc_value::{OutOfMemory, Value, print_value};

// How many services the legs declare, and how many changes they make.
fn counts(legs: &[Leg]) -> (u64, u64)
    requires legs { AreLegsAfter [] legs.now }
    requires few { length legs.now ≤ MAX_LEGS }
    ensures services { result.0 ≡ service_count legs.now }
    ensures changes { result.1 ≡ change_count legs.now }
    ensures small { (result.0 ≤ 64000) × (result.1 ≤ 1024000) }
{
    let mut services = 0u64;
    let mut changes = 0u64;
    for leg in legs {
        services += leg.services.len() as u64;
        changes += leg.changes.len() as u64;
    }
    (services, changes)
}

/// Appends the three counts of a document with these legs. After `OutOfMemory` a front of them may stand behind `out`.
pub(crate) fn append_counts(legs: &[Leg], out: &mut Vec<u8>) -> Result<(), OutOfMemory>
    requires legs { AreLegsAfter [] legs.now }
    requires few { length legs.now ≤ MAX_LEGS }
    ensures { OnOk result (out.new.items ≡ out.old.items ++ counts_text legs.now) }
{
    let (services, changes) = counts(legs);
    out.extend_from_slice(b"services=")?;
    print_value(&Value::Int(services as i64), out)?;
    out.extend_from_slice(b" changes=")?;
    print_value(&Value::Int(changes as i64), out)?;
    out.extend_from_slice(b" settles=")?;
    print_value(&Value::Int(legs.len() as i64), out)?;
    Ok(())
}
