// Members: the first fault among them, and else their sum, the least or the greatest of them.
ghost use Rattle.std.specs.Prelude.{◌≡◌, ◌≤◌, length};
ghost use Rattle.std.specs.Option.{option_map_or};
ghost use Rattle.svc_expr.specs.Meaning.{exact, first_fault, greatest, least, numbers_in, of_members, total};

use crate::numbers::fitted;
use svc_value::limits::MAX_DEPENDENCIES;
use svc_value::{Fault, Value};

fn fault_among(members: &[Value]) -> Option<Fault>
    ensures { result ≡ first_fault members.now }
{
    for member in members {
        if let Value::Bad(fault) = member {
            return Some(*fault);
        }
    }
    None
}

fn summed(members: &[Value]) -> Value
    requires { length members.now ≤ MAX_DEPENDENCIES }
    ensures { result ≡ exact (total (numbers_in members.now)) }
{
    let mut sum: i128 = 0;
    for member in members {
        if let Value::Int(number) = member {
            sum += *number as i128;
        }
    }
    fitted(sum)
}

/// The first fault among the members, or their sum.
pub(crate) fn sum_of(members: &[Value]) -> Value
    requires { length members.now ≤ MAX_DEPENDENCIES }
    ensures { result ≡ of_members (λ zs. exact (total zs)) members.now }
{
    match fault_among(members) {
        Some(fault) => Value::Bad(fault),
        None => summed(members),
    }
}

// The number that was found, or `empty` where there is none.
fn found_or_empty(found: Option<i64>) -> Value
    ensures { result ≡ option_map_or Value.Int found (Value.Bad Fault.Empty) }
{
    found.map_or(Value::Bad(Fault::Empty), Value::Int)
}

/// The first fault among the members, or the least of them, or `empty` where there is none.
pub(crate) fn least_of(members: &[Value]) -> Value
    ensures { result ≡ of_members least members.now }
{
    let mut found: Option<i64> = None;
    for member in members {
        match member {
            Value::Int(number) => found = Some(found.map_or(*number, |least| least.min(*number))),
            Value::Words(_) => {}
            Value::Bad(fault) => return Value::Bad(*fault),
        }
    }
    found_or_empty(found)
}

/// The first fault among the members, or the greatest of them, or `empty` where there is none.
pub(crate) fn greatest_of(members: &[Value]) -> Value
    ensures { result ≡ of_members greatest members.now }
{
    let mut found: Option<i64> = None;
    for member in members {
        match member {
            Value::Int(number) => found = Some(found.map_or(
                *number,
                |greatest| greatest.max(*number),
            )),
            Value::Words(_) => {}
            Value::Bad(fault) => return Value::Bad(*fault),
        }
    }
    found_or_empty(found)
}
