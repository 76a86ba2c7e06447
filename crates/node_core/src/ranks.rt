// What a node knows of other services.
ghost use Rattle.std.specs.Prelude.{◌≡◌, ◌<◌, ◌≤◌, length, slice_get, IsSome};
ghost use Rattle.propagation.specs.Lists.{is_among};
ghost use Rattle.service_machine.specs.Refusing.{is_below as below, bad_key as first_bad_key};
ghost use Rattle.node_core.specs.Ranks.{rank_in, typed_in};

use svc_graph::Kind;
use svc_value::{ServiceId, Value};
use wire_frame::KeysRef;

// The rank and the type of a service, where it is known.
fn kind_of(roster: &[Kind], id: ServiceId) -> Option<Kind>
    ensures { result ≡ slice_get roster.now id }
{
    roster.get(usize::from(id.0)).copied()
}

// Whether both services are known, and the first has the lower rank.
pub(crate) fn is_below(roster: &[Kind], low: ServiceId, high: ServiceId) -> bool
    ensures { result ≡ below (rank_in roster.now low) (rank_in roster.now high) }
{
    let Some(low) = kind_of(roster, low) else {
        return false;
    };
    let Some(high) = kind_of(roster, high) else {
        return false;
    };
    low.rank < high.rank
}

// Whether the service is known, and the value is a fault or of its type.
pub(crate) fn is_typed(roster: &[Kind], id: ServiceId, value: &Value) -> bool
    ensures { result ≡ typed_in roster.now id value.now }
{
    match kind_of(roster, id) {
        None => false,
        Some(kind) => value.has_type(kind.ty),
    }
}

// Whether the service is among the keys.
pub(crate) fn is_key(keys: &KeysRef<'_>, id: ServiceId) -> bool
    ensures { result ≡ is_among keys.now id }
{
    for key in keys.iter() {
        if key == id {
            return true;
        }
    }
    false
}

// The first key that is not the sender's and not known to be of a lower rank.
pub(crate) fn bad_key(roster: &[Kind], sender: ServiceId, keys: &KeysRef<'_>) -> Option<ServiceId>
    ensures { result ≡ first_bad_key (rank_in roster.now) sender keys.now }
{
    for key in keys.iter() {
        if key != sender && !is_below(roster, key, sender) {
            return Some(key);
        }
    }
    None
}
