// The tests that come before a slot's.
ghost use Rattle.std.specs.Prelude.{◌≡◌, ℕ, List, true, None, OnOk, IfErr, Option};
ghost use Rattle.propagation.specs.Lists.{is_among};
ghost use Rattle.service_machine.specs.Refusing.{Refusal, is_below as below, bad_key as first_bad_key, refuse_sources, refuse_value};
ghost use Rattle.node_core.specs.Ranks.{rank_in, typed_in};
ghost use Rattle.node_core.specs.Taking.{TellsOf};

use crate::TakeRefusal;
use crate::ranks::{bad_key, is_below, is_key, is_typed};
use svc_graph::Kind;
use svc_value::{ServiceId, Value};
use wire_frame::KeysRef;

// Whether the service `id` may hear these keys of a sender.
pub(crate) fn check_sources(
    roster: &[Kind],
    id: ServiceId,
    sender: ServiceId,
    keys: &KeysRef<'_>,
) -> Result<(), TakeRefusal>
    ensures lower { OnOk result (below (rank_in roster.now sender) (rank_in roster.now id) ≡ true) }
    ensures own { OnOk result (is_among keys.now sender ≡ true) }
    ensures ranks { OnOk result (first_bad_key (rank_in roster.now) sender keys.now ≡ None) }
    ensures refused { IfErr result (λ error. (announced : Option (ℕ × List ℕ)) (epoch : ℕ) →
        TellsOf (refuse_sources (below (rank_in roster.now sender) (rank_in roster.now id)) (is_among keys.now sender) (first_bad_key (rank_in roster.now) sender keys.now) announced epoch) error) }
{
    if !is_below(roster, sender, id) {
        return Err(TakeRefusal::NotBelow);
    }
    if !is_key(keys, sender) {
        return Err(TakeRefusal::NoSelf);
    }
    if let Some(key) = bad_key(roster, sender, keys) {
        return Err(TakeRefusal::KeyRank { key });
    }
    Ok(())
}

// Whether the service `id` may hear this value of a sender.
pub(crate) fn test_value(
    roster: &[Kind],
    id: ServiceId,
    sender: ServiceId,
    value: &Value,
) -> Result<(), TakeRefusal>
    ensures lower { OnOk result (below (rank_in roster.now sender) (rank_in roster.now id) ≡ true) }
    ensures typed { OnOk result (typed_in roster.now sender value.now ≡ true) }
    ensures refused { IfErr result (λ error. (slot : Option Refusal) →
        TellsOf (refuse_value (below (rank_in roster.now sender) (rank_in roster.now id)) (typed_in roster.now sender value.now) slot) error) }
{
    if !is_below(roster, sender, id) {
        return Err(TakeRefusal::NotBelow);
    }
    if !is_typed(roster, sender, value) {
        return Err(TakeRefusal::WrongType);
    }
    Ok(())
}
