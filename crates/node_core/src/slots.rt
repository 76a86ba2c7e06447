// The slots of a node.
ghost use Rattle.std.specs.Prelude.{◌≡◌, ◌+◌, ◌<◌, ◌≤◌, ◌↔◌, ℕ, [], ◌∷◌, true, length, take, slice_set, IsTrue};
ghost use Rattle.pred_queue.specs.Capped.{capped};
ghost use Rattle.propagation.specs.Lists.{AreDistinct};
ghost use Rattle.service_machine.specs.States.{advanced, has_next, raise, raise_all, slot_at};
ghost use Rattle.service_machine.specs.Openings.{first_slots};
ghost use Rattle.service_machine.specs.Turning.{heads, slots_of};
ghost use Rattle.stamp_match.specs.Kept.{IsMatcherOf, slot_in};
ghost use Rattle.node_core.specs.View.{senders, AreCounted, AreInOrder};

use crate::Entry;
use pred_queue::Slot;
use rewire_core::Edges;
use stamp_clock::Floor;
use stamp_match::Matcher;
use std::sync::ledger::Ledger;
use svc_value::limits::MAX_SERVICES;
use svc_value::{Clock, ServiceId, Steps};

// A leg begins or ends, with these entries: each head is the one with the number 0. Without entries it is so already.
#[tactic(auto, using(crate::proofs::SlotLemmas::begun_next))]
pub(crate) fn begin_all(slots: &mut Vec<Slot>, entries: &[Entry])
    requires { AreCounted entries.now slots.old.items }
    ensures { slots.new.items ≡ first_slots slots.old.items }
{
    if entries.is_empty() {
        return;
    }
    for i in 0..slots.len() {
        let slot = &mut slots[i];
        slot.begin_leg();
    }
}

// Whether nothing waits in any slot.
pub(crate) fn all_idle(slots: &[Slot]) -> bool
    requires { AreDistinct (senders slots.now) }
    ensures { IsTrue result ↔ ((p : ℕ) → (slot_at slots.now p).queue ≡ []) }
{
    for slot in slots {
        if !slot.is_idle() {
            return false;
        }
    }
    true
}

// The slots of the dependencies, in their order.
#[tactic(auto, using(crate::proofs::InputLemmas::inputs_within))]
pub(crate) fn inputs_of<'a>(edges: &Edges, slots: &'a [Slot]) -> &'a [Slot]
    requires { AreInOrder edges.now slots.now }
    ensures slots { result.now ≡ slots_of edges.now slots.now }
    ensures first { result.now ≡ take (length edges.now) slots.now }
    ensures len { length result.now ≡ length edges.now }
{
    &slots[..edges.len()]
}

// The next value of the slot at a place becomes its head; the matcher is that of the first `count` slots, as before.
pub(crate) fn advance_at<M: Ledger, L: Ledger>(
    slots: &mut Vec<Slot>,
    count: usize,
    place: usize,
    matcher: &mut Matcher,
    floor: &Floor,
    moves: &mut Steps<M>,
    looks: &mut Steps<L>,
)
    requires count { count ≤ length slots.old.items }
    requires place { place < count }
    requires next { has_next (slot_in slots.old.items place) ≡ true }
    requires matcher { IsMatcherOf (take count slots.old.items) floor.now matcher.old }
    ensures slots { slots.new.items ≡ slice_set slots.old.items place (capped (advanced (slot_in slots.old.items place))) }
    ensures matcher { IsMatcherOf (take count slots.new.items) floor.now matcher.new }
    ensures moves { moves.new ≡ moves.old + 1 }
{
    matcher.advance(slots.as_mut_slice(), count, place, floor, moves, looks);
}

// The floor takes the stamps of what a service of this number and clock emits over the heads; the matcher is that of the slots
// and the floor, as before.
pub(crate) fn raise_over<L: Ledger>(
    matcher: &mut Matcher,
    floor: &mut Floor,
    id: ServiceId,
    own: Clock,
    slots: &[Slot],
    looks: &mut Steps<L>,
)
    requires matcher { IsMatcherOf slots.now floor.old matcher.old }
    requires below { id < MAX_SERVICES }
    requires positive { 0 < own }
    ensures matcher { IsMatcherOf slots.now floor.new matcher.new }
    ensures raised { floor.new ≡ raise floor.old (raise_all ((id, own) ∷ []) (heads slots.now)) }
{
    matcher.raise_over_heads(floor, id, own, slots, looks);
}
