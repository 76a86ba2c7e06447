// The keys on which a greatest clock may fall with the head that has it.
ghost use Rattle.std.specs.Prelude.{◌≡◌, ◌↔◌, ◌+◌, ◌<◌, ◌≤◌, IsFalse, None, Some, length, nat_lt, option_map, slice_index_or};
ghost use Rattle.propagation.specs.Stamps.{clock_of};
ghost use Rattle.stamp_match.specs.Falling.{AreHeld, AreReached};
ghost use Rattle.stamp_match.specs.Kept.{head_stamps, slot_in};
ghost use Rattle.stamp_match.specs.Looks.{keys_in};

use crate::walk::{is_above, is_below};
use pred_queue::Slot;
use stamp_clock::{Floor, KeySet, Stamps};
use std::sync::ledger::Ledger;
use svc_value::{Clock, ServiceId, Steps};

// The keys on which the head at a place has a greatest clock that is above the floor's.
pub(crate) fn held_at<L: Ledger>(
    greatest_clocks: &Floor,
    floor: &Floor,
    slots: &[Slot],
    place: usize,
    looks: &mut Steps<L>,
) -> KeySet
    requires { place < length slots.now }
    ensures held { AreHeld greatest_clocks.now floor.now (slice_index_or (head_stamps slots.now) place None) result }
    ensures few { length result ≤ keys_in (slot_in slots.now place).head }
    ensures looks { looks.new ≡ looks.old + keys_in (slot_in slots.now place).head }
{
    held_by(greatest_clocks, floor, &slots[place], looks)
}

// Those of a slot's head.
fn held_by<L: Ledger>(
    greatest_clocks: &Floor,
    floor: &Floor,
    slot: &Slot,
    looks: &mut Steps<L>,
) -> KeySet
    ensures held { AreHeld greatest_clocks.now floor.now (option_map (λ head. head.emission.stamps) slot.now.head) result }
    ensures few { length result ≤ keys_in slot.now.head }
    ensures looks { looks.new ≡ looks.old + keys_in slot.now.head }
{
    match slot.head() {
        None => KeySet::new(),
        Some(head) => held_in(greatest_clocks, floor, &head.stamps, looks),
    }
}

// Those of some stamps.
fn held_in<L: Ledger>(
    greatest_clocks: &Floor,
    floor: &Floor,
    stamps: &Stamps,
    looks: &mut Steps<L>,
) -> KeySet
    ensures held { AreHeld greatest_clocks.now floor.now (Some stamps.now) result }
    ensures few { length result ≤ length stamps.now }
    ensures looks { looks.new ≡ looks.old + length stamps.now }
{
    let mut held = KeySet::new();
    for (key, clock) in stamps.iter() {
        looks.tick();
        if is_above(floor, key, clock) && !is_below(greatest_clocks, key, clock) {
            held.push(key);
        }
    }
    held
}

// Whether the head at a place is below a greatest clock on one of these keys, or there is no head.
pub(crate) fn falls_at<L: Ledger>(
    held: KeySet,
    greatest_clocks: &Floor,
    slots: &[Slot],
    place: usize,
    looks: &mut Steps<L>,
) -> bool
    requires { place < length slots.now }
    ensures falls { IsFalse result ↔ AreReached greatest_clocks.now held (slice_index_or (head_stamps slots.now) place None) }
    ensures looks { looks.new ≤ looks.old + length held }
{
    falls_by(held, greatest_clocks, &slots[place], looks)
}

// The same of a slot's head.
fn falls_by<L: Ledger>(
    held: KeySet,
    greatest_clocks: &Floor,
    slot: &Slot,
    looks: &mut Steps<L>,
) -> bool
    ensures falls { IsFalse result ↔ AreReached greatest_clocks.now held (option_map (λ head. head.emission.stamps) slot.now.head) }
    ensures looks { looks.new ≤ looks.old + length held }
{
    match slot.head() {
        None => true,
        Some(head) => falls_in(held, greatest_clocks, &head.stamps, looks),
    }
}

// Whether these stamps are below a greatest clock on one of these keys.
fn falls_in<L: Ledger>(
    held: KeySet,
    greatest_clocks: &Floor,
    stamps: &Stamps,
    looks: &mut Steps<L>,
) -> bool
    ensures falls { IsFalse result ↔ AreReached greatest_clocks.now held (Some stamps.now) }
    ensures looks { looks.new ≤ looks.old + length held }
{
    for key in held {
        looks.tick();
        if falls_on(greatest_clocks, key, stamps) {
            return true;
        }
    }
    false
}

// Whether the stamps are below the greatest clock of a key.
fn falls_on(greatest_clocks: &Floor, key: ServiceId, stamps: &Stamps) -> bool
    ensures { result ≡ nat_lt (clock_of stamps.now key) (clock_of greatest_clocks.now key) }
{
    is_below(greatest_clocks, key, stamps.get(key).unwrap_or(Clock(0)))
}
