// Flags of the heads that lag, kept up to date as the greatest clocks rise.
ghost use Rattle.std.specs.Prelude.{◌≡◌, ℕ, ◌+◌, ◌<◌, ◌≤◌, ◌||◌, false, None, nat_lt, length, option_map, slice_index_or};
ghost use Rattle.propagation.specs.Stamps.{IsRising, clock_of};
ghost use Rattle.service_machine.specs.States.{raise, raise_one as raised_one};
ghost use Rattle.stamp_clock.specs.Beside.{AreStamps};
ghost use Rattle.stamp_match.specs.Kept.{head_stamps, clock_in, lags, IsFollowed, IsRisingHead};
ghost use Rattle.stamp_match.specs.Looks.{head_keys, keys_in};

use crate::walk::{first_lag, is_above};
use pred_queue::Slot;
use stamp_clock::{Floor, Stamps};
use std::sync::ledger::Ledger;
use svc_value::limits::{MAX_DEPENDENCIES, MAX_SERVICES};
use svc_value::{Clock, ServiceId, Steps};

// Whether the head of a slot has a key.
fn has_key(slot: &Slot, key: ServiceId) -> bool
    ensures { result ≡ nat_lt 0 (clock_in (option_map (λ head. head.emission.stamps) slot.now.head) key) }
{
    match slot.head() {
        None => false,
        Some(head) => head.stamps.get(key).is_some(),
    }
}

// The heads that have the key lag too.
fn mark(lagging: &mut [bool], slots: &[Slot], key: ServiceId)
    requires { length slots.now ≤ length lagging.old }
    ensures { (place : ℕ) → place < length slots.now →
        slice_index_or lagging.new place false ≡ (slice_index_or lagging.old place false || nat_lt 0 (clock_in (slice_index_or (head_stamps slots.now) place None) key)) }
{
    for place in 0..slots.len() {
        lagging[place] = lagging[place] || has_key(&slots[place], key);
    }
}

// A key has at least this clock: where its greatest clock rises, the heads that have the key lag.
pub(crate) fn raise_key(
    greatest_clocks: &mut Floor,
    lagging: &mut [bool],
    slots: &[Slot],
    key: ServiceId,
    clock: Clock,
)
    requires room { length slots.now ≤ length lagging.old }
    requires rising { IsRising 0 greatest_clocks.old }
    requires below { key < MAX_SERVICES }
    requires positive { 0 < clock }
    ensures raised { greatest_clocks.new ≡ raised_one greatest_clocks.old key clock }
    ensures rising { IsRising 0 greatest_clocks.new }
    ensures followed { (place : ℕ) → place < length slots.now →
        IsFollowed greatest_clocks.old (slice_index_or lagging.old place false) (slice_index_or (head_stamps slots.now) place None) →
        IsFollowed greatest_clocks.new (slice_index_or lagging.new place false) (slice_index_or (head_stamps slots.now) place None) }
{
    if !is_above(greatest_clocks, key, clock) {
        return;
    }
    mark(lagging, slots, key);
    greatest_clocks.raise_one(key, clock);
}

// Takes for each key the greater clock of the two: where a greatest clock rises, the heads that have its key lag.
pub(crate) fn raise_keys<L: Ledger>(
    greatest_clocks: &mut Floor,
    lagging: &mut [bool],
    slots: &[Slot],
    stamps: &Stamps,
    looks: &mut Steps<L>,
)
    requires room { length slots.now ≤ length lagging.old }
    requires rising { IsRising 0 greatest_clocks.old }
    ensures raised { greatest_clocks.new ≡ raise greatest_clocks.old stamps.now }
    ensures rising { IsRising 0 greatest_clocks.new }
    ensures followed { (place : ℕ) → place < length slots.now →
        IsFollowed greatest_clocks.old (slice_index_or lagging.old place false) (slice_index_or (head_stamps slots.now) place None) →
        IsFollowed greatest_clocks.new (slice_index_or lagging.new place false) (slice_index_or (head_stamps slots.now) place None) }
    ensures stamps { AreStamps stamps.now }
    ensures looks { looks.new ≡ looks.old + length stamps.now }
{
    for (key, clock) in stamps.iter() {
        looks.tick();
        raise_key(greatest_clocks, lagging, slots, key, clock);
    }
}

// Whether the head of a slot lags.
pub(crate) fn head_lags<L: Ledger>(
    greatest_clocks: &Floor,
    slot: &Slot,
    looks: &mut Steps<L>,
) -> bool
    ensures flag { result ≡ lags greatest_clocks.now (option_map (λ head. head.emission.stamps) slot.now.head) }
    ensures rising { IsRisingHead (option_map (λ head. head.emission.stamps) slot.now.head) }
    ensures looks { looks.new ≤ looks.old + keys_in slot.now.head }
{
    match slot.head() {
        None => false,
        Some(head) => first_lag(greatest_clocks, &head.stamps, looks).is_some(),
    }
}

// The flag of each slot's head.
pub(crate) fn flags<L: Ledger>(
    greatest_clocks: &Floor,
    slots: &[Slot],
    looks: &mut Steps<L>,
) -> [bool; MAX_DEPENDENCIES]
    requires { length slots.now ≤ MAX_DEPENDENCIES }
    ensures places { length result ≡ MAX_DEPENDENCIES }
    ensures flags { (place : ℕ) → place < length slots.now → slice_index_or result place false ≡ lags greatest_clocks.now (slice_index_or (head_stamps slots.now) place None) }
    ensures rising { (place : ℕ) → place < length slots.now → IsRisingHead (slice_index_or (head_stamps slots.now) place None) }
    ensures looks { looks.new ≤ looks.old + head_keys slots.now }
{
    let mut lagging = [false; MAX_DEPENDENCIES];
    for place in 0..slots.len() {
        lagging[place] = head_lags(greatest_clocks, &slots[place], looks);
    }
    lagging
}
