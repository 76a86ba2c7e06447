// Walks over slots.
ghost use Rattle.std.specs.Prelude.{◌≡◌, ◌+◌, ◌≤◌, ◌<◌, length, slice_get, option_map, IfSome, IfNone, None};
ghost use Rattle.service_machine.specs.Turning.{headless, lagging, waiting, greatest_clocks as greatest};
ghost use Rattle.stamp_clock.specs.Beside.{AreStamps};
ghost use Rattle.stamp_match.specs.Looks.{head_keys};

use crate::walk::{first_lag, raise_tops};
use pred_queue::Slot;
use stamp_clock::Floor;
use std::sync::ledger::Ledger;
use svc_value::{ServiceId, Steps};

// The first slot without a head.
pub(crate) fn first_headless(slots: &[Slot]) -> Option<usize>
    ensures some { IfSome result (λ place. headless slots.now ≡ slice_get slots.now place) }
    ensures within { IfSome result (λ place. place < length slots.now) }
    ensures none { IfNone result (headless slots.now ≡ None) }
{
    for place in 0..slots.len() {
        let slot = &slots[place];
        if slot.head().is_none() {
            return Some(place);
        }
    }
    None
}

// The first slot with a next value.
pub(crate) fn first_waiting(slots: &[Slot]) -> Option<usize>
    ensures some { IfSome result (λ place. waiting slots.now ≡ slice_get slots.now place) }
    ensures within { IfSome result (λ place. place < length slots.now) }
    ensures none { IfNone result (waiting slots.now ≡ None) }
{
    for place in 0..slots.len() {
        let slot = &slots[place];
        if slot.has_next() {
            return Some(place);
        }
    }
    None
}

// For each key the greatest clock of the floor and the heads.
pub(crate) fn greatest_clocks<L: Ledger>(
    slots: &[Slot],
    floor: &Floor,
    looks: &mut Steps<L>,
) -> Floor
    ensures greatest { result ≡ greatest slots.now floor.now }
    ensures stamps { AreStamps floor.now }
    ensures looks { looks.new ≡ looks.old + head_keys slots.now }
{
    let Ok(mut greatest_clocks) = floor.copy() else {
        unreachable!();
    };
    for place in 0..slots.len() {
        let slot = &slots[place];
        if let Some(head) = slot.head() {
            raise_tops(&mut greatest_clocks, &head.stamps, looks);
        }
    }
    greatest_clocks
}

// The first slot whose head lags, with the least key on which it does.
pub(crate) fn first_lagging<L: Ledger>(
    slots: &[Slot],
    greatest_clocks: &Floor,
    looks: &mut Steps<L>,
) -> Option<(usize, ServiceId)>
    ensures some { IfSome result (λ found. lagging greatest_clocks.now slots.now ≡ option_map (λ slot. (slot, found.1)) (slice_get slots.now found.0)) }
    ensures within { IfSome result (λ found. found.0 < length slots.now) }
    ensures none { IfNone result (lagging greatest_clocks.now slots.now ≡ None) }
    ensures looks { looks.new ≤ looks.old + head_keys slots.now }
{
    for place in 0..slots.len() {
        let slot = &slots[place];
        if let Some(head) = slot.head()
            && let Some(key) = first_lag(greatest_clocks, &head.stamps, looks)
        {
            return Some((place, key));
        }
    }
    None
}
