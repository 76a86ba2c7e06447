// The turn table.
ghost use Rattle.std.specs.Prelude.{◌≡◌, ◌+◌, ◌*◌, ◌≤◌, length};
ghost use Rattle.service_machine.specs.Turning.{choice};
ghost use Rattle.stamp_match.specs.Looks.{head_keys};
ghost use Rattle.stamp_match.specs.Named.{turn_of, IsAmong};

use crate::Choice;
use crate::slots::{first_headless, first_lagging, first_waiting, greatest_clocks};
use pred_queue::Slot;
use stamp_clock::Floor;
use std::sync::ledger::Ledger;
use svc_value::Steps;

/// What a service does next: the first case of the turn table that applies. `slots` are those of its dependencies in their
/// order, `floor` what it has emitted, and `due` says whether a change or a new head came after its last computation.
///
/// Where some slot has no head, the first such one takes its next value (`Advance`) or is `Empty`. Else, where some head
/// lags, the first such one takes its next value (`Advance`) or `Lags`. Else the service is `Ready` where it is due. Else
/// the first slot with a next value takes it (`Advance`), and without one the service is `Still`.
///
/// It takes one look for each comparison of a clock, at most twice as many as all heads have keys, and no memory.
pub fn choose<L: Ledger>(slots: &[Slot], floor: &Floor, due: bool, looks: &mut Steps<L>) -> Choice
    ensures table { turn_of slots.now result ≡ choice slots.now floor.now due }
    ensures slot { IsAmong (length slots.now) result }
    ensures looks { looks.new ≤ looks.old + 2 * head_keys slots.now }
{
    if let Some(place) = first_headless(slots) {
        let slot = &slots[place];
        return if slot.has_next() {
            Choice::Advance(place)
        } else {
            Choice::Empty(place)
        };
    }
    let greatest_clocks = greatest_clocks(slots, floor, looks);
    if let Some((place, key)) = first_lagging(slots, &greatest_clocks, looks) {
        let slot = &slots[place];
        return if slot.has_next() {
            Choice::Advance(place)
        } else {
            Choice::Lags { slot: place, key }
        };
    }
    if due {
        return Choice::Ready;
    }
    match first_waiting(slots) {
        Some(place) => Choice::Advance(place),
        None => Choice::Still,
    }
}
