// Walks over the keys of stamps, with one look for each comparison of a clock.
ghost use Rattle.std.specs.Prelude.{◌≡◌, ◌+◌, ◌≤◌, length, nat_lt};
ghost use Rattle.propagation.specs.Stamps.{clock_of};
ghost use Rattle.service_machine.specs.States.{raise};
ghost use Rattle.service_machine.specs.Turning.{lag};
ghost use Rattle.stamp_clock.specs.Beside.{AreStamps};

use stamp_clock::{Floor, Stamps};
use std::sync::ledger::Ledger;
use svc_value::{Clock, ServiceId, Steps};

// Takes for each key the greater clock of the two.
pub(crate) fn raise_tops<L: Ledger>(
    greatest_clocks: &mut Floor,
    stamps: &Stamps,
    looks: &mut Steps<L>,
)
    ensures raised { greatest_clocks.new ≡ raise greatest_clocks.old stamps.now }
    ensures looks { looks.new ≡ looks.old + length stamps.now }
{
    for (key, clock) in stamps.iter() {
        looks.tick();
        greatest_clocks.raise_one(key, clock);
    }
}

// The least key on which the stamps lag.
pub(crate) fn first_lag<L: Ledger>(
    greatest_clocks: &Floor,
    stamps: &Stamps,
    looks: &mut Steps<L>,
) -> Option<ServiceId>
    ensures key { result ≡ lag greatest_clocks.now stamps.now }
    ensures stamps { AreStamps stamps.now }
    ensures looks { looks.new ≤ looks.old + length stamps.now }
{
    for (key, clock) in stamps.iter() {
        looks.tick();
        if is_below(greatest_clocks, key, clock) {
            return Some(key);
        }
    }
    None
}

// Whether the clock of a key is below its greatest one.
pub(crate) fn is_below(greatest_clocks: &Floor, key: ServiceId, clock: Clock) -> bool
    ensures { result ≡ nat_lt clock (clock_of greatest_clocks.now key) }
{
    match greatest_clocks.get(key) {
        Some(top) => clock < top,
        None => false,
    }
}

// Whether the clock of a key is above the one of a floor.
pub(crate) fn is_above(floor: &Floor, key: ServiceId, clock: Clock) -> bool
    ensures { result ≡ nat_lt (clock_of floor.now key) clock }
{
    match floor.get(key) {
        Some(before) => before < clock,
        None => clock > Clock(0),
    }
}
