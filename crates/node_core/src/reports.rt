// Stamps as frames tell them.
ghost use Rattle.std.specs.Prelude.{◌≡◌, ◌==◌, ◌++◌, ◌∷◌, [], if◌then◌else◌, true, IfOk, OnOk};
ghost use Rattle.propagation.specs.Stamps.{keys, all_places, changed_places, same_keys as have_same_keys};
ghost use Rattle.stamp_clock.specs.Beside.{AreStamps};
ghost use Rattle.wire_frame.specs.Frames.{pairs};

use stamp_clock::Stamps;
use std::alloc::Global;
use svc_value::{Clock, Ids, OutOfMemory};
use wire_frame::PlaceClock;

// The keys of stamps.
pub(crate) fn keys_of(alloc: Global, stamps: &Stamps) -> Result<Ids, OutOfMemory>
    ensures keys { IfOk result (λ ids. ids ≡ keys stamps.now) }
    ensures stamps { AreStamps stamps.now }
{
    let mut ids = Vec::with_capacity(alloc, stamps.len())?;
    for (key, _) in stamps.iter() {
        ids.push(key)?;
    }
    Ok(Ids::from_vec(ids))
}

// Every place with its clock, in place of those in the list.
#[tactic(auto, using(crate::proofs::StampsLemmas::few_stamps, crate::proofs::StampsLemmas::places_next, crate::proofs::StampsLemmas::places_done))]
pub(crate) fn all_places_of(
    stamps: &Stamps,
    clocks: &mut Vec<PlaceClock>,
) -> Result<(), OutOfMemory>
    ensures places { OnOk result (pairs clocks.new.items ≡ all_places 0 stamps.now) }
    ensures stamps { AreStamps stamps.now }
{
    clocks.clear();
    for i in 0..stamps.len() {
        let place = i as u8;
        clocks.push(PlaceClock {
            place,
            clock: stamps.clock_at(i),
        })?;
    }
    Ok(())
}

// Whether the two have the same keys.
#[tactic(auto, using(crate::proofs::StampsLemmas::other_length))]
pub(crate) fn same_keys(old: &Stamps, new: &Stamps) -> bool
    ensures { result ≡ have_same_keys old.now new.now }
{
    if old.len() != new.len() {
        return false;
    }
    let mut others = new.iter();
    for (key, _) in old.iter() {
        let Some((other, _)) = others.next() else {
            return false;
        };
        if key != other {
            return false;
        }
    }
    others.next().is_none()
}

// One place more, if its clock is another one.
#[tactic(auto, using(crate::proofs::StampsLemmas::pairs_append))]
fn push_change(
    clocks: &mut Vec<PlaceClock>,
    place: u8,
    old: Clock,
    new: Clock,
) -> Result<(), OutOfMemory>
    ensures { OnOk result (pairs clocks.new.items ≡ (if old == new then pairs clocks.old.items else pairs clocks.old.items ++ (place, new) ∷ [])) }
{
    if old != new {
        clocks.push(PlaceClock { place, clock: new })?;
    }
    Ok(())
}

// The places whose clock is another one, with the new clock, in place of those in the list.
#[tactic(auto, using(crate::proofs::StampsLemmas::few_stamps, crate::proofs::StampsLemmas::same_length, crate::proofs::StampsLemmas::change_next, crate::proofs::StampsLemmas::changes_done))]
pub(crate) fn changes_of(
    old: &Stamps,
    new: &Stamps,
    clocks: &mut Vec<PlaceClock>,
) -> Result<(), OutOfMemory>
    requires { have_same_keys old.now new.now ≡ true }
    ensures places { OnOk result (pairs clocks.new.items ≡ changed_places 0 old.now new.now) }
    ensures stamps { AreStamps new.now }
{
    clocks.clear();
    for i in 0..new.len() {
        let place = i as u8;
        push_change(clocks, place, old.clock_at(i), new.clock_at(i))?;
    }
    Ok(())
}
