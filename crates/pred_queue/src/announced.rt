// The keys that a sender announced last, and the clocks that it carried for them.
ghost use Rattle.std.specs.Prelude.{◌≡◌, ◌<◌, ◌≤◌, ◌+◌, [], All, None, Some, length, replicate, unwrap_or, vec_len, vec_capacity, OnOk, OnErr, IfOk, IfErr, IsSome, IsTrue};
ghost use Rattle.propagation.specs.Stamps.{RisePairs};
ghost use Rattle.service_machine.specs.Refusing.{refuse_put, bad_place};
ghost use Rattle.stamp_clock.specs.Places.{AreKeys};
ghost use Rattle.wire_frame.specs.Frames.{pairs};
ghost use Rattle.pred_queue.specs.Told.{rewritten, items_in};

use crate::SlotError;
use crate::clocks_ref::ClocksRef;
use stamp_clock::{KeySet, Stamps};
use std::alloc::Global;
use std::marker::Model;
use svc_value::{Clock, Clocks, OutOfMemory};

/// The epoch and the keys announced last, with the clocks that were carried for them last, or none.
#[derive(Debug, Drop)]
pub(crate) struct Announced {
    epoch: Clock,
    keys: KeySet,
    clocks: Option<Vec<Clock>>,
}

impl Model for Announced {
    ghost use Rattle.std.specs.Prelude.{ℕ, List, ◌≡◌, Some};
    ghost use Rattle.std.specs.List.{zip};
    ghost use Rattle.std.specs.Option.{option_map};
    ghost use Rattle.stamp_clock.specs.Places.{AreKeys};
    ghost use Rattle.stamp_clock.specs.Beside.{AreBeside};
    ghost use Rattle.pred_queue.specs.Told.{Told, items_in};

    ghost Value = { Told };

    ghost view = { λ a. record { epoch = a.epoch; keys = a.keys; carried = option_map (zip a.keys) (items_in a.clocks) } };

    ghost invariant = { λ a. AreKeys a.keys × ((clocks : List ℕ) → items_in a.clocks ≡ Some clocks → AreBeside a.keys clocks) };
}

impl Announced {
    ghost use Rattle.pred_queue.specs.Told.{told_more};
    ghost use Rattle.pred_queue.specs.Refusals.{refusal_in, refusal_of};

    // Keys with nothing carried for them.
    pub(crate) fn new(epoch: Clock, keys: KeySet) -> Announced
        requires { AreKeys keys }
        ensures { result ≡ record { epoch = epoch; keys = keys; carried = None } }
    {
        Announced {
            epoch,
            keys,
            clocks: None,
        }
    }

    // The epoch.
    pub(crate) fn epoch(&self) -> Clock
        ensures { result ≡ self.now.epoch }
    {
        self.epoch
    }

    // The number of keys.
    pub(crate) fn len(&self) -> usize
        ensures { result ≡ length self.now.keys }
    {
        self.keys.len()
    }

    // Why the clocks of a value under an epoch are refused, if they are.
    pub(crate) fn check<L: ClocksRef>(&self, epoch: Clock, named: &L) -> Result<(), SlotError>
        ensures exactly { refusal_in result ≡ refuse_put (Some (self.now.epoch, self.now.keys)) self.now.carried epoch (pairs (L.named named.now)) }
        ensures memory { IfErr result (λ error. IsSome (refusal_of error)) }
    {
        let announced = self.keys.len();
        let carried = named.count();
        if self.epoch != epoch {
            return Err(SlotError::NoSources);
        }
        if let Some(place) = first_outside(announced, named) {
            return Err(SlotError::WrongPlace { announced, place });
        }
        if self.clocks.is_none() && carried != announced {
            return Err(SlotError::NotWhole { announced, carried });
        }
        Ok(())
    }

    // The clocks are those last carried.
    pub(crate) fn carry<L: ClocksRef>(
        &mut self,
        alloc: Global,
        named: &L,
    ) -> Result<(), OutOfMemory>
        requires accepted { refuse_put (Some (self.old.epoch, self.old.keys)) self.old.carried self.old.epoch (pairs (L.named named.now)) ≡ None }
        requires rise { RisePairs 0 (pairs (L.named named.now)) }
        ensures ok { OnOk result (self.new ≡ record self.old { carried = Some (told_more (pairs (L.named named.now)) self.old) }) }
        ensures err { OnErr result (self.new ≡ self.old) }
    {
        let last = self.clocks.take();
        let clocks = or_zeros(alloc, last, self.keys.len())?;
        self.clocks = Some(with_clocks(clocks, named));
        Ok(())
    }

    // The stamps that are carried, in empty memory that has room for them.
    pub(crate) fn carried_in(&self, memory: Vec<Clock>) -> Stamps
        requires carried { IsSome self.now.carried }
        requires empty { memory.items ≡ [] }
        requires room { vec_len memory + length self.now.keys ≤ vec_capacity memory }
        ensures { self.now.carried ≡ Some result }
    {
        let mut clocks = memory;
        let Some(carried) = &self.clocks else {
            unreachable!();
        };
        if clocks.extend_from_slice(carried.as_slice()).is_err() {
            unreachable!();
        }
        Stamps::over(self.keys, Clocks::from_vec(clocks))
    }
}

impl Announced {
    // An equal one.
    pub(crate) fn copy(&self) -> Result<Announced, OutOfMemory>
        ensures { IfOk result (λ announced. announced ≡ self.now) }
    {
        let clocks = copied(&self.clocks)?;
        Ok(Announced {
            epoch: self.epoch,
            keys: self.keys,
            clocks,
        })
    }
}

// The first place that is none of so many.
fn first_outside<L: ClocksRef>(count: usize, named: &L) -> Option<usize>
    ensures { result ≡ bad_place count (pairs (L.named named.now)) }
{
    for i in 0..named.count() {
        let place = named.nth(i).place as usize;
        if place >= count {
            return Some(place);
        }
    }
    None
}

// A copy of the clocks, where there are some.
fn copied(clocks: &Option<Vec<Clock>>) -> Result<Option<Vec<Clock>>, OutOfMemory>
    ensures { IfOk result (λ copy. items_in copy ≡ items_in clocks.now) }
{
    match clocks {
        Some(clocks) => Ok(Some(clocks.clone()?)),
        None => Ok(None),
    }
}

// The clocks, or as many zeros where there are none.
fn or_zeros(
    alloc: Global,
    clocks: Option<Vec<Clock>>,
    count: usize,
) -> Result<Vec<Clock>, OutOfMemory>
    ensures made { IfOk result (λ made. made.items ≡ unwrap_or (items_in clocks) (replicate count 0)) }
    ensures err { OnErr result (items_in clocks ≡ None) }
{
    match clocks {
        Some(clocks) => Ok(clocks),
        None => Ok(vec![in alloc; Clock(0); count]?),
    }
}

// The clocks with those at the named places in place of the ones before.
fn with_clocks<L: ClocksRef>(mut clocks: Vec<Clock>, named: &L) -> Vec<Clock>
    requires { All (λ named. named.place < length clocks.items) (L.named named.now) }
    ensures { result.items ≡ rewritten (pairs (L.named named.now)) clocks.items }
{
    for i in 0..named.count() {
        let one = named.nth(i);
        clocks[one.place as usize] = one.clock;
    }
    clocks
}
