// What is kept of one sender.
ghost use Rattle.std.specs.Prelude.{◌≡◌, ◌<◌, ◌==◌, ◌-◌, ◌+◌, ◌^◌, All, true, false, None, Some, Ok, length, option_copied, OnOk, OnErr, IfOk, IfErr, IsSome, IsTrue, ◌↔◌, []};
ghost use Rattle.propagation.specs.Stamps.{Rise, RisePairs};
ghost use Rattle.service_machine.specs.States.{is_live as live, has_next as next_waits, advanced, announced_to, put as put_to, cut as cut_at, number_at_head, emission_of, empty_slot};
ghost use Rattle.service_machine.specs.Openings.{first_slot};
ghost use Rattle.service_machine.specs.Fitting.{Climb};
ghost use Rattle.service_machine.specs.Refusing.{refuse_back, refuse_put};
ghost use Rattle.stamp_clock.specs.Places.{AreKeys};
ghost use Rattle.wire_frame.specs.Frames.{pairs};
ghost use Rattle.pred_queue.specs.Capped.{capped};
ghost use Rattle.pred_queue.specs.Refusals.{refusal_of, refusal_in, refusal_with};

use crate::announced::Announced;
use crate::carrying::next_stamps;
use crate::clocks_ref::{ClocksRef, set_of};
use crate::copying::{copied_head, copied_keys, copied_queue};
use crate::cutting::{cut_queue, first, is_live, live_head};
use crate::held::{Held, Waiting};
use crate::{Emission, SlotError};
use stamp_clock::KeySet;
use std::alloc::Global;
use std::collections::VecDeque;
use std::marker::Model;
use std::mem;
use std::sync::ledger::Ledger;
use svc_value::limits::MAX_SERVICES;
use svc_value::{Clock, OutOfMemory, ServiceId, Steps, Value};
use wire_frame::{KeysRef, PlaceClock, PlacesRef};

/// What became of a value.
#[derive(Clone, Copy, Debug, PartialEq, Eq)]
pub enum Put {
    /// It waits: its epoch is the edge's, or is above the own clock.
    Kept,
    /// It was dropped; its clocks are the last carried all the same.
    Dropped,
}

/// What a service keeps of one sender: the epoch of the present edge, the keys announced last, the clocks last carried
/// since then, the head, which is the value that is computed with, and the values that wait, oldest first. Contracts see
/// the slot of the machine. The epochs of what waits never fall.
#[derive(Debug, Drop)]
pub struct Slot {
    alloc: Global,
    sender: ServiceId,
    edge: Option<Clock>,
    announced: Option<Announced>,
    head: Option<Held>,
    queue: VecDeque<Waiting>,
    // The clocks of a head that is gone, whose memory is used again.
    spare: Vec<Clock>,
}

impl Model for Slot {
    ghost use Rattle.svc_value.specs.declared.value.Value.{Value as TheValue};
    ghost use Rattle.service_machine.specs.States.{Slot as TheSlot};
    ghost use Rattle.pred_queue.specs.Told.{keys_told, epoch_told, carried_told};
    ghost use Rattle.pred_queue.specs.Epochs.{IsQueue};

    ghost Value = { TheSlot TheValue };

    ghost view = { λ s. record { sender = s.sender; edge = s.edge; announced = keys_told s.announced; carried = carried_told s.announced; head = s.head; queue = s.queue.items } };

    ghost invariant = { λ s. IsQueue (epoch_told s.announced) s.queue.items };
}

impl Slot {
    /// A slot of `sender`, of which nothing has come, with the epoch of the present edge to it, if there is one. It takes
    /// its memory from `alloc` once it grows.
    pub fn new(alloc: Global, sender: ServiceId, edge: Option<Clock>) -> Slot
        ensures { result ≡ record (empty_slot sender) { edge = edge } }
    {
        Slot {
            alloc,
            sender,
            edge,
            announced: None,
            head: None,
            queue: VecDeque::new(alloc),
            spare: Vec::new(alloc),
        }
    }

    /// The sender.
    pub fn sender(&self) -> ServiceId
        ensures { result ≡ self.now.sender }
    {
        self.sender
    }

    /// The keys of the values to come under `epoch`, which rise strictly and are below 64. What was carried for the keys
    /// before is forgotten. `EpochBack` exactly where keys were announced under a greater epoch, which it tells; the slot is
    /// then as it was. It never wants memory.
    pub fn announce(&mut self, epoch: Clock, keys: &[ServiceId]) -> Result<(), SlotError>
        requires rise { Rise 0 keys.now }
        requires below { All (λ key. key < MAX_SERVICES) keys.now }
        ensures exactly { refusal_in result ≡ refuse_back self.old.announced epoch }
        ensures memory { IfErr result (λ error. IsSome (refusal_of error)) }
        ensures ok { OnOk result (self.new ≡ announced_to epoch keys.now self.old) }
        ensures err { OnErr result (self.new ≡ self.old) }
    {
        self.announce_set(epoch, KeySet::of(keys))
    }

    /// Keys come as to `announce`, and the bytes of a frame lend them. The answers, and what an error leaves, are those of
    /// `announce`.
    pub fn announce_keys(&mut self, epoch: Clock, keys: KeysRef<'_>) -> Result<(), SlotError>
        requires rise { Rise 0 keys }
        requires below { All (λ key. key < MAX_SERVICES) keys }
        ensures exactly { refusal_in result ≡ refuse_back self.old.announced epoch }
        ensures memory { IfErr result (λ error. IsSome (refusal_of error)) }
        ensures ok { OnOk result (self.new ≡ announced_to epoch keys.entry self.old) }
        ensures err { OnErr result (self.new ≡ self.old) }
    {
        self.announce_set(epoch, set_of(keys))
    }

    // The same, as a set.
    fn announce_set(&mut self, epoch: Clock, keys: KeySet) -> Result<(), SlotError>
        requires { AreKeys keys }
        ensures exactly { refusal_in result ≡ refuse_back self.old.announced epoch }
        ensures memory { IfErr result (λ error. IsSome (refusal_of error)) }
        ensures ok { OnOk result (self.new ≡ announced_to epoch keys self.old) }
        ensures err { OnErr result (self.new ≡ self.old) }
    {
        if let Some(announced) = &self.announced {
            let had = announced.epoch();
            if epoch < had {
                return Err(SlotError::EpochBack { had });
            }
        }
        self.announced = Some(Announced::new(epoch, keys));
        Ok(())
    }

    /// A value comes under `epoch`, at the own clock `own`, with the clocks of some places of the announced keys. The places
    /// rise strictly, and each clock is at least 1. The other keys have the clocks last carried.
    ///
    /// `Kept` exactly where the epoch is above the own clock or is the edge's, `Dropped` elsewhere. It is refused, in this
    /// order: `NoSources` exactly where no keys are announced under the epoch; `WrongPlace` exactly where a place is not below
    /// the number of announced keys, with the first such place; `NotWhole` exactly where nothing was carried since the
    /// announcement and the numbers of keys and of clocks differ; `OutOfMemory` when memory runs out. A refusal hands the value
    /// back and leaves the slot as it was.
    pub fn put(
        &mut self,
        own: Clock,
        epoch: Clock,
        value: Value,
        clocks: &[PlaceClock],
    ) -> Result<Put, (SlotError, Value)>
        requires { RisePairs 0 (pairs clocks.now) }
        ensures exactly { refusal_with result ≡ refuse_put self.old.announced self.old.carried epoch (pairs clocks.now) }
        ensures kept { result ≡ Ok Put.Kept → live self.old.edge own epoch ≡ true }
        ensures dropped { result ≡ Ok Put.Dropped → live self.old.edge own epoch ≡ false }
        ensures ok { OnOk result (self.new ≡ put_to own epoch value (pairs clocks.now) self.old) }
        ensures err { IfErr result (λ refused. (refused.1 ≡ value) × (self.new ≡ self.old)) }
    {
        self.put_lent(own, epoch, value, &clocks)
    }

    /// A value comes as to `put`, with clocks that the bytes of a frame lend. The answers, the refusals and what a refusal
    /// leaves are those of `put`.
    pub fn put_places(
        &mut self,
        own: Clock,
        epoch: Clock,
        value: Value,
        clocks: PlacesRef<'_>,
    ) -> Result<Put, (SlotError, Value)>
        requires { RisePairs 0 (pairs clocks) }
        ensures exactly { refusal_with result ≡ refuse_put self.old.announced self.old.carried epoch (pairs clocks.entry) }
        ensures kept { result ≡ Ok Put.Kept → live self.old.edge own epoch ≡ true }
        ensures dropped { result ≡ Ok Put.Dropped → live self.old.edge own epoch ≡ false }
        ensures ok { OnOk result (self.new ≡ put_to own epoch value (pairs clocks.entry) self.old) }
        ensures err { IfErr result (λ refused. (refused.1 ≡ value) × (self.new ≡ self.old)) }
    {
        self.put_lent(own, epoch, value, &clocks)
    }

    // The same, however the clocks are lent.
    fn put_lent<L: ClocksRef>(
        &mut self,
        own: Clock,
        epoch: Clock,
        value: Value,
        clocks: &L,
    ) -> Result<Put, (SlotError, Value)>
        requires { RisePairs 0 (pairs (L.named clocks.now)) }
        ensures exactly { refusal_with result ≡ refuse_put self.old.announced self.old.carried epoch (pairs (L.named clocks.now)) }
        ensures kept { result ≡ Ok Put.Kept → live self.old.edge own epoch ≡ true }
        ensures dropped { result ≡ Ok Put.Dropped → live self.old.edge own epoch ≡ false }
        ensures ok { OnOk result (self.new ≡ put_to own epoch value (pairs (L.named clocks.now)) self.old) }
        ensures err { IfErr result (λ refused. (refused.1 ≡ value) × (self.new ≡ self.old)) }
    {
        let Some(announced) = &mut self.announced else {
            return Err((SlotError::NoSources, value));
        };
        if let Err(error) = announced.check(epoch, clocks) {
            return Err((error, value));
        }
        if !is_live(&self.edge, own, epoch) {
            return match announced.carry(self.alloc, clocks) {
                Ok(()) => Ok(Put::Dropped),
                Err(OutOfMemory) => Err((SlotError::OutOfMemory, value)),
            };
        }
        match next_stamps(
            self.alloc,
            &mut self.spare,
            announced,
            &mut self.queue,
            clocks,
        ) {
            Ok(stamps) => {
                let emission = Emission { value, stamps };
                self.queue.push_back_reserved(Waiting { epoch, emission });
                Ok(Put::Kept)
            }
            Err(OutOfMemory) => Err((SlotError::OutOfMemory, value)),
        }
    }

    /// Whether the front of the queue is under the epoch of the edge.
    pub fn has_next(&self) -> bool
        ensures next { result ≡ next_waits self.now }
        ensures in_order { Climb 0 self.now.queue }
    {
        match self.queue.front() {
            None => false,
            Some(waiting) => match self.edge {
                None => false,
                Some(epoch) => epoch == waiting.epoch,
            },
        }
    }

    /// The front of the queue, which has to be under the epoch of the edge, becomes the head, with one step of `moves`. Its
    /// number is the head's before and one more, or 1 after none; at the greatest u64 it stays. No memory is taken.
    pub fn advance<M: Ledger>(&mut self, moves: &mut Steps<M>)
        requires { next_waits self.old ≡ true }
        ensures advanced { number_at_head self.old.head < 2 ^ 64 - 1 → self.new ≡ advanced self.old }
        ensures capped { self.new ≡ capped (advanced self.old) }
        ensures moves { moves.new ≡ moves.old + 1 }
    {
        let number = self.number();
        if let Some(waiting) = self.queue.pop_front() {
            let head = Held {
                epoch: waiting.epoch,
                number: number.saturating_add(1),
                emission: waiting.emission,
            };
            if let Some(held) = mem::replace(&mut self.head, Some(head)) {
                self.spare = held.emission.stamps.into_clocks().into_vec();
            }
        }
        moves.tick();
    }

    /// At the own clock `clock` the present edge is `edge`: the head and each waiting value are dropped whose epoch is at
    /// most the clock and is not the edge's. No memory is taken.
    pub fn cut(&mut self, clock: Clock, edge: Option<Clock>)
        ensures { self.new ≡ cut_at edge clock self.old }
    {
        let head = self.head.take();
        self.head = live_head(head, &edge, clock);
        cut_queue(&mut self.queue, &edge, clock);
        self.edge = edge;
    }

    /// The emission of the head; None exactly where there is no head.
    pub fn head(&self) -> Option<&Emission>
        ensures { option_copied result ≡ emission_of self.now.head }
    {
        match &self.head {
            None => None,
            Some(held) => Some(&held.emission),
        }
    }

    /// The number of the head among the values that came in the leg under the edge's epoch, from 1 on. It is 0 for the one
    /// held when the leg began, and where there is no head.
    pub fn number(&self) -> u64
        ensures { result ≡ number_at_head self.now.head }
    {
        match &self.head {
            None => 0,
            Some(held) => held.number,
        }
    }

    /// Whether no value waits, under any epoch.
    pub fn is_idle(&self) -> bool
        ensures { IsTrue result ↔ (self.now.queue ≡ []) }
    {
        self.queue.is_empty()
    }

    /// A leg begins: the head is the one with the number 0.
    pub fn begin_leg(&mut self)
        ensures { self.new ≡ first_slot self.old }
    {
        let head = self.head.take();
        self.head = first(head);
    }

    /// An equal slot; `OutOfMemory` where there is no memory for it.
    pub fn copy(&self) -> Result<Slot, OutOfMemory>
        ensures { IfOk result (λ slot. slot ≡ self.now) }
    {
        let announced = copied_keys(&self.announced)?;
        let head = copied_head(&self.head)?;
        let queue = copied_queue(self.alloc, &self.queue)?;
        Ok(Slot {
            alloc: self.alloc,
            sender: self.sender,
            edge: self.edge,
            announced,
            head,
            queue,
            spare: Vec::new(self.alloc),
        })
    }
}
