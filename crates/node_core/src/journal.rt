// What was done in a leg, and the frames that were sent in it and not yet handed over.
ghost use Rattle.std.specs.Prelude.{◌≡◌, ◌+◌, ◌-◌, ◌≤◌, ◌<◌, [], ◌∷◌, ◌++◌, ℕ, ◌↔◌, length, option_to_list, OnOk, IfSome, IsNone, IsTrue};
ghost use Rattle.std.specs.VecDeque.{deque_len, deque_capacity};
ghost use Rattle.node_core.specs.Entries.{sent_entries, sent_to};
ghost use Rattle.node_core.specs.Outbox.{AreShort, TakesOut, waiting};

use crate::Entry;
use crate::outbox::{put_all, take_out};
use crate::outgoing::Outgoing;
use std::alloc::Global;
use std::collections::VecDeque;
use std::marker::Model;
use svc_value::limits::MAX_FRAME_LEN;
use svc_value::{Bytes, OutOfMemory, ServiceId};

/// The log of a leg, oldest entry first, the frames that wait to be handed over, and how many of the leg were. Contracts also
/// see how many entries and frames more there is room for.
#[derive(Drop)]
pub(crate) struct Journal {
    log: Vec<Entry>,
    outbox: VecDeque<(ServiceId, Bytes)>,
    handed: usize,
}

impl Model for Journal {
    ghost use Rattle.node_core.specs.View.{JournalView};

    ghost Value = { JournalView };

    ghost use Rattle.node_core.specs.Journals.{kept_of, IsJournal};

    ghost view = { kept_of };

    ghost invariant = { IsJournal };
}

impl Journal {
    ghost use Rattle.node_core.specs.View.{SameKept, IsLastOut};

    // Nothing was done.
    pub(crate) fn new(alloc: Global) -> Journal
        ensures entries { result.entries ≡ [] }
        ensures outbox { result.outbox ≡ [] }
        ensures handed { result.handed ≡ 0 }
    {
        Journal {
            log: Vec::new(alloc),
            outbox: VecDeque::new(alloc),
            handed: 0,
        }
    }

    // Makes room for an entry and for so many frames after it.
    pub(crate) fn reserve(&mut self, frames: usize) -> Result<(), OutOfMemory>
        ensures same { SameKept self.old self.new }
        ensures entries { OnOk result (frames < self.new.entry_room) }
        ensures outgoing_frames { OnOk result (frames ≤ self.new.outgoing_frame_room) }
    {
        self.log.reserve(frames.checked_add(1).ok_or(OutOfMemory)?)?;
        self.outbox
            .reserve(frames.checked_add(self.handed).ok_or(OutOfMemory)?)?;
        Ok(())
    }

    // An entry and the frames that are sent after it, which are short and for which there is room; the list of the frames comes
    // back empty.
    #[tactic(auto, using(crate::proofs::OutgoingFrameLemmas::length_waiting_frames))]
    pub(crate) fn record(&mut self, first: Entry, mut outgoing: Outgoing) -> Outgoing
        requires entries { length outgoing < self.old.entry_room }
        requires outgoing_frames { length outgoing ≤ self.old.outgoing_frame_room }
        requires first { (q : ℕ) → sent_to q (first ∷ []) ≡ [] }
        requires short { (q : ℕ) → AreShort (waiting q outgoing) }
        ensures entries { self.new.entries ≡ self.old.entries ++ first ∷ sent_entries outgoing }
        ensures outbox { self.new.outbox ≡ self.old.outbox ++ outgoing }
        ensures handed { self.new.handed ≡ self.old.handed }
        ensures left { result ≡ [] }
    {
        self.log.push_reserved(first);
        put_all(
            &mut self.log,
            &mut self.outbox,
            &mut outgoing.outgoing_frames,
        );
        outgoing
    }

    // The entries, oldest first.
    pub(crate) fn entries(&self) -> &[Entry]
        ensures { result.now ≡ self.now.entries }
    {
        self.log.as_slice()
    }

    // Whether every frame was handed over.
    pub(crate) fn is_handed(&self) -> bool
        ensures { IsTrue result ↔ (self.now.outbox ≡ []) }
    {
        self.outbox.is_empty()
    }

    // Forgets what was done, where every frame was handed over.
    pub(crate) fn clear(&mut self)
        requires { self.old.outbox ≡ [] }
        ensures entries { self.new.entries ≡ [] }
        ensures outbox { self.new.outbox ≡ [] }
        ensures handed { self.new.handed ≡ 0 }
    {
        self.log.clear();
        self.handed = 0;
    }

    // Takes out the oldest frame to a service.
    pub(crate) fn next_out(&mut self, to: ServiceId) -> Option<Bytes>
        ensures out { TakesOut to self.old.outbox self.new.outbox result }
        ensures last { IfSome result (λ frame. IsLastOut to frame self.new.entries self.new.outbox) }
        ensures short { IfSome result (λ frame. length frame ≤ MAX_FRAME_LEN) }
        ensures entries { self.new.entries ≡ self.old.entries }
        ensures handed { self.new.handed ≡ self.old.handed + length (option_to_list result) }
    {
        let frame = take_out(&mut self.outbox, to)?;
        self.handed += 1;
        Some(frame)
    }

    // Takes out the oldest frame, with its receiver.
    pub(crate) fn pop_out(&mut self) -> Option<(ServiceId, Bytes)>
        ensures some { IfSome result (λ outgoing_frame. self.old.outbox ≡ outgoing_frame ∷ self.new.outbox) }
        ensures none { IsNone result → self.old.outbox ≡ [] }
        ensures kept { IsNone result → self.new.outbox ≡ self.old.outbox }
        ensures last { IfSome result (λ outgoing_frame. IsLastOut outgoing_frame.0 outgoing_frame.1 self.new.entries self.new.outbox) }
        ensures short { IfSome result (λ outgoing_frame. length outgoing_frame.1 ≤ MAX_FRAME_LEN) }
        ensures entries { self.new.entries ≡ self.old.entries }
        ensures handed { self.new.handed ≡ self.old.handed + length (option_to_list result) }
    {
        let outgoing_frame = self.outbox.pop_front()?;
        self.handed += 1;
        Some(outgoing_frame)
    }

    // Puts the frame back that was taken out last of those to a service.
    pub(crate) fn give_back(&mut self, to: ServiceId, bytes: Bytes)
        requires out { 0 < self.old.handed }
        requires last { IsLastOut to bytes self.old.entries self.old.outbox }
        ensures outbox { self.new.outbox ≡ (to, bytes) ∷ self.old.outbox }
        ensures entries { self.new.entries ≡ self.old.entries }
        ensures handed { self.new.handed ≡ self.old.handed - 1 }
    {
        self.outbox.push_front_reserved((to, bytes));
        self.handed -= 1;
    }
}
