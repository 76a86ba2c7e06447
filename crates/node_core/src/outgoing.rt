// Frames that are to be sent.
ghost use Rattle.wire_frame.specs.declared.frame.Frame.TheVariants.{Subscribe, Unsubscribe};
ghost use Rattle.std.specs.Prelude.{◌≡◌, ◌≤◌, ◌<◌, ◌^◌, ◌++◌, ◌∷◌, [], length, OnOk, IfOk};
ghost use Rattle.node_core.specs.Outgoing.{Adds, with_epoch};

use crate::encoding::{bytes_of, under};
use std::alloc::Global;
use std::collections::VecDeque;
use std::marker::Model;
use svc_value::{Bytes, Clock, OutOfMemory, ServiceId};
use wire_frame::Frame;

/// A frame to be sent to a service: its bytes for the log, and the same to hand over.
#[derive(Drop)]
pub(crate) struct OutgoingFrame {
    pub(crate) to: ServiceId,
    pub(crate) logged: Bytes,
    pub(crate) waiting: Bytes,
}

/// Frames to be sent, each with its receiver.
#[derive(Drop)]
pub(crate) struct Outgoing {
    alloc: Global,
    pub(crate) outgoing_frames: VecDeque<OutgoingFrame>,
}

impl Model for Outgoing {
    ghost use Rattle.std.specs.Prelude.{List, ℕ, ◌≡◌};
    ghost use Rattle.node_core.specs.Entries.{sent_entries};
    ghost use Rattle.node_core.specs.OutgoingFrames.{waiting_frames, log_entries};

    ghost Value = { List (ℕ × List ℕ) };

    ghost view = { λ m. waiting_frames m.outgoing_frames.items };

    ghost invariant = { λ m. log_entries m.outgoing_frames.items ≡ sent_entries (waiting_frames m.outgoing_frames.items) };
}

impl Outgoing {
    // No frames yet.
    pub(crate) fn new(alloc: Global) -> Outgoing
        ensures { result ≡ [] }
    {
        Outgoing {
            alloc,
            outgoing_frames: VecDeque::new(alloc),
        }
    }

    // No frames, in the memory of these.
    pub(crate) fn emptied(mut self) -> Outgoing
        ensures { result ≡ [] }
    {
        self.outgoing_frames.clear();
        self
    }

    // One frame more, to a service.
    #[tactic(auto, using(crate::proofs::OutgoingFrameLemmas::waiting_frames_snoc, crate::proofs::OutgoingFrameLemmas::log_entries_snoc, crate::proofs::OutgoingFrameLemmas::sent_snoc))]
    pub(crate) fn add(&mut self, to: ServiceId, bytes: Vec<u8>) -> Result<(), OutOfMemory>
        ensures { OnOk result (self.new ≡ self.old ++ (to, bytes.items) ∷ []) }
    {
        let waiting = Bytes::from_slice(self.alloc, bytes.as_slice())?;
        self.outgoing_frames.reserve(1)?;
        self.outgoing_frames.push_back_reserved(OutgoingFrame {
            to,
            logged: Bytes::from_vec(bytes),
            waiting,
        });
        Ok(())
    }

    // The frame of these bytes under another epoch, to a service.
    pub(crate) fn add_under(
        &mut self,
        to: ServiceId,
        bytes: &[u8],
        epoch: Clock,
    ) -> Result<(), OutOfMemory>
        requires { 5 ≤ length bytes.now }
        ensures added { OnOk result (self.new ≡ self.old ++ (to, with_epoch epoch bytes.now) ∷ []) }
        ensures fits { epoch < 2 ^ 32 }
    {
        let copy = under(self.alloc, bytes, epoch)?;
        self.add(to, copy)
    }

    // A Subscribe to a service.
    pub(crate) fn subscribe(&mut self, to: ServiceId, epoch: Clock) -> Result<(), OutOfMemory>
        requires { 1 ≤ epoch }
        ensures { OnOk result (Adds to (Subscribe epoch) self.old self.new) }
    {
        let bytes = bytes_of(self.alloc, &Frame::Subscribe(epoch), 5)?;
        self.add(to, bytes)
    }

    // An Unsubscribe to a service.
    pub(crate) fn unsubscribe(&mut self, to: ServiceId, epoch: Clock) -> Result<(), OutOfMemory>
        requires { 1 ≤ epoch }
        ensures { OnOk result (Adds to (Unsubscribe epoch) self.old self.new) }
    {
        let bytes = bytes_of(self.alloc, &Frame::Unsubscribe(epoch), 5)?;
        self.add(to, bytes)
    }

    // How many frames there are.
    #[tactic(auto, using(crate::proofs::OutgoingFrameLemmas::length_waiting_frames))]
    pub(crate) fn len(&self) -> usize
        ensures { result ≡ length self.now }
    {
        self.outgoing_frames.len()
    }
}
