// What a worker does.
ghost use Rattle.std.specs.Prelude.{◌≡◌, ◌≢◌, ◌<◌, ℕ, length, slice_get, slice_index_or, IfOk, IfSome, OnOk, OnErr, IsTrue, IsFalse, true, false, []};
ghost use Rattle.service_machine.specs.Draining.{is_work, turns_left};
ghost use Rattle.service_machine.specs.Steps.{choice_of};
ghost use Rattle.node_core.specs.Answers.{IsAnswer};
ghost use Rattle.node_core.specs.Outbox.{waiting};
ghost use Rattle.settle_core.specs.Inside.Handing.{IsHandedTo, OthersKept};

use crate::Worker;
use crate::acting::turned;
use crate::handing::{hand_to, next_item};
use node_core::{Node, TakeRefusal, Turned};
use std::sync::atomic::AtomicU64;
use svc_value::limits::MAX_SERVICES;
use svc_value::{OutOfMemory, ServiceId};

// The number at a place of these, if there is one.
fn peer_in(peers: &[ServiceId], place: usize) -> Option<ServiceId>
    ensures { result ≡ slice_get peers.now place }
{
    peers.get(place).copied()
}

impl Worker {
    ghost use Rattle.settle_core.specs.Workers.{node_of, peers_of, GoesOn, HasHandedOver};

    /// The number of the service.
    pub fn id(&self) -> ServiceId {
        self.id
    }

    /// The node, lent.
    pub fn node(&self) -> &Node
        ensures { result.now ≡ node_of self.now }
    {
        &self.wired.node
    }

    /// The peer at `place`, counted from 0; `None` exactly past the last one. The peers are the services to which the worker has a
    /// ring, in the order of their numbers. Whatever calls are made, they stay the same.
    pub fn peer(&self, place: usize) -> Option<ServiceId>
        ensures at { result ≡ slice_get (peers_of self.now) place }
        ensures few { IfSome result (λ peer. peer < MAX_SERVICES) }
    {
        peer_in(self.peers.as_slice(), place)
    }

    // The peer at a place that there is.
    fn peer_at(&self, place: usize) -> ServiceId
        requires { place < length self.now.peers.items }
        ensures at { result ≡ slice_index_or self.now.peers.items place result }
        ensures few { result < MAX_SERVICES }
    {
        self.peers[place]
    }

    /// Does the next change of the leg; false exactly where none is left. `OutOfMemory` only when memory runs out; then the worker is
    /// as it was.
    pub fn do_next(&mut self) -> Result<bool, OutOfMemory>
        ensures goes_on { GoesOn self.old self.new }
        ensures fewer { IfOk result (λ is_done. IsTrue is_done → length (node_of self.new).state.left < length (node_of self.old).state.left) }
        ensures none { IfOk result (λ is_done. IsFalse is_done → (node_of self.new).state.left ≡ []) }
    {
        self.wired.node.do_next()
    }

    /// Takes a turn. After one that took a value or computed, fewer turns are left that do. `OutOfMemory` only when memory runs out;
    /// then the worker is as it was.
    pub fn turn(&mut self) -> Result<Turned, OutOfMemory>
        ensures goes_on { GoesOn self.old self.new }
        ensures left { (node_of self.new).state.left ≡ (node_of self.old).state.left }
        ensures answer { IfOk result (IsAnswer (choice_of (node_of self.old).state)) }
        ensures fewer { OnOk result (is_work (choice_of (node_of self.old).state) ≡ true → turns_left (node_of self.new).state < turns_left (node_of self.old).state) }
        ensures calm { OnOk result (is_work (choice_of (node_of self.old).state) ≡ false → (node_of self.new).state ≡ (node_of self.old).state) }
    {
        turned(&mut self.wired.node)
    }

    /// Takes the next frame from `sender`, if one has come, or one that could not be taken before; false where none is taken, which a
    /// frame that is refused is not. A refused frame is kept, and no other is taken from that ring. `OutOfMemory` only when memory
    /// runs out; then no frame is lost.
    pub fn take_from(&mut self, sender: ServiceId) -> Result<bool, OutOfMemory>
        requires { sender < MAX_SERVICES }
        ensures goes_on { GoesOn self.old self.new }
    {
        self.receive(sender)?;
        self.take_held(sender)
    }

    // Receives a frame from `sender`, unless one is held.
    fn receive(&mut self, sender: ServiceId) -> Result<(), OutOfMemory>
        requires { sender < MAX_SERVICES }
        ensures goes_on { GoesOn self.old self.new }
    {
        let place = usize::from(sender.0);
        if self.wired.held[place].is_none() {
            self.wired.held[place] = next_item(&mut self.wired.from[place])?;
        }
        Ok(())
    }

    // Takes the frame that is held from `sender`; false where none is, or it is refused.
    fn take_held(&mut self, sender: ServiceId) -> Result<bool, OutOfMemory>
        requires { sender < MAX_SERVICES }
        ensures goes_on { GoesOn self.old self.new }
    {
        let place = usize::from(sender.0);
        let Some(bytes) = self.wired.held[place].take() else {
            return Ok(false);
        };
        match self.wired.node.take(sender, bytes) {
            Ok(()) => Ok(true),
            Err((refusal, bytes)) => {
                self.wired.held[place] = Some(bytes);
                match refusal {
                    TakeRefusal::OutOfMemory => Err(OutOfMemory),
                    _ => Ok(false),
                }
            }
        }
    }

    /// Pushes what was left of the frames before, and hands over the frames that are to be sent, as many as fit in each ring. `hint`
    /// rises by one before each frame that is handed over. True where one was. No memory is taken.
    pub fn hand_over(&mut self, hint: &AtomicU64) -> bool
        ensures goes_on { GoesOn self.old self.new }
        ensures state { (node_of self.new).state ≡ (node_of self.old).state }
        ensures handed { HasHandedOver self.new }
    {
        let mut is_moved = false;
        for place in 0..self.peers.len() {
            let peer = self.peer_at(place);
            if self.hand_over_to(peer, hint) {
                is_moved = true;
            }
        }
        is_moved
    }

    // Does so for one service.
    fn hand_over_to(&mut self, to: ServiceId, hint: &AtomicU64) -> bool
        requires { to < MAX_SERVICES }
        ensures goes_on { GoesOn self.old self.new }
        ensures state { (node_of self.new).state ≡ (node_of self.old).state }
        ensures peers { self.new.peers.items ≡ self.old.peers.items }
        ensures others { OthersKept to self.old self.new }
        ensures handed { IsHandedTo to self.new }
    {
        let end = &mut self.wired.to[usize::from(to.0)];
        hand_to(&mut self.wired.node, end, to, hint)
    }
}
