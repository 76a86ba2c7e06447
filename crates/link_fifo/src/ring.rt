// A ring between two threads.
ghost use Rattle.link_fifo.specs.declared.ring.TheConstants.{RING_PIECES};
ghost use Rattle.std.specs.Prelude.{◌≡◌, []};
ghost use Rattle.rtrb.specs.Ring.{sent, received, known_free, IsPair};

use crate::Piece;
use crate::piece::MAX_PIECE_LEN;
use rtrb::{Consumer, Producer, PushError, RingBuffer};
use std::alloc::Global;
use svc_value::OutOfMemory;
use wire_frame::Cutter;

/// How many pieces a ring holds.
pub const RING_PIECES: usize = 32;

/// A ring of 32 pieces, before its ends part.
#[derive(Drop)]
pub struct RingLink {
    producer: Producer<Piece>,
    consumer: Consumer<Piece>,
    ghost pair: { IsPair producer consumer },
    ghost unsent: { sent producer ≡ [] },
    ghost unread: { received consumer ≡ [] },
    ghost free: { known_free producer ≡ RING_PIECES },
}

/// The end of a ring that pushes. It tells every piece that it sent.
#[derive(Drop)]
pub struct RingOut {
    producer: Producer<Piece>,
}

/// The end of a ring that pops. It tells every piece that it received.
#[derive(Drop)]
pub struct RingIn {
    consumer: Consumer<Piece>,
}

impl RingLink {
    ghost use Rattle.link_fifo.specs.Ring.{ring_sent, ring_received, ring_room, OneRing};

    /// An empty ring in memory of `alloc`; `OutOfMemory` where there is none.
    pub fn new(alloc: Global) -> Result<RingLink, OutOfMemory> {
        let (producer, consumer) = RingBuffer::new(alloc, RING_PIECES)?;
        Ok(RingLink { producer, consumer })
    }

    /// The two ends of the ring, each of which may move to a thread of its own. Neither has sent or received a piece. No memory is
    /// taken.
    pub fn split(self) -> (RingOut, RingIn)
        ensures pair { OneRing result.0 result.1 }
        ensures unsent { ring_sent result.0 ≡ [] }
        ensures unread { ring_received result.1 ≡ [] }
        ensures room { ring_room result.0 ≡ RING_PIECES }
    {
        let RingLink { producer, consumer } = self;
        (RingOut { producer }, RingIn { consumer })
    }
}

impl RingOut {
    ghost use Rattle.std.specs.Prelude.{◌≡◌, ◌++◌, ◌∷◌, OnOk, IfErr, OnErr};
    ghost use Rattle.link_fifo.specs.Ring.{ring_sent, ring_room, SameOut};

    /// Sends `piece`. It comes back only where no slot is known to be free afterwards; nothing is sent then. No memory is taken.
    pub fn push(&mut self, piece: Piece) -> Result<(), Piece>
        ensures appended { OnOk result (ring_sent self.new ≡ ring_sent self.old ++ piece ∷ []) }
        ensures handed_back { IfErr result (λ back. back ≡ piece) }
        ensures kept { OnErr result (ring_sent self.new ≡ ring_sent self.old) }
        ensures full { OnErr result (ring_room self.new ≡ 0) }
        ensures ring { SameOut self.old self.new }
    {
        match self.producer.push(piece) {
            Ok(()) => Ok(()),
            Err(PushError::Full(back)) => Err(back),
        }
    }
}

impl RingIn {
    ghost use Rattle.std.specs.Prelude.{◌≡◌, ◌++◌, ◌∷◌, IfSome, IsNone};
    ghost use Rattle.link_fifo.specs.Ring.{ring_received, ring_known, SameIn};

    /// Receives the next piece. None only where no piece is known to wait afterwards; nothing is received then. No memory is
    /// taken.
    pub fn pop(&mut self) -> Option<Piece>
        ensures taken { IfSome result (λ piece. ring_received self.new ≡ ring_received self.old ++ piece ∷ []) }
        ensures kept { IsNone result → ring_received self.new ≡ ring_received self.old }
        ensures empty { IsNone result → ring_known self.new ≡ [] }
        ensures ring { SameIn self.old self.new }
    {
        self.consumer.pop().ok()
    }
}

impl RingOut {
    ghost use Rattle.std.specs.Prelude.{◌≡◌, ◌++◌, OnOk, ℕ, List};
    ghost use Rattle.link_fifo.specs.Ring.{ring_sent, ring_received, OneRing};
    ghost use Rattle.link_fifo.specs.Cuts.{bytes_of_pieces};

    /// Feeds the pieces that lie between the ends. What stood before the held bytes stands before them still.
    pub(crate) fn pour_into(self, into: RingIn, cutter: &mut Cutter) -> Result<(), OutOfMemory>
        requires { OneRing self into }
        ensures { OnOk result ((lead : List ℕ) → bytes_of_pieces (ring_received into) ≡ lead ++ cutter.old.held → bytes_of_pieces (ring_sent self) ≡ lead ++ cutter.new.held) }
    {
        let RingOut { mut producer } = self;
        let RingIn { mut consumer } = into;
        let count = consumer.slots_beside(&mut producer);
        for _ in 0..count {
            cutter.reserve(MAX_PIECE_LEN)?;
            let piece = consumer.pop_known();
            cutter.feed(piece.as_slice());
        }
        Ok(())
    }
}
