// The end of a ring that takes items.
ghost use Rattle.link_fifo.specs.Ring.{ring_sent};
ghost use Rattle.link_fifo.specs.Cuts.{IsSent};
ghost use Rattle.link_fifo.specs.Kept.{bytes_kept};

use crate::RingOut;
use crate::kept::Kept;
use svc_value::Bytes;
use svc_value::limits::MAX_FRAME_LEN;

/// The end of a ring that takes items and sends them in pieces. It keeps what did not fit of the last item, and tells every item
/// that it took, oldest first.
#[derive(Drop)]
pub struct PieceOut {
    pub(crate) out: RingOut,
    pub(crate) kept: Option<Kept>,
    ghost sent: { IsSent (ring_sent out) (bytes_kept kept) },
}

impl PieceOut {
    ghost use Rattle.std.specs.Prelude.{◌≡◌, ◌+◌, ◌<◌, ◌≤◌, ◌++◌, [], ◌∷◌, ◌↔◌, length, OnOk, OnErr, IfErr, IsTrue, IsFalse};
    ghost use Rattle.link_fifo.specs.Ring.{ring_sent};
    ghost use Rattle.link_fifo.specs.Cuts.{Grows, cuts_of, pieces_of};
    ghost use Rattle.link_fifo.specs.Ends.{items_sent, pieces_sent, kept_bytes, room, IsWriterOf, SameWriter};

    /// An end over `out`, which has sent no piece; it has taken no item, and belongs to the ring of `out`.
    pub fn new(out: RingOut) -> PieceOut
        requires { ring_sent out ≡ [] }
        ensures sent { items_sent result ≡ [] }
        ensures kept { kept_bytes result ≡ [] }
        ensures ring { IsWriterOf out result }
    {
        PieceOut { out, kept: None }
    }

    /// Pushes what fits of the kept rest. True exactly where nothing is kept afterwards, and false only where no slot is known
    /// to be free. No memory is taken.
    #[tactic(auto, using(crate::proofs::Grown::grows_not))]
    pub fn flush(&mut self) -> bool
        ensures sent { items_sent self.new ≡ items_sent self.old }
        ensures cut { pieces_sent self.new ++ cuts_of (kept_bytes self.new) ≡ pieces_of (items_sent self.new) }
        ensures done { IsTrue result → kept_bytes self.new ≡ [] }
        ensures left { IsFalse result → 0 < length (kept_bytes self.new) }
        ensures full { IsFalse result → room self.new ≡ 0 }
        ensures grown { Grows (pieces_sent self.old) (pieces_sent self.new) }
        ensures ring { SameWriter self.old self.new }
    {
        match &mut self.kept {
            None => true,
            Some(rest) => rest.push_into(&mut self.out),
        }
    }

    /// Pushes what fits of the rest of the item before, and then takes `item`, of at most 585 bytes: its length goes before
    /// it, the pieces that fit are pushed and the rest is kept. The item comes back exactly where some of the rest before
    /// stays. Something is kept only where no slot is known to be free. No memory is taken.
    #[tactic(auto, using(crate::proofs::Grown::grows_twice))]
    pub fn push(&mut self, item: Bytes) -> Result<(), Bytes>
        requires { length item ≤ MAX_FRAME_LEN }
        ensures appended { OnOk result (items_sent self.new ≡ items_sent self.old ++ item ∷ []) }
        ensures handed_back { IfErr result (λ back. back ≡ item) }
        ensures cut { pieces_sent self.new ++ cuts_of (kept_bytes self.new) ≡ pieces_of (items_sent self.new) }
        ensures same { OnErr result (items_sent self.new ≡ items_sent self.old) }
        ensures left { OnErr result (0 < length (kept_bytes self.new)) }
        ensures moved { OnOk result (length (kept_bytes self.new) ≤ length item + 2) }
        ensures full { 0 < length (kept_bytes self.new) → room self.new ≡ 0 }
        ensures grown { Grows (pieces_sent self.old) (pieces_sent self.new) }
        ensures ring { SameWriter self.old self.new }
    {
        if !self.flush() {
            return Err(item);
        }
        self.start(item);
        Ok(())
    }

    // Takes an item, where nothing is kept.
    fn start(&mut self, item: Bytes)
        requires fits { length item ≤ MAX_FRAME_LEN }
        requires none { kept_bytes self.old ≡ [] }
        ensures appended { items_sent self.new ≡ items_sent self.old ++ item ∷ [] }
        ensures moved { length (kept_bytes self.new) ≤ length item + 2 }
        ensures full { 0 < length (kept_bytes self.new) → room self.new ≡ 0 }
        ensures grown { Grows (pieces_sent self.old) (pieces_sent self.new) }
        ensures ring { SameWriter self.old self.new }
    {
        let mut rest = Kept::whole(item);
        rest.push_into(&mut self.out);
        self.kept = Some(rest);
    }
}
