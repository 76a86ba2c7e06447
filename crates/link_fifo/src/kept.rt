// An item of which a part was pushed.
ghost use Rattle.svc_value.specs.declared.limits.TheConstants.{MAX_FRAME_LEN};
ghost use Rattle.std.specs.Prelude.{◌≤◌, length};

use crate::RingOut;
use crate::push_from::push_from;
use svc_value::Bytes;
use svc_value::limits::MAX_FRAME_LEN;

/// An item, and where the next piece begins in it behind its length.
#[derive(Drop)]
pub struct Kept {
    pub item: Bytes,
    pub at: usize,
    ghost fits: { length item ≤ MAX_FRAME_LEN },
}

impl Kept {
    ghost use Rattle.std.specs.Prelude.{◌≡◌, ◌≤◌, ◌++◌, [], ◌<◌, IsTrue, IsFalse, length};
    ghost use Rattle.wire_frame.specs.Stream.{framed_item};
    ghost use Rattle.link_fifo.specs.Ring.{ring_sent, ring_room, SameOut};
    ghost use Rattle.link_fifo.specs.Cuts.{cuts_of, Grows};
    ghost use Rattle.link_fifo.specs.Kept.{left_of};

    /// All of an item.
    pub fn whole(item: Bytes) -> Kept
        requires { length item ≤ MAX_FRAME_LEN }
        ensures left { left_of result ≡ framed_item item }
        ensures item { result.item ≡ item }
    {
        Kept { item, at: 0 }
    }

    /// Pushes the pieces that fit. True where nothing is left.
    pub fn push_into(&mut self, out: &mut RingOut) -> bool
        ensures sent { ring_sent out.new ++ cuts_of (left_of self.new) ≡ ring_sent out.old ++ cuts_of (left_of self.old) }
        ensures done { IsTrue result → left_of self.new ≡ [] }
        ensures left { IsFalse result → 0 < length (left_of self.new) }
        ensures full { IsFalse result → ring_room out.new ≡ 0 }
        ensures grown { Grows (ring_sent out.old) (ring_sent out.new) }
        ensures ring { SameOut out.old out.new }
        ensures item { self.new.item ≡ self.old.item }
    {
        self.at = push_from(self.item.as_slice(), self.at, out);
        self.at >= self.item.len() + 2
    }
}
