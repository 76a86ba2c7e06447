// Pushing the pieces of an item.
ghost use Rattle.std.specs.Prelude.{◌≡◌, ◌+◌, ◌<◌, ◌≤◌, ◌++◌, ◌⊎◌, length, drop};
ghost use Rattle.wire_frame.specs.Stream.{framed_item};
ghost use Rattle.link_fifo.specs.Ring.{ring_sent, ring_room, SameOut};
ghost use Rattle.link_fifo.specs.Cuts.{cuts_of, Grows};

use crate::RingOut;
use crate::bytes_at::piece_at;
use crate::piece::MAX_PIECE_LEN;
use svc_value::limits::MAX_FRAME_LEN;

#[tactic(auto, using(crate::proofs::Grown::grows_not))]
/// Pushes the pieces that fit, and answers where the next one begins.
pub(crate) fn push_from(item: &[u8], from: usize, out: &mut RingOut) -> usize
    requires { length item.now ≤ MAX_FRAME_LEN }
    ensures sent { ring_sent out.new ++ cuts_of (drop result (framed_item item.now)) ≡ ring_sent out.old ++ cuts_of (drop from (framed_item item.now)) }
    ensures full { (length item.now + 2 ≤ result) ⊎ (ring_room out.new ≡ 0) }
    ensures grown { Grows (ring_sent out.old) (ring_sent out.new) }
    ensures forward { from ≤ result }
    ensures ring { SameOut out.old out.new }
{
    let len = item.len() + 2;
    let mut at = from;
    while at < len {
        match out.push(piece_at(item, at)) {
            Ok(()) => at += MAX_PIECE_LEN,
            Err(_) => return at,
        }
    }
    at
}
