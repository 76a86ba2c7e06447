// The frame that bytes are.
ghost use Rattle.std.specs.Prelude.{IfOk, IfErr};
ghost use Rattle.wire_frame.specs.Frames.{FrameOf};
ghost use Rattle.wire_frame.specs.LentFrames.{frame_in};
ghost use Rattle.node_core.specs.Taking.{IsUnread};

use crate::TakeRefusal;
use std::alloc::Global;
use wire_frame::{FrameError, FrameReason, FrameRef, read_frame_ref};

// The frame that these bytes are, all of them; they lend its keys, and the places of its clocks.
pub(crate) fn whole_frame(alloc: Global, bytes: &[u8]) -> Result<FrameRef<'_>, TakeRefusal>
    ensures ok { IfOk result (λ frame. FrameOf (frame_in frame) bytes.now) }
    ensures bad { IfErr result (IsUnread bytes.now) }
{
    match read_frame_ref(alloc, bytes) {
        Ok((_, len)) if len < bytes.len() => Err(TakeRefusal::Frame {
            place: len,
            reason: FrameReason::Rest,
        }),
        Ok((frame, _)) => Ok(frame),
        Err(FrameError::Bad { place, reason }) => Err(TakeRefusal::Frame { place, reason }),
        Err(FrameError::OutOfMemory) => Err(TakeRefusal::OutOfMemory),
    }
}
