// A frame off the front of some bytes.
ghost use Rattle.std.specs.Prelude.{◌≡◌, ◌⊎◌, ◌<◌, ◌≤◌, ◌++◌, ℕ, List, Ok, Err, length, slice_index, IfOk, IfErr, OnErr};
ghost use Rattle.wire_frame.specs.Frames.{frame_bytes};
ghost use Rattle.wire_frame.specs.LentFrames.{frame_in};
ghost use Rattle.wire_frame.specs.Taking.{IsAtFront, IsRefused};

use crate::bodies::{read_announced, read_cargo, read_delta};
use crate::numbers::read_clock;
use crate::{Announced, Delta, Frame, FrameError, FrameReason, FrameRef};
use std::alloc::Global;
use svc_value::OutOfMemory;

/// The frame that `bytes` begin with, and how many bytes it has; its lists and its text are put into memory of `alloc`.
/// `Bad` exactly where they begin with none: `place` is the length of the longest front that begins a frame, and `reason`
/// the field of the byte behind it, or `Short` exactly where `place` is the whole length. `OutOfMemory` when memory runs out,
/// which only frames with a value or a list take.
pub fn read_frame(alloc: Global, bytes: &[u8]) -> Result<(Frame, usize), FrameError>
    ensures ok { IfOk result (λ read. IsAtFront bytes.now read.0 read.1) }
    ensures bad { IfErr result (IsRefused bytes.now) }
    ensures memory { result ≡ Err FrameError.OutOfMemory →
        (3 ≤ slice_index bytes.now 0) × (slice_index bytes.now 0 ≤ 5) }
{
    let (frame, len) = read_frame_ref(alloc, bytes)?;
    Ok((owned(alloc, frame)?, len))
}

/// The frame that `bytes` begin with, and how many bytes it has, as `read_frame` answers it; but the bytes lend the keys of
/// Sources and the places of a value of version 2, for which no memory is taken. The text of a value, and the clocks of one
/// of version 1, are put into memory of `alloc`. `Bad` exactly where `read_frame` refuses, with the same place and reason.
/// `OutOfMemory` when memory runs out, which only frames with a value take.
pub fn read_frame_ref(alloc: Global, bytes: &[u8]) -> Result<(FrameRef<'_>, usize), FrameError>
    ensures ok { IfOk result (λ read. IsAtFront bytes.now (frame_in read.0) read.1) }
    ensures bad { IfErr result (IsRefused bytes.now) }
    ensures memory { result ≡ Err FrameError.OutOfMemory →
        (4 ≤ slice_index bytes.now 0) × (slice_index bytes.now 0 ≤ 5) }
{
    match bytes {
        [1, ..] => Ok((
            FrameRef::Subscribe(read_clock(bytes, 1, FrameReason::Epoch)?),
            5,
        )),
        [2, ..] => Ok((
            FrameRef::Unsubscribe(read_clock(bytes, 1, FrameReason::Epoch)?),
            5,
        )),
        [3, ..] => {
            let (announced, len) = read_announced(bytes)?;
            Ok((FrameRef::Sources(announced), len))
        }
        [4, ..] => {
            let (cargo, len) = read_cargo(alloc, bytes)?;
            Ok((FrameRef::Carried(cargo), len))
        }
        [5, ..] => {
            let (delta, len) = read_delta(alloc, bytes)?;
            Ok((FrameRef::Changed(delta), len))
        }
        [_, ..] => Err(FrameError::Bad {
            place: 0,
            reason: FrameReason::Kind,
        }),
        [] => Err(FrameError::Bad {
            place: 0,
            reason: FrameReason::Short,
        }),
    }
}

// The frame with lists of its own; only keys and a value of version 2 take memory.
fn owned(alloc: Global, frame: FrameRef<'_>) -> Result<Frame, OutOfMemory>
    ensures ok { IfOk result (λ owned. owned ≡ frame_in frame.entry) }
    ensures memory { OnErr result (
        (slice_index (frame_bytes (frame_in frame.entry)) 0 ≡ 3) ⊎ (slice_index (frame_bytes (frame_in frame.entry)) 0 ≡ 5)) }
{
    match frame {
        FrameRef::Subscribe(epoch) => Ok(Frame::Subscribe(epoch)),
        FrameRef::Unsubscribe(epoch) => Ok(Frame::Unsubscribe(epoch)),
        FrameRef::Sources(announced) => Ok(Frame::Sources(Announced {
            epoch: announced.epoch,
            keys: announced.keys.to_list(alloc)?,
        })),
        FrameRef::Carried(cargo) => Ok(Frame::Carried(cargo)),
        FrameRef::Changed(delta) => Ok(Frame::Changed(Delta {
            epoch: delta.epoch,
            clocks: delta.clocks.to_list(alloc)?,
            value: delta.value,
        })),
    }
}
