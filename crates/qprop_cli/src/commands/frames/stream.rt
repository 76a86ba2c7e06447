// The frames of a stream, as lines.
ghost use Rattle.std.specs.Prelude.{◌≡◌, ◌++◌, Ok, Err, None, IfOk, IfSome};
ghost use Rattle.document_reading.specs.declared.refusal.Refusal.{Refusal as AnyRefusal};
ghost use Rattle.wire_frame.specs.Frames.{FrameOf};
ghost use Rattle.wire_frame.specs.Taking.{IsFrame};
ghost use Rattle.wire_frame.specs.Stream.{framed_item};
ghost use Rattle.qprop_cli.specs.Commands.Frames.{BeginsWithFrame, IsStreamRefusal, HasLines};
ghost use Rattle.qprop_cli.specs.Inside.FrameLines.{AddsLine};

use super::line::push_frame;
use document_reading::{Code, Refusal};
use std::alloc::Global;
use svc_value::OutOfMemory;
use svc_value::limits::MAX_DOCUMENT_LEN;
use wire_frame::{Frame, FrameError, read_frame};

/// Why a stream of frames is not read.
#[derive(Clone, Copy, Debug, PartialEq, Eq)]
pub(crate) enum StreamError {
    /// The bytes are no stream of frames, or too many.
    Refused(Refusal),
    /// Out of memory.
    OutOfMemory,
}

impl From<OutOfMemory> for StreamError {
    ghost use Rattle.qprop_cli.specs.declared.commands.frames.stream.StreamError.TheVariants.{OutOfMemory as NoMemory};
    ghost use Rattle.std.specs.Prelude.{◌≡◌};

    ghost from_gives = { λ _ e. e ≡ NoMemory };

    fn from(_: OutOfMemory) -> Self {
        StreamError::OutOfMemory
    }
}

/// The frame that the bytes are, all of them; None exactly where they are none.
fn whole_frame(alloc: Global, item: &[u8]) -> Result<Option<Frame>, OutOfMemory>
    ensures frame { IfOk result (λ o. IfSome o (λ frame. FrameOf frame item.now)) }
    ensures none { result ≡ Ok None → IsFrame item.now → ⊥ }
{
    match read_frame(alloc, item) {
        Ok((frame, len)) if len == item.len() => Ok(Some(frame)),
        Ok(_) => Ok(None),
        Err(FrameError::Bad { .. }) => Ok(None),
        Err(FrameError::OutOfMemory) => Err(OutOfMemory),
    }
}

/// The item in front of `bytes`, after its length, and what follows it; None where the bytes end before the item does.
fn front_item(bytes: &[u8]) -> Option<(&[u8], &[u8])>
    ensures item { IfSome result (λ found. bytes.now ≡ framed_item found.0.now ++ found.1.now) }
    ensures none { result ≡ None → BeginsWithFrame bytes.now → ⊥ }
{
    let [high, low, rest @ ..] = bytes else {
        return None;
    };
    let size = usize::from(*high) * 256 + usize::from(*low);
    if rest.len() < size {
        return None;
    }
    Some(rest.split_at(size))
}

/// Appends the line of the frame that stands in front of `bytes`, after its length, to `text`. The answer is what follows
/// it; None exactly where no frame stands there.
fn push_line<'a>(
    alloc: Global,
    bytes: &'a [u8],
    text: &mut Vec<u8>,
) -> Result<Option<&'a [u8]>, OutOfMemory>
    ensures line { IfOk result (λ o. IfSome o (λ rest. AddsLine bytes.now rest.now text.old.items text.new.items)) }
    ensures none { result ≡ Ok None → BeginsWithFrame bytes.now → ⊥ }
{
    let Some((item, rest)) = front_item(bytes) else {
        return Ok(None);
    };
    let Some(frame) = whole_frame(alloc, item)? else {
        return Ok(None);
    };
    push_frame(&frame, text)?;
    Ok(Some(rest))
}

/// The lines of the frames of which `bytes` are a stream, in memory of `alloc`. `Refused` exactly where they are none, or
/// more than a stream may have; the first wrong frame is told by its number, from 1.
pub(crate) fn frames_text(alloc: Global, bytes: &[u8]) -> Result<Vec<u8>, StreamError>
    ensures lines { IfOk result (λ text. HasLines bytes.now text.items) }
    ensures refused { (refusal : AnyRefusal) → result ≡ Err (StreamError.Refused refusal) → IsStreamRefusal bytes.now refusal }
{
    if MAX_DOCUMENT_LEN < bytes.len() {
        return Err(StreamError::Refused(Refusal {
            line: 0,
            code: Code::E01,
        }));
    }
    let mut text = Vec::new(alloc);
    let mut rest = bytes;
    let mut number = 1;
    while !rest.is_empty() {
        let Some(after) = push_line(alloc, rest, &mut text)? else {
            return Err(StreamError::Refused(Refusal {
                line: number,
                code: Code::E20,
            }));
        };
        rest = after;
        number += 1;
    }
    Ok(text)
}
