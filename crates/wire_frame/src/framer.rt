// Frames out of bytes that come in any pieces.
ghost use Rattle.std.specs.Prelude.{◌≡◌, ◌<◌, length, IfOk, IfErr};
ghost use Rattle.wire_frame.specs.Frames.{FrameOf};
ghost use Rattle.wire_frame.specs.Framing.{IsRefusedItem};

use crate::{CutError, Cutter, Frame, FrameError, FrameReason, StreamError, read_frame};
use std::alloc::Global;
use std::marker::Model;
use svc_value::OutOfMemory;

/// A stream of frames, each after its length as two bytes, that comes in any pieces. Contracts see the bytes that were fed
/// and not yet answered, and the offset of the first of them.
#[derive(Drop)]
pub struct Framer {
    alloc: Global,
    cutter: Cutter,
}

impl Model for Framer {
    ghost use Rattle.wire_frame.specs.Framing.{Unread};

    ghost Value = { Unread };

    ghost view = { λ f. record { held = f.cutter.held; offset = f.cutter.offset } };
}

impl Framer {
    ghost use Rattle.std.specs.Prelude.{◌≡◌, ◌++◌, [], ℕ, OnOk, OnErr, IfOk, IfSome, IfErr, Ok, Err, None};
    ghost use Rattle.wire_frame.specs.declared.reason.FrameReason.{FrameReason as Reason};
    ghost use Rattle.wire_frame.specs.Framing.{IsAnswered, IsWrongNext};
    ghost use Rattle.wire_frame.specs.Stream.{IsPartial};

    /// Nothing was fed yet. It takes its memory from `alloc`.
    pub fn new(alloc: Global) -> Framer
        ensures held { result.held ≡ [] }
        ensures offset { result.offset ≡ 0 }
    {
        Framer {
            alloc,
            cutter: Cutter::new(alloc),
        }
    }

    /// Appends a piece to the stream. `OutOfMemory` leaves the framer as it was.
    pub fn feed(&mut self, piece: &[u8]) -> Result<(), OutOfMemory>
        ensures held { OnOk result (self.new.held ≡ self.old.held ++ piece.now) }
        ensures offset { OnOk result (self.new.offset ≡ self.old.offset) }
        ensures err { OnErr result (self.new ≡ self.old) }
    {
        self.cutter.reserve(piece.len())?;
        self.cutter.feed(piece);
        Ok(())
    }

    /// Takes the next frame off the front of the stream. None where its length or the frame itself has not wholly come.
    /// `Bad` exactly where the next frame is wrong, with the offset of its length, or the greatest u64 where the offset is
    /// above that: a length above 585 at place 0, for the reason `Length`; else what `read_frame` refuses of just its bytes;
    /// else a frame that ends before its length does, at its end, for the reason `Rest`. Every later call answers the same.
    /// An error leaves the framer as it was.
    pub fn next(&mut self) -> Result<Option<Frame>, StreamError>
        ensures frame { IfOk result (λ o. IfSome o (IsAnswered self.old self.new)) }

        ensures none { result ≡ Ok None → IsPartial self.old.held × (self.new ≡ self.old) }
        ensures partial { IsPartial self.old.held → result ≡ Ok None }

        ensures err { IfErr result (λ _. self.new ≡ self.old) }
        ensures bad { (at place : ℕ) (why : Reason) → result ≡ Err (StreamError.Bad at place why) →
            (at ≡ self.old.offset) × IsWrongNext self.old.held place why }
    {
        let (frame, size) = match self.cutter.front() {
            Ok(Some(item)) => match whole_frame(self.alloc, item) {
                Ok(frame) => (frame, item.len()),
                Err(FrameError::Bad { place, reason }) => {
                    return Err(StreamError::Bad {
                        at: self.cutter.offset(),
                        place,
                        reason,
                    });
                }
                Err(FrameError::OutOfMemory) => return Err(StreamError::OutOfMemory),
            },
            Ok(None) => return Ok(None),
            Err(CutError::Length { at }) => {
                return Err(StreamError::Bad {
                    at,
                    place: 0,
                    reason: FrameReason::Length,
                });
            }
            Err(CutError::OutOfMemory) => return Err(StreamError::OutOfMemory),
        };
        self.cutter.pass(size);
        Ok(Some(frame))
    }
}

// The frame that these bytes are, all of them.
fn whole_frame(alloc: Global, item: &[u8]) -> Result<Frame, FrameError>
    ensures ok { IfOk result (λ frame. FrameOf frame item.now) }
    ensures bad { IfErr result (IsRefusedItem item.now) }
{
    match read_frame(alloc, item) {
        Ok((_, len)) if len < item.len() => Err(FrameError::Bad {
            place: len,
            reason: FrameReason::Rest,
        }),
        Ok((frame, _)) => Ok(frame),
        Err(error) => Err(error),
    }
}
