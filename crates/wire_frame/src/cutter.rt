// Items out of bytes that come in any pieces.
use crate::CutError;
use crate::front::{TooLong, front_item};
use crate::shift::drop_front;
use std::alloc::Global;
use std::marker::Model;
use svc_value::limits::MAX_FRAME_LEN;
use svc_value::{Bytes, OutOfMemory};

/// A stream of items, each after its length as two bytes, that comes in any pieces. Contracts see the bytes that were
/// fed and not yet answered, the offset of the first of them, and for how many more there is room.
#[derive(Drop)]
pub struct Cutter {
    alloc: Global,
    bytes: Vec<u8>,
    start: usize,
    at: u64,
}

impl Model for Cutter {
    ghost use Rattle.std.specs.Prelude.{◌-◌, ◌≤◌, drop, vec_len, vec_capacity};
    ghost use Rattle.wire_frame.specs.Cut.{Cut};

    ghost Value = { Cut };

    ghost view = { λ c. record {
      held = drop c.start c.bytes.items;
      offset = c.at;
      spare = vec_capacity c.bytes - vec_len c.bytes;
    } };

    ghost invariant = { λ c. c.start ≤ vec_len c.bytes };
}

impl Cutter {
    ghost use Rattle.std.specs.Prelude.{◌≡◌, ◌+◌, ◌-◌, ◌≤◌, [], ◌++◌, drop, length, OnOk, OnErr, IfOk, IfSome, IfErr, Ok, Err, None, ℕ};
    ghost use Rattle.wire_frame.specs.Stream.{framed_item, IsItem, IsFront, IsTooLong, IsPartial};
    ghost use Rattle.wire_frame.specs.Cut.{past};

    /// It holds nothing, and takes its memory from `alloc`.
    pub fn new(alloc: Global) -> Cutter
        ensures held { result.held ≡ [] }
        ensures offset { result.offset ≡ 0 }
    {
        Cutter {
            alloc,
            bytes: Vec::new(alloc),
            start: 0,
            at: 0,
        }
    }

    /// Makes room for `n` bytes more. `OutOfMemory` leaves the cutter as it was.
    pub fn reserve(&mut self, n: usize) -> Result<(), OutOfMemory>
        ensures held { self.new.held ≡ self.old.held }
        ensures offset { self.new.offset ≡ self.old.offset }
        ensures spare { OnOk result (n ≤ self.new.spare) }
        ensures kept { self.old.spare ≤ self.new.spare }
        ensures err { OnErr result (self.new ≡ self.old) }
    {
        let spare = self.bytes.capacity() - self.bytes.len();
        if spare >= n {
            return Ok(());
        }
        // The bytes that were answered make room, once they are as many as those that have to move.
        if self.start >= self.bytes.len() - self.start && self.start >= n - spare {
            drop_front(&mut self.bytes, self.start);
            self.start = 0;
            return Ok(());
        }
        self.bytes.reserve(n)?;
        Ok(())
    }

    /// Appends a piece of the stream, for which there is room. No memory is taken.
    pub fn feed(&mut self, piece: &[u8])
        requires { length piece.now ≤ self.old.spare }
        ensures held { self.new.held ≡ self.old.held ++ piece.now }
        ensures offset { self.new.offset ≡ self.old.offset }
        ensures spare { self.old.spare ≤ self.new.spare + length piece.now }
    {
        if self.bytes.extend_from_slice(piece).is_err() {
            unreachable!();
        }
    }

    /// Takes the next item off the front: the bytes that follow their length. None where its length or the item itself
    /// has not wholly come. `Length` exactly where a length above 585 stands in front, with its offset, or with the
    /// greatest u64 where the offset is above that; every later call answers the same. `OutOfMemory` leaves the cutter as
    /// it was.
    pub fn next(&mut self) -> Result<Option<Bytes>, CutError>
        ensures item { IfOk result (λ o. IfSome o (λ item. self.old.held ≡ framed_item item ++ self.new.held)) }
        ensures size { IfOk result (λ o. IfSome o (λ item. IsItem item)) }
        ensures offset { IfOk result (λ o. IfSome o (λ item. self.new.offset ≡ past self.old.offset (length item + 2))) }
        ensures room { self.old.spare ≤ self.new.spare }

        ensures none { result ≡ Ok None → IsPartial self.old.held × (self.new ≡ self.old) }
        ensures partial { IsPartial self.old.held → result ≡ Ok None }

        ensures err { IfErr result (λ _. self.new ≡ self.old) }
        ensures refused { (at : ℕ) → result ≡ Err (CutError.Length at) →
            (at ≡ self.old.offset) × IsTooLong self.old.held }
        ensures too_long { IsTooLong self.old.held → result ≡ Err (CutError.Length self.old.offset) }
    {
        let item = match self.front() {
            Ok(Some(item)) => Bytes::from_slice(self.alloc, item)?,
            Ok(None) => return Ok(None),
            Err(error) => return Err(error),
        };
        self.pass(item.len());
        Ok(Some(item))
    }

    /// The next item, lent; the answers are those of `next`.
    pub(crate) fn front(&self) -> Result<Option<&[u8]>, CutError>
        ensures item { IfOk result (λ o. IfSome o (λ item. IsFront self.now.held item.now)) }
        ensures none { result ≡ Ok None → IsPartial self.now.held }
        ensures too_long { IfErr result (λ e. (e ≡ CutError.Length self.now.offset) × IsTooLong self.now.held) }
    {
        match front_item(&self.bytes[self.start..]) {
            Ok(found) => Ok(found),
            Err(TooLong) => Err(CutError::Length { at: self.at }),
        }
    }

    /// The offset of the first byte that is held.
    pub(crate) fn offset(&self) -> u64
        ensures { result ≡ self.now.offset }
    {
        self.at
    }

    /// Goes past an item of `size` bytes and its length.
    pub(crate) fn pass(&mut self, size: usize)
        requires fits { size ≤ MAX_FRAME_LEN }
        requires there { size + 2 ≤ length self.old.held }
        ensures held { self.new.held ≡ drop (size + 2) self.old.held }
        ensures offset { self.new.offset ≡ past self.old.offset (size + 2) }
        ensures spare { self.new.spare ≡ self.old.spare }
    {
        self.start += size + 2;
        self.at = self.at.saturating_add(size as u64 + 2);
    }
}
