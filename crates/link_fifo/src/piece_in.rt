// The end of a ring that gives items.
ghost use Rattle.std.specs.Prelude.{◌≡◌};
ghost use Rattle.link_fifo.specs.Ring.{ring_received};
ghost use Rattle.link_fifo.specs.Cuts.{IsRead, place_of};

use crate::piece::MAX_PIECE_LEN;
use crate::{ItemError, RingIn};
use std::alloc::Global;
use svc_value::{Bytes, OutOfMemory};
use wire_frame::{CutError, Cutter};

/// The end of a ring that receives pieces and gives items. It holds the bytes that were popped and not answered, and tells every
/// item that it gave, oldest first.
#[derive(Drop)]
pub struct PieceIn {
    pub(crate) into: RingIn,
    pub(crate) cutter: Cutter,
    ghost read: { IsRead (ring_received into) cutter.held },
    ghost place: { cutter.offset ≡ place_of (ring_received into) cutter.held },
}

impl PieceIn {
    ghost use Rattle.std.specs.Prelude.{◌≡◌, ◌+◌, ◌<◌, ◌≤◌, ◌++◌, [], ◌∷◌, ℕ, length, flat_map, Ok, Err, Some, None, OnOk, OnErr, IfOk, IfErr, IfSome, IsTrue, IsFalse, true, false};
    ghost use Rattle.wire_frame.specs.Stream.{framed_item, IsItem, IsPartial, IsTooLong};
    ghost use Rattle.wire_frame.specs.Cut.{past};
    ghost use Rattle.link_fifo.specs.Ring.{ring_received, ring_known, SameIn};
    ghost use Rattle.link_fifo.specs.Cuts.{bytes_of_pieces, Grows};
    ghost use Rattle.link_fifo.specs.Ends.{items_received, pieces_received, held_bytes, offset_of, known_pieces, IsReaderOf, SameReader};

    /// An end over `into`, which has received no piece; it has given no item, belongs to the ring of `into`, and takes its
    /// memory from `alloc`.
    pub fn new(alloc: Global, into: RingIn) -> PieceIn
        requires { ring_received into ≡ [] }
        ensures received { items_received result ≡ [] }
        ensures held { held_bytes result ≡ [] }
        ensures ring { IsReaderOf into result }
    {
        PieceIn {
            into,
            cutter: Cutter::new(alloc),
        }
    }

    /// The next item of what is held.
    fn next(&mut self) -> Result<Option<Bytes>, CutError>
        ensures item { IfOk result (λ o. IfSome o (λ item. items_received self.new ≡ items_received self.old ++ item ∷ [])) }
        ensures front { IfOk result (λ o. IfSome o (λ item. held_bytes self.old ≡ framed_item item ++ held_bytes self.new)) }
        ensures none { result ≡ Ok None → IsPartial (held_bytes self.old) × (items_received self.new ≡ items_received self.old) × (held_bytes self.new ≡ held_bytes self.old) }
        ensures err { OnErr result ((items_received self.new ≡ items_received self.old) × (held_bytes self.new ≡ held_bytes self.old)) }
        ensures place { OnErr result (self.new.cutter ≡ self.old.cutter) }
        ensures same { result ≡ Ok None → self.new.cutter ≡ self.old.cutter }
        ensures too_long { IsTooLong (held_bytes self.old) → result ≡ Err (CutError.Length (offset_of self.old)) }
        ensures refused { (at : ℕ) → result ≡ Err (CutError.Length at) → (at ≡ offset_of self.old) × IsTooLong (held_bytes self.old) }
        ensures ring { self.new.into ≡ self.old.into }
    {
        match self.cutter.next() {
            Ok(Some(item)) => Ok(Some(item)),
            Ok(None) => Ok(None),
            Err(error) => Err(error),
        }
    }

    /// Pops a piece, and holds its bytes. False where none is known.
    #[tactic(auto, using(crate::proofs::Grown::grows_not))]
    fn pop(&mut self) -> Result<bool, OutOfMemory>
        ensures received { items_received self.new ≡ items_received self.old }
        ensures more { result ≡ Ok true → length (held_bytes self.old) < length (held_bytes self.new) }
        ensures none { result ≡ Ok false → (known_pieces self.new ≡ []) × (held_bytes self.new ≡ held_bytes self.old) }
        ensures err { OnErr result (held_bytes self.new ≡ held_bytes self.old) }
        ensures place { offset_of self.new ≡ offset_of self.old }
        ensures grown { Grows (pieces_received self.old) (pieces_received self.new) }
        ensures ring { SameReader self.old self.new }
    {
        self.cutter.reserve(MAX_PIECE_LEN)?;
        match self.into.pop() {
            Some(piece) => {
                self.cutter.feed(piece.as_slice());
                Ok(true)
            }
            None => Ok(false),
        }
    }

    /// The next item: pops pieces until one is whole. None only where no piece is known to wait afterwards and no whole item
    /// is held. `Length` exactly where a length above 585 stands in front of what is held, with its offset in all that was
    /// popped. After `OutOfMemory` no popped byte is lost.
    #[tactic(auto, using(crate::proofs::Grown::grows_not, crate::proofs::Grown::grows_twice))]
    pub fn pop_item(&mut self) -> Result<Option<Bytes>, ItemError>
        ensures item { IfOk result (λ o. IfSome o (λ item. items_received self.new ≡ items_received self.old ++ item ∷ [])) }
        ensures none { result ≡ Ok None → (items_received self.new ≡ items_received self.old) × (known_pieces self.new ≡ []) × IsPartial (held_bytes self.new) }
        ensures err { OnErr result (items_received self.new ≡ items_received self.old) }
        ensures refused { (at : ℕ) → result ≡ Err (ItemError.Length at) → (at ≡ offset_of self.new) × IsTooLong (held_bytes self.new) }
        ensures again { IsTooLong (held_bytes self.old) → result ≡ Err (ItemError.Length (offset_of self.old)) }
        ensures bytes { bytes_of_pieces (pieces_received self.new) ≡ flat_map framed_item (items_received self.new) ++ held_bytes self.new }
        ensures grown { Grows (pieces_received self.old) (pieces_received self.new) }
        ensures ring { SameReader self.old self.new }
    {
        loop {
            match self.next() {
                Ok(Some(item)) => return Ok(Some(item)),
                Ok(None) => {}
                Err(CutError::Length { at }) => return Err(ItemError::Length { at }),
                Err(CutError::OutOfMemory) => return Err(ItemError::OutOfMemory),
            }
            if !self.pop()? {
                return Ok(None);
            }
        }
    }
}
