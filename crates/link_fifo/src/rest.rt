// The items that are left between two ends.
ghost use Rattle.std.specs.Prelude.{◌≡◌, ◌++◌, IfOk, OnOk};
ghost use Rattle.wire_frame.specs.Stream.{items_of};
ghost use Rattle.link_fifo.specs.Cuts.{IsWhole};
ghost use Rattle.link_fifo.specs.Kept.{left_of, bytes_kept};
ghost use Rattle.link_fifo.specs.Ends.{items_sent, items_received, OneStream};

use crate::bytes_at::piece_at;
use crate::kept::Kept;
use crate::piece::MAX_PIECE_LEN;
use crate::{PieceIn, PieceOut};
use std::alloc::Global;
use svc_value::{Bytes, ListOf, OutOfMemory};
use wire_frame::{CutError, Cutter};

/// A list of items that were sent and not received, oldest first.
pub type Rest = ListOf<Bytes>;

/// Feeds what is kept of an item.
fn feed_kept(cutter: &mut Cutter, kept: &Kept) -> Result<(), OutOfMemory>
    ensures { OnOk result (cutter.new.held ≡ cutter.old.held ++ left_of kept.now) }
{
    let item = kept.item.as_slice();
    let len = item.len() + 2;
    let mut at = kept.at;
    while at < len {
        cutter.reserve(MAX_PIECE_LEN)?;
        let piece = piece_at(item, at);
        cutter.feed(piece.as_slice());
        at += MAX_PIECE_LEN;
    }
    Ok(())
}

/// Feeds what is kept.
fn feed_rest(cutter: &mut Cutter, kept: &Option<Kept>) -> Result<(), OutOfMemory>
    ensures { OnOk result (cutter.new.held ≡ cutter.old.held ++ bytes_kept kept.now) }
{
    match kept {
        Some(kept) => feed_kept(cutter, kept),
        None => Ok(()),
    }
}

/// All items of whole ones.
fn drain(alloc: Global, cutter: Cutter) -> Result<Rest, OutOfMemory>
    requires { IsWhole cutter.held }
    ensures { IfOk result (λ rest. rest ≡ items_of cutter.held) }
{
    let mut cutter = cutter;
    let mut items = Rest::new(alloc);
    loop {
        match cutter.next() {
            Ok(Some(item)) => items.push(item)?,
            Ok(None) => return Ok(items),
            Err(CutError::Length { at: _ }) => unreachable!(),
            Err(CutError::OutOfMemory) => return Err(OutOfMemory),
        }
    }
}

/// Brings the ends together again. The items received followed by the rest are the items sent.
pub fn rejoin_pieces(alloc: Global, out: PieceOut, into: PieceIn) -> Result<Rest, OutOfMemory>
    requires { OneStream out into }
    ensures { IfOk result (λ rest. items_received into ++ rest ≡ items_sent out) }
{
    let PieceOut { out, kept } = out;
    let PieceIn { into, mut cutter } = into;
    out.pour_into(into, &mut cutter)?;
    feed_rest(&mut cutter, &kept)?;
    drain(alloc, cutter)
}
