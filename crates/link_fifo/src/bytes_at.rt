// Pieces of an item behind its length.
ghost use Rattle.std.specs.Prelude.{◌≡◌, ◌+◌, ◌<◌, ◌≤◌, length, take, drop, slice_index};
ghost use Rattle.wire_frame.specs.Stream.{framed_item};

use crate::Piece;
use crate::piece::MAX_PIECE_LEN;
use svc_value::limits::MAX_FRAME_LEN;

/// The byte at `at` of an item behind its length.
pub(crate) fn byte_at(item: &[u8], at: usize) -> u8
    requires fits { length item.now ≤ MAX_FRAME_LEN }
    requires within { at < length item.now + 2 }
    ensures { result ≡ slice_index (framed_item item.now) at }
{
    let len = item.len();
    if at == 0 {
        (len / 256) as u8
    } else if at == 1 {
        (len % 256) as u8
    } else {
        item[at - 2]
    }
}

// The piece that begins at `at` of an item behind its length, byte by byte.
fn piece_from_length(item: &[u8], at: usize) -> Piece
    requires fits { length item.now ≤ MAX_FRAME_LEN }
    requires within { at < length item.now + 2 }
    ensures { result ≡ take MAX_PIECE_LEN (drop at (framed_item item.now)) }
{
    let count = (item.len() + 2 - at).min(MAX_PIECE_LEN);
    let mut bytes = [0; MAX_PIECE_LEN];
    for i in 0..count {
        bytes[i] = byte_at(item, at + i);
    }
    Piece::cut(&bytes[..count])
}

/// The piece that begins at `at` of an item behind its length.
pub(crate) fn piece_at(item: &[u8], at: usize) -> Piece
    requires fits { length item.now ≤ MAX_FRAME_LEN }
    requires within { at < length item.now + 2 }
    ensures { result ≡ take MAX_PIECE_LEN (drop at (framed_item item.now)) }
{
    if at < 2 {
        return piece_from_length(item, at);
    }
    Piece::cut(&item[at - 2..])
}
