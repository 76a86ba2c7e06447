// A piece of a stream.

use crate::zeros::with_zeros;
use std::marker::Model;

/// The most bytes of a piece.
pub const MAX_PIECE_LEN: usize = 64;

/// From 1 to 64 bytes, seen as the bytes.
#[derive(Clone, Copy)]
pub struct Piece {
    len: usize,
    bytes: [u8; MAX_PIECE_LEN],
}

impl Model for Piece {
    ghost use Rattle.std.specs.Prelude.{ℕ, List, take, length};

    ghost Value = { List ℕ };

    ghost use Rattle.link_fifo.specs.Padded.{IsPadded, padded, padded_back};

    ghost view = { λ piece. take piece.len piece.bytes };

    ghost invariant = { λ piece. IsPadded piece.len piece.bytes };

    ghost inverse = { λ bytes. record { len = length bytes; bytes = padded bytes } };

    ghost inverse_ok = { λ inside h. padded_back inside h };
}

impl Piece {
    ghost use Rattle.std.specs.Prelude.{◌≡◌, ◌<◌, ◌≤◌, length, take};

    /// The first 64 of `bytes`, or all where there are fewer; at least one is there.
    pub fn cut(bytes: &[u8]) -> Piece
        requires { 0 < length bytes.now }
        ensures { result ≡ take MAX_PIECE_LEN bytes.now }
    {
        let len = bytes.len().min(MAX_PIECE_LEN);
        Piece {
            len,
            bytes: with_zeros(&bytes[..len]),
        }
    }

    /// The bytes, from 1 to 64.
    pub fn as_slice(&self) -> &[u8]
        ensures bytes { result.now ≡ self.now }
        ensures some { 0 < length self.now }
        ensures most { length self.now ≤ MAX_PIECE_LEN }
    {
        &self.bytes[..self.len]
    }
}
