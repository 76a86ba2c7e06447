//! Links between services: lists in memory, and rings between two threads that carry items in pieces.
//! What is pushed at one end comes out at the other, once, in order.
#![tactic(auto)]

mod bytes_at;
mod errors;
mod kept;
mod link;
mod memory_link;
mod piece;
mod piece_in;
mod piece_out;
mod push_from;
mod rest;
mod ring;
#[cfg(test)]
mod tests;
#[cfg(test)]
mod threads;
mod zeros;

pub use errors::ItemError;
pub use link::{LinkIn, LinkOut};
pub use memory_link::MemoryLink;
pub use piece::{MAX_PIECE_LEN, Piece};
pub use piece_in::PieceIn;
pub use piece_out::PieceOut;
pub use rest::{Rest, rejoin_pieces};
pub use ring::{RING_PIECES, RingIn, RingLink, RingOut};
