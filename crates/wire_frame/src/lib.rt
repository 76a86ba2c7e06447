//! Frames: the messages between services, their bytes both ways, and streams of them, each after its length, that come
//! in any pieces.
#![tactic(auto)]

mod bodies;
mod cutter;
mod errors;
mod frame;
mod frame_laws;
mod frame_ref;
mod framer;
mod front;
mod keys_ref;
mod lists;
mod numbers;
mod place_clock;
mod places_ref;
mod put;
mod read;
mod reason;
mod shift;
mod stream_laws;
mod write;

pub use cutter::Cutter;
pub use errors::{CutError, FrameError, StreamError};
pub use frame::{Announced, Cargo, Delta, Frame};
pub use frame_laws::{
    frames_are_short, frames_are_told, fronts_are_told, messages_are_told, wrong_frames_stay,
};
pub use frame_ref::{AnnouncedRef, DeltaRef, FrameRef};
pub use framer::Framer;
pub use keys_ref::KeysRef;
pub use place_clock::{PlaceClock, PlaceClocks};
pub use places_ref::PlacesRef;
pub use read::{read_frame, read_frame_ref};
pub use reason::FrameReason;
pub use stream_laws::{splits_always, splits_once, stream_comes_in_pieces};
pub use write::{write_frame, write_sources, write_value};
