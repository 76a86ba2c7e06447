//! Saved states: what a network has to go on from after a leg, as values and as bytes, and what is saved of a book.
//! The bytes are those of one state at most, and are read exactly where they are those of one.
#![tactic(auto)]

mod errors;
mod expressions;
mod front;
mod judging;
pub mod laws;
mod named;
mod numbering;
mod reading;
mod rows;
mod saved;
mod saving;
mod writing;

pub use errors::StateError;
pub use reading::read_state;
pub use saved::{Saved, ServiceRow, ServiceRows};
pub use saving::saved_of;
pub use writing::write_state;
