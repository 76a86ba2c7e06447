//! Stamps: the clocks that a value of a service rests on, and the floor below which no emission may fall.
#![tactic(auto)]

mod floor;
mod keys;
mod pairs;
mod stamps;

pub use floor::Floor;
pub use keys::KeySet;
pub use pairs::Pairs;
pub use stamps::Stamps;
