//! What a service keeps of one sender: the keys that it announced, the clocks that it carried last, the value that is
//! computed with and those that wait, oldest first.
#![tactic(auto)]

mod announced;
mod carrying;
mod clocks_ref;
mod copying;
mod cutting;
mod emission;
mod errors;
mod held;
mod slot;

pub use emission::Emission;
pub use errors::SlotError;
pub use slot::{Put, Slot};
