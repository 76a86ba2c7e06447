//! Keepers and archives: what the fakes and the archive in SQL keep, and what fails.
#![tactic(auto)]

mod bound;
#[cfg(test)]
mod calls;
#[cfg(test)]
mod failing;
#[cfg(test)]
mod openers;
#[cfg(test)]
mod rows;

pub use bound::{saved_and_loaded, saved_and_loaded_below};
