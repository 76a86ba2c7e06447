//! Documents for trials: large ones, made from three numbers, and accepted.
#![tactic(auto)]

mod draft;
mod generator;
mod lines;
mod members;

pub use generator::{made_is_accepted, make_document};
