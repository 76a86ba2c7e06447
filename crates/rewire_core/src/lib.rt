//! The edges of a service to its dependencies and those of its readers to it. Each has an epoch: the clock of the reader at
//! the change that added it.
#![tactic(auto)]

mod edges;
mod errors;
mod pairs;
mod readers;

pub use edges::Edges;
pub use errors::ReaderError;
pub use readers::Readers;
