//! The words of a call, and the command that they stand for.
#![tactic(auto)]

mod accepting;
mod asked;
mod command;
mod keep_flags;
mod keeping;
mod kept_command;
mod kept_matching;
mod kept_taking;
pub mod laws;
mod matching;
mod numbers;
mod resume;
mod size;
mod taking;
mod trace_flags;

pub use command::{Command, USAGE};
pub use keep_flags::KeepFlags;
pub use kept_command::KeptCommand;
pub use resume::Resume;
pub use size::Size;
pub use trace_flags::TraceFlags;

#[cfg(test)]
mod tests;
