//! The top call: words, a document or a stream of frames from a source, and the text for a sink.
#![tactic(auto)]

mod answers;
mod call;
mod command_error;
mod commands;
mod io;
pub mod laws;
mod outcome;
mod plain;
mod plan;
mod threaded;

pub use command_words::{Command, Size, TraceFlags, USAGE};
pub use commands::streams_are_told;
pub use outcome::{Outcome, Status};
pub use plain::qprop_plain;
pub use svc_value::limits::MAX_DOCUMENT_LEN;
pub use threaded::qprop;
