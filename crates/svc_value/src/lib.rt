//! Values, and what every crate speaks of: the numbers of services, ranks and clocks, lists of them, texts and faults,
//! the traits of the outside with their fakes, and counters that contracts see.
#![tactic(auto)]

mod digits;
mod errors;
mod inside;
mod layout;
pub mod limits;
mod list;
mod literal;
mod memory_sink;
mod memory_source;
mod numbers;
mod printing;
mod std_streams;
mod steps;
mod streams;
mod taken;
mod text;
mod value;

pub use errors::{Failed, OutOfMemory};
pub use layout::{one_value, put_value};
pub use list::{Bytes, Clocks, Ids, ListOf, Name, Names};
pub use literal::{LiteralError, one_literal, one_printed, read_literal, read_value};
pub use memory_sink::MemorySink;
pub use memory_source::MemorySource;
pub use numbers::{Clock, Rank, ServiceId};
pub use printing::print_value;
pub use std_streams::{StdSink, StdSource};
pub use steps::Steps;
pub use streams::{Sink, Source};
pub use taken::{ValueError, ValueReason, take_value};
pub use text::{MAX_TEXT_LEN, TextError, ValueText};
pub use value::{Fault, Value, ValueType};
