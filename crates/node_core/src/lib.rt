//! One service as it runs: a node that does the changes of a leg, takes frames from other services and turns, and keeps a log
//! of all that it did. Each call is one step of the machine of `service_machine`.
#![tactic(auto)]

mod admission;
mod computing;
mod definitions;
mod encoding;
mod entry;
mod errors;
mod journal;
mod node;
mod outbox;
mod outgoing;
mod ranks;
mod reading;
mod received;
mod receiving;
mod refusing;
mod reports;
mod rewiring;
mod scratch;
mod slots;
mod telling;
mod turned;
mod welcome;

pub use entry::{Computation, Entry, Picks};
pub use errors::TakeRefusal;
pub use node::Node;
pub use turned::Turned;
