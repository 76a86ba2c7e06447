//! The services of a leg at work side by side. Each is a job with a node of its own, and with the ends of the rings to and from the
//! services to which it speaks; no lock stands anywhere. `work` runs one worker, and `run_leg` all of them.
#![tactic(auto)]

mod gate;
mod leg;
mod polling;
mod shift;
mod turning;
mod working;

pub use gate::{Gate, NoGate};
pub use leg::run_leg;
pub use working::work;
