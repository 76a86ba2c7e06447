//! The state of the judge of a traced run, as the lists that a program holds: what is kept of each log, and of a whole block.
//! The definitions are in specs/; `laws` has what is proved of them. No function here does anything.
#![tactic(auto)]

pub mod laws;
