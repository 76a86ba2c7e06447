//! The theory of the judge: which line of a traced run is the first that breaks a rule, and what it means that none does.
//! The definitions are in specs/, over lines as values; `laws` has what is proved of them. No function here does anything.
#![tactic(auto)]

pub mod laws;
