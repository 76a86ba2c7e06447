//! Rows of events by hand: what nodes do, log and send, over the public calls of `node_core`.
#![tactic(auto)]

#[cfg(test)]
mod tests;
