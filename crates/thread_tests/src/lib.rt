//! Workers side by side: what they do by hand and under gates, and legs that they run against the same legs drained.
#![tactic(auto)]

#[cfg(test)]
mod by_hand;
#[cfg(test)]
mod full_rings;
#[cfg(test)]
mod generated;
#[cfg(test)]
mod legs;
#[cfg(test)]
mod logs;
#[cfg(test)]
mod side_by_side;
