//! Tables of the parts of a service: stamps, rewirings, slots and turns.
#![tactic(auto)]

#[cfg(test)]
mod rewirings;
#[cfg(test)]
mod sequences;
#[cfg(test)]
mod slots;
#[cfg(test)]
mod stamps;
#[cfg(test)]
mod turns;
