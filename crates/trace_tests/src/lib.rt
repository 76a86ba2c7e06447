//! Tables of traces: what is written with the flags of `step` and by `load`, and what is read of the text of a block.
#![tactic(auto)]

#[cfg(test)]
mod calls;
#[cfg(test)]
mod loads;
#[cfg(test)]
mod reading;
#[cfg(test)]
mod settled;
#[cfg(test)]
mod texts;
#[cfg(test)]
mod traces;
#[cfg(test)]
mod words;
