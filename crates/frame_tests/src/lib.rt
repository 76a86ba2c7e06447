//! Tables of frames: their bytes, and streams of them.
#![tactic(auto)]

#[cfg(test)]
mod bytes;
#[cfg(test)]
mod cutter;
#[cfg(test)]
mod lent;
#[cfg(test)]
mod streams;
