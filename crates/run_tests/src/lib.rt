//! Tables of calls of the program with `run`: documents, what is written, and what `step` writes of the same.
#![tactic(auto)]

#[cfg(test)]
mod blocks;
#[cfg(test)]
mod calls;
#[cfg(test)]
mod limits;
#[cfg(test)]
mod settled;
#[cfg(test)]
mod shop;
#[cfg(test)]
mod traced;
#[cfg(test)]
mod words;
