//! Tables of calls of the program: words, documents and streams of frames, and what is written.
#![tactic(auto)]

#[cfg(test)]
mod calls;
#[cfg(test)]
mod check;
#[cfg(test)]
mod documents;
#[cfg(test)]
mod faults;
#[cfg(test)]
mod frames;
#[cfg(test)]
mod make;
#[cfg(test)]
mod shop;
#[cfg(test)]
mod steps;
#[cfg(test)]
mod words;
