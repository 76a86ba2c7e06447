//! Tables of saved states: what their bytes are, and what bytes are those of none.
#![tactic(auto)]

#[cfg(test)]
mod expressions;
#[cfg(test)]
mod states;
