//! Tables of values and tokens: what is read, printed and refused.
#![tactic(auto)]

#[cfg(test)]
mod tokens;
#[cfg(test)]
mod values;
