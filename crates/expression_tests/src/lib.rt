//! Tables of expressions: what they are read as, mean and are printed as.
#![tactic(auto)]

#[cfg(test)]
mod expressions;
