//! Tables of changes, and of central values of small books.
#![tactic(auto)]

#[cfg(test)]
mod central;
#[cfg(test)]
mod central_at;
#[cfg(test)]
mod changes;
