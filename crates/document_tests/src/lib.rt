//! Tables of documents: what their lines say, what is read of them and refused, printed and generated.
#![tactic(auto)]

#[cfg(test)]
mod documents;
#[cfg(test)]
mod generated;
#[cfg(test)]
mod lines;
#[cfg(test)]
mod printed;
