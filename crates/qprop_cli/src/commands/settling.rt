// The legs of a document, settled one after another, however each is run.
pub(super) mod legs;
pub(super) mod runner;
mod traces;
