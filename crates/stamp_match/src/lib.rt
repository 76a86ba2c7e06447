//! The matcher: what a service does next of itself, by the turn table. `choose` finds it in two passes over the stamps of the
//! heads; a `Matcher` keeps up to date what those passes find.
#![tactic(auto)]

mod choices;
mod following;
mod held;
mod matcher;
mod slots;
mod table;
mod walk;

pub use choices::Choice;
pub use matcher::Matcher;
pub use table::choose;
