//! Definitions of services, their histories and the book that keeps them.
//! A book is seen as one row for each service in the order of declaration, and a change of a service as one definition more
//! in its row; every change that breaks a rule of the book is refused.
#![tactic(auto)]

mod book;
mod checks;
mod definition;
mod errors;
mod history;
mod kind;
mod lent;

pub use book::{Book, MAX_SERVICES};
pub use definition::{Change, Definition, Formula};
pub use errors::{ChangeError, DeclareError};
pub use history::History;
pub use kind::{Kind, Roster};
pub use lent::{DefinitionRef, FormulaRef};
