//! Documents are printed: the canonical document of a plan, which is read again as the same plan but for the numbers of its
//! step lines.
#![tactic(auto)]

mod printing;
mod services;

pub use printing::{print_document, printed_is_read_again};
