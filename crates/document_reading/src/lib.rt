//! Documents are read: what each line says, and the plan of all lines.
//! A document is accepted where no line is refused, each judged against the lines before it.
#![tactic(auto)]

mod body;
mod document;
mod front;
mod grammar;
mod head;
mod line;
mod line_error;
mod literal;
mod parser;
mod present;
mod refusal;
mod statement;

pub use document::{MAX_DOCUMENT_LEN, one_plan, one_refusal, read_document, read_document_after};
pub use line::{MAX_LINE_LEN, first_line, read_line};
pub use line_error::LineError;
pub use parser::{MAX_CHANGES, MAX_LEGS};
pub use refusal::{Code, DocError, Refusal};
pub use statement::{Body, NameRefs, NamedFormula, Statement};
