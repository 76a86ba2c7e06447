//! Printed texts: the settled text of a document, which gives the value of every service after each leg, and its trace lines,
//! which give the log of each service, what each step line did, and the sources of each service. Logs are read again.
#![tactic(auto)]

mod laws;
mod note;
mod printing;
mod reading;
mod settled;
mod trace_error;

pub use laws::{
    books_are_named, one_family, one_trace_line, settled_text_is_untraced, traces_are_left_out,
    untraced_texts_settle,
};
pub use note::StepNote;
pub use printing::{sources_text, step_text, trace_text};
pub use reading::{Family, Log, read_log_line, read_trace};
pub use settled::settled_text;
pub use trace_error::TraceError;
