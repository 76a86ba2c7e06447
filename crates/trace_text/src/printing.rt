// Trace lines, printed.
mod computations;
mod logs;
mod notes;
mod parts;
mod sources;

pub use logs::trace_text;
pub use notes::step_text;
pub use sources::sources_text;
