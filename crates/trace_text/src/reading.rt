// Trace lines, read.
mod computations;
mod cutting;
mod entries;
mod frames;
mod logs;
mod numbers;
mod picks;
mod stamps;

pub use entries::read_log_line;
pub use logs::{Family, Log, read_trace};
