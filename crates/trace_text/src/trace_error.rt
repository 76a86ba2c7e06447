// Why the text of a block is not read.
use svc_value::OutOfMemory;

/// Why the text of a block is not read.
#[derive(Clone, Copy, Debug, PartialEq, Eq)]
pub enum TraceError {
    /// The number, from 1, of the first line that is no trace line, or that is the line of a service after that of a later one.
    Bad { line: u32 },
    /// Out of memory.
    OutOfMemory,
}

impl From<OutOfMemory> for TraceError {
    ghost use Rattle.trace_text.specs.declared.trace_error.TraceError.TheVariants.{OutOfMemory};
    ghost use Rattle.std.specs.Prelude.{◌≡◌};

    ghost from_gives = { λ _ e. e ≡ OutOfMemory };

    fn from(_: OutOfMemory) -> Self {
        TraceError::OutOfMemory
    }
}
