// Why a command was not done.
use document_reading::Refusal;
use svc_value::{Failed, OutOfMemory};

/// Why a command was not done. Only `WriteFault` and `OutOfMemory` come after something was written.
#[derive(Clone, Copy, Debug, PartialEq, Eq)]
pub(crate) enum CommandError {
    /// What was read is not accepted; the refusal line is still to be written.
    Refused(Refusal),
    /// The source failed.
    ReadFault,
    /// The sink failed.
    WriteFault,
    /// Out of memory.
    OutOfMemory,
}

impl From<OutOfMemory> for CommandError {
    ghost use Rattle.qprop_cli.specs.declared.command_error.CommandError.TheVariants.{OutOfMemory as NoMemory};
    ghost use Rattle.std.specs.Prelude.{◌≡◌};

    ghost from_gives = { λ _ e. e ≡ NoMemory };

    fn from(_: OutOfMemory) -> Self {
        CommandError::OutOfMemory
    }
}

// A sink's fault. A source's fault is told where the source is read.
impl From<Failed> for CommandError {
    ghost use Rattle.qprop_cli.specs.declared.command_error.CommandError.TheVariants.{WriteFault};
    ghost use Rattle.std.specs.Prelude.{◌≡◌};

    ghost from_gives = { λ _ e. e ≡ WriteFault };

    fn from(_: Failed) -> Self {
        CommandError::WriteFault
    }
}
