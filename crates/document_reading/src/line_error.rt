// Why the reading of a document ends at a line.
use crate::refusal::Code;
use std::alloc::AllocError;
use svc_graph::ChangeError;
use svc_value::OutOfMemory;

/// Why the reading of a document ends at a line.
#[derive(Clone, Copy, Debug, PartialEq, Eq)]
pub enum LineError {
    /// The line is refused, with this code.
    Refused(Code),
    /// Out of memory.
    OutOfMemory,
}

impl From<OutOfMemory> for LineError {
    ghost use Rattle.document_reading.specs.declared.line_error.LineError.TheVariants.{OutOfMemory};
    ghost use Rattle.std.specs.Prelude.{◌≡◌};

    ghost from_gives = { λ _ e. e ≡ OutOfMemory };

    fn from(_: OutOfMemory) -> Self {
        LineError::OutOfMemory
    }
}

impl From<AllocError> for LineError {
    ghost use Rattle.document_reading.specs.declared.line_error.LineError.TheVariants.{OutOfMemory};
    ghost use Rattle.std.specs.Prelude.{◌≡◌};

    ghost from_gives = { λ _ e. e ≡ OutOfMemory };

    fn from(_: AllocError) -> Self {
        LineError::OutOfMemory
    }
}

impl From<ChangeError> for LineError {
    ghost use Rattle.document_reading.specs.Stops.{stop_of};
    ghost use Rattle.std.specs.Prelude.{◌≡◌};

    ghost from_gives = { λ error stop. stop ≡ stop_of error };

    fn from(error: ChangeError) -> Self {
        match error {
            ChangeError::Unknown => LineError::Refused(Code::E08),
            ChangeError::RankNotLower => LineError::Refused(Code::E09),
            ChangeError::WrongType => LineError::Refused(Code::E10),
            ChangeError::TooMany => LineError::Refused(Code::E11),
            ChangeError::NotInput => LineError::Refused(Code::E13),
            ChangeError::NotDerived => LineError::Refused(Code::E14),
            ChangeError::Already => LineError::Refused(Code::E15),
            ChangeError::NotMember => LineError::Refused(Code::E16),
            ChangeError::OutOfMemory => LineError::OutOfMemory,
        }
    }
}
