// The refusals of a list of readers.
use std::alloc::AllocError;
use svc_value::{Clock, OutOfMemory};

/// Why a Subscribe or an Unsubscribe is refused.
#[derive(Clone, Copy, Debug, PartialEq, Eq)]
pub enum ReaderError {
    /// The rank of the reader is not known to be above that of the service.
    RankNotHigher,
    /// The reader reads already.
    Twice,
    /// The reader had the epoch `had` before, which is not below the new one.
    EpochBack { had: Clock },
    /// The reader does not read under this epoch.
    Unknown,
    /// Out of memory.
    OutOfMemory,
}

impl From<OutOfMemory> for ReaderError {
    ghost use Rattle.rewire_core.specs.declared.errors.ReaderError.TheVariants.{OutOfMemory as NoMemory};
    ghost use Rattle.std.specs.Prelude.{◌≡◌};

    ghost from_gives = { λ _ e. e ≡ NoMemory };

    fn from(_: OutOfMemory) -> Self {
        ReaderError::OutOfMemory
    }
}

impl From<AllocError> for ReaderError {
    ghost use Rattle.rewire_core.specs.declared.errors.ReaderError.TheVariants.{OutOfMemory as NoMemory};
    ghost use Rattle.std.specs.Prelude.{◌≡◌};

    ghost from_gives = { λ _ e. e ≡ NoMemory };

    fn from(_: AllocError) -> Self {
        ReaderError::OutOfMemory
    }
}
