// Why a call of a keeper or an archive fails.
use std::alloc::{AllocError, AllocFailed};
use svc_value::OutOfMemory;

/// Why a call of a keeper or an archive failed.
#[derive(Clone, Copy, Debug, PartialEq, Eq)]
pub enum KeepError {
    /// The keeper failed, and counted the fault.
    Failed,
    /// There was no memory.
    OutOfMemory,
}

impl From<OutOfMemory> for KeepError {
    ghost use Rattle.state_archive.specs.declared.error.KeepError.TheVariants.{OutOfMemory};
    ghost use Rattle.std.specs.Prelude.{◌≡◌};

    ghost from_gives = { λ _ e. e ≡ OutOfMemory };

    fn from(_: OutOfMemory) -> Self {
        KeepError::OutOfMemory
    }
}

impl From<AllocError> for KeepError {
    ghost use Rattle.state_archive.specs.declared.error.KeepError.TheVariants.{OutOfMemory};
    ghost use Rattle.std.specs.Prelude.{◌≡◌};

    ghost from_gives = { λ _ e. e ≡ OutOfMemory };

    fn from(_: AllocError) -> Self {
        KeepError::OutOfMemory
    }
}

impl<T: Drop> From<AllocFailed<T>> for KeepError {
    ghost use Rattle.state_archive.specs.declared.error.KeepError.TheVariants.{OutOfMemory};
    ghost use Rattle.std.specs.Prelude.{◌≡◌};

    ghost from_gives = { λ _ e. e ≡ OutOfMemory };

    fn from(_: AllocFailed<T>) -> Self {
        KeepError::OutOfMemory
    }
}
