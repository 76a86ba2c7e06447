// Why bytes are not read as a state.
use svc_value::OutOfMemory;

/// Why no state was read.
#[derive(Clone, Copy, Debug, PartialEq, Eq)]
pub enum StateError {
    /// The bytes are those of no state.
    Bad,
    /// Out of memory.
    OutOfMemory,
}

impl From<OutOfMemory> for StateError {
    ghost use Rattle.saved_state.specs.declared.errors.StateError.TheVariants.{OutOfMemory};
    ghost use Rattle.std.specs.Prelude.{◌≡◌};

    ghost from_gives = { λ _ e. e ≡ OutOfMemory };

    fn from(_: OutOfMemory) -> Self {
        StateError::OutOfMemory
    }
}
