// The refusals of a slot.
use svc_value::{Clock, OutOfMemory};

/// Why a slot refuses keys or a value.
#[derive(Clone, Copy, Debug, PartialEq, Eq)]
pub enum SlotError {
    /// Keys were announced under the greater epoch `had`.
    EpochBack { had: Clock },
    /// No keys are announced under the epoch of the value.
    NoSources,
    /// The clocks name `place`, and only `announced` keys are announced.
    WrongPlace { announced: usize, place: usize },
    /// The first value after `announced` keys names the clocks of `carried` places.
    NotWhole { announced: usize, carried: usize },
    /// Out of memory.
    OutOfMemory,
}

impl From<OutOfMemory> for SlotError {
    ghost use Rattle.pred_queue.specs.declared.errors.SlotError.TheVariants.{OutOfMemory as NoMemory};
    ghost use Rattle.std.specs.Prelude.{◌≡◌};

    ghost from_gives = { λ _ e. e ≡ NoMemory };

    fn from(_: OutOfMemory) -> Self {
        SlotError::OutOfMemory
    }
}
