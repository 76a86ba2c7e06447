// The refusals of an end that gives items.
use svc_value::OutOfMemory;
use wire_frame::CutError;

/// Why an end gives no item.
#[derive(Clone, Copy, Debug, PartialEq, Eq)]
pub enum ItemError {
    /// The length at the offset `at` of the bytes popped is above 585.
    Length { at: u64 },
    /// Out of memory.
    OutOfMemory,
}

impl From<OutOfMemory> for ItemError {
    ghost use Rattle.link_fifo.specs.declared.errors.ItemError.TheVariants.{OutOfMemory as NoMemory};
    ghost use Rattle.std.specs.Prelude.{◌≡◌};

    ghost from_gives = { λ _ e. e ≡ NoMemory };

    fn from(_: OutOfMemory) -> Self {
        ItemError::OutOfMemory
    }
}
