// Why a frame is not taken.
use pred_queue::SlotError;
use rewire_core::ReaderError;
use svc_value::{OutOfMemory, ServiceId};
use wire_frame::FrameReason;

/// Why a node refuses bytes, in the order of the tests.
#[derive(Clone, Copy, Debug, PartialEq, Eq)]
pub enum TakeRefusal {
    /// The bytes are not just one frame: the first `place` of them begin one and no more do, for this reason.
    Frame { place: usize, reason: FrameReason },
    /// The frame is a value of version 1.
    Old,
    /// The readers refuse the Subscribe or the Unsubscribe.
    Reader(ReaderError),
    /// The rank of the sender is not known to be below that of the node.
    NotBelow,
    /// The sender is not among the keys that it announces.
    NoSelf,
    /// The rank of the announced `key` is not known to be below that of the sender.
    KeyRank { key: ServiceId },
    /// The value is not of the sender's type.
    WrongType,
    /// The slot of the sender refuses the keys or the value.
    Slot(SlotError),
    /// Out of memory.
    OutOfMemory,
}

impl From<OutOfMemory> for TakeRefusal {
    ghost use Rattle.node_core.specs.declared.errors.TakeRefusal.TheVariants.{OutOfMemory as NoMemory};
    ghost use Rattle.std.specs.Prelude.{◌≡◌};

    ghost from_gives = { λ _ e. e ≡ NoMemory };

    fn from(_: OutOfMemory) -> Self {
        TakeRefusal::OutOfMemory
    }
}
