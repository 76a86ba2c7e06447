// What readers and slots refuse, as refusals of a frame.
ghost use Rattle.pred_queue.specs.Refusals.{refusal_of as slot_refusal};
ghost use Rattle.rewire_core.specs.Refusals.{refusal_of as reader_refusal};
ghost use Rattle.node_core.specs.Taking.{TellsOf};

use crate::TakeRefusal;
use pred_queue::SlotError;
use rewire_core::ReaderError;

// As the readers refuse.
pub(crate) fn of_readers(error: ReaderError) -> TakeRefusal
    ensures { TellsOf (reader_refusal error) result }
{
    match error {
        ReaderError::OutOfMemory => TakeRefusal::OutOfMemory,
        error => TakeRefusal::Reader(error),
    }
}

// As a slot refuses.
pub(crate) fn of_slot(error: SlotError) -> TakeRefusal
    ensures { TellsOf (slot_refusal error) result }
{
    match error {
        SlotError::OutOfMemory => TakeRefusal::OutOfMemory,
        error => TakeRefusal::Slot(error),
    }
}
