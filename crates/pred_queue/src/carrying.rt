// The stamps of a value that comes to wait.
ghost use Rattle.std.specs.Prelude.{◌≡◌, ◌<◌, None, Some, OnOk, OnErr, IfOk};
ghost use Rattle.std.specs.VecDeque.{deque_len, deque_capacity};
ghost use Rattle.propagation.specs.Stamps.{RisePairs};
ghost use Rattle.service_machine.specs.Refusing.{refuse_put};
ghost use Rattle.wire_frame.specs.Frames.{pairs};
ghost use Rattle.pred_queue.specs.Told.{told_more};

use crate::announced::Announced;
use crate::clocks_ref::ClocksRef;
use crate::held::Waiting;
use stamp_clock::Stamps;
use std::alloc::Global;
use std::collections::VecDeque;
use std::mem;
use svc_value::{Clock, OutOfMemory};

// The stamps of a value, which are carried from now on, with room for it in the queue. They are made in the memory of
// `spare`. All that can want memory comes first.
pub(crate) fn next_stamps<L: ClocksRef>(
    alloc: Global,
    spare: &mut Vec<Clock>,
    announced: &mut Announced,
    queue: &mut VecDeque<Waiting>,
    clocks: &L,
) -> Result<Stamps, OutOfMemory>
    requires accepted { refuse_put (Some (announced.old.epoch, announced.old.keys)) announced.old.carried announced.old.epoch (pairs (L.named clocks.now)) ≡ None }
    requires rise { RisePairs 0 (pairs (L.named clocks.now)) }
    ensures stamps { IfOk result (λ stamps. stamps ≡ told_more (pairs (L.named clocks.now)) announced.old) }
    ensures ok { OnOk result (announced.new ≡ record announced.old { carried = Some (told_more (pairs (L.named clocks.now)) announced.old) }) }
    ensures err { OnErr result (announced.new ≡ announced.old) }
    ensures same { queue.new.items ≡ queue.old.items }
    ensures room { OnOk result (deque_len queue.new < deque_capacity queue.new) }
{
    spare.clear();
    spare.reserve(announced.len())?;
    queue.reserve(1)?;
    announced.carry(alloc, clocks)?;
    let memory = mem::replace(spare, Vec::new(alloc));
    Ok(announced.carried_in(memory))
}
