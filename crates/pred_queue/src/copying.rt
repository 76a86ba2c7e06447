// Copies of the parts of a slot.
ghost use Rattle.std.specs.Prelude.{◌≡◌, IfOk};

use crate::announced::Announced;
use crate::held::{Held, Waiting};
use std::alloc::Global;
use std::collections::VecDeque;
use svc_value::OutOfMemory;

// Equal keys, if there are some.
pub(crate) fn copied_keys(announced: &Option<Announced>) -> Result<Option<Announced>, OutOfMemory>
    ensures { IfOk result (λ copy. copy ≡ announced.now) }
{
    match announced {
        None => Ok(None),
        Some(announced) => Ok(Some(announced.copy()?)),
    }
}

// An equal head, if there is one.
pub(crate) fn copied_head(head: &Option<Held>) -> Result<Option<Held>, OutOfMemory>
    ensures { IfOk result (λ copy. copy ≡ head.now) }
{
    match head {
        None => Ok(None),
        Some(held) => Ok(Some(held.copy()?)),
    }
}

// An equal queue.
pub(crate) fn copied_queue(
    alloc: Global,
    queue: &VecDeque<Waiting>,
) -> Result<VecDeque<Waiting>, OutOfMemory>
    ensures { IfOk result (λ copy. copy.items ≡ queue.now.items) }
{
    let mut copy = VecDeque::new(alloc);
    for waiting in queue {
        copy.push_back(waiting.copy()?)?;
    }
    Ok(copy)
}
