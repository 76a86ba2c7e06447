// The polls of a worker.
ghost use Rattle.settle_core.specs.Workers.{GoesOn};

use crate::Gate;
use crate::shift::Shift;
use crate::turning::take_turn;
use settle_core::Worker;
use std::sync::atomic::{AtomicU64, Ordering};
use std::thread;
use svc_value::OutOfMemory;
use svc_value::limits::MAX_SERVICES;

// So many idle polls in a row end the polls.
const MAX_IDLE_POLLS: u32 = 10_000;

// Takes at most one frame from each ring, peer after peer; true where one was taken.
#[tactic(auto, using(settle_core::proofs::GoingLemmas::goes_on_refl))]
fn take_each(worker: &mut Worker, shift: &mut Shift) -> Result<bool, OutOfMemory>
    ensures { GoesOn worker.old worker.new }
{
    let mut is_taken = false;
    for place in 0..MAX_SERVICES {
        let Some(peer) = worker.peer(place) else {
            return Ok(is_taken);
        };
        if worker.take_from(peer)? {
            shift.note_taken();
            is_taken = true;
        }
    }
    Ok(is_taken)
}

// One poll: takes at most one frame from each ring, does one change, takes a turn, and hands over what fits. True where it did
// none of it: it was idle.
fn poll<G: Gate>(
    worker: &mut Worker,
    gate: &G,
    hint: &AtomicU64,
    shift: &mut Shift,
) -> Result<bool, OutOfMemory>
    ensures { GoesOn worker.old worker.new }
{
    let is_taken = take_each(worker, shift)?;
    let is_done = worker.do_next()?;
    let is_busy = take_turn(worker, gate, shift)?;
    let is_handed_over = worker.hand_over(hint);
    shift.update(worker.node().at_rest(), hint);
    Ok(!(is_taken | is_done | is_busy | is_handed_over))
}

/// Polls until the hint is 0, or 10,000 polls in a row were idle, or 4,294,967,295 polls are made. An idle poll lets other threads
/// go first.
#[tactic(auto, using(settle_core::proofs::GoingLemmas::goes_on_refl))]
pub(crate) fn poll_all<G: Gate>(
    worker: &mut Worker,
    gate: &G,
    hint: &AtomicU64,
    shift: &mut Shift,
) -> Result<(), OutOfMemory>
    ensures { GoesOn worker.old worker.new }
{
    let mut idle_polls = 0u32;
    for _ in 0..u32::MAX {
        if hint.load(Ordering::SeqCst) == 0 || idle_polls >= MAX_IDLE_POLLS {
            break;
        }
        if poll(worker, gate, hint, shift)? {
            idle_polls = idle_polls.saturating_add(1);
            thread::yield_now();
        } else {
            idle_polls = 0;
        }
    }
    Ok(())
}
