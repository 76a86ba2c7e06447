// A worker's leg.
ghost use Rattle.std.specs.Prelude.{◌≡◌, [], OnOk};
ghost use Rattle.settle_core.specs.Workers.{node_of, GoesOn, HasEnded};

use crate::Gate;
use crate::polling::poll_all;
use crate::shift::Shift;
use crate::turning::turn_all;
use settle_core::Worker;
use std::sync::atomic::AtomicU64;
use svc_value::OutOfMemory;

// Does every change that is left.
#[tactic(auto, using(settle_core::proofs::GoingLemmas::goes_on_refl))]
fn do_all(worker: &mut Worker) -> Result<(), OutOfMemory>
    ensures goes_on { GoesOn worker.old worker.new }
    ensures done { OnOk result ((node_of worker.new).state.left ≡ []) }
{
    while worker.do_next()? {}
    Ok(())
}

// Does every change that is left, takes turns until one does nothing, and hands over what fits.
fn finish<G: Gate>(
    worker: &mut Worker,
    gate: &G,
    hint: &AtomicU64,
    shift: &mut Shift,
) -> Result<(), OutOfMemory>
    ensures goes_on { GoesOn worker.old worker.new }
    ensures ended { OnOk result (HasEnded worker.new) }
{
    do_all(worker)?;
    turn_all(worker, gate, shift)?;
    worker.hand_over(hint);
    Ok(())
}

// The polls, and then the end.
fn work_through<G: Gate>(
    worker: &mut Worker,
    gate: &G,
    hint: &AtomicU64,
    shift: &mut Shift,
) -> Result<(), OutOfMemory>
    ensures goes_on { GoesOn worker.old worker.new }
    ensures ended { OnOk result (HasEnded worker.new) }
{
    poll_all(worker, gate, hint, shift)?;
    finish(worker, gate, hint, shift)
}

/// Runs `worker` through its leg. One poll takes at most one frame from each ring, does one change, takes a turn and hands over
/// what fits. The polls end where `hint` is 0, after 10,000 idle polls in a row, or after 4,294,967,295 polls. Then every change
/// that is left is done, turns are taken until one neither takes a value nor computes, and what fits is handed over. `gate` is
/// called before each turn.
///
/// `hint` is shared by all workers of the leg, and begins at the number of them: it is meant as the number of frames that were
/// handed over and not yet taken, and of workers whose node is not at rest. Nothing is claimed of it.
///
/// After `Ok` no change is left, no turn would take a value or compute, and a frame that is not handed over is left only for a
/// service at whose ring end no room is known. `OutOfMemory` only when memory runs out. In both cases the worker is of the same
/// service and in the same leg, and each of its ring ends belongs to the same ring.
pub fn work<G: Gate>(worker: &mut Worker, gate: &G, hint: &AtomicU64) -> Result<(), OutOfMemory>
    ensures goes_on { GoesOn worker.old worker.new }
    ensures ended { OnOk result (HasEnded worker.new) }
{
    let mut shift = Shift::new();
    let result = work_through(worker, gate, hint, &mut shift);
    shift.end(hint);
    result
}
