// Turns of a worker, with the gate before each of them.
ghost use Rattle.std.specs.Prelude.{◌≡◌, ◌<◌, IfOk, OnOk, IsTrue, IsFalse, true, false};
ghost use Rattle.service_machine.specs.Draining.{is_work, turns_left};
ghost use Rattle.service_machine.specs.Steps.{choice_of};
ghost use Rattle.settle_core.specs.Workers.{node_of, GoesOn};
ghost use Rattle.node_threads.specs.Turns.{is_busy};

use crate::Gate;
use crate::shift::Shift;
use node_core::Turned;
use settle_core::Worker;
use svc_value::OutOfMemory;

// Whether a turn that answers so took a value or computed.
fn is_busy(answer: Turned) -> bool
    ensures { result ≡ is_busy answer }
{
    matches!(answer, Turned::Computed | Turned::Advanced)
}

/// Calls the gate and takes a turn; true where it took a value or computed.
#[tactic(auto, using(crate::proofs::TurnLemmas::busy_is_work))]
pub(crate) fn take_turn<G: Gate>(
    worker: &mut Worker,
    gate: &G,
    shift: &mut Shift,
) -> Result<bool, OutOfMemory>
    ensures goes_on { GoesOn worker.old worker.new }
    ensures left { (node_of worker.new).state.left ≡ (node_of worker.old).state.left }
    ensures fewer { IfOk result (λ is_busy. IsTrue is_busy → turns_left (node_of worker.new).state < turns_left (node_of worker.old).state) }
    ensures calm { IfOk result (λ is_busy. IsFalse is_busy → is_work (choice_of (node_of worker.new).state) ≡ false) }
{
    gate.at_turn(worker.id().0, shift.next_turn(), worker.node());
    let answer = worker.turn()?;
    Ok(is_busy(answer))
}

/// Takes turns until one neither takes a value nor computes.
#[tactic(auto, using(settle_core::proofs::GoingLemmas::goes_on_refl))]
pub(crate) fn turn_all<G: Gate>(
    worker: &mut Worker,
    gate: &G,
    shift: &mut Shift,
) -> Result<(), OutOfMemory>
    ensures goes_on { GoesOn worker.old worker.new }
    ensures left { (node_of worker.new).state.left ≡ (node_of worker.old).state.left }
    ensures calm { OnOk result (is_work (choice_of (node_of worker.new).state) ≡ false) }
{
    while take_turn(worker, gate, shift)? {}
    Ok(())
}
