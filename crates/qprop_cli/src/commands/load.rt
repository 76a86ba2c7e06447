// The command `load`.
ghost use Rattle.std.specs.Prelude.{◌≡◌, ◌≤◌, ℕ, List, [], length, Option, IfOk};
ghost use Rattle.command_words.specs.Words.{IsSize};
ghost use Rattle.document_generator.specs.Generator.{generated};
ghost use Rattle.document_reading.specs.Document.{HasLegs};
ghost use Rattle.svc_plan.specs.Rows.{AreLegsAfter};
ghost use Rattle.svc_plan.specs.declared.plan.Mode.TheVariants.{Plain};
ghost use Rattle.qprop_cli.specs.Ending.{Ends};
ghost use Rattle.qprop_cli.specs.Inside.Running.{HasRunAll, SumsUp};

mod summary;

use crate::command_error::CommandError;
use crate::commands::step::leg::run_leg;
use crate::io::writing::write_all;
use crate::{Command, Size};
use document_generator::{made_is_accepted, make_document};
use document_reading::{DocError, read_document};
use settle_core::Network;
use std::alloc::Global;
use summary::load_text;
use svc_plan::{Leg, Mode, Plan};
use svc_value::limits::MAX_LEGS;
use svc_value::{OutOfMemory, Sink};

/// Makes a document of this size, runs it as `step` does, and writes the line that sums up its end. It reads nothing, so its end is
/// told beside any source. The answer is the network after the run.
pub(crate) fn load<K: Sink>(
    alloc: Global,
    size: Size,
    sink: &mut K,
) -> Result<Option<Network>, CommandError>
    requires { IsSize size }
    ensures ends { (left : Option (List ℕ)) (faults : ℕ) →
        Ends (Command.Load size) left left faults faults (K.held sink.old) (K.held sink.new)
        (K.faults sink.old) (K.faults sink.new) result }
{
    let (network, text) = run_made(alloc, size)?;
    match write_all(sink, &text) {
        Ok(()) => Ok(Some(network)),
        Err(_) => Err(CommandError::WriteFault),
    }
}

// The network after the run of the document of this size, and the line that sums up the run, in memory of `alloc`.
fn run_made(alloc: Global, size: Size) -> Result<(Network, Vec<u8>), OutOfMemory>
    requires { IsSize size }
    ensures { IfOk result (λ made. SumsUp size made.0 made.1.items) }
{
    let plan = made_plan(alloc, size)?;
    let network = run_legs(alloc, plan.legs.as_slice())?;
    network.kept();
    let values = network.values()?;
    let text = load_text(alloc, plan.legs.as_slice(), &values)?;
    Ok((network, text))
}

// The plan of the document of this size, which is accepted.
fn made_plan(alloc: Global, size: Size) -> Result<Plan, OutOfMemory>
    requires { IsSize size }
    ensures plan { IfOk result (λ plan. HasLegs Plain (generated size.services size.changes size.start) plan.legs) }
    ensures legs { IfOk result (λ plan. AreLegsAfter [] plan.legs) }
    ensures few { IfOk result (λ plan. length plan.legs ≤ MAX_LEGS) }
{
    let text = make_document(alloc, size.services, size.changes, size.start)?;
    made_is_accepted();
    match read_document(alloc, &text, Mode::Plain) {
        Ok(plan) => Ok(plan),
        Err(DocError::OutOfMemory) => Err(OutOfMemory),
        Err(DocError::Refused(_)) => unreachable!(),
    }
}

// The network after these legs, run one after another.
fn run_legs(alloc: Global, legs: &[Leg]) -> Result<Network, OutOfMemory>
    requires { AreLegsAfter [] legs.now }
    ensures { IfOk result (λ network. HasRunAll legs.now network) }
{
    let mut network = Network::new(alloc);
    let mut unwritten = Vec::new(alloc);
    for leg in legs {
        run_leg(&mut network, leg, false, &mut unwritten)?;
    }
    Ok(network)
}
