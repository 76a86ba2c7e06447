// The command `step`.
ghost use Rattle.qprop_cli.specs.Ending.{Ends};

mod events;
pub(crate) mod leg;

use crate::command_error::CommandError;
use crate::commands::settling::legs::settle_legs;
use crate::io::writing::WriteError;
use crate::plan::read_plan;
use crate::{Command, TraceFlags};
use leg::OneThread;
use settle_core::Network;
use std::alloc::Global;
use svc_plan::Mode;
use svc_value::{Sink, Source};

/// Reads a document, settles it leg by leg and writes its settled text, with the trace lines that are asked for. The answer is the
/// network after the last leg.
#[tactic(auto, using(crate::proofs::DueLemmas::step_blocks_due, crate::proofs::DueLemmas::settled_output))]
pub(crate) fn step<S: Source, K: Sink>(
    alloc: Global,
    flags: TraceFlags,
    source: &mut S,
    sink: &mut K,
) -> Result<Option<Network>, CommandError>
    ensures ends { Ends (Command.Step flags) (S.left source.old) (S.left source.new)
        (S.faults source.old) (S.faults source.new) (K.held sink.old) (K.held sink.new)
        (K.faults sink.old) (K.faults sink.new) result }
{
    let plan = match read_plan(alloc, Mode::Step, source) {
        Ok(plan) => plan,
        Err(error) => return Err(error),
    };
    match settle_legs(alloc, &OneThread, plan.legs.as_slice(), flags, sink) {
        Ok(network) => Ok(Some(network)),
        Err(WriteError::Fault) => Err(CommandError::WriteFault),
        Err(WriteError::OutOfMemory) => Err(CommandError::OutOfMemory),
    }
}
