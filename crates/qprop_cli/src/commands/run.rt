// The command `run`.
ghost use Rattle.qprop_cli.specs.Ending.{Ends};

pub(crate) mod leg;

use crate::command_error::CommandError;
use crate::commands::settling::legs::settle_legs;
use crate::commands::settling::runner::LegRunner;
use crate::io::writing::WriteError;
use crate::plan::read_plan;
use crate::{Command, TraceFlags};
use settle_core::Network;
use std::alloc::Global;
use svc_plan::Mode;
use svc_value::{Sink, Source};

/// Reads a document without step lines, settles it leg by leg, each as `runner` runs it, and writes its settled text, with the trace
/// lines that are asked for. The answer is the network after the last leg.
#[tactic(auto, using(crate::proofs::DueLemmas::run_blocks_due, crate::proofs::DueLemmas::settled_output, crate::proofs::ModeLemmas::plain_legs_fit))]
pub(crate) fn run<L: LegRunner, S: Source, K: Sink>(
    alloc: Global,
    runner: &L,
    flags: TraceFlags,
    source: &mut S,
    sink: &mut K,
) -> Result<Option<Network>, CommandError>
    requires { L.can_run runner.now }
    ensures ends { Ends (Command.Run flags) (S.left source.old) (S.left source.new)
        (S.faults source.old) (S.faults source.new) (K.held sink.old) (K.held sink.new)
        (K.faults sink.old) (K.faults sink.new) result }
{
    let plan = match read_plan(alloc, Mode::Plain, source) {
        Ok(plan) => plan,
        Err(error) => return Err(error),
    };
    match settle_legs(alloc, runner, plan.legs.as_slice(), flags, sink) {
        Ok(network) => Ok(Some(network)),
        Err(WriteError::Fault) => Err(CommandError::WriteFault),
        Err(WriteError::OutOfMemory) => Err(CommandError::OutOfMemory),
    }
}
