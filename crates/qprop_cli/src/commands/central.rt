// The command `central`.
ghost use Rattle.qprop_cli.specs.Ending.{Ends};

mod legs;

use crate::Command;
use crate::command_error::CommandError;
use crate::io::writing::WriteError;
use crate::plan::read_plan;
use legs::evaluate_legs;
use settle_core::Network;
use std::alloc::Global;
use svc_plan::Mode;
use svc_value::{Sink, Source};

/// Reads a document and writes its settled text by the central evaluation, leg by leg.
#[tactic(auto, using(crate::proofs::DueLemmas::central_blocks_due, crate::proofs::DueLemmas::central_output))]
pub(crate) fn central<S: Source, K: Sink>(
    alloc: Global,
    source: &mut S,
    sink: &mut K,
) -> Result<Option<Network>, CommandError>
    ensures ends { Ends Command.Central (S.left source.old) (S.left source.new)
        (S.faults source.old) (S.faults source.new) (K.held sink.old) (K.held sink.new)
        (K.faults sink.old) (K.faults sink.new) result }
{
    let plan = match read_plan(alloc, Mode::Plain, source) {
        Ok(plan) => plan,
        Err(error) => return Err(error),
    };
    match evaluate_legs(alloc, plan.legs.as_slice(), sink) {
        Ok(()) => Ok(None),
        Err(WriteError::Fault) => Err(CommandError::WriteFault),
        Err(WriteError::OutOfMemory) => Err(CommandError::OutOfMemory),
    }
}
