// The command `check`.
ghost use Rattle.std.specs.Prelude.{◌≡◌, ◌≤◌, [], length, IfOk};
ghost use Rattle.svc_plan.specs.Rows.{AreLegsAfter};
ghost use Rattle.qprop_cli.specs.Commands.Check.{accepted_line};
ghost use Rattle.qprop_cli.specs.Ending.{Ends};

use crate::Command;
use crate::command_error::CommandError;
use crate::commands::counts::append_counts;
use crate::io::writing::write_all;
use crate::plan::read_plan;
use settle_core::Network;
use std::alloc::Global;
use svc_plan::{Leg, Mode};
use svc_value::limits::MAX_LEGS;
use svc_value::{OutOfMemory, Sink, Source};

/// Reads a document and writes its counts.
#[tactic(auto, using(crate::proofs::DueLemmas::counts_due, crate::proofs::DueLemmas::check_output))]
pub(crate) fn check<S: Source, K: Sink>(
    alloc: Global,
    source: &mut S,
    sink: &mut K,
) -> Result<Option<Network>, CommandError>
    ensures ends { Ends Command.Check (S.left source.old) (S.left source.new)
        (S.faults source.old) (S.faults source.new) (K.held sink.old) (K.held sink.new)
        (K.faults sink.old) (K.faults sink.new) result }
{
    let plan = match read_plan(alloc, Mode::Plain, source) {
        Ok(plan) => plan,
        Err(error) => return Err(error),
    };
    let text = accepted_text(alloc, plan.legs.as_slice())?;
    write_all(sink, &text)?;
    Ok(None)
}

// The line of a document with these legs, in memory of `alloc`.
fn accepted_text(alloc: Global, legs: &[Leg]) -> Result<Vec<u8>, OutOfMemory>
    requires legs { AreLegsAfter [] legs.now }
    requires few { length legs.now ≤ MAX_LEGS }
    ensures { IfOk result (λ text. text.items ≡ accepted_line legs.now) }
{
    let mut text = Vec::from_slice(alloc, b"accepted ")?;
    append_counts(legs, &mut text)?;
    text.extend_from_slice(b"\n")?;
    Ok(text)
}
