// Settling the legs of a document, one after another.
ghost use Rattle.std.specs.Prelude.{◌≡◌, ◌≤◌, ◌⊎◌, [], true, length, IfOk, OnOk, OnErr, IsErrOf};
ghost use Rattle.std.specs.Io.KnownBytes.{Keeps};
ghost use Rattle.settle_core.specs.Quiet.{is_quiet};
ghost use Rattle.svc_plan.specs.Rows.{rows_after, IsLegAfter, AreLegsAfter};
ghost use Rattle.svc_value.specs.Causes.{Rose};
ghost use Rattle.qprop_cli.specs.Commands.Step.{HoldsCentral, IsTracedText};
ghost use Rattle.qprop_cli.specs.Inside.Blocks.{IsTracedBlock, AddsBlock, BeginsBlock, BeginsText, AddsTraced};
ghost use Rattle.qprop_cli.specs.Inside.StepLines.{FitsMode, AllFitMode};

use super::runner::LegRunner;
use super::traces::append_traces;
use crate::io::writing::{WriteError, write_all};
use command_words::TraceFlags;
use settle_core::Network;
use std::alloc::Global;
use svc_plan::Leg;
use svc_value::limits::MAX_LEGS;
use svc_value::{OutOfMemory, Sink};
use trace_text::settled_text;

/// Settles the leg number `k`, from 1, as `runner` runs it, and puts its block, with the trace lines that are asked for, in place of
/// `text`.
#[tactic(auto, using(crate::proofs::CentralLemmas::values_length))]
fn settle_leg<L: LegRunner>(
    runner: &L,
    network: &mut Network,
    k: u32,
    leg: &Leg,
    flags: TraceFlags,
    text: &mut Vec<u8>,
) -> Result<(), OutOfMemory>
    requires quiet { is_quiet network.old ≡ true }
    requires leg { IsLegAfter network.old.rows leg.now }
    requires mode { FitsMode L.mode leg.now }
    requires can_run { L.can_run runner.now }
    ensures rows { OnOk result (network.new.rows ≡ rows_after network.old.rows leg.now) }
    ensures quiet { OnOk result (is_quiet network.new ≡ true) }
    ensures holds { OnOk result (HoldsCentral network.new) }
    ensures block { OnOk result (IsTracedBlock flags k network.old.rows leg.now network.new text.new.items) }
{
    text.clear();
    runner.run_leg(network, leg, flags.trace, text)?;
    network.kept();
    append_traces(network, flags, text)?;
    let values = network.values()?;
    settled_text(k, network.book(), &values, text)
}

/// Settles the leg number `k`, and writes its block. The sink gains nothing before the block is whole.
fn write_leg<L: LegRunner, K: Sink>(
    runner: &L,
    network: &mut Network,
    k: u32,
    leg: &Leg,
    flags: TraceFlags,
    text: &mut Vec<u8>,
    sink: &mut K,
) -> Result<(), WriteError>
    requires quiet { is_quiet network.old ≡ true }
    requires leg { IsLegAfter network.old.rows leg.now }
    requires mode { FitsMode L.mode leg.now }
    requires can_run { L.can_run runner.now }
    ensures rows { OnOk result (network.new.rows ≡ rows_after network.old.rows leg.now) }
    ensures quiet { OnOk result (is_quiet network.new ≡ true) }
    ensures holds { OnOk result (HoldsCentral network.new) }
    ensures added { OnOk result (AddsBlock (IsTracedBlock flags k network.old.rows leg.now network.new) (K.held sink.old) (K.held sink.new)) }
    ensures begun { OnErr result ((Keeps (K.held sink.old) (K.held sink.new)) ⊎ BeginsBlock (IsTracedBlock flags k network.old.rows leg.now network.new) (K.held sink.old) (K.held sink.new)) }
    ensures later { K.faults sink.old ≤ K.faults sink.new }
    ensures fault { IsErrOf result WriteError.Fault → Rose (K.faults sink.old) (K.faults sink.new) }
{
    settle_leg(runner, network, k, leg, flags, text)?;
    write_all(sink, text)?;
    Ok(())
}

/// Settles the legs, from the first one of a document on, each as `runner` runs it, and writes the block of each after it, with the
/// trace lines that are asked for. What was written when it stops is a beginning of the blocks of the legs that were run.
pub(crate) fn settle_legs<L: LegRunner, K: Sink>(
    alloc: Global,
    runner: &L,
    legs: &[Leg],
    flags: TraceFlags,
    sink: &mut K,
) -> Result<Network, WriteError>
    requires legs { AreLegsAfter [] legs.now }
    requires few { length legs.now ≤ MAX_LEGS }
    requires mode { AllFitMode L.mode legs.now }
    requires can_run { L.can_run runner.now }
    ensures settled { IfOk result (λ network. AddsTraced flags (K.held sink.old) (K.held sink.new) legs.now network) }
    ensures begun { OnErr result (BeginsText (IsTracedText flags) (K.held sink.old) (K.held sink.new) legs.now) }
    ensures later { K.faults sink.old ≤ K.faults sink.new }
    ensures fault { IsErrOf result WriteError.Fault → Rose (K.faults sink.old) (K.faults sink.new) }
{
    let mut network = Network::new(alloc);
    let mut text = Vec::new(alloc);
    for i in 0..legs.len() {
        let k = i as u32 + 1;
        write_leg(runner, &mut network, k, &legs[i], flags, &mut text, sink)?;
    }
    Ok(network)
}
