// What a call answers to the command that its words stand for.
ghost use Rattle.std.specs.Prelude.{◌≡◌, ◌≢◌, ◌⊎◌, ◌↔◌, ℕ, List, Some, None, IsSome};
ghost use Rattle.std.specs.Io.KnownBytes.{Appends, Keeps};
ghost use Rattle.document_reading.specs.declared.refusal.Refusal.{Refusal};
ghost use Rattle.document_generator.specs.Generator.{generated};
ghost use Rattle.command_words.specs.declared.size.Size.{Size};
ghost use Rattle.command_words.specs.declared.trace_flags.TraceFlags.{TraceFlags};
ghost use Rattle.svc_value.specs.Causes.{Rose};
ghost use Rattle.qprop_cli.specs.Commands.Central.{CentralOutput};
ghost use Rattle.qprop_cli.specs.Commands.Check.{CheckOutput};
ghost use Rattle.qprop_cli.specs.Commands.Frames.{FramesOutput};
ghost use Rattle.qprop_cli.specs.Commands.Load.{LoadedOutput};
ghost use Rattle.qprop_cli.specs.Commands.Step.{SettledOutput};
ghost use Rattle.qprop_cli.specs.Outcome.{IsAcceptedBy, RefusedOutput, RunsLegs, AddsDue};
ghost use Rattle.command_words.specs.Words.{IsSize, usage_line};
ghost use Rattle.svc_plan.specs.declared.plan.Mode.TheVariants as mode;

use crate::answers::{refuse, usage};
use crate::command_error::CommandError;
use crate::commands::{LegRunner, perform};
use crate::outcome::ended;
use crate::{Command, Outcome, Status};
use std::alloc::Global;
use svc_value::{Sink, Source};

/// Does what `asked` asks for; `None` are words that are not accepted. It reads from `source`, writes to `sink` and takes its memory
/// from `alloc`; `runner` runs the legs of `run`. The clauses say how each status comes and what was written by then.
#[tactic(auto, using(crate::proofs::DueLemmas::usage_due, crate::proofs::EndingLemmas::network_there))]
pub(crate) fn answer<L: LegRunner, S: Source, K: Sink>(
    alloc: Global,
    asked: Option<Command>,
    runner: &L,
    source: &mut S,
    sink: &mut K,
) -> Outcome
    requires can_run { L.can_run runner.now }
    requires made_size { (size : Size) → asked ≡ Some (Command.Make size) → IsSize size }
    requires loaded_size { (size : Size) → asked ≡ Some (Command.Load size) → IsSize size }
    ensures words { asked ≡ None → (result.status ≡ Status.Usage) ⊎ (result.status ≡ Status.WriteFault) }
    ensures usage { result.status ≡ Status.Usage → asked ≡ None }
    ensures usage_line { result.status ≡ Status.Usage → Appends (K.held sink.old) (K.held sink.new) usage_line }

    ensures ran { (flags : TraceFlags) → asked ≡ Some (Command.Run flags) → result.status ≡ Status.Done →
        SettledOutput mode.Plain flags (S.left source.old) (S.left source.new) (K.held sink.old) (K.held sink.new) result.network }
    ensures settled { (flags : TraceFlags) → asked ≡ Some (Command.Step flags) → result.status ≡ Status.Done →
        SettledOutput mode.Step flags (S.left source.old) (S.left source.new) (K.held sink.old) (K.held sink.new) result.network }
    ensures checked { asked ≡ Some Command.Check → result.status ≡ Status.Done →
        CheckOutput (S.left source.old) (S.left source.new) (K.held sink.old) (K.held sink.new) }
    ensures central { asked ≡ Some Command.Central → result.status ≡ Status.Done →
        CentralOutput (S.left source.old) (S.left source.new) (K.held sink.old) (K.held sink.new) }
    ensures frames { asked ≡ Some Command.Frames → result.status ≡ Status.Done →
        FramesOutput (S.left source.old) (S.left source.new) (K.held sink.old) (K.held sink.new) }
    ensures made { (size : Size) → asked ≡ Some (Command.Make size) → result.status ≡ Status.Done →
        Appends (K.held sink.old) (K.held sink.new) (generated size.services size.changes size.start) }
    ensures loaded { (size : Size) → asked ≡ Some (Command.Load size) → result.status ≡ Status.Done →
        LoadedOutput size (K.held sink.old) (K.held sink.new) result.network }
    ensures unread { (size : Size) → (asked ≡ Some (Command.Make size)) ⊎ (asked ≡ Some (Command.Load size)) → source.new ≡ source.old }
    ensures unasked { asked ≡ None → source.new ≡ source.old }
    ensures network { IsSome result.network ↔ (RunsLegs asked × (result.status ≡ Status.Done)) }
    ensures refused { (refusal : Refusal) → result.status ≡ Status.Refused refusal →
        RefusedOutput asked (S.left source.old) (S.left source.new) (K.held sink.old) (K.held sink.new) refusal }

    ensures read_fault { result.status ≡ Status.ReadFault → Rose (S.faults source.old) (S.faults source.new) }
    ensures nothing { result.status ≡ Status.ReadFault → Keeps (K.held sink.old) (K.held sink.new) }
    ensures write_fault { result.status ≡ Status.WriteFault → Rose (K.faults sink.old) (K.faults sink.new) }
    ensures begun { result.status ≡ Status.WriteFault →
        AddsDue asked (S.left source.old) (S.left source.new) (K.held sink.old) (K.held sink.new) }
    ensures memory { result.status ≡ Status.OutOfMemory → Keeps (K.held sink.old) (K.held sink.new)
        ⊎ AddsDue asked (S.left source.old) (S.left source.new) (K.held sink.old) (K.held sink.new) }

    // What is accepted is done, unless a source or a sink fails or memory runs out.
    ensures complete { (command : Command) (read : List ℕ) → asked ≡ Some command → S.left source.old ≡ Some read → IsAcceptedBy command read →
        ¬ (Rose (S.faults source.old) (S.faults source.new)) → ¬ (Rose (K.faults sink.old) (K.faults sink.new)) → (result.status ≡ Status.Done) ⊎ (result.status ≡ Status.OutOfMemory) }

    // No archive is asked, and nothing is judged.
    ensures no_keep_fault { result.status ≢ Status.KeepFault }
    ensures no_state { (result.status ≢ Status.NoState) × (result.status ≢ Status.BadState) }
    ensures no_verdict { result.status ≢ Status.Illegal }
{
    let Some(command) = asked else {
        return usage(sink);
    };
    match perform(alloc, command, runner, source, sink) {
        Ok(network) => Outcome {
            status: Status::Done,
            network,
        },
        Err(CommandError::Refused(refusal)) => refuse(alloc, refusal, sink),
        Err(CommandError::ReadFault) => ended(Status::ReadFault),
        Err(CommandError::WriteFault) => ended(Status::WriteFault),
        Err(CommandError::OutOfMemory) => ended(Status::OutOfMemory),
    }
}
