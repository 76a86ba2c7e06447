// The top call without threads.
ghost use Rattle.std.specs.Prelude.{◌≡◌, ◌≢◌, ◌⊎◌, ◌↔◌, ℕ, List, map, Some, None, IsSome};
ghost use Rattle.std.specs.Io.KnownBytes.{Appends, Keeps};
ghost use Rattle.std.specs.String.{string_bytes};
ghost use Rattle.document_reading.specs.declared.refusal.Refusal.{Refusal};
ghost use Rattle.document_generator.specs.Generator.{generated};
ghost use Rattle.command_words.specs.declared.size.Size.{Size};
ghost use Rattle.command_words.specs.declared.trace_flags.TraceFlags.{TraceFlags};
ghost use Rattle.svc_plan.specs.declared.plan.Mode.TheVariants as mode;
ghost use Rattle.svc_value.specs.Causes.{Rose};
ghost use Rattle.qprop_cli.specs.Commands.Central.{CentralOutput};
ghost use Rattle.qprop_cli.specs.Commands.Check.{CheckOutput};
ghost use Rattle.qprop_cli.specs.Commands.Frames.{FramesOutput};
ghost use Rattle.qprop_cli.specs.Commands.Load.{LoadedOutput};
ghost use Rattle.qprop_cli.specs.Commands.Step.{SettledOutput};
ghost use Rattle.qprop_cli.specs.Outcome.{IsAcceptedBy, RefusedOutput, RunsLegs, AddsDue};
ghost use Rattle.command_words.specs.Words.{plain_command_of, usage_line};

use crate::call::answer;
use crate::commands::OneThread;
use crate::outcome::ended;
use crate::{Command, Outcome, Status};
use std::alloc::Global;
use svc_value::{OutOfMemory, Sink, Source};

/// Does what `words`, without the program's name, ask for; `run` is not accepted. It reads from `source`, writes to `sink`, takes its
/// memory from `alloc`, starts no thread and returns for every input. The answer is how the call ended, and the network after the last
/// leg where the legs of a document were run to their end. The clauses say how each status comes and what was written by then.
pub fn qprop_plain<S: Source, K: Sink>(
    alloc: Global,
    words: &[String],
    source: &mut S,
    sink: &mut K,
) -> Outcome
    ensures words { plain_command_of (map string_bytes words.now) ≡ None → (result.status ≡ Status.Usage) ⊎ (result.status ≡ Status.WriteFault) }
    ensures usage { result.status ≡ Status.Usage → plain_command_of (map string_bytes words.now) ≡ None }
    ensures usage_line { result.status ≡ Status.Usage → Appends (K.held sink.old) (K.held sink.new) usage_line }

    ensures settled { (flags : TraceFlags) → plain_command_of (map string_bytes words.now) ≡ Some (Command.Step flags) → result.status ≡ Status.Done →
        SettledOutput mode.Step flags (S.left source.old) (S.left source.new) (K.held sink.old) (K.held sink.new) result.network }
    ensures checked { plain_command_of (map string_bytes words.now) ≡ Some Command.Check → result.status ≡ Status.Done →
        CheckOutput (S.left source.old) (S.left source.new) (K.held sink.old) (K.held sink.new) }
    ensures central { plain_command_of (map string_bytes words.now) ≡ Some Command.Central → result.status ≡ Status.Done →
        CentralOutput (S.left source.old) (S.left source.new) (K.held sink.old) (K.held sink.new) }
    ensures frames { plain_command_of (map string_bytes words.now) ≡ Some Command.Frames → result.status ≡ Status.Done →
        FramesOutput (S.left source.old) (S.left source.new) (K.held sink.old) (K.held sink.new) }
    ensures made { (size : Size) → plain_command_of (map string_bytes words.now) ≡ Some (Command.Make size) → result.status ≡ Status.Done →
        Appends (K.held sink.old) (K.held sink.new) (generated size.services size.changes size.start) }
    ensures loaded { (size : Size) → plain_command_of (map string_bytes words.now) ≡ Some (Command.Load size) → result.status ≡ Status.Done →
        LoadedOutput size (K.held sink.old) (K.held sink.new) result.network }
    ensures unread { (size : Size) → (plain_command_of (map string_bytes words.now) ≡ Some (Command.Make size)) ⊎ (plain_command_of (map string_bytes words.now) ≡ Some (Command.Load size)) → source.new ≡ source.old }
    ensures unasked { plain_command_of (map string_bytes words.now) ≡ None → source.new ≡ source.old }
    ensures network { IsSome result.network ↔ (RunsLegs (plain_command_of (map string_bytes words.now)) × (result.status ≡ Status.Done)) }
    ensures refused { (refusal : Refusal) → result.status ≡ Status.Refused refusal →
        RefusedOutput (plain_command_of (map string_bytes words.now)) (S.left source.old) (S.left source.new) (K.held sink.old) (K.held sink.new) refusal }

    ensures read_fault { result.status ≡ Status.ReadFault → Rose (S.faults source.old) (S.faults source.new) }
    ensures nothing { result.status ≡ Status.ReadFault → Keeps (K.held sink.old) (K.held sink.new) }
    ensures write_fault { result.status ≡ Status.WriteFault → Rose (K.faults sink.old) (K.faults sink.new) }
    ensures begun { result.status ≡ Status.WriteFault →
        AddsDue (plain_command_of (map string_bytes words.now)) (S.left source.old) (S.left source.new) (K.held sink.old) (K.held sink.new) }
    ensures memory { result.status ≡ Status.OutOfMemory → Keeps (K.held sink.old) (K.held sink.new)
        ⊎ AddsDue (plain_command_of (map string_bytes words.now)) (S.left source.old) (S.left source.new) (K.held sink.old) (K.held sink.new) }

    // What is accepted is done, unless a source or a sink fails or memory runs out.
    ensures complete { (command : Command) (read : List ℕ) → plain_command_of (map string_bytes words.now) ≡ Some command → S.left source.old ≡ Some read → IsAcceptedBy command read →
        ¬ (Rose (S.faults source.old) (S.faults source.new)) → ¬ (Rose (K.faults sink.old) (K.faults sink.new)) → (result.status ≡ Status.Done) ⊎ (result.status ≡ Status.OutOfMemory) }

    // No archive is asked, and nothing is judged.
    ensures no_keep_fault { result.status ≢ Status.KeepFault }
    ensures no_state { (result.status ≢ Status.NoState) × (result.status ≢ Status.BadState) }
    ensures no_verdict { result.status ≢ Status.Illegal }
{
    match Command::from_plain_words(alloc, words) {
        Ok(asked) => answer(alloc, asked, &OneThread, source, sink),
        Err(OutOfMemory) => ended(Status::OutOfMemory),
    }
}
