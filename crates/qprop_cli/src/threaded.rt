// The top call.
ghost use Rattle.std.specs.Prelude.{◌≡◌, ◌≢◌, ◌⊎◌, ◌↔◌, ℕ, List, map, Some, None, true, IsSome, IfOk};
ghost use Rattle.std.specs.Io.KnownBytes.{Appends, Keeps};
ghost use Rattle.std.specs.String.{string_bytes};
ghost use Rattle.document_reading.specs.declared.refusal.Refusal.{Refusal};
ghost use Rattle.document_generator.specs.Generator.{generated};
ghost use Rattle.command_words.specs.declared.size.Size.{Size};
ghost use Rattle.command_words.specs.declared.trace_flags.TraceFlags.{TraceFlags};
ghost use Rattle.settle_core.specs.Quiet.{is_quiet};
ghost use Rattle.settle_core.specs.Workers.{HasBegun, SameLeg};
ghost use Rattle.svc_plan.specs.declared.plan.Mode.TheVariants as mode;
ghost use Rattle.svc_value.specs.Causes.{Rose};
ghost use Rattle.qprop_cli.specs.Commands.Central.{CentralOutput};
ghost use Rattle.qprop_cli.specs.Commands.Check.{CheckOutput};
ghost use Rattle.qprop_cli.specs.Commands.Frames.{FramesOutput};
ghost use Rattle.qprop_cli.specs.Commands.Load.{LoadedOutput};
ghost use Rattle.qprop_cli.specs.Commands.Step.{SettledOutput};
ghost use Rattle.qprop_cli.specs.Outcome.{IsAcceptedBy, RefusedOutput, RunsLegs, AddsDue};
ghost use Rattle.command_words.specs.Words.{command_of, usage_line};

use crate::call::answer;
use crate::commands::ByCall;
use crate::outcome::ended;
use crate::{Command, Outcome, Status};
use node_threads::{Gate, run_leg};
use settle_core::Network;
use std::alloc::Global;
use std::thread::Threads;
use svc_value::{OutOfMemory, Sink, Source};

/// Does what `words`, without the program's name, ask for. It reads from `source`, writes to `sink` and takes its memory from
/// `alloc`. With `run` each service works in a thread of its own, which `rt` starts and the call joins before the leg's block is
/// written; each turn is told to `gate`. The answer is how the call ended, and the network after the last leg where the legs of a
/// document were run to their end. The clauses say how each status comes and what was written by then.
pub fn qprop<R: Threads + Sync, S: Source, K: Sink, G: Gate>(
    rt: &R,
    alloc: Global,
    words: &[String],
    source: &mut S,
    sink: &mut K,
    gate: &G,
) -> Outcome
    ensures words { command_of (map string_bytes words.now) ≡ None → (result.status ≡ Status.Usage) ⊎ (result.status ≡ Status.WriteFault) }
    ensures usage { result.status ≡ Status.Usage → command_of (map string_bytes words.now) ≡ None }
    ensures usage_line { result.status ≡ Status.Usage → Appends (K.held sink.old) (K.held sink.new) usage_line }

    ensures ran { (flags : TraceFlags) → command_of (map string_bytes words.now) ≡ Some (Command.Run flags) → result.status ≡ Status.Done →
        SettledOutput mode.Plain flags (S.left source.old) (S.left source.new) (K.held sink.old) (K.held sink.new) result.network }
    ensures settled { (flags : TraceFlags) → command_of (map string_bytes words.now) ≡ Some (Command.Step flags) → result.status ≡ Status.Done →
        SettledOutput mode.Step flags (S.left source.old) (S.left source.new) (K.held sink.old) (K.held sink.new) result.network }
    ensures checked { command_of (map string_bytes words.now) ≡ Some Command.Check → result.status ≡ Status.Done →
        CheckOutput (S.left source.old) (S.left source.new) (K.held sink.old) (K.held sink.new) }
    ensures central { command_of (map string_bytes words.now) ≡ Some Command.Central → result.status ≡ Status.Done →
        CentralOutput (S.left source.old) (S.left source.new) (K.held sink.old) (K.held sink.new) }
    ensures frames { command_of (map string_bytes words.now) ≡ Some Command.Frames → result.status ≡ Status.Done →
        FramesOutput (S.left source.old) (S.left source.new) (K.held sink.old) (K.held sink.new) }
    ensures made { (size : Size) → command_of (map string_bytes words.now) ≡ Some (Command.Make size) → result.status ≡ Status.Done →
        Appends (K.held sink.old) (K.held sink.new) (generated size.services size.changes size.start) }
    ensures loaded { (size : Size) → command_of (map string_bytes words.now) ≡ Some (Command.Load size) → result.status ≡ Status.Done →
        LoadedOutput size (K.held sink.old) (K.held sink.new) result.network }
    ensures unread { (size : Size) → (command_of (map string_bytes words.now) ≡ Some (Command.Make size)) ⊎ (command_of (map string_bytes words.now) ≡ Some (Command.Load size)) → source.new ≡ source.old }
    ensures unasked { command_of (map string_bytes words.now) ≡ None → source.new ≡ source.old }
    ensures network { IsSome result.network ↔ (RunsLegs (command_of (map string_bytes words.now)) × (result.status ≡ Status.Done)) }
    ensures refused { (refusal : Refusal) → result.status ≡ Status.Refused refusal →
        RefusedOutput (command_of (map string_bytes words.now)) (S.left source.old) (S.left source.new) (K.held sink.old) (K.held sink.new) refusal }

    ensures read_fault { result.status ≡ Status.ReadFault → Rose (S.faults source.old) (S.faults source.new) }
    ensures nothing { result.status ≡ Status.ReadFault → Keeps (K.held sink.old) (K.held sink.new) }
    ensures write_fault { result.status ≡ Status.WriteFault → Rose (K.faults sink.old) (K.faults sink.new) }
    ensures begun { result.status ≡ Status.WriteFault →
        AddsDue (command_of (map string_bytes words.now)) (S.left source.old) (S.left source.new) (K.held sink.old) (K.held sink.new) }
    ensures memory { result.status ≡ Status.OutOfMemory → Keeps (K.held sink.old) (K.held sink.new)
        ⊎ AddsDue (command_of (map string_bytes words.now)) (S.left source.old) (S.left source.new) (K.held sink.old) (K.held sink.new) }

    // What is accepted is done, unless a source or a sink fails or memory runs out.
    ensures complete { (command : Command) (read : List ℕ) → command_of (map string_bytes words.now) ≡ Some command → S.left source.old ≡ Some read → IsAcceptedBy command read →
        ¬ (Rose (S.faults source.old) (S.faults source.new)) → ¬ (Rose (K.faults sink.old) (K.faults sink.new)) → (result.status ≡ Status.Done) ⊎ (result.status ≡ Status.OutOfMemory) }

    // No archive is asked, and nothing is judged.
    ensures no_keep_fault { result.status ≢ Status.KeepFault }
    ensures no_state { (result.status ≢ Status.NoState) × (result.status ≢ Status.BadState) }
    ensures no_verdict { result.status ≢ Status.Illegal }
{
    match Command::from_words(alloc, words) {
        Ok(asked) => {
            let runner = ByCall {
                alloc,
                call: |opened: Network| -> Result<Network, OutOfMemory>
                    requires { HasBegun opened }
                    ensures leg { IfOk result (SameLeg opened) }
                    ensures quiet { IfOk result (λ ended. is_quiet ended ≡ true) }
                { run_leg(rt, alloc, opened, gate) },
            };
            answer(alloc, asked, &runner, source, sink)
        }
        Err(OutOfMemory) => ended(Status::OutOfMemory),
    }
}
