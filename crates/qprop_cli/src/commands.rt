// The commands, each in a folder of its own.
ghost use Rattle.std.specs.Prelude.{◌≡◌, ◌⊎◌};
ghost use Rattle.command_words.specs.declared.size.Size.{Size};
ghost use Rattle.command_words.specs.Words.{IsSize};
ghost use Rattle.qprop_cli.specs.Ending.{Ends};

mod central;
mod check;
mod counts;
mod frames;
mod load;
mod make;
mod run;
mod settling;
mod step;

use crate::Command;
use crate::command_error::CommandError;
pub use frames::streams_are_told;
pub(crate) use run::leg::ByCall;
use settle_core::Network;
pub(crate) use settling::runner::LegRunner;
use std::alloc::Global;
pub(crate) use step::leg::OneThread;
use svc_value::{Sink, Source};

/// Does what the command asks for. It reads from `source`, writes to `sink` and takes its memory from `alloc`; `runner` runs the legs
/// of `run`. The answer is the network after the last leg, where the command runs one, or why the command was not done.
pub(crate) fn perform<L: LegRunner, S: Source, K: Sink>(
    alloc: Global,
    command: Command,
    runner: &L,
    source: &mut S,
    sink: &mut K,
) -> Result<Option<Network>, CommandError>
    requires can_run { L.can_run runner.now }
    requires made { (size : Size) → command ≡ Command.Make size → IsSize size }
    requires loaded { (size : Size) → command ≡ Command.Load size → IsSize size }
    ensures ends { Ends command (S.left source.old) (S.left source.new)
        (S.faults source.old) (S.faults source.new) (K.held sink.old) (K.held sink.new)
        (K.faults sink.old) (K.faults sink.new) result }
    ensures unread { (size : Size) → (command ≡ Command.Make size) ⊎ (command ≡ Command.Load size) → source.new ≡ source.old }
{
    match command {
        Command::Run(flags) => run::run(alloc, runner, flags, source, sink),
        Command::Step(flags) => step::step(alloc, flags, source, sink),
        Command::Check => check::check(alloc, source, sink),
        Command::Central => central::central(alloc, source, sink),
        Command::Frames => frames::frames(alloc, source, sink),
        Command::Make(size) => make::make(alloc, size, sink),
        Command::Load(size) => load::load(alloc, size, sink),
    }
}
