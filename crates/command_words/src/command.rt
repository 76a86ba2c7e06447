// The command that words stand for.
use crate::accepting::{accepted, loading, making};
use crate::matching::{flags_found, found, size_found};
use crate::taking::taken_by;
use crate::{Size, TraceFlags};
use std::alloc::Global;
use svc_value::OutOfMemory;

/// What the words of a call ask for.
#[derive(Clone, Copy, Debug, PartialEq, Eq)]
pub enum Command {
    /// Settle a document leg by leg, each service in a thread of its own, with these trace lines.
    Run(TraceFlags),
    /// Settle a document leg by leg on one thread, with these trace lines.
    Step(TraceFlags),
    /// Say whether a document is accepted, and what it counts.
    Check,
    /// Give the settled text of a document by the central evaluation.
    Central,
    /// Show the frames of a stream.
    Frames,
    /// Make a document of this size.
    Make(Size),
    /// Make a document of this size, settle it as `step` does, and give a summary of it.
    Load(Size),
}

impl Command {
    ghost use Rattle.std.specs.Prelude.{◌≡◌, ◌≢◌, map, Some, None, IfOk, IfErr};
    ghost use Rattle.std.specs.String.{string_bytes};
    ghost use Rattle.command_words.specs.Words.{command_of, plain_command_of};

    /// The command that `words` stand for, without the program's name; `None` exactly where they are not accepted, and no memory
    /// is taken for such words. `OutOfMemory` comes for accepted words alone.
    pub fn from_words(alloc: Global, words: &[String]) -> Result<Option<Command>, OutOfMemory>
        ensures command { IfOk result (λ command. command ≡ command_of (map string_bytes words.now)) }
        ensures accepted { IfErr result (λ _. command_of (map string_bytes words.now) ≢ None) }
    {
        match accepted(words) {
            Some(command) => command.read_by_clap(alloc, words),
            None => Ok(None),
        }
    }

    /// The same where no threads are at hand: the words of `run` are not accepted.
    pub fn from_plain_words(alloc: Global, words: &[String]) -> Result<Option<Command>, OutOfMemory>
        ensures command { IfOk result (λ command. command ≡ plain_command_of (map string_bytes words.now)) }
        ensures accepted { IfErr result (λ _. plain_command_of (map string_bytes words.now) ≢ None) }
    {
        match accepted(words) {
            Some(Command::Run(_)) | None => Ok(None),
            Some(command) => command.read_by_clap(alloc, words),
        }
    }

    // This command again, as `clap` reads it in the words that stand for it.
    fn read_by_clap(self, alloc: Global, words: &[String]) -> Result<Option<Command>, OutOfMemory>
        requires { command_of (map string_bytes words.now) ≡ Some self }
        ensures { IfOk result (λ command. command ≡ Some self) }
    {
        let found = found(taken_by(alloc, self)?, words)?;
        Ok(match self {
            Command::Run(_) => Some(Command::Run(flags_found(&found))),
            Command::Step(_) => Some(Command::Step(flags_found(&found))),
            Command::Make(_) => making(size_found(&found)),
            Command::Load(_) => loading(size_found(&found)),
            Command::Check | Command::Central | Command::Frames => Some(self),
        })
    }
}

/// The line that all words that are not accepted are answered with.
pub const USAGE: &str =
    "usage: qprop run|step [--trace] [--sources] [--keep] [--resume [--at K]] | history | check | central | frames | make S C N | load S C N | judge\n";
