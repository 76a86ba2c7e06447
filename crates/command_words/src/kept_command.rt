// The command that words stand for where an archive is at hand.
use crate::keeping::with_archive;
use crate::kept_matching::keeps_found;
use crate::kept_taking::kept_taken_by;
use crate::matching::{flags_found, found};
use crate::{Command, KeepFlags, TraceFlags};
use std::alloc::Global;
use svc_value::OutOfMemory;

/// What the words of a call ask for, where an archive is at hand.
#[derive(Clone, Copy, Debug, PartialEq, Eq)]
pub enum KeptCommand {
    /// A command that does not ask for the archive.
    Plain(Command),
    /// Settle a document leg by leg, each service in a thread of its own, with these trace lines; states are kept or loaded.
    Run(TraceFlags, KeepFlags),
    /// Settle a document leg by leg on one thread, with these trace lines; states are kept or loaded.
    Step(TraceFlags, KeepFlags),
    /// Show the settled values of each kept leg.
    History,
}

impl KeptCommand {
    ghost use Rattle.std.specs.Prelude.{◌≡◌, ◌≢◌, map, Some, None, IfOk, IfErr};
    ghost use Rattle.std.specs.String.{string_bytes};
    ghost use Rattle.command_words.specs.KeptWords.{archive_command_of, kept_command_of};

    /// The command that `words` stand for where an archive is at hand, without the program's name; `None` exactly where they are not
    /// accepted, and no memory is taken for such words. `OutOfMemory` comes for accepted words alone.
    pub fn from_words(alloc: Global, words: &[String]) -> Result<Option<KeptCommand>, OutOfMemory>
        ensures command { IfOk result (λ command. command ≡ kept_command_of (map string_bytes words.now)) }
        ensures accepted { IfErr result (λ _. kept_command_of (map string_bytes words.now) ≢ None) }
    {
        if let Some(command) = Command::from_words(alloc, words)? {
            return Ok(Some(KeptCommand::Plain(command)));
        }
        match with_archive(words) {
            Some(command) => command.read_by_clap(alloc, words),
            None => Ok(None),
        }
    }

    // This command with an archive again, as `clap` reads it in the words that stand for it.
    fn read_by_clap(
        self,
        alloc: Global,
        words: &[String],
    ) -> Result<Option<KeptCommand>, OutOfMemory>
        requires { archive_command_of (map string_bytes words.now) ≡ Some self }
        ensures { IfOk result (λ command. command ≡ Some self) }
    {
        let found = found(kept_taken_by(alloc, self)?, words)?;
        Ok(Some(match self {
            KeptCommand::Run(_, _) => KeptCommand::Run(flags_found(&found), keeps_found(&found)),
            KeptCommand::Step(_, _) => KeptCommand::Step(flags_found(&found), keeps_found(&found)),
            KeptCommand::Plain(_) | KeptCommand::History => self,
        }))
    }
}
