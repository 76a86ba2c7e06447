// The words of the commands that ask for an archive, by the rules of the product alone.
ghost use Rattle.std.specs.Prelude.{◌≡◌, map};
ghost use Rattle.std.specs.String.{string_bytes};
ghost use Rattle.command_words.specs.KeptWords.{archive_command_named, archive_command_of, running, stepping};

use crate::asked::run_flags_of;
use crate::{KeepFlags, KeptCommand, TraceFlags};

/// The command with an archive that `words` stand for, `None` exactly where they are none of them.
pub(crate) fn with_archive(words: &[String]) -> Option<KeptCommand>
    ensures { result ≡ archive_command_of (map string_bytes words.now) }
{
    let [first, behind @ ..] = words else {
        return None;
    };
    match first.as_str() {
        "run" => running(run_flags_of(behind)),
        "step" => stepping(run_flags_of(behind)),
        name => named(name, behind),
    }
}

// The command `run` with these flags, if they are flags.
fn running(flags: Option<(TraceFlags, KeepFlags)>) -> Option<KeptCommand>
    ensures { result ≡ running flags }
{
    match flags {
        Some((traces, keeps)) => Some(KeptCommand::Run(traces, keeps)),
        None => None,
    }
}

// The command `step` with these flags, if they are flags.
fn stepping(flags: Option<(TraceFlags, KeepFlags)>) -> Option<KeptCommand>
    ensures { result ≡ stepping flags }
{
    match flags {
        Some((traces, keeps)) => Some(KeptCommand::Step(traces, keeps)),
        None => None,
    }
}

// The command of this name that no words follow.
fn named(name: &str, behind: &[String]) -> Option<KeptCommand>
    ensures { result ≡ archive_command_named name.now (map string_bytes behind.now) }
{
    if !behind.is_empty() {
        return None;
    }
    match name {
        "history" => Some(KeptCommand::History),
        _ => None,
    }
}
