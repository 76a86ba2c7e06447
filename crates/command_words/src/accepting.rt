// The words that are accepted, by the rules of the product alone.
ghost use Rattle.std.specs.Prelude.{◌≡◌, map};
ghost use Rattle.std.specs.String.{string_bytes};
ghost use Rattle.command_words.specs.Words.{command_of, command_named, loading, making, running, size_in, stepping};

use crate::numbers::number_of;
use crate::size::size_of;
use crate::trace_flags::flags_of;
use crate::{Command, Size, TraceFlags};

/// The command that `words` stand for, `None` exactly where they are not accepted.
pub(crate) fn accepted(words: &[String]) -> Option<Command>
    ensures { result ≡ command_of (map string_bytes words.now) }
{
    let [first, behind @ ..] = words else {
        return None;
    };
    match first.as_str() {
        "run" => running(flags_of(behind)),
        "step" => stepping(flags_of(behind)),
        "make" => making(size_in(behind)),
        "load" => loading(size_in(behind)),
        name => named(name, behind),
    }
}

/// The command `make` of a size, if there is one.
pub(crate) fn making(size: Option<Size>) -> Option<Command>
    ensures { result ≡ making size }
{
    match size {
        Some(size) => Some(Command::Make(size)),
        None => None,
    }
}

/// The command `load` of a size, if there is one.
pub(crate) fn loading(size: Option<Size>) -> Option<Command>
    ensures { result ≡ loading size }
{
    match size {
        Some(size) => Some(Command::Load(size)),
        None => None,
    }
}

// The command `run` with these flags, if they are flags.
fn running(flags: Option<TraceFlags>) -> Option<Command>
    ensures { result ≡ running flags }
{
    match flags {
        Some(flags) => Some(Command::Run(flags)),
        None => None,
    }
}

// The command `step` with these flags, if they are flags.
fn stepping(flags: Option<TraceFlags>) -> Option<Command>
    ensures { result ≡ stepping flags }
{
    match flags {
        Some(flags) => Some(Command::Step(flags)),
        None => None,
    }
}

// The size that the words behind a command's name are.
fn size_in(words: &[String]) -> Option<Size>
    ensures { result ≡ size_in (map string_bytes words.now) }
{
    match words {
        [services, changes, start] => {
            let services = number_of(services.as_str());
            let changes = number_of(changes.as_str());
            size_of(services, changes, number_of(start.as_str()))
        }
        _ => None,
    }
}

// The command of this name that no words follow.
fn named(name: &str, behind: &[String]) -> Option<Command>
    ensures { result ≡ command_named name.now (map string_bytes behind.now) }
{
    if !behind.is_empty() {
        return None;
    }
    match name {
        "check" => Some(Command::Check),
        "central" => Some(Command::Central),
        "frames" => Some(Command::Frames),
        _ => None,
    }
}
