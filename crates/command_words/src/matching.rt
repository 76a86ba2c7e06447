// What `clap` finds in words that a command takes.
ghost use Rattle.std.specs.Prelude.{◌≡◌, Bool, Some, map, true, codes, IfOk};
ghost use Rattle.std.specs.String.{string_bytes};
ghost use Rattle.clap.specs.Words.{HasMatchesOf, app_of, first_value, found_of, one_text, takes};
ghost use Rattle.command_words.specs.Words.{size_of};
ghost use Rattle.command_words.specs.Taken.{flag_text, number_in};
ghost use Rattle.command_words.specs.declared.trace_flags.TraceFlags.{TraceFlags};

use crate::numbers::number_of;
use crate::size::size_of;
use crate::{Size, TraceFlags};
use clap::ArgMatches;
use clap::error::ErrorKind;
use svc_value::OutOfMemory;

/// What `command` finds in `words`, which it takes. `OutOfMemory` is the only error: `clap` refuses no such words.
pub(crate) fn found<'a>(
    command: clap::Command<'a>,
    words: &'a [String],
) -> Result<ArgMatches<'a>, OutOfMemory>
    requires { takes (app_of command) (map string_bytes words.now) ≡ true }
    ensures { IfOk result (HasMatchesOf (app_of command.entry) (map string_bytes words.now)) }
{
    match command.try_get_matches_from(words) {
        Ok(found) => Ok(found),
        Err(error) if error.kind() == ErrorKind::OutOfMemory => Err(OutOfMemory),
        Err(_) => unreachable!(),
    }
}

/// The flags that are found for `run` or `step`.
pub(crate) fn flags_found(found: &ArgMatches<'_>) -> TraceFlags
    ensures { (flags : TraceFlags) → one_text (found_of found.now) (codes "trace") ≡ Some (flag_text flags.trace)
        → one_text (found_of found.now) (codes "sources") ≡ Some (flag_text flags.sources) → result ≡ flags }
{
    TraceFlags {
        trace: flag_found(found, "trace"),
        sources: flag_found(found, "sources"),
    }
}

/// The size that the texts found for `make` or `load` are, if they are one.
pub(crate) fn size_found(found: &ArgMatches<'_>) -> Option<Size>
    ensures { result ≡ size_of (number_in (first_value (found_of found.now) (codes "services")))
        (number_in (first_value (found_of found.now) (codes "changes"))) (number_in (first_value (found_of found.now) (codes "start"))) }
{
    let services = number_found(found, "services");
    let changes = number_found(found, "changes");
    size_of(services, changes, number_found(found, "start"))
}

/// Whether the flag of this name is found.
pub(crate) fn flag_found(found: &ArgMatches<'_>, name: &str) -> bool
    ensures { (is_there : Bool) → one_text (found_of found.now) name.now ≡ Some (flag_text is_there) → result ≡ is_there }
{
    found.get_flag(name)
}

/// The number that the text found under this name is.
pub(crate) fn number_found(found: &ArgMatches<'_>, name: &str) -> Option<u32>
    ensures { result ≡ number_in (first_value (found_of found.now) name.now) }
{
    number_of(found.get_str(name)?)
}
