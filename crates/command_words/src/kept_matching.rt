// What `clap` finds of the archive in words that a command takes.
ghost use Rattle.std.specs.Prelude.{◌≡◌, Option, Some, codes, is_some};
ghost use Rattle.clap.specs.Words.{first_value, found_of, one_text};
ghost use Rattle.command_words.specs.Taken.{flag_text, number_in};
ghost use Rattle.command_words.specs.KeptTaken.{leg_resumed};
ghost use Rattle.command_words.specs.declared.keep_flags.KeepFlags.{KeepFlags};
ghost use Rattle.command_words.specs.declared.resume.Resume.{Resume};

use crate::matching::{flag_found, number_found};
use crate::resume::resumed_at;
use crate::{KeepFlags, Resume};
use clap::ArgMatches;

/// The flags of the archive that are found for `run` or `step`.
pub(crate) fn keeps_found(found: &ArgMatches<'_>) -> KeepFlags
    ensures { (flags : KeepFlags) → one_text (found_of found.now) (codes "keep") ≡ Some (flag_text flags.keep)
        → one_text (found_of found.now) (codes "resume") ≡ Some (flag_text (is_some flags.resume))
        → number_in (first_value (found_of found.now) (codes "at")) ≡ leg_resumed flags.resume → result ≡ flags }
{
    KeepFlags {
        keep: flag_found(found, "keep"),
        resume: resume_found(found),
    }
}

// The state to go on from that is found, if one is.
fn resume_found(found: &ArgMatches<'_>) -> Option<Resume>
    ensures { (resume : Option Resume) → one_text (found_of found.now) (codes "resume") ≡ Some (flag_text (is_some resume))
        → number_in (first_value (found_of found.now) (codes "at")) ≡ leg_resumed resume → result ≡ resume }
{
    if flag_found(found, "resume") {
        Some(resumed_at(number_found(found, "at")))
    } else {
        None
    }
}
