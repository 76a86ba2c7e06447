// The flags of a command that writes trace lines.
ghost use Rattle.std.specs.Prelude.{◌≡◌, map};
ghost use Rattle.std.specs.String.{string_bytes};
ghost use Rattle.command_words.specs.Words.{flags_of, with_flag};

/// Which trace lines are asked for.
#[derive(Clone, Copy, Debug, PartialEq, Eq)]
pub struct TraceFlags {
    /// The notes of step lines and the logs.
    pub trace: bool,
    /// The sources of each service.
    pub sources: bool,
}

/// The flags that the words behind a command's name are, each at most once and in any order; `None` for all other words.
pub(crate) fn flags_of(words: &[String]) -> Option<TraceFlags>
    ensures { result ≡ flags_of (map string_bytes words.now) }
{
    let mut flags = TraceFlags {
        trace: false,
        sources: false,
    };
    for word in words {
        flags = with_flag(flags, word.as_str())?;
    }
    Some(flags)
}

// The flags with one more, if the word is a flag that is not among them.
fn with_flag(mut flags: TraceFlags, word: &str) -> Option<TraceFlags>
    ensures { result ≡ with_flag flags word.now }
{
    match word {
        "--trace" if !flags.trace => flags.trace = true,
        "--sources" if !flags.sources => flags.sources = true,
        _ => return None,
    }
    Some(flags)
}
