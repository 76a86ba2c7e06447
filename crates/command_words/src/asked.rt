// What words behind `run` and `step` ask for where an archive is at hand.
ghost use Rattle.std.specs.Prelude.{◌≡◌, map};
ghost use Rattle.std.specs.String.{string_bytes};
ghost use Rattle.command_words.specs.KeptWords.{leg_of, run_flags_of};
ghost use Rattle.command_words.specs.WordByWord.{asked_by, ended, nothing_asked, with_flag, with_leg, with_word};

use crate::numbers::number_of;
use crate::resume::resumed_at;
use crate::{KeepFlags, TraceFlags};
use svc_value::limits::MAX_LEGS;

// What the words so far ask for.
#[derive(Clone, Copy)]
struct Asked {
    traces: TraceFlags,
    keep: bool,
    resume: bool,
    leg: LegAsked,
}

// Whether `--at` stood, and the number behind it.
#[derive(Clone, Copy)]
enum LegAsked {
    No,
    Awaited,
    Leg(u32),
}

/// The flags that the words behind `run` or `step` are, with `--keep` or `--resume` among them; `None` for all other words.
pub(crate) fn run_flags_of(words: &[String]) -> Option<(TraceFlags, KeepFlags)>
    ensures { result ≡ run_flags_of (map string_bytes words.now) }
{
    ended(asked_by(words)?)
}

// What the words ask for, one after the other.
fn asked_by(words: &[String]) -> Option<Asked>
    ensures { result ≡ asked_by nothing_asked (map string_bytes words.now) }
{
    let mut asked = Asked {
        traces: TraceFlags {
            trace: false,
            sources: false,
        },
        keep: false,
        resume: false,
        leg: LegAsked::No,
    };
    for word in words {
        asked = with_word(asked, word.as_str())?;
    }
    Some(asked)
}

// What is asked for with one word more.
fn with_word(asked: Asked, word: &str) -> Option<Asked>
    ensures { result ≡ with_word asked word.now }
{
    match asked.leg {
        LegAsked::Awaited => with_leg(asked, leg_of(number_of(word))),
        _ => with_flag(asked, word),
    }
}

// The same where the word is to be the number of a leg.
fn with_leg(mut asked: Asked, leg: Option<u32>) -> Option<Asked>
    ensures { result ≡ with_leg asked leg }
{
    asked.leg = LegAsked::Leg(leg?);
    Some(asked)
}

// The same where the word is to be a flag, or `--at`, that did not stand before.
fn with_flag(mut asked: Asked, word: &str) -> Option<Asked>
    ensures { result ≡ with_flag asked word.now }
{
    match word {
        "--trace" if !asked.traces.trace => asked.traces.trace = true,
        "--sources" if !asked.traces.sources => asked.traces.sources = true,
        "--keep" if !asked.keep => asked.keep = true,
        "--resume" if !asked.resume => asked.resume = true,
        "--at" if matches!(asked.leg, LegAsked::No) => asked.leg = LegAsked::Awaited,
        _ => return None,
    }
    Some(asked)
}

// The flags, where what is asked for is whole.
fn ended(asked: Asked) -> Option<(TraceFlags, KeepFlags)>
    ensures { result ≡ ended asked }
{
    let resume = match (asked.resume, asked.leg) {
        (true, LegAsked::No) => Some(resumed_at(None)),
        (true, LegAsked::Leg(leg)) => Some(resumed_at(Some(leg))),
        (false, LegAsked::No) if asked.keep => None,
        _ => return None,
    };
    Some((
        asked.traces,
        KeepFlags {
            keep: asked.keep,
            resume,
        },
    ))
}

// The number of a leg, if it is one.
fn leg_of(number: Option<u32>) -> Option<u32>
    ensures { result ≡ leg_of number }
{
    match number {
        Some(leg) if leg >= 1 && leg <= MAX_LEGS as u32 => Some(leg),
        _ => None,
    }
}
