// The commands as `clap` takes them: one for each first word, with its arguments.
ghost use Rattle.std.specs.Prelude.{◌≡◌, IfOk, false};
ghost use Rattle.clap.specs.Words.{app_of, rule_of};
ghost use Rattle.command_words.specs.Taken.{
  bare,
  flag,
  place,
  with_flags,
  with_size,
  taken_by,
  run_taken,
  step_taken,
  check_taken,
  central_taken,
  frames_taken,
  make_taken,
  load_taken,
};

use crate::Command;
use clap::{Arg, ArgAction};
use std::alloc::Global;
use svc_value::OutOfMemory;

/// What `clap` is to take for `command`.
pub(crate) fn taken_by<'a>(
    alloc: Global,
    command: Command,
) -> Result<clap::Command<'a>, OutOfMemory>
    ensures { IfOk result (λ taken. app_of taken ≡ taken_by command) }
{
    match command {
        Command::Run(_) => run_taken(alloc),
        Command::Step(_) => step_taken(alloc),
        Command::Check => Ok(check_taken(alloc)),
        Command::Central => Ok(central_taken(alloc)),
        Command::Frames => Ok(frames_taken(alloc)),
        Command::Make(_) => make_taken(alloc),
        Command::Load(_) => load_taken(alloc),
    }
}

// `run` with its two flags.
fn run_taken<'a>(alloc: Global) -> Result<clap::Command<'a>, OutOfMemory>
    ensures { IfOk result (λ command. app_of command ≡ run_taken) }
{
    with_flags(alloc, "run")
}

// `step` with its two flags.
fn step_taken<'a>(alloc: Global) -> Result<clap::Command<'a>, OutOfMemory>
    ensures { IfOk result (λ command. app_of command ≡ step_taken) }
{
    with_flags(alloc, "step")
}

// `check`.
fn check_taken<'a>(alloc: Global) -> clap::Command<'a>
    ensures { app_of result ≡ check_taken }
{
    bare(alloc, "check")
}

// `central`.
fn central_taken<'a>(alloc: Global) -> clap::Command<'a>
    ensures { app_of result ≡ central_taken }
{
    bare(alloc, "central")
}

// `frames`.
fn frames_taken<'a>(alloc: Global) -> clap::Command<'a>
    ensures { app_of result ≡ frames_taken }
{
    bare(alloc, "frames")
}

// `make` with its three numbers.
fn make_taken<'a>(alloc: Global) -> Result<clap::Command<'a>, OutOfMemory>
    ensures { IfOk result (λ command. app_of command ≡ make_taken) }
{
    with_size(alloc, "make")
}

// `load` with its three numbers.
fn load_taken<'a>(alloc: Global) -> Result<clap::Command<'a>, OutOfMemory>
    ensures { IfOk result (λ command. app_of command ≡ load_taken) }
{
    with_size(alloc, "load")
}

/// A command with the two flags of trace lines.
pub(crate) fn with_flags<'a>(alloc: Global, name: &'a str) -> Result<clap::Command<'a>, OutOfMemory>
    ensures { IfOk result (λ command. app_of command ≡ with_flags name.entry.now) }
{
    Ok(
        bare(alloc, name)
            .arg(flag(alloc, "trace"))?
            .arg(flag(alloc, "sources"))?,
    )
}

// A command with the three numbers of a size, as plain texts.
fn with_size<'a>(alloc: Global, name: &'a str) -> Result<clap::Command<'a>, OutOfMemory>
    ensures { IfOk result (λ command. app_of command ≡ with_size name.entry.now) }
{
    Ok(
        bare(alloc, name)
            .arg(place(alloc, "services"))?
            .arg(place(alloc, "changes"))?
            .arg(place(alloc, "start"))?,
    )
}

/// A command without arguments, and without a flag for help.
pub(crate) fn bare<'a>(alloc: Global, name: &'a str) -> clap::Command<'a>
    ensures { app_of result ≡ bare name.entry.now }
{
    clap::Command::new(alloc, name).disable_help_flag(true)
}

// An argument that must stand at its place.
fn place<'a>(alloc: Global, name: &'a str) -> Arg<'a>
    ensures rule { rule_of result ≡ place name.entry.now }
    ensures local { result.global ≡ false }
{
    Arg::new(alloc, name).required(true).action(ArgAction::Set)
}

/// A flag that may stand anywhere behind the command, `--` and its name.
pub(crate) fn flag<'a>(alloc: Global, name: &'a str) -> Arg<'a>
    ensures rule { rule_of result ≡ flag name.entry.now }
    ensures local { result.global ≡ false }
{
    Arg::new(alloc, name).long(name).action(ArgAction::SetTrue)
}
