// The commands with an archive as `clap` takes them: one for each first word, with its arguments.
ghost use Rattle.std.specs.Prelude.{◌≡◌, IfOk, false};
ghost use Rattle.clap.specs.Words.{app_of, rule_of};
ghost use Rattle.command_words.specs.KeptTaken.{history_taken, kept_run_taken, kept_step_taken, kept_taken_by, option, with_keep_flags};

use crate::KeptCommand;
use crate::taking::{bare, flag, taken_by, with_flags};
use clap::{Arg, ArgAction};
use std::alloc::Global;
use svc_value::OutOfMemory;

/// What `clap` is to take for `command`.
pub(crate) fn kept_taken_by<'a>(
    alloc: Global,
    command: KeptCommand,
) -> Result<clap::Command<'a>, OutOfMemory>
    ensures { IfOk result (λ taken. app_of taken ≡ kept_taken_by command) }
{
    match command {
        KeptCommand::Plain(command) => taken_by(alloc, command),
        KeptCommand::Run(_, _) => kept_run_taken(alloc),
        KeptCommand::Step(_, _) => kept_step_taken(alloc),
        KeptCommand::History => Ok(history_taken(alloc)),
    }
}

// `run` with all its flags.
fn kept_run_taken<'a>(alloc: Global) -> Result<clap::Command<'a>, OutOfMemory>
    ensures { IfOk result (λ command. app_of command ≡ kept_run_taken) }
{
    with_keep_flags(alloc, "run")
}

// `step` with all its flags.
fn kept_step_taken<'a>(alloc: Global) -> Result<clap::Command<'a>, OutOfMemory>
    ensures { IfOk result (λ command. app_of command ≡ kept_step_taken) }
{
    with_keep_flags(alloc, "step")
}

// `history`.
fn history_taken<'a>(alloc: Global) -> clap::Command<'a>
    ensures { app_of result ≡ history_taken }
{
    bare(alloc, "history")
}

// A command with the flags of trace lines, those of the archive, and the number of a leg as a plain text.
fn with_keep_flags<'a>(alloc: Global, name: &'a str) -> Result<clap::Command<'a>, OutOfMemory>
    ensures { IfOk result (λ command. app_of command ≡ with_keep_flags name.entry.now) }
{
    Ok(
        with_flags(alloc, name)?
            .arg(flag(alloc, "keep"))?
            .arg(flag(alloc, "resume"))?
            .arg(option(alloc, "at"))?,
    )
}

// An option that may stand anywhere behind the command, `--` and its name, with one text behind it.
fn option<'a>(alloc: Global, name: &'a str) -> Arg<'a>
    ensures rule { rule_of result ≡ option name.entry.now }
    ensures local { result.global ≡ false }
{
    Arg::new(alloc, name).long(name).action(ArgAction::Set)
}
