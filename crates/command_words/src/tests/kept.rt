// Tables of words where an archive is at hand, and what they stand for.
use super::{size, strings};
use crate::{Command, KeepFlags, KeptCommand, Resume, TraceFlags};
use std::alloc::Global;
use std::test::Fail;

// What these words stand for.
fn read(alloc: Global, words: &[&str]) -> Result<Option<KeptCommand>, Fail> {
    let all = strings(alloc, words)?;
    match KeptCommand::from_words(alloc, &all) {
        Ok(command) => Ok(command),
        Err(_) => Err(Fail::from("want of memory")),
    }
}

// The trace lines of these flags.
fn traces(trace: bool, sources: bool) -> TraceFlags {
    TraceFlags { trace, sources }
}

// Nothing but keeping.
fn keeping() -> KeepFlags {
    KeepFlags {
        keep: true,
        resume: None,
    }
}

// Going on from a state, with or without keeping.
fn resuming(keep: bool, resume: Resume) -> KeepFlags {
    KeepFlags {
        keep,
        resume: Some(resume),
    }
}

// The command `run` without trace lines.
fn run(keeps: KeepFlags) -> Option<KeptCommand> {
    Some(KeptCommand::Run(traces(false, false), keeps))
}

// The command `step` without trace lines.
fn step(keeps: KeepFlags) -> Option<KeptCommand> {
    Some(KeptCommand::Step(traces(false, false), keeps))
}

// The command `step` with all trace lines.
fn traced(keeps: KeepFlags) -> Option<KeptCommand> {
    Some(KeptCommand::Step(traces(true, true), keeps))
}

#[test]
fn words_with_an_archive_stand_for_commands(rt: HostRuntime) -> Result<(), Fail> {
    let rows: [(&[&str], Option<KeptCommand>); 12] = [
        (&["run", "--keep"], run(keeping())),
        (&["run", "--resume"], run(resuming(false, Resume::Last))),
        (
            &["run", "--resume", "--keep"],
            run(resuming(true, Resume::Last)),
        ),
        (
            &["run", "--resume", "--at", "2"],
            run(resuming(false, Resume::At(2))),
        ),
        (&["step", "--keep"], step(keeping())),
        (&["step", "--resume"], step(resuming(false, Resume::Last))),
        (
            &["step", "--keep", "--resume"],
            step(resuming(true, Resume::Last)),
        ),
        (
            &["step", "--resume", "--at", "1"],
            step(resuming(false, Resume::At(1))),
        ),
        (
            &["step", "--at", "1", "--resume"],
            step(resuming(false, Resume::At(1))),
        ),
        (
            &["step", "--at", "1000", "--keep", "--resume"],
            step(resuming(true, Resume::At(1000))),
        ),
        (
            &["step", "--resume", "--keep", "--at", "37"],
            step(resuming(true, Resume::At(37))),
        ),
        (&["history"], Some(KeptCommand::History)),
    ];
    for (words, command) in rows {
        assert!(rt; read(rt.alloc(), words)? == command);
    }
    Ok(())
}

#[test]
fn flags_stand_in_any_order(rt: HostRuntime) -> Result<(), Fail> {
    let rows: [&[&str]; 10] = [
        &["step", "--trace", "--sources", "--keep", "--resume"],
        &["step", "--resume", "--keep", "--sources", "--trace"],
        &["step", "--keep", "--trace", "--resume", "--sources"],
        &["step", "--sources", "--resume", "--trace", "--keep"],
        &["step", "--trace", "--keep", "--sources", "--resume"],
        &["step", "--trace", "--resume", "--sources", "--keep"],
        &["step", "--sources", "--keep", "--trace", "--resume"],
        &["step", "--keep", "--resume", "--trace", "--sources"],
        &["step", "--resume", "--trace", "--keep", "--sources"],
        &["step", "--keep", "--sources", "--resume", "--trace"],
    ];
    for words in rows {
        assert!(rt; read(rt.alloc(), words)? == traced(resuming(true, Resume::Last)));
    }
    Ok(())
}

#[test]
fn a_leg_stands_anywhere_among_the_flags(rt: HostRuntime) -> Result<(), Fail> {
    let rows: [&[&str]; 5] = [
        &[
            "step",
            "--at",
            "7",
            "--trace",
            "--sources",
            "--keep",
            "--resume",
        ],
        &[
            "step",
            "--trace",
            "--at",
            "7",
            "--resume",
            "--keep",
            "--sources",
        ],
        &[
            "step",
            "--resume",
            "--keep",
            "--at",
            "7",
            "--sources",
            "--trace",
        ],
        &[
            "step",
            "--keep",
            "--resume",
            "--sources",
            "--at",
            "7",
            "--trace",
        ],
        &[
            "step",
            "--sources",
            "--keep",
            "--trace",
            "--resume",
            "--at",
            "7",
        ],
    ];
    for words in rows {
        assert!(rt; read(rt.alloc(), words)? == traced(resuming(true, Resume::At(7))));
    }
    Ok(())
}

#[test]
fn words_without_an_archive_are_read_as_before(rt: HostRuntime) -> Result<(), Fail> {
    let rows: [(&[&str], Command); 8] = [
        (&["run"], Command::Run(traces(false, false))),
        (
            &["run", "--sources", "--trace"],
            Command::Run(traces(true, true)),
        ),
        (&["step", "--trace"], Command::Step(traces(true, false))),
        (&["check"], Command::Check),
        (&["central"], Command::Central),
        (&["frames"], Command::Frames),
        (&["make", "3", "5", "1"], Command::Make(size(3, 5, 1))),
        (&["load", "3", "5", "1"], Command::Load(size(3, 5, 1))),
    ];
    for (words, command) in rows {
        assert!(rt; read(rt.alloc(), words)? == Some(KeptCommand::Plain(command)));
    }
    Ok(())
}

#[test]
fn other_words_with_an_archive_are_not_accepted(rt: HostRuntime) -> Result<(), Fail> {
    let rows: [&[&str]; 46] = [
        &[],
        &[""],
        &["run", "--fast"],
        &["run", "--trace", "--trace"],
        &["run", "--keep", "--keep"],
        &["run", "--keep", "--trace", "--trace"],
        &["step", "--resume", "--resume"],
        &["step", "--sources", "--keep", "--sources"],
        &["step", "--keep", "--resume", "--keep"],
        &["step", "--at", "1"],
        &["step", "--keep", "--at", "1"],
        &["run", "--trace", "--at", "1"],
        &["step", "--resume", "--at"],
        &["step", "--at", "--resume"],
        &["step", "--at", "--resume", "1"],
        &["step", "--resume", "--at", "--keep", "1"],
        &["step", "--resume", "--at", "1", "--at", "1"],
        &["step", "--at", "1", "--resume", "--at", "2"],
        &["step", "--resume", "--at", "1", "2"],
        &["step", "--resume", "1"],
        &["step", "--resume", "--at=1"],
        &["step", "--at=1", "--resume"],
        &["step", "--resume", "--at", "0"],
        &["step", "--resume", "--at", "01"],
        &["step", "--resume", "--at", "1001"],
        &["step", "--resume", "--at", "99999999999999999999"],
        &["step", "--resume", "--at", "+1"],
        &["step", "--resume", "--at", "-1"],
        &["step", "--resume", "--at", ""],
        &["step", "--resume", "--at", " 1"],
        &["step", "--resume=1"],
        &["step", "--keep=true"],
        &["step", "--keep", "--"],
        &["step", "--", "--keep"],
        &["step", "--resume", "--at", "--", "1"],
        &["step", "--keep", "--help"],
        &["step", "--help"],
        &["step", "--Keep"],
        &["step", "--kee"],
        &["step", "keep"],
        &["history", "x"],
        &["history", "--keep"],
        &["history", "history"],
        &["history", "--"],
        &["History"],
        &["check", "--keep"],
    ];
    for words in rows {
        assert!(rt; read(rt.alloc(), words)?.is_none());
    }
    Ok(())
}

#[test]
fn words_with_an_archive_need_one(rt: HostRuntime) -> Result<(), Fail> {
    let rows: [&[&str]; 4] = [
        &["run", "--keep"],
        &["step", "--resume"],
        &["step", "--resume", "--at", "1"],
        &["history"],
    ];
    for words in rows {
        let all = strings(rt.alloc(), words)?;
        let command = Command::from_words(rt.alloc(), &all);
        assert!(rt; command == Ok(None));
    }
    Ok(())
}
