// Tables of words, and what they stand for.
use crate::{Command, Size, TraceFlags};
use std::alloc::Global;
use std::test::Fail;

mod kept;

// These words.
fn strings(alloc: Global, words: &[&str]) -> Result<Vec<String>, Fail> {
    let mut all = Vec::new(alloc);
    for word in words {
        all.push(String::from_str(alloc, word)?)?;
    }
    Ok(all)
}

// What these words stand for.
fn read(alloc: Global, words: &[&str]) -> Result<Option<Command>, Fail> {
    let all = strings(alloc, words)?;
    match Command::from_words(alloc, &all) {
        Ok(command) => Ok(command),
        Err(_) => Err(Fail::from("want of memory")),
    }
}

// What they stand for where no threads are at hand.
fn read_plain(alloc: Global, words: &[&str]) -> Result<Option<Command>, Fail> {
    let all = strings(alloc, words)?;
    match Command::from_plain_words(alloc, &all) {
        Ok(command) => Ok(command),
        Err(_) => Err(Fail::from("want of memory")),
    }
}

// The size with these numbers.
fn size(services: u16, changes: u16, start: u32) -> Size {
    Size {
        services,
        changes,
        start,
    }
}

// The command `run` with these flags.
fn run(trace: bool, sources: bool) -> Command {
    Command::Run(TraceFlags { trace, sources })
}

// The command `step` with these flags.
fn step(trace: bool, sources: bool) -> Command {
    Command::Step(TraceFlags { trace, sources })
}

#[test]
fn words_stand_for_commands(rt: HostRuntime) -> Result<(), Fail> {
    let rows: [(&[&str], Command); 19] = [
        (&["run"], run(false, false)),
        (&["run", "--trace"], run(true, false)),
        (&["run", "--sources"], run(false, true)),
        (&["run", "--trace", "--sources"], run(true, true)),
        (&["run", "--sources", "--trace"], run(true, true)),
        (&["step"], step(false, false)),
        (&["step", "--trace"], step(true, false)),
        (&["step", "--sources"], step(false, true)),
        (&["step", "--trace", "--sources"], step(true, true)),
        (&["step", "--sources", "--trace"], step(true, true)),
        (&["check"], Command::Check),
        (&["central"], Command::Central),
        (&["frames"], Command::Frames),
        (&["make", "3", "5", "1"], Command::Make(size(3, 5, 1))),
        (&["make", "2", "2", "0"], Command::Make(size(2, 2, 0))),
        (&["make", "64", "64", "1"], Command::Make(size(64, 64, 1))),
        (
            &["make", "64", "1024", "65536"],
            Command::Make(size(64, 1024, 65536)),
        ),
        (&["load", "3", "5", "1"], Command::Load(size(3, 5, 1))),
        (
            &["load", "64", "1024", "65536"],
            Command::Load(size(64, 1024, 65536)),
        ),
    ];
    for (words, command) in rows {
        assert!(rt; read(rt.alloc(), words)? == Some(command));
    }
    Ok(())
}

#[test]
fn other_words_are_not_accepted(rt: HostRuntime) -> Result<(), Fail> {
    let rows: [&[&str]; 46] = [
        &[],
        &[""],
        &["run", "--fast"],
        &["run", "--trace", "--trace"],
        &["run", "--sources", "--trace", "--sources"],
        &["run", "--trace", "--"],
        &["run", "--trace=1"],
        &["run", "--keep"],
        &["run", ""],
        &["run", "run"],
        &["run", "step"],
        &["Run"],
        &["step", "--trace", "--trace"],
        &["step", "--sources", "--sources"],
        &["step", "--sources", "--trace", "--sources"],
        &["step", "--trace", "--sources", "--trace"],
        &["step", "--sources", "--trace", "--sources", "--trace"],
        &["step", "--trace", "x"],
        &["step", "x", "--trace"],
        &["step", "--trace", "--", "--sources"],
        &["step", "--trace", "--"],
        &["step", "--", "--trace"],
        &["step", "--"],
        &["step", "--trace=1"],
        &["step", "--trace="],
        &["step", "--tr"],
        &["step", "--Trace"],
        &["step", "-trace"],
        &["step", "trace"],
        &["step", "-t"],
        &["step", "--keep"],
        &["step", "--trace", "--keep"],
        &["step", ""],
        &["step", "--help"],
        &["step", "step"],
        &["--trace", "step"],
        &["check", "--trace"],
        &["check", "check"],
        &["check", "--"],
        &["check", ""],
        &["--", "check"],
        &["--help"],
        &["-h"],
        &["help"],
        &["Step"],
        &["frames "],
    ];
    for words in rows {
        assert!(rt; read(rt.alloc(), words)?.is_none());
    }
    Ok(())
}

#[test]
fn words_of_run_need_threads(rt: HostRuntime) -> Result<(), Fail> {
    let rows: [&[&str]; 4] = [
        &["run"],
        &["run", "--trace"],
        &["run", "--sources", "--trace"],
        &["run", "--fast"],
    ];
    for words in rows {
        assert!(rt; read_plain(rt.alloc(), words)?.is_none());
    }
    let traced = read_plain(rt.alloc(), &["step", "--trace"])?;
    assert!(rt; traced == Some(step(true, false)));
    let made = read_plain(rt.alloc(), &["make", "3", "5", "1"])?;
    assert!(rt; made == Some(Command::Make(size(3, 5, 1))));
    Ok(())
}

#[test]
fn other_sizes_are_not_accepted(rt: HostRuntime) -> Result<(), Fail> {
    let rows: [&[&str]; 28] = [
        &["make"],
        &["make", "3", "5"],
        &["make", "3", "5", "1", "1"],
        &["make", "--", "3", "5"],
        &["make", "--", "3", "5", "1"],
        &["make", "3", "5", "--help"],
        &["make", "1", "5", "1"],
        &["make", "2", "1", "1"],
        &["make", "65", "70", "1"],
        &["make", "64", "1025", "1"],
        &["make", "64", "1024", "65537"],
        &["make", "3", "05", "1"],
        &["make", "3", "5", "00"],
        &["make", "+3", "5", "1"],
        &["make", "3", "-5", "1"],
        &["make", "3", "5", ""],
        &["make", "3", "5", " 1"],
        &["make", "3", "5", "99999999999999999999"],
        &["make", "3", "5", "1", "--trace"],
        &["load"],
        &["load", "3", "5"],
        &["load", "3", "5", "1", "1"],
        &["load", "3", "5", "1", "--trace"],
        &["load", "--trace", "3", "5", "1"],
        &["load", "--", "3", "5", "1"],
        &["load", "1", "5", "1"],
        &["load", "3", "05", "1"],
        &["load", "64", "1024", "65537"],
    ];
    for words in rows {
        assert!(rt; read(rt.alloc(), words)?.is_none());
    }
    Ok(())
}
