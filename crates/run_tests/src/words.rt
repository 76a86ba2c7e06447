// Words, with threads and without.
use crate::calls::{call, ends_with, plain_call};
use std::test::Fail;

const USAGE: &str =
    "usage: qprop run|step [--trace] [--sources] [--keep] [--resume [--at K]] | history | check | central | frames | make S C N | load S C N | judge\n";

// Words on each line; there are none on the first one.
const WORDS: &str = "\

run --fast
run --trace --trace
run --sources --trace --sources
run --
run --trace=1
run --keep
run --resume
run run
--trace run
history
judge
";

#[test]
fn other_words_write_the_usage_line(rt: HostRuntime) -> Result<(), Fail> {
    for words in WORDS.lines() {
        assert!(rt;
            ends_with(&rt, rt.alloc(), words, b"", 1, USAGE)?,
            "{words}"
        );
    }
    Ok(())
}

#[test]
fn run_needs_threads(rt: HostRuntime) -> Result<(), Fail> {
    for words in ["run", "run --trace", "run --trace --sources", "run --fast"] {
        let ended = plain_call(rt.alloc(), words, b"input a : int = 3\n")?;
        assert!(rt; ended.exit == 1, "{words}");
        assert!(rt; !ended.has_network, "{words}");
        assert!(rt; ended.text() == USAGE, "{words}");
    }
    Ok(())
}

#[test]
fn other_commands_need_none(rt: HostRuntime) -> Result<(), Fail> {
    let rows = [
        ("step", "input a : int = 3\n"),
        ("step --trace --sources", "input a : int = 3\nturn a\n"),
        ("check", "input a : int = 3\n"),
        ("central", "input a : int = 3\n"),
        ("central", "input a : int = 3\nturn a\n"),
        ("make 3 5 1", ""),
        ("load 3 5 1", ""),
        ("frames", ""),
    ];
    for (words, document) in rows {
        let ended = call(&rt, rt.alloc(), words, document.as_bytes())?;
        let plain = plain_call(rt.alloc(), words, document.as_bytes())?;
        assert!(rt; ended.exit == plain.exit, "{words}");
        assert!(rt; ended.has_network == plain.has_network, "{words}");
        assert!(rt; ended.text() == plain.text(), "{words}");
    }
    Ok(())
}
