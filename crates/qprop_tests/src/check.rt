// Documents that are checked.
use crate::calls::{Ended, SUM, call, repeated};
use qprop_cli::{MAX_DOCUMENT_LEN, Status};
use std::alloc::Global;
use std::test::Fail;

fn check(alloc: Global, document: &[u8]) -> Result<Ended, Fail> {
    call(alloc, "check", document)
}

// Three services, of which two are derived.
const THREE: &str =
    "input x : int = 1\nderived a : int rank 1 = x\nderived b : int rank 1 = sum()\n";

// Two inputs, and two derived services, of which the last has members.
const FOUR: &str =
    "input x : int = 2\ninput y : int = 5\nderived a : int rank 1 = x + 1\nderived n : int rank 2 = sum() over a, y\n";

#[test]
fn documents_are_counted(rt: HostRuntime) -> Result<(), Fail> {
    let alloc = rt.alloc();
    let rows = [
        (SUM, "accepted services=3 changes=4 settles=2\n"),
        (
            "input a : int = 1\ninput b : int = 2\nderived t : int rank 5 = a + b\nderived u : int rank 6 = t + a over b\ndrop u b\n",
            "accepted services=4 changes=5 settles=1\n",
        ),
        ("", "accepted services=0 changes=0 settles=0\n"),
        (
            "settle\nsettle\n",
            "accepted services=0 changes=0 settles=2\n",
        ),
    ];
    for (document, line) in rows {
        let ended = check(alloc, document.as_bytes())?;
        assert!(rt; ended.status == Status::Done, "{document}");
        assert!(rt; !ended.has_network, "{document}");
        assert!(rt; ended.held.as_slice() == line.as_bytes(), "{document}");
    }
    Ok(())
}

// What the command writes where the line stands behind the document.
fn refused(alloc: Global, word: &str, before: &str, line: &str) -> Result<Vec<u8>, Fail> {
    let mut document = Vec::from_slice(alloc, before.as_bytes())?;
    document.extend_from_slice(line.as_bytes())?;
    Ok(call(alloc, word, document.as_slice())?.held)
}

#[test]
fn refused_lines_have_their_least_code(rt: HostRuntime) -> Result<(), Fail> {
    let alloc = rt.alloc();
    let rows = [
        (THREE, "add b a", "refused 4 E09\n"),
        (THREE, "add b b", "refused 4 E09\n"),
        (THREE, "add b q", "refused 4 E08\n"),
        (THREE, "add x a", "refused 4 E14\n"),
        (THREE, "set a = 1", "refused 4 E13\n"),
        (THREE, "set x = \"1\"", "refused 4 E10\n"),
        (THREE, "drop a x", "refused 4 E16\n"),
        (THREE, "add a x", "refused 4 E15\n"),
        (THREE, "turn q", "refused 4 E08\n"),
        (THREE, "input x : int = 1", "refused 4 E05\n"),
        (THREE, "derived d : int rank 0 = q", "refused 4 E07\n"),
        (THREE, "derived d : int rank 1001 = d", "refused 4 E07\n"),
        (THREE, "derived d : int rank 1 = d", "refused 4 E08\n"),
        (THREE, "print x", "refused 4 E04\n"),
        (FOUR, "define x = y", "refused 5 E14\n"),
        (FOUR, "define a = n", "refused 5 E09\n"),
        (FOUR, "define a = a", "refused 5 E09\n"),
        (FOUR, "define a = x ++ \"1\"", "refused 5 E10\n"),
        (FOUR, "define n = text(x)", "refused 5 E10\n"),
        (FOUR, "define n = sum() over a, a", "refused 5 E15\n"),
        (FOUR, "define n = a over a", "refused 5 E15\n"),
        (FOUR, "define q = x", "refused 5 E08\n"),
    ];
    for (before, line, answer) in rows {
        for word in ["check", "step"] {
            let held = refused(alloc, word, before, line)?;
            assert!(rt; held.as_slice() == answer.as_bytes(), "{word} {line}");
        }
    }
    let held = refused(alloc, "check", THREE, "turn x")?;
    assert_eq!(rt; held.as_slice(), b"refused 4 E18\n".as_slice());
    Ok(())
}

// So many words `not ` before a name, behind an input.
fn denials(alloc: Global, count: usize) -> Result<Vec<u8>, Fail> {
    let before = "input x : int = 1\nderived d : int rank 1 = ";
    let mut document = repeated(alloc, before, "not ", count)?;
    document.extend_from_slice(b"x")?;
    Ok(document)
}

#[test]
fn depths_are_limited(rt: HostRuntime) -> Result<(), Fail> {
    let alloc = rt.alloc();
    let rows = [
        (31, "accepted services=2 changes=2 settles=1\n"),
        (32, "refused 2 E12\n"),
        (65, "refused 2 E04\n"),
    ];
    for (count, answer) in rows {
        let ended = check(alloc, denials(alloc, count)?.as_slice())?;
        assert!(rt; ended.held.as_slice() == answer.as_bytes(), "{count}");
    }
    Ok(())
}

// The chain of so many services behind an input, each one more than the one before.
fn chain(alloc: Global, count: u32) -> Result<Vec<u8>, Fail> {
    let mut document = Vec::from_slice(alloc, b"input s0 : int = 1\n")?;
    for rank in 1..=count {
        let before = rank - 1;
        let line = format!(in alloc; "derived s{rank} : int rank {rank} = s{before} + 1\n")?;
        document.extend_from_slice(line.as_bytes())?;
    }
    Ok(document)
}

#[test]
fn limits_are_exact(rt: HostRuntime) -> Result<(), Fail> {
    let alloc = rt.alloc();
    let x = "input x : int = 0\n";
    let rows = [
        (
            chain(alloc, 63)?,
            "accepted services=64 changes=64 settles=1\n",
        ),
        (chain(alloc, 64)?, "refused 65 E06\n"),
        (
            repeated(alloc, x, "set x = 1\n", 1023)?,
            "accepted services=1 changes=1024 settles=1\n",
        ),
        (
            repeated(alloc, x, "set x = 1\n", 1024)?,
            "refused 1025 E17\n",
        ),
        (
            repeated(alloc, "", "settle\n", 1000)?,
            "accepted services=0 changes=0 settles=1000\n",
        ),
        (repeated(alloc, "", "settle\n", 1001)?, "refused 1001 E19\n"),
        (repeated(alloc, "#", "c", 4096)?, "refused 1 E02\n"),
        (
            repeated(alloc, "#", "c", MAX_DOCUMENT_LEN)?,
            "refused 0 E01\n",
        ),
    ];
    for (document, answer) in rows {
        let ended = check(alloc, document.as_slice())?;
        assert!(rt; ended.held.as_slice() == answer.as_bytes(), "{answer}");
    }
    Ok(())
}
