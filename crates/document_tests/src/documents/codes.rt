// Lines that say nothing, and documents that are too long.
use crate::documents::{answer, others};
use std::alloc::{AllocError, Global};
use std::test::Fail;
use svc_text::Mode;

// A text of `count` equal bytes and an end.
fn long(alloc: Global, byte: u8, count: usize, end: &[u8]) -> Result<Vec<u8>, AllocError> {
    let mut text = vec![in alloc; byte; count]?;
    text.extend_from_slice(end)?;
    Ok(text)
}

#[test]
fn bytes_are_counted(rt: HostRuntime) -> Result<(), Fail> {
    let alloc = rt.alloc();
    let rows = [
        (4096, b"\nsettle".as_slice(), "0,0,0;"),
        (4097, b"\nsettle".as_slice(), "1 E02"),
        // A line that is too long goes before one of other bytes, which goes before one of other words.
        (4096, b"\xff\n".as_slice(), "1 E02"),
        (4095, b"\xff\nsettle".as_slice(), "1 E03"),
        (1_048_577, b"".as_slice(), "0 E01"),
    ];
    for (count, end, expected) in rows {
        let text = long(alloc, b'#', count, end)?;
        let answer = answer(alloc, text.as_slice(), Mode::Plain)?;
        assert_eq!(rt; answer.as_str(), expected, "after {count}");
    }
    let text = long(alloc, b'\n', 1_048_576, b"".as_slice())?;
    assert_eq!(rt; answer(alloc, text.as_slice(), Mode::Plain)?.as_str(), "");
    assert_eq!(rt;
        answer(alloc, b"settle \xff\n".as_slice(), Mode::Plain)?.as_str(),
        "1 E03"
    );
    Ok(())
}

#[test]
fn lines_outside_the_grammar_are_refused(rt: HostRuntime) -> Result<(), Fail> {
    let rows = [
        ("settle now", "1 E04"),
        ("input settle : int = 1", "1 E04"),
        ("input x : int = 9223372036854775808", "1 E04"),
        ("input x : int = - 1", "1 E04"),
        ("input x : int = x", "1 E04"),
        ("input x : bool = 1", "1 E04"),
        ("derived d : int = 1", "1 E04"),
        ("derived d : int rank 1 = sum() over", "1 E04"),
        ("add x", "1 E04"),
        ("take x y", "1 E04"),
        // The first refused line.
        ("\n\nset x = 1\nset y", "3 E08"),
        ("\n\nset x\nset y = 1", "3 E04"),
    ];
    let wrong = others(rt.alloc(), "", rows.as_slice(), Mode::Plain)?;
    assert_eq!(rt; wrong.as_str(), "");
    Ok(())
}
