// States of one service with a long expression.
use crate::states::{Answer, ONE, joined, read_back};
use std::alloc::Global;
use std::test::Fail;

// The text in brackets behind a mark, with another after it.
fn wrapped(alloc: Global, open: &[u8], text: &[u8], rest: &[u8]) -> Result<Vec<u8>, Fail> {
    joined(alloc, open, text, rest, b")")
}

// A sum of so many ones, each behind the one before.
fn deep(alloc: Global, count: u8) -> Result<Vec<u8>, Fail> {
    let mut text = joined(alloc, b"1", &[], &[], &[])?;
    for _ in 0..count {
        text = wrapped(alloc, b"(", text.as_slice(), b" + 1")?;
    }
    Ok(text)
}

// A sum of 64 ones, in pairs.
fn wide(alloc: Global) -> Result<Vec<u8>, Fail> {
    let mut text = joined(alloc, b"1", &[], &[], &[])?;
    for _ in 0..6 {
        let right = joined(alloc, b" + ", text.as_slice(), &[], &[])?;
        text = wrapped(alloc, b"(", text.as_slice(), right.as_slice())?;
    }
    Ok(text)
}

// What the state of a service with this expression is read as.
fn of_text(alloc: Global, text: &[u8]) -> Result<Answer, Fail> {
    let Ok(len) = u16::try_from(text.len()) else {
        return Err(Fail::from("long"));
    };
    let head = joined(
        alloc,
        &ONE,
        &[1, 0x7a, 1, 0, 1, 0, 0],
        &len.to_be_bytes(),
        text,
    )?;
    let bytes = joined(alloc, head.as_slice(), &[0], &[], &[])?;
    read_back(alloc, bytes.as_slice())
}

#[test]
fn a_depth_of_32_is_read(rt: HostRuntime) -> Result<(), Fail> {
    let text = deep(rt.alloc(), 31)?;
    assert_eq!(rt; of_text(rt.alloc(), text.as_slice())?, Answer::Same);
    Ok(())
}

#[test]
fn a_depth_of_33_is_bad(rt: HostRuntime) -> Result<(), Fail> {
    let text = deep(rt.alloc(), 32)?;
    assert_eq!(rt; of_text(rt.alloc(), text.as_slice())?, Answer::Bad);
    Ok(())
}

#[test]
fn nodes_128_are_read(rt: HostRuntime) -> Result<(), Fail> {
    let sum = wide(rt.alloc())?;
    let text = joined(rt.alloc(), b"-", sum.as_slice(), &[], &[])?;
    assert_eq!(rt; of_text(rt.alloc(), text.as_slice())?, Answer::Same);
    Ok(())
}

#[test]
fn nodes_129_are_bad(rt: HostRuntime) -> Result<(), Fail> {
    let sum = wide(rt.alloc())?;
    let text = wrapped(rt.alloc(), b"(", sum.as_slice(), b" + 1")?;
    assert_eq!(rt; of_text(rt.alloc(), text.as_slice())?, Answer::Bad);
    Ok(())
}
