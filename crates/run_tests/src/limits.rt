// Documents at their limits.
use crate::calls::{ends_with, settles_to};
use std::alloc::Global;
use std::test::Fail;

// The chain of so many services behind an input, each one more than the one before.
fn chain(alloc: Global, count: u32) -> Result<Vec<u8>, Fail> {
    let mut document = Vec::from_slice(alloc, b"input s0 : int = 1\n")?;
    for rank in 1..=count {
        let before = rank - 1;
        let line = format!(in alloc; "derived s{rank} : int rank {rank} = s{before} + 1\n")?;
        document.extend_from_slice(line.as_bytes())?;
    }
    Ok(document)
}

// Its settled text.
fn chain_settled(alloc: Global) -> Result<String, Fail> {
    let mut text = String::from_str(alloc, "settle 1\n")?;
    for number in 0..=63u32 {
        let value = number + 1;
        let line = format!(in alloc; "s{number} {value}\n")?;
        text.push_str(line.as_str())?;
    }
    Ok(text)
}

// An input and the values from 1 to this one, one after the other.
fn all_values(alloc: Global, last: u32) -> Result<Vec<u8>, Fail> {
    let mut document = Vec::from_slice(alloc, b"input x : int = 0\n")?;
    for value in 1..=last {
        let line = format!(in alloc; "set x = {value}\n")?;
        document.extend_from_slice(line.as_bytes())?;
    }
    Ok(document)
}

// So many empty legs.
fn legs(alloc: Global, count: u32) -> Result<Vec<u8>, Fail> {
    let mut document = Vec::new(alloc);
    for _ in 0..count {
        document.extend_from_slice(b"settle\n")?;
    }
    Ok(document)
}

// Their settled text.
fn legs_settled(alloc: Global, count: u32) -> Result<String, Fail> {
    let mut text = String::new(alloc);
    for leg in 1..=count {
        let line = format!(in alloc; "settle {leg}\n")?;
        text.push_str(line.as_str())?;
    }
    Ok(text)
}

#[test]
fn the_longest_chain_settles(rt: HostRuntime) -> Result<(), Fail> {
    let alloc = rt.alloc();
    let document = chain(alloc, 63)?;
    let text = chain_settled(alloc)?;
    assert!(rt; settles_to(&rt, rt.alloc(), document.as_slice(), text.as_str())?);
    Ok(())
}

#[test]
fn the_most_changes_settle(rt: HostRuntime) -> Result<(), Fail> {
    let document = all_values(rt.alloc(), 1023)?;
    assert!(rt; settles_to(&rt, rt.alloc(), document.as_slice(), "settle 1\nx 1023\n")?);
    Ok(())
}

#[test]
fn the_most_legs_settle(rt: HostRuntime) -> Result<(), Fail> {
    let alloc = rt.alloc();
    let document = legs(alloc, 1000)?;
    let text = legs_settled(alloc, 1000)?;
    assert!(rt; settles_to(&rt, rt.alloc(), document.as_slice(), text.as_str())?);
    Ok(())
}

#[test]
fn one_more_is_refused(rt: HostRuntime) -> Result<(), Fail> {
    let alloc = rt.alloc();
    let rows = [
        (chain(alloc, 64)?, "refused 65 E06\n"),
        (all_values(alloc, 1024)?, "refused 1025 E17\n"),
        (legs(alloc, 1001)?, "refused 1001 E19\n"),
    ];
    for (document, answer) in rows {
        assert!(rt;
            ends_with(&rt, rt.alloc(), "run", document.as_slice(), 2, answer)?,
            "{answer}"
        );
    }
    Ok(())
}
