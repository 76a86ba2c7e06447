// Bytes of states and of none.
use saved_state::{StateError, read_state, write_state};
use std::alloc::Global;
use std::test::Fail;

// Leg 1 with so many services.
const NONE: [u8; 9] = [0x51, 0x50, 0x53, 0x31, 0, 0, 0, 1, 0];

pub(crate) const ONE: [u8; 9] = [0x51, 0x50, 0x53, 0x31, 0, 0, 0, 1, 1];

const TWO: [u8; 9] = [0x51, 0x50, 0x53, 0x31, 0, 0, 0, 1, 2];

const THREE: [u8; 9] = [0x51, 0x50, 0x53, 0x31, 0, 0, 0, 1, 3];

// The inputs `a` of 3 and `b` of 4.
const A: [u8; 14] = [1, 0x61, 1, 0, 0, 1, 0, 0, 0, 0, 0, 0, 0, 3];

const B: [u8; 14] = [1, 0x62, 1, 0, 0, 1, 0, 0, 0, 0, 0, 0, 0, 4];

// `total` of rank 1, their sum.
const SUM: [u8; 21] = [
    5, 0x74, 0x6f, 0x74, 0x61, 0x6c, 1, 0, 1, 0, 0, 0, 7, 0x28, 0x61, 0x20, 0x2b, 0x20, 0x62, 0x29,
    0,
];

// What the bytes are read as: those of no state, or those of a state that is written as they are, or as others.
#[derive(Clone, Copy, Debug, PartialEq, Eq)]
pub(crate) enum Answer {
    Bad,
    Same,
    Other,
}

// What the bytes are read as.
pub(crate) fn read_back(alloc: Global, bytes: &[u8]) -> Result<Answer, Fail> {
    match read_state(alloc, bytes) {
        Ok(saved) => {
            let mut written = Vec::new(alloc);
            write_state(&saved, &mut written)?;
            if written.as_slice() == bytes {
                Ok(Answer::Same)
            } else {
                Ok(Answer::Other)
            }
        }
        Err(StateError::Bad) => Ok(Answer::Bad),
        Err(StateError::OutOfMemory) => Err(Fail::from("memory")),
    }
}

// Four pieces, one behind the other.
pub(crate) fn joined(
    alloc: Global,
    a: &[u8],
    b: &[u8],
    c: &[u8],
    d: &[u8],
) -> Result<Vec<u8>, Fail> {
    let mut bytes = Vec::new(alloc);
    bytes.extend_from_slice(a)?;
    bytes.extend_from_slice(b)?;
    bytes.extend_from_slice(c)?;
    bytes.extend_from_slice(d)?;
    Ok(bytes)
}

// The state of `a`, `b` and their sum.
fn total(alloc: Global) -> Result<Vec<u8>, Fail> {
    joined(alloc, &THREE, &A, &B, &SUM)
}

#[test]
fn a_state_reads_back(rt: HostRuntime) -> Result<(), Fail> {
    let bytes = total(rt.alloc())?;
    assert_eq!(rt; bytes.len(), 58);
    assert_eq!(rt; read_back(rt.alloc(), bytes.as_slice())?, Answer::Same);
    Ok(())
}

#[test]
fn the_empty_state_reads_back(rt: HostRuntime) -> Result<(), Fail> {
    assert_eq!(rt; read_back(rt.alloc(), &NONE)?, Answer::Same);
    Ok(())
}

const MASKS: [u8; 8] = [1, 2, 4, 8, 16, 32, 64, 128];

// What the state with one byte bent is read as.
fn bent(alloc: Global, at: usize, mask: u8) -> Result<Answer, Fail> {
    let mut bytes = total(alloc)?;
    if at < bytes.len() {
        bytes[at] = bytes[at] ^ mask;
    }
    read_back(alloc, bytes.as_slice())
}

// Whether each way to bend this byte gives the bytes of no state, or those of the state that is read.
fn is_exact(alloc: Global, at: usize) -> Result<bool, Fail> {
    for mask in MASKS {
        if bent(alloc, at, mask)? == Answer::Other {
            return Ok(false);
        }
    }
    Ok(true)
}

#[test]
fn bent_states_are_bad_or_others(rt: HostRuntime) -> Result<(), Fail> {
    for at in 0..58 {
        assert!(rt; is_exact(rt.alloc(), at)?, "byte {at}");
    }
    Ok(())
}

// What the first `len` bytes of the state are read as.
fn cut(alloc: Global, len: usize) -> Result<Answer, Fail> {
    let mut bytes = total(alloc)?;
    bytes.truncate(len);
    read_back(alloc, bytes.as_slice())
}

#[test]
fn cut_states_are_bad(rt: HostRuntime) -> Result<(), Fail> {
    for len in 0..58 {
        assert_eq!(rt; cut(rt.alloc(), len)?, Answer::Bad, "{len} bytes");
    }
    Ok(())
}

#[test]
fn longer_states_are_bad(rt: HostRuntime) -> Result<(), Fail> {
    let mut bytes = total(rt.alloc())?;
    bytes.push(0)?;
    assert_eq!(rt; read_back(rt.alloc(), bytes.as_slice())?, Answer::Bad);
    Ok(())
}

// Services that make no state behind `a`.
const BAD: [(&[u8], &[u8]); 12] = [
    // Another service `a`.
    (&A, &[]),
    // An input with the value of another type.
    (&[1, 0x62, 2, 0, 0, 1, 0, 0, 0, 0, 0, 0, 0, 4], &[]),
    // An input with a rank, and one with a fault.
    (&[1, 0x62, 1, 0, 1, 1, 0, 0, 0, 0, 0, 0, 0, 4], &[]),
    (&[1, 0x62, 1, 0, 0, 3, 1], &[]),
    // The expression `c`, whose service is unknown, and `b`, the service itself.
    (&[1, 0x62, 1, 0, 1, 0, 0, 0, 1], &[0x63, 0]),
    (&[1, 0x62, 1, 0, 1, 0, 0, 0, 1], &[0x62, 0]),
    // A rank above 1000.
    (&[1, 0x62, 1, 3, 0xe9, 0, 0, 0, 1], &[0x61, 0]),
    // Texts that are not canonical: `(a)` and `a `.
    (&[1, 0x62, 1, 0, 1, 0, 0, 0, 3], &[0x28, 0x61, 0x29, 0]),
    (&[1, 0x62, 1, 0, 1, 0, 0, 0, 2], &[0x61, 0x20, 0]),
    // The expression `1` of the type text.
    (&[1, 0x62, 2, 0, 1, 0, 0, 0, 1], &[0x31, 0]),
    // `a` as a name and as a member, and as a member twice.
    (&[1, 0x62, 1, 0, 1, 0, 0, 0, 1], &[0x61, 1, 0, 0]),
    (&[1, 0x62, 1, 0, 1, 0, 0, 0, 1], &[0x31, 2, 0, 0, 0, 0]),
];

#[test]
fn wrong_services_are_bad(rt: HostRuntime) -> Result<(), Fail> {
    for (first, rest) in BAD {
        let bytes = joined(rt.alloc(), &TWO, &A, first, rest)?;
        assert_eq!(rt;
            read_back(rt.alloc(), bytes.as_slice())?,
            Answer::Bad,
            "{first:?}"
        );
    }
    Ok(())
}

// Services that make a state behind `a`.
const GOOD: [(&[u8], &[u8]); 4] = [
    (&B, &[]),
    (&[1, 0x62, 2, 0, 0, 2, 0, 1, 0x78], &[]),
    (&[1, 0x62, 1, 3, 0xe8, 0, 0, 0, 1], &[0x61, 0]),
    (&[1, 0x62, 1, 0, 1, 0, 0, 0, 1], &[0x31, 1, 0, 0]),
];

#[test]
fn services_read_back(rt: HostRuntime) -> Result<(), Fail> {
    for (first, rest) in GOOD {
        let bytes = joined(rt.alloc(), &TWO, &A, first, rest)?;
        assert_eq!(rt;
            read_back(rt.alloc(), bytes.as_slice())?,
            Answer::Same,
            "{first:?}"
        );
    }
    Ok(())
}

// Appends `count` inputs of 0, whose names are a letter and one of the letters from `a` on.
fn put_inputs(count: u8, out: &mut Vec<u8>) -> Result<(), Fail> {
    for i in 0..count {
        let letter = 0x61u8.saturating_add(i % 16);
        let other = 0x61u8.saturating_add(i / 16);
        out.extend_from_slice(&[2, letter, other, 1, 0, 0, 1, 0, 0, 0, 0, 0, 0, 0, 0])?;
    }
    Ok(())
}

// The state of `count` inputs alone.
fn inputs(alloc: Global, count: u8) -> Result<Vec<u8>, Fail> {
    let mut bytes = joined(
        alloc,
        &[0x51, 0x50, 0x53, 0x31, 0, 0, 0, 1],
        &[count],
        &[],
        &[],
    )?;
    put_inputs(count, &mut bytes)?;
    Ok(bytes)
}

// 17 inputs and `z`, which counts the first so many of them.
fn counted(alloc: Global, count: u8) -> Result<Vec<u8>, Fail> {
    let mut bytes = joined(
        alloc,
        &[0x51, 0x50, 0x53, 0x31, 0, 0, 0, 1],
        &[18],
        &[],
        &[],
    )?;
    put_inputs(17, &mut bytes)?;
    bytes.extend_from_slice(&[1, 0x7a, 1, 0, 1, 0, 0, 0, 7])?;
    bytes.extend_from_slice(b"count()")?;
    bytes.push(count)?;
    for i in 0..count {
        bytes.extend_from_slice(&[0, i])?;
    }
    Ok(bytes)
}

#[test]
fn there_are_64_services_at_most(rt: HostRuntime) -> Result<(), Fail> {
    let most = inputs(rt.alloc(), 64)?;
    assert_eq!(rt; read_back(rt.alloc(), most.as_slice())?, Answer::Same);
    Ok(())
}

#[test]
fn there_are_not_65_services(rt: HostRuntime) -> Result<(), Fail> {
    let more = inputs(rt.alloc(), 65)?;
    assert_eq!(rt; read_back(rt.alloc(), more.as_slice())?, Answer::Bad);
    Ok(())
}

#[test]
fn there_are_16_dependencies_at_most(rt: HostRuntime) -> Result<(), Fail> {
    let most = counted(rt.alloc(), 16)?;
    assert_eq!(rt; read_back(rt.alloc(), most.as_slice())?, Answer::Same);
    Ok(())
}

#[test]
fn there_are_not_17_dependencies(rt: HostRuntime) -> Result<(), Fail> {
    let more = counted(rt.alloc(), 17)?;
    assert_eq!(rt; read_back(rt.alloc(), more.as_slice())?, Answer::Bad);
    Ok(())
}
