// Documents that are made.
use crate::calls::{Ended, call, called};
use qprop_cli::{Status, USAGE};
use std::alloc::Global;
use std::test::Fail;

const SMALL: &str =
    "input i1 : int = 149\nderived d1 : int rank 1 = sum() over i1\nderived d2 : int rank 2 = sum() over i1, d1\ndrop d2 d1\nset i1 = 742\nsettle\n";

#[test]
fn documents_are_made(rt: HostRuntime) -> Result<(), Fail> {
    let alloc = rt.alloc();
    let ended = called(alloc, &["make", "3", "5", "1"])?;
    assert!(rt; ended.status == Status::Done);
    assert!(rt; !ended.has_network);
    assert_eq!(rt; ended.held.as_slice(), SMALL.as_bytes());
    Ok(())
}

#[test]
fn other_sizes_write_the_usage_line(rt: HostRuntime) -> Result<(), Fail> {
    let alloc = rt.alloc();
    let rows: [&[&str]; 15] = [
        &["make"],
        &["make", "3", "5"],
        &["make", "3", "5", "1", "1"],
        &["make", "1", "5", "1"],
        &["make", "65", "70", "1"],
        &["make", "3", "2", "1"],
        &["make", "3", "1025", "1"],
        &["make", "3", "5", "65537"],
        &["make", "3", "05", "1"],
        &["make", "3", "5", "00"],
        &["make", "+3", "5", "1"],
        &["make", "3", "-5", "1"],
        &["make", "3", "5", ""],
        &["make", "3", "5", "1 "],
        &["make", "3", "5", "99999999999999999999"],
    ];
    for words in rows {
        let ended = called(alloc, words)?;
        assert!(rt; ended.status == Status::Usage);
        assert_eq!(rt; ended.held.as_slice(), USAGE.as_bytes());
    }
    let rows: [&[&str]; 2] = [&["make", "2", "2", "0"], &["make", "64", "1024", "65536"]];
    for words in rows {
        let ended = called(alloc, words)?;
        assert!(rt; ended.status == Status::Done);
    }
    Ok(())
}

// What `check` says of the document.
fn checked(alloc: Global, document: &[u8]) -> Result<Ended, Fail> {
    call(alloc, "check", document)
}

#[test]
fn made_documents_are_accepted(rt: HostRuntime) -> Result<(), Fail> {
    let alloc = rt.alloc();
    let made = called(alloc, &["make", "64", "1024", "7"])?;
    let ended = checked(alloc, made.held.as_slice())?;
    assert_eq!(rt;
        ended.held.as_slice(),
        b"accepted services=64 changes=1024 settles=1\n".as_slice()
    );
    Ok(())
}
