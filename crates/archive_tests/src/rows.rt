// The same calls of each archive: what is kept, what is dropped, and what is not there.
use crate::calls::{Call, first_wrong, is_found};
use state_archive::{Keeper, MemoryArchive, MemoryKeeper, MemoryOpener, SqliteArchive};
use std::test::Fail;

// A network of the inputs `a` = 3 and `b` = 4 with their total, after leg 1.
const AFTER_ONE: &[u8] = &[
    0x51, 0x50, 0x53, 0x31, 0, 0, 0, 1, 3, 1, 0x61, 1, 0, 0, 1, 0, 0, 0, 0, 0, 0, 0, 3, 1, 0x62, 1,
    0, 0, 1, 0, 0, 0, 0, 0, 0, 0, 4, 5, 0x74, 0x6f, 0x74, 0x61, 0x6c, 1, 0, 1, 0, 0, 0, 7, 0x28,
    0x61, 0x20, 0x2b, 0x20, 0x62, 0x29, 0,
];

const CALLS: [Call; 27] = [
    Call::Legs(&[]),
    Call::Load(None),
    Call::LoadAt(1, None),
    Call::Save(1, AFTER_ONE),
    Call::Legs(&[1]),
    Call::Load(Some(AFTER_ONE)),
    Call::LoadAt(1, Some(AFTER_ONE)),
    Call::LoadAt(9, None),
    Call::Save(2, b"two"),
    Call::Legs(&[1, 2]),
    Call::Load(Some(b"two")),
    Call::LoadAt(1, Some(AFTER_ONE)),
    Call::Save(7, b""),
    Call::Save(4294967295, b"last"),
    Call::Legs(&[1, 2, 7, 4294967295]),
    Call::LoadAt(7, Some(b"")),
    Call::LoadAt(4294967295, Some(b"last")),
    Call::LoadAt(3, None),
    Call::Save(5, b"five"),
    Call::Legs(&[1, 2, 5]),
    Call::LoadAt(7, None),
    Call::Load(Some(b"five")),
    Call::Save(2, b"another two"),
    Call::Legs(&[1, 2]),
    Call::LoadAt(2, Some(b"another two")),
    Call::Save(0, b"none"),
    Call::Legs(&[0]),
];

#[test]
fn an_archive_in_memory_keeps_its_entries(rt: HostRuntime) {
    let mut archive = MemoryArchive::new(rt.alloc());
    assert_eq!(rt; first_wrong(&mut archive, &CALLS), None);
}

#[test]
fn an_archive_in_sql_keeps_its_entries(rt: HostRuntime) {
    let alloc = rt.alloc();
    let mut archive = SqliteArchive::new(alloc, MemoryOpener::new(alloc));
    assert_eq!(rt; first_wrong(&mut archive, &CALLS), None);
}

#[test]
fn two_archives_keep_their_own(rt: HostRuntime) {
    let alloc = rt.alloc();
    let opener = MemoryOpener::new(alloc);
    let mut first = SqliteArchive::new(alloc, opener);
    let mut second = SqliteArchive::new(alloc, opener);
    assert_eq!(rt; first_wrong(&mut first, &[Call::Save(1, b"one")]), None);
    assert_eq!(rt;
        first_wrong(&mut second, &[Call::Legs(&[]), Call::Save(2, b"two")]),
        None
    );
    assert_eq!(rt;
        first_wrong(&mut first, &[Call::Legs(&[1]), Call::Load(Some(b"one"))]),
        None
    );
}

#[test]
fn a_keeper_in_memory_keeps_the_last_state(rt: HostRuntime) -> Result<(), Fail> {
    let mut keeper = MemoryKeeper::new(rt.alloc());
    assert!(rt; is_found(keeper.load()?, None));
    keeper.save(2, AFTER_ONE)?;
    keeper.save(1, b"one")?;
    assert!(rt; is_found(keeper.load()?, Some(b"one")));
    assert!(rt; is_found(keeper.load()?, Some(b"one")));
    Ok(())
}
