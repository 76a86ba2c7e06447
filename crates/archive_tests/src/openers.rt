// Openers that fail, and databases that refuse.
use crate::calls::{Call, first_wrong};
use sqlite::{Connection, Error, ErrorCode, MemStore};
use state_archive::{Archive, KeepError, Keeper, MemoryOpener, Opener, SqliteArchive};
use std::alloc::Global;

// Fails once with this error.
#[derive(Drop)]
struct FailingOnce {
    opener: MemoryOpener,
    error: Option<Error>,
}

impl Opener for FailingOnce {
    type Store = MemStore;

    fn connect(&mut self) -> Result<Connection<MemStore>, Error> {
        match self.error.take() {
            Some(error) => Err(error),
            None => self.opener.connect(),
        }
    }
}

// Opens a database that these statements made.
#[derive(Drop)]
struct Prepared {
    opener: MemoryOpener,
    statements: &'static str,
}

impl Opener for Prepared {
    type Store = MemStore;

    fn connect(&mut self) -> Result<Connection<MemStore>, Error> {
        let mut connection = self.opener.connect()?;
        connection.execute_batch(self.statements)?;
        Ok(connection)
    }
}

fn failing_once(alloc: Global, error: ErrorCode) -> SqliteArchive<FailingOnce> {
    let opener = FailingOnce {
        opener: MemoryOpener::new(alloc),
        error: Some(Error::SqliteFailure(error)),
    };
    SqliteArchive::new(alloc, opener)
}

fn archive_over(alloc: Global, statements: &'static str) -> SqliteArchive<Prepared> {
    let opener = Prepared {
        opener: MemoryOpener::new(alloc),
        statements,
    };
    SqliteArchive::new(alloc, opener)
}

#[test]
fn an_opener_is_asked_again(rt: HostRuntime) {
    let alloc = rt.alloc();
    let mut archive = failing_once(alloc, ErrorCode::CannotOpen);
    assert_eq!(rt; archive.save(1, b"one"), Err(KeepError::Failed));
    assert_eq!(rt;
        first_wrong(
            &mut archive,
            &[Call::Legs(&[]), Call::Save(2, b"two"), Call::Legs(&[2])]
        ),
        None
    );
}

#[test]
fn want_of_memory_is_told_apart(rt: HostRuntime) {
    let mut archive = failing_once(rt.alloc(), ErrorCode::OutOfMemory);
    assert_eq!(rt; archive.save(1, b"one"), Err(KeepError::OutOfMemory));
    assert_eq!(rt;
        first_wrong(&mut archive, &[Call::Legs(&[]), Call::Save(2, b"two")]),
        None
    );
}

#[test]
fn a_save_that_fails_midway_is_undone(rt: HostRuntime) {
    let mut archive = archive_over(
        rt.alloc(),
        "CREATE TABLE kept (leg INTEGER PRIMARY KEY, bytes BLOB NOT NULL CHECK (length(bytes) < 6)) STRICT",
    );
    assert_eq!(rt;
        first_wrong(
            &mut archive,
            &[Call::Save(1, b"one"), Call::Save(2, b"two")]
        ),
        None
    );
    assert_eq!(rt; archive.save(1, b"too long"), Err(KeepError::Failed));
    assert_eq!(rt;
        first_wrong(
            &mut archive,
            &[
                Call::Legs(&[1, 2]),
                Call::Load(Some(b"two")),
                Call::Save(1, b"short"),
                Call::Legs(&[1])
            ]
        ),
        None
    );
}

#[test]
fn a_leg_that_is_no_u32_is_refused(rt: HostRuntime) {
    let mut archive = archive_over(
        rt.alloc(),
        "CREATE TABLE kept (leg INTEGER PRIMARY KEY, bytes BLOB NOT NULL) STRICT; INSERT INTO kept (leg, bytes) VALUES (4294967296, x'00')",
    );
    assert_eq!(rt; archive.legs().err(), Some(KeepError::Failed));
    assert_eq!(rt;
        first_wrong(&mut archive, &[Call::Save(3, b"three"), Call::Legs(&[3])]),
        None
    );
}

#[test]
fn a_table_of_another_form_is_refused(rt: HostRuntime) {
    let mut archive = archive_over(rt.alloc(), "CREATE TABLE kept (leg TEXT NOT NULL) STRICT");
    assert_eq!(rt; archive.save(1, b"one"), Err(KeepError::Failed));
    assert_eq!(rt; archive.load().err(), Some(KeepError::Failed));
    assert_eq!(rt; archive.load_at(1).err(), Some(KeepError::Failed));
}
