// An archive in a table.
ghost use Rattle.std.specs.Prelude.{◌≡◌, ◌≤◌, None, refl};
ghost use Rattle.svc_value.specs.Causes.{Rose};

use crate::sql::{load_last, load_leg, load_legs, save_state};
use crate::{Archive, KeepError, Keeper, Legs, Opener};
use sqlite::{Connection, Error, ErrorCode};
use std::alloc::Global;
use svc_value::Bytes;

/// An archive in a table of a database. It tells neither what it keeps nor the last saved state.
///
/// Each refusal of the database, but for want of memory, is counted and answered as `Failed`.
#[derive(Drop)]
pub struct SqliteArchive<O: Opener + Drop> {
    alloc: Global,
    opener: O,
    connection: Option<Connection<O::Store>>,
    faults: u64,
}

impl<O: Opener + Drop> SqliteArchive<O> {
    /// An archive that has not failed. It takes no memory and opens nothing: each call asks `opener` for a connection as long
    /// as there is none. Lists of legs are in memory of `alloc`.
    pub fn new(alloc: Global, opener: O) -> SqliteArchive<O>
        ensures { result.faults ≡ 0 }
    {
        SqliteArchive {
            alloc,
            opener,
            connection: None,
            faults: 0,
        }
    }
}

impl<O: Opener + Drop> Keeper for SqliteArchive<O> {
    ghost saved = { λ _. None };

    ghost kept = { λ _. None };

    ghost faults = { λ a. a.faults };

    fn save(&mut self, leg: u32, state: &[u8]) -> Result<(), KeepError> {
        match save_state(&mut self.opener, &mut self.connection, leg, state) {
            Ok(()) => Ok(()),
            Err(error) => Err(counted(&mut self.faults, error)),
        }
    }

    fn load(&mut self) -> Result<Option<Bytes>, KeepError> {
        match load_last(&mut self.opener, &mut self.connection) {
            Ok(found) => Ok(found),
            Err(error) => Err(counted(&mut self.faults, error)),
        }
    }
}

impl<O: Opener + Drop> Archive for SqliteArchive<O> {
    fn load_at(&mut self, leg: u32) -> Result<Option<Bytes>, KeepError> {
        match load_leg(&mut self.opener, &mut self.connection, leg) {
            Ok(found) => Ok(found),
            Err(error) => Err(counted(&mut self.faults, error)),
        }
    }

    fn legs(&mut self) -> Result<Legs, KeepError> {
        match load_legs(self.alloc, &mut self.opener, &mut self.connection) {
            Ok(legs) => Ok(legs),
            Err(error) => Err(counted(&mut self.faults, error)),
        }
    }

    ghost agrees = { λ _. refl };
}

// What a refusal is answered as; it is counted, but for want of memory.
fn counted(faults: &mut u64, error: Error) -> KeepError
    ensures later { faults.old ≤ faults.new }
    ensures failed { result ≡ KeepError.Failed → Rose faults.old faults.new }
{
    match error {
        Error::SqliteFailure(ErrorCode::OutOfMemory) => KeepError::OutOfMemory,
        _ => {
            *faults = faults.saturating_add(1);
            KeepError::Failed
        }
    }
}
