// The statements of the archive in SQL. What they do to the table is shown by tests; no clause speaks of it.
use crate::{Legs, Opener};
use sqlite::types::ToSql;
use sqlite::{Alter, Connection, Error, ErrorCode, Row, Transaction, params};
use std::alloc::Global;
use svc_value::Bytes;

const TABLE: &str =
    "CREATE TABLE IF NOT EXISTS kept (leg INTEGER PRIMARY KEY, bytes BLOB NOT NULL) STRICT";

const DELETE: &str = "DELETE FROM kept WHERE leg >= ?1";

const INSERT: &str = "INSERT INTO kept (leg, bytes) VALUES (?1, ?2)";

const LAST: &str = "SELECT bytes FROM kept ORDER BY leg DESC LIMIT 1";

const ENTRY: &str = "SELECT bytes FROM kept WHERE leg = ?1";

const LEGS: &str = "SELECT leg FROM kept ORDER BY leg";

// The connection; where there is none yet, the opener is asked for one, and its table is made.
fn connected<'a, O: Opener>(
    opener: &mut O,
    connection: &'a mut Option<Connection<O::Store>>,
) -> Result<&'a mut Connection<O::Store>, Error> {
    match connection {
        Some(connection) => Ok(connection),
        None => {
            let mut made = opener.connect()?;
            made.execute_batch(TABLE)?;
            Ok(connection.insert(made))
        }
    }
}

/// Keeps the state of a leg and drops those of this leg and above, both or neither: the transaction is rolled back where a
/// statement fails.
pub fn save_state<O: Opener>(
    opener: &mut O,
    connection: &mut Option<Connection<O::Store>>,
    leg: u32,
    state: &[u8],
) -> Result<(), Error> {
    let connection = connected(opener, connection)?;
    // A transaction that was dropped has ended, so none is ever under way here.
    if !connection.is_autocommit() {
        return Err(Error::SqliteFailure(ErrorCode::TransactionState));
    }
    let mut both = connection.transaction();
    both.execute(DELETE, params![leg])?;
    insert_state(&mut both, leg, state)?;
    both.commit()
}

fn insert_state<S: Alter>(
    both: &mut Transaction<'_, S>,
    leg: u32,
    state: &[u8],
) -> Result<usize, Error> {
    let (leg, state) = (leg.to_sql(), state.to_sql());
    both.execute(INSERT, &[leg, state])
}

/// The state of the greatest leg, if there is one.
pub fn load_last<O: Opener>(
    opener: &mut O,
    connection: &mut Option<Connection<O::Store>>,
) -> Result<Option<Bytes>, Error> {
    let connection = connected(opener, connection)?;
    bytes_of(connection.query_row(LAST, &[]))
}

/// The state of a leg, if there is one.
pub fn load_leg<O: Opener>(
    opener: &mut O,
    connection: &mut Option<Connection<O::Store>>,
    leg: u32,
) -> Result<Option<Bytes>, Error> {
    let connection = connected(opener, connection)?;
    bytes_of(connection.query_row(ENTRY, params![leg]))
}

/// All legs that have a state, rising. A leg that is no `u32` is refused.
pub fn load_legs<O: Opener>(
    alloc: Global,
    opener: &mut O,
    connection: &mut Option<Connection<O::Store>>,
) -> Result<Legs, Error> {
    let connection = connected(opener, connection)?;
    let rows = connection.query_all(LEGS, &[])?;
    let mut legs = Vec::new(alloc);
    for row in &rows {
        legs.push(row.get::<u32>(0)?)?;
    }
    Ok(Legs::from_vec(legs))
}

// The bytes of the row that a query gave, if it gave one.
fn bytes_of(row: Result<Row, Error>) -> Result<Option<Bytes>, Error> {
    match row {
        Ok(row) => {
            let bytes: Vec<u8> = row.get(0)?;
            Ok(Some(Bytes::from_vec(bytes)))
        }
        Err(Error::QueryReturnedNoRows) => Ok(None),
        Err(error) => Err(error),
    }
}
