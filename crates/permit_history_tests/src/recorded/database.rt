//! The databases that the commands leave, in memory.

use crate::recorded::served::{chief_digest, day, letters, lines};
use permit_replay::alike::unordered::Unordered;
use permit_replay::beginning::Beginning;
use permit_replay::opening::bringing::bring;
use permit_sql::store::SqlStore;
use permit_store::founder::Founder;
use sqlite::{Connection, MemStore};
use std::alloc::Global;
use std::test::Fail;

/// The store of a database in memory.
pub(crate) type Database = SqlStore<MemStore>;

/// A database that was just founded.
fn founded(alloc: Global) -> Result<Database, Fail> {
    let name = letters(alloc, "Chief")?;
    let founder = Founder::new(name, chief_digest(alloc)?, day(19700)?).ok_or("a founder")?;
    let conn = Connection::open_in_memory(alloc)?;
    match SqlStore::create(alloc, conn, &founder) {
        Ok(store) => Ok(store),
        Err(_) => Err("no database".into()),
    }
}

/// The database of the founding and of so many commands.
pub(crate) fn database(alloc: Global, count: usize) -> Result<Database, Fail> {
    let lines = lines(alloc, count)?;
    let mut kept = Unordered {
        store: founded(alloc)?,
    };
    let (mut source, mut again) = (lines.as_slice(), lines.as_slice());
    match bring(
        alloc,
        Beginning::Founding,
        &mut kept,
        &mut source,
        &mut again,
    ) {
        Ok(_) => {
            let Unordered { store } = kept;
            Ok(store)
        }
        Err(_) => Err("no such lines".into()),
    }
}
