//! The store over memory, with ample memory.

use permit_mirror::indexed::Indexed;
use permit_mirror::mirrored::Mirrored;
use permit_office::office::Office;
use permit_samples::held::Held;
use permit_samples::offices::{founder, office_over};
use permit_samples::standard::POLICY;
use permit_sql::store::SqlStore;
use permit_store::plain::PlainStore;
use permit_store::store::OpenError;
use sqlite::{Connection, MemStore};
use std::alloc::Global;
use std::test::Fail;

/// A store that was just founded.
pub(crate) fn founded(alloc: Global) -> Result<SqlStore<MemStore>, Fail> {
    let founder = Held::new(founder(alloc)?);
    let conn = Connection::open_in_memory(alloc)?;
    match SqlStore::create(alloc, conn, &founder.value) {
        Ok(store) => Ok(store),
        Err((conn, why)) => {
            drop(conn);
            Err(why)?
        }
    }
}

/// The store in a database.
pub(crate) fn opened(
    alloc: Global,
    conn: Connection<MemStore>,
) -> Result<SqlStore<MemStore>, Fail> {
    match SqlStore::open(alloc, conn) {
        Ok(store) => Ok(store),
        Err((conn, why)) => {
            drop(conn);
            Err(why)?
        }
    }
}

/// Why there is no founding in a database. None where there is one.
pub(crate) fn refusal_to_create(
    alloc: Global,
    conn: Connection<MemStore>,
) -> Result<Option<OpenError>, Fail> {
    let conn = Held::new(conn);
    let founder = founder(alloc)?;
    match SqlStore::create(alloc, conn.into_inner(), &founder) {
        Ok(store) => {
            drop(store);
            Ok(None)
        }
        Err((conn, why)) => {
            drop(conn);
            Ok(Some(why))
        }
    }
}

/// Why a database isn't opened. None where it is.
pub(crate) fn refusal_to_open(alloc: Global, conn: Connection<MemStore>) -> Option<OpenError> {
    match SqlStore::open(alloc, conn) {
        Ok(store) => {
            drop(store);
            None
        }
        Err((conn, why)) => {
            drop(conn);
            Some(why)
        }
    }
}

/// The office of the rows after its founding, over a database.
pub(crate) fn over_database(alloc: Global) -> Result<Office<SqlStore<MemStore>>, Fail> {
    office_over(alloc, founded(alloc)?, POLICY)
}

/// The same with its tables in memory beside it.
pub(crate) fn over_memory_too(
    alloc: Global,
) -> Result<Office<Mirrored<SqlStore<MemStore>, Indexed<PlainStore>>>, Fail> {
    match Mirrored::load(alloc, founded(alloc)?) {
        Ok(store) => office_over(alloc, store, POLICY),
        Err((kept, why)) => {
            drop(kept);
            Err(why)?
        }
    }
}
