//! A store whose files are closed and opened again, over disks in memory.

use permit_samples::held::Held;
use permit_samples::offices::founder;
use permit_sql::reopen::reopen;
use permit_sql::store::SqlStore;
use sqlite::{Connection, FileStore, Options};
use sqlite_disk::{Files, Memory};
use std::alloc::Global;
use std::test::Fail;

/// An empty database, in files of its own.
fn in_files(alloc: Global) -> Result<Connection<FileStore<Memory>>, Fail> {
    let files = Files {
        log: Memory::new(alloc),
        db: Memory::new(alloc),
    };
    match Connection::open_files(alloc, files, Options::new(1)) {
        Ok(conn) => Ok(conn),
        Err((error, left)) => {
            drop(error);
            drop(left);
            Err(Fail::new("no database"))
        }
    }
}

/// A store that was just founded, in files of its own.
fn founded_in_files(alloc: Global) -> Result<SqlStore<FileStore<Memory>>, Fail> {
    let founder = Held::new(founder(alloc)?);
    let conn = in_files(alloc)?;
    match SqlStore::create(alloc, conn, &founder.value) {
        Ok(store) => Ok(store),
        Err((conn, _)) => {
            drop(conn);
            Err(Fail::new("no store"))
        }
    }
}

/// The name of party 1 in the database that is found when a store's files are opened again.
fn name_found_again(alloc: Global, store: SqlStore<FileStore<Memory>>) -> Result<String, Fail> {
    let mut conn = reopen(alloc, store, Options::new(2)).ok_or("a database")?;
    let row = conn.query_row("SELECT name FROM party WHERE id = 1 AND role = 4", &[])?;
    Ok(row.get(0)?)
}

#[test]
fn a_founded_store_is_opened_again(rt: HostRuntime) -> Result<(), Fail> {
    let name = name_found_again(rt.alloc(), founded_in_files(rt.alloc())?)?;
    assert_eq!(rt; name.as_str(), "Chief");
    Ok(())
}
