//! Databases over disks that fail: opened, closed, and opened again on what is left.
//!
//! What works on an office is generic over the store of its database: a call of it at the disks' own takes the prover long.

use crate::commands::{Begin, play_before};
use crate::disks::{Bytes, Fault, Trial, Trouble, sound_files};
use permit_samples::held::Held;
use permit_samples::offices::{founder, office_over};
use permit_samples::tables::tables_text;
use permit_sql::store::SqlStore;
use sqlite::{Alter, Connection, FileStore, Options};
use sqlite_disk::{Disk, Files};
use std::alloc::Global;
use std::test::Fail;

/// A connection over the disks.
pub(crate) type Conn = Connection<FileStore<Trial>>;

/// More calls than any run makes of a disk.
const MOST_CALLS: u64 = 5000;

/// So few pages are kept in memory that some are read again and some go to the log early, and the log is copied into the
/// database file within a run.
fn options() -> Options {
    let mut options = Options::new(1);
    options.cache_pages = 16;
    options.spill_pages = 16;
    options.checkpoint_frames = 16;
    options
}

/// The database in the files, or the files where a call failed.
pub(crate) fn connected<D: Disk + Drop>(
    alloc: Global,
    files: Files<D>,
) -> Result<Connection<FileStore<D>>, Files<D>> {
    if !files.may_be_used() {
        return Err(files);
    }
    match Connection::open_files(alloc, files, options()) {
        Ok(conn) => Ok(conn),
        Err((error, left)) => {
            drop(error);
            Err(left.into_files())
        }
    }
}

/// The files of a database that is closed, or whose closing failed.
pub(crate) fn closed<D: Disk + Drop>(conn: Connection<FileStore<D>>) -> Files<D> {
    match conn.close_files() {
        Ok(files) => files,
        Err((error, store)) => {
            drop(error);
            store.close()
        }
    }
}

/// The files of a database that is closed, or of one that was left as it was where the power was cut.
pub(crate) fn ended<D: Disk + Drop>(conn: Connection<FileStore<D>>, fault: Fault) -> Files<D> {
    match fault {
        Fault::Cut => conn.into_store().close(),
        Fault::Lasting | Fault::Single => closed(conn),
    }
}

/// The store in a database, which is founded there if it is to be new. Where that was refused, the database.
pub(crate) fn stored<S: Alter + Drop>(
    alloc: Global,
    conn: Connection<S>,
    begin: Begin,
) -> Result<Result<SqlStore<S>, Connection<S>>, Fail> {
    match begin {
        Begin::New => founded(alloc, conn),
        Begin::Framed | Begin::Opened => Ok(opened(alloc, conn)),
    }
}

/// The store that is founded in a database. Where that was refused, the database.
fn founded<S: Alter + Drop>(
    alloc: Global,
    conn: Connection<S>,
) -> Result<Result<SqlStore<S>, Connection<S>>, Fail> {
    let founder = Held::new(founder(alloc)?);
    match SqlStore::create(alloc, conn, &founder.value) {
        Ok(store) => Ok(Ok(store)),
        Err((conn, _)) => Ok(Err(conn)),
    }
}

/// The store that is there in a database. Where that was refused, the database.
fn opened<S: Alter + Drop>(
    alloc: Global,
    conn: Connection<S>,
) -> Result<SqlStore<S>, Connection<S>> {
    match SqlStore::open(alloc, conn) {
        Ok(store) => Ok(store),
        Err((conn, _)) => Err(conn),
    }
}

/// The database of a new store, after what comes before the commands.
fn played_over<S: Alter + Drop>(
    alloc: Global,
    store: SqlStore<S>,
    begin: Begin,
) -> Result<Connection<S>, Fail> {
    let mut office = Held::new(office_over(alloc, store, begin.policy())?);
    play_before(alloc, &mut office.value, begin)?;
    Ok(office.into_inner().into_store().into_connection())
}

/// The database of a new office, after what comes before the commands.
fn played<S: Alter + Drop>(
    alloc: Global,
    conn: Connection<S>,
    begin: Begin,
) -> Result<Connection<S>, Fail> {
    match founded(alloc, conn)? {
        Ok(store) => played_over(alloc, store, begin),
        Err(conn) => {
            drop(conn);
            Err(Fail::new("no new store"))
        }
    }
}

/// The same over disks that don't fail.
pub(crate) fn prepared(alloc: Global, begin: Begin) -> Result<Conn, Fail> {
    match connected(alloc, sound_files(alloc, &Bytes::none(alloc))?) {
        Ok(conn) => played(alloc, conn, begin),
        Err(files) => {
            drop(files);
            Err(Fail::new("no new database"))
        }
    }
}

/// The database that is found where files are opened again.
pub(crate) fn found(alloc: Global, bytes: &Bytes) -> Result<Conn, Fail> {
    match connected(alloc, sound_files(alloc, bytes)?) {
        Ok(conn) => Ok(conn),
        Err(files) => {
            drop(files);
            Err(Fail::new("files that can't be opened again"))
        }
    }
}

/// Whether an office can be founded in a database.
fn can_be_founded<S: Alter + Drop>(alloc: Global, conn: Connection<S>) -> Result<bool, Fail> {
    match founded(alloc, conn)? {
        Ok(store) => {
            drop(store);
            Ok(true)
        }
        Err(conn) => {
            drop(conn);
            Ok(false)
        }
    }
}

/// The tables in a database, which are sound. None where there is none of them, so that an office can be founded there.
pub(crate) fn tables_in<S: Alter + Drop>(
    alloc: Global,
    conn: Connection<S>,
) -> Result<Option<String>, Fail> {
    match SqlStore::open(alloc, conn) {
        Ok(store) => {
            let store = &mut Held::new(store).value;
            Ok(Some(tables_text(alloc, store)?))
        }
        Err((conn, why)) => {
            if can_be_founded(alloc, conn)? {
                return Ok(None);
            }
            Err(why)?
        }
    }
}

/// What is tried over disks of which one fails.
pub(crate) trait Tried {
    /// Whether the disk failed. Fails itself where something else is found after the trouble than may be.
    fn outlasts(&self, alloc: Global, trouble: Trouble) -> Result<bool, Fail>;
}

/// Tries with a trouble at every so many-th call of one of the files, from the first one on, until a run meets none. How many
/// calls failed.
fn count_outlasted<T: Tried>(
    alloc: Global,
    tried: &T,
    fault: Fault,
    is_in_log: bool,
    every: u64,
) -> Result<u64, Fail> {
    for turn in 0..MOST_CALLS {
        let trouble = Trouble {
            fault,
            is_in_log,
            before: turn.saturating_mul(every),
        };
        if !tried.outlasts(alloc, trouble)? {
            return Ok(turn);
        }
    }
    Err(Fail::new("no run without a failure"))
}

/// The same, and prints how many calls failed. Fails where none did.
pub(crate) fn outlasts_every<T: Tried>(
    rt: &(impl Print + AllocGlobal),
    tried: &T,
    fault: Fault,
    is_in_log: bool,
    every: u64,
) -> Result<(), Fail> {
    let calls = count_outlasted(rt.alloc(), tried, fault, is_in_log, every)?;
    if calls == 0 {
        return Err(Fail::new("no call that fails"));
    }
    let file = if is_in_log { "log" } else { "file" };
    println!(rt; "{calls} calls of the {file} failed in turn")?;
    Ok(())
}

/// The same at each call.
pub(crate) fn outlasts_each<T: Tried>(
    rt: &(impl Print + AllocGlobal),
    tried: &T,
    fault: Fault,
    is_in_log: bool,
) -> Result<(), Fail> {
    outlasts_every(rt, tried, fault, is_in_log, 1)
}
