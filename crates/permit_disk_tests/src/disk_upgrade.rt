//! An upgrade over two disks of which one fails, at each of its calls in turn: the database that is found again is of
//! version 1 whole, or of version 2 whole.

use crate::commands::{Begin, Commands};
use crate::disks::{Bytes, Fault, Told, Trouble, failing_files, left_by, untold};
use crate::trials::{Tried, closed, connected, ended, found, outlasts_each, prepared, tables_in};
use permit_samples::held::Held;
use permit_samples::upgrade::{UPGRADE, VERSION_1};
use permit_sql::store::SqlStore;
use permit_store::store::OpenError;
use sqlite::{Alter, Connection};
use sqlite_disk::{Disk, Files};
use std::alloc::Global;
use std::sync::atomic::Ordering;
use std::test::Fail;

/// A database of version 1 with a construction whose frame is approved: the bytes of its files, and its tables.
#[derive(Drop)]
struct Old {
    bytes: Bytes,
    tables: String,
}

impl Old {
    /// Fails where the files that are left hold other tables.
    fn is_left(
        &self,
        alloc: Global,
        left: &Bytes,
        trouble: Trouble,
        is_made: bool,
    ) -> Result<(), Fail> {
        let tables = tables_of(alloc, found(alloc, left)?, is_made)?;
        if tables.as_ref().map(|tables| tables.as_str()) == Some(self.tables.as_str()) {
            return Ok(());
        }
        Err(Fail::new(format!(in alloc; "{trouble:?}: {tables:?}")?))
    }

    fn new(alloc: Global) -> Result<Old, Fail> {
        let tables = tables_before(alloc)?;
        let mut conn = prepared(alloc, Begin::Framed)?;
        make_old(&mut conn)?;
        let files = closed(conn);
        let bytes = Bytes::of(alloc, &files)?;
        Ok(Old { bytes, tables })
    }
}

/// The tables after the construction.
fn tables_before(alloc: Global) -> Result<String, Fail> {
    let commands = Held::new(Commands::new(alloc, Begin::Framed, &[])?);
    Ok(commands.value.behind(alloc, &[])?.into_tables())
}

/// Makes a database one of version 1.
fn make_old<S: Alter + Drop>(conn: &mut Connection<S>) -> Result<(), Fail> {
    for statement in VERSION_1 {
        conn.execute(statement, &[])?;
    }
    Ok(())
}

/// The files after an upgrade, and whether it was acknowledged. Fails where it was refused and no disk has failed.
fn upgraded<D: Disk + Drop>(
    alloc: Global,
    files: Files<D>,
    fault: Fault,
    told: &Told,
) -> Result<(Files<D>, bool), Fail> {
    let (files, is_made) = match connected(alloc, files) {
        Ok(conn) => {
            let mut conn = conn;
            let is_made = SqlStore::upgrade(alloc, &mut conn) == Ok(1);
            (ended(conn, fault), is_made)
        }
        Err(files) => (files, false),
    };
    if is_made || told.load(Ordering::SeqCst) {
        return Ok((files, is_made));
    }
    drop(files);
    Err(Fail::new("an upgrade refused without cause"))
}

/// Makes a database that is found one of version 2, if it isn't.
fn upgrade_left<S: Alter + Drop>(
    alloc: Global,
    conn: &mut Connection<S>,
    is_made: bool,
) -> Result<(), Fail> {
    match SqlStore::upgrade(alloc, conn) {
        Ok(1) if !is_made => Ok(()),
        Err(OpenError::Version) => Ok(()),
        Ok(_) => Err(Fail::new("an upgrade that is lost")),
        Err(why) => Err(why)?,
    }
}

/// Fails where a database doesn't keep the upgrade.
fn shows_upgrade<S: Alter + Drop>(conn: &mut Connection<S>) -> Result<(), Fail> {
    let row = conn.query_row(UPGRADE, &[])?;
    let shown: String = row.get(0)?;
    if shown.as_str() == "1 1" {
        return Ok(());
    }
    Err(Fail::new("another upgrade"))
}

/// The tables of version 2 that are found, or that an upgrade makes of what is found. The latter is of version 1, which
/// is left only where the upgrade wasn't acknowledged.
fn tables_of<S: Alter + Drop>(
    alloc: Global,
    conn: Connection<S>,
    is_made: bool,
) -> Result<Option<String>, Fail> {
    let mut conn = conn;
    upgrade_left(alloc, &mut conn, is_made)?;
    shows_upgrade(&mut conn)?;
    tables_in(alloc, conn)
}

impl Tried for Old {
    fn outlasts(&self, alloc: Global, trouble: Trouble) -> Result<bool, Fail> {
        let told = untold(alloc)?;
        let files = failing_files(alloc, &self.bytes, trouble, &told)?;
        let (files, is_made) = upgraded(alloc, files, trouble.fault, &told)?;
        let left = left_by(alloc, files, trouble)?;
        for left in &left {
            self.is_left(alloc, left, trouble, is_made)?;
        }
        Ok(told.load(Ordering::SeqCst))
    }
}

/// Upgrades with a fault at each call of one of the files in turn.
fn hold(rt: &(impl Print + AllocGlobal), fault: Fault, is_in_log: bool) -> Result<(), Fail> {
    outlasts_each(rt, &Old::new(rt.alloc())?, fault, is_in_log)
}

#[test]
fn an_upgrade_outlasts_a_log_that_fails(rt: HostRuntime) -> Result<(), Fail> {
    hold(&rt, Fault::Lasting, true)
}

#[test]
fn an_upgrade_outlasts_a_file_that_fails(rt: HostRuntime) -> Result<(), Fail> {
    hold(&rt, Fault::Lasting, false)
}

#[test]
fn an_upgrade_outlasts_a_call_of_the_log_that_fails(rt: HostRuntime) -> Result<(), Fail> {
    hold(&rt, Fault::Single, true)
}

#[test]
fn an_upgrade_outlasts_a_call_of_the_file_that_fails(rt: HostRuntime) -> Result<(), Fail> {
    hold(&rt, Fault::Single, false)
}

#[test]
fn an_upgrade_outlasts_a_power_cut_at_the_log(rt: HostRuntime) -> Result<(), Fail> {
    hold(&rt, Fault::Cut, true)
}

#[test]
fn an_upgrade_outlasts_a_power_cut_at_the_file(rt: HostRuntime) -> Result<(), Fail> {
    hold(&rt, Fault::Cut, false)
}
