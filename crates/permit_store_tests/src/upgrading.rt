//! A database of version 1 that is made one of version 2, and played on.

use crate::database::{founded, opened, over_database};
use permit_samples::held::Held;
use permit_samples::offices::office_over;
use permit_samples::opening::OPENING;
use permit_samples::script::play;
use permit_samples::standard::POLICY;
use permit_samples::upgrade::{BEFORE, BEHIND, UPGRADE, VERSION_1};
use permit_sql::store::SqlStore;
use permit_store::store::OpenError;
use sqlite::{Connection, MemStore};
use std::alloc::Global;
use std::process::Abort;
use std::test::Fail;

/// A query of what the databases of either version show of the desk.
const DESK: &str = "SELECT version || ' ' || last || ' ' || files FROM desk";

/// A statement that is run in a database of version 1, and why it then isn't upgraded.
const REFUSED: [(&str, OpenError); 5] = [
    ("UPDATE desk SET version = 2", OpenError::Version),
    ("UPDATE desk SET version = 0", OpenError::Version),
    ("UPDATE file SET kind = 9", OpenError::Damaged),
    ("UPDATE desk SET files = 2", OpenError::Damaged),
    ("DROP INDEX file_cell", OpenError::Store),
];

/// A database with a construction whose frame is approved.
fn played(alloc: Global) -> Result<Connection<MemStore>, Fail> {
    let mut office = Held::new(over_database(alloc)?);
    play(alloc, &mut office.value, OPENING)?;
    for script in BEFORE {
        play(alloc, &mut office.value, script)?;
    }
    Ok(office.into_inner().into_store().into_connection())
}

/// The same of version 1.
fn of_version_1(alloc: Global) -> Result<Connection<MemStore>, Fail> {
    let mut conn = played(alloc)?;
    for statement in VERSION_1 {
        conn.execute(statement, &[])?;
    }
    Ok(conn)
}

/// The store in a database is played on.
fn play_on(alloc: Global, conn: Connection<MemStore>) -> Result<(), Fail> {
    let store = opened(alloc, conn)?;
    let office = &mut Held::new(office_over(alloc, store, POLICY)?).value;
    for script in BEHIND {
        play(alloc, office, script)?;
    }
    Ok(())
}

/// The text that a query of one row gives.
fn text_of(conn: &mut Connection<MemStore>, query: &str) -> Result<String, Fail> {
    Ok(conn.query_row(query, &[])?.get(0)?)
}

#[test]
fn an_old_office_is_upgraded_once_and_played_on(rt: HostRuntime) -> Result<(), Fail> {
    let alloc = rt.alloc();
    let mut conn = of_version_1(alloc)?;
    assert_eq!(rt; text_of(&mut conn, DESK)?.as_str(), "1 19820 1");
    assert!(rt; SqlStore::upgrade(alloc, &mut conn) == Ok(1));
    assert_eq!(rt; text_of(&mut conn, DESK)?.as_str(), "2 19820 1");
    assert_eq!(rt; text_of(&mut conn, UPGRADE)?.as_str(), "1 1");
    assert!(rt; SqlStore::upgrade(alloc, &mut conn) == Err(OpenError::Version));
    play_on(alloc, conn)
}

/// A database of version 1 in which a statement was run isn't upgraded, and shows the same desk after that.
fn is_refused(
    rt: &impl Abort,
    alloc: Global,
    statement: &str,
    wanted: OpenError,
) -> Result<(), Fail> {
    let mut conn = of_version_1(alloc)?;
    conn.execute(statement, &[])?;
    let shown = text_of(&mut conn, DESK)?;
    let why = SqlStore::upgrade(alloc, &mut conn);
    assert!(rt; why == Err(wanted), "{statement}");
    assert_eq!(rt; text_of(&mut conn, DESK)?.as_str(), shown.as_str());
    Ok(())
}

#[test]
fn what_is_no_old_office_is_not_upgraded(rt: HostRuntime) -> Result<(), Fail> {
    let alloc = rt.alloc();
    for (statement, wanted) in &REFUSED {
        is_refused(&rt, alloc, statement, *wanted)?;
    }
    let mut conn = founded(alloc)?.into_connection();
    assert!(rt; SqlStore::upgrade(alloc, &mut conn) == Err(OpenError::Version));
    let mut none = Connection::open_in_memory(alloc)?;
    assert!(rt; SqlStore::upgrade(alloc, &mut none) == Err(OpenError::Store));
    Ok(())
}
