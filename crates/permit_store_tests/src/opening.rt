//! Foundings and openings over memory.

use crate::database::{founded, refusal_to_create, refusal_to_open};
use permit_sql::store::SqlStore;
use permit_store::store::OpenError;
use sqlite::{Connection, MemStore};
use std::alloc::Global;
use std::test::Fail;

/// What the official's row shows in a database.
const NAME: &str = "SELECT name FROM party WHERE id = 1 AND role = 4";

/// The same of the token's digest.
const DIGEST: &str = "SELECT digest FROM party WHERE id = 1 AND role = 4";

/// A statement that is run in a founded database, if any, and after it the official's name where the database is
/// opened, or why it isn't.
const OPENINGS: [(Option<&str>, Result<&str, OpenError>); 9] = [
    (None, Ok("Chief")),
    (Some("UPDATE party SET name = 'Another'"), Ok("Another")),
    (
        Some("UPDATE desk SET version = 3, parties = 7"),
        Err(OpenError::Version),
    ),
    (
        Some("CREATE TABLE more (id INTEGER PRIMARY KEY) STRICT"),
        Err(OpenError::Store),
    ),
    (Some("DROP INDEX interest_party"), Err(OpenError::Store)),
    (Some("UPDATE party SET role = 9"), Err(OpenError::Damaged)),
    (
        Some("UPDATE party SET digest = 'x'"),
        Err(OpenError::Damaged),
    ),
    (Some("UPDATE desk SET parties = 2"), Err(OpenError::Damaged)),
    (Some("DELETE FROM desk"), Err(OpenError::Damaged)),
];

/// The text that a query of one row gives.
fn text_of(conn: &mut Connection<MemStore>, query: &str) -> Result<String, Fail> {
    Ok(conn.query_row(query, &[])?.get(0)?)
}

/// The official's name in a database once it was opened, or why it isn't opened.
fn opened(alloc: Global, conn: Connection<MemStore>) -> Result<Result<String, OpenError>, Fail> {
    match SqlStore::open(alloc, conn) {
        Ok(store) => {
            let mut conn = store.into_connection();
            Ok(Ok(text_of(&mut conn, NAME)?))
        }
        Err((conn, why)) => {
            drop(conn);
            Ok(Err(why))
        }
    }
}

/// A founded database in which a statement was run, if any.
fn changed(alloc: Global, statement: Option<&str>) -> Result<Connection<MemStore>, Fail> {
    let mut conn = founded(alloc)?.into_connection();
    if let Some(statement) = statement {
        conn.execute(statement, &[])?;
    }
    Ok(conn)
}

/// Whether the opening of a founded database is as wanted after a statement, if any.
fn is_opened_so(
    alloc: Global,
    statement: Option<&str>,
    wanted: Result<&str, OpenError>,
) -> Result<bool, Fail> {
    let shown = opened(alloc, changed(alloc, statement)?)?;
    Ok(match (&shown, wanted) {
        (Ok(name), Ok(wanted)) => name.as_str() == wanted,
        (Err(why), Err(wanted)) => *why == wanted,
        _ => false,
    })
}

#[test]
fn databases_are_opened(rt: HostRuntime) -> Result<(), Fail> {
    let alloc = rt.alloc();
    for (statement, wanted) in &OPENINGS {
        let is_so = is_opened_so(alloc, *statement, *wanted)?;
        assert!(rt; is_so, "{statement:?}");
    }
    let none = Connection::open_in_memory(alloc)?;
    assert!(rt; refusal_to_open(alloc, none) == Some(OpenError::Store));
    Ok(())
}

#[test]
fn a_founding_is_made_once(rt: HostRuntime) -> Result<(), Fail> {
    let mut conn = founded(rt.alloc())?.into_connection();
    assert_eq!(rt;
        text_of(&mut conn, DIGEST)?.as_str(),
        "71c480df93d6ae2f1efad1447c66c9525e316218cf51fc8d9ed832f2daf18b73"
    );
    match refusal_to_create(rt.alloc(), conn)? {
        None => assert!(rt; false),
        Some(why) => assert_eq!(rt; why, OpenError::Exists),
    }
    Ok(())
}
