//! Databases whose tables are sound, and that one change damages.

use crate::database::{opened, over_database, refusal_to_open};
use permit_samples::filing::FILED;
use permit_samples::held::Held;
use permit_samples::opening::OPENING;
use permit_samples::script::play;
use permit_store::store::{OpenError, Store};
use sqlite::{Connection, MemStore};
use std::alloc::Global;
use std::test::Fail;

/// A statement that is run in the database of a filing, and why that isn't opened then.
const CHANGES: [(&str, OpenError); 13] = [
    ("UPDATE file SET deadline = 19902", OpenError::Damaged),
    ("UPDATE file SET stage = 8", OpenError::Damaged),
    ("UPDATE file SET papers = 1", OpenError::Damaged),
    ("UPDATE desk SET version = 7", OpenError::Version),
    ("UPDATE desk SET last = 100001", OpenError::Damaged),
    ("UPDATE party SET id = 8 WHERE id = 7", OpenError::Damaged),
    ("UPDATE party SET role = 1 WHERE id = 1", OpenError::Damaged),
    (
        "UPDATE parcel SET lot = 'a' WHERE id = 2",
        OpenError::Damaged,
    ),
    ("UPDATE file SET reviewer = 2", OpenError::Damaged),
    ("UPDATE file SET inspector = 3", OpenError::Damaged),
    ("UPDATE file SET deadline = 200001", OpenError::Damaged),
    ("UPDATE file SET done = 1", OpenError::Damaged),
    (
        "INSERT INTO paper VALUES (1, 1, 19723, 1, 1, 0, 'x', '', 0)",
        OpenError::Damaged,
    ),
];

/// A database of seven parties, two parcels and one file.
fn filed(alloc: Global) -> Result<Connection<MemStore>, Fail> {
    let mut office = Held::new(over_database(alloc)?);
    for script in [OPENING, FILED] {
        play(alloc, &mut office.value, script)?;
    }
    Ok(office.into_inner().into_store().into_connection())
}

/// The counts of a database's desk.
fn counts(alloc: Global, conn: Connection<MemStore>) -> Result<(u32, u32, u32), Fail> {
    let mut store = Held::new(opened(alloc, conn)?);
    let desk = store.value.desk()?;
    Ok((desk.parties, desk.parcels, desk.files))
}

/// Why the database of a filing isn't opened once a statement was run in it.
fn refusal_behind(alloc: Global, statement: &str) -> Result<Option<OpenError>, Fail> {
    let mut conn = filed(alloc)?;
    conn.execute(statement, &[])?;
    Ok(refusal_to_open(alloc, conn))
}

#[test]
fn one_change_damages_a_database(rt: HostRuntime) -> Result<(), Fail> {
    let alloc = rt.alloc();
    assert_eq!(rt; counts(alloc, filed(alloc)?)?, (7, 2, 1));
    for (statement, wanted) in &CHANGES {
        let why = refusal_behind(alloc, statement)?;
        assert!(rt; why == Some(*wanted), "{statement}");
    }
    Ok(())
}
