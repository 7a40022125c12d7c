//! The store over SQL, in a database file.

use crate::calls;
use crate::clock::micros_since;
use crate::office::founder;
use anyhow::{Result, anyhow};
use permit_sql::store::SqlStore;
use sqlite::{Alter, Connection};
use std::alloc::Global;
use std::time::{Clock, Instant};

/// What is done to a database.
#[derive(Clone, Copy)]
pub enum Task {
    /// Makes one that has its founding alone.
    Found,
    /// Opens it, and prints how many nanoseconds that took.
    Open,
    /// Opens it so, and times the calls of the store over it.
    Calls,
}

/// Founds an office, whose founder's token is the first of the numbered ones.
fn found<S: Alter + Drop>(alloc: Global, conn: Connection<S>) -> Result<SqlStore<S>> {
    let founder = founder(alloc, "tokentokentoken1")?;
    match SqlStore::create(alloc, conn, &founder) {
        Ok(store) => Ok(store),
        Err(_) => Err(anyhow!("no tables")),
    }
}

/// Opens the store, and prints the nanoseconds since the start.
fn open<S: Alter + Drop>(
    rt: &(impl Clock + Print + AllocGlobal),
    conn: Connection<S>,
    start: Instant,
) -> Result<SqlStore<S>> {
    let Ok(store) = SqlStore::open(rt.alloc(), conn) else {
        return Err(anyhow!("not opened"));
    };
    let nanos = micros_since(rt, start)?.saturating_mul(1000);
    println!(rt; "open {nanos}")?;
    Ok(store)
}

/// Opens the store, and times its calls.
fn measure<S: Alter + Drop>(
    rt: &(impl Clock + Print + AllocGlobal),
    conn: Connection<S>,
    start: Instant,
) -> Result<SqlStore<S>> {
    let mut store = open(rt, conn, start)?;
    calls::measure(rt, &mut store)?;
    Ok(store)
}

/// Does a task over a connection whose opening began at the start, and gives the connection back.
fn done<S: Alter + Drop>(
    rt: &(impl Clock + Print + AllocGlobal),
    conn: Connection<S>,
    task: Task,
    start: Instant,
) -> Result<Connection<S>> {
    let store = match task {
        Task::Found => found(rt.alloc(), conn),
        Task::Open => open(rt, conn, start),
        Task::Calls => measure(rt, conn, start),
    };
    Ok(store?.into_connection())
}

/// Does a task to the database at a path.
pub fn measure_at(rt: &HostRuntime, path: &str, task: Task) -> Result<()> {
    let start = Instant::now(rt)?;
    let conn = Connection::open(rt, path)?;
    Ok(done(rt, conn, task, start)?.close()?)
}
