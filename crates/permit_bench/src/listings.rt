//! A caller's listing by SQLite's indexes, and over the same tables in memory.

use crate::clock::micros_since;
use crate::office::{digest_of, policy_at};
use anyhow::{Result, anyhow};
use permit_base::request::{Filter, Request};
use permit_base::values::{Day, Digest};
use permit_office::log::NoLog;
use permit_office::office::Office;
use permit_office::reply::Reply;
use permit_sql::store::SqlStore;
use permit_store::plain::PlainStore;
use permit_store::store::Store;
use sqlite::{Alter, Connection};
use std::rt::Files;
use std::time::{Clock, Instant};

/// How many listings of each kind are timed.
const LISTINGS: u32 = 10;

/// The tokens of the callers whose listings are timed.
const CALLERS: [&str; 3] = ["tokentokentoken1", "tokentokentoken2", "tokentokentoken3"];

/// How many files the caller's listing has.
fn list<S: Store + Drop>(office: &mut Office<S>, caller: &Digest, day: Day) -> Result<usize> {
    let request = Request::ListFiles {
        filter: Filter::All,
    };
    match office.step_as(caller, &request, day) {
        Reply::Listed(listing) => Ok(listing.files.len()),
        _ => Err(anyhow!("no listing")),
    }
}

/// Prints how many files the caller's listing has, and the nanoseconds that one takes.
fn time<S: Store + Drop>(
    rt: &(impl Clock + Print),
    by: &str,
    office: &mut Office<S>,
    caller: &Digest,
    day: Day,
) -> Result<()> {
    let start = Instant::now(rt)?;
    let mut files = 0;
    for _ in 0..LISTINGS {
        files = list(office, caller, day)?;
    }
    let nanos = micros_since(rt, start)?.saturating_mul(1000) / u64::from(LISTINGS);
    println!(rt; "listing by {by}: {files} files, {nanos} ns")?;
    Ok(())
}

/// An office over the store, under the policy at a path.
fn office_over<S: Store + Drop>(
    rt: &(impl Files + AllocGlobal),
    store: S,
    policy: &str,
) -> Result<Office<S>> {
    match Office::open(store, policy_at(rt, policy)?, NoLog) {
        Ok(office) => Ok(office),
        Err(_) => Err(anyhow!("no office")),
    }
}

/// Times the listings over a database and over its tables in memory, on its last day.
fn measure_over<S: Alter + Drop>(
    rt: &(impl Files + Clock + Print + AllocGlobal),
    conn: Connection<S>,
    policy: &str,
) -> Result<Connection<S>> {
    let alloc = rt.alloc();
    let Ok(mut store) = SqlStore::open(alloc, conn) else {
        return Err(anyhow!("not opened"));
    };
    let Ok(desk) = store.desk() else {
        return Err(anyhow!("no desk"));
    };
    let Ok(memory) = PlainStore::load(alloc, &mut store) else {
        return Err(anyhow!("not loaded"));
    };
    let mut kept = office_over(rt, store, policy)?;
    let mut memory = office_over(rt, memory, policy)?;
    for caller in &CALLERS {
        let caller = digest_of(alloc, caller)?;
        time(rt, "indexes", &mut kept, &caller, desk.last)?;
        time(rt, "memory", &mut memory, &caller, desk.last)?;
    }
    Ok(kept.into_store().into_connection())
}

/// Times the listings of the parties 1, 2 and 3 of the database at a path.
pub fn measure(rt: &HostRuntime, path: &str, policy: &str) -> Result<()> {
    let conn = Connection::open(rt, path)?;
    Ok(measure_over(rt, conn, policy)?.close()?)
}
