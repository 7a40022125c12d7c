//! Requests per second of `serve_one` over memory.

use crate::office::{OFFICIAL, PUBLIC, day, opened, request_text};
use anyhow::{Result, anyhow};
use permit_base::values::Day;
use permit_http::inbox::Inbox;
use permit_office::office::Office;
use permit_store::plain::PlainStore;
use permit_wire::serve::{Served, serve_one};
use std::alloc::Global;
use std::rt::Files;
use std::time::{Clock, Instant};

/// How many requests of each kind are served.
const ROUNDS: u32 = 5000;

/// Serves the request once, on a connection of its own.
fn serve_once(
    alloc: Global,
    office: &mut Office<PlainStore>,
    request: &str,
    written: &mut Vec<u8>,
    day: Day,
) -> Result<()> {
    let mut inbox = Inbox::new();
    let mut reader = request.as_bytes();
    written.clear();
    match serve_one(alloc, office, &mut inbox, &mut reader, written, day) {
        Served::Kept => Ok(()),
        _ => Err(anyhow!("a request was not served")),
    }
}

/// Serves the request so many times, and gives the requests a second.
fn serve(
    rt: &(impl Clock + AllocGlobal),
    office: &mut Office<PlainStore>,
    request: &str,
) -> Result<u128> {
    let alloc = rt.alloc();
    let mut written = Vec::with_capacity(alloc, 4096)?;
    let day = day()?;
    let start = Instant::now(rt)?;
    for _ in 0..ROUNDS {
        serve_once(alloc, office, request, &mut written, day)?;
    }
    let micros = start.elapsed(rt)?.as_micros().max(1);
    Ok(u128::from(ROUNDS) * 1_000_000 / micros)
}

/// Measures how many filings and reads are served.
pub fn measure(rt: &(impl Files + Clock + Print + AllocGlobal), policy: &str) -> Result<()> {
    let alloc = rt.alloc();
    let mut office = opened(rt, policy)?;
    let filing = request_text(
        alloc,
        "POST",
        "/files",
        PUBLIC,
        "{\"parcel\":1,\"kind\":\"construct\",\"valuation\":25000000,\"description\":\"House\"}",
    )?;
    let filings = serve(rt, &mut office, filing.as_str())?;
    let read = request_text(alloc, "GET", "/files/1", OFFICIAL, "")?;
    let reads = serve(rt, &mut office, read.as_str())?;
    println!(rt; "serve_one over memory: {filings} filings and {reads} reads a second")?;
    Ok(())
}
