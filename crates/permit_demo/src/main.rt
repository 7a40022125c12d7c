//! Shows the office at work, in memory: it is founded, parties and a parcel are added, an application is filed and read
//! back, and the file goes through review, issuance and inspections to its certificate. What goes in and what comes out
//! are the bytes of HTTP.
#![tactic(auto)]

mod office;
mod turns;

use anyhow::{Result, anyhow};
use office::found;
use permit_base::values::Day;
use permit_http::inbox::Inbox;
use permit_office::office::Office;
use permit_store::plain::PlainStore;
use permit_wire::serve::serve_one;
use std::alloc::{AllocError, Global};
use std::fs;
use turns::{OFFICIAL, TURNS, Turn};

/// The text of a turn's request.
fn request_text(alloc: Global, turn: &Turn) -> Result<String, AllocError> {
    let (method, path, token, body) = (turn.method, turn.path, turn.token, turn.body);
    let size = body.len();
    format!(in alloc;
        "{method} {path} HTTP/1.1\r\nHost: localhost\r\nAuthorization: Bearer {token}\r\nContent-Length: {size}\r\n\r\n{body}"
    )
}

/// The answer to a request that comes alone on a connection.
fn answer(
    alloc: Global,
    office: &mut Office<PlainStore>,
    request: &str,
    day: u32,
) -> Result<String> {
    let day = Day::new(day).ok_or(anyhow!("no such day"))?;
    let mut inbox = Inbox::new();
    let mut written = Vec::new(alloc);
    let mut reader = request.as_bytes();
    let _ = serve_one(alloc, office, &mut inbox, &mut reader, &mut written, day);
    String::from_utf8(written)
        .ok()
        .ok_or(anyhow!("an answer is text"))
}

/// Serves one request of the demonstration, and prints it and its answer.
fn play(
    rt: &(impl Print + AllocGlobal),
    office: &mut Office<PlainStore>,
    turn: &Turn,
) -> Result<()> {
    let alloc = rt.alloc();
    let day = turn.day;
    let asked = request_text(alloc, turn)?;
    let answer = answer(alloc, office, asked.as_str(), day)?;
    println!(rt; "--- day {day}\n{asked}\n\n{answer}\n")?;
    Ok(())
}

/// Plays the demonstration under the standard policy, which lies where the program runs.
fn main(rt: HostRuntime) -> Result<()> {
    let policy = fs::read_to_string(&rt, "standard.toml")?;
    let mut office = found(rt.alloc(), policy.as_str(), OFFICIAL)?;
    for turn in &TURNS {
        play(&rt, &mut office, turn)?;
    }
    Ok(())
}
