//! The requests of the scenarios, served while memory may be refused.

use permit_answer::answer::Answer;
use permit_answer::write_reply;
use permit_base::request::{Asked, action};
use permit_base::values::Day;
use permit_http::error::WireError;
use permit_http::inbox::Inbox;
use permit_office::office::Office;
use permit_samples::ask::read_ask;
use permit_samples::exchange::request;
use permit_samples::held::Held;
use permit_samples::makers::day;
use permit_samples::offices::over_vectors;
use permit_samples::opening::OPENING;
use permit_samples::scenarios::{
    Scenario, applications, certificates, filings, inspections, listings, orders,
};
use permit_samples::script::{play, requests_of};
use permit_samples::tables::tables_text;
use permit_store::plain::PlainStore;
use permit_wire::read::read_request;
use permit_wire::serve::{Served, serve_one};
use std::alloc::{AllocError, Global};
use std::test::Fail;

/// The line after which growths are counted, and one of them may be refused.
pub const COUNT: &str = "growths count";

/// The line after which they aren't.
pub const REST: &str = "growths rest";

/// How a request comes to the office.
#[derive(Clone, Copy)]
pub enum Way {
    /// As a call of `Office::step`.
    Step,
    /// As bytes, through `serve_one`.
    Bytes,
}

/// The scenarios that are played.
pub fn scenarios(alloc: Global) -> Result<Vec<Scenario>, AllocError> {
    let groups = [
        filings(),
        applications(),
        inspections(),
        orders(),
        certificates(),
        listings(),
    ];
    let mut all = Vec::new(alloc);
    for group in groups {
        all.extend_from_slice(group)?;
    }
    Ok(all)
}

/// The office of the scenarios after their opening.
pub fn opened(alloc: Global) -> Result<Office<PlainStore>, Fail> {
    let mut office = Held::new(over_vectors(alloc)?);
    play(alloc, &mut office.value, OPENING)?;
    Ok(office.into_inner())
}

/// How serving ended, in a word.
fn word(served: Served) -> &'static str {
    match served {
        Served::Kept => "kept",
        Served::Closed => "closed",
        Served::Ended => "ended",
        Served::ReadFailed => "read-failed",
        Served::WriteFailed => "write-failed",
    }
}

/// Prints what was written for a request, with how it ended.
pub fn print_answer(
    rt: &(impl Print + AllocGlobal),
    number: usize,
    ended: &str,
    written: Vec<u8>,
) -> Result<(), Fail> {
    let text = String::from_utf8(written).ok().ok_or("an answer is text")?;
    let text = text.as_str();
    println!(rt; "{number} {ended} {text:?}")?;
    Ok(())
}

/// What the office's step answers to what is asked. Growths count for the step alone.
fn replied(
    rt: &(impl Print + AllocGlobal),
    office: &mut Office<PlainStore>,
    asked: Asked,
    on: Day,
) -> Result<Answer, Fail> {
    let asked = Held::new(asked);
    println!(rt; "{COUNT}")?;
    let reply = Held::new(office.step(&asked.value, on));
    println!(rt; "{REST}")?;
    Ok(Answer::Replied {
        reply: reply.into_inner(),
        action: action(&asked.value.request),
        day: on,
    })
}

/// What the office's step answers to a request of bytes.
fn stepped(
    rt: &(impl Print + AllocGlobal),
    office: &mut Office<PlainStore>,
    bytes: &[u8],
    on: Day,
) -> Result<Answer, Fail> {
    let mut inbox = Inbox::new();
    let mut reader = bytes;
    match read_request(rt.alloc(), &mut inbox, &mut reader) {
        Ok(Some(asked)) => replied(rt, office, asked, on),
        Err(WireError::Fault(fault)) => Ok(Answer::Fault(fault)),
        _ => Err(Fail::new("a whole request")),
    }
}

/// Serves the request by the office's step, and prints the answer.
fn step(
    rt: &(impl Print + AllocGlobal),
    office: &mut Office<PlainStore>,
    number: usize,
    bytes: &[u8],
    on: Day,
) -> Result<(), Fail> {
    let answer = Held::new(stepped(rt, office, bytes, on)?);
    let mut written = Vec::new(rt.alloc());
    let is_written = write_reply(rt.alloc(), &answer.value, false, &mut written).is_ok();
    drop(answer);
    let ended = if is_written { "kept" } else { "write-failed" };
    print_answer(rt, number, ended, written)
}

/// Serves the request as bytes, and prints the answer. There is room for it before growths count.
fn exchange(
    rt: &(impl Print + AllocGlobal),
    office: &mut Office<PlainStore>,
    number: usize,
    bytes: &[u8],
    on: Day,
) -> Result<(), Fail> {
    let mut written = Vec::with_capacity(rt.alloc(), 65536)?;
    let mut inbox = Inbox::new();
    let mut reader = bytes;
    println!(rt; "{COUNT}")?;
    let served = serve_one(
        rt.alloc(),
        office,
        &mut inbox,
        &mut reader,
        &mut written,
        on,
    );
    println!(rt; "{REST}")?;
    print_answer(rt, number, word(served), written)
}

/// Prints the tables of an office.
pub fn print_tables(
    rt: &(impl Print + AllocGlobal),
    office: Office<PlainStore>,
) -> Result<(), Fail> {
    let mut store = Held::new(office.into_store());
    let text = tables_text(rt.alloc(), &mut store.value)?;
    drop(store);
    println!(rt; "{text}")?;
    Ok(())
}

/// Serves the request of the line, and prints the answer.
fn serve(
    rt: &(impl Print + AllocGlobal),
    office: &mut Office<PlainStore>,
    way: Way,
    number: usize,
    line: &str,
) -> Result<(), Fail> {
    let ask = read_ask(line)?;
    let bytes = request(rt.alloc(), &ask)?;
    let (bytes, on) = (bytes.as_str().as_bytes(), day(ask.day)?);
    match way {
        Way::Step => step(rt, office, number, bytes, on),
        Way::Bytes => exchange(rt, office, number, bytes, on),
    }
}

/// Serves the requests of a scenario in the office after the opening, but that of the number, from 1, which is left out,
/// and prints each answer and then the tables.
pub fn serve_all(
    rt: &(impl Print + AllocGlobal),
    way: Way,
    scenario: usize,
    left_out: usize,
) -> Result<(), Fail> {
    let alloc = rt.alloc();
    let scenario = *scenarios(alloc)?.get(scenario).ok_or("a scenario")?;
    let mut office = Held::new(opened(alloc)?);
    let mut number = 0usize;
    for line in requests_of(alloc, scenario)?.as_slice() {
        number = number.saturating_add(1);
        if number != left_out {
            serve(rt, &mut office.value, way, number, line)?;
        }
    }
    print_tables(rt, office.into_inner())
}
