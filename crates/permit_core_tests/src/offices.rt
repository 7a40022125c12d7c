//! Scenarios and connections in an office over vectors.

use permit_base::values::Day;
use permit_base::words::Role;
use permit_http::inbox::Inbox;
use permit_office::office::Office;
use permit_samples::ask::read_ask;
use permit_samples::exchange::{answer, request};
use permit_samples::limits::FORMS;
use permit_samples::makers::{day, party};
use permit_samples::offices::over_vectors;
use permit_samples::opening::OPENING;
use permit_samples::scenarios::far_deadline;
use permit_samples::script::play;
use permit_store::plain::PlainStore;
use permit_store::store::Store;
use permit_wire::serve::serve_one;
use std::alloc::Global;
use std::test::Fail;

/// The office over vectors after the opening and a script.
fn played(alloc: Global, script: &str) -> Result<Office<PlainStore>, Fail> {
    let mut office = over_vectors(alloc)?;
    play(alloc, &mut office, OPENING)?;
    play(alloc, &mut office, script)?;
    Ok(office)
}

#[test]
fn the_last_deadline(rt: HostRuntime) -> Result<(), Fail> {
    let script = far_deadline(rt.alloc())?;
    played(rt.alloc(), script.as_str())?;
    Ok(())
}

/// No answer shows a party's name.
#[test]
fn a_name_is_read(rt: HostRuntime) -> Result<(), Fail> {
    let mut store = played(rt.alloc(), FORMS)?.into_store();
    let found = store.party(party(8)?)?.ok_or("party 8")?;
    assert!(rt; found.name.as_str() == "Zürn" && found.role == Role::Clerk);
    Ok(())
}

/// Requests that are refused before the office, each with its answer.
const REFUSED: [(&str, &str, &str); 5] = [
    (
        "1 19700 POST /files/01/issue",
        "404 Not Found",
        r#"{"refused":"route"}"#,
    ),
    (
        "1 19700 GET /files?x=1",
        "404 Not Found",
        r#"{"refused":"route"}"#,
    ),
    (
        "1 19700 BREW /files",
        "404 Not Found",
        r#"{"refused":"route"}"#,
    ),
    (
        "1 19700 GET /files/é",
        "404 Not Found",
        r#"{"refused":"route"}"#,
    ),
    (
        "1 19700 GET /files {}",
        "400 Bad Request",
        r#"{"refused":"syntax"}"#,
    ),
];

/// The bytes of a request, and of a listing after it.
fn before_listing(alloc: Global, line: &str) -> Result<String, Fail> {
    let listing = request(alloc, &read_ask("1 19700 GET /files")?)?;
    let mut bytes = request(alloc, &read_ask(line)?)?;
    bytes.push_str(listing.as_str())?;
    Ok(bytes)
}

/// What is written for two requests on a connection.
fn served_twice(alloc: Global, office: &mut Office<PlainStore>, bytes: &str, on: Day) -> Vec<u8> {
    let mut inbox = Inbox::new();
    let mut reader = bytes.as_bytes();
    let mut written = Vec::new(alloc);
    for _ in 0..2 {
        serve_one(alloc, office, &mut inbox, &mut reader, &mut written, on);
    }
    written
}

/// What is written for a request, and for a listing after it on the same connection.
fn with_listing(
    alloc: Global,
    office: &mut Office<PlainStore>,
    line: &str,
) -> Result<Vec<u8>, Fail> {
    let on = day(19700)?;
    let bytes = before_listing(alloc, line)?;
    Ok(served_twice(alloc, office, bytes.as_str(), on))
}

#[test]
fn a_refused_request_leaves_the_next(rt: HostRuntime) -> Result<(), Fail> {
    let mut office = over_vectors(rt.alloc())?;
    let listing = answer(rt.alloc(), "200 OK", r#"{"files":[]}"#)?;
    for (line, status, body) in REFUSED {
        let refusal = answer(rt.alloc(), status, body)?;
        let written = with_listing(rt.alloc(), &mut office, line)?;
        let rest = written.as_slice().strip_prefix(refusal.as_bytes());
        assert!(rt; rest == Some(listing.as_bytes()), "{line}");
    }
    Ok(())
}
