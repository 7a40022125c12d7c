//! Scripts, in which the scenarios are written.
//!
//! A line `> PARTY DAY METHOD PATH BODY` is a request. The lines after it give what is wanted of its answer: a line
//! `< STATUS BODY` gives the answer whole, and a line `~ TEXT` a text that its body has.

use crate::ask::read_ask;
use crate::exchange::{answer, asked};
use crate::scenarios::Scenario;
use permit_office::office::Office;
use permit_store::store::Store;
use std::alloc::Global;
use std::test::Fail;

/// The requests of a script, in order.
pub fn requests<'x>(alloc: Global, script: &'x str) -> Result<Vec<&'x str>, Fail> {
    let mut requests = Vec::new(alloc);
    for line in script.lines() {
        if let Some(request) = line.strip_prefix("> ") {
            requests.push(request)?;
        }
    }
    Ok(requests)
}

/// The requests of a scenario, in order.
pub fn requests_of(alloc: Global, scenario: Scenario) -> Result<Vec<&'static str>, Fail> {
    let mut all = Vec::new(alloc);
    for script in scenario {
        for request in requests(alloc, script)? {
            all.push(request)?;
        }
    }
    Ok(all)
}

/// The answer that is written as `STATUS BODY`.
fn read_answer(alloc: Global, text: &str) -> Result<String, Fail> {
    let (status, members) = text.split_once(" {").ok_or("an answer")?;
    let body = format!(in alloc; "{{{members}")?;
    answer(alloc, status, body.as_str())
}

/// Fails where the answer isn't what the line wants.
fn meets(alloc: Global, written: &str, line: &str) -> Result<(), Fail> {
    let is_met = if let Some(text) = line.strip_prefix("< ") {
        written == read_answer(alloc, text)?.as_str()
    } else if let Some(text) = line.strip_prefix("~ ") {
        written.contains(text)
    } else {
        line.is_empty()
    };
    if is_met {
        Ok(())
    } else {
        Err(Fail::new(format!(in alloc; "wanted {line}, got {written}")?))
    }
}

/// Adds the body of an answer and a line end.
fn push_body(bodies: &mut String, written: &str) -> Result<(), Fail> {
    let (_, body) = written.split_once("\r\n\r\n").ok_or("a body")?;
    bodies.push_str(body)?;
    bodies.push_str("\n")?;
    Ok(())
}

/// Plays a script, and gives the bodies of the answers, each with a line end. Fails where an answer isn't what is
/// wanted.
///
/// # Examples
///
/// ```
/// let script = "> 1 19700 GET /\n< 404 Not Found {\"refused\":\"route\"}\n";
/// let bodies = play(alloc, office, script)?;
/// assert!(rt; bodies.as_str() == "{\"refused\":\"route\"}\n");
/// ```
pub fn play<S: Store + Drop>(
    alloc: Global,
    office: &mut Office<S>,
    script: &str,
) -> Result<String, Fail> {
    let mut bodies = String::new(alloc);
    let mut written = String::new(alloc);
    for line in script.lines() {
        if let Some(request) = line.strip_prefix("> ") {
            written = asked(alloc, office, &read_ask(request)?)?;
            push_body(&mut bodies, written.as_str())?;
        } else {
            meets(alloc, written.as_str(), line)?;
        }
    }
    Ok(bodies)
}

/// Plays the scripts of a scenario.
pub fn play_all<S: Store + Drop>(
    alloc: Global,
    office: &mut Office<S>,
    scenario: Scenario,
) -> Result<(), Fail> {
    for script in scenario {
        play(alloc, office, script)?;
    }
    Ok(())
}

/// Fails where two texts differ, with the first lines in which they do.
pub fn agree(alloc: Global, one: &str, other: &str) -> Result<(), Fail> {
    if one == other {
        return Ok(());
    }
    let (one, other) = one
        .lines()
        .zip(other.lines())
        .find(|(line, beside)| line != beside)
        .unwrap_or((one, other));
    Err(Fail::new(format!(in alloc; "{one}\nand\n{other}")?))
}
