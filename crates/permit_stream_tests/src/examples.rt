//! The examples of the doc comments of what writes streams and serves sessions, line by line as they are written there.

use crate::memory_doors::MemoryDoor;
use permit_answer::answer::Answer;
use permit_answer::{Outgoing, body, write_reply};
use permit_base::request::{Asked, Filter, Request};
use permit_base::values::Day;
use permit_base::words::RegisterKind;
use permit_hall::doors::run_hall;
use permit_hall::events::{Event, hall_run};
use permit_hall::lists::run_lists;
use permit_http::fault::Fault;
use permit_import::heading::heading_reason;
use permit_import::importing::{import, import_by};
use permit_office::office::Office;
use permit_office::reply::Reply;
use permit_report::{RegisterWriter, register, write_whole};
use permit_samples::ask::TOKENS;
use permit_samples::held::Held;
use permit_samples::makers::{day, token};
use permit_samples::offices::over_vectors;
use permit_store::plain::PlainStore;
use std::alloc::Global;
use std::io::sink;
use std::process::Abort;
use std::sync::Wait;
use std::test::Fail;
use std::thread::Threads;

fn registers(rt: &impl Abort, alloc: Global) -> Result<(), Fail> {
    let day = day(19700)?;
    let mut out = Vec::new(alloc);
    let written = register(RegisterKind::Files, day, &[], &mut out);
    assert!(rt; written.is_ok());
    assert!(rt; out.as_slice().ends_with(b"CENTS\nfiles 0\n"));
    Ok(())
}

fn written(rt: &impl Abort, alloc: Global) -> Result<(), Fail> {
    let mut out = Vec::new(alloc);
    assert!(rt; write_whole(&mut out, b"files 0\n").is_ok());
    assert!(rt; out.as_slice() == b"files 0\n".as_slice());
    let day = day(19700)?;
    let mut out = Vec::new(alloc);
    let writer = RegisterWriter::new(RegisterKind::Files, day, &mut out);
    assert!(rt; writer.finish().is_ok());
    assert!(rt; out.as_slice().ends_with(b"CENTS\nfiles 0\n"));
    Ok(())
}

fn bodies(rt: &impl Abort, alloc: Global) -> Result<(), Fail> {
    let large = body(alloc, &Answer::Fault(Fault::Large))?;
    assert!(rt; large.as_slice() == b"{\"refused\":\"large\"}".as_slice());
    Ok(())
}

fn answers(rt: &impl Abort, alloc: Global) {
    let outgoing = Outgoing::new(alloc, &Answer::Fault(Fault::Caller), true);
    assert!(rt; outgoing.closes());
    assert!(rt; outgoing.as_bytes().starts_with(b"HTTP/1.1 401 "));
    let mut written = Vec::new(alloc);
    let closes = write_reply(alloc, &Answer::Fault(Fault::Route), false, &mut written);
    assert!(rt; matches!(closes, Ok(false)));
    assert!(rt; written.as_slice().ends_with(b"{\"refused\":\"route\"}"));
}

fn imports(rt: &impl Abort, alloc: Global) -> Result<(), Fail> {
    let (token, day) = (token(alloc, TOKENS[0])?, day(19700)?);
    let office = &mut Held::new(over_vectors(alloc)?).value;
    let list = b"lot,address,owner\nA-1,1 Main St,1\n".as_slice();
    let out = &mut Vec::new(alloc);
    let ended = import(alloc, office, &token, day, false, list, out, &mut sink());
    assert!(rt; ended.is_ok());
    assert!(rt; out.as_slice() == b"1 added 1\nadded 1 kept 0 refused 0\n".as_slice());
    Ok(())
}

fn imports_with_reasons(rt: &impl Abort, alloc: Global) -> Result<(), Fail> {
    let (token, day) = (token(alloc, TOKENS[0])?, day(19700)?);
    let office = &mut Held::new(over_vectors(alloc)?).value;
    let list = b"lot,address,owner\nA-2,2 Main St,9\n".as_slice();
    let (out, causes) = (&mut Vec::new(alloc), &mut Vec::new(alloc));
    let ended = import_by(alloc, office, &token, day, true, list, out, causes);
    assert!(rt; ended.is_ok());
    let counts = b"added 0 kept 0 refused 1\n".as_slice();
    assert!(rt; out.as_slice().ends_with(counts));
    assert!(rt; causes.as_slice() == b"1 why: owner: no party has this number\n".as_slice());
    Ok(())
}

fn headings(rt: &impl Abort, alloc: Global) -> Result<(), Fail> {
    let list = b"lot;address;owner\nA-1;1 Main St;1\n".as_slice();
    let reason = heading_reason(alloc, list)?.ok_or("a reason")?;
    let wanted = "heading `lot;address;owner`: lot,address,owner";
    assert_eq!(rt; reason.as_str(), wanted);
    assert!(rt; heading_reason(alloc, b"lot,address,owner\n".as_slice())?.is_none());
    Ok(())
}

fn asked(alloc: Global) -> Result<Asked, Fail> {
    let token = token(alloc, TOKENS[0])?;
    let request = Request::ListFiles {
        filter: Filter::All,
    };
    Ok(Asked { token, request })
}

fn session(
    rt: &impl Abort,
    alloc: Global,
    office: &mut Office<PlainStore>,
    asked: Asked,
    day: Day,
) -> Result<(), Fail> {
    let events = [Event::Put(0, asked), Event::Take(day), Event::Collect(0)];
    let answers = hall_run(alloc, office, &events)?;
    let [(session, reply)] = answers.as_slice() else {
        return Err(Fail::new("one answer"));
    };
    assert!(rt; *session == 0 && matches!(reply, Reply::Listed(_)));
    Ok(())
}

fn halls(rt: &impl Abort, alloc: Global) -> Result<(), Fail> {
    let day = day(19700)?;
    let office = &mut Held::new(over_vectors(alloc)?).value;
    session(rt, alloc, office, asked(alloc)?, day)
}

fn lists_served<R: Threads + Wait + Abort + Copy + Drop + Send + 'static>(
    rt: R,
    alloc: Global,
    office: Office<PlainStore>,
    lists: Vec<Vec<Asked>>,
    day: Day,
) -> Result<(), Fail> {
    let Ok(end) = run_lists(rt, alloc, office, lists, &mut || day) else {
        return Err(Fail::new("no hall"));
    };
    assert!(rt; matches!(end.answers.as_slice(), [Some(_), Some(_)]));
    Ok(())
}

fn doors_served<R: Threads + Wait + Abort + Copy + Drop + Send + 'static>(
    rt: R,
    alloc: Global,
    office: Office<PlainStore>,
    doors: Vec<MemoryDoor<R>>,
    day: Day,
) -> Result<(), Fail> {
    let Ok(end) = run_hall(rt, alloc, office, doors, &mut || day) else {
        return Err(Fail::new("no hall"));
    };
    assert!(rt; matches!(end.doors.as_slice(), [Some(door)] if door.collected == 0));
    Ok(())
}

#[test]
fn examples_of_threads_hold(rt: HostRuntime) -> Result<(), Fail> {
    let alloc = rt.alloc();
    let mut lists = Vec::new(alloc);
    lists.push(vec![in alloc; asked(alloc)?]?)?;
    lists.push(Vec::new(alloc))?;
    lists_served(rt, alloc, over_vectors(alloc)?, lists, day(19700)?)?;
    let closed = MemoryDoor {
        connections: Vec::new(alloc),
        waits_for: None,
    };
    let doors = vec![in alloc; closed]?;
    doors_served(rt, alloc, over_vectors(alloc)?, doors, day(19700)?)
}

#[test]
fn examples_hold(rt: HostRuntime) -> Result<(), Fail> {
    let alloc = rt.alloc();
    registers(&rt, alloc)?;
    written(&rt, alloc)?;
    bodies(&rt, alloc)?;
    answers(&rt, alloc);
    imports(&rt, alloc)?;
    imports_with_reasons(&rt, alloc)?;
    headings(&rt, alloc)?;
    halls(&rt, alloc)?;
    Ok(())
}
