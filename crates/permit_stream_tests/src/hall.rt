//! The hall with ample memory: over events, over lists of requests, and over doors whose connections are in memory.

use crate::calendar::{Calendar, always, midnight_after};
use crate::memory_doors::{
    MemoryDoor, NO_TROUBLE, Shared, collected, connection, hall, new_record, written,
};
use permit_base::refusal::{Reason, Refusal};
use permit_base::request::{Asked, Command, Request};
use permit_base::values::{Cents, Day, Token};
use permit_base::words::{Kind, Stage, Step, Timing};
use permit_hall::error::HallError;
use permit_hall::events::{Event, hall_run};
use permit_hall::lists::{ListsEnd, run_lists};
use permit_office::office::Office;
use permit_office::reply::Reply;
use permit_samples::ask::{Ask, TOKENS};
use permit_samples::exchange::{answer, request};
use permit_samples::filing::FILED;
use permit_samples::held::Held;
use permit_samples::makers::{day, file, parcel, text, token};
use permit_samples::offices::over_vectors;
use permit_samples::opening::OPENING;
use permit_samples::script::play;
use permit_store::plain::PlainStore;
use std::alloc::Global;
use std::process::Abort;
use std::sync::{Arc, Wait};
use std::test::*;
use std::thread::Threads;

/// A repair on file 1, whose step `frame` is requested.
const PENDING: &str = r#"
> 5 19790 POST /files {"parcel":1,"kind":"repair","valuation":1,"description":"Roof"}
< 200 OK {"day":19790,"done":"file","number":1}
> 2 19790 POST /files/1/assign-reviewer {"party":3}
> 5 19790 POST /files/1/name-contractor {"party":6}
> 3 19790 POST /files/1/start-review
> 3 19790 POST /files/1/approve-plans
> 2 19790 POST /files/1/assign-inspector {"party":4}
> 1 19800 POST /files/1/issue
> 6 19810 POST /files/1/begin-work
> 6 19820 POST /files/1/request-inspection {"step":"frame"}
< 200 OK {"day":19820,"done":"request-inspection","number":null}
"#;

/// The day of the request.
pub const REQUESTED: u32 = 19820;

pub const DONE: &str = r#"{"day":19820,"done":"approve-step","number":null}"#;

pub const NOT_ADMITTED: &str = r#"{"reason":"nothing-pending","refused":"not-admitted"}"#;

/// The office with the opening's parties and parcels.
fn opened(alloc: Global) -> Result<Office<PlainStore>, Fail> {
    let mut office = Held::new(over_vectors(alloc)?);
    play(alloc, &mut office.value, OPENING)?;
    Ok(office.into_inner())
}

/// The office in which a frame waits for its approval.
pub fn with_pending_frame(alloc: Global) -> Result<Office<PlainStore>, Fail> {
    let mut office = Held::new(opened(alloc)?);
    play(alloc, &mut office.value, PENDING)?;
    Ok(office.into_inner())
}

/// The token of a party, by its number.
fn token_of(alloc: Global, party: usize) -> Result<Token, Fail> {
    token(alloc, *TOKENS.get(party.wrapping_sub(1)).ok_or("a party")?)
}

/// The approval of the frame by a party.
fn approval(alloc: Global, party: usize) -> Result<Asked, Fail> {
    let file = file(1)?;
    let token = token_of(alloc, party)?;
    let command = Command::ApproveStep { step: Step::Frame };
    Ok(Asked {
        token,
        request: Request::OnFile { file, command },
    })
}

fn is_done(reply: &Reply) -> bool {
    matches!(reply, Reply::Done { number: None })
}

fn has_nothing_pending(reply: &Reply) -> bool {
    matches!(
        reply,
        Reply::Refused(Refusal::NotAdmitted(Reason::NothingPending))
    )
}

/// Puts the approval of the frame by a party in a session.
fn put(alloc: Global, events: &mut Vec<Event>, session: u8, party: usize) -> Result<(), Fail> {
    events.push(Event::Put(session, approval(alloc, party)?))?;
    Ok(())
}

/// Takes three times, and collects before that and after.
fn take_and_collect(events: &mut Vec<Event>, on: Day) -> Result<(), Fail> {
    events.push(Event::Collect(0))?;
    for _ in 0..3 {
        events.push(Event::Take(on))?;
    }
    events.push(Event::Collect(1))?;
    events.push(Event::Collect(0))?;
    Ok(())
}

/// One approval is done, and another finds nothing pending.
fn are_one_approval(rt: &impl Abort, answers: &[(u8, Reply)]) -> Result<(), Fail> {
    let [(first, refused), (second, done)] = answers else {
        return Err(Fail::new("two answers"));
    };
    assert!(rt; *first == 1 && has_nothing_pending(refused));
    assert!(rt; *second == 0 && is_done(done));
    Ok(())
}

/// Three approvals, two of them in one session.
fn put_three(alloc: Global) -> Result<Vec<Event>, Fail> {
    let mut events = Vec::new(alloc);
    for (session, party) in [(0, 1), (1, 4), (0, 1)] {
        put(alloc, &mut events, session, party)?;
    }
    Ok(events)
}

fn events_of(alloc: Global, on: Day) -> Result<Vec<Event>, Fail> {
    let mut events = put_three(alloc)?;
    take_and_collect(&mut events, on)?;
    Ok(events)
}

fn answers_to(alloc: Global, events: &[Event]) -> Result<Vec<(u8, Reply)>, Fail> {
    let mut office = Held::new(with_pending_frame(alloc)?);
    Ok(hall_run(alloc, &mut office.value, events)?)
}

#[test]
fn hall_events_that_do_nothing(rt: HostRuntime) -> Result<(), Fail> {
    let alloc = rt.alloc();
    let events = events_of(alloc, day(REQUESTED)?)?;
    are_one_approval(&rt, &answers_to(alloc, &events)?)
}

/// The answers of the hall over the lists, each request served on its day of the calendar. The tests share this one call
/// of `run_lists`, since each further one, with a closure of its own type, takes long to prove.
fn answers_to_lists<R: Threads + Wait + Copy + Drop + Send + 'static>(
    rt: R,
    alloc: Global,
    office: Office<PlainStore>,
    lists: Vec<Vec<Asked>>,
    calendar: Calendar,
) -> Result<Vec<Option<Vec<Reply>>>, HallError> {
    let mut calendar = calendar;
    match run_lists(rt, alloc, office, lists, &mut || calendar.next()) {
        Ok(ListsEnd { office, answers }) => {
            drop(office);
            Ok(answers)
        }
        Err((office, error)) => {
            drop(office);
            Err(error)
        }
    }
}

/// A list for each party, with its approval of the frame.
fn approvals(alloc: Global, parties: [usize; 2]) -> Result<Vec<Vec<Asked>>, Fail> {
    let mut lists = Vec::new(alloc);
    for party in parties {
        let mut list = Vec::new(alloc);
        list.push(approval(alloc, party)?)?;
        lists.push(list)?;
    }
    Ok(lists)
}

/// One of two approvals is done, and the other finds nothing pending.
fn is_one_done(
    rt: &impl Abort,
    first: &Option<Vec<Reply>>,
    second: &Option<Vec<Reply>>,
) -> Result<(), Fail> {
    let (Some(first), Some(second)) = (first, second) else {
        return Err(Fail::new("two lists of answers"));
    };
    let ([first], [second]) = (first.as_slice(), second.as_slice()) else {
        return Err(Fail::new("one answer each"));
    };
    assert!(rt;
        (is_done(first) && has_nothing_pending(second))
            || (has_nothing_pending(first) && is_done(second))
    );
    Ok(())
}

#[test]
fn two_approvals_of_one_request(rt: HostRuntime) -> Result<(), Fail> {
    let alloc = rt.alloc();
    let calendar = always(REQUESTED)?;
    let lists = approvals(alloc, [1, 4])?;
    let office = with_pending_frame(alloc)?;
    let answers = answers_to_lists(rt, alloc, office, lists, calendar)?;
    let [first, second] = answers.as_slice() else {
        return Err(Fail::new("two lists"));
    };
    is_one_done(&rt, first, second)
}

/// A filing by party 5.
fn filing(alloc: Global) -> Result<Asked, Fail> {
    let (parcel, valuation) = (parcel(1)?, Cents::new(25000000).ok_or("an amount")?);
    let token = token_of(alloc, 5)?;
    let description = text(alloc, "House")?;
    let request = Request::File {
        parcel,
        kind: Kind::Construct,
        valuation,
        description,
    };
    Ok(Asked { token, request })
}

/// The reading of file 1 by a party.
fn reading(alloc: Global, party: usize) -> Result<Asked, Fail> {
    let file = file(1)?;
    let token = token_of(alloc, party)?;
    let request = Request::ReadFile { file };
    Ok(Asked { token, request })
}

/// A filing by party 5 and then its reading.
fn filing_and_reading(alloc: Global) -> Result<Vec<Vec<Asked>>, Fail> {
    let mut list = Vec::new(alloc);
    list.push(filing(alloc)?)?;
    list.push(reading(alloc, 5)?)?;
    Ok(vec![in alloc; list]?)
}

/// File 1 is read twice by party 1.
fn two_readings(alloc: Global) -> Result<Vec<Vec<Asked>>, Fail> {
    let mut list = Vec::new(alloc);
    list.push(reading(alloc, 1)?)?;
    list.push(reading(alloc, 1)?)?;
    Ok(vec![in alloc; list]?)
}

#[test]
fn a_filing_and_then_its_reading(rt: HostRuntime) -> Result<(), Fail> {
    let alloc = rt.alloc();
    let calendar = always(19723)?;
    let lists = filing_and_reading(alloc)?;
    let answers = answers_to_lists(rt, alloc, opened(alloc)?, lists, calendar)?;
    let [Some(answers)] = answers.as_slice() else {
        return Err(Fail::new("a list of answers"));
    };
    let [Reply::Done { number: Some(1) }, Reply::File(view, papers)] = answers.as_slice() else {
        return Err(Fail::new("a filing and the file"));
    };
    assert!(rt; view.row.id.get() == 1 && papers.is_empty());
    Ok(())
}

/// The office in which `FILED` was played.
fn with_house(alloc: Global) -> Result<Office<PlainStore>, Fail> {
    let mut office = Held::new(opened(alloc)?);
    play(alloc, &mut office.value, FILED)?;
    Ok(office.into_inner())
}

/// A file is read twice, with a midnight between that ends its last day.
#[test]
fn midnight_in_a_list(rt: HostRuntime) -> Result<(), Fail> {
    let alloc = rt.alloc();
    let calendar = midnight_after(1, 19903)?;
    let lists = two_readings(alloc)?;
    let office = with_house(alloc)?;
    let answers = answers_to_lists(rt, alloc, office, lists, calendar)?;
    let [Some(answers)] = answers.as_slice() else {
        return Err(Fail::new("a list of answers"));
    };
    let [Reply::File(before, _), Reply::File(after, _)] = answers.as_slice() else {
        return Err(Fail::new("the file twice"));
    };
    assert!(rt; before.stage == Stage::Filed && before.timing == Timing::Near);
    assert!(rt; after.stage == Stage::Abandoned && after.timing == Timing::Past);
    Ok(())
}

/// The bytes of an approval of the frame by a party.
pub fn approval_text(alloc: Global, party: usize) -> Result<String, Fail> {
    Ok(request(
        alloc,
        &Ask {
            token: *TOKENS.get(party.wrapping_sub(1)).ok_or("a party")?,
            day: REQUESTED,
            method: "POST",
            path: "/files/1/approve-step",
            body: r#"{"step":"frame"}"#,
        },
    )?)
}

/// A door with one good connection, which asks for the approval of the frame by a party. It may wait until another has
/// written.
fn approving_door<R: Wait + Drop>(
    rt: R,
    alloc: Global,
    record: &Shared,
    party: usize,
    waits_for: Option<Shared>,
) -> Result<MemoryDoor<R>, Fail> {
    let bytes = approval_text(alloc, party)?.into_bytes();
    let mut connections = Vec::new(alloc);
    connections.push(connection(rt, record, bytes, NO_TROUBLE)?)?;
    Ok(MemoryDoor {
        connections,
        waits_for,
    })
}

/// Two doors, each with an approval of the frame that goes into a record. The first may wait for another's.
fn approving_doors<R: Wait + Copy + Drop>(
    rt: R,
    alloc: Global,
    first: &Shared,
    second: &Shared,
    waits_for: Option<Shared>,
) -> Result<Vec<MemoryDoor<R>>, Fail> {
    let mut doors = Vec::new(alloc);
    doors.push(approving_door(rt, alloc, first, 1, waits_for)?)?;
    doors.push(approving_door(rt, alloc, second, 4, None)?)?;
    Ok(doors)
}

/// How many answers the session of each door has collected, where a frame waits for its approval.
fn counts_over<R: Threads + Wait + Copy + Drop + Send + 'static>(
    rt: R,
    alloc: Global,
    doors: Vec<MemoryDoor<R>>,
) -> Result<Vec<u64>, Fail> {
    let calendar = always(REQUESTED)?;
    let office = with_pending_frame(alloc)?;
    collected(rt, alloc, office, doors, calendar)
}

/// Whether one record has the answer that the approval is done, and the other that nothing is pending.
fn are_done_and_refused<R: Wait>(
    rt: &R,
    alloc: Global,
    done: &Shared,
    refused: &Shared,
) -> Result<bool, Fail> {
    let is_done = written(rt, alloc, done)? == answer(alloc, "200 OK", DONE)?;
    let is_refused = written(rt, alloc, refused)? == answer(alloc, "409 Conflict", NOT_ADMITTED)?;
    Ok(is_done && is_refused)
}

#[test]
fn two_approvals_over_doors(rt: HostRuntime) -> Result<(), Fail> {
    let alloc = rt.alloc();
    let (one, other) = (new_record(alloc)?, new_record(alloc)?);
    let counts = counts_over(rt, alloc, approving_doors(rt, alloc, &one, &other, None)?)?;
    assert!(rt; counts.as_slice() == [1, 1].as_slice());
    assert!(rt;
        are_done_and_refused(&rt, alloc, &one, &other)?
            || are_done_and_refused(&rt, alloc, &other, &one)?
    );
    Ok(())
}

/// The first door gives its connection once the second door's answer is written.
#[test]
fn doors_are_served_at_once(rt: HostRuntime) -> Result<(), Fail> {
    let alloc = rt.alloc();
    let (late, early) = (new_record(alloc)?, new_record(alloc)?);
    let waits_for = Some(Arc::try_clone(&early)?);
    let counts = counts_over(
        rt,
        alloc,
        approving_doors(rt, alloc, &late, &early, waits_for)?,
    )?;
    assert!(rt; counts.as_slice() == [1, 1].as_slice());
    assert!(rt; are_done_and_refused(&rt, alloc, &early, &late)?);
    Ok(())
}

/// The error of a hall over so many lists.
fn error_of_lists<R: Threads + Wait + Copy + Drop + Send + 'static>(
    rt: R,
    alloc: Global,
    count: usize,
) -> Result<Option<HallError>, Fail> {
    let calendar = always(REQUESTED)?;
    let mut lists = Vec::new(alloc);
    for _ in 0..count {
        lists.push(Vec::new(alloc))?;
    }
    Ok(answers_to_lists(rt, alloc, opened(alloc)?, lists, calendar).err())
}

#[test]
fn a_hall_has_one_to_eight_sessions(rt: HostRuntime) -> Result<(), Fail> {
    let alloc = rt.alloc();
    for count in [0usize, 9] {
        assert!(rt; error_of_lists(rt, alloc, count)? == Some(HallError::Count));
    }
    let calendar = always(REQUESTED)?;
    let error = hall(rt, alloc, opened(alloc)?, Vec::new(alloc), calendar).err();
    assert!(rt; error == Some(HallError::Count));
    Ok(())
}
