//! Commands over a door: with a midnight between them, and with answers that don't go out whole.

use crate::calendar::{Calendar, always, midnight_after};
use crate::memory_doors::{
    Answers, MemoryDoor, NO_TROUBLE, Requests, Shared, Trouble, closed, connection, new_record,
    written,
};
use permit_office::office::Office;
use permit_samples::ask::{Ask, TOKENS};
use permit_samples::exchange::{answer, asked, request};
use permit_samples::held::Held;
use permit_samples::offices::over_vectors;
use permit_samples::script::agree;
use permit_store::plain::PlainStore;
use std::alloc::Global;
use std::sync::Wait;
use std::test::*;
use std::thread::Threads;

/// The day of the commands.
const TODAY: u32 = 19723;

/// The bytes with which the official adds a parcel, of a lot of its own.
fn adding(alloc: Global, number: u32) -> Result<String, Fail> {
    let body = format!(in alloc; r#"{{"lot":"B-{number}","address":"1 High St","owner":1}}"#)?;
    request(
        alloc,
        &Ask {
            token: TOKENS[0],
            day: TODAY,
            method: "POST",
            path: "/parcels",
            body: body.as_str(),
        },
    )
}

/// The answer to it on a day.
fn added(alloc: Global, day: u32, number: u32) -> Result<String, Fail> {
    let body = format!(in alloc; r#"{{"day":{day},"done":"add-parcel","number":{number}}}"#)?;
    answer(alloc, "200 OK", body.as_str())
}

/// The office served through a door of these connections, the last one first, and how many answers the session has collected.
fn behind_one_door<R: Threads + Wait + Copy + Drop + Send + 'static>(
    rt: R,
    alloc: Global,
    connections: Vec<(Requests, Answers<R>)>,
    calendar: Calendar,
) -> Result<(Office<PlainStore>, u64), Fail> {
    let door = MemoryDoor {
        connections,
        waits_for: None,
    };
    let doors = vec![in alloc; door]?;
    let (office, counts) = closed(rt, alloc, over_vectors(alloc)?, doors, calendar)?;
    let office = Held::new(office);
    let [count] = counts.as_slice() else {
        return Err(Fail::new("one session"));
    };
    Ok((office.into_inner(), *count))
}

/// Fails where something else was written.
fn is_written<R: Wait>(rt: &R, alloc: Global, record: &Shared, wanted: &str) -> Result<(), Fail> {
    agree(alloc, written(rt, alloc, record)?.as_str(), wanted)
}

/// Two parcels are added on one connection, and it is midnight after so many requests.
fn has_days<R: Threads + Wait + Copy + Drop + Send + 'static>(
    rt: R,
    alloc: Global,
    requests: u32,
    days: [u32; 2],
) -> Result<(), Fail> {
    let [first, second] = days;
    let record = new_record(alloc)?;
    let mut bytes = adding(alloc, 1)?.into_bytes();
    bytes.extend_from_slice(adding(alloc, 2)?.as_bytes())?;
    let mut connections = Vec::new(alloc);
    connections.push(connection(rt, &record, bytes, NO_TROUBLE)?)?;
    let mut wanted = added(alloc, first, 1)?;
    wanted.push_str(added(alloc, second, 2)?.as_str())?;
    let calendar = midnight_after(requests, TODAY)?;
    let (office, count) = behind_one_door(rt, alloc, connections, calendar)?;
    drop(office);
    if count != 2 {
        return Err(Fail::new("the session's count of answers"));
    }
    is_written(&rt, alloc, &record, wanted.as_str())
}

/// It is midnight before both requests, between them, or after both.
#[test]
fn midnight_on_a_connection(rt: HostRuntime) -> Result<(), Fail> {
    let alloc = rt.alloc();
    has_days(rt, alloc, 0, [19724, 19724])?;
    has_days(rt, alloc, 1, [19723, 19724])?;
    has_days(rt, alloc, 2, [19723, 19723])
}

/// A door of connections, and what they are to write.
#[derive(Drop)]
struct CutAnswers<R: Wait + Drop> {
    connections: Vec<(Requests, Answers<R>)>,
    wanted: String,
}

/// Each connection adds a parcel. The writer of the first takes no byte of the answer, that of the second takes one, and so
/// on to the one that takes the answer whole. After its bytes it fails, or takes no more.
fn cut_answers<R: Wait + Copy + Drop>(
    rt: R,
    alloc: Global,
    record: &Shared,
    stalls: bool,
) -> Result<CutAnswers<R>, Fail> {
    let mut connections = Vec::new(alloc);
    let mut wanted = String::new(alloc);
    for number in 1..1000u32 {
        let taken = number.wrapping_sub(1) as usize;
        let trouble = Trouble {
            at_once: 7,
            fails_at: taken,
            stalls,
            ..NO_TROUBLE
        };
        let bytes = adding(alloc, number)?.into_bytes();
        connections.push(connection(rt, record, bytes, trouble)?)?;
        let whole = added(alloc, TODAY, number)?;
        wanted.push_str(whole.as_str().get(..taken).ok_or("a beginning")?)?;
        if taken == whole.len() {
            break;
        }
    }
    connections.reverse();
    Ok(CutAnswers {
        connections,
        wanted,
    })
}

/// What is wanted where so many parcels were added and one of a number is read: the lot of the command in its place.
fn parcel_in(alloc: Global, count: u32, number: u32) -> Result<String, Fail> {
    if number > count {
        return answer(alloc, "404 Not Found", r#"{"refused":"record"}"#);
    }
    let body = format!(in alloc;
        r#"{{"address":"1 High St","id":{number},"lot":"B-{number}","owner":1}}"#
    )?;
    answer(alloc, "200 OK", body.as_str())
}

/// Fails where the office doesn't have so many parcels.
fn has_parcels(alloc: Global, office: &mut Office<PlainStore>, count: u32) -> Result<(), Fail> {
    for number in 1..count.wrapping_add(2) {
        let path = format!(in alloc; "/parcels/{number}")?;
        let ask = Ask {
            token: TOKENS[0],
            day: TODAY,
            method: "GET",
            path: path.as_str(),
            body: "",
        };
        let wanted = parcel_in(alloc, count, number)?;
        agree(alloc, asked(alloc, office, &ask)?.as_str(), wanted.as_str())?;
    }
    Ok(())
}

/// What the office did remains in effect and counts as answered, wherever its answer is cut. The longest answer has 117
/// bytes, since its parcel's number has three digits.
fn stand<R: Threads + Wait + Copy + Drop + Send + 'static>(
    rt: R,
    alloc: Global,
    stalls: bool,
) -> Result<(), Fail> {
    let record = new_record(alloc)?;
    let CutAnswers {
        connections,
        wanted,
    } = cut_answers(rt, alloc, &record, stalls)?;
    let (office, count) = behind_one_door(rt, alloc, connections, always(TODAY)?)?;
    let mut office = Held::new(office);
    if count != 118 {
        return Err(Fail::new("the session's count of answers"));
    }
    is_written(&rt, alloc, &record, wanted.as_str())?;
    has_parcels(alloc, &mut office.value, 118)
}

#[test]
fn commands_stand_whose_answers_are_cut(rt: HostRuntime) -> Result<(), Fail> {
    stand(rt, rt.alloc(), false)
}

#[test]
fn commands_stand_whose_answers_stall(rt: HostRuntime) -> Result<(), Fail> {
    stand(rt, rt.alloc(), true)
}
