//! What takes memory beside the scenarios: the making of an office, policies with each fault, a parcel list, a hall over
//! events, and files that are passed to a taker. Growths count for these calls alone.

use crate::serving::{COUNT, REST, opened, print_answer, print_tables};
use permit_answer::answer::Answer;
use permit_answer::write_reply;
use permit_base::refusal::Refusal;
use permit_base::request::{Asked, Filter};
use permit_base::values::Day;
use permit_base::words::{Action, RegisterKind};
use permit_hall::events::{Event, hall_run};
use permit_http::inbox::Inbox;
use permit_import::fault::ImportFault;
use permit_import::importing::import;
use permit_office::log::NoLog;
use permit_office::office::Office;
use permit_office::reply::Reply;
use permit_office::showing::RowsEnd;
use permit_policy::text::read_policy;
use permit_report::RegisterWriter;
use permit_samples::ask::{TOKENS, read_ask};
use permit_samples::exchange::request;
use permit_samples::held::Held;
use permit_samples::makers::{day, token};
use permit_samples::offices::founder;
use permit_samples::scenarios::listings;
use permit_samples::script::play_all;
use permit_samples::standard::POLICY;
use permit_store::plain::PlainStore;
use permit_wire::read::read_request;
use std::alloc::{AllocError, Global};
use std::io::sink;
use std::test::Fail;

/// Texts of policies: the standard one, and one for each fault that a text of a few lines can have.
const POLICIES: [&str; 7] = [
    POLICY,
    "[[rule]\n",
    "rule = 1\n",
    "[[rule]]\nname = \"a\"\neffect = \"allow\"\n[[rule]]\nname = \"a\"\neffect = \"allow\"\n",
    "[[rule]]\nname = \"a\"\neffect = \"allow\"\n[[rule]]\nname = \"b\"\neffect = \"perhaps\"\n",
    "[[rule]]\nname = \"a\"\neffect = \"allow\"\nrole = [\"clerk\", \"clerk\"]\n",
    "[[rule]]\nname = \"a\"\neffect = \"allow\"\nboth = [\"owner\", \"applicant\"]\nstopped = true\n",
];

/// Founds a store, and opens an office over it.
fn found(rt: &(impl Print + AllocGlobal)) -> Result<(), Fail> {
    let founder = Held::new(founder(rt.alloc())?);
    println!(rt; "{COUNT}")?;
    let made = Held::new(PlainStore::create(rt.alloc(), &founder.value));
    println!(rt; "{REST}")?;
    match made.into_inner() {
        Ok(store) => open(rt, store),
        Err(error) => Ok(println!(rt; "0 refused {error:?}")?),
    }
}

/// Opens an office over the store that was made, and prints its tables.
fn open(rt: &(impl Print + AllocGlobal), store: PlainStore) -> Result<(), Fail> {
    let store = Held::new(store);
    println!(rt; "0 made")?;
    let policy = read_policy(rt.alloc(), POLICY)?;
    match Office::open(store.into_inner(), policy, NoLog) {
        Ok(office) => print_tables(rt, office),
        Err(_) => Err(Fail::new("no office")),
    }
}

/// Reads a policy, and prints what it comes to.
fn print_policy(rt: &(impl Print + AllocGlobal), number: u32, text: &str) -> Result<(), Fail> {
    println!(rt; "{COUNT}")?;
    let read = match read_policy(rt.alloc(), text) {
        Ok(policy) => Ok(policy.rules()),
        Err(error) => Err((error.code.number(), error.rule)),
    };
    println!(rt; "{REST}")?;
    match read {
        Ok(rules) => println!(rt; "{number} rules {rules}")?,
        Err((code, rule)) => println!(rt; "{number} fault {code} at {rule}")?,
    }
    Ok(())
}

/// Makes an office, and reads the policies, and prints what each comes to.
pub fn made(rt: &(impl Print + AllocGlobal)) -> Result<(), Fail> {
    found(rt)?;
    let mut number = 0u32;
    for text in POLICIES {
        number = number.saturating_add(1);
        print_policy(rt, number, text)?;
    }
    Ok(())
}

/// What a line of a script asks.
pub fn asked(alloc: Global, line: &str) -> Result<Asked, Fail> {
    let bytes = request(alloc, &read_ask(line)?)?;
    let mut inbox = Inbox::new();
    let mut reader = bytes.as_str().as_bytes();
    match read_request(alloc, &mut inbox, &mut reader) {
        Ok(Some(asked)) => Ok(asked),
        _ => Err(Fail::new("a whole request")),
    }
}

/// The requests of the hall, one of each of three sessions.
pub const SESSIONS: [&str; 3] = [
    "5 19723 POST /files {\"parcel\":1,\"kind\":\"construct\",\"valuation\":1,\"description\":\"House\"}",
    "1 19723 GET /files",
    "6 19723 GET /registers/files",
];

/// The requests of three sessions that are put, but that of the number, from 1, which is left out.
fn puts(alloc: Global, left_out: usize) -> Result<Vec<Event>, Fail> {
    let mut events = Vec::new(alloc);
    let mut session = 0u8;
    for line in SESSIONS {
        session = session.saturating_add(1);
        if usize::from(session) != left_out {
            events.push(Event::Put(session, asked(alloc, line)?))?;
        }
    }
    Ok(events)
}

/// The events of three sessions, each with its request but that of the number, from 1, which is left out.
fn events(alloc: Global, left_out: usize) -> Result<Vec<Event>, Fail> {
    let on = day(19723)?;
    let mut events = puts(alloc, left_out)?;
    for _ in SESSIONS {
        events.push(Event::Take(on))?;
    }
    for session in 1..4u8 {
        events.push(Event::Collect(session))?;
    }
    Ok(events)
}

/// What the request of the number asks to be done.
fn action_of(number: usize) -> Result<Action, Fail> {
    let actions = [Action::File, Action::List, Action::List];
    Ok(*actions.get(number.wrapping_sub(1)).ok_or("a session")?)
}

/// Prints the reply to the request of the number, as it is answered on the day of the hall.
pub fn print_reply(
    rt: &(impl Print + AllocGlobal),
    number: usize,
    reply: Reply,
) -> Result<(), Fail> {
    let alloc = rt.alloc();
    let reply = Held::new(reply);
    let (action, day) = (action_of(number)?, day(19723)?);
    let answer = Held::new(Answer::Replied {
        reply: reply.into_inner(),
        action,
        day,
    });
    let mut written = Vec::new(alloc);
    let _ = write_reply(alloc, &answer.value, false, &mut written);
    drop(answer);
    print_answer(rt, number, "kept", written)
}

/// Prints the answers of a hall, or that there was no memory.
fn print_answers(
    rt: &(impl Print + AllocGlobal),
    ran: Result<Vec<(u8, Reply)>, AllocError>,
) -> Result<(), Fail> {
    match ran {
        Ok(answers) => {
            for (session, reply) in answers {
                print_reply(rt, usize::from(session), reply)?;
            }
            Ok(())
        }
        Err(_) => Ok(println!(rt; "0 memory")?),
    }
}

/// Runs a hall of three sessions without the request of the number, and prints the answers and the tables.
pub fn hall(rt: &(impl Print + AllocGlobal), left_out: usize) -> Result<(), Fail> {
    let alloc = rt.alloc();
    let mut office = Held::new(opened(alloc)?);
    let events = Held::new(events(alloc, left_out)?);
    println!(rt; "{COUNT}")?;
    let ran = Held::new(hall_run(alloc, &mut office.value, events.value.as_slice()));
    println!(rt; "{REST}")?;
    print_answers(rt, ran.into_inner())?;
    print_tables(rt, office.into_inner())
}

/// The records of a parcel list.
const RECORDS: [&str; 5] = [
    "B-1,1 High St,5",
    "B-2,2 High St,99",
    "B-1,Other,5",
    "B-3,\"3, High St\",6",
    "b-4,4 High St,6",
];

/// The parcel list with so many of its records. That of the number, from 1, is out of form.
fn list(alloc: Global, left_out: usize, records: usize) -> Result<String, Fail> {
    let mut list = String::from_str(alloc, "lot,address,owner\n")?;
    let mut number = 0usize;
    for record in RECORDS {
        number = number.saturating_add(1);
        if number <= records {
            list.push_str(if number == left_out { "-" } else { record })?;
            list.push_str("\n")?;
        }
    }
    Ok(list)
}

/// Imports the parcel list by the clerk, and prints how it ended, its lines and the tables.
pub fn imported(
    rt: &(impl Print + AllocGlobal),
    left_out: usize,
    records: usize,
) -> Result<(), Fail> {
    let alloc = rt.alloc();
    let mut office = Held::new(opened(alloc)?);
    let (token, on) = (Held::new(token(alloc, TOKENS[1])?), day(19723)?);
    let list = list(alloc, left_out, records)?;
    let mut out = Vec::with_capacity(alloc, 4096)?;
    println!(rt; "{COUNT}")?;
    let ended = import(
        alloc,
        &mut office.value,
        &token.value,
        on,
        false,
        list.as_str().as_bytes(),
        &mut out,
        &mut sink(),
    );
    println!(rt; "{REST}")?;
    let word = match ended {
        Ok(_) => "whole",
        Err(ImportFault::FirstRecord) => "first-record",
        Err(ImportFault::Reading) => "reading",
        Err(ImportFault::Memory) => "memory",
        Err(ImportFault::Writing) => "writing",
    };
    print_answer(rt, 0, word, out)?;
    print_tables(rt, office.into_inner())
}

/// Passes the files of a listing to a register for the party, and prints the register.
fn pass(
    rt: &(impl Print + AllocGlobal),
    office: &mut Office<PlainStore>,
    party: usize,
    on: Day,
) -> Result<(), Fail> {
    let alloc = rt.alloc();
    let letters = TOKENS.get(party.wrapping_sub(1)).ok_or("a party")?;
    let token = Held::new(token(alloc, letters)?);
    let mut written = Vec::with_capacity(alloc, 4096)?;
    let mut writer = RegisterWriter::new(RegisterKind::Files, on, &mut written);
    println!(rt; "{COUNT}")?;
    let ended = office.rows(&token.value, on, Filter::All, &mut writer);
    println!(rt; "{REST}")?;
    let word = match ended {
        RowsEnd::All { .. } => match writer.finish() {
            Ok(()) => "all",
            Err(_) => "write-failed",
        },
        RowsEnd::Refused(Refusal::Store) => "refused",
        _ => "wrong",
    };
    print_answer(rt, party, word, written)
}

/// Passes the files of a listing to a register, one at a time, for each of three parties, and prints the registers.
pub fn passed(rt: &(impl Print + AllocGlobal)) -> Result<(), Fail> {
    let alloc = rt.alloc();
    let mut office = Held::new(opened(alloc)?);
    let scenario = listings().get(1).ok_or("who lists which files")?;
    play_all(alloc, &mut office.value, scenario)?;
    let on = day(19723)?;
    for party in [1usize, 2, 5] {
        pass(rt, &mut office.value, party, on)?;
    }
    print_tables(rt, office.into_inner())
}
