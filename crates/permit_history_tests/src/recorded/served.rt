//! Commands that are served with a history.

use crate::recorded::failing::FailingFile;
use permit_base::digests::digest;
use permit_base::request::{Command, Request};
use permit_base::values::{Cents, Day, Digest, FileId, Lot, ParcelId, PartyId, Text, Token};
use permit_base::words::{Kind, Role};
use permit_journal::journal::Journal;
use permit_office::office::Office;
use permit_office::reply::Reply;
use permit_policy::{Policy, read_policy};
use permit_recorded::log::HistoryLog;
use permit_replay::alike::compare::are_alike;
use permit_replay::beginning::Beginning;
use permit_replay::replay;
use permit_store::founder::Founder;
use permit_store::plain::PlainStore;
use permit_store::store::Store;
use std::alloc::Global;
use std::sync::Arc;
use std::sync::atomic::{AtomicBool, Ordering};
use std::test::*;

/// The office of these tests.
pub(crate) type Recorded = Office<PlainStore, HistoryLog<FailingFile>>;

/// The token of party 1.
const CHIEF: &str = "abcdefghijklmnopqrstuvwxyz";

/// A policy that allows everything.
pub(crate) const ALLOWS_ALL: &str = r#"[[rule]]
name = "all"
effect = "allow"
"#;

/// The text of the founding.
const FOUNDED: &str =
    r#"{"body":{"digest":"71c480df93d6ae2f1efad1447c66c9525e316218cf51fc8d9ed832f2daf18b73","name":"Chief"},"caller":0,"day":19700,"done":"found","id":null,"number":1}
{"body":{},"caller":0,"day":19700,"done":"upgrade","id":null,"number":null}
"#;

/// The text of what is done.
const DONE: &str =
    r#"{"body":{"digest":"4605b248089a824141cc1e1cf568b4ab0e2839dbacff8c5f6a46ff0de3eddcfa","name":"Rae","role":"reviewer"},"caller":1,"day":19701,"done":"add-staff","id":null,"number":2}
{"body":{"address":"1 Main St","lot":"A-1","owner":1},"caller":1,"day":19701,"done":"add-parcel","id":null,"number":1}
{"body":{"description":"Roof","kind":"repair","parcel":1,"valuation":250000},"caller":1,"day":19701,"done":"file","id":null,"number":1}
{"body":{"party":2},"caller":1,"day":19701,"done":"assign-reviewer","id":1,"number":null}
{"body":{},"caller":1,"day":19701,"done":"start-review","id":1,"number":null}
{"body":{"text":"Say which rafters"},"caller":1,"day":19701,"done":"return","id":1,"number":1}
{"body":{"to":2},"caller":1,"day":19701,"done":"transfer","id":1,"number":null}
"#;

/// Fails where it isn't so.
pub(crate) fn want(is_so: bool, what: &'static str) -> Result<(), Fail> {
    if is_so { Ok(()) } else { Err(what.into()) }
}

/// A text's letters.
pub(crate) fn letters(alloc: Global, letters: &str) -> Result<Text, Fail> {
    Ok(Text::new(String::from_str(alloc, letters)?).ok_or("a text")?)
}

/// A token's letters.
fn token(alloc: Global, letters: &str) -> Result<Token, Fail> {
    Ok(Token::new(String::from_str(alloc, letters)?).ok_or("a token")?)
}

/// The digest of a token.
fn digest_of(alloc: Global, letters: &str) -> Result<Digest, Fail> {
    Ok(digest(&token(alloc, letters)?)?)
}

/// The digest of party 1's token.
pub(crate) fn chief_digest(alloc: Global) -> Result<Digest, Fail> {
    digest_of(alloc, CHIEF)
}

/// A day.
pub(crate) fn day(number: u32) -> Result<Day, Fail> {
    Ok(Day::new(number).ok_or("a day")?)
}

/// The store of the founding.
pub(crate) fn founded(alloc: Global) -> Result<PlainStore, Fail> {
    let name = letters(alloc, "Chief")?;
    let founder = Founder::new(name, digest_of(alloc, CHIEF)?, day(19700)?).ok_or("a founder")?;
    Ok(PlainStore::create(alloc, &founder)?)
}

/// The office after its founding, whose file fails after so many calls, with a flag that is set once it is shut.
fn flagged(
    alloc: Global,
    good: Option<u32>,
    stays: bool,
    shut: Option<&Arc<AtomicBool, Global>>,
) -> Result<Recorded, Fail> {
    let policy = read_policy(alloc, ALLOWS_ALL)?;
    let store = founded(alloc)?;
    let file = FailingFile {
        bytes: FOUNDED.as_bytes().to_vec(alloc)?,
        good,
        stays,
    };
    let Ok(journal) = Journal::open(file) else {
        return Err("a journal".into());
    };
    match Office::open(store, policy, HistoryLog::new(alloc, journal, shut)) {
        Ok(office) => Ok(office),
        Err(_) => Err("an office".into()),
    }
}

/// The same without a flag.
pub(crate) fn office(alloc: Global, good: Option<u32>, stays: bool) -> Result<Recorded, Fail> {
    flagged(alloc, good, stays, None)
}

/// Whether a request of party 1 is done.
fn is_done(office: &mut Recorded, chief: &Digest, today: Day, request: &Request) -> bool {
    let reply = office.step_as(chief, request, today);
    matches!(reply, Reply::Done { .. })
}

/// Serves a request of party 1, and once more where it isn't done. Whether it was done.
fn serve(alloc: Global, office: &mut Recorded, request: &Request) -> Result<bool, Fail> {
    let chief = chief_digest(alloc)?;
    let today = day(19701)?;
    if is_done(office, &chief, today, request) {
        return Ok(true);
    }
    Ok(is_done(office, &chief, today, request))
}

/// A new reviewer.
fn reviewer(alloc: Global) -> Result<Request, Fail> {
    let name = letters(alloc, "Rae")?;
    let token = token(alloc, "clerk2clerk2clerk2")?;
    Ok(Request::AddParty {
        name,
        role: Role::Reviewer,
        token,
    })
}

/// A new parcel.
fn parcel(alloc: Global) -> Result<Request, Fail> {
    let lot = Lot::new(String::from_str(alloc, "A-1")?).ok_or("a lot")?;
    let address = letters(alloc, "1 Main St")?;
    let owner = PartyId::new(1).ok_or("a party")?;
    Ok(Request::AddParcel {
        lot,
        address,
        owner,
    })
}

/// An application.
fn filing(alloc: Global) -> Result<Request, Fail> {
    let description = letters(alloc, "Roof")?;
    let (Some(parcel), Some(valuation)) = (ParcelId::new(1), Cents::new(250000)) else {
        return Err("a parcel".into());
    };
    Ok(Request::File {
        parcel,
        kind: Kind::Repair,
        valuation,
        description,
    })
}

/// A command on the file.
fn on_file(command: Command) -> Result<Request, Fail> {
    let file = FileId::new(1).ok_or("a file")?;
    Ok(Request::OnFile { file, command })
}

/// The parcel's transfer.
pub(crate) fn transfer() -> Result<Request, Fail> {
    let (Some(parcel), Some(to)) = (ParcelId::new(1), PartyId::new(2)) else {
        return Err("a parcel".into());
    };
    Ok(Request::Transfer { parcel, to })
}

/// Serves the reviewer. Whether it was done.
fn serve_reviewer(alloc: Global, office: &mut Recorded) -> Result<bool, Fail> {
    let request = reviewer(alloc)?;
    serve(alloc, office, &request)
}

/// Serves the parcel. Whether it was done.
fn serve_parcel(alloc: Global, office: &mut Recorded) -> Result<bool, Fail> {
    let request = parcel(alloc)?;
    serve(alloc, office, &request)
}

/// Serves the application. Whether it was done.
fn serve_filing(alloc: Global, office: &mut Recorded) -> Result<bool, Fail> {
    let request = filing(alloc)?;
    serve(alloc, office, &request)
}

/// Serves the assignment. Whether it was done.
fn serve_assignment(alloc: Global, office: &mut Recorded) -> Result<bool, Fail> {
    let request = on_file(Command::AssignReviewer {
        party: PartyId::new(2).ok_or("a party")?,
    })?;
    serve(alloc, office, &request)
}

/// Serves the start of the review. Whether it was done.
fn serve_beginning(alloc: Global, office: &mut Recorded) -> Result<bool, Fail> {
    let request = on_file(Command::StartReview)?;
    serve(alloc, office, &request)
}

/// Serves what the review found. Whether it was done.
fn serve_returning(alloc: Global, office: &mut Recorded) -> Result<bool, Fail> {
    let request = on_file(Command::Return {
        text: letters(alloc, "Say which rafters")?,
    })?;
    serve(alloc, office, &request)
}

/// Serves the transfer. Whether it was done.
fn serve_transfer(alloc: Global, office: &mut Recorded) -> Result<bool, Fail> {
    let request = transfer()?;
    serve(alloc, office, &request)
}

/// Serves the commands of the text, up to the first command that isn't done. Whether all were done.
pub(crate) fn serve_all(alloc: Global, office: &mut Recorded) -> Result<bool, Fail> {
    Ok(
        serve_reviewer(alloc, office)?
            && serve_parcel(alloc, office)?
            && serve_filing(alloc, office)?
            && serve_assignment(alloc, office)?
            && serve_beginning(alloc, office)?
            && serve_returning(alloc, office)?
            && serve_transfer(alloc, office)?,
    )
}

/// The store and the text.
pub(crate) fn told(office: Recorded) -> (PlainStore, Vec<u8>) {
    let (store, log) = office.into_parts();
    let FailingFile {
        bytes,
        good: _,
        stays: _,
    } = log.into_journal().into_file();
    (store, bytes)
}

/// The text of the founding and of so many commands.
pub(crate) fn lines(alloc: Global, count: usize) -> Result<Vec<u8>, Fail> {
    let mut text = FOUNDED.as_bytes().to_vec(alloc)?;
    for (place, line) in DONE.lines().enumerate() {
        if place < count {
            text.extend_from_slice(line.as_bytes())?;
            text.push(b'\n')?;
        }
    }
    Ok(text)
}

/// Whether the tables of the store are those of the text.
fn are_told<S: Store>(alloc: Global, store: &mut S, text: &[u8]) -> Result<bool, Fail> {
    let mut source = text;
    let Ok(mut replayed) = replay(alloc, Beginning::Founding, &mut source) else {
        return Err("the text is not replayed".into());
    };
    Ok(are_alike(store, &mut replayed)?)
}

/// Fails where the tables of the store aren't those of the text.
pub(crate) fn agree<S: Store>(alloc: Global, store: &mut S, text: &[u8]) -> Result<(), Fail> {
    want(are_told(alloc, store, text)?, "the tables")
}

#[test]
fn what_is_done_has_its_line(rt: HostRuntime) -> Result<(), Fail> {
    let alloc = rt.alloc();
    let mut office = office(alloc, None, false)?;
    let all = serve_all(alloc, &mut office)?;
    let (mut store, text) = told(office);
    want(all, "all are done")?;
    want(text.as_slice() == lines(alloc, 7)?.as_slice(), "the text")?;
    let fewer = lines(alloc, 6)?;
    want(
        !are_told(alloc, &mut store, fewer.as_slice())?,
        "other tables",
    )?;
    agree(alloc, &mut store, text.as_slice())
}

#[test]
fn what_is_refused_has_none(rt: HostRuntime) -> Result<(), Fail> {
    let alloc = rt.alloc();
    let mut office = office(alloc, None, false)?;
    let all = serve_all(alloc, &mut office)?;
    let again = serve_beginning(alloc, &mut office)?;
    let (_store, text) = told(office);
    want(all && !again, "a refusal")?;
    want(text.as_slice() == lines(alloc, 7)?.as_slice(), "the text")
}

#[test]
fn a_call_that_fails_once_leaves_no_line(rt: HostRuntime) -> Result<(), Fail> {
    let alloc = rt.alloc();
    for command in 1..8 {
        let (appended, synced) = (3 * command, 3 * command + 1);
        goes_on(alloc, appended)?;
        goes_on(alloc, synced)?;
    }
    Ok(())
}

/// Fails where an office whose file fails once, after so many calls, does not do all commands.
fn goes_on(alloc: Global, calls: u32) -> Result<(), Fail> {
    let mut office = office(alloc, Some(calls), false)?;
    let all = serve_all(alloc, &mut office)?;
    let (mut store, text) = told(office);
    want(all, "all are done")?;
    want(text.as_slice() == lines(alloc, 7)?.as_slice(), "the text")?;
    agree(alloc, &mut store, text.as_slice())
}

#[test]
fn a_length_that_is_not_told_shuts_the_office(rt: HostRuntime) -> Result<(), Fail> {
    let alloc = rt.alloc();
    for command in 1..8 {
        let done = command as usize - 1;
        stops(alloc, 3 * command - 1, false, done, done)?;
    }
    Ok(())
}

#[test]
fn a_file_that_fails_shuts_the_office(rt: HostRuntime) -> Result<(), Fail> {
    let alloc = rt.alloc();
    for command in 1..8 {
        let (measured, appended, synced) = (3 * command - 1, 3 * command, 3 * command + 1);
        let done = command as usize - 1;
        stops(alloc, measured, true, done, done)?;
        stops(alloc, appended, true, done, done)?;
        stops(alloc, synced, true, done, done + 1)?;
    }
    Ok(())
}

/// Fails where an office whose file fails after so many calls, once or for good, does not stop after so many commands, with a text
/// of so many.
fn stops(alloc: Global, calls: u32, stays: bool, done: usize, told_of: usize) -> Result<(), Fail> {
    let mut office = office(alloc, Some(calls), stays)?;
    let all = serve_all(alloc, &mut office)?;
    let (mut store, text) = told(office);
    want(!all, "a file that fails")?;
    want(
        text.as_slice() == lines(alloc, told_of)?.as_slice(),
        "the text",
    )?;
    agree(alloc, &mut store, lines(alloc, done)?.as_slice())
}

/// Fails where the flag of an office whose file fails for good after so many calls, or never, isn't that it is shut.
fn tells(alloc: Global, calls: Option<u32>, shut: bool) -> Result<(), Fail> {
    let flag = Arc::new(alloc, AtomicBool::new(false))?;
    let mut office = flagged(alloc, calls, true, Some(&flag))?;
    let all = serve_all(alloc, &mut office)?;
    want(
        all != shut && office.is_open() != shut,
        "whether it is shut",
    )?;
    want(flag.load(Ordering::SeqCst) == shut, "the flag")
}

#[test]
fn a_shut_journal_is_told(rt: HostRuntime) -> Result<(), Fail> {
    let alloc = rt.alloc();
    tells(alloc, None, false)?;
    for calls in 2..23 {
        tells(alloc, Some(calls), true)?;
    }
    Ok(())
}
