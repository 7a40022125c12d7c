//! The examples of the doc comments of journals and their files, of the log of an office with a history, and of bringing a store to
//! its history, line by line as they are written there.

use crate::recorded::database::{Database, database};
use crate::recorded::memory::MemoryFile;
use crate::recorded::served::{ALLOWS_ALL, chief_digest, day, founded, letters, lines};
use permit_base::request::Request;
use permit_base::values::{Lot, PartyId};
use permit_journal::disk_file::DiskFile;
use permit_journal::file::HistoryFile;
use permit_journal::journal::Journal;
use permit_office::office::Office;
use permit_office::reply::Reply;
use permit_policy::{Policy, read_policy};
use permit_recorded::log::HistoryLog;
use permit_recorded::resuming::settle;
use permit_replay::alike::unordered::Unordered;
use permit_replay::beginning::Beginning;
use permit_store::plain::PlainStore;
use permit_store::store::Store;
use sqlite_disk::Memory;
use std::alloc::Global;
use std::process::Abort;
use std::sync::Arc;
use std::sync::atomic::{AtomicBool, Ordering};
use std::test::*;

/// The office of these examples.
type Recorded = Office<PlainStore, HistoryLog<MemoryFile>>;

fn opens_file(rt: &impl Abort, disk: Memory) -> Result<DiskFile<Memory>, Fail> {
    let Ok(mut file) = DiskFile::open(disk) else {
        return Err(Fail::new("no file"));
    };
    assert!(rt; file.append(b"a\n").is_ok() && file.sync().is_ok());
    assert!(rt; matches!(file.length(), Ok(2)));
    Ok(file)
}

fn gives_disk(rt: &impl Abort, mut file: DiskFile<Memory>) {
    let appended = file.append(b"b\n");
    let disk = file.into_disk();
    assert!(rt; appended.is_ok() && disk.bytes() == b"a\nb\n".as_slice());
}

fn opens(rt: &impl Abort, file: DiskFile<Memory>) -> Result<Journal<DiskFile<Memory>>, Fail> {
    let Ok(journal) = Journal::open(file) else {
        return Err(Fail::new("no journal"));
    };
    assert!(rt; journal.length() == 2 && !journal.is_shut());
    Ok(journal)
}

fn enters(rt: &impl Abort, mut journal: Journal<DiskFile<Memory>>) {
    let entered = journal.enter(b"b\n");
    assert!(rt; entered.is_ok() && journal.length() == 4);
    assert!(rt; journal.into_file().into_disk().bytes() == b"a\nb\n".as_slice());
}

fn takes_back(rt: &impl Abort, mut journal: Journal<DiskFile<Memory>>) {
    let before = journal.length();
    let entered = journal.enter(b"b\n");
    journal.take_back(before);
    assert!(rt; entered.is_ok() && journal.length() == before);
    assert!(rt; journal.into_file().into_disk().bytes() == b"a\n".as_slice());
}

fn keeps(
    rt: &impl Abort,
    alloc: Global,
    policy: Policy,
    store: PlainStore,
    journal: Journal<MemoryFile>,
) -> Result<Recorded, Fail> {
    let shut = Arc::new(alloc, AtomicBool::new(false))?;
    let log = HistoryLog::new(alloc, journal, Some(&shut));
    let Ok(office) = Office::open(store, policy, log) else {
        return Err(Fail::new("no office"));
    };
    assert!(rt; office.is_open() && !shut.load(Ordering::SeqCst));
    Ok(office)
}

fn gives_back(rt: &impl Abort, office: Recorded) -> Result<(), Fail> {
    let (mut store, log) = office.into_parts();
    assert!(rt; store.desk()?.parcels == 1);
    let file = log.into_journal().into_file();
    let last = "\"done\":\"add-parcel\",\"id\":null,\"number\":1}\n";
    assert!(rt; file.bytes().ends_with(last.as_bytes()));
    Ok(())
}

fn settles(
    rt: &impl Abort,
    alloc: Global,
    mut store: Unordered<Database>,
    mut file: MemoryFile,
) -> Result<(), Fail> {
    let whole = file.length();
    assert!(rt; file.append(b"{\"body\"").is_ok());
    let beginning = Beginning::Founding;
    let Ok(settled) = settle(alloc, beginning, &mut store, file) else {
        return Err(Fail::new("no journal"));
    };
    assert!(rt; whole == Ok(settled.journal.length()) && settled.redone == 0);
    Ok(())
}

#[test]
fn examples_of_files_hold(rt: HostRuntime) -> Result<(), Fail> {
    let file = opens_file(&rt, Memory::new(rt.alloc()))?;
    gives_disk(&rt, file);
    Ok(())
}

#[test]
fn examples_of_journals_hold(rt: HostRuntime) -> Result<(), Fail> {
    let alloc = rt.alloc();
    enters(&rt, opens(&rt, opens_file(&rt, Memory::new(alloc))?)?);
    takes_back(&rt, opens(&rt, opens_file(&rt, Memory::new(alloc))?)?);
    Ok(())
}

#[test]
fn examples_of_offices_hold(rt: HostRuntime) -> Result<(), Fail> {
    let alloc = rt.alloc();
    let Ok(journal) = Journal::open(MemoryFile::new(lines(alloc, 0)?)) else {
        return Err("a journal".into());
    };
    let policy = read_policy(alloc, ALLOWS_ALL)?;
    let mut office = keeps(&rt, alloc, policy, founded(alloc)?, journal)?;
    let request = Request::AddParcel {
        lot: Lot::new(String::from_str(alloc, "A-1")?).ok_or("a lot")?,
        address: letters(alloc, "1 Main St")?,
        owner: PartyId::new(1).ok_or("a party")?,
    };
    let reply = office.step_as(&chief_digest(alloc)?, &request, day(19701)?);
    assert!(rt; matches!(reply, Reply::Done { number: Some(1) }));
    gives_back(&rt, office)
}

#[test]
fn examples_of_openings_hold(rt: HostRuntime) -> Result<(), Fail> {
    let alloc = rt.alloc();
    let store = Unordered {
        store: database(alloc, 0)?,
    };
    settles(&rt, alloc, store, MemoryFile::new(lines(alloc, 0)?))
}
