//! The examples of the doc comments on stores, databases and words, line by line as they are written there.

use permit_cli::program::run_words;
use permit_cli::stream::Stream;
use permit_database::comparing::compare_in;
use permit_database::copying::begin_in;
use permit_database::founding::found_with;
use permit_journal::disk_file::DiskFile;
use permit_journal::journal::Journal;
use permit_replay::alike::unordered::Unordered;
use permit_replay::beginning::Beginning;
use permit_replay::opening::bringing::bring;
use permit_samples::held::Held;
use permit_samples::offices::founder;
use permit_sql::store::SqlStore;
use permit_store::founder::Founder;
use permit_subcommands::failure::{Failure, HistoryFailure};
use sqlite::{Connection, MemStore};
use sqlite_disk::Memory;
use std::alloc::Global;
use std::process::Abort;
use std::test::Fail;

/// The founding and the upgrade.
const FOUNDED: &str =
    r#"{"body":{"digest":"71c480df93d6ae2f1efad1447c66c9525e316218cf51fc8d9ed832f2daf18b73","name":"Chief"},"caller":0,"day":19700,"done":"found","id":null,"number":1}
{"body":{},"caller":0,"day":19700,"done":"upgrade","id":null,"number":null}
"#;

/// The founding, the upgrade and a new reviewer.
const TEXT: &str =
    r#"{"body":{"digest":"71c480df93d6ae2f1efad1447c66c9525e316218cf51fc8d9ed832f2daf18b73","name":"Chief"},"caller":0,"day":19700,"done":"found","id":null,"number":1}
{"body":{},"caller":0,"day":19700,"done":"upgrade","id":null,"number":null}
{"body":{"digest":"4605b248089a824141cc1e1cf568b4ab0e2839dbacff8c5f6a46ff0de3eddcfa","name":"Rae","role":"reviewer"},"caller":1,"day":19701,"done":"add-staff","id":null,"number":2}
"#;

fn brings(rt: &impl Abort, alloc: Global, store: SqlStore<MemStore>, text: &str) {
    let mut kept = Unordered { store };
    let (mut source, mut again) = (text.as_bytes(), text.as_bytes());
    let beginning = Beginning::Founding;
    let brought = bring(alloc, beginning, &mut kept, &mut source, &mut again);
    assert!(rt; matches!(brought, Ok(it) if it.stood == 2 && it.lines == 3));
}

fn founds(
    rt: &impl Abort,
    alloc: Global,
    conn: Connection<MemStore>,
    mut journal: Journal<DiskFile<Memory>>,
    founder: Founder,
) {
    let (conn, founded) = found_with(alloc, conn, &mut journal, &founder);
    assert!(rt; founded.is_ok() && journal.length() != 0);
    let (_, again) = found_with(alloc, conn, &mut journal, &founder);
    assert!(rt; matches!(again, Err(Failure::History(HistoryFailure::Exists))));
}

fn begins(
    rt: &impl Abort,
    alloc: Global,
    conn: Connection<MemStore>,
    mut journal: Journal<DiskFile<Memory>>,
    founder: Founder,
) -> Result<(), Fail> {
    let (_, begun) = begin_in(alloc, conn, &mut journal);
    let Ok(last) = begun else {
        return Err(Fail::new("no beginning"));
    };
    assert!(rt; last == founder.day && journal.length() != 0);
    Ok(())
}

fn compares(rt: &impl Abort, alloc: Global, conn: Connection<MemStore>, text: &str) {
    let (_, compared) = compare_in(alloc, conn, Beginning::Founding, text.as_bytes());
    assert!(rt; compared.is_ok());
}

/// A connection, with a journal without a text and the founder.
fn beside(
    alloc: Global,
    conn: Connection<MemStore>,
) -> Result<(Connection<MemStore>, Journal<DiskFile<Memory>>, Founder), Fail> {
    let conn = Held::new(conn);
    let Ok(file) = DiskFile::open(Memory::new(alloc)) else {
        return Err(Fail::new("no file"));
    };
    let Ok(journal) = Journal::open(file) else {
        return Err(Fail::new("no journal"));
    };
    let journal = Held::new(journal);
    let founder = founder(alloc)?;
    Ok((conn.into_inner(), journal.into_inner(), founder))
}

/// A store that was just founded.
fn founded(alloc: Global) -> Result<SqlStore<MemStore>, Fail> {
    let founder = Held::new(founder(alloc)?);
    let conn = Connection::open_in_memory(alloc)?;
    match SqlStore::create(alloc, conn, &founder.value) {
        Ok(store) => Ok(store),
        Err((conn, why)) => {
            drop(conn);
            Err(why)?
        }
    }
}

#[test]
fn examples_hold(rt: HostRuntime) -> Result<(), Fail> {
    let alloc = rt.alloc();
    brings(&rt, alloc, founded(alloc)?, TEXT);
    Ok(())
}

#[test]
fn examples_of_histories_hold(rt: HostRuntime) -> Result<(), Fail> {
    let alloc = rt.alloc();
    let (conn, journal, founder) = beside(alloc, Connection::open_in_memory(alloc)?)?;
    founds(&rt, alloc, conn, journal, founder);
    let (conn, journal, founder) = beside(alloc, founded(alloc)?.into_connection())?;
    begins(&rt, alloc, conn, journal, founder)?;
    compares(&rt, alloc, founded(alloc)?.into_connection(), FOUNDED);
    Ok(())
}

#[test]
fn examples_of_words_hold(rt: HostRuntime) -> Result<(), Fail> {
    let alloc = rt.alloc();
    let mut words = Vec::new(alloc);
    words.push(String::from_str(alloc, "--version")?)?;
    let mut out = Stream::Memory(Vec::new(alloc));
    let status = run_words(&rt, rt, words.as_slice(), &mut out, &mut Stream::Sink);
    let printed = b"permit 2.0 (schema 2)\n".as_slice();
    assert!(rt; status == 0 && matches!(out, Stream::Memory(bytes) if bytes.as_slice() == printed));
    Ok(())
}
