//! An office that is opened with its history.

use crate::recorded::database::{Database, database};
use crate::recorded::memory::MemoryFile;
use crate::recorded::served::{ALLOWS_ALL, agree, chief_digest, day, lines, transfer, want};
use permit_base::values::Digest;
use permit_office::office::Office;
use permit_office::reply::Reply;
use permit_policy::read_policy;
use permit_recorded::log::HistoryLog;
use permit_recorded::resuming::fault::ResumeFault;
use permit_recorded::resuming::read::read_whole;
use permit_recorded::resuming::{Settled, settle};
use permit_replay::alike::unordered::Unordered;
use permit_replay::beginning::{Beginning, CopiedTables};
use permit_replay::opening::fault::BringFault;
use permit_replay::replay;
use std::alloc::Global;
use std::test::*;

/// An office that was opened with its history.
#[derive(Drop)]
struct Opened {
    office: Office<Unordered<Database>, HistoryLog<MemoryFile>>,
    /// How many lines of the text were redone on the store.
    redone: u64,
}

/// The office over a store that was brought to the text of the journal.
fn office_over(
    alloc: Global,
    store: Unordered<Database>,
    settled: Settled<MemoryFile>,
) -> Result<Opened, Fail> {
    let Settled { journal, redone } = settled;
    let policy = read_policy(alloc, ALLOWS_ALL)?;
    match Office::open(store, policy, HistoryLog::new(alloc, journal, None)) {
        Ok(office) => Ok(Opened { office, redone }),
        Err(_) => Err("no office".into()),
    }
}

/// The office of the store and the text, which may begin so, or none where the tables are other ones.
fn open_from(
    alloc: Global,
    beginning: Beginning,
    store: Database,
    text: Vec<u8>,
) -> Result<Option<Opened>, Fail> {
    let mut store = Unordered { store };
    match settle(alloc, beginning, &mut store, MemoryFile::new(text)) {
        Ok(settled) => Ok(Some(office_over(alloc, store, settled)?)),
        Err((_file, ResumeFault::Bring(BringFault::Differs))) => Ok(None),
        Err(_) => Err("no journal".into()),
    }
}

/// The same of a text that founds the office.
fn open(alloc: Global, store: Database, text: Vec<u8>) -> Result<Option<Opened>, Fail> {
    open_from(alloc, Beginning::Founding, store, text)
}

/// The office of the store and the text, whose tables are not other ones, where so many lines were redone.
fn opened(alloc: Global, store: Database, text: Vec<u8>, redone: u64) -> Result<Opened, Fail> {
    let opened = open(alloc, store, text)?.ok_or("other tables")?;
    want(opened.redone == redone, "another count")?;
    Ok(opened)
}

/// Fails where the office has another text than that of so many commands, or other tables.
fn has_lines(alloc: Global, opened: Opened, count: usize) -> Result<(), Fail> {
    let Opened { office, redone: _ } = opened;
    let (mut store, log) = office.into_parts();
    let file = log.into_journal().into_file();
    let wanted = lines(alloc, count)?;
    want(file.bytes() == wanted.as_slice(), "the text")?;
    agree(alloc, &mut store.store, wanted.as_slice())
}

#[test]
fn the_rest_of_the_text_is_redone(rt: HostRuntime) -> Result<(), Fail> {
    let alloc = rt.alloc();
    for done in 0..8 {
        let opened = opened(
            alloc,
            database(alloc, done)?,
            lines(alloc, 7)?,
            7 - done as u64,
        )?;
        has_lines(alloc, opened, 7)?;
    }
    Ok(())
}

#[test]
fn a_part_of_a_line_is_cut_off(rt: HostRuntime) -> Result<(), Fail> {
    let alloc = rt.alloc();
    for done in 5..8 {
        let mut text = lines(alloc, 7)?;
        text.extend_from_slice(b"{\"body\"")?;
        let opened = opened(alloc, database(alloc, done)?, text, 7 - done as u64)?;
        has_lines(alloc, opened, 7)?;
    }
    Ok(())
}

#[test]
fn an_office_that_was_opened_goes_on(rt: HostRuntime) -> Result<(), Fail> {
    let alloc = rt.alloc();
    let mut opened = opened(alloc, database(alloc, 4)?, lines(alloc, 6)?, 2)?;
    let today = day(19701)?;
    let chief = chief_digest(alloc)?;
    let reply = opened.office.step_as(&chief, &transfer()?, today);
    want(matches!(reply, Reply::Done { .. }), "a transfer")?;
    has_lines(alloc, opened, 7)
}

#[test]
fn other_tables_are_told_apart(rt: HostRuntime) -> Result<(), Fail> {
    let alloc = rt.alloc();
    let mut store = Unordered {
        store: database(alloc, 7)?,
    };
    let file = MemoryFile::new(lines(alloc, 6)?);
    match settle(alloc, Beginning::Founding, &mut store, file) {
        Err((file, ResumeFault::Bring(BringFault::Differs))) => {
            let mut file = file;
            let Ok(text) = read_whole(alloc, &mut file) else {
                return Err("the file".into());
            };
            want(text.as_slice() == lines(alloc, 6)?.as_slice(), "the text")?;
            agree(alloc, &mut store.store, lines(alloc, 7)?.as_slice())
        }
        Ok(_) | Err(_) => Err("other tables".into()),
    }
}

const EIGHTS: &str = "8888888888888888888888888888888888888888888888888888888888888888";

/// The `begin` line of a text that begins after the upgrade.
const BEGUN: &str =
    r#"{"body":{"tables":"8888888888888888888888888888888888888888888888888888888888888888"},"caller":0,"day":19700,"done":"begin","id":null,"number":null}
"#;

/// A copy of the tables of the upgrade.
fn copy(alloc: Global) -> Result<Beginning, Fail> {
    let text = lines(alloc, 0)?;
    let mut source = text.as_slice();
    let tables = Digest::read(EIGHTS).ok_or("a digest")?;
    match replay(alloc, Beginning::Founding, &mut source) {
        Ok(store) => Ok(Beginning::Copy(CopiedTables { store, tables })),
        Err(_) => Err("the text is not replayed".into()),
    }
}

/// The text that begins after the upgrade, with so many commands.
fn begun(alloc: Global, count: usize) -> Result<Vec<u8>, Fail> {
    let whole = lines(alloc, count)?;
    let founded = lines(alloc, 0)?.len();
    let mut text = BEGUN.as_bytes().to_vec(alloc)?;
    text.extend_from_slice(whole.as_slice().get(founded..).ok_or("so many bytes")?)?;
    Ok(text)
}

#[test]
fn a_text_that_begins_with_a_copy_is_redone(rt: HostRuntime) -> Result<(), Fail> {
    let alloc = rt.alloc();
    for done in 0..8 {
        let (beginning, text) = (copy(alloc)?, begun(alloc, 7)?);
        let opened = open_from(alloc, beginning, database(alloc, done)?, text)?;
        let Opened { office, redone } = opened.ok_or("other tables")?;
        want(redone == 7 - done as u64, "another count")?;
        let (mut store, log) = office.into_parts();
        let (file, wanted) = (log.into_journal().into_file(), begun(alloc, 7)?);
        want(file.bytes() == wanted.as_slice(), "the text")?;
        agree(alloc, &mut store.store, lines(alloc, 7)?.as_slice())?;
    }
    Ok(())
}
