//! A text that begins with a copy of the tables that its office had before.

use crate::opening::texts::{length, store, text};
use permit_base::values::Digest;
use permit_replay::beginning::{Beginning, CopiedTables};
use permit_replay::fault::{ReplayFault, Why};
use permit_replay::opening::differing::difference;
use permit_replay::opening::fault::CompareFault;
use permit_replay::opening::placing::{Place, find_place};
use std::alloc::Global;
use std::test::*;

const EIGHTS: &str = "8888888888888888888888888888888888888888888888888888888888888888";

/// The `begin` line, after the first four lines of the whole text.
const BEGUN: &str =
    r#"{"body":{"tables":"8888888888888888888888888888888888888888888888888888888888888888"},"caller":0,"day":19701,"done":"begin","id":null,"number":null}
"#;

/// Fails where it isn't so.
fn want(is_so: bool, what: &'static str) -> Result<(), Fail> {
    if is_so { Ok(()) } else { Err(what.into()) }
}

/// A copy of the tables of the whole text's first four lines.
fn copy(alloc: Global) -> Result<Beginning, Fail> {
    let store = store(alloc, 4)?;
    let tables = Digest::read(EIGHTS).ok_or("a digest")?;
    Ok(Beginning::Copy(CopiedTables { store, tables }))
}

/// The text that begins there, up to this line of the whole text.
fn begun(alloc: Global, lines: usize) -> Result<Vec<u8>, Fail> {
    let mut bytes = BEGUN.as_bytes().to_vec(alloc)?;
    bytes.extend_from_slice(text().get(length(4)..length(lines)).ok_or("so many lines")?)?;
    Ok(bytes)
}

/// Where the tables of the whole text's first lines, so many, are in the text up to a line of the whole text.
fn placed(alloc: Global, tables: usize, lines: usize) -> Result<Place, Fail> {
    let beginning = copy(alloc)?;
    let text = begun(alloc, lines)?;
    let mut tables = store(alloc, tables)?;
    let mut source = text.as_slice();
    match find_place(alloc, beginning, &mut tables, &mut source) {
        Ok(place) => Ok(place),
        Err(_) => Err("no place".into()),
    }
}

#[test]
fn a_store_is_found_in_a_text_that_begins_with_a_copy(rt: HostRuntime) -> Result<(), Fail> {
    let alloc = rt.alloc();
    for lines in 4..10 {
        let length = begun(alloc, lines)?.len() as u64;
        for tables in 2..10 {
            let place = placed(alloc, tables, lines)?;
            let is_there = tables >= 4 && tables <= lines;
            let stood = is_there.then_some(tables.saturating_sub(3) as u64);
            want(place.stood == stood, "another place")?;
            want(place.length == length, "another length")?;
        }
    }
    Ok(())
}

/// Whether the whole text is refused where there is no copy.
fn is_refused(alloc: Global) -> Result<bool, Fail> {
    let text = begun(alloc, 9)?;
    let mut tables = store(alloc, 9)?;
    let mut source = text.as_slice();
    let found = find_place(alloc, Beginning::Founding, &mut tables, &mut source);
    Ok(matches!(
        found,
        Err(CompareFault::Text(ReplayFault::Entry {
            line: 1,
            why: Why::NoCopy
        }))
    ))
}

#[test]
fn without_the_copy_it_is_not_replayed(rt: HostRuntime) -> Result<(), Fail> {
    let is_refused = is_refused(rt.alloc())?;
    want(is_refused, "another answer")
}

#[test]
fn its_tables_differ_nowhere_from_those_of_its_lines(rt: HostRuntime) -> Result<(), Fail> {
    let alloc = rt.alloc();
    let text = begun(alloc, 9)?;
    for tables in 8..10 {
        let mut tables_there = store(alloc, tables)?;
        let mut source = text.as_slice();
        let found = difference(alloc, copy(alloc)?, &mut tables_there, &mut source);
        let Ok(found) = found else {
            return Err("no answer".into());
        };
        want(found.is_none() == (tables == 9), "another place")?;
    }
    Ok(())
}
