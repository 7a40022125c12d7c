//! Where the tables of some of a text's lines are in it.

use crate::opening::texts::{TEXT, first, length, store};
use permit_replay::beginning::Beginning;
use permit_replay::fault::ReplayFault;
use permit_replay::opening::fault::CompareFault;
use permit_replay::opening::placing::{Place, find_place};
use permit_store::plain::PlainStore;
use std::alloc::Global;
use std::test::*;

/// Fails where it isn't so.
fn want(is_so: bool, what: &'static str) -> Result<(), Fail> {
    if is_so { Ok(()) } else { Err(what.into()) }
}

/// Whether a store is at this place in the text's first bytes, so many.
fn is_placed(
    alloc: Global,
    store: &mut PlainStore,
    bytes: usize,
    wanted: Place,
) -> Result<bool, Fail> {
    let mut source = first(bytes)?;
    match find_place(alloc, Beginning::Founding, store, &mut source) {
        Ok(place) => Ok(place == wanted),
        Err(_) => Ok(false),
    }
}

/// Fails where the tables of the text's first lines, so many, are at another place in as many of its lines as this.
fn place(alloc: Global, tables: usize, lines: usize, stood: Option<u64>) -> Result<(), Fail> {
    let mut tables = store(alloc, tables)?;
    let wanted = Place {
        stood,
        lines: lines as u64,
        length: length(lines) as u64,
    };
    let whole = is_placed(alloc, &mut tables, length(lines), wanted)?;
    want(whole, "the place in whole lines")?;
    if lines < 9 {
        let part = is_placed(alloc, &mut tables, length(lines + 1) - 1, wanted)?;
        want(part, "the place before a part of a line")?;
    }
    Ok(())
}

#[test]
fn the_tables_of_each_line_are_found(rt: HostRuntime) -> Result<(), Fail> {
    let alloc = rt.alloc();
    for lines in 2..10 {
        for tables in 2..lines + 1 {
            place(alloc, tables, lines, Some(tables as u64))?;
        }
    }
    Ok(())
}

#[test]
fn tables_that_are_further_are_nowhere(rt: HostRuntime) -> Result<(), Fail> {
    let alloc = rt.alloc();
    for lines in 2..9 {
        place(alloc, lines + 1, lines, None)?;
    }
    Ok(())
}

/// Whether the text's first bytes, so many, are too few to be compared.
fn is_short(alloc: Global, store: &mut PlainStore, bytes: usize) -> Result<bool, Fail> {
    let mut source = first(bytes)?;
    let found = find_place(alloc, Beginning::Founding, store, &mut source);
    Ok(matches!(found, Err(CompareFault::Text(ReplayFault::Short))))
}

#[test]
fn the_founding_alone_is_no_text(rt: HostRuntime) -> Result<(), Fail> {
    let alloc = rt.alloc();
    let mut tables = store(alloc, 2)?;
    for bytes in 0..length(2) {
        let is_short = is_short(alloc, &mut tables, bytes)?;
        want(is_short, "a short text")?;
    }
    Ok(())
}

/// Party 2 gets another token, and then the one again that it had.
const THERE_AND_BACK: &str =
    r#"{"body":{"digest":"8888888888888888888888888888888888888888888888888888888888888888","party":2},"caller":0,"day":19701,"done":"renew-token","id":null,"number":null}
{"body":{"digest":"4605b248089a824141cc1e1cf568b4ab0e2839dbacff8c5f6a46ff0de3eddcfa","party":2},"caller":0,"day":19701,"done":"renew-token","id":null,"number":null}
"#;

#[test]
fn of_several_prefixes_the_longest_counts(rt: HostRuntime) -> Result<(), Fail> {
    let alloc = rt.alloc();
    let mut text = TEXT.as_bytes().to_vec(alloc)?;
    text.extend_from_slice(THERE_AND_BACK.as_bytes())?;
    let mut tables = store(alloc, 9)?;
    let mut source = text.as_slice();
    match find_place(alloc, Beginning::Founding, &mut tables, &mut source) {
        Ok(place) => want(place.stood == Some(11), "another place"),
        Err(_) => Err("no place".into()),
    }
}
