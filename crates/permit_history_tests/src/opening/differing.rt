//! The first place at which tables differ from those of a text.

use crate::opening::texts::{reworded, store};
use permit_replay::alike::differing::Difference;
use permit_replay::beginning::Beginning;
use permit_replay::opening::differing::difference;
use std::alloc::Global;
use std::test::*;

/// The end of the text's last line, which is a transfer, and of a declaration.
const TRANSFER: &str = r#"{"to":2},"caller":1,"day":19701,"done":"transfer""#;

const DECLARATION: &str = r#"{},"caller":1,"day":19701,"done":"declare""#;

/// Fails where the tables of the text's first lines, so many, differ elsewhere from those of the text with other words.
fn differ(
    alloc: Global,
    lines: usize,
    from: &'static str,
    to: &str,
    wanted: Option<Difference>,
) -> Result<(), Fail> {
    let mut tables = store(alloc, lines)?;
    let text = reworded(alloc, from, to)?;
    let mut source = text.as_bytes();
    match difference(alloc, Beginning::Founding, &mut tables, &mut source) {
        Ok(found) if found == wanted => Ok(()),
        Ok(_) => Err("another place".into()),
        Err(_) => Err("no place".into()),
    }
}

#[test]
fn each_place_is_named_where_it_is_the_first(rt: HostRuntime) -> Result<(), Fail> {
    let alloc = rt.alloc();
    differ(alloc, 9, "Rae", "Rae", None)?;
    // The last day, and the day of each file.
    differ(alloc, 9, "19701", "19702", Some(Difference::Desk))?;
    // The name of the second party; with the owner of the parcel too.
    differ(alloc, 9, "Rae", "Ray", Some(Difference::Party(2)))?;
    differ(alloc, 8, "Rae", "Ray", Some(Difference::Party(2)))?;
    // The address of the parcel; its owner, and then the state of the file.
    differ(alloc, 9, "1 Main", "2 Main", Some(Difference::Parcel(1)))?;
    differ(alloc, 7, "Rae", "Rae", Some(Difference::Parcel(1)))?;
    differ(alloc, 8, TRANSFER, DECLARATION, Some(Difference::Interests))?;
    // The declaration, and the state of the file.
    differ(alloc, 7, TRANSFER, DECLARATION, Some(Difference::Interests))?;
    // The paper of the file; its description.
    differ(alloc, 9, "rafters", "beams", Some(Difference::File(1)))?;
    differ(alloc, 9, "Roof", "Wall", Some(Difference::File(1)))
}
