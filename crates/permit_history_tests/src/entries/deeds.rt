//! The entries that are no command, and the commands on the office and on a parcel.

use crate::entries::makers::{accepted, digest, entry};
use permit_base::values::{Cents, Lot};
use permit_base::words::{Kind, Role};
use permit_history::entry::{Act, Deed, Entry};
use permit_samples::makers::{file, parcel, party, text};
use std::alloc::Global;
use std::test::Fail;

/// The lines of `deeds`, in its order.
pub const LINES: [&str; 10] = [
    r#"{"body":{"digest":"71c480df93d6ae2f1efad1447c66c9525e316218cf51fc8d9ed832f2daf18b73","name":"Chief"},"caller":0,"day":19700,"done":"found","id":null,"number":1}"#,
    r#"{"body":{},"caller":0,"day":19700,"done":"upgrade","id":null,"number":null}"#,
    r#"{"body":{"digest":"71c480df93d6ae2f1efad1447c66c9525e316218cf51fc8d9ed832f2daf18b73","party":5},"caller":0,"day":19800,"done":"renew-token","id":null,"number":null}"#,
    r#"{"body":{"tables":"71c480df93d6ae2f1efad1447c66c9525e316218cf51fc8d9ed832f2daf18b73"},"caller":0,"day":19800,"done":"begin","id":null,"number":null}"#,
    r#"{"body":{"digest":"71c480df93d6ae2f1efad1447c66c9525e316218cf51fc8d9ed832f2daf18b73","name":"Sam","role":"public"},"caller":2,"day":19701,"done":"add-party","id":null,"number":5}"#,
    r#"{"body":{"digest":"71c480df93d6ae2f1efad1447c66c9525e316218cf51fc8d9ed832f2daf18b73","name":"Renée \"R\" \\","role":"inspector"},"caller":1,"day":19701,"done":"add-staff","id":null,"number":99999}"#,
    r#"{"body":{"address":"1 Main St","lot":"A-1","owner":5},"caller":2,"day":19701,"done":"add-parcel","id":null,"number":1}"#,
    r#"{"body":{"to":6},"caller":2,"day":19702,"done":"transfer","id":1,"number":null}"#,
    r#"{"body":{},"caller":4,"day":19703,"done":"declare","id":99999,"number":null}"#,
    r#"{"body":{"description":"House","kind":"construct","parcel":1,"valuation":25000000},"caller":5,"day":19723,"done":"file","id":null,"number":1}"#,
];

/// The entry of this place in `LINES`.
pub fn deed(alloc: Global, place: usize) -> Result<Entry, Fail> {
    match place {
        0 => found(alloc),
        1 => entry(19700, Deed::Upgrade),
        2 => renewal(),
        3 => beginning(),
        4 => new_party(alloc, "Sam", Role::Public),
        5 => new_party(alloc, "Renée \"R\" \\", Role::Inspector),
        6 => new_parcel(alloc),
        7 => transfer(),
        8 => accepted(
            4,
            19703,
            Act::Declare {
                parcel: parcel(99999)?,
            },
        ),
        _ => filing(alloc),
    }
}

/// The founding.
fn found(alloc: Global) -> Result<Entry, Fail> {
    let name = text(alloc, "Chief")?;
    let digest = digest()?;
    entry(19700, Deed::Found { name, digest })
}

/// Another token of party 5.
fn renewal() -> Result<Entry, Fail> {
    let party = party(5)?;
    let digest = digest()?;
    entry(19800, Deed::RenewToken { party, digest })
}

/// A `begin` entry of an office whose tables have a text of this digest.
fn beginning() -> Result<Entry, Fail> {
    let tables = digest()?;
    entry(19800, Deed::Begin { tables })
}

/// A new party: number 5 of the role public, added by party 2, and else the last one, added by party 1.
fn new_party(alloc: Global, name: &str, role: Role) -> Result<Entry, Fail> {
    let (caller, number) = if role == Role::Public {
        (2, party(5)?)
    } else {
        (1, party(99999)?)
    };
    let name = text(alloc, name)?;
    let digest = digest()?;
    accepted(
        caller,
        19701,
        Act::AddParty {
            name,
            role,
            digest,
            number,
        },
    )
}

/// A new parcel.
fn new_parcel(alloc: Global) -> Result<Entry, Fail> {
    let lot = Lot::new(String::from_str(alloc, "A-1")?).ok_or("a lot")?;
    let address = text(alloc, "1 Main St")?;
    let owner = party(5)?;
    let number = parcel(1)?;
    accepted(
        2,
        19701,
        Act::AddParcel {
            lot,
            address,
            owner,
            number,
        },
    )
}

/// Another owner of a parcel.
fn transfer() -> Result<Entry, Fail> {
    let parcel = parcel(1)?;
    let to = party(6)?;
    accepted(2, 19702, Act::Transfer { parcel, to })
}

/// An application.
fn filing(alloc: Global) -> Result<Entry, Fail> {
    let parcel = parcel(1)?;
    let valuation = Cents::new(25000000).ok_or("cents")?;
    let description = text(alloc, "House")?;
    let number = file(1)?;
    accepted(
        5,
        19723,
        Act::File {
            parcel,
            kind: Kind::Construct,
            valuation,
            description,
            number,
        },
    )
}
