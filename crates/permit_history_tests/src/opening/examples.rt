//! The examples of the doc comments of finding a store in a text, of comparing tables, and of seals, line by line as they are
//! written there.

use crate::opening::texts::{TEXT, store};
use permit_base::values::{Day, Digest, PartyId, Text};
use permit_replay::alike::compare::{are_alike, first_difference};
use permit_replay::alike::differing::Difference;
use permit_replay::beginning::Beginning;
use permit_replay::opening::differing::difference;
use permit_replay::opening::placing::find_place;
use permit_replay::seal::seal;
use permit_store::founder::Founder;
use permit_store::plain::PlainStore;
use permit_store::renewing::Renewing;
use std::alloc::Global;
use std::process::Abort;
use std::test::*;

fn places(rt: &impl Abort, alloc: Global, mut store: PlainStore, text: &str) -> Result<(), Fail> {
    let mut source = text.as_bytes();
    let Ok(place) = find_place(alloc, Beginning::Founding, &mut store, &mut source) else {
        return Err(Fail::new("no place"));
    };
    assert!(rt; place.stood == Some(2) && place.lines == 9);
    Ok(())
}

fn differs(rt: &impl Abort, alloc: Global, mut store: PlainStore, text: &str) -> Result<(), Fail> {
    let other = text.replace(alloc, "\"Rae\"", "\"Ray\"")?;
    let mut source = other.as_bytes();
    let found = difference(alloc, Beginning::Founding, &mut store, &mut source);
    assert!(rt; matches!(found, Ok(Some(Difference::Party(2)))));
    Ok(())
}

fn is_alike(rt: &impl Abort, alloc: Global, mut store: PlainStore) -> Result<(), Fail> {
    let mut copy = PlainStore::load(alloc, &mut store)?;
    assert!(rt; are_alike(&mut store, &mut copy)?);
    Ok(())
}

fn is_other(
    rt: &impl Abort,
    alloc: Global,
    mut store: PlainStore,
    party: PartyId,
    digest: Digest,
) -> Result<(), Fail> {
    let mut copy = PlainStore::load(alloc, &mut store)?;
    let renewed = copy.renew(party, &digest)?;
    assert!(rt; renewed.is_ok());
    let found = first_difference(&mut store, &mut copy)?;
    assert!(rt; found == Some(Difference::Party(party.get())));
    Ok(())
}

fn seals(rt: &impl Abort, alloc: Global, name: Text, digest: Digest, day: Day) -> Result<(), Fail> {
    let founder = Founder::new(name, digest, day).ok_or("a founder")?;
    let sealed = seal(&mut PlainStore::create(alloc, &founder)?)?;
    let digits = "8e4ad670e47c05c90fb8f36b87c0fe417be8208108542e1427ab9f9bc402fc97";
    assert!(rt; sealed.as_str() == digits);
    Ok(())
}

/// The digests of the founder's token, and of one that nobody has.
const CHIEF: &str = "71c480df93d6ae2f1efad1447c66c9525e316218cf51fc8d9ed832f2daf18b73";

const NINES: &str = "9999999999999999999999999999999999999999999999999999999999999999";

#[test]
fn examples_of_texts_hold(rt: HostRuntime) -> Result<(), Fail> {
    let alloc = rt.alloc();
    places(&rt, alloc, store(alloc, 2)?, TEXT)?;
    differs(&rt, alloc, store(alloc, 9)?, TEXT)
}

#[test]
fn examples_of_tables_hold(rt: HostRuntime) -> Result<(), Fail> {
    let alloc = rt.alloc();
    let (party, day) = (PartyId::new(2).ok_or("a party")?, Day::new(19700));
    let day = day.ok_or("a day")?;
    let (chief, nines) = (Digest::read(CHIEF), Digest::read(NINES));
    let (chief, nines) = (chief.ok_or("a digest")?, nines.ok_or("a digest")?);
    is_alike(&rt, alloc, store(alloc, 9)?)?;
    is_other(&rt, alloc, store(alloc, 9)?, party, nines)?;
    let name = Text::new(String::from_str(alloc, "Chief")?).ok_or("a name")?;
    seals(&rt, alloc, name, chief, day)
}
