//! The tables that a text leaves.

use crate::replay::life::{life, replay_lines, text};
use permit_base::values::{Digest, FileId, PaperNumber, ParcelId, PartyId};
use permit_base::words::{Edition, Kind, PaperSort, Role, Stage};
use permit_core::state::FileState;
use permit_replay::beginning::Beginning;
use permit_replay::fault::ReplayFault;
use permit_replay::replay;
use permit_store::plain::PlainStore;
use permit_store::rows::Paper;
use permit_store::store::Store;
use std::alloc::Global;
use std::test::*;

/// The store that these lines leave.
fn store_of(alloc: Global, lines: &[&str]) -> Result<PlainStore, Fail> {
    match replay_lines(alloc, lines)? {
        Ok(store) => Ok(store),
        Err(_) => Err("the lines are not replayed".into()),
    }
}

/// The first lines of the life, so many.
fn first(alloc: Global, count: usize) -> Result<Vec<&'static str>, Fail> {
    let mut lines = life(alloc)?;
    lines.truncate(count);
    Ok(lines)
}

/// The store that the whole life leaves.
fn whole(alloc: Global) -> Result<PlainStore, Fail> {
    let lines = life(alloc)?;
    store_of(alloc, lines.as_slice())
}

/// Fails where it isn't so.
fn want(is_so: bool, what: &'static str) -> Result<(), Fail> {
    if is_so { Ok(()) } else { Err(what.into()) }
}

/// A party's number.
fn party(number: u32) -> Result<PartyId, Fail> {
    Ok(PartyId::new(number).ok_or("a party")?)
}

/// The digest of 64 of a digit.
fn digest(digits: &str) -> Result<Digest, Fail> {
    Ok(Digest::read(digits).ok_or("a digest")?)
}

const FIVES: &str = "5555555555555555555555555555555555555555555555555555555555555555";

const SEVENS: &str = "7777777777777777777777777777777777777777777777777777777777777777";

/// Fails where the desk has another last day or other counts.
fn has_desk(
    store: &mut PlainStore,
    last: u32,
    parties: u32,
    parcels: u32,
    files: u32,
) -> Result<(), Fail> {
    let desk = store.desk()?;
    want(desk.edition == Edition::Second, "the second edition")?;
    want(desk.last.get() == last, "the last day")?;
    want(desk.parties == parties, "the parties")?;
    want(desk.parcels == parcels, "the parcels")?;
    want(desk.files == files, "the files")
}

#[test]
fn the_founding_and_the_upgrade_make_an_office(rt: HostRuntime) -> Result<(), Fail> {
    let lines = first(rt.alloc(), 2)?;
    let mut store = store_of(rt.alloc(), lines.as_slice())?;
    has_desk(&mut store, 19700, 1, 0, 0)?;
    let role = store.role(party(1)?)?;
    want(role == Some(Role::Official), "an official")
}

/// Fails where it isn't the state of file 1 once it is certified.
fn is_certified(state: &FileState) -> Result<(), Fail> {
    want(state.stored_stage() == Stage::Certified, "the stage")?;
    want(state.kind() == Kind::Move, "the kind")?;
    want(state.filed().get() == 19710, "the day of filing")?;
    want(state.applicant().get() == 5, "the applicant")?;
    want(state.reviewer() == PartyId::new(3), "the reviewer")?;
    want(state.inspector() == PartyId::new(4), "the inspector")?;
    want(state.contractor() == PartyId::new(6), "the contractor")?;
    want(state.done() == 3, "the steps")?;
    want(state.papers() == 10 && state.notices() == 0, "the papers")
}

#[test]
fn a_whole_life_leaves_its_tables(rt: HostRuntime) -> Result<(), Fail> {
    let mut store = whole(rt.alloc())?;
    has_desk(&mut store, 19732, 6, 1, 1)?;
    let house = FileId::new(1).ok_or("a file")?;
    is_certified(&store.state(house)?.ok_or("a state")?)
}

#[test]
fn a_whole_life_leaves_its_parcel(rt: HostRuntime) -> Result<(), Fail> {
    let mut store = whole(rt.alloc())?;
    let home = ParcelId::new(1).ok_or("a parcel")?;
    want(store.owner(home)? == PartyId::new(6), "the owner")?;
    want(store.interest(home, party(6)?)?, "an interest")?;
    want(!store.interest(home, party(5)?)?, "no interest")
}

/// Fails where these aren't the papers of file 1.
fn are_its_papers(papers: &[Paper]) -> Result<(), Fail> {
    want(papers.len() == 10, "ten papers")?;
    let stop = papers.get(5).ok_or("a paper")?;
    want(stop.number.get() == 6 && stop.day.get() == 19720, "a stop")?;
    want(stop.author.get() == 4, "its author")?;
    want(stop.sort == PaperSort::Stop, "its sort")?;
    want(stop.terms.as_str() == "A rail all round", "its terms")?;
    let certificate = papers.get(9).ok_or("a paper")?;
    want(certificate.sort == PaperSort::Certificate, "a certificate")?;
    want(certificate.day.get() == 19731, "its day")
}

#[test]
fn a_whole_life_leaves_its_papers(rt: HostRuntime) -> Result<(), Fail> {
    let mut store = whole(rt.alloc())?;
    let house = FileId::new(1).ok_or("a file")?;
    let notice = PaperNumber::new(8).ok_or("a paper")?;
    want(!store.has_open_notice(house, notice)?, "no open notice")?;
    are_its_papers(store.papers(house)?.as_slice())
}

/// Fails where the digest isn't that of the party.
fn is_digest_of(store: &mut PlainStore, digits: &str, number: u32) -> Result<(), Fail> {
    let party = store.party_by_token(&digest(digits)?)?.ok_or("a party")?;
    want(party.id.get() == number, "the party of the digest")
}

#[test]
fn a_party_is_found_by_the_digest_of_its_line(rt: HostRuntime) -> Result<(), Fail> {
    let mut store = whole(rt.alloc())?;
    is_digest_of(&mut store, FIVES, 5)
}

/// Fails where the first lines, so many, leave another last day than the last of them has.
fn leaves_its_day(alloc: Global, life: &[&'static str], count: usize) -> Result<(), Fail> {
    let lines = life.get(..count).ok_or("so many lines")?;
    let last = lines.last().ok_or("a line")?;
    let (_, rest) = last.split_once("\"day\":").ok_or("a day")?;
    let (day, _) = rest.split_once(',').ok_or("a comma")?;
    let day: u32 = day.parse()?;
    let mut store = store_of(alloc, lines)?;
    want(store.desk()?.last.get() == day, "the last day")
}

#[test]
fn each_beginning_is_replayed_to_its_last_day(rt: HostRuntime) -> Result<(), Fail> {
    let life = life(rt.alloc())?;
    for count in 2..life.len() {
        leaves_its_day(rt.alloc(), life.as_slice(), count)?;
    }
    Ok(())
}

#[test]
fn what_stands_behind_the_last_lf_is_no_line(rt: HostRuntime) -> Result<(), Fail> {
    let alloc = rt.alloc();
    let mut bytes = text(alloc, first(alloc, 3)?.as_slice())?;
    bytes.extend_from_slice(b"{\"body\"")?;
    let mut source = bytes.as_slice();
    let mut store = replay(alloc, Beginning::Founding, &mut source)
        .ok()
        .ok_or("a store")?;
    has_desk(&mut store, 19701, 2, 0, 0)
}

/// Whether a text is too short to describe an office.
fn is_short(alloc: Global, text: &[u8]) -> bool {
    let mut source = text;
    matches!(
        &replay(alloc, Beginning::Founding, &mut source),
        Err(ReplayFault::Short)
    )
}

#[test]
fn a_text_without_its_second_line_is_short(rt: HostRuntime) -> Result<(), Fail> {
    let alloc = rt.alloc();
    let one = text(alloc, first(alloc, 1)?.as_slice())?;
    let mut two = text(alloc, first(alloc, 2)?.as_slice())?;
    let _lf = two.pop();
    assert!(rt; is_short(alloc, b""));
    assert!(rt; is_short(alloc, one.as_slice()));
    assert!(rt; is_short(alloc, two.as_slice()));
    Ok(())
}

#[test]
fn a_renewed_token_is_its_partys_and_the_old_one_nobodys(rt: HostRuntime) -> Result<(), Fail> {
    let alloc = rt.alloc();
    let mut lines = life(alloc)?;
    lines.push(
        r#"{"body":{"digest":"@7","party":5},"caller":0,"day":0,"done":"renew-token","id":null,"number":null}"#,
    )?;
    lines.push(
        r#"{"body":{"digest":"@5","name":"Eve","role":"public"},"caller":2,"day":19732,"done":"add-party","id":null,"number":7}"#,
    )?;
    let mut store = store_of(alloc, lines.as_slice())?;
    has_desk(&mut store, 19732, 7, 1, 1)?;
    is_digest_of(&mut store, SEVENS, 5)?;
    is_digest_of(&mut store, FIVES, 7)
}
