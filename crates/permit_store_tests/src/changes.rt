//! Each change, and what a store over a database shows after it, by each of its reads.

use crate::database::founded;
use permit_base::values::{Cents, Day, FileId, Lot, PaperNumber, ParcelId, PartyId, Text};
use permit_base::words::{Edition, Kind, PaperSort, Role, Word};
use permit_core::state::FileState;
use permit_samples::ask::TOKENS;
use permit_samples::held::Held;
use permit_samples::makers::{day, digest_of, file, lot, parcel, party, text};
use permit_store::rows::{Change, NewPaper, RowEffect};
use permit_store::store::Store;
use std::alloc::Global;
use std::test::Fail;

/// What the store shows after the founding and then after each change, in lines as `shown` writes them.
const SHOWN: [&str; 9] = [
    "desk 19700 1 0 0, party 2: 0 none none, 3: none, parcel 1: 0 0 0, 2: 0, interests false false 0 0, file 1: none none, 2: none, notices none false false",
    "desk 19701 2 0 0, party 2: 2 clerk clerk, 3: none, parcel 1: 0 0 0, 2: 0, interests false false 0 0, file 1: none none, 2: none, notices none false false",
    "desk 19701 2 1 0, party 2: 2 clerk clerk, 3: none, parcel 1: 1 1 1, 2: 0, interests false false 0 0, file 1: none none, 2: none, notices none false false",
    "desk 19702 2 1 0, party 2: 2 clerk clerk, 3: none, parcel 1: 1 2 2, 2: 0, interests false false 0 0, file 1: none none, 2: none, notices none false false",
    "desk 19702 2 1 0, party 2: 2 clerk clerk, 3: none, parcel 1: 1 2 2, 2: 0, interests true false 1 1, file 1: none none, 2: none, notices none false false",
    "desk 19702 2 1 1, party 2: 2 clerk clerk, 3: none, parcel 1: 1 2 2, 2: 0, interests true false 1 1, file 1: 0 0, 2: none, notices none false false",
    "desk 19703 2 1 1, party 2: 2 clerk clerk, 3: none, parcel 1: 1 2 2, 2: 0, interests true false 1 1, file 1: 1 1, 2: none, notices open true false",
    "desk 19704 2 1 1, party 2: 2 clerk clerk, 3: none, parcel 1: 1 2 2, 2: 0, interests true false 1 1, file 1: 1 1, 2: none, notices closed false false",
    "desk 19705 2 1 1, party 2: 2 clerk clerk, 3: none, parcel 1: 1 2 2, 2: 0, interests true false 1 1, file 1: 1 1, 2: none, notices closed false false",
];

/// The row of file 1 with a count of papers.
fn state(papers: u16) -> Result<FileState, Fail> {
    let mut fields = FileState::file(
        party(1)?,
        parcel(1)?,
        Kind::Repair,
        Edition::Second,
        day(19702)?,
    )
    .fields();
    fields.papers = papers;
    Ok(FileState::restore(fields).ok_or("a state")?)
}

fn role_word(role: Option<Role>) -> &'static str {
    match role {
        Some(role) => role.word(),
        None => "none",
    }
}

/// The last day and the counts; the number, the role and the role alone of the second token's party, and the role alone
/// of party 3.
fn parties_shown<S: Store>(alloc: Global, store: &mut S) -> Result<String, Fail> {
    let desk = store.desk()?;
    let (last, parties, parcels, files) = (desk.last.get(), desk.parties, desk.parcels, desk.files);
    let number = match store.party_by_token(&digest_of(alloc, TOKENS[1])?)? {
        Some(found) => found.id.get(),
        None => 0,
    };
    let role = match store.party(party(2)?)? {
        Some(found) => found.role.word(),
        None => "none",
    };
    let second = role_word(store.role(party(2)?)?);
    let third = role_word(store.role(party(3)?)?);
    Ok(format!(in alloc;
        "desk {last} {parties} {parcels} {files}, party 2: {number} {role} {second}, 3: {third}"
    )?)
}

/// The number of the owner of a parcel, alone; 0 where there is no such parcel.
fn owner_of<S: Store>(store: &mut S, number: u32) -> Result<u32, Fail> {
    match store.owner(parcel(number)?)? {
        Some(owner) => Ok(owner.get()),
        None => Ok(0),
    }
}

/// The parcel and the party of the interest that is listed; 0 where none is.
fn interest_listed<S: Store>(store: &mut S) -> Result<(u32, u32), Fail> {
    let interests = store.interests()?;
    match interests.as_slice() {
        [] => Ok((0, 0)),
        [only] => Ok((only.parcel.get(), only.party.get())),
        _ => Err(Fail::new("more interests than were declared")),
    }
}

/// The number of the lot's parcel, its owner, and the owner alone; the owner of parcel 2; whether parties 1 and 2 have an
/// interest in parcel 1; and the interest that is listed.
fn parcels_shown<S: Store>(alloc: Global, store: &mut S) -> Result<String, Fail> {
    let number = match store.parcel_by_lot(&lot(alloc, "A-1")?)? {
        Some(found) => found.id.get(),
        None => 0,
    };
    let owner = match store.parcel(parcel(1)?)? {
        Some(found) => found.owner.get(),
        None => 0,
    };
    let (alone, second) = (owner_of(store, 1)?, owner_of(store, 2)?);
    let land = parcel(1)?;
    let (one, two) = (
        store.interest(land, party(1)?)?,
        store.interest(land, party(2)?)?,
    );
    let (listed, by) = interest_listed(store)?;
    Ok(format!(in alloc;
        "parcel 1: {number} {owner} {alone}, 2: {second}, interests {one} {two} {listed} {by}"
    )?)
}

/// A count of papers, if there is one.
fn count_shown(alloc: Global, state: Option<FileState>) -> Result<String, Fail> {
    let Some(state) = state else {
        return Ok(String::from_str(alloc, "none")?);
    };
    let papers = state.papers();
    Ok(format!(in alloc; "{papers}")?)
}

/// The counts of papers of files 1 and 2, whether the first paper of file 1 is open, and whether its papers 1 and 2 are
/// open notices.
fn files_shown<S: Store>(alloc: Global, store: &mut S) -> Result<String, Fail> {
    let id = file(1)?;
    let row = match store.file(id)? {
        Some(row) => Some(row.state),
        None => None,
    };
    let first = store.state(id)?;
    let second = store.state(file(2)?)?;
    let paper = match store.papers(id)?.first() {
        Some(paper) if paper.is_open => "open",
        Some(_) => "closed",
        None => "none",
    };
    let one = store.has_open_notice(id, PaperNumber::new(1).ok_or("a number")?)?;
    let two = store.has_open_notice(id, PaperNumber::new(2).ok_or("a number")?)?;
    let row = count_shown(alloc, row)?;
    let first = count_shown(alloc, first)?;
    let second = count_shown(alloc, second)?;
    let (row, first, second) = (row.as_str(), first.as_str(), second.as_str());
    Ok(format!(in alloc; "file 1: {row} {first}, 2: {second}, notices {paper} {one} {two}")?)
}

/// Fails where the store shows something else than the line.
fn shows<S: Store>(alloc: Global, store: &mut S, wanted: &str) -> Result<(), Fail> {
    let parties = parties_shown(alloc, store)?;
    let parcels = parcels_shown(alloc, store)?;
    let files = files_shown(alloc, store)?;
    let (parties, parcels, files) = (parties.as_str(), parcels.as_str(), files.as_str());
    let shown = format!(in alloc; "{parties}, {parcels}, {files}")?;
    if shown.as_str() == wanted {
        return Ok(());
    }
    Err(Fail::new(format!(in alloc; "{shown}, wanted {wanted}")?))
}

/// Commits a change, and fails where the store then shows something else than the line.
fn commit<S: Store>(
    alloc: Global,
    store: &mut S,
    change: &Change<'_>,
    on: Day,
    wanted: &str,
) -> Result<(), Fail> {
    store.commit(change, on)?;
    shows(alloc, store, wanted)
}

/// The texts of the changes.
#[derive(Drop)]
struct Texts {
    ada: Text,
    shed: Text,
    words: Text,
    address: Text,
    letters: Lot,
}

impl Texts {
    fn new(alloc: Global) -> Result<Texts, Fail> {
        let ada = text(alloc, "Ada")?;
        let shed = text(alloc, "A shed")?;
        let words = text(alloc, "No footing")?;
        let address = text(alloc, "1 Main Street")?;
        Ok(Texts {
            ada,
            shed,
            words,
            address,
            letters: lot(alloc, "A-1")?,
        })
    }
}

/// The numbers and states of the changes.
#[derive(Clone, Copy)]
struct Numbers {
    one: PartyId,
    two: PartyId,
    land: ParcelId,
    id: FileId,
    notice: PaperNumber,
    valuation: Cents,
    without_papers: FileState,
    with_paper: FileState,
}

impl Numbers {
    fn new() -> Result<Numbers, Fail> {
        Ok(Numbers {
            one: party(1)?,
            two: party(2)?,
            land: parcel(1)?,
            id: file(1)?,
            notice: PaperNumber::new(1).ok_or("a number")?,
            valuation: Cents::new(2_500_000).ok_or("an amount")?,
            without_papers: state(0)?,
            with_paper: state(1)?,
        })
    }
}

/// Ada, a clerk, as party 2; lot A-1 as parcel 1 of party 1, which then party 2 owns and in which party 1 has an
/// interest.
fn people_and_land<S: Store>(
    alloc: Global,
    store: &mut S,
    numbers: &Numbers,
    texts: &Texts,
) -> Result<(), Fail> {
    let digest = digest_of(alloc, TOKENS[1])?;
    let party = Change::NewParty {
        name: &texts.ada,
        role: Role::Clerk,
        digest,
    };
    commit(alloc, store, &party, day(19701)?, SHOWN[1])?;
    let parcel = Change::NewParcel {
        lot: &texts.letters,
        address: &texts.address,
        owner: numbers.one,
    };
    commit(alloc, store, &parcel, day(19701)?, SHOWN[2])?;
    let owner = Change::NewOwner {
        parcel: numbers.land,
        owner: numbers.two,
    };
    commit(alloc, store, &owner, day(19702)?, SHOWN[3])?;
    let interest = Change::NewInterest {
        parcel: numbers.land,
        party: numbers.one,
    };
    commit(alloc, store, &interest, day(19702)?, SHOWN[4])
}

/// File 1, with a notice that is closed, and a row once more.
fn rows_of_a_file<S: Store>(
    alloc: Global,
    store: &mut S,
    numbers: &Numbers,
    texts: &Texts,
) -> Result<(), Fail> {
    let file = Change::NewFile {
        state: numbers.without_papers,
        valuation: numbers.valuation,
        description: &texts.shed,
    };
    commit(alloc, store, &file, day(19702)?, SHOWN[5])?;
    let paper = Change::NewRow {
        file: numbers.id,
        state: numbers.with_paper,
        effect: RowEffect::Paper(NewPaper {
            author: numbers.one,
            sort: PaperSort::Notice,
            days: 0,
            text: Some(&texts.words),
            terms: None,
        }),
    };
    commit(alloc, store, &paper, day(19703)?, SHOWN[6])?;
    let closed = Change::NewRow {
        file: numbers.id,
        state: numbers.with_paper,
        effect: RowEffect::NoticeClosed(numbers.notice),
    };
    commit(alloc, store, &closed, day(19704)?, SHOWN[7])?;
    let row = Change::NewRow {
        file: numbers.id,
        state: numbers.with_paper,
        effect: RowEffect::None,
    };
    commit(alloc, store, &row, day(19705)?, SHOWN[8])
}

#[test]
fn each_change_is_shown(rt: HostRuntime) -> Result<(), Fail> {
    let alloc = rt.alloc();
    let numbers = Numbers::new()?;
    let texts = Held::new(Texts::new(alloc)?);
    let store = &mut Held::new(founded(alloc)?).value;
    shows(alloc, store, SHOWN[0])?;
    people_and_land(alloc, store, &numbers, &texts.value)?;
    rows_of_a_file(alloc, store, &numbers, &texts.value)
}
