//! The last party, parcel, file and paper that there can be, over vectors, and a listing and a register of thousands of
//! files. A lower limit of the store or of a listing would be a refusal for memory to every clause.

use permit_base::values::{Cents, Day, Digest, Text};
use permit_base::words::{Edition, Kind, PaperSort, Role, Stage};
use permit_core::restore::StateFields;
use permit_core::state::FileState;
use permit_office::office::Office;
use permit_samples::makers::{day, file, lot, parcel, party, text};
use permit_samples::offices::{office_over, over_vectors};
use permit_samples::opening::OPENING;
use permit_samples::script::play;
use permit_samples::standard::POLICY;
use permit_store::plain::PlainStore;
use permit_store::rows::{Change, NewPaper, RowEffect};
use permit_store::store::Store;
use std::alloc::Global;
use std::test::*;

/// How many parties, parcels and files there can be.
const RECORDS: u32 = 99999;

/// How many papers a file can have.
const PAPERS: u32 = 9999;

/// How many files are listed.
const LISTED: u32 = 12000;

/// The day on which all but the last are made.
const FILED: u32 = 19723;

/// The last of each, and the refusal of one after it. File 1 is shown with all its papers.
const LAST: &str = r#"
> 1 19723 POST /parties {"name":"Last","role":"public","token":"last0last0last0last0"}
< 200 OK {"day":19723,"done":"add-party","number":99999}
> 1 19723 POST /parties {"name":"Next","role":"public","token":"next0next0next0next0"}
< 409 Conflict {"reason":"full","refused":"not-admitted"}
> 1 19723 POST /parcels {"lot":"LAST","address":"1 Last Street","owner":99999}
< 200 OK {"day":19723,"done":"add-parcel","number":99999}
> 1 19723 POST /parcels {"lot":"NEXT","address":"1 Last Street","owner":5}
< 409 Conflict {"reason":"full","refused":"not-admitted"}
> 1 19723 GET /parcels/99999
< 200 OK {"address":"1 Last Street","id":99999,"lot":"LAST","owner":99999}
> 5 19723 POST /files {"parcel":1,"kind":"repair","valuation":100,"description":"Last"}
< 200 OK {"day":19723,"done":"file","number":99999}
> 5 19723 POST /files {"parcel":1,"kind":"repair","valuation":100,"description":"Next"}
< 409 Conflict {"reason":"full","refused":"not-admitted"}
> 3 19723 POST /files/1/return {"text":"Once more"}
< 200 OK {"day":19723,"done":"return","number":9999}
> 5 19723 POST /files/1/resubmit {"text":"Again"}
< 409 Conflict {"reason":"full","refused":"not-admitted"}
> 1 19723 GET /files/1
~ "number":9998,
~ "number":9999,
"#;

/// The register of the files that are listed.
const REGISTER: &str = r#"
> 1 19723 GET /registers/files
~     2      1 repair    filed     ahead  2024-06-29           100
~ 12000      1 repair    filed     ahead  2024-06-29           100
~ files 12000
"#;

/// What precedes the last five digits of a digest.
const ZEROS: &str = "00000000000000000000000000000000000000000000000000000000000";

/// The state of file 1 with so many papers: party 3 reviews it, or has returned it.
fn reviewed(stage: Stage, papers: u16, on: Day) -> Result<FileState, Fail> {
    let fields = StateFields {
        parcel: parcel(1)?,
        applicant: party(5)?,
        contractor: None,
        reviewer: Some(party(3)?),
        inspector: None,
        kind: Kind::Repair,
        edition: Edition::Second,
        filed: on,
        stage,
        deadline: Some(19903),
        done: 0,
        request: None,
        requested: None,
        ask: None,
        stopped: false,
        notices: 0,
        papers,
        temporary: None,
    };
    Ok(FileState::restore(fields).ok_or("a state")?)
}

/// The texts of what is made.
#[derive(Drop)]
struct Texts {
    name: Text,
    address: Text,
    description: Text,
    reason: Text,
}

/// The party, the parcel, the file and the paper of file 1 of a number, but for those that are there or are to come last.
/// File 1 is returned and resubmitted in turn. They are made in one place: a change that is built where the types of
/// another aren't named is none that the prover takes.
fn add(
    alloc: Global,
    store: &mut PlainStore,
    texts: &Texts,
    number: u32,
    on: Day,
) -> Result<(), Fail> {
    let letters = format!(in alloc; "{ZEROS}{number:05}")?;
    let digest = Digest::read(letters.as_str()).ok_or("a digest")?;
    let letters = lot(alloc, format!(in alloc; "LOT-{number}")?.as_str())?;
    let (owner, land) = (party(5)?, parcel(1)?);
    if number > 7 {
        let (name, role) = (&texts.name, Role::Public);
        store.commit(
            &Change::NewParty {
                name,
                role,
                digest,
            },
            on,
        )?;
    }
    if number > 2 {
        let (lot, address) = (&letters, &texts.address);
        store.commit(
            &Change::NewParcel {
                lot,
                address,
                owner,
            },
            on,
        )?;
    }
    let state = FileState::file(owner, land, Kind::Repair, Edition::Second, on);
    let (valuation, description) = (Cents::new(100).ok_or("cents")?, &texts.description);
    store.commit(
        &Change::NewFile {
            state,
            valuation,
            description,
        },
        on,
    )?;
    if number < PAPERS {
        let is_returned = number % 2 == 1;
        let (stage, author, sort) = if is_returned {
            (Stage::Returned, 3, PaperSort::Returned)
        } else {
            (Stage::Review, 5, PaperSort::Resubmitted)
        };
        let paper = NewPaper {
            author: party(author)?,
            sort,
            days: 0,
            text: Some(&texts.reason),
            terms: None,
        };
        let (file, state) = (file(1)?, reviewed(stage, number as u16, on)?);
        store.commit(
            &Change::NewRow {
                file,
                state,
                effect: RowEffect::Paper(paper),
            },
            on,
        )?;
    }
    Ok(())
}

/// Adds what has the numbers from 1 up to this one, which isn't among them.
fn add_below(alloc: Global, store: &mut PlainStore, end: u32) -> Result<(), Fail> {
    let texts = Texts {
        name: text(alloc, "Party")?,
        address: text(alloc, "1 Main Street")?,
        description: text(alloc, "Roof")?,
        reason: text(alloc, "Set-backs")?,
    };
    let on = day(FILED)?;
    for number in 1..end {
        add(alloc, store, &texts, number, on)?;
    }
    Ok(())
}

/// The store of the opening's office.
fn opened(alloc: Global) -> Result<PlainStore, Fail> {
    let mut office = over_vectors(alloc)?;
    play(alloc, &mut office, OPENING)?;
    Ok(office.into_store())
}

/// The office with all but the last of each.
fn nearly_full(alloc: Global) -> Result<Office<PlainStore>, Fail> {
    let mut store = opened(alloc)?;
    add_below(alloc, &mut store, RECORDS)?;
    office_over(alloc, store, POLICY)
}

#[test]
fn the_last_records_that_there_can_be(rt: HostRuntime) -> Result<(), Fail> {
    let alloc = rt.alloc();
    let mut office = nearly_full(alloc)?;
    play(alloc, &mut office, LAST)?;
    Ok(())
}

/// Fails where the listing's files aren't those that were filed, in rising number.
fn has_all(listing: &str) -> Result<(), Fail> {
    let mut rest = listing;
    for number in 1..LISTED.wrapping_add(1) {
        let (_, behind) = rest.split_once("\"id\":").ok_or("one file more")?;
        let (digits, behind) = behind.split_once(',').ok_or("a number's end")?;
        if digits.parse::<u32>() != Ok(number) {
            return Err(Fail::new("the next file"));
        }
        rest = behind;
    }
    if rest.contains("\"id\":") {
        return Err(Fail::new("no file behind the last"));
    }
    Ok(())
}

#[test]
fn thousands_of_files_are_listed(rt: HostRuntime) -> Result<(), Fail> {
    let alloc = rt.alloc();
    let mut store = opened(alloc)?;
    add_below(alloc, &mut store, LISTED.wrapping_add(1))?;
    let mut office = office_over(alloc, store, POLICY)?;
    play(alloc, &mut office, REGISTER)?;
    let listing = play(alloc, &mut office, "> 1 19723 GET /files\n")?;
    has_all(listing.as_str())
}
