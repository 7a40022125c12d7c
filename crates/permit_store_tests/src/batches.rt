//! Many changes by one commit, and the same one by one.

use crate::database::founded;
use permit_base::values::{Cents, Digest, PaperNumber};
use permit_base::words::{Edition, Kind, PaperSort, Role};
use permit_batch::batching::Batching;
use permit_batch::draft::Draft;
use permit_core::state::FileState;
use permit_samples::held::Held;
use permit_samples::makers::{day, digest_of, file, lot, parcel, party, text};
use permit_samples::tables::tables_text;
use permit_store::plain::PlainStore;
use permit_store::renewing::Renewing;
use permit_store::rows::{Change, NewPaper, RowEffect};
use permit_store::store::Store;
use std::alloc::Global;
use std::marker::Brand;
use std::test::Fail;

/// How often each change is made.
const TIMES: u32 = 50;

/// The digest of a token with a number.
fn numbered_digest(alloc: Global, word: &str, number: u32) -> Result<Digest, Fail> {
    let letters = format!(in alloc; "{word}{number}{word}{number}{word}{number}")?;
    digest_of(alloc, letters.as_str())
}

/// The row of a file on the parcel of the same number, with a count of papers.
fn row(number: u32, papers: u16) -> Result<FileState, Fail> {
    let mut fields = FileState::file(
        party(1)?,
        parcel(number)?,
        Kind::Repair,
        Edition::Second,
        day(19702)?,
    )
    .fields();
    fields.papers = papers;
    Ok(FileState::restore(fields).ok_or("a state")?)
}

/// One more party.
fn add_party<S: Renewing>(alloc: Global, store: &mut S, number: u32) -> Result<(), Fail> {
    let name = text(alloc, "Ada")?;
    let digest = numbered_digest(alloc, "first", number)?;
    let new = Change::NewParty {
        name: &name,
        role: Role::Clerk,
        digest,
    };
    store.commit(&new, day(19701)?)?;
    Ok(())
}

/// Another token of a party.
fn renew<S: Renewing>(alloc: Global, store: &mut S, number: u32) -> Result<(), Fail> {
    let digest = numbered_digest(alloc, "again", number)?;
    match store.renew(party(number)?, &digest)? {
        Ok(()) => Ok(()),
        Err(_) => Err(Fail::new("a renewal refused")),
    }
}

/// The parcel of a number, which party 1 owns.
fn add_parcel<S: Store>(alloc: Global, store: &mut S, number: u32) -> Result<(), Fail> {
    let letters = format!(in alloc; "A-{number}")?;
    let lot = lot(alloc, letters.as_str())?;
    let address = text(alloc, "1 Main Street")?;
    let new = Change::NewParcel {
        lot: &lot,
        address: &address,
        owner: party(1)?,
    };
    store.commit(&new, day(19701)?)?;
    Ok(())
}

/// Another owner of a parcel, and an interest in it.
fn give_parcel<S: Store>(store: &mut S, number: u32) -> Result<(), Fail> {
    let owner = Change::NewOwner {
        parcel: parcel(number)?,
        owner: party(2)?,
    };
    store.commit(&owner, day(19702)?)?;
    let interest = Change::NewInterest {
        parcel: parcel(number)?,
        party: party(1)?,
    };
    store.commit(&interest, day(19702)?)?;
    Ok(())
}

/// The file of a number.
fn add_file<S: Store>(alloc: Global, store: &mut S, number: u32) -> Result<(), Fail> {
    let description = text(alloc, "A shed")?;
    let new = Change::NewFile {
        state: row(number, 0)?,
        valuation: Cents::new(2_500_000).ok_or("an amount")?,
        description: &description,
    };
    store.commit(&new, day(19702)?)?;
    Ok(())
}

/// A notice of a file.
fn add_notice<S: Store>(alloc: Global, store: &mut S, number: u32) -> Result<(), Fail> {
    let words = text(alloc, "No footing")?;
    let notice = Change::NewRow {
        file: file(number)?,
        state: row(number, 1)?,
        effect: RowEffect::Paper(NewPaper {
            author: party(1)?,
            sort: PaperSort::Notice,
            days: 0,
            text: Some(&words),
            terms: None,
        }),
    };
    store.commit(&notice, day(19703)?)?;
    Ok(())
}

/// The notice of a file is closed, and then its row is set once more.
fn close_notice<S: Store>(store: &mut S, number: u32) -> Result<(), Fail> {
    let closed = Change::NewRow {
        file: file(number)?,
        state: row(number, 1)?,
        effect: RowEffect::NoticeClosed(PaperNumber::new(1).ok_or("a number")?),
    };
    store.commit(&closed, day(19704)?)?;
    let again = Change::NewRow {
        file: file(number)?,
        state: row(number, 1)?,
        effect: RowEffect::None,
    };
    store.commit(&again, day(19705)?)?;
    Ok(())
}

/// Makes each kind of change so many times, and as many renewals.
fn make_all<S: Renewing>(alloc: Global, store: &mut S) -> Result<(), Fail> {
    for place in 0..TIMES {
        add_party(alloc, store, place + 2)?;
        add_parcel(alloc, store, place + 1)?;
        give_parcel(store, place + 1)?;
        add_file(alloc, store, place + 1)?;
        add_notice(alloc, store, place + 1)?;
        close_notice(store, place + 1)?;
        renew(alloc, store, place + 2)?;
    }
    Ok(())
}

/// The tables after all changes, one by one.
fn made_one_by_one(alloc: Global) -> Result<String, Fail> {
    let store = &mut Held::new(founded(alloc)?).value;
    make_all(alloc, store)?;
    tables_text(alloc, store)
}

/// A draft of a store's tables.
fn drafted<S: Batching>(
    alloc: Global,
    store: &mut S,
) -> Result<Held<Draft<S, PlainStore, Brand>>, Fail> {
    let memory = PlainStore::load(alloc, store)?;
    Ok(Held::new(Draft::new(alloc, memory)))
}

/// The tables of a draft with all changes, which are then made in the store by one commit.
fn made_by_one_commit<S: Batching>(alloc: Global, store: &mut S) -> Result<String, Fail> {
    let mut draft = drafted(alloc, store)?;
    make_all(alloc, &mut draft.value)?;
    if store.desk()?.parties != 1 {
        return Err(Fail::new("a change before the commit"));
    }
    let text = tables_text(alloc, &mut draft.value)?;
    draft.value.commit_to(store)?;
    Ok(text)
}

#[test]
fn changes_by_one_commit_are_those_one_by_one(rt: HostRuntime) -> Result<(), Fail> {
    let alloc = rt.alloc();
    let single = made_one_by_one(alloc)?;
    let store = &mut Held::new(founded(alloc)?).value;
    let draft = made_by_one_commit(alloc, store)?;
    assert!(rt; draft.as_str() == single.as_str(), "{draft}");
    let kept = tables_text(alloc, store)?;
    assert!(rt; kept.as_str() == single.as_str(), "{kept}");
    let desk = store.desk()?;
    assert!(rt; (desk.parties, desk.parcels, desk.files) == (TIMES + 1, TIMES, TIMES));
    Ok(())
}

/// A party and parcel 1 by one commit, to a store that has a parcel 1 by then. Whether they were made.
fn is_made_too_late<S: Batching>(alloc: Global, store: &mut S) -> Result<bool, Fail> {
    let mut draft = drafted(alloc, store)?;
    add_party(alloc, &mut draft.value, 2)?;
    add_parcel(alloc, &mut draft.value, 1)?;
    add_parcel(alloc, store, 1)?;
    Ok(draft.value.commit_to(store).is_ok())
}

#[test]
fn a_change_that_fails_takes_those_before_it_along(rt: HostRuntime) -> Result<(), Fail> {
    let alloc = rt.alloc();
    let store = &mut Held::new(founded(alloc)?).value;
    assert!(rt; !is_made_too_late(alloc, store)?);
    let desk = store.desk()?;
    assert!(rt; (desk.parties, desk.parcels, desk.files) == (1, 1, 0));
    assert!(rt; store.party(party(2)?)?.is_none());
    Ok(())
}
