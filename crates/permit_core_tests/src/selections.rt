//! The rows that a store over vectors selects, and those that it passes to a taker.

use permit_base::route::{By, Route};
use permit_base::values::PartyId;
use permit_base::words::{Relation, Timing};
use permit_samples::found::{Numbers, add_files, filed};
use permit_samples::makers::{day, party};
use permit_samples::offices::founder;
use permit_store::plain::PlainStore;
use permit_store::store::Store;
use std::alloc::Global;
use std::test::Fail;

/// Selections of filed rows on day 19860, when 20 days are left for the first two files, and 40 for the third: the
/// caller, the relation or relations, the timing, and the numbers of the files found.
const SELECTIONS: [(u32, By, Timing, &[u32]); 10] = [
    (2, By::Whole, Timing::Near, &[1, 2]),
    (2, By::Whole, Timing::Ahead, &[3]),
    (2, By::Whole, Timing::Past, &[]),
    (2, By::One(Relation::Applicant), Timing::Near, &[1]),
    (2, By::One(Relation::Owner), Timing::Near, &[1, 2]),
    (3, By::One(Relation::Conflict), Timing::Near, &[1, 2]),
    (2, By::One(Relation::Conflict), Timing::Near, &[]),
    (2, OWN, Timing::Near, &[1]),
    (2, OWN, Timing::Ahead, &[]),
    (
        3,
        By::Two(Relation::Applicant, Relation::Conflict),
        Timing::Near,
        &[2],
    ),
];

/// Who applied for a file on a parcel of their own.
const OWN: By = By::Two(Relation::Applicant, Relation::Owner);

/// A store over vectors with three files.
fn with_files(alloc: Global) -> Result<PlainStore, Fail> {
    let mut store = PlainStore::create(alloc, &founder(alloc)?)?;
    add_files(&mut store, alloc)?;
    Ok(store)
}

/// The numbers that a selection gives the caller on that day.
fn selected<S: Store>(
    store: &mut S,
    alloc: Global,
    caller: u32,
    route: Route,
) -> Result<Vec<u32>, Fail> {
    let rows = store.select(&route, party(caller)?, day(19860)?)?;
    let mut numbers = Vec::new(alloc);
    for found in &rows {
        numbers.push(found.row.id.get())?;
    }
    Ok(numbers)
}

/// The numbers that a taker of so many is passed on that day, and whether it took each row.
fn passed<S: Store>(
    store: &mut S,
    alloc: Global,
    caller: u32,
    route: Route,
    most: usize,
) -> Result<(bool, Vec<u32>), Fail> {
    let mut taker = Numbers {
        taken: Vec::new(alloc),
        most,
    };
    let all = store.each(&route, party(caller)?, day(19860)?, &mut taker)?;
    let Numbers { taken, most: _ } = taker;
    Ok((all, taken))
}

#[test]
fn every_row_comes_with_owner_and_interest(rt: HostRuntime) -> Result<(), Fail> {
    let mut store = with_files(rt.alloc())?;
    let rows = store.select(&Route::Every, party(3)?, day(19860)?)?;
    let expected = [(Some(2), true), (Some(2), true), (Some(3), false)];
    assert_eq!(rt; rows.len(), 3);
    for (found, (owner, interest)) in rows.iter().zip(expected) {
        assert!(rt; found.owner.map(PartyId::get) == owner && found.conflict == interest);
    }
    Ok(())
}

#[test]
fn a_cell_has_its_rows(rt: HostRuntime) -> Result<(), Fail> {
    let mut store = with_files(rt.alloc())?;
    for (caller, by, timing, numbers) in SELECTIONS {
        let route = filed(by, timing);
        let found = selected(&mut store, rt.alloc(), caller, route)?;
        assert!(rt; found.as_slice() == numbers, "{numbers:?}");
        let (all, taken) = passed(&mut store, rt.alloc(), caller, route, 9)?;
        assert!(rt; all && taken.as_slice() == numbers, "{numbers:?}");
    }
    Ok(())
}

#[test]
fn a_taker_stops(rt: HostRuntime) -> Result<(), Fail> {
    let mut store = with_files(rt.alloc())?;
    let owner = filed(By::One(Relation::Owner), Timing::Near);
    let (all, taken) = passed(&mut store, rt.alloc(), 2, owner, 1)?;
    assert!(rt; !all && taken.as_slice() == [1].as_slice());
    let (all, taken) = passed(&mut store, rt.alloc(), 2, Route::Every, 9)?;
    assert!(rt; all && taken.as_slice() == [1, 2, 3].as_slice());
    Ok(())
}
