//! The rows of several selections at once, over a database.

use crate::database::founded;
use permit_base::route::By;
use permit_base::words::{Relation, Timing};
use permit_samples::found::{Numbers, add_files, filed};
use permit_samples::held::Held;
use permit_samples::makers::{day, party};
use permit_store::store::Store;
use std::alloc::Global;
use std::test::Fail;

const APPLICANT: By = By::One(Relation::Applicant);

const CONTRACTOR: By = By::One(Relation::Contractor);

const OWNER: By = By::One(Relation::Owner);

const REVIEWER: By = By::One(Relation::AssignedReviewer);

const INSPECTOR: By = By::One(Relation::AssignedInspector);

const CONFLICT: By = By::One(Relation::Conflict);

const BOTH: By = By::Two(Relation::Conflict, Relation::Applicant);

/// A caller, by what the files near their deadline are selected and by what those ahead of it, and how many are found on
/// day 19860, with their numbers added up.
const SELECTIONS: [(u32, By, By, usize, u32); 12] = [
    (2, APPLICANT, APPLICANT, 2, 4),
    (3, APPLICANT, APPLICANT, 1, 2),
    (2, OWNER, OWNER, 2, 3),
    (3, OWNER, OWNER, 1, 3),
    (3, CONFLICT, CONFLICT, 2, 3),
    (2, CONFLICT, CONFLICT, 0, 0),
    (2, CONTRACTOR, CONTRACTOR, 0, 0),
    (2, REVIEWER, REVIEWER, 0, 0),
    (2, INSPECTOR, INSPECTOR, 0, 0),
    (3, BOTH, BOTH, 1, 2),
    (3, By::Whole, OWNER, 3, 6),
    (3, APPLICANT, OWNER, 2, 5),
];

/// How many rows of these files the caller is given, and their numbers added up.
fn sum<S: Store>(
    store: &mut S,
    alloc: Global,
    caller: u32,
    near: By,
    ahead: By,
) -> Result<(usize, u32), Fail> {
    let (caller, on) = (party(caller)?, day(19860)?);
    let routes = [filed(near, Timing::Near), filed(ahead, Timing::Ahead)];
    let mut taker = Numbers {
        taken: Vec::new(alloc),
        most: 9,
    };
    let all = store.each_of_any(&routes, caller, on, &mut taker)?;
    if !all {
        return Err("stopped")?;
    }
    let mut sum: u32 = 0;
    for number in &taker.taken {
        sum = sum.wrapping_add(*number);
    }
    Ok((taker.taken.len(), sum))
}

#[test]
fn several_selections(rt: HostRuntime) -> Result<(), Fail> {
    let alloc = rt.alloc();
    let store = &mut Held::new(founded(alloc)?).value;
    add_files(store, alloc)?;
    for (place, (caller, near, ahead, count, total)) in SELECTIONS.iter().enumerate() {
        let given = sum(store, alloc, *caller, *near, *ahead)?;
        assert!(rt;
            given == (*count, *total),
            "selection {place} of caller {caller}"
        );
    }
    Ok(())
}
