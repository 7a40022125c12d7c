//! What a policy allows in each cell, and the selections of its listings.

use permit_base::request::{FileStage, Filter};
use permit_base::route::{By, Route};
use permit_base::words::{Action, Relation, Relations, Role, Stage, Timing, Word};
use permit_policy::cell::Cell;
use permit_policy::masks::compile;
use permit_policy::read_policy;
use permit_policy::routes::routes;
use permit_samples::held::Held;
use permit_samples::standard::POLICY;
use std::alloc::Global;
use std::test::Fail;

/// Nobody lists what they own, and the assigned reviewer lists the rest.
const NOT_OWN: &str = "\
[[rule]]\n\
name = \"not-own\"\n\
effect = \"deny\"\n\
relation = [\"owner\"]\n\
\n\
[[rule]]\n\
name = \"mine\"\n\
effect = \"allow\"\n\
relation = [\"assigned-reviewer\"]\n\
action = [\"list\"]\n\
";

/// Who is owner and contractor lists.
const OWN_CONTRACT: &str = "\
[[rule]]\n\
name = \"own-contract\"\n\
effect = \"allow\"\n\
both = [\"owner\", \"contractor\"]\n\
action = [\"list\"]\n\
";

/// Listings under a policy by a role, of all files, of those that are due or of a stage, each with the count of its
/// selections.
const COUNTS: [(&str, Role, &str, usize); 11] = [
    (POLICY, Role::Official, "all", 1),
    (POLICY, Role::Official, "issued", 4),
    (POLICY, Role::Clerk, "due", 24),
    (POLICY, Role::Reviewer, "abandoned", 32),
    (POLICY, Role::Reviewer, "all", 176),
    (POLICY, Role::Public, "all", 96),
    (POLICY, Role::Public, "due", 36),
    (POLICY, Role::Public, "lapsed", 0),
    (NOT_OWN, Role::Reviewer, "all", 44),
    (OWN_CONTRACT, Role::Public, "all", 44),
    ("", Role::Official, "all", 0),
];

/// Who is owner and contractor.
const BUILDER: By = By::Two(Relation::Contractor, Relation::Owner);

/// Listings of which each selection opens the same rows of a cell, of one stage where the listing is.
const CELLS: [(&str, Role, &str, By, Option<Stage>); 3] = [
    (
        POLICY,
        Role::Official,
        "issued",
        By::Whole,
        Some(Stage::Issued),
    ),
    (
        NOT_OWN,
        Role::Reviewer,
        "all",
        By::One(Relation::AssignedReviewer),
        None,
    ),
    (OWN_CONTRACT, Role::Public, "all", BUILDER, None),
];

/// The first selection of abandoned files: they are found by the stage that is kept.
const FIRST_ABANDONED: Route = Route::Cell {
    by: By::One(Relation::Applicant),
    stage: Stage::Filed,
    stopped: false,
    timing: Timing::Past,
};

/// The last one.
const LAST_ABANDONED: Route = Route::Cell {
    by: By::One(Relation::AssignedReviewer),
    stage: Stage::Approved,
    stopped: true,
    timing: Timing::Past,
};

/// Listings under the standard policy with their first selection and their last.
const ENDS: [(Role, &str, Route, Route); 2] = [
    (Role::Official, "all", Route::Every, Route::Every),
    (Role::Reviewer, "abandoned", FIRST_ABANDONED, LAST_ABANDONED),
];

/// The filter of a listing of all files, of those that are due, or of a stage.
fn filter_of(word: &str) -> Option<Filter> {
    match word {
        "all" => Some(Filter::All),
        "due" => Some(Filter::Due),
        _ => Some(Filter::InStage(FileStage::new(Stage::read(word)?)?)),
    }
}

/// The selections of a listing by the role.
fn listing(alloc: Global, text: &str, role: Role, filter: &str) -> Result<Vec<Route>, Fail> {
    let filter = filter_of(filter).ok_or("a filter")?;
    let policy = Held::new(read_policy(alloc, text)?);
    let masks = Held::new(compile(alloc, &policy.value, role, Action::List)?);
    Ok(routes(alloc, &masks.value, filter)?)
}

#[test]
fn listings_have_their_selections(rt: HostRuntime) -> Result<(), Fail> {
    for (text, role, filter, count) in COUNTS {
        assert!(rt;
            listing(rt.alloc(), text, role, filter)?.len() == count,
            "{filter} {count}"
        );
    }
    for (role, filter, first, last) in ENDS {
        let routes = listing(rt.alloc(), POLICY, role, filter)?;
        assert!(rt; routes.first().copied() == Some(first), "{filter}");
        assert!(rt; routes.last().copied() == Some(last), "{filter}");
    }
    Ok(())
}

/// Whether a selection opens these rows of a cell, of the stage if one is given.
fn opens(route: &Route, rows: By, only: Option<Stage>) -> bool {
    match *route {
        Route::Cell { by, stage, .. } => by == rows && (only.is_none() || only == Some(stage)),
        Route::Every => false,
    }
}

#[test]
fn each_selection_opens_the_same_rows(rt: HostRuntime) -> Result<(), Fail> {
    for (text, role, filter, rows, stage) in CELLS {
        for route in &listing(rt.alloc(), text, role, filter)? {
            assert!(rt; opens(route, rows, stage), "{filter}");
        }
    }
    Ok(())
}

#[test]
fn masks_tell_sets_apart(rt: HostRuntime) -> Result<(), Fail> {
    let policy = Held::new(read_policy(rt.alloc(), NOT_OWN)?);
    let masks = Held::new(compile(rt.alloc(), &policy.value, Role::Reviewer, Action::List)?);
    let cell = Cell {
        stage: Stage::Review,
        stopped: false,
        timing: Timing::Ahead,
    };
    let reviewer = Relations {
        applicant: false,
        contractor: true,
        owner: false,
        assigned_reviewer: true,
        assigned_inspector: false,
        conflict: true,
    };
    assert!(rt; masks.value.may(cell, reviewer));
    let owner = Relations {
        owner: true,
        ..reviewer
    };
    assert!(rt; !masks.value.may(cell, owner));
    let masks = Held::new(compile(rt.alloc(), &policy.value, Role::Reviewer, Action::Read)?);
    assert!(rt; !masks.value.may(cell, reviewer));
    Ok(())
}
