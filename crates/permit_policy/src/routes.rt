//! The selections by which the rows of a listing are found.

ghost use Rattle.std.specs.Prelude.{◌≡◌, ◌&&◌, ◌++◌, ℕ, map, IfOk, IsPermutation};
ghost use Rattle.std.specs.List.{flat_map, list_all};
ghost use Rattle.permit_base.specs.declared.words.Action.TheVariants as action;
ghost use Rattle.permit_model.specs.Caller.{Party};
ghost use Rattle.permit_model.specs.History.{History};
ghost use Rattle.permit_model.specs.Opened.{allowed_as_two, allowed_by, opened};
ghost use Rattle.permit_model.specs.Routes.{kept_cells, route_by, routes_in, routes_of, is_open_to_all, is_all, Found, found_by};
ghost use Rattle.permit_model.specs.Tables.{file_row, tables};
ghost use Rattle.permit_policy.specs.Kept.{is_kept};
ghost use Rattle.permit_policy.specs.Masks.{has_set, may};
ghost use Rattle.permit_policy.specs.Selections.{items_of, all_bys, opens, is_opened, selection, selections_by_cells, selections_of};

use crate::cell::{CELLS, Cell};
use crate::decide::Policy;
use crate::masks::Masks;
use crate::sets::{both_of, has_set, no_relations, only};
use permit_base::request::Filter;
use permit_base::route::{By, Route};
use permit_base::words::{Relation, Role};
use std::alloc::{AllocError, Global};

/// The most routes of a listing: 44 cells of kept rows, with 15 pairs of relations each.
const MOST_ROUTES: usize = 660;

/// What may be asked of the caller: nothing, one relation, or two, by their codes.
static BYS: [By; 22] = [
    By::Whole,
    By::One(Relation::Applicant),
    By::One(Relation::Contractor),
    By::One(Relation::Owner),
    By::One(Relation::AssignedReviewer),
    By::One(Relation::AssignedInspector),
    By::One(Relation::Conflict),
    By::Two(Relation::Applicant, Relation::Contractor),
    By::Two(Relation::Applicant, Relation::Owner),
    By::Two(Relation::Applicant, Relation::AssignedReviewer),
    By::Two(Relation::Applicant, Relation::AssignedInspector),
    By::Two(Relation::Applicant, Relation::Conflict),
    By::Two(Relation::Contractor, Relation::Owner),
    By::Two(Relation::Contractor, Relation::AssignedReviewer),
    By::Two(Relation::Contractor, Relation::AssignedInspector),
    By::Two(Relation::Contractor, Relation::Conflict),
    By::Two(Relation::Owner, Relation::AssignedReviewer),
    By::Two(Relation::Owner, Relation::AssignedInspector),
    By::Two(Relation::Owner, Relation::Conflict),
    By::Two(Relation::AssignedReviewer, Relation::AssignedInspector),
    By::Two(Relation::AssignedReviewer, Relation::Conflict),
    By::Two(Relation::AssignedInspector, Relation::Conflict),
];

/// What may be asked of the caller.
fn bys() -> &'static [By]
    ensures { result.now ≡ all_bys }
{
    &BYS
}

/// The selection of these files of the kept cell.
fn route_by(cell: Cell, by: By) -> Route
    ensures { result ≡ route_by cell by }
{
    Route::Cell {
        by,
        stage: cell.stage,
        stopped: cell.stopped,
        timing: cell.timing,
    }
}

/// Whether the mask holds the set of both relations, and neither of the sets of one of them.
fn allowed_as_two(mask: u64, pair: (Relation, Relation)) -> bool
    ensures { result ≡ allowed_as_two (has_set mask) pair }
{
    has_set(mask, both_of(pair.0, pair.1))
        && !has_set(mask, only(pair.0))
        && !has_set(mask, only(pair.1))
}

/// Whether a cell with this mask is opened so: where no relation is wanted, whole; else by each relation that is allowed alone,
/// and by each two that are allowed only as two.
fn opens(mask: u64, by: By) -> bool
    ensures { result ≡ opens (has_set mask) by }
{
    match by {
        By::Whole => has_set(mask, no_relations()),
        By::One(relation) => !has_set(mask, no_relations()) && has_set(mask, only(relation)),
        By::Two(first, second) => {
            !has_set(mask, no_relations()) && allowed_as_two(mask, (first, second))
        }
    }
}

/// Adds the routes of a kept cell, one for each way in which it is opened.
fn push_routes(routes: &mut Vec<Route>, masks: &Masks, cell: Cell) -> Result<(), AllocError>
    ensures { IfOk result (λ done. routes.new.items ≡ routes.old.items ++ routes_in (may masks.now) cell) }
{
    let mask = masks.word(cell.on_day());
    for by in bys() {
        if opens(mask, *by) {
            routes.push(route_by(cell, *by))?;
        }
    }
    Ok(())
}

/// Whether no relation is wanted in any cell of kept rows.
fn is_open_to_all(masks: &Masks) -> bool
    ensures { result ≡ list_all (is_open_to_all (may masks.now)) kept_cells }
{
    for number in 0..CELLS {
        let cell = Cell::numbered(number);
        if cell.is_kept() && !masks.may(cell.on_day(), no_relations()) {
            return false;
        }
    }
    true
}

/// Whether each file is wanted.
fn is_all(filter: Filter) -> bool
    ensures { result ≡ is_all filter }
{
    match filter {
        Filter::All => true,
        Filter::InStage(_) | Filter::Due => false,
    }
}

/// The selections of a listing under these masks. Where nothing is wanted of a file or of the caller, it is the one of every
/// row. Else they are those of each kept cell that meets the filter, in the order of the cells' numbers. There are
/// 660 at most. It fails only where memory runs out.
pub fn routes(alloc: Global, masks: &Masks, filter: Filter) -> Result<Vec<Route>, AllocError>
    ensures exact { IfOk result (λ routes. routes.items ≡ routes_of (may masks.now) filter) }
{
    if is_all(filter) && is_open_to_all(masks) {
        return Ok(vec![in alloc; Route::Every]?);
    }
    let mut routes = Vec::with_capacity(alloc, MOST_ROUTES)?;
    for number in 0..CELLS {
        let cell = Cell::numbered(number);
        if cell.is_kept() && cell.meets(filter) {
            push_routes(&mut routes, masks, cell)?;
        }
    }
    Ok(routes)
}

/// Whether a row can be kept in the cell, the cell meets the filter, and it is opened so.
fn is_opened(masks: &Masks, filter: &Filter, by: By, cell: Cell) -> bool
    ensures { result ≡ (is_kept cell && is_opened (may masks.now) filter.now by cell) }
{
    cell.is_kept() && cell.meets(*filter) && opens(masks.word(cell.on_day()), by)
}

/// The routes of the cells that are opened so, in the order of the cells' numbers.
fn selection(
    alloc: Global,
    masks: &Masks,
    filter: &Filter,
    by: By,
) -> Result<Vec<Route>, AllocError>
    ensures { IfOk result (λ routes. routes.items ≡ selection (may masks.now) filter.now by) }
{
    let mut routes = Vec::new(alloc);
    for number in 0..CELLS {
        let cell = Cell::numbered(number);
        if is_opened(masks, filter, by, cell) {
            routes.push(route_by(cell, by))?;
        }
    }
    Ok(routes)
}

/// The selections of the cells that meet the filter: one for each thing that is asked of the caller.
fn selections_by_cells(
    alloc: Global,
    masks: &Masks,
    filter: &Filter,
) -> Result<Vec<Vec<Route>>, AllocError>
    ensures { IfOk result (λ all. map items_of all.items ≡ selections_by_cells (may masks.now) filter.now) }
{
    let mut all = Vec::new(alloc);
    for by in bys() {
        let selection = selection(alloc, masks, filter, *by)?;
        if !selection.is_empty() {
            all.push(selection)?;
        }
    }
    Ok(all)
}

/// The routes of a listing under these masks. Those that ask the same of the caller, be it nothing, a relation or a pair, are one
/// selection, 22 at most, so that a store goes over its rows once for all their cells. It fails only where memory runs out.
pub fn selections(
    alloc: Global,
    masks: &Masks,
    filter: Filter,
) -> Result<Vec<Vec<Route>>, AllocError>
    ensures { IfOk result (λ all. map items_of all.items ≡ selections_of (may masks.now) filter) }
{
    if is_all(filter) && is_open_to_all(masks) {
        return Ok(vec![in alloc; vec![in alloc; Route::Every]?]?);
    }
    selections_by_cells(alloc, masks, &filter)
}

/// The selections of a listing under the policy, for callers of the role. Of each history's tables, on each day and for each
/// such caller, their routes find exactly the rows that the listing may open, each as often. It fails only where memory runs
/// out.
pub fn listing_selections(
    policy: &Policy,
    role: Role,
    wanted: Filter,
) -> Result<Vec<Vec<Route>>, AllocError>
    ensures exact { IfOk result (λ all.
        map items_of all.items ≡ selections_of (allowed_by policy.now role action.List) wanted) }
    ensures opens { IfOk result (λ all. (h : History) (day : ℕ) (caller : Party) → caller.role ≡ role
        → IsPermutation (flat_map (λ r. map (λ (f : Found). f.row) (found_by r caller.id day (tables h))) (flat_map items_of all.items))
        (map file_row (opened policy.now h day caller wanted))) }
{
    selections(policy.allocator(), policy.listing(role), wanted)
}
