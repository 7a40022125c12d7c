//! Whether selections find a row.

ghost use Rattle.std.specs.Prelude.{◌≡◌, ◌&&◌};
ghost use Rattle.std.specs.List.{list_any};
ghost use Rattle.permit_model.specs.Codes.{is_stage, is_timing};
ghost use Rattle.permit_model.specs.Routes.{is_found};
ghost use Rattle.permit_store.specs.Finding.{lies_in, is_wanted};
ghost use Rattle.permit_store.specs.Handing.{is_found_by_any};

use crate::rows::Found;
use permit_base::route::{By, Route};
use permit_base::values::{Day, PartyId};
use permit_base::words::{Relations, Stage, Timing};
use permit_core::state::FileState;

fn same_stage(a: Stage, b: Stage) -> bool
    ensures { result ≡ is_stage a b }
{
    a == b
}

fn same_timing(a: Timing, b: Timing) -> bool
    ensures { result ≡ is_timing a b }
{
    a == b
}

/// Whether the row lies in the selection's cell on the day.
pub(crate) fn is_in_cell(route: Route, day: Day, state: &FileState) -> bool
    ensures { result ≡ lies_in route day state.now }
{
    match route {
        Route::Every => true,
        Route::Cell {
            by: _,
            stage,
            stopped,
            timing,
        } => {
            same_stage(stage, state.stored_stage())
                && stopped == state.is_stopped()
                && same_timing(timing, state.timing(day))
        }
    }
}

/// Whether the selection asks for rows to which the caller has these relations.
pub(crate) fn asks_for(route: Route, set: &Relations) -> bool
    ensures { result ≡ is_wanted route set.now }
{
    match route {
        Route::Every => true,
        Route::Cell { by, .. } => match by {
            By::Whole => true,
            By::One(relation) => set.has(relation),
            By::Two(first, second) => set.has(first) && set.has(second),
        },
    }
}

/// Whether the row lies in the cell of any of the selections on the day.
pub(crate) fn is_in_any_cell(routes: &[Route], day: Day, state: &FileState) -> bool
    ensures { result ≡ list_any (λ route. lies_in route day state.now) routes.now }
{
    routes.iter().any(|route| is_in_cell(*route, day, state))
}

/// Whether any of the selections in whose cell the row lies on the day asks for rows to which the caller has these
/// relations.
pub(crate) fn any_asks_for(routes: &[Route], day: Day, state: &FileState, set: &Relations) -> bool
    ensures { result ≡ list_any (λ route. lies_in route day state.now && is_wanted route set.now) routes.now }
{
    routes.iter().any(|route| is_in_cell(*route, day, state) && asks_for(*route, set))
}

/// Whether the selection finds the row for the caller on the day.
pub fn finds(route: &Route, caller: PartyId, day: Day, found: &Found) -> bool
    ensures { result ≡ is_found route.now caller day found.now }
{
    let state = &found.row.state;
    is_in_cell(*route, day, state)
        && asks_for(
            *route,
            &state.relations(caller, found.owner, found.conflict),
        )
}

/// Whether any of the selections finds the row for the caller on the day.
pub fn any_finds(routes: &[Route], caller: PartyId, day: Day, found: &Found) -> bool
    ensures { result ≡ is_found_by_any routes.now caller day found.now }
{
    routes.iter().any(|route| finds(route, caller, day, found))
}
