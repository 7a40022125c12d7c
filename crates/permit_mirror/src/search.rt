//! The rows that selections find among the files of some numbers.

ghost use Rattle.std.specs.Prelude.{◌≡◌, ◌<◌, ◌^◌, IfOk, option_to_list};
ghost use Rattle.std.specs.List.{list_all};
ghost use Rattle.permit_model.specs.Tables.{Tables};
ghost use Rattle.permit_mirror.specs.Search.{HandsOut, found_at, found_one, is_by_relation};

use permit_base::route::{By, Route};
use permit_base::values::{Day, FileId, PartyId};
use permit_core::taker::Taker;
use permit_store::memory::Memory;
use permit_store::routes::any_finds;
use permit_store::rows::Found;
use permit_store::store::{Got, Store, StoreError};

/// Whether the selection asks for files to which the caller has a relation.
fn is_by_relation(route: Route) -> bool
    ensures { result ≡ Rattle.permit_mirror.specs.Search.is_by_relation route }
{
    match route {
        Route::Every => false,
        Route::Cell { by, .. } => match by {
            By::Whole => false,
            By::One(_) | By::Two(_, _) => true,
        },
    }
}

/// Whether each of the selections asks for files to which the caller has a relation.
pub(crate) fn are_by_relations(routes: &[Route]) -> bool
    ensures { result ≡ list_all is_by_relation routes.now }
{
    routes.iter().all(|route| is_by_relation(*route))
}

/// The row of the file of the number as it is found for the caller, where any of the selections finds it.
fn find_row<M: Memory>(
    memory: &mut M,
    routes: &[Route],
    caller: PartyId,
    day: Day,
    number: u32,
) -> Got<Option<Found>>
    ensures found { (t : Tables) → (M.view memory.old).holds t → IfOk result (λ f. option_to_list f ≡ found_one routes.now caller day t number) }
    ensures kept { (t : Tables) → (M.view memory.old).holds t → (M.view memory.new).holds t }
{
    let Some(id) = FileId::new(number) else {
        return Err(StoreError);
    };
    let Some(row) = memory.file(id)? else {
        return Ok(None);
    };
    let parcel = row.state.parcel();
    let owner = memory.owner(parcel)?;
    let conflict = memory.interest(parcel, caller)?;
    let found = Found {
        row,
        owner,
        conflict,
    };
    if any_finds(routes, caller, day, &found) {
        Ok(Some(found))
    } else {
        Ok(None)
    }
}

/// Passes the rows of the files of these numbers to the taker, where any of the selections finds them, until the taker asks to
/// stop. It counts them, and returns whether the taker took them all and answered true each time.
pub(crate) fn hand<M: Memory, T: Taker<Found>>(
    memory: &mut M,
    numbers: &[u32],
    routes: &[Route],
    caller: PartyId,
    day: Day,
    taker: &mut T,
    handed: &mut u64,
) -> Got<bool>
    requires { handed.old < 2 ^ 64 }
    ensures handed { HandsOut T.took (M.view memory.old).holds (λ t. found_at routes.now caller day t numbers.now) handed.old handed.new
        taker.old taker.new result }
    ensures kept { (t : Tables) → (M.view memory.old).holds t → (M.view memory.new).holds t }
{
    for number in numbers {
        if let Some(found) = find_row(memory, routes, caller, day, *number)? {
            let goes_on = taker.take(found);
            *handed = handed.wrapping_add(1);
            if !goes_on {
                return Ok(false);
            }
        }
    }
    Ok(true)
}
