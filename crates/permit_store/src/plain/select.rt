//! The rows that selections find, in the order in which they are kept.

ghost use Rattle.std.specs.Prelude.{◌≡◌, ◌<◌, ◌^◌, IfOk, filter, option_to_list, [], ◌∷◌};
ghost use Rattle.permit_store.specs.Handing.{is_found_by_any};
ghost use Rattle.permit_store.specs.Plain.{row_seen, rows_found, HandsOut};

use crate::plain::interests::Interests;
use crate::plain::kept::Kept;
use crate::plain::parcels::Parcels;
use crate::routes::{any_asks_for, is_in_any_cell};
use crate::rows::{FileRow, Found};
use permit_base::route::Route;
use permit_base::values::{Day, PartyId};
use permit_core::taker::Taker;
use std::alloc::{AllocError, Global};

/// The rows that any of the selections finds for a caller on a day, with the rows in which owners and interests are looked
/// up.
#[derive(Clone, Copy)]
pub(crate) struct Selection<'a> {
    pub(crate) routes: &'a [Route],
    pub(crate) caller: PartyId,
    pub(crate) day: Day,
    pub(crate) parcels: &'a Parcels,
    pub(crate) interests: &'a Interests,
}

/// A copy of the row, as it is found.
fn copy_found(row: &FileRow, owner: Option<PartyId>, conflict: bool) -> Result<Found, AllocError>
    ensures { IfOk result (λ found. found ≡ record { row = row.now; owner = owner; conflict = conflict }) }
{
    let row = row.clone()?;
    Ok(Found {
        row,
        owner,
        conflict,
    })
}

impl Selection<'_> {
    /// The row with its owner and the caller's interest, where a selection finds it. What takes longer is looked up for a row
    /// of a cell alone, and only a row that is found is copied.
    fn find(&self, row: &FileRow) -> Result<Option<Found>, AllocError>
        ensures { IfOk result (λ found. option_to_list found
            ≡ filter (is_found_by_any self.now.routes.now self.now.caller self.now.day) (row_seen self.now row.now ∷ [])) }
    {
        let state = &row.state;
        if !is_in_any_cell(self.routes, self.day, state) {
            return Ok(None);
        }
        let owner = self.parcels.owner(state.parcel());
        let conflict = self.interests.has(state.parcel(), self.caller);
        let set = state.relations(self.caller, owner, conflict);
        if !any_asks_for(self.routes, self.day, state, &set) {
            return Ok(None);
        }
        Ok(Some(copy_found(row, owner, conflict)?))
    }

    /// The rows of these files that it finds.
    pub(crate) fn select(&self, alloc: Global, files: &[Kept]) -> Result<Vec<Found>, AllocError>
        ensures { IfOk result (λ v. v.items ≡ rows_found self.now files.now) }
    {
        let mut rows = Vec::new(alloc);
        for kept in files {
            if let Some(found) = self.find(&kept.row)? {
                rows.push(found)?;
            }
        }
        Ok(rows)
    }

    /// Hands them to the taker until it asks to stop, and counts them: whether it took them all and each answer was true.
    pub(crate) fn hand<T: Taker<Found>>(
        &self,
        files: &[Kept],
        taker: &mut T,
        handed: &mut u64,
    ) -> Result<bool, AllocError>
        requires { handed.old < 2 ^ 64 }
        ensures { HandsOut T.took (rows_found self.now files.now) handed.old handed.new taker.old taker.new result }
    {
        for kept in files {
            if let Some(found) = self.find(&kept.row)? {
                let goes_on = taker.take(found);
                *handed = handed.wrapping_add(1);
                if !goes_on {
                    return Ok(false);
                }
            }
        }
        Ok(true)
    }
}
