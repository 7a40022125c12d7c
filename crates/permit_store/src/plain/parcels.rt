//! The parcels, each found by its number and by its lot.

ghost use Rattle.std.specs.Prelude.{◌≡◌, ◌<◌, ◌≤◌, ◌==◌, [], ◌∷◌, ◌++◌, ◌+◌, length, map, find, bytes_eq, option_map, OnOk, IsTrue, false, vec_capacity};
ghost use Rattle.std.specs.HashMap.{spare};
ghost use Rattle.permit_base.specs.Limits.{most_records};
ghost use Rattle.permit_store.specs.Changes.{given_to};
ghost use Rattle.permit_store.specs.Places.{AreNumbered, LeadToFirst};

use crate::plain::find::row_at;
use crate::plain::marks::{Marks, lead, mark_of};
use crate::rows::Parcel;
use permit_base::values::{Lot, ParcelId, PartyId};
use std::alloc::{AllocError, Global};
use std::collections::HashMap;

/// The parcels, numbered from 1 without a gap, so that each is at the place that its number says.
#[derive(Drop)]
pub(crate) struct Parcels {
    pub(crate) rows: Vec<Parcel>,
    /// Their places by their lots.
    pub(crate) lots: Marks,
    ghost few: { length rows.items ≤ most_records },
    ghost numbered: { AreNumbered (λ p. p.id) rows.items },
    ghost led: { LeadToFirst (λ p. p.lot) rows.items lots },
}

fn set_owner(parcel: &mut Parcel, owner: PartyId)
    ensures { parcel.new ≡ record parcel.old { owner = owner } }
{
    parcel.owner = owner;
}

impl Parcels {
    pub(crate) fn new(alloc: Global) -> Parcels
        ensures { result.rows.items ≡ [] }
    {
        Parcels {
            rows: Vec::new(alloc),
            lots: HashMap::new(alloc),
        }
    }

    /// How many.
    pub(crate) fn count(&self) -> u32
        ensures { result ≡ length self.now.rows.items }
    {
        self.rows.len() as u32
    }

    /// The parcel of the number.
    pub(crate) fn numbered(&self, id: ParcelId) -> Option<&Parcel>
        ensures { option_map (λ p. p.now) result ≡ find (λ p. p.id == id) self.now.rows.items }
    {
        row_at(&self.rows, id.get() as usize - 1)
    }

    /// The owner of the parcel of the number.
    pub(crate) fn owner(&self, id: ParcelId) -> Option<PartyId>
        ensures { result ≡ option_map (λ p. p.owner) (find (λ p. p.id == id) self.now.rows.items) }
    {
        match self.numbered(id) {
            None => None,
            Some(parcel) => Some(parcel.owner),
        }
    }

    /// The parcel of the lot.
    pub(crate) fn with_lot(&self, lot: &Lot) -> Option<&Parcel>
        ensures { option_map (λ p. p.now) result ≡ find (λ p. bytes_eq p.lot lot.now) self.now.rows.items }
    {
        let place = *self.lots.get(&mark_of(lot.as_str()))?;
        let first = &self.rows[place];
        if first.lot == *lot {
            return Some(first);
        }
        self.rows.iter().find(|parcel| {
            let parcel: &Parcel = parcel;
            parcel.lot == *lot
        })
    }

    /// Asks for room for one more.
    pub(crate) fn reserve(&mut self) -> Result<(), AllocError>
        ensures kept { self.new.rows.items ≡ self.old.rows.items }
        ensures room { OnOk result (length self.new.rows.items < vec_capacity self.new.rows) }
        ensures spare { OnOk result (0 < spare self.new.lots) }
    {
        self.rows.reserve(1)?;
        self.lots.reserve(1)
    }

    /// Adds a parcel, where there may be one more and there is room for it.
    pub(crate) fn add(&mut self, parcel: Parcel)
        requires few { length self.old.rows.items < most_records }
        requires room { length self.old.rows.items < vec_capacity self.old.rows }
        requires spare { 0 < spare self.old.lots }
        requires number { parcel.id ≡ length self.old.rows.items + 1 }
        ensures { self.new.rows.items ≡ self.old.rows.items ++ parcel ∷ [] }
    {
        let place = self.rows.len();
        lead(&mut self.lots, mark_of(parcel.lot.as_str()), place);
        let _pushed = self.rows.push(parcel).is_ok();
    }

    /// Adds a parcel, where it has the next number and there is memory. False leaves them.
    pub(crate) fn push(&mut self, parcel: Parcel) -> bool
        ensures made { IsTrue result → self.new.rows.items ≡ self.old.rows.items ++ parcel ∷ [] }
        ensures kept { result ≡ false → self.new.rows.items ≡ self.old.rows.items }
    {
        if parcel.id.get() != self.count() + 1 {
            return false;
        }
        let Ok(()) = self.reserve() else {
            return false;
        };
        self.add(parcel);
        true
    }

    /// Gives a parcel another owner.
    pub(crate) fn give(&mut self, id: ParcelId, owner: PartyId)
        ensures { self.new.rows.items ≡ map (given_to id owner) self.old.rows.items }
    {
        let place = id.get() as usize - 1;
        if place < self.rows.len() {
            set_owner(&mut self.rows[place], owner);
        }
    }
}
