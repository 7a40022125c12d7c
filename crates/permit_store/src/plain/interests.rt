//! The declared interests, each found by its parcel and its party.

ghost use Rattle.std.specs.Prelude.{◌≡◌, ◌<◌, ◌==◌, ◌&&◌, [], ◌∷◌, ◌++◌, length, ℕ, IfOk, OnOk, IsTrue, false, vec_capacity};
ghost use Rattle.std.specs.HashSet.{contains, spare};
ghost use Rattle.permit_store.specs.Interests.{is_declared};

use crate::rows::Interest;
use permit_base::values::{ParcelId, PartyId};
use std::alloc::{AllocError, Global};
use std::collections::HashSet;

/// The declared interests.
#[derive(Drop)]
pub(crate) struct Interests {
    pub(crate) rows: Vec<Interest>,
    /// The numbers of their parcels and parties.
    pub(crate) pairs: HashSet<(u32, u32)>,
    ghost same: { (parcel party : ℕ) → contains (λ a b. (a.0 == b.0) && (a.1 == b.1)) pairs (parcel, party) ≡ is_declared parcel party rows.items },
}

impl Interests {
    pub(crate) fn new(alloc: Global) -> Interests
        ensures { result.rows.items ≡ [] }
    {
        Interests {
            rows: Vec::new(alloc),
            pairs: HashSet::new(alloc),
        }
    }

    /// Whether the party has declared an interest in the parcel.
    pub(crate) fn has(&self, parcel: ParcelId, party: PartyId) -> bool
        ensures { result ≡ is_declared parcel party self.now.rows.items }
    {
        self.pairs.contains(&(parcel.get(), party.get()))
    }

    /// A copy of all.
    pub(crate) fn all(&self, alloc: Global) -> Result<Vec<Interest>, AllocError>
        ensures { IfOk result (λ v. v.items ≡ self.now.rows.items) }
    {
        self.rows.as_slice().to_vec(alloc)
    }

    /// Asks for room for one more.
    pub(crate) fn reserve(&mut self) -> Result<(), AllocError>
        ensures kept { self.new.rows.items ≡ self.old.rows.items }
        ensures room { OnOk result (length self.new.rows.items < vec_capacity self.new.rows) }
        ensures spare { OnOk result (0 < spare self.new.pairs) }
    {
        self.rows.reserve(1)?;
        self.pairs.reserve(1)
    }

    /// Adds an interest, where there is room for it.
    pub(crate) fn add(&mut self, interest: Interest)
        requires room { length self.old.rows.items < vec_capacity self.old.rows }
        requires spare { 0 < spare self.old.pairs }
        ensures { self.new.rows.items ≡ self.old.rows.items ++ interest ∷ [] }
    {
        let _added = self
            .pairs
            .insert((interest.parcel.get(), interest.party.get()))
            .is_ok();
        let _pushed = self.rows.push(interest).is_ok();
    }

    /// Adds an interest, where there is memory. False leaves them.
    pub(crate) fn push(&mut self, interest: Interest) -> bool
        ensures made { IsTrue result → self.new.rows.items ≡ self.old.rows.items ++ interest ∷ [] }
        ensures kept { result ≡ false → self.new.rows.items ≡ self.old.rows.items }
    {
        let Ok(()) = self.reserve() else {
            return false;
        };
        self.add(interest);
        true
    }
}
