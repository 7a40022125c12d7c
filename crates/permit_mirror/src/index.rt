//! Which files concern whom.

ghost use Rattle.std.specs.Prelude.{◌≡◌, ◌==◌, ℕ, IfOk};
ghost use Rattle.std.specs.List.{list_any};
ghost use Rattle.permit_mirror.specs.Pairs.{has, IsClosed, RiseFrom};

use crate::pairs::Pairs;
use permit_base::values::PartyId;
use std::alloc::{AllocError, Global};

/// For each party the files that concern it, or may do so. Each file to which the party has a relation is among them. Others
/// may be too, as those of a reviewer who was replaced. So what a change will need can be added before the change is made.
/// The index counts parcels and files too, since the next ones get the numbers after those.
#[derive(Drop)]
pub(crate) struct Index {
    pub(crate) alloc: Global,
    /// The files of each party.
    pub(crate) files_of: Pairs,
    /// The files on each parcel.
    pub(crate) files_on: Pairs,
    /// The parties at each parcel: its owners, of now and before, and those who declared an interest in it.
    pub(crate) people_at: Pairs,
    pub(crate) parcels: u32,
    pub(crate) files: u32,
    ghost closed: { IsClosed files_of files_on people_at },
}

impl Index {
    /// An index of tables with so many parcels and files, none of which is added yet.
    pub(crate) fn new(alloc: Global, parcels: u32, files: u32) -> Index
        ensures counts { (result.parcels ≡ parcels) × (result.files ≡ files) }
        ensures closed { IsClosed result.files_of result.files_on result.people_at }
    {
        Index {
            alloc,
            files_of: Pairs::new(alloc),
            files_on: Pairs::new(alloc),
            people_at: Pairs::new(alloc),
            parcels,
            files,
        }
    }

    /// The files of the party, in rising number.
    pub(crate) fn files_of(&self, party: PartyId) -> Result<Vec<u32>, AllocError>
        ensures rising { IfOk result (λ v. RiseFrom 0 v.items) }
        ensures exact { IfOk result (λ v. (number : ℕ) → list_any (λ n. n == number) v.items ≡ has self.now.files_of party number) }
    {
        self.files_of.numbers(self.alloc, party.get())
    }
}
