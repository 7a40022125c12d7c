//! What is added to the index.

ghost use Rattle.std.specs.Prelude.{◌≤◌, OnOk, IsTrue};
ghost use Rattle.permit_base.specs.Limits.{most_records};
ghost use Rattle.permit_mirror.specs.Pairs.{has};
ghost use Rattle.permit_mirror.specs.Index.{Widens, IsFileOf, IsRelated, IsThere, IsAhead, Advances};

use crate::index::Index;
use permit_base::limits::number_after;
use permit_base::values::{ParcelId, PartyId};
use permit_core::state::FileState;
use permit_store::rows::Change;
use std::alloc::AllocError;

impl Index {
    /// Puts the party at the parcel, and gives it the files there.
    pub(crate) fn concern(&mut self, parcel: u32, party: PartyId) -> Result<(), AllocError>
        requires { parcel ≤ most_records }
        ensures widened { Widens self.old self.new }
        ensures concerned { OnOk result (IsTrue (has self.new.people_at parcel party)) }
    {
        for file in &self.files_on.numbers(self.alloc, parcel)? {
            self.files_of.add(party.get(), *file)?;
        }
        self.people_at.add(parcel, party.get())
    }

    /// Puts the file on the parcel, and gives it to those at the parcel.
    fn place(&mut self, parcel: ParcelId, file: u32) -> Result<(), AllocError>
        ensures widened { Widens self.old self.new }
        ensures placed { OnOk result (IsTrue (has self.new.files_on parcel file)) }
    {
        for party in &self.people_at.numbers(self.alloc, parcel.get())? {
            self.files_of.add(*party, file)?;
        }
        self.files_on.add(parcel.get(), file)
    }

    /// Gives the file to the party, where there is one.
    fn give(&mut self, file: u32, party: Option<PartyId>) -> Result<(), AllocError>
        ensures widened { Widens self.old self.new }
        ensures given { OnOk result (IsFileOf self.new file party) }
    {
        match party {
            None => Ok(()),
            Some(party) => self.files_of.add(party.get(), file),
        }
    }

    /// Gives the file to its applicant, contractor, reviewer and inspector.
    fn relate(&mut self, file: u32, state: &FileState) -> Result<(), AllocError>
        ensures widened { Widens self.old self.new }
        ensures related { OnOk result (IsRelated self.new file state.now) }
    {
        self.give(file, Some(state.applicant()))?;
        self.give(file, state.contractor())?;
        self.give(file, state.reviewer())?;
        self.give(file, state.inspector())
    }

    /// Adds a file that is there, or will be.
    pub(crate) fn file(&mut self, file: u32, state: &FileState) -> Result<(), AllocError>
        ensures widened { Widens self.old self.new }
        ensures there { OnOk result (IsThere self.new file state.now) }
    {
        self.place(state.parcel(), file)?;
        self.relate(file, state)
    }

    /// Adds what the change will need, before it is made. It may refuse a change that doesn't fit.
    pub(crate) fn anticipate(&mut self, change: &Change<'_>) -> Result<(), AllocError>
        ensures widened { Widens self.old self.new }
        ensures ahead { OnOk result (IsAhead self.new change.now) }
    {
        match change {
            Change::NewParty { .. } => Ok(()),
            Change::NewParcel { owner, .. } => match number_after(self.parcels) {
                Some(parcel) => self.concern(parcel, *owner),
                None => Err(AllocError),
            },
            Change::NewOwner { parcel, owner } => self.concern(parcel.get(), *owner),
            Change::NewInterest { parcel, party } => self.concern(parcel.get(), *party),
            Change::NewFile { state, .. } => match number_after(self.files) {
                Some(file) => self.file(file, state),
                None => Err(AllocError),
            },
            Change::NewRow { file, state, .. } => self.relate(file.get(), state),
        }
    }

    /// Counts what the change adds, once it is made.
    pub(crate) fn advance(&mut self, change: &Change<'_>)
        ensures { Advances change.now self.old self.new }
    {
        match change {
            Change::NewParcel { .. } => self.parcels = self.parcels.wrapping_add(1),
            Change::NewFile { .. } => self.files = self.files.wrapping_add(1),
            Change::NewParty { .. }
            | Change::NewOwner { .. }
            | Change::NewInterest { .. }
            | Change::NewRow { .. } => {}
        }
    }
}
