//! A store over vectors.

ghost use Rattle.std.specs.Prelude.{◌≡◌, ◌≤◌, length, IfOk, IfErr, IsErr};
ghost use Rattle.permit_base.specs.Limits.{most_records};
ghost use Rattle.permit_store.specs.Plain.{AreInPlace};
ghost use Rattle.permit_store.specs.Counts.{next_count, failed_after};
ghost use Rattle.permit_store.specs.Founding.{founding};
ghost use Rattle.permit_store.specs.declared.store.OpenError.TheVariants as open_error;
ghost use Rattle.permit_model.specs.Tables.{Tables, tables};
ghost use Rattle.permit_model.specs.Machine.{IsHistory};

mod find;
mod interests;
mod kept;
mod load;
mod marks;
mod papers;
mod parcels;
mod parties;
pub mod ready;
mod select;

use crate::founder::Founder;
use crate::memory::Memory;
use crate::plain::interests::Interests;
use crate::plain::kept::Kept;
use crate::plain::parcels::Parcels;
use crate::plain::parties::Parties;
use crate::plain::ready::Ready;
use crate::plain::select::Selection;
use crate::renewing::Renewing;
use crate::rows::{Change, Desk, FileRow, Found, Interest, Paper, Parcel, Party};
use crate::store::{Got, OpenError, Store, StoreError};
use permit_base::refusal::{Reason, Refusal};
use permit_base::route::Route;
use permit_base::values::{Day, Digest, FileId, Lot, PaperNumber, ParcelId, PartyId};
use permit_base::words::{Edition, Role};
use permit_core::state::FileState;
use permit_core::taker::Taker;
use std::alloc::Global;

/// The tables as vectors, in memory: parties, parcels and files at the places that their numbers say, each file with a list of its
/// papers. Parties are found by their tokens too, parcels by their lots, and interests by both their numbers, so that no call
/// but a selection goes over rows that it doesn't ask for.
/// A call fails only where memory is refused, or at a commit that doesn't fit.
#[derive(Drop)]
pub struct PlainStore {
    alloc: Global,
    /// How many files there were at the upgrade to the second edition.
    upgrade: u32,
    last: Day,
    parties: Parties,
    parcels: Parcels,
    interests: Interests,
    files: Vec<Kept>,
    handed: u64,
    failed: u64,
    commits: u64,
    ghost few_files: { length files.items ≤ most_records },
    ghost places: { AreInPlace files.items },
}

impl PlainStore {
    /// The answer of a call that failed, which counts.
    fn fail<T>(&mut self) -> Got<T>
        ensures error { IsErr result }
        ensures counted { self.new ≡ record self.old { failed = next_count self.old.failed } }
    {
        self.failed = self.failed.wrapping_add(1);
        Err(StoreError)
    }

    /// The tables after a founding and the upgrade: one party, number 1, an official, on the founding day. It refuses only as
    /// `Store`, where memory is refused.
    ///
    /// # Examples
    ///
    /// ```
    /// let mut store = PlainStore::create(alloc, &founder)?;
    /// assert!(rt; store.desk()?.parties == 1);
    /// ```
    pub fn create(alloc: Global, founder: &Founder) -> Result<PlainStore, OpenError>
        ensures founded { IfOk result (λ s. (⟦<PlainStore as Store>⟧.view s).holds
            (tables (founding founder.now.name founder.now.digest founder.now.day))) }
        ensures history { IsHistory (founding founder.now.name founder.now.digest founder.now.day) }
        ensures doubt { IfOk result (λ s. (⟦<PlainStore as Store>⟧.view s).doubt ≡ 0) }
        ensures handed { IfOk result (λ s. (⟦<PlainStore as Store>⟧.view s).handed ≡ 0) }
        ensures failed { IfOk result (λ s. (⟦<PlainStore as Store>⟧.view s).failed ≡ 0) }
        ensures commits { IfOk result (λ s. (⟦<PlainStore as Store>⟧.view s).commits ≡ 0) }
        ensures refusal { IfErr result (λ e. e ≡ open_error.Store) }
    {
        let mut parties = Parties::new(alloc);
        let first = ready::ready_party(
            &mut parties,
            &founder.name,
            Role::Official,
            &founder.digest,
        );
        let Some(official) = first else {
            return Err(OpenError::Store);
        };
        ready::put_party(&mut parties, official);
        Ok(PlainStore {
            alloc,
            upgrade: 0,
            last: founder.day,
            parties,
            parcels: Parcels::new(alloc),
            interests: Interests::new(alloc),
            files: Vec::new(alloc),
            handed: 0,
            failed: 0,
            commits: 0,
        })
    }
}

impl Store for PlainStore {
    ghost use Rattle.std.specs.Prelude.{⊤};
    ghost use Rattle.permit_store.specs.Plain.{Keeps};

    ghost view = { λ s. record {
      holds = Keeps s.upgrade s.last s.parties.rows.items s.parcels.rows.items s.interests.rows.items s.files.items;
      doubt = 0;
      handed = s.handed;
      failed = s.failed;
      commits = s.commits;
    } };

    ghost crash = { λ _ _ _ _. ⊤ };

    fn desk(&mut self) -> Got<Desk> {
        Ok(Desk {
            edition: Edition::Second,
            last: self.last,
            parties: self.parties.count(),
            parcels: self.parcels.count(),
            files: self.files.len() as u32,
        })
    }

    fn party_by_token(&mut self, digest: &Digest) -> Got<Option<Party>> {
        match find::copy_party(self.parties.with_token(digest)) {
            Ok(found) => Ok(found),
            Err(_) => self.fail(),
        }
    }

    fn party(&mut self, party: PartyId) -> Got<Option<Party>> {
        match find::copy_party(self.parties.numbered(party)) {
            Ok(found) => Ok(found),
            Err(_) => self.fail(),
        }
    }

    fn role(&mut self, party: PartyId) -> Got<Option<Role>> {
        Ok(self.parties.role(party))
    }

    fn parcel(&mut self, parcel: ParcelId) -> Got<Option<Parcel>> {
        match find::copy_parcel(self.parcels.numbered(parcel)) {
            Ok(found) => Ok(found),
            Err(_) => self.fail(),
        }
    }

    fn owner(&mut self, parcel: ParcelId) -> Got<Option<PartyId>> {
        Ok(self.parcels.owner(parcel))
    }

    fn parcel_by_lot(&mut self, lot: &Lot) -> Got<Option<Parcel>> {
        match find::copy_parcel(self.parcels.with_lot(lot)) {
            Ok(found) => Ok(found),
            Err(_) => self.fail(),
        }
    }

    fn interest(&mut self, parcel: ParcelId, party: PartyId) -> Got<bool> {
        Ok(self.interests.has(parcel, party))
    }

    fn interests(&mut self) -> Got<Vec<Interest>> {
        match self.interests.all(self.alloc) {
            Ok(interests) => Ok(interests),
            Err(_) => self.fail(),
        }
    }

    fn file(&mut self, file: FileId) -> Got<Option<FileRow>> {
        match find::find_file(&self.files, file) {
            Ok(Some(row)) => {
                self.handed = self.handed.wrapping_add(1);
                Ok(Some(row))
            }
            Ok(None) => Ok(None),
            Err(_) => self.fail(),
        }
    }

    fn state(&mut self, file: FileId) -> Got<Option<FileState>> {
        let found = find::state_of(&self.files, file);
        if found.is_some() {
            self.handed = self.handed.wrapping_add(1);
        }
        Ok(found)
    }

    fn papers(&mut self, file: FileId) -> Got<Vec<Paper>> {
        match find::papers_of(self.alloc, &self.files, file) {
            Ok(papers) => Ok(papers),
            Err(_) => self.fail(),
        }
    }

    fn has_open_notice(&mut self, file: FileId, number: PaperNumber) -> Got<bool> {
        Ok(find::has_open_notice(&self.files, file, number))
    }

    fn select(&mut self, route: &Route, caller: PartyId, day: Day) -> Got<Vec<Found>> {
        let routes = [*route];
        let selection = Selection {
            routes: &routes,
            caller,
            day,
            parcels: &self.parcels,
            interests: &self.interests,
        };
        match selection.select(self.alloc, &self.files) {
            Ok(rows) => {
                self.handed = self.handed.wrapping_add(rows.len() as u64);
                Ok(rows)
            }
            Err(_) => self.fail(),
        }
    }

    fn each<T: Taker<Found>>(
        &mut self,
        route: &Route,
        caller: PartyId,
        day: Day,
        taker: &mut T,
    ) -> Got<bool> {
        let routes = [*route];
        let selection = Selection {
            routes: &routes,
            caller,
            day,
            parcels: &self.parcels,
            interests: &self.interests,
        };
        let mut handed = self.handed;
        let outcome = selection.hand(&self.files, taker, &mut handed);
        self.handed = handed;
        match outcome {
            Ok(all) => Ok(all),
            Err(_) => self.fail(),
        }
    }

    fn each_of_any<T: Taker<Found>>(
        &mut self,
        routes: &[Route],
        caller: PartyId,
        day: Day,
        taker: &mut T,
    ) -> Got<bool> {
        let selection = Selection {
            routes,
            caller,
            day,
            parcels: &self.parcels,
            interests: &self.interests,
        };
        let mut handed = self.handed;
        let outcome = selection.hand(&self.files, taker, &mut handed);
        self.handed = handed;
        match outcome {
            Ok(all) => Ok(all),
            Err(_) => self.fail(),
        }
    }

    fn commit(&mut self, change: &Change<'_>, day: Day) -> Got<()> {
        self.commits = self.commits.wrapping_add(1);
        let Ok(ready) = self.prepare(change, day) else {
            return self.fail();
        };
        self.make(ready, change, day);
        Ok(())
    }
}

impl Memory for PlainStore {
    ghost use Rattle.std.specs.Prelude.{vec_capacity, refl};
    ghost use Rattle.std.proofs.Common.{sym, ◌∙◌};
    ghost use Rattle.permit_store.specs.Preparing.{IsReady};

    type Ready = Ready;

    ghost is_ready = { λ s ready change day. IsReady s.parties s.parcels s.interests s.files.items (vec_capacity s.files) ready change day };

    fn prepare(&mut self, change: &Change<'_>, day: Day) -> Got<Ready> {
        let made = match change {
            Change::NewParty { name, role, digest } => ready::ready_party(
                &mut self.parties,
                name,
                *role,
                digest,
            ),
            Change::NewParcel {
                lot,
                address,
                owner,
            } => ready::ready_parcel(&mut self.parcels, lot, address, *owner),
            Change::NewOwner {
                parcel: _,
                owner: _,
            } => Some(Ready::Nothing),
            Change::NewInterest {
                parcel: _,
                party: _,
            } => ready::ready_interest(&mut self.interests),
            Change::NewFile {
                state,
                valuation,
                description,
            } => ready::ready_file(&mut self.files, *state, *valuation, description),
            Change::NewRow {
                file,
                state,
                effect,
            } => ready::ready_row(self.alloc, &self.files, *file, state.papers(), effect, day),
        };
        match made {
            Some(ready) => Ok(ready),
            None => Err(StoreError),
        }
    }

    fn make(&mut self, ready: Ready, change: &Change<'_>, day: Day) {
        match change {
            Change::NewParty {
                name: _,
                role: _,
                digest: _,
            } => ready::put_party(&mut self.parties, ready),
            Change::NewParcel {
                lot: _,
                address: _,
                owner: _,
            } => ready::put_parcel(&mut self.parcels, ready),
            Change::NewOwner { parcel, owner } => self.parcels.give(*parcel, *owner),
            Change::NewInterest { parcel, party } => self.interests.add(Interest {
                parcel: *parcel,
                party: *party,
            }),
            Change::NewFile {
                state: _,
                valuation: _,
                description: _,
            } => ready::put_file(self.alloc, &mut self.files, ready),
            Change::NewRow {
                file,
                state,
                effect,
            } => ready::put_ready_row(&mut self.files, *file, *state, effect, day, ready),
        }
        self.last = day;
    }

    fn handed(&self) -> u64 {
        self.handed
    }

    ghost sure = { λ s. refl };

    ghost one = { λ s t u k l. k.desk ∙ sym l.desk };
}

impl Renewing for PlainStore {
    fn renew(&mut self, party: PartyId, digest: &Digest) -> Got<Result<(), Refusal>> {
        if self.parties.numbered(party).is_none() {
            return Ok(Err(Refusal::Record));
        }
        if self.parties.with_token(digest).is_some() {
            return Ok(Err(Refusal::NotAdmitted(Reason::Taken)));
        }
        match self.parties.reserve_mark() {
            Ok(()) => {
                self.parties.give(party, digest);
                Ok(Ok(()))
            }
            Err(_) => self.fail(),
        }
    }
}
