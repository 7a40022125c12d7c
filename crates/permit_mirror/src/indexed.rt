//! Tables in memory with an index of whom each file concerns.

ghost use Rattle.std.specs.Prelude.{◌≡◌, ◌++◌, IsTrue, List};
ghost use Rattle.std.specs.List.{list_all};
ghost use Rattle.permit_model.specs.Routes.{Found as TheFound};
ghost use Rattle.permit_model.specs.Tables.{Tables};
ghost use Rattle.permit_store.specs.Counts.{failed_after, handed_after};
ghost use Rattle.permit_store.specs.Frames.{HasOneDesk};
ghost use Rattle.permit_store.specs.Handing.{Hands, IsLeft, found_by_any};
ghost use Rattle.permit_mirror.specs.Search.{is_by_relation};

use crate::index::Index;
use crate::search::{are_by_relations, hand};
use permit_base::route::Route;
use permit_base::values::{Day, Digest, FileId, Lot, PaperNumber, ParcelId, PartyId};
use permit_base::words::Role;
use permit_core::state::FileState;
use permit_core::taker::Taker;
use permit_store::memory::Memory;
use permit_store::rows::{Change, Desk, FileRow, Found, Interest, Paper, Parcel, Party};
use permit_store::store::{Got, Store, StoreError};

/// Tables in memory with an index of whom each file concerns, so that a listing by the caller's relations looks at the
/// caller's files alone. All else is answered by the tables.
#[derive(Drop)]
pub struct Indexed<M: Memory> {
    pub(crate) memory: M,
    pub(crate) index: Index,
    pub(crate) handed: u64,
    pub(crate) failed: u64,
    pub(crate) commits: u64,
}

impl<M: Memory + Drop> Indexed<M> {
    /// The answer of a call. A failure counts.
    fn counted<T>(&mut self, answer: Got<T>) -> Got<T>
        ensures answer { result ≡ answer }
        ensures failed { self.new.failed ≡ failed_after answer self.old.failed }
        ensures tables { (self.new.memory ≡ self.old.memory) × (self.new.index ≡ self.old.index) }
        ensures others { (self.new.handed ≡ self.old.handed) × (self.new.commits ≡ self.old.commits) }
        ensures sure { (M.view self.new.memory).doubt ≡ 0 }
        ensures one { HasOneDesk (M.view self.new.memory) }
    {
        if answer.is_err() {
            self.failed = self.failed.wrapping_add(1);
        }
        answer
    }

    /// The answer of a call that looks a file up. A failure counts, and so does a file that is found.
    fn looked_up<T>(&mut self, answer: Got<Option<T>>) -> Got<Option<T>>
        ensures answer { result ≡ answer }
        ensures failed { self.new.failed ≡ failed_after answer self.old.failed }
        ensures handed { self.new.handed ≡ handed_after answer self.old.handed }
        ensures tables { (self.new.memory ≡ self.old.memory) × (self.new.index ≡ self.old.index) }
        ensures others { self.new.commits ≡ self.old.commits }
        ensures sure { (M.view self.new.memory).doubt ≡ 0 }
        ensures one { HasOneDesk (M.view self.new.memory) }
    {
        if let Ok(Some(_)) = &answer {
            self.handed = self.handed.wrapping_add(1);
        }
        self.counted(answer)
    }

    /// Passes to the taker the rows that any of the selections finds among the caller's files, in rising number.
    fn each_of_own<T: Taker<Found>>(
        &mut self,
        routes: &[Route],
        caller: PartyId,
        day: Day,
        taker: &mut T,
    ) -> Got<bool>
        requires { IsTrue (list_all is_by_relation routes.now) }
        ensures handed { (given : List TheFound) × Hands T.took given (⟦<Indexed<M> as Store>⟧.view self.old) (⟦<Indexed<M> as Store>⟧.view self.new) taker.old taker.new result
            × ((t : Tables) → (⟦<Indexed<M> as Store>⟧.view self.old).holds t → (rest : List TheFound) × IsLeft result rest × (given ++ rest ≡ found_by_any routes.now caller day t)) }
    {
        let mut handed = self.handed;
        let Ok(numbers) = self.index.files_of(caller) else {
            return self.counted(Err(StoreError));
        };
        let answer = hand(
            &mut self.memory,
            &numbers,
            routes,
            caller,
            day,
            taker,
            &mut handed,
        );
        self.handed = handed;
        self.counted(answer)
    }
}

impl<M: Memory + Drop> Store for Indexed<M> {
    ghost use Rattle.std.specs.Prelude.{⊤};
    ghost use Rattle.permit_mirror.specs.Covered.{covered};

    ghost view = { λ s. covered (M.view s.memory) s.index s.handed s.failed s.commits };

    ghost crash = { λ _ _ _ _. ⊤ };

    fn desk(&mut self) -> Got<Desk> {
        let answer = self.memory.desk();
        self.counted(answer)
    }

    fn party_by_token(&mut self, digest: &Digest) -> Got<Option<Party>> {
        let answer = self.memory.party_by_token(digest);
        self.counted(answer)
    }

    fn party(&mut self, party: PartyId) -> Got<Option<Party>> {
        let answer = self.memory.party(party);
        self.counted(answer)
    }

    fn role(&mut self, party: PartyId) -> Got<Option<Role>> {
        let answer = self.memory.role(party);
        self.counted(answer)
    }

    fn parcel(&mut self, parcel: ParcelId) -> Got<Option<Parcel>> {
        let answer = self.memory.parcel(parcel);
        self.counted(answer)
    }

    fn owner(&mut self, parcel: ParcelId) -> Got<Option<PartyId>> {
        let answer = self.memory.owner(parcel);
        self.counted(answer)
    }

    fn parcel_by_lot(&mut self, lot: &Lot) -> Got<Option<Parcel>> {
        let answer = self.memory.parcel_by_lot(lot);
        self.counted(answer)
    }

    fn interest(&mut self, parcel: ParcelId, party: PartyId) -> Got<bool> {
        let answer = self.memory.interest(parcel, party);
        self.counted(answer)
    }

    fn interests(&mut self) -> Got<Vec<Interest>> {
        let answer = self.memory.interests();
        self.counted(answer)
    }

    fn file(&mut self, file: FileId) -> Got<Option<FileRow>> {
        let answer = self.memory.file(file);
        self.looked_up(answer)
    }

    fn state(&mut self, file: FileId) -> Got<Option<FileState>> {
        let answer = self.memory.state(file);
        self.looked_up(answer)
    }

    fn papers(&mut self, file: FileId) -> Got<Vec<Paper>> {
        let answer = self.memory.papers(file);
        self.counted(answer)
    }

    fn has_open_notice(&mut self, file: FileId, number: PaperNumber) -> Got<bool> {
        let answer = self.memory.has_open_notice(file, number);
        self.counted(answer)
    }

    fn select(&mut self, route: &Route, caller: PartyId, day: Day) -> Got<Vec<Found>> {
        let answer = self.memory.select(route, caller, day);
        if let Ok(rows) = &answer {
            self.handed = self.handed.wrapping_add(rows.len() as u64);
        }
        self.counted(answer)
    }

    fn each<T: Taker<Found>>(
        &mut self,
        route: &Route,
        caller: PartyId,
        day: Day,
        taker: &mut T,
    ) -> Got<bool> {
        let routes = [*route];
        if are_by_relations(&routes) {
            return self.each_of_own(&routes, caller, day, taker);
        }
        let before = self.memory.handed();
        let answer = self.memory.each(route, caller, day, taker);
        self.handed = self
            .handed
            .wrapping_add(self.memory.handed().wrapping_sub(before));
        self.counted(answer)
    }

    fn each_of_any<T: Taker<Found>>(
        &mut self,
        routes: &[Route],
        caller: PartyId,
        day: Day,
        taker: &mut T,
    ) -> Got<bool> {
        if are_by_relations(routes) {
            return self.each_of_own(routes, caller, day, taker);
        }
        let before = self.memory.handed();
        let answer = self.memory.each_of_any(routes, caller, day, taker);
        self.handed = self
            .handed
            .wrapping_add(self.memory.handed().wrapping_sub(before));
        self.counted(answer)
    }

    fn commit(&mut self, change: &Change<'_>, day: Day) -> Got<()> {
        self.commits = self.commits.wrapping_add(1);
        let ready = match self.prepare(change, day) {
            Ok(ready) => ready,
            Err(why) => return self.counted(Err(why)),
        };
        self.make(ready, change, day);
        Ok(())
    }
}

impl<M: Memory + Drop> Memory for Indexed<M> {
    ghost use Rattle.std.specs.Prelude.{refl};
    ghost use Rattle.permit_mirror.specs.Index.{IsAhead};

    type Ready = M::Ready;

    ghost is_ready = { λ s ready change day. M.is_ready s.memory ready change day × IsAhead s.index change };

    fn prepare(&mut self, change: &Change<'_>, day: Day) -> Got<M::Ready> {
        if self.index.anticipate(change).is_err() {
            return Err(StoreError);
        }
        self.memory.prepare(change, day)
    }

    fn make(&mut self, ready: M::Ready, change: &Change<'_>, day: Day) {
        self.memory.make(ready, change, day);
        self.index.advance(change);
    }

    fn handed(&self) -> u64 {
        self.handed
    }

    ghost sure = { λ s. refl };

    ghost one = { λ s t u k l. M.one s.memory t u k.0 l.0 };
}
