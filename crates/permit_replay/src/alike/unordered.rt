//! A store, but for orders that none of its calls shows.

use permit_base::refusal::Refusal;
use permit_base::route::Route;
use permit_base::values::{Day, Digest, FileId, Lot, PaperNumber, ParcelId, PartyId};
use permit_base::words::Role;
use permit_core::state::FileState;
use permit_core::taker::Taker;
use permit_store::renewing::Renewing;
use permit_store::rows::{Change, Desk, FileRow, Found, Interest, Paper, Parcel, Party};
use permit_store::store::{Got, Store};

/// A store described up to what its calls distinguish: it holds all tables that are alike to those which the store inside
/// holds. Each call is that store's. Of a crash it says nothing; the store inside does.
#[derive(Drop)]
pub struct Unordered<S: Store> {
    pub store: S,
}

impl<S: Store> Store for Unordered<S> {
    ghost use Rattle.std.specs.Prelude.{⊤};
    ghost use Rattle.permit_replay.specs.Alike.{unordered};

    ghost view = { λ s. unordered (S.view s.store) };

    ghost crash = { λ _ _ _ _. ⊤ };

    fn desk(&mut self) -> Got<Desk> {
        self.store.desk()
    }

    fn party_by_token(&mut self, digest: &Digest) -> Got<Option<Party>> {
        self.store.party_by_token(digest)
    }

    fn party(&mut self, party: PartyId) -> Got<Option<Party>> {
        self.store.party(party)
    }

    fn role(&mut self, party: PartyId) -> Got<Option<Role>> {
        self.store.role(party)
    }

    fn parcel(&mut self, parcel: ParcelId) -> Got<Option<Parcel>> {
        self.store.parcel(parcel)
    }

    fn owner(&mut self, parcel: ParcelId) -> Got<Option<PartyId>> {
        self.store.owner(parcel)
    }

    fn parcel_by_lot(&mut self, lot: &Lot) -> Got<Option<Parcel>> {
        self.store.parcel_by_lot(lot)
    }

    fn interest(&mut self, parcel: ParcelId, party: PartyId) -> Got<bool> {
        self.store.interest(parcel, party)
    }

    fn interests(&mut self) -> Got<Vec<Interest>> {
        self.store.interests()
    }

    fn file(&mut self, file: FileId) -> Got<Option<FileRow>> {
        self.store.file(file)
    }

    fn state(&mut self, file: FileId) -> Got<Option<FileState>> {
        self.store.state(file)
    }

    fn papers(&mut self, file: FileId) -> Got<Vec<Paper>> {
        self.store.papers(file)
    }

    fn has_open_notice(&mut self, file: FileId, number: PaperNumber) -> Got<bool> {
        self.store.has_open_notice(file, number)
    }

    fn select(&mut self, route: &Route, caller: PartyId, day: Day) -> Got<Vec<Found>> {
        self.store.select(route, caller, day)
    }

    fn each<T: Taker<Found>>(
        &mut self,
        route: &Route,
        caller: PartyId,
        day: Day,
        taker: &mut T,
    ) -> Got<bool> {
        self.store.each(route, caller, day, taker)
    }

    fn each_of_any<T: Taker<Found>>(
        &mut self,
        routes: &[Route],
        caller: PartyId,
        day: Day,
        taker: &mut T,
    ) -> Got<bool> {
        self.store.each_of_any(routes, caller, day, taker)
    }

    fn commit(&mut self, change: &Change<'_>, day: Day) -> Got<()> {
        self.store.commit(change, day)
    }
}

impl<S: Renewing> Renewing for Unordered<S> {
    fn renew(&mut self, party: PartyId, digest: &Digest) -> Got<Result<(), Refusal>> {
        self.store.renew(party, digest)
    }
}
