//! A store that fails once.

ghost use Rattle.std.specs.Prelude.{◌≡◌, ◌⊎◌, true, Ok, IsErr};
ghost use Rattle.permit_store.specs.Counts.{next_count, failed_after};

use permit_base::route::Route;
use permit_base::values::{Day, Digest, FileId, Lot, PaperNumber, ParcelId, PartyId};
use permit_base::words::Role;
use permit_core::state::FileState;
use permit_core::taker::Taker;
use permit_store::rows::{Change, Desk, FileRow, Found, Interest, Paper, Parcel, Party};
use permit_store::store::{Got, Store, StoreError};

/// A store over another that keeps its tables in memory. One of its calls fails: the other is not called then, or, where
/// rows are handed to a taker, its rows are handed out first.
#[derive(Drop)]
pub struct Failing<S> {
    inner: S,
    /// How many calls come before the one that fails; None once it has failed.
    before: Option<u32>,
    /// How many calls failed, of either store; the count wraps.
    failed: u64,
    /// How many commits were called; the count wraps.
    commits: u64,
}

impl<S: Store> Failing<S> {
    /// The store of which the call after so many fails.
    pub fn new(inner: S, before: u32) -> Failing<S> {
        Failing {
            inner,
            before: Some(before),
            failed: 0,
            commits: 0,
        }
    }

    /// Whether the call has come that fails.
    pub fn has_failed(&self) -> bool {
        self.before.is_none()
    }

    /// The other store.
    pub fn inner(&mut self) -> &mut S {
        &mut self.inner
    }

    /// Whether this call is the one that fails.
    fn is_due(&mut self) -> bool
        ensures inner { self.new.inner ≡ self.old.inner }
        ensures failed { self.new.failed ≡ self.old.failed }
        ensures commits { self.new.commits ≡ self.old.commits }
    {
        match self.before {
            Some(0) => {
                self.before = None;
                true
            }
            Some(more) => {
                self.before = Some(more - 1);
                false
            }
            None => false,
        }
    }

    /// A failed call, which counts.
    fn fail<T>(&mut self) -> Got<T>
        ensures error { IsErr result }
        ensures counted { self.new ≡ record self.old { failed = next_count self.old.failed } }
    {
        self.failed = self.failed.wrapping_add(1);
        Err(StoreError)
    }

    /// The other store's answer, which counts where it is an error.
    fn counted<T>(&mut self, got: Got<T>) -> Got<T>
        ensures same { result ≡ got }
        ensures counted { self.new ≡ record self.old { failed = failed_after got self.old.failed } }
    {
        if got.is_err() {
            self.failed = self.failed.wrapping_add(1);
        }
        got
    }

    /// The answer where rows were handed out, or the failure after them. Where the taker asked to stop, each row before
    /// the last was answered true and the last one false, which no failure follows: the next call fails then.
    fn behind_rows(&mut self, got: Got<bool>) -> Got<bool>
        ensures same { (result ≡ got) ⊎ ((got ≡ Ok true) × IsErr result) }
        ensures failed { self.new.failed ≡ failed_after result self.old.failed }
        ensures inner { self.new.inner ≡ self.old.inner }
        ensures commits { self.new.commits ≡ self.old.commits }
    {
        if got == Ok(true) && self.is_due() {
            return self.fail();
        }
        self.counted(got)
    }
}

/// The other store's answer to the call, or the failure.
macro_rules! answer {
    ($store:ident, $call:ident($($value:expr),*)) => {{
        if $store.is_due() {
            return $store.fail();
        }
        let got = $store.inner.$call($($value),*);
        $store.counted(got)
    }};
}

impl<S: Store> Store for Failing<S> {
    ghost use Rattle.std.specs.Prelude.{⊤};

    ghost view = { λ s. record {
      holds = (S.view s.inner).holds;
      doubt = (S.view s.inner).doubt;
      handed = (S.view s.inner).handed;
      failed = s.failed;
      commits = s.commits;
    } };

    ghost crash = { λ _ _ _ _. ⊤ };

    fn desk(&mut self) -> Got<Desk> {
        answer!(self, desk())
    }

    fn party_by_token(&mut self, digest: &Digest) -> Got<Option<Party>> {
        answer!(self, party_by_token(digest))
    }

    fn party(&mut self, party: PartyId) -> Got<Option<Party>> {
        answer!(self, party(party))
    }

    fn role(&mut self, party: PartyId) -> Got<Option<Role>> {
        answer!(self, role(party))
    }

    fn parcel(&mut self, parcel: ParcelId) -> Got<Option<Parcel>> {
        answer!(self, parcel(parcel))
    }

    fn owner(&mut self, parcel: ParcelId) -> Got<Option<PartyId>> {
        answer!(self, owner(parcel))
    }

    fn parcel_by_lot(&mut self, lot: &Lot) -> Got<Option<Parcel>> {
        answer!(self, parcel_by_lot(lot))
    }

    fn interest(&mut self, parcel: ParcelId, party: PartyId) -> Got<bool> {
        answer!(self, interest(parcel, party))
    }

    fn interests(&mut self) -> Got<Vec<Interest>> {
        answer!(self, interests())
    }

    fn file(&mut self, file: FileId) -> Got<Option<FileRow>> {
        answer!(self, file(file))
    }

    fn state(&mut self, file: FileId) -> Got<Option<FileState>> {
        answer!(self, state(file))
    }

    fn papers(&mut self, file: FileId) -> Got<Vec<Paper>> {
        answer!(self, papers(file))
    }

    fn has_open_notice(&mut self, file: FileId, number: PaperNumber) -> Got<bool> {
        answer!(self, has_open_notice(file, number))
    }

    fn select(&mut self, route: &Route, caller: PartyId, day: Day) -> Got<Vec<Found>> {
        answer!(self, select(route, caller, day))
    }

    fn each<T: Taker<Found>>(
        &mut self,
        route: &Route,
        caller: PartyId,
        day: Day,
        taker: &mut T,
    ) -> Got<bool> {
        let got = self.inner.each(route, caller, day, taker);
        self.behind_rows(got)
    }

    fn each_of_any<T: Taker<Found>>(
        &mut self,
        routes: &[Route],
        caller: PartyId,
        day: Day,
        taker: &mut T,
    ) -> Got<bool> {
        let got = self.inner.each_of_any(routes, caller, day, taker);
        self.behind_rows(got)
    }

    fn commit(&mut self, change: &Change<'_>, day: Day) -> Got<()> {
        self.commits = self.commits.wrapping_add(1);
        answer!(self, commit(change, day))
    }
}
