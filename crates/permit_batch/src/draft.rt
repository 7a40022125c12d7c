//! Tables in memory, with the changes that are not made yet in the store that keeps them.

ghost use Rattle.std.specs.Prelude.{◌≡◌, OnOk, OnErr, length, ⊤};
ghost use Rattle.permit_model.specs.Tables.{Tables};
ghost use Rattle.permit_store.specs.Changes.{changed, Fits};
ghost use Rattle.permit_store.specs.Counts.{failed_after};
ghost use Rattle.permit_store.specs.Frames.{IsCommit};
ghost use Rattle.permit_store.specs.Renewing.{Renews};
ghost use Rattle.permit_batch.specs.Leading.{LeadThrough};

use crate::batching::Batching;
use permit_base::refusal::Refusal;
use permit_base::route::Route;
use permit_base::values::{Day, Digest, FileId, Lot, PaperNumber, ParcelId, PartyId};
use permit_base::words::Role;
use permit_core::state::FileState;
use permit_core::taker::Taker;
use permit_store::memory::Memory;
use permit_store::renewing::Renewing;
use permit_store::rows::{Change, Desk, FileRow, Found, Interest, Paper, Parcel, Party};
use permit_store::store::{Got, Store, StoreError};
use std::alloc::Global;
use std::marker::{Brand, PhantomData};

/// Where a draft began. It is for proofs alone: what makes a draft has a type parameter for it, for which its caller passes
/// `std::marker::Brand`, and the caller's proof says which tables these are.
pub trait Begun {
    /// The draft began from these tables.
    ghost began: { Tables → Type 0 };
}

impl Begun for Brand {
    ghost began = { λ _. ⊥ };
}

/// Tables in memory, and the steps that lead to them from the tables with which the draft began. The store that keeps the tables
/// isn't in it, so no call of the draft changes that store but `commit_to`, which makes all steps there by one commit.
#[derive(Drop)]
pub struct Draft<K: Batching, M: Memory + Renewing, B: Begun> {
    alloc: Global,
    memory: M,
    steps: Vec<K::Step>,
    failed: u64,
    commits: u64,
    of: PhantomData<B>,
}

impl<K: Batching, M: Memory + Renewing + Drop, B: Begun> Draft<K, M, B> {
    /// Begins a draft with tables in memory.
    ///
    /// # Examples
    ///
    /// ```
    /// let memory = PlainStore::load(alloc, store)?;
    /// let draft = Draft::<SqlStore<MemStore>, PlainStore, Brand>::new(alloc, memory);
    /// assert!(rt; draft.waiting() == 0);
    /// ```
    pub fn new(alloc: Global, memory: M) -> Draft<K, M, B>
        ensures held { (t : Tables) → (M.Store.view memory).holds t → B.began t
            → (⟦<Draft<K, M, B> as Store>⟧.view result).holds t }
    {
        Draft {
            alloc,
            memory,
            steps: Vec::new(alloc),
            failed: 0,
            commits: 0,
            of: PhantomData,
        }
    }

    /// How many steps wait.
    pub fn waiting(&self) -> usize
        ensures { result ≡ length self.now.steps.items }
    {
        self.steps.len()
    }

    /// Makes all steps by one commit in the store with whose tables the draft began. After an error that store holds what it
    /// held; after a success it holds what the draft does.
    ///
    /// # Examples
    ///
    /// ```
    /// let renewed = draft.renew(party, &digest)?;
    /// assert!(rt; renewed.is_ok() && draft.waiting() == 1);
    /// assert!(rt; store.party_by_token(&digest)?.is_none());
    /// draft.commit_to(store)?;
    /// assert!(rt; store.party_by_token(&digest)?.is_some());
    /// ```
    pub fn commit_to(&self, store: &mut K) -> Got<()>
        ensures made { (t : Tables) → (⟦<Draft<K, M, B> as Store>⟧.view self.now).holds t
            → ((u : Tables) → B.began u → (K.Store.view store.old).holds u)
            → OnOk result ((K.Store.view store.new).holds t) }
        ensures commit { IsCommit (K.Store.view store.old) (K.Store.view store.new) result }
        ensures crash { (t : Tables) → (⟦<Draft<K, M, B> as Store>⟧.view self.now).holds t
            → (u : Tables) × B.began u × K.Store.crash store.old store.new u (λ left. left t) }
    {
        store.commit_all(self.steps.as_slice())
    }

    /// The tables in memory, which are the draft's.
    pub fn into_memory(self) -> M
        ensures held { (t : Tables) → (⟦<Draft<K, M, B> as Store>⟧.view self).holds t → (M.Store.view result).holds t }
    {
        let Draft {
            alloc: _,
            memory,
            steps: _,
            failed: _,
            commits: _,
            of: _,
        } = self;
        memory
    }

    /// Counts a failed call, and gives its answer on.
    fn counted<T>(&mut self, answer: Got<T>) -> Got<T>
        ensures answer { result ≡ answer }
        ensures failed { self.new.failed ≡ failed_after answer self.old.failed }
        ensures others { (self.new.memory ≡ self.old.memory) × (self.new.steps ≡ self.old.steps) × (self.new.commits ≡ self.old.commits) }
    {
        if answer.is_err() {
            self.failed = self.failed.wrapping_add(1);
        }
        answer
    }

    /// Writes a change down and makes it in memory, or changes nothing.
    fn enter(&mut self, change: &Change<'_>, day: Day) -> Got<()>
        ensures made { (t : Tables) → (⟦<Draft<K, M, B> as Store>⟧.view self.old).holds t → Fits t change.now day
            → OnOk result ((⟦<Draft<K, M, B> as Store>⟧.view self.new).holds (changed t change.now day)) }
        ensures kept { (t : Tables) → (⟦<Draft<K, M, B> as Store>⟧.view self.old).holds t
            → OnErr result ((⟦<Draft<K, M, B> as Store>⟧.view self.new).holds t) }
        ensures handed { (M.Store.view self.new.memory).handed ≡ (M.Store.view self.old.memory).handed }
        ensures counts { (self.new.failed ≡ self.old.failed) × (self.new.commits ≡ self.old.commits) }
    {
        let desk = self.memory.desk()?;
        let step = K::change_step(self.alloc, &desk, change, day)?;
        let ready = self.memory.prepare(change, day)?;
        let Ok(()) = self.steps.push(step) else {
            return Err(StoreError);
        };
        self.memory.make(ready, change, day);
        Ok(())
    }

    /// Writes a renewal down and makes it in memory, or changes nothing.
    fn enter_renewal(&mut self, party: PartyId, digest: &Digest) -> Got<Result<(), Refusal>>
        ensures renewed { (t : Tables) → (⟦<Draft<K, M, B> as Store>⟧.view self.old).holds t
            → Renews (⟦<Draft<K, M, B> as Store>⟧.view self.new).holds party digest.now t result }
        ensures handed { (M.Store.view self.new.memory).handed ≡ (M.Store.view self.old.memory).handed }
        ensures counts { (self.new.failed ≡ self.old.failed) × (self.new.commits ≡ self.old.commits) }
    {
        let step = K::renewal_step(self.alloc, party, digest)?;
        let Ok(()) = self.steps.push(step) else {
            return Err(StoreError);
        };
        match self.memory.renew(party, digest) {
            Ok(Ok(())) => Ok(Ok(())),
            refused => {
                self.steps.pop();
                refused
            }
        }
    }
}

impl<K: Batching, M: Memory + Renewing + Drop, B: Begun> Store for Draft<K, M, B> {
    ghost use Rattle.permit_batch.specs.Leading.{LeadThrough};

    ghost view = { λ s. record {
      holds = λ t. (M.Store.view s.memory).holds t × ((u : Tables) × B.began u × LeadThrough K.leads s.steps.items u t);
      doubt = (M.Store.view s.memory).doubt;
      handed = (M.Store.view s.memory).handed;
      failed = s.failed;
      commits = s.commits;
    } };

    ghost crash = { λ _ _ _ _. ⊤ };

    fn desk(&mut self) -> Got<Desk> {
        let answer = self.memory.desk();
        self.counted(answer)
    }

    fn party_by_token(&mut self, digest: &Digest) -> Got<Option<Party>> {
        let answer = self.memory.party_by_token(digest);
        self.counted(answer)
    }

    fn party(&mut self, party: PartyId) -> Got<Option<Party>> {
        let answer = self.memory.party(party);
        self.counted(answer)
    }

    fn role(&mut self, party: PartyId) -> Got<Option<Role>> {
        let answer = self.memory.role(party);
        self.counted(answer)
    }

    fn parcel(&mut self, parcel: ParcelId) -> Got<Option<Parcel>> {
        let answer = self.memory.parcel(parcel);
        self.counted(answer)
    }

    fn owner(&mut self, parcel: ParcelId) -> Got<Option<PartyId>> {
        let answer = self.memory.owner(parcel);
        self.counted(answer)
    }

    fn parcel_by_lot(&mut self, lot: &Lot) -> Got<Option<Parcel>> {
        let answer = self.memory.parcel_by_lot(lot);
        self.counted(answer)
    }

    fn interest(&mut self, parcel: ParcelId, party: PartyId) -> Got<bool> {
        let answer = self.memory.interest(parcel, party);
        self.counted(answer)
    }

    fn interests(&mut self) -> Got<Vec<Interest>> {
        let answer = self.memory.interests();
        self.counted(answer)
    }

    fn file(&mut self, file: FileId) -> Got<Option<FileRow>> {
        let answer = self.memory.file(file);
        self.counted(answer)
    }

    fn state(&mut self, file: FileId) -> Got<Option<FileState>> {
        let answer = self.memory.state(file);
        self.counted(answer)
    }

    fn papers(&mut self, file: FileId) -> Got<Vec<Paper>> {
        let answer = self.memory.papers(file);
        self.counted(answer)
    }

    fn has_open_notice(&mut self, file: FileId, number: PaperNumber) -> Got<bool> {
        let answer = self.memory.has_open_notice(file, number);
        self.counted(answer)
    }

    fn select(&mut self, route: &Route, caller: PartyId, day: Day) -> Got<Vec<Found>> {
        let answer = self.memory.select(route, caller, day);
        self.counted(answer)
    }

    fn each<T: Taker<Found>>(
        &mut self,
        route: &Route,
        caller: PartyId,
        day: Day,
        taker: &mut T,
    ) -> Got<bool> {
        let answer = self.memory.each(route, caller, day, taker);
        self.counted(answer)
    }

    fn each_of_any<T: Taker<Found>>(
        &mut self,
        routes: &[Route],
        caller: PartyId,
        day: Day,
        taker: &mut T,
    ) -> Got<bool> {
        let answer = self.memory.each_of_any(routes, caller, day, taker);
        self.counted(answer)
    }

    fn commit(&mut self, change: &Change<'_>, day: Day) -> Got<()> {
        self.commits = self.commits.wrapping_add(1);
        let made = self.enter(change, day);
        self.counted(made)
    }
}

impl<K: Batching, M: Memory + Renewing + Drop, B: Begun> Renewing for Draft<K, M, B> {
    fn renew(&mut self, party: PartyId, digest: &Digest) -> Got<Result<(), Refusal>> {
        let renewed = self.enter_renewal(party, digest);
        self.counted(renewed)
    }
}
