//! The tables of another store, read into vectors.

ghost use Rattle.std.specs.Prelude.{◌≡◌, ◌≤◌, ◌==◌, IfOk, length, map, find, filter, Some};
ghost use Rattle.permit_base.specs.Limits.{most_records};
ghost use Rattle.permit_model.specs.Caller.{Party as TheParty};
ghost use Rattle.permit_model.specs.Parcels.{Parcel as TheParcel};
ghost use Rattle.permit_model.specs.Numbering.{IsNumbered};
ghost use Rattle.permit_model.specs.Sound.{IsSoundTables};
ghost use Rattle.permit_model.specs.Tables.{FileRow as TheRow, Tables};
ghost use Rattle.permit_store.specs.Frames.{OverTables};
ghost use Rattle.permit_store.specs.Interests.{DeclareSame};
ghost use Rattle.permit_store.specs.Loading.{kept_of, first_editions};
ghost use Rattle.permit_store.specs.Plain.{AreInPlace};

use crate::plain::PlainStore;
use crate::plain::interests::Interests;
use crate::plain::kept::Kept;
use crate::plain::papers::listed;
use crate::plain::parcels::Parcels;
use crate::plain::parties::Parties;
use crate::rows::Interest;
use crate::store::{Got, Store, StoreError};
use permit_base::values::{FileId, ParcelId, PartyId};
use permit_base::words::Edition;
use std::alloc::Global;

/// The parties of a store that counts so many.
fn load_parties<S: Store>(alloc: Global, store: &mut S, count: u32) -> Got<Parties>
    ensures held { OverTables (S.view store.old) (S.view store.new)
        (λ t. IsNumbered (λ (p : TheParty). p.id) t.parties → length t.parties ≡ count → IfOk result (λ parties. parties.rows.items ≡ t.parties)) }
    ensures kept { (t : Tables) → (S.view store.old).holds t → (S.view store.new).holds t }
    ensures doubt { (S.view store.old).doubt ≤ (S.view store.new).doubt }
    ensures commits { (S.view store.new).commits ≡ (S.view store.old).commits }
{
    let mut parties = Parties::new(alloc);
    for place in 0..count {
        let Some(id) = PartyId::new(place + 1) else {
            return Err(StoreError);
        };
        let Some(party) = store.party(id)? else {
            return Err(StoreError);
        };
        if !parties.push(party) {
            return Err(StoreError);
        }
    }
    Ok(parties)
}

/// The parcels of a store that counts so many.
fn load_parcels<S: Store>(alloc: Global, store: &mut S, count: u32) -> Got<Parcels>
    ensures held { OverTables (S.view store.old) (S.view store.new)
        (λ t. IsNumbered (λ (p : TheParcel). p.id) t.parcels → length t.parcels ≡ count → IfOk result (λ parcels. parcels.rows.items ≡ t.parcels)) }
    ensures kept { (t : Tables) → (S.view store.old).holds t → (S.view store.new).holds t }
    ensures doubt { (S.view store.old).doubt ≤ (S.view store.new).doubt }
    ensures commits { (S.view store.new).commits ≡ (S.view store.old).commits }
{
    let mut parcels = Parcels::new(alloc);
    for place in 0..count {
        let Some(id) = ParcelId::new(place + 1) else {
            return Err(StoreError);
        };
        let Some(parcel) = store.parcel(id)? else {
            return Err(StoreError);
        };
        if !parcels.push(parcel) {
            return Err(StoreError);
        }
    }
    Ok(parcels)
}

/// These interests, each to be found.
fn interests_of(alloc: Global, declared: &[Interest]) -> Got<Interests>
    ensures { IfOk result (λ interests. interests.rows.items ≡ declared.now) }
{
    let mut interests = Interests::new(alloc);
    for interest in declared {
        if !interests.push(*interest) {
            return Err(StoreError);
        }
    }
    Ok(interests)
}

/// The interests of a store.
fn load_interests<S: Store>(alloc: Global, store: &mut S) -> Got<Interests>
    ensures held { OverTables (S.view store.old) (S.view store.new) (λ t. IfOk result (λ interests. DeclareSame t.interests interests.rows.items)) }
    ensures kept { (t : Tables) → (S.view store.old).holds t → (S.view store.new).holds t }
    ensures doubt { (S.view store.old).doubt ≤ (S.view store.new).doubt }
    ensures commits { (S.view store.new).commits ≡ (S.view store.old).commits }
{
    let declared = store.interests()?;
    interests_of(alloc, &declared)
}

/// A file of a store, with its papers.
fn load_file<S: Store>(alloc: Global, store: &mut S, id: FileId) -> Got<Kept>
    ensures held { OverTables (S.view store.old) (S.view store.new)
        (λ t. IfOk result (λ k. (find (λ f. f.id == id) t.files ≡ Some k.row) × (k.papers ≡ filter (λ p. p.file == id) t.papers))) }
    ensures number { IfOk result (λ k. k.row.id ≡ id) }
    ensures kept { (t : Tables) → (S.view store.old).holds t → (S.view store.new).holds t }
    ensures doubt { (S.view store.old).doubt ≤ (S.view store.new).doubt }
    ensures commits { (S.view store.new).commits ≡ (S.view store.old).commits }
{
    let Some(row) = store.file(id)? else {
        return Err(StoreError);
    };
    let papers = store.papers(id)?;
    if row.id.get() != id.get() {
        return Err(StoreError);
    }
    let Ok(papers) = listed(alloc, papers) else {
        return Err(StoreError);
    };
    Ok(Kept { row, papers })
}

/// The files of a store that counts so many, each with its papers.
fn load_files<S: Store>(alloc: Global, store: &mut S, count: u32) -> Got<Vec<Kept>>
    ensures held { OverTables (S.view store.old) (S.view store.new)
        (λ t. IsNumbered (λ (f : TheRow). f.id) t.files → length t.files ≡ count → IfOk result (λ files. files.items ≡ map (kept_of t) t.files)) }
    ensures few { IfOk result (λ files. length files.items ≤ most_records) }
    ensures places { IfOk result (λ files. AreInPlace files.items) }
    ensures kept { (t : Tables) → (S.view store.old).holds t → (S.view store.new).holds t }
    ensures doubt { (S.view store.old).doubt ≤ (S.view store.new).doubt }
    ensures commits { (S.view store.new).commits ≡ (S.view store.old).commits }
{
    let mut files = Vec::new(alloc);
    for place in 0..count {
        let Some(id) = FileId::new(place + 1) else {
            return Err(StoreError);
        };
        let file = load_file(alloc, store, id)?;
        let Ok(()) = files.push(file) else {
            return Err(StoreError);
        };
    }
    Ok(files)
}

/// How many of the files keep to the first edition.
fn count_first(files: &[Kept]) -> u32
    requires few { length files.now ≤ most_records }
    ensures { result ≡ first_editions files.now }
{
    files
        .iter()
        .filter(|kept| {
            let kept: &Kept = kept;
            kept.row.state.edition() == Edition::First
        })
        .count() as u32
}

impl PlainStore {
    /// The tables of another store, read into memory. It fails where a call of that store fails or memory is refused, where the
    /// office still keeps to the first edition, and where rows aren't numbered and counted as sound tables have them.
    ///
    /// # Examples
    ///
    /// ```
    /// let mut copy = PlainStore::load(alloc, &mut store)?;
    /// assert!(rt; copy.desk()?.parties == store.desk()?.parties);
    /// ```
    pub fn load<S: Store>(alloc: Global, store: &mut S) -> Got<PlainStore>
        ensures held { OverTables (S.view store.old) (S.view store.new)
            (λ t. IsSoundTables t → IfOk result (λ m. (⟦<PlainStore as Store>⟧.view m).holds t)) }
        ensures kept { (t : Tables) → (S.view store.old).holds t → (S.view store.new).holds t }
        ensures doubt { (S.view store.old).doubt ≤ (S.view store.new).doubt }
        ensures commits { (S.view store.new).commits ≡ (S.view store.old).commits }
        ensures own_handed { IfOk result (λ m. (⟦<PlainStore as Store>⟧.view m).handed ≡ 0) }
        ensures own_failed { IfOk result (λ m. (⟦<PlainStore as Store>⟧.view m).failed ≡ 0) }
        ensures own_commits { IfOk result (λ m. (⟦<PlainStore as Store>⟧.view m).commits ≡ 0) }
    {
        let desk = store.desk()?;
        if desk.edition != Edition::Second {
            return Err(StoreError);
        }
        let Ok(parties) = load_parties(alloc, store, desk.parties) else {
            return Err(StoreError);
        };
        let Ok(parcels) = load_parcels(alloc, store, desk.parcels) else {
            return Err(StoreError);
        };
        let Ok(interests) = load_interests(alloc, store) else {
            return Err(StoreError);
        };
        let Ok(files) = load_files(alloc, store, desk.files) else {
            return Err(StoreError);
        };
        Ok(PlainStore {
            alloc,
            upgrade: count_first(&files),
            last: desk.last,
            parties,
            parcels,
            interests,
            files,
            handed: 0,
            failed: 0,
            commits: 0,
        })
    }
}
