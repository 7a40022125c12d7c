//! An index that covers the tables in memory.

ghost use Rattle.std.specs.Prelude.{◌≡◌, ◌≤◌, ◌<◌, ◌==◌, ℕ, IfOk, OnOk, IsOk, IsTrue, Some, find};
ghost use Rattle.permit_model.specs.Routes.{has_interest_in, owner_in};
ghost use Rattle.permit_model.specs.Sound.{IsSoundTables};
ghost use Rattle.permit_model.specs.Tables.{FileRow as TheRow, Tables};
ghost use Rattle.permit_mirror.specs.Index.{IsThere, Widens};
ghost use Rattle.permit_mirror.specs.Pairs.{has};

use crate::index::Index;
use crate::indexed::Indexed;
use permit_base::values::{FileId, ParcelId};
use permit_store::memory::Memory;
use permit_store::store::{Got, Store, StoreError};
use std::alloc::{AllocError, Global};

/// What the office's calls answer where memory was refused.
fn as_store(added: Result<(), AllocError>) -> Got<()>
    ensures { OnOk result (IsOk added) }
{
    match added {
        Ok(()) => Ok(()),
        Err(AllocError) => Err(StoreError),
    }
}

/// Puts the owner of the parcel at it, where it is there.
fn add_owner<M: Memory>(memory: &mut M, index: &mut Index, id: ParcelId) -> Got<()>
    ensures kept { (t : Tables) → (M.view memory.old).holds t → (M.view memory.new).holds t }
    ensures widened { Widens index.old index.new }
    ensures owner { OnOk result ((t : Tables) → (M.view memory.old).holds t → (p : ℕ) → owner_in t id ≡ Some p → IsTrue (has index.new.people_at id p)) }
{
    match memory.owner(id)? {
        None => Ok(()),
        Some(owner) => as_store(index.concern(id.get(), owner)),
    }
}

/// Puts the owner of each parcel at it.
fn add_owners<M: Memory>(memory: &mut M, index: &mut Index) -> Got<()>
    ensures kept { (t : Tables) → (M.view memory.old).holds t → (M.view memory.new).holds t }
    ensures widened { Widens index.old index.new }
    ensures owners { OnOk result ((t : Tables) → (M.view memory.old).holds t → (parcel p : ℕ) → 0 < parcel → parcel ≤ index.old.parcels
        → owner_in t parcel ≡ Some p → IsTrue (has index.new.people_at parcel p)) }
{
    for place in 0..index.parcels {
        let Some(id) = ParcelId::new(place + 1) else {
            return Err(StoreError);
        };
        add_owner(memory, index, id)?;
    }
    Ok(())
}

/// Puts those who declared an interest in a parcel at it.
fn add_interests<M: Memory>(memory: &mut M, index: &mut Index) -> Got<()>
    ensures kept { (t : Tables) → (M.view memory.old).holds t → (M.view memory.new).holds t }
    ensures widened { Widens index.old index.new }
    ensures interests { OnOk result ((t : Tables) → (M.view memory.old).holds t → (parcel p : ℕ) → IsTrue (has_interest_in t parcel p)
        → IsTrue (has index.new.people_at parcel p)) }
{
    let declared = memory.interests()?;
    for interest in &declared {
        as_store(index.concern(interest.parcel.get(), interest.party))?;
    }
    Ok(())
}

/// Adds the file, where it is there.
fn add_file<M: Memory>(memory: &mut M, index: &mut Index, id: FileId) -> Got<()>
    ensures kept { (t : Tables) → (M.view memory.old).holds t → (M.view memory.new).holds t }
    ensures widened { Widens index.old index.new }
    ensures there { OnOk result ((t : Tables) → (M.view memory.old).holds t → (row : TheRow) → find (λ f. f.id == id) t.files ≡ Some row
        → IsThere index.new id row.state) }
{
    match memory.state(id)? {
        None => Ok(()),
        Some(state) => as_store(index.file(id.get(), &state)),
    }
}

/// Adds each file.
fn add_files<M: Memory>(memory: &mut M, index: &mut Index) -> Got<()>
    ensures kept { (t : Tables) → (M.view memory.old).holds t → (M.view memory.new).holds t }
    ensures widened { Widens index.old index.new }
    ensures there { OnOk result ((t : Tables) → (M.view memory.old).holds t → (n : ℕ) (row : TheRow) → 0 < n → n ≤ index.old.files
        → find (λ f. f.id == n) t.files ≡ Some row → IsThere index.new n row.state) }
{
    for place in 0..index.files {
        let Some(id) = FileId::new(place + 1) else {
            return Err(StoreError);
        };
        add_file(memory, index, id)?;
    }
    Ok(())
}

impl<M: Memory + Drop> Indexed<M> {
    /// The tables in memory, with an index of them. It holds all sound tables that memory holds. It fails where there is no
    /// memory for the index.
    pub fn load(alloc: Global, memory: M) -> Got<Indexed<M>>
        ensures held { IfOk result (λ s. (t : Tables) → (M.view memory).holds t → IsSoundTables t → (⟦<Indexed<M> as Store>⟧.view s).holds t) }
        ensures handed { IfOk result (λ s. (⟦<Indexed<M> as Store>⟧.view s).handed ≡ 0) }
        ensures failed { IfOk result (λ s. (⟦<Indexed<M> as Store>⟧.view s).failed ≡ 0) }
        ensures commits { IfOk result (λ s. (⟦<Indexed<M> as Store>⟧.view s).commits ≡ 0) }
    {
        let mut memory = memory;
        let desk = memory.desk()?;
        let mut index = Index::new(alloc, desk.parcels, desk.files);
        add_owners(&mut memory, &mut index)?;
        add_interests(&mut memory, &mut index)?;
        add_files(&mut memory, &mut index)?;
        Ok(Indexed {
            memory,
            index,
            handed: 0,
            failed: 0,
            commits: 0,
        })
    }
}
