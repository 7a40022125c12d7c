//! Redoing the rest of a text on a store that has the tables of a prefix of it.

ghost use Rattle.std.specs.Prelude.{◌≡◌, ◌≤◌, ◌+◌, ◌⊎◌, ◌++◌, ◌∷◌, [], ℕ, List, Some, IfErr, IfOk, OnErr, OnOk, drop, length};
ghost use Rattle.permit_replay.specs.Alike.{unordered};
ghost use Rattle.permit_history.specs.Text.{GivesInTurn};
ghost use Rattle.permit_history.specs.declared.entry.Entry.{Entry as TheEntry};
ghost use Rattle.permit_model.specs.Sound.{IsSoundTables};
ghost use Rattle.permit_model.specs.Tables.{Tables};
ghost use Rattle.permit_replay.specs.Holding.{IsBeginning};
ghost use Rattle.permit_replay.specs.declared.beginning.Beginning.{Beginning as TheBeginning};
ghost use Rattle.permit_store.specs.Frames.{OverTables};
ghost use Rattle.permit_replay.specs.Bringing.{GivesFrom, Stands, StandsBehind, StandsWithin, in_both};
ghost use Rattle.permit_replay.specs.Placing.{StandsLast};
ghost use Rattle.permit_replay.specs.declared.opening.fault.BringFault.TheVariants as fault;
ghost use Rattle.permit_replay.specs.declared.opening.fault.CompareFault.TheVariants as compare_fault;

use crate::alike::unordered::Unordered;
use crate::following::follow;
use crate::line::next_entry;
use crate::opening::fault::BringFault;
use permit_batch::batching::Batching;
use permit_batch::draft::{Begun, Draft};
use permit_history::entry::Entry;
use permit_store::plain::PlainStore;
use permit_store::renewing::Renewing;
use permit_store::store::{Got, Store, StoreError};
use std::alloc::Global;
use std::io::BufRead;
use std::marker::Brand;

/// How many lines are done on a store by one commit, at most.
const LINES_A_COMMIT: usize = 1000;

/// Lines that are done on a store by one commit.
#[derive(Drop)]
struct Batch {
    /// The store's tables.
    there: PlainStore,
    /// The lines, which aren't done on the store yet.
    waiting: Vec<Entry>,
}

/// Takes an entry on a store.
fn follow_entry<D: Renewing>(store: &mut Unordered<D>, entry: &Entry) -> Got<()>
    ensures follows { (D.Store.view store.new.store).doubt ≡ 0 → (beginning : TheBeginning) (entries : List TheEntry)
        → Stands (IsBeginning ⟦<PlainStore as Store>⟧.view beginning) (unordered (D.Store.view store.old.store)).holds entries
        → OnOk result (Stands (IsBeginning ⟦<PlainStore as Store>⟧.view beginning) (unordered (D.Store.view store.new.store)).holds (entries ++ entry.now ∷ [])) }
    ensures doubt { (D.Store.view store.old.store).doubt ≤ (D.Store.view store.new.store).doubt }
{
    match follow(store, entry.day, &entry.deed) {
        Ok(()) => Ok(()),
        Err(_) => Err(StoreError),
    }
}

/// Takes entries in turn on a store.
fn follow_all<D: Renewing>(store: &mut Unordered<D>, entries: &[Entry]) -> Got<()>
    ensures follows { (D.Store.view store.new.store).doubt ≡ 0 → (beginning : TheBeginning) (done : List TheEntry)
        → Stands (IsBeginning ⟦<PlainStore as Store>⟧.view beginning) (unordered (D.Store.view store.old.store)).holds done
        → OnOk result (Stands (IsBeginning ⟦<PlainStore as Store>⟧.view beginning) (unordered (D.Store.view store.new.store)).holds (done ++ entries.now)) }
{
    for entry in entries {
        follow_entry(store, entry)?;
    }
    Ok(())
}

/// Takes entries in turn on tables in memory, which are the store's, and then all of them on the store by one commit. After an
/// error the store holds what it held.
fn commit_entries<S: Batching, B: Begun>(
    alloc: Global,
    there: PlainStore,
    store: &mut S,
    entries: &[Entry],
) -> Got<PlainStore>
    requires began { (t : Tables) → (S.Store.view store.old).holds t → B.began t }
    requires base { (t : Tables) → B.began t → (S.Store.view store.old).holds t }
    ensures stands { (beginning : TheBeginning) (done : List TheEntry)
        → Stands (IsBeginning ⟦<PlainStore as Store>⟧.view beginning) (unordered (in_both (⟦<PlainStore as Store>⟧.view there) (S.Store.view store.old))).holds done
        → IfOk result (λ after. Stands (IsBeginning ⟦<PlainStore as Store>⟧.view beginning) (unordered (in_both (⟦<PlainStore as Store>⟧.view after) (S.Store.view store.new))).holds (done ++ entries.now)) }
    ensures left { (t : Tables) → (S.Store.view store.old).holds t → OnErr result ((S.Store.view store.new).holds t) }
    ensures doubt { (S.Store.view store.old).doubt ≤ (S.Store.view store.new).doubt }
{
    let mut draft = Unordered {
        store: Draft::<S, PlainStore, B>::new(alloc, there),
    };
    follow_all(&mut draft, entries)?;
    let Unordered { store: draft } = draft;
    draft.commit_to(store)?;
    Ok(draft.into_memory())
}

/// Does the lines that wait on the store, if there are any. After an error the store holds what it held.
fn commit_waiting<S: Batching>(alloc: Global, batch: Batch, store: &mut S) -> Got<Batch>
    ensures behind { (beginning : TheBeginning) (least : ℕ) (entries : List TheEntry)
        → StandsBehind (IsBeginning ⟦<PlainStore as Store>⟧.view beginning) least entries batch.waiting.items (in_both (⟦<PlainStore as Store>⟧.view batch.there) (S.Store.view store.old))
        → IfOk result (λ after. StandsBehind (IsBeginning ⟦<PlainStore as Store>⟧.view beginning) least entries after.waiting.items (in_both (⟦<PlainStore as Store>⟧.view after.there) (S.Store.view store.new))) }
    ensures none { IfOk result (λ after. after.waiting.items ≡ []) }
    ensures left { (t : Tables) → (S.Store.view store.old).holds t → OnErr result ((S.Store.view store.new).holds t) }
    ensures doubt { (S.Store.view store.old).doubt ≤ (S.Store.view store.new).doubt }
{
    if batch.waiting.is_empty() {
        return Ok(batch);
    }
    let Batch { there, waiting } = batch;
    let there = commit_entries::<S, Brand>(alloc, there, store, waiting.as_slice())?;
    let waiting = Vec::new(alloc);
    Ok(Batch { there, waiting })
}

/// One line after those that wait. Once there are many, they are done on the store. After an error the store holds what it held.
fn wait<S: Batching>(alloc: Global, batch: Batch, store: &mut S, entry: Entry) -> Got<Batch>
    ensures behind { (beginning : TheBeginning) (least : ℕ) (entries : List TheEntry)
        → StandsBehind (IsBeginning ⟦<PlainStore as Store>⟧.view beginning) least entries batch.waiting.items (in_both (⟦<PlainStore as Store>⟧.view batch.there) (S.Store.view store.old))
        → IfOk result (λ after. StandsBehind (IsBeginning ⟦<PlainStore as Store>⟧.view beginning) least (entries ++ entry ∷ []) after.waiting.items (in_both (⟦<PlainStore as Store>⟧.view after.there) (S.Store.view store.new))) }
    ensures left { (t : Tables) → (S.Store.view store.old).holds t → OnErr result ((S.Store.view store.new).holds t) }
    ensures doubt { (S.Store.view store.old).doubt ≤ (S.Store.view store.new).doubt }
{
    let mut batch = batch;
    let Ok(()) = batch.waiting.push(entry) else {
        return Err(StoreError);
    };
    if batch.waiting.len() < LINES_A_COMMIT {
        return Ok(batch);
    }
    commit_waiting(alloc, batch, store)
}

/// Skips the first lines of a text, so many.
fn skip_lines<Q: BufRead>(again: &mut Q, count: u64) -> Result<(), BringFault>
    ensures skipped { (bytes : List ℕ) (entries : List TheEntry) (left : List ℕ) → Q.remaining again.old ≡ Some bytes → GivesInTurn bytes entries left
        → count ≤ length entries → OnOk result (GivesFrom (Q.remaining again.new) (drop count entries) left) }
    ensures again { IfErr result (λ why. why ≡ fault.Again) }
{
    for _line in 0..count {
        let Ok(_) = again.skip_until(b'\n') else {
            return Err(BringFault::Again);
        };
    }
    Ok(())
}

/// Redoes the next lines of a text on a store, those after this number up to that, with room for one. Its tables are in memory too.
fn redo_lines<S: Batching, Q: BufRead>(
    alloc: Global,
    there: PlainStore,
    store: &mut S,
    again: &mut Q,
    room: &mut Vec<u8>,
    after: u64,
    last: u64,
) -> Result<(), BringFault>
    ensures redone { (beginning : TheBeginning) (done : List TheEntry) (later : List TheEntry) (left : List ℕ) → GivesFrom (Q.remaining again.old) later left
        → length later + after ≡ last
        → Stands (IsBeginning ⟦<PlainStore as Store>⟧.view beginning) (unordered (in_both (⟦<PlainStore as Store>⟧.view there) (S.Store.view store.old))).holds done
        → OnOk result (Stands (IsBeginning ⟦<PlainStore as Store>⟧.view beginning) (unordered (S.Store.view store.new)).holds (done ++ later)) }
    ensures left { (beginning : TheBeginning) (done : List TheEntry) (later : List TheEntry) (left : List ℕ) → GivesFrom (Q.remaining again.old) later left
        → length later + after ≡ last
        → Stands (IsBeginning ⟦<PlainStore as Store>⟧.view beginning) (unordered (in_both (⟦<PlainStore as Store>⟧.view there) (S.Store.view store.old))).holds done
        → OnErr result (StandsWithin (IsBeginning ⟦<PlainStore as Store>⟧.view beginning) (length done) (S.Store.view store.new) (done ++ later)) }
    ensures stopped { IfErr result (λ why. (why ≡ fault.Again) ⊎ (why ≡ fault.Stopped compare_fault.Store)) }
    ensures doubt { (S.Store.view store.old).doubt ≤ (S.Store.view store.new).doubt }
{
    let waiting = Vec::new(alloc);
    let mut batch = Batch { there, waiting };
    for _line in after..last {
        let Ok(Some(entry)) = next_entry(alloc, again, room) else {
            return Err(BringFault::Again);
        };
        batch = wait(alloc, batch, store, entry)?;
    }
    commit_waiting(alloc, batch, store)?;
    Ok(())
}

/// Redoes the rest of a text on a store that has the tables of the first lines, so many, by commits of many lines. The text has so
/// many lines. After an error the store has the tables of a prefix, no shorter one.
pub(crate) fn redo<S: Batching, Q: BufRead>(
    alloc: Global,
    store: &mut S,
    again: &mut Q,
    stood: u64,
    lines: u64,
) -> Result<(), BringFault>
    ensures redone { (beginning : TheBeginning) (bytes : List ℕ) (entries : List TheEntry) (left : List ℕ) → Q.remaining again.old ≡ Some bytes
        → GivesInTurn bytes entries left → lines ≡ length entries
        → OverTables (S.Store.view store.old) (S.Store.view store.new) (λ t. IsSoundTables t
        → StandsLast (IsBeginning ⟦<PlainStore as Store>⟧.view beginning) stood entries t
        → OnOk result (Stands (IsBeginning ⟦<PlainStore as Store>⟧.view beginning) (unordered (S.Store.view store.new)).holds entries)) }
    ensures left { (beginning : TheBeginning) (bytes : List ℕ) (entries : List TheEntry) (left : List ℕ) → Q.remaining again.old ≡ Some bytes
        → GivesInTurn bytes entries left → lines ≡ length entries
        → OverTables (S.Store.view store.old) (S.Store.view store.new) (λ t. IsSoundTables t
        → StandsLast (IsBeginning ⟦<PlainStore as Store>⟧.view beginning) stood entries t
        → OnErr result (StandsWithin (IsBeginning ⟦<PlainStore as Store>⟧.view beginning) stood (S.Store.view store.new) entries)) }
    ensures stopped { IfErr result (λ why. (why ≡ fault.Again) ⊎ (why ≡ fault.Stopped compare_fault.Store)) }
    ensures doubt { (S.Store.view store.old).doubt ≤ (S.Store.view store.new).doubt }
{
    let there = PlainStore::load(alloc, store)?;
    skip_lines(again, stood)?;
    let mut room = Vec::new(alloc);
    redo_lines(alloc, there, store, again, &mut room, stood, lines)
}
