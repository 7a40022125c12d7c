//! The seal of a store's tables: the SHA-256 of their text.

ghost use Rattle.std.specs.Prelude.{◌≡◌, ◌≤◌, ℕ, List, IfOk, IsTrue, OnErr, OnOk};
ghost use Rattle.std.specs.List.{flat_map};
ghost use Rattle.permit_base.specs.Limits.{most_records};
ghost use Rattle.permit_model.specs.Sound.{IsSoundTables, has_file, has_parcel, has_party};
ghost use Rattle.permit_store.specs.Frames.{OverTables};
ghost use Rattle.permit_replay.specs.Comparing.{Looks, NoneFailed, OneFailed};
ghost use Rattle.permit_replay.specs.Adding.{Adds, AddsTables};
ghost use Rattle.permit_replay.specs.Numbered.{counted, file_text, has_row, numbers_text, parcel_text, party_text, row_text};
ghost use Rattle.permit_replay.specs.Sealing.{IsSealOf};
ghost use Rattle.permit_replay.specs.TablesText.{interest_line};

mod columns;
mod interests;
pub mod laws;
mod rows;

use crate::seal::interests::in_order;
use crate::seal::rows::{put_desk, put_file_with_papers, put_interest, put_parcel, put_party};
use permit_base::values::{Digest, FileId, ParcelId, PartyId};
use permit_history::digest_of_hash;
use permit_store::rows::Interest;
use permit_store::store::{Got, Store, StoreError};
use sha2::{Digest as _, Sha256};

/// A table whose rows are numbered from 1.
#[derive(Clone, Copy)]
enum Table {
    Parties,
    Parcels,
    Files,
}

/// Puts the line of the party of this number. It fails where there is none.
fn put_party_of<S: Store>(store: &mut S, hash: &mut Sha256, id: PartyId) -> Got<()>
    ensures put { OverTables (S.view store.old) (S.view store.new) (λ t. OnOk result (Adds (party_text t id) hash.old hash.new)) }
    ensures looks { Looks (S.view store.old) (S.view store.new) }
    ensures answered { OnOk result (NoneFailed (S.view store.old) (S.view store.new)) }
    ensures failed { OverTables (S.view store.old) (S.view store.new) (λ t.
        IsTrue (has_party t id) → OnErr result (OneFailed (S.view store.old) (S.view store.new))) }
{
    let party = store.party(id)?.ok_or(StoreError)?;
    put_party(hash, &party);
    Ok(())
}

/// Puts the line of the parcel of this number. It fails where there is none.
fn put_parcel_of<S: Store>(store: &mut S, hash: &mut Sha256, id: ParcelId) -> Got<()>
    ensures put { OverTables (S.view store.old) (S.view store.new) (λ t. OnOk result (Adds (parcel_text t id) hash.old hash.new)) }
    ensures looks { Looks (S.view store.old) (S.view store.new) }
    ensures answered { OnOk result (NoneFailed (S.view store.old) (S.view store.new)) }
    ensures failed { OverTables (S.view store.old) (S.view store.new) (λ t.
        IsTrue (has_parcel t id) → OnErr result (OneFailed (S.view store.old) (S.view store.new))) }
{
    let parcel = store.parcel(id)?.ok_or(StoreError)?;
    put_parcel(hash, &parcel);
    Ok(())
}

/// Puts the lines of the file of this number and of its papers. It fails where there is none.
fn put_file_of<S: Store>(store: &mut S, hash: &mut Sha256, id: FileId) -> Got<()>
    ensures put { OverTables (S.view store.old) (S.view store.new) (λ t. OnOk result (Adds (file_text t id) hash.old hash.new)) }
    ensures looks { Looks (S.view store.old) (S.view store.new) }
    ensures answered { OnOk result (NoneFailed (S.view store.old) (S.view store.new)) }
    ensures failed { OverTables (S.view store.old) (S.view store.new) (λ t.
        IsTrue (has_file t id) → OnErr result (OneFailed (S.view store.old) (S.view store.new))) }
{
    let file = store.file(id)?.ok_or(StoreError)?;
    let papers = store.papers(id)?;
    put_file_with_papers(hash, &file, &papers);
    Ok(())
}

/// Puts the lines of the row of this number. It fails where there is none.
fn put_row<S: Store>(store: &mut S, hash: &mut Sha256, table: Table, number: u32) -> Got<()>
    ensures put { OverTables (S.view store.old) (S.view store.new) (λ t. OnOk result (Adds (row_text table t number) hash.old hash.new)) }
    ensures looks { Looks (S.view store.old) (S.view store.new) }
    ensures answered { OnOk result (NoneFailed (S.view store.old) (S.view store.new)) }
    ensures failed { OverTables (S.view store.old) (S.view store.new) (λ t.
        1 ≤ number → number ≤ most_records → IsTrue (has_row table t number) → OnErr result (OneFailed (S.view store.old) (S.view store.new))) }
{
    match table {
        Table::Parties => match PartyId::new(number) {
            Some(id) => put_party_of(store, hash, id),
            None => Err(StoreError),
        },
        Table::Parcels => match ParcelId::new(number) {
            Some(id) => put_parcel_of(store, hash, id),
            None => Err(StoreError),
        },
        Table::Files => match FileId::new(number) {
            Some(id) => put_file_of(store, hash, id),
            None => Err(StoreError),
        },
    }
}

/// Puts the lines of the rows of a table with the numbers from 1 to this.
fn put_rows<S: Store>(store: &mut S, hash: &mut Sha256, table: Table, count: u32) -> Got<()>
    ensures put { OverTables (S.view store.old) (S.view store.new) (λ t.
        OnOk result (Adds (numbers_text (row_text table t) count) hash.old hash.new)) }
    ensures looks { Looks (S.view store.old) (S.view store.new) }
    ensures answered { OnOk result (NoneFailed (S.view store.old) (S.view store.new)) }
    ensures failed { OverTables (S.view store.old) (S.view store.new) (λ t.
        IsSoundTables t → count ≤ counted table t → OnErr result (OneFailed (S.view store.old) (S.view store.new))) }
{
    for place in 0..count {
        put_row(store, hash, table, place + 1)?;
    }
    Ok(())
}

/// Puts the lines of interests.
fn put_interests(hash: &mut Sha256, interests: &[Interest])
    ensures { Adds (flat_map interest_line interests.now) hash.old hash.new }
{
    for interest in interests {
        put_interest(hash, interest);
    }
}

/// Puts the text of a store's tables.
fn put_tables<S: Store>(store: &mut S, hash: &mut Sha256) -> Got<()>
    ensures put { OverTables (S.view store.old) (S.view store.new) (λ t. IsSoundTables t → OnOk result (AddsTables t hash.old hash.new)) }
    ensures looks { Looks (S.view store.old) (S.view store.new) }
    ensures answered { OnOk result (NoneFailed (S.view store.old) (S.view store.new)) }
    ensures failed { OverTables (S.view store.old) (S.view store.new) (λ t.
        IsSoundTables t → OnErr result (OneFailed (S.view store.old) (S.view store.new))) }
{
    let desk = store.desk()?;
    put_desk(hash, &desk);
    put_rows(store, hash, Table::Parties, desk.parties)?;
    put_rows(store, hash, Table::Parcels, desk.parcels)?;
    let interests = in_order(store.interests()?);
    put_interests(hash, &interests);
    put_rows(store, hash, Table::Files, desk.files)?;
    Ok(())
}

/// The seal of a store's tables: the SHA-256 of their text, in lower-case hexadecimal. Tables that no call of a store
/// distinguishes have one seal. The text has a line for each row: the word of its table, each column after a TAB, and LF.
///
/// The text is hashed row by row and never held. It fails where a call of the store fails, and where a row isn't there that the
/// desk counts. So of sound tables it fails where a call fails, and nowhere else.
///
/// # Examples
///
/// ```
/// let founder = Founder::new(name, digest, day).ok_or("a founder")?;
/// let sealed = seal(&mut PlainStore::create(alloc, &founder)?)?;
/// let digits = "8e4ad670e47c05c90fb8f36b87c0fe417be8208108542e1427ab9f9bc402fc97";
/// assert!(rt; sealed.as_str() == digits);
/// ```
pub fn seal<S: Store>(store: &mut S) -> Got<Digest>
    ensures seal { OverTables (S.view store.old) (S.view store.new) (λ t. IsSoundTables t → IfOk result (IsSealOf t)) }
    ensures looks { Looks (S.view store.old) (S.view store.new) }
    ensures answered { OnOk result (NoneFailed (S.view store.old) (S.view store.new)) }
    ensures failed { OverTables (S.view store.old) (S.view store.new) (λ t.
        IsSoundTables t → OnErr result (OneFailed (S.view store.old) (S.view store.new))) }
{
    let mut hash = Sha256::new();
    put_tables(store, &mut hash)?;
    Ok(digest_of_hash(hash))
}
