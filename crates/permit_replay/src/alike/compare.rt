//! The comparison of two stores, row by row.

ghost use Rattle.std.specs.Prelude.{◌≡◌, ◌≤◌, IfOk, IfSome, IsTrue, OnErr, OnOk, is_none};
ghost use Rattle.std.specs.Bool.{Decides};
ghost use Rattle.std.specs.List.{list_all};
ghost use Rattle.permit_base.specs.Limits.{most_records};
ghost use Rattle.permit_model.specs.Sound.{IsSoundTables, has_few_records};
ghost use Rattle.permit_store.specs.Counts.{failed_after};
ghost use Rattle.permit_store.specs.Frames.{OverTables};
ghost use Rattle.permit_store.specs.Interests.{DeclareSame, is_declared};
ghost use Rattle.permit_replay.specs.Alike.{AreAlike};
ghost use Rattle.permit_replay.specs.Comparing.{EitherFailed, FailedForCause, Finds, HaveSameRow, Looks, NeitherFailed, OverBoth};
ghost use Rattle.permit_replay.specs.Differing.{FirstOther, HaveSameFile, HaveSameParcel, HaveSameParty, IsFirstDifference};

use crate::alike::differing::Difference;
use crate::alike::rows::*;
use permit_base::values::{FileId, ParcelId, PartyId};
use permit_store::rows::{Desk, Interest};
use permit_store::store::{Got, Store, StoreError};

/// A table whose rows are numbered from 1.
#[derive(Clone, Copy)]
enum Table {
    Parties,
    Parcels,
    Files,
}

/// Whether two stores have the same row of a party.
fn have_same_party<A: Store, B: Store>(first: &mut A, second: &mut B, id: PartyId) -> Got<bool>
    ensures same { OverBoth (A.view first.old) (A.view first.new) (B.view second.old) (B.view second.new)
        (λ t u. IfOk result (λ same. Decides same (HaveSameParty t u id))) }
    ensures first { Looks (A.view first.old) (A.view first.new) }
    ensures second { Looks (B.view second.old) (B.view second.new) }
    ensures answered { OnOk result (NeitherFailed (A.view first.old) (A.view first.new) (B.view second.old) (B.view second.new)) }
    ensures failed { OnErr result (EitherFailed (A.view first.old) (A.view first.new) (B.view second.old) (B.view second.new)) }
{
    let one = first.party(id)?;
    let other = second.party(id)?;
    Ok(are_same_parties(&one, &other))
}

/// Whether two stores have the same row of a parcel.
fn have_same_parcel<A: Store, B: Store>(first: &mut A, second: &mut B, id: ParcelId) -> Got<bool>
    ensures same { OverBoth (A.view first.old) (A.view first.new) (B.view second.old) (B.view second.new)
        (λ t u. IfOk result (λ same. Decides same (HaveSameParcel t u id))) }
    ensures first { Looks (A.view first.old) (A.view first.new) }
    ensures second { Looks (B.view second.old) (B.view second.new) }
    ensures answered { OnOk result (NeitherFailed (A.view first.old) (A.view first.new) (B.view second.old) (B.view second.new)) }
    ensures failed { OnErr result (EitherFailed (A.view first.old) (A.view first.new) (B.view second.old) (B.view second.new)) }
{
    let one = first.parcel(id)?;
    let other = second.parcel(id)?;
    Ok(are_same_parcels(&one, &other))
}

/// Whether two stores have the same row of a file, and the same papers of it.
fn have_same_file<A: Store, B: Store>(first: &mut A, second: &mut B, id: FileId) -> Got<bool>
    ensures same { OverBoth (A.view first.old) (A.view first.new) (B.view second.old) (B.view second.new)
        (λ t u. IfOk result (λ same. Decides same (HaveSameFile t u id))) }
    ensures first { Looks (A.view first.old) (A.view first.new) }
    ensures second { Looks (B.view second.old) (B.view second.new) }
    ensures answered { OnOk result (NeitherFailed (A.view first.old) (A.view first.new) (B.view second.old) (B.view second.new)) }
    ensures failed { OnErr result (EitherFailed (A.view first.old) (A.view first.new) (B.view second.old) (B.view second.new)) }
{
    let one = first.file(id)?;
    let other = second.file(id)?;
    if !are_same_rows(&one, &other) {
        return Ok(false);
    }
    let papers = first.papers(id)?;
    let others = second.papers(id)?;
    Ok(are_same_papers(&papers, &others))
}

/// Whether two stores have the same row of a table at a number.
fn have_same_row<A: Store, B: Store>(
    first: &mut A,
    second: &mut B,
    table: Table,
    number: u32,
) -> Got<bool>
    ensures same { OverBoth (A.view first.old) (A.view first.new) (B.view second.old) (B.view second.new)
        (λ t u. IfOk result (λ same. Decides same (HaveSameRow table t u number))) }
    ensures first { Looks (A.view first.old) (A.view first.new) }
    ensures second { Looks (B.view second.old) (B.view second.new) }
    ensures answered { OnOk result (NeitherFailed (A.view first.old) (A.view first.new) (B.view second.old) (B.view second.new)) }
    ensures failed { 1 ≤ number → number ≤ most_records →
        OnErr result (EitherFailed (A.view first.old) (A.view first.new) (B.view second.old) (B.view second.new)) }
{
    match table {
        Table::Parties => match PartyId::new(number) {
            Some(id) => have_same_party(first, second, id),
            None => Err(StoreError),
        },
        Table::Parcels => match ParcelId::new(number) {
            Some(id) => have_same_parcel(first, second, id),
            None => Err(StoreError),
        },
        Table::Files => match FileId::new(number) {
            Some(id) => have_same_file(first, second, id),
            None => Err(StoreError),
        },
    }
}

/// The first of the numbers from 1 to this at which two stores have not the same row of a table.
fn first_other_row<A: Store, B: Store>(
    first: &mut A,
    second: &mut B,
    table: Table,
    count: u32,
) -> Got<Option<u32>>
    ensures found { OverBoth (A.view first.old) (A.view first.new) (B.view second.old) (B.view second.new)
        (λ t u. IfOk result (FirstOther count (HaveSameRow table t u))) }
    ensures first { Looks (A.view first.old) (A.view first.new) }
    ensures second { Looks (B.view second.old) (B.view second.new) }
    ensures answered { OnOk result (NeitherFailed (A.view first.old) (A.view first.new) (B.view second.old) (B.view second.new)) }
    ensures failed { count ≤ most_records →
        OnErr result (EitherFailed (A.view first.old) (A.view first.new) (B.view second.old) (B.view second.new)) }
{
    for place in 0..count {
        let number = place + 1;
        let same = have_same_row(first, second, table, number)?;
        if !same {
            return Ok(Some(number));
        }
    }
    Ok(None)
}

/// Whether a store has each of these interests.
fn has_declared<S: Store>(store: &mut S, interests: &[Interest]) -> Got<bool>
    ensures declared { OverTables (S.view store.old) (S.view store.new) (λ t. IfOk result (λ all.
        all ≡ list_all (λ i. is_declared i.parcel i.party t.interests) interests.now)) }
    ensures looks { Looks (S.view store.old) (S.view store.new) }
    ensures failed { (S.view store.new).failed ≡ failed_after result (S.view store.old).failed }
{
    for interest in interests {
        let declared = store.interest(interest.parcel, interest.party)?;
        if !declared {
            return Ok(false);
        }
    }
    Ok(true)
}

/// Whether the same interests are declared in two stores.
fn have_same_interests<A: Store, B: Store>(first: &mut A, second: &mut B) -> Got<bool>
    ensures same { OverBoth (A.view first.old) (A.view first.new) (B.view second.old) (B.view second.new)
        (λ t u. IfOk result (λ same. Decides same (DeclareSame t.interests u.interests))) }
    ensures first { Looks (A.view first.old) (A.view first.new) }
    ensures second { Looks (B.view second.old) (B.view second.new) }
    ensures answered { OnOk result (NeitherFailed (A.view first.old) (A.view first.new) (B.view second.old) (B.view second.new)) }
    ensures failed { OnErr result (EitherFailed (A.view first.old) (A.view first.new) (B.view second.old) (B.view second.new)) }
{
    let one = first.interests()?;
    let there = has_declared(second, &one)?;
    if !there {
        return Ok(false);
    }
    let other = second.interests()?;
    let back = has_declared(first, &other)?;
    Ok(back)
}

/// The first place at which two stores with this desk differ after it.
fn first_behind_desk<A: Store, B: Store>(
    first: &mut A,
    second: &mut B,
    desk: &Desk,
) -> Got<Option<Difference>>
    ensures found { OverBoth (A.view first.old) (A.view first.new) (B.view second.old) (B.view second.new)
        (λ t u. desk.now ≡ t.desk → t.desk ≡ u.desk → IfOk result (Finds t u)) }
    ensures first { Looks (A.view first.old) (A.view first.new) }
    ensures second { Looks (B.view second.old) (B.view second.new) }
    ensures answered { OnOk result (NeitherFailed (A.view first.old) (A.view first.new) (B.view second.old) (B.view second.new)) }
    ensures failed { IsTrue (has_few_records desk.now) →
        OnErr result (EitherFailed (A.view first.old) (A.view first.new) (B.view second.old) (B.view second.new)) }
{
    let party = first_other_row(first, second, Table::Parties, desk.parties)?;
    if let Some(number) = party {
        return Ok(Some(Difference::Party(number)));
    }
    let parcel = first_other_row(first, second, Table::Parcels, desk.parcels)?;
    if let Some(number) = parcel {
        return Ok(Some(Difference::Parcel(number)));
    }
    let interests = have_same_interests(first, second)?;
    if !interests {
        return Ok(Some(Difference::Interests));
    }
    let file = first_other_row(first, second, Table::Files, desk.files)?;
    match file {
        Some(number) => Ok(Some(Difference::File(number))),
        None => Ok(None),
    }
}

/// The first place at which two stores differ, in the order of the desk, the parties, the parcels, the interests and the
/// files, each by its number. There is none where they hold the same tables, but for orders that no call shows. It fails where
/// a call of a store fails, and where the first store still keeps to the first edition. Of sound tables it fails nowhere else.
///
/// # Examples
///
/// ```
/// let mut copy = PlainStore::load(alloc, &mut store)?;
/// let renewed = copy.renew(party, &digest)?;
/// assert!(rt; renewed.is_ok());
/// let found = first_difference(&mut store, &mut copy)?;
/// assert!(rt; found == Some(Difference::Party(party.get())));
/// ```
pub fn first_difference<A: Store, B: Store>(
    first: &mut A,
    second: &mut B,
) -> Got<Option<Difference>>
    ensures alike { OverBoth (A.view first.old) (A.view first.new) (B.view second.old) (B.view second.new) (λ t u.
        IsSoundTables t → IsSoundTables u → IfOk result (λ found. Decides (is_none found) (AreAlike t u))) }
    ensures named { OverBoth (A.view first.old) (A.view first.new) (B.view second.old) (B.view second.new) (λ t u.
        IfOk result (λ found. IfSome found (IsFirstDifference t u))) }
    ensures first { Looks (A.view first.old) (A.view first.new) }
    ensures second { Looks (B.view second.old) (B.view second.new) }
    ensures answered { OnOk result (NeitherFailed (A.view first.old) (A.view first.new) (B.view second.old) (B.view second.new)) }
    ensures failed { OverBoth (A.view first.old) (A.view first.new) (B.view second.old) (B.view second.new) (λ t u.
        IsSoundTables t → OnErr result (FailedForCause (A.view first.old) (A.view first.new) (B.view second.old) (B.view second.new) t)) }
{
    let one = first.desk()?;
    let other = second.desk()?;
    if !is_of_second(&one) {
        return Err(StoreError);
    }
    if !is_same_desk(&one, &other) {
        return Ok(Some(Difference::Desk));
    }
    let found = first_behind_desk(first, second, &one)?;
    Ok(found)
}

/// Whether two stores hold the same tables, but for orders that no call shows: each row of each table is compared. It fails
/// where a call of a store fails, and where the first store still keeps to the first edition. Of sound tables it fails nowhere
/// else.
///
/// # Examples
///
/// ```
/// let mut copy = PlainStore::load(alloc, &mut store)?;
/// assert!(rt; are_alike(&mut store, &mut copy)?);
/// ```
pub fn are_alike<A: Store, B: Store>(first: &mut A, second: &mut B) -> Got<bool>
    ensures alike { OverBoth (A.view first.old) (A.view first.new) (B.view second.old) (B.view second.new) (λ t u.
        IsSoundTables t → IsSoundTables u → IfOk result (λ alike. Decides alike (AreAlike t u))) }
    ensures first { Looks (A.view first.old) (A.view first.new) }
    ensures second { Looks (B.view second.old) (B.view second.new) }
    ensures answered { OnOk result (NeitherFailed (A.view first.old) (A.view first.new) (B.view second.old) (B.view second.new)) }
    ensures failed { OverBoth (A.view first.old) (A.view first.new) (B.view second.old) (B.view second.new) (λ t u.
        IsSoundTables t → OnErr result (FailedForCause (A.view first.old) (A.view first.new) (B.view second.old) (B.view second.new) t)) }
{
    Ok(first_difference(first, second)?.is_none())
}
