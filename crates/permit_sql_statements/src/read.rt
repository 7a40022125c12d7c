//! What is read of the tables, over a connection.

ghost use Rattle.std.specs.Prelude.{◌≡◌, ◌==◌, ◌&&◌, not, List, [], ◌∷◌, ◌++◌, map, filter, find, length};
ghost use Rattle.std.specs.Prelude.{Option, option_map, slice_get, bytes_eq, IfOk, IfErr, OnOk, IfSome, IsSome, IsOk, IsPermutation};
ghost use Rattle.std.specs.Result.{result_ok};
ghost use Rattle.std.specs.List.{list_any};
ghost use Rattle.sqlite.specs.Held.{state};
ghost use Rattle.permit_model.specs.Caller.{Party as TheParty};
ghost use Rattle.permit_model.specs.Parcels.{Interest as TheInterest, Parcel as TheParcel};
ghost use Rattle.permit_model.specs.Tables.{Desk as TheDesk, FileRow as TheRow, Paper as ThePaper};
ghost use Rattle.permit_sql_rows.specs.Rows.{shown_desk, shown_party, shown_parcel, shown_file, shown_interest, shown_paper};
ghost use Rattle.permit_sql_rows.specs.Kept.{IsNamed};
ghost use Rattle.permit_sql_rows.specs.Typed.{IsObject, IsDesk, IsParty, IsParcel, IsFile};
ghost use Rattle.permit_sql_statements.specs.Frames.{IsRead, OverShown, ReadOutlasts};

use crate::idle::Idle;
use crate::query::rows_of;
use crate::texts::{
    FIND_INTEREST, FIND_NOTICE, FIND_PARCEL, FIND_PARTY, READ_DESK, READ_FILE, READ_INTERESTS,
    READ_PAPERS, READ_PARCEL, READ_PARTY,
};
use permit_base::values::{Digest, FileId, Lot, PaperNumber, ParcelId, PartyId};
use permit_base::words::Role;
use permit_core::state::FileState;
use permit_sql_rows::decode::{
    desk_in, file_of, interest_in, owner_in, paper_of, parcel_of, party_of, role_in, state_in,
};
use permit_sql_rows::fields::{Read, RowFault};
use permit_store::rows::{Desk, FileRow, Interest, Paper, Parcel, Party};
use permit_store::store::{Got, StoreError};
use sqlite::{Alter, Row, params};
use std::alloc::Global;

/// The row of the desk.
fn desk_rows<S: Alter>(conn: &mut Idle<S>) -> Got<Vec<Row>>
    ensures found { OverShown S.Store conn.old conn.new
        (λ t. IfOk result (λ rows. rows.items ≡ shown_desk t.desk ∷ [])) }
    ensures read { IsRead S.Store conn.old conn.new result }
{
    rows_of(conn, READ_DESK, &[])
}

/// The row of the party with the number, if there is one.
fn party_rows<S: Alter>(conn: &mut Idle<S>, party: PartyId) -> Got<Vec<Row>>
    ensures found { OverShown S.Store conn.old conn.new
        (λ t. IfOk result (λ rows. slice_get rows.items 0 ≡ option_map shown_party (find (λ p. p.id == party) t.parties))) }
    ensures read { IsRead S.Store conn.old conn.new result }
{
    rows_of(conn, READ_PARTY, params![party.get()])
}

/// The row of the party that keeps the digest, if there is one.
fn digest_rows<S: Alter>(conn: &mut Idle<S>, digest: &Digest) -> Got<Vec<Row>>
    ensures found { OverShown S.Store conn.old conn.new
        (λ t. IfOk result (λ rows. slice_get rows.items 0 ≡ option_map shown_party (find (λ p. bytes_eq p.digest digest.now) t.parties))) }
    ensures read { IsRead S.Store conn.old conn.new result }
    ensures outlasts { ReadOutlasts S.Store conn.old conn.new }
{
    rows_of(conn, FIND_PARTY, params![digest.as_str()])
}

/// The row of the parcel with the number, if there is one.
fn parcel_rows<S: Alter>(conn: &mut Idle<S>, parcel: ParcelId) -> Got<Vec<Row>>
    ensures found { OverShown S.Store conn.old conn.new
        (λ t. IfOk result (λ rows. slice_get rows.items 0 ≡ option_map shown_parcel (find (λ p. p.id == parcel) t.parcels))) }
    ensures read { IsRead S.Store conn.old conn.new result }
{
    rows_of(conn, READ_PARCEL, params![parcel.get()])
}

/// The row of the parcel of the lot, if there is one.
fn lot_rows<S: Alter>(conn: &mut Idle<S>, lot: &Lot) -> Got<Vec<Row>>
    ensures found { OverShown S.Store conn.old conn.new
        (λ t. IfOk result (λ rows. slice_get rows.items 0 ≡ option_map shown_parcel (find (λ p. bytes_eq p.lot lot.now) t.parcels))) }
    ensures read { IsRead S.Store conn.old conn.new result }
{
    rows_of(conn, FIND_PARCEL, params![lot.as_str()])
}

/// A row for each interest of the party in the parcel.
fn interest_rows<S: Alter>(conn: &mut Idle<S>, parcel: ParcelId, party: PartyId) -> Got<Vec<Row>>
    ensures found { OverShown S.Store conn.old conn.new
        (λ t. IfOk result (λ rows. not (length rows.items == 0) ≡ list_any (λ i. (i.parcel == parcel) && (i.party == party)) t.interests)) }
    ensures read { IsRead S.Store conn.old conn.new result }
{
    rows_of(conn, FIND_INTEREST, params![parcel.get(), party.get()])
}

/// The rows of all interests.
fn declared_rows<S: Alter>(conn: &mut Idle<S>) -> Got<Vec<Row>>
    ensures found { OverShown S.Store conn.old conn.new
        (λ t. IfOk result (λ rows. (given : List TheInterest) × (rows.items ≡ map shown_interest given) × IsPermutation given t.interests)) }
    ensures read { IsRead S.Store conn.old conn.new result }
{
    rows_of(conn, READ_INTERESTS, &[])
}

/// The row of the file with the number, if there is one.
fn file_rows<S: Alter>(conn: &mut Idle<S>, file: FileId) -> Got<Vec<Row>>
    ensures found { OverShown S.Store conn.old conn.new
        (λ t. IfOk result (λ rows. slice_get rows.items 0 ≡ option_map shown_file (find (λ f. f.id == file) t.files))) }
    ensures named { OverShown S.Store conn.old conn.new
        (λ t. IfOk result (λ rows. IfSome (find (λ f. f.id == file) t.files) (λ f. IsNamed t.upgrade f.id f.state))) }
    ensures read { IsRead S.Store conn.old conn.new result }
{
    rows_of(conn, READ_FILE, params![file.get()])
}

/// The rows of the papers of the file, in rising number.
fn paper_rows<S: Alter>(conn: &mut Idle<S>, file: FileId) -> Got<Vec<Row>>
    ensures found { OverShown S.Store conn.old conn.new
        (λ t. IfOk result (λ rows. rows.items ≡ map shown_paper (filter (λ p. p.file == file) t.papers))) }
    ensures read { IsRead S.Store conn.old conn.new result }
{
    rows_of(conn, READ_PAPERS, params![file.get()])
}

/// A row for each paper of the number that is an open notice of the file.
fn notice_rows<S: Alter>(conn: &mut Idle<S>, file: FileId, number: PaperNumber) -> Got<Vec<Row>>
    ensures found { OverShown S.Store conn.old conn.new
        (λ t. IfOk result (λ rows. not (length rows.items == 0) ≡ list_any (λ p. (p.file == file) && (p.is_open && (p.number == number))) t.papers)) }
    ensures read { IsRead S.Store conn.old conn.new result }
{
    rows_of(conn, FIND_NOTICE, params![file.get(), number.get()])
}

/// What was read of a row; a fault of the row is one of the store's call.
fn got<T>(read: Read<T>) -> Got<T>
    ensures { result_ok result ≡ result_ok read }
{
    match read {
        Ok(value) => Ok(value),
        Err(_) => Err(StoreError),
    }
}

/// The first row as a typed value, if there is a row.
fn first_party(rows: &[Row]) -> Read<Option<Party>>
    ensures read { (found : Option TheParty) → slice_get rows.now 0 ≡ option_map shown_party found → IfOk result (λ x. x ≡ found) }
    ensures some { (found : Option TheParty) → IfSome found IsParty → slice_get rows.now 0 ≡ option_map shown_party found
        → IfErr result (λ e. e ≡ RowFault.NoMemory) }
{
    match rows.get(0) {
        None => Ok(None),
        Some(row) => Ok(Some(party_of(row)?)),
    }
}

/// The first row as a typed value, if there is a row.
fn first_parcel(rows: &[Row]) -> Read<Option<Parcel>>
    ensures read { (found : Option TheParcel) → slice_get rows.now 0 ≡ option_map shown_parcel found → IfOk result (λ x. x ≡ found) }
    ensures some { (found : Option TheParcel) → IfSome found IsParcel → slice_get rows.now 0 ≡ option_map shown_parcel found
        → IfErr result (λ e. e ≡ RowFault.NoMemory) }
{
    match rows.get(0) {
        None => Ok(None),
        Some(row) => Ok(Some(parcel_of(row)?)),
    }
}

/// A file's row that has no further columns.
fn file_alone(row: &Row, upgrade: Option<u32>) -> Read<FileRow>
    ensures read { (is : TheRow) → IsNamed upgrade is.id is.state → row.now ≡ shown_file is → IfOk result (λ f. f ≡ is) }
    ensures some { (is : TheRow) → IsFile is → IsNamed upgrade is.id is.state → row.now ≡ shown_file is → IfErr result (λ e. e ≡ RowFault.NoMemory) }
{
    file_of(row, upgrade)
}

/// The first row as a typed value, if there is a row.
fn first_file(rows: &[Row], upgrade: Option<u32>) -> Read<Option<FileRow>>
    ensures read { (found : Option TheRow) → IfSome found (λ f. IsNamed upgrade f.id f.state) → slice_get rows.now 0 ≡ option_map shown_file found
        → IfOk result (λ x. x ≡ found) }
    ensures some { (found : Option TheRow) → IfSome found (λ f. IsFile f × IsNamed upgrade f.id f.state)
        → slice_get rows.now 0 ≡ option_map shown_file found → IfErr result (λ e. e ≡ RowFault.NoMemory) }
{
    match rows.get(0) {
        None => Ok(None),
        Some(row) => Ok(Some(file_alone(row, upgrade)?)),
    }
}

/// The state in a file's row that has no further columns.
fn file_state(row: &Row, upgrade: Option<u32>) -> Option<FileState>
    ensures read { (is : TheRow) → IsNamed upgrade is.id is.state → row.now ≡ shown_file is → IfSome result (λ s. s ≡ is.state) }
    ensures some { (is : TheRow) → IsFile is → IsNamed upgrade is.id is.state → row.now ≡ shown_file is → IsSome result }
{
    state_in(row, upgrade)
}

/// The role in the first row, if there is a row.
fn first_role(rows: &[Row]) -> Got<Option<Role>>
    ensures read { (found : Option TheParty) → slice_get rows.now 0 ≡ option_map shown_party found
        → IfOk result (λ x. x ≡ option_map (λ p. p.role) found) }
    ensures ok { (found : Option TheParty) → slice_get rows.now 0 ≡ option_map shown_party found → IsOk result }

    // Where there is a row, its role is returned, or an error where it can't be read.
    ensures none { IfOk result (λ role. role ≡ None → rows.now ≡ []) }
{
    match rows.get(0) {
        None => Ok(None),
        Some(row) => match role_in(row) {
            Some(role) => Ok(Some(role)),
            None => Err(StoreError),
        },
    }
}

/// The owner in the first row, if there is a row.
fn first_owner(rows: &[Row]) -> Got<Option<PartyId>>
    ensures read { (found : Option TheParcel) → slice_get rows.now 0 ≡ option_map shown_parcel found
        → IfOk result (λ x. x ≡ option_map (λ p. p.owner) found) }
    ensures ok { (found : Option TheParcel) → IfSome found (λ p. IsObject p.owner) → slice_get rows.now 0 ≡ option_map shown_parcel found → IsOk result }
{
    match rows.get(0) {
        None => Ok(None),
        Some(row) => match owner_in(row) {
            Some(owner) => Ok(Some(owner)),
            None => Err(StoreError),
        },
    }
}

/// The state in the first row, if there is a row.
fn first_state(rows: &[Row], upgrade: Option<u32>) -> Got<Option<FileState>>
    ensures read { (found : Option TheRow) → IfSome found (λ f. IsNamed upgrade f.id f.state) → slice_get rows.now 0 ≡ option_map shown_file found
        → IfOk result (λ x. x ≡ option_map (λ f. f.state) found) }
    ensures ok { (found : Option TheRow) → IfSome found (λ f. IsFile f × IsNamed upgrade f.id f.state)
        → slice_get rows.now 0 ≡ option_map shown_file found → IsOk result }
{
    match rows.get(0) {
        None => Ok(None),
        Some(row) => match file_state(row, upgrade) {
            Some(state) => Ok(Some(state)),
            None => Err(StoreError),
        },
    }
}

/// The desk.
fn first_desk(rows: &[Row]) -> Got<Desk>
    ensures read { (is : TheDesk) → rows.now ≡ shown_desk is ∷ [] → IfOk result (λ d. d ≡ is) }
    ensures ok { (is : TheDesk) → IsDesk is → rows.now ≡ shown_desk is ∷ [] → IsOk result }
{
    match rows.get(0) {
        None => Err(StoreError),
        Some(row) => match desk_in(row) {
            Some(desk) => Ok(desk),
            None => Err(StoreError),
        },
    }
}

/// The desk.
///
/// # Examples
///
/// ```
/// let desk = read_desk(conn)?;
/// assert!(rt; desk.parties == 1 && desk.files == 0);
/// ```
pub fn read_desk<S: Alter>(conn: &mut Idle<S>) -> Got<Desk>
    ensures found { OverShown S.Store conn.old conn.new (λ t. IfOk result (λ d. d ≡ t.desk)) }
    ensures read { IsRead S.Store conn.old conn.new result }
{
    let rows = desk_rows(conn)?;
    first_desk(&rows)
}

/// The party with the number.
pub fn read_party<S: Alter>(conn: &mut Idle<S>, party: PartyId) -> Got<Option<Party>>
    ensures found { OverShown S.Store conn.old conn.new
        (λ t. IfOk result (λ p. p ≡ find (λ p. p.id == party) t.parties)) }
    ensures read { IsRead S.Store conn.old conn.new result }
{
    let rows = party_rows(conn, party)?;
    got(first_party(&rows))
}

/// The role of the party with the number, read of its row without a copy of its name.
pub fn read_role<S: Alter>(conn: &mut Idle<S>, party: PartyId) -> Got<Option<Role>>
    ensures found { OverShown S.Store conn.old conn.new
        (λ t. IfOk result (λ r. r ≡ option_map (λ p. p.role) (find (λ p. p.id == party) t.parties))) }
    ensures read { IsRead S.Store conn.old conn.new result }
{
    let rows = party_rows(conn, party)?;
    first_role(&rows)
}

/// The party that keeps the digest.
pub fn find_party<S: Alter>(conn: &mut Idle<S>, digest: &Digest) -> Got<Option<Party>>
    ensures found { OverShown S.Store conn.old conn.new
        (λ t. IfOk result (λ p. p ≡ find (λ p. bytes_eq p.digest digest.now) t.parties)) }
    ensures read { IsRead S.Store conn.old conn.new result }
    ensures outlasts { ReadOutlasts S.Store conn.old conn.new }
{
    let rows = digest_rows(conn, digest)?;
    got(first_party(&rows))
}

/// The parcel with the number.
pub fn read_parcel<S: Alter>(conn: &mut Idle<S>, parcel: ParcelId) -> Got<Option<Parcel>>
    ensures found { OverShown S.Store conn.old conn.new
        (λ t. IfOk result (λ p. p ≡ find (λ p. p.id == parcel) t.parcels)) }
    ensures read { IsRead S.Store conn.old conn.new result }
{
    let rows = parcel_rows(conn, parcel)?;
    got(first_parcel(&rows))
}

/// The owner of the parcel with the number, read of its row without a copy of its texts.
pub fn read_owner<S: Alter>(conn: &mut Idle<S>, parcel: ParcelId) -> Got<Option<PartyId>>
    ensures found { OverShown S.Store conn.old conn.new
        (λ t. IfOk result (λ o. o ≡ option_map (λ p. p.owner) (find (λ p. p.id == parcel) t.parcels))) }
    ensures read { IsRead S.Store conn.old conn.new result }
{
    let rows = parcel_rows(conn, parcel)?;
    first_owner(&rows)
}

/// The parcel of the lot.
pub fn find_parcel<S: Alter>(conn: &mut Idle<S>, lot: &Lot) -> Got<Option<Parcel>>
    ensures found { OverShown S.Store conn.old conn.new
        (λ t. IfOk result (λ p. p ≡ find (λ p. bytes_eq p.lot lot.now) t.parcels)) }
    ensures read { IsRead S.Store conn.old conn.new result }
{
    let rows = lot_rows(conn, lot)?;
    got(first_parcel(&rows))
}

/// Whether the party has declared an interest in the parcel.
pub fn has_interest<S: Alter>(conn: &mut Idle<S>, parcel: ParcelId, party: PartyId) -> Got<bool>
    ensures found { OverShown S.Store conn.old conn.new
        (λ t. IfOk result (λ b. b ≡ list_any (λ i. (i.parcel == parcel) && (i.party == party)) t.interests)) }
    ensures read { IsRead S.Store conn.old conn.new result }
{
    let rows = interest_rows(conn, parcel, party)?;
    Ok(rows.len() != 0)
}

/// An interest more.
fn push_interest(interests: &mut Vec<Interest>, interest: Interest) -> Got<()>
    ensures { OnOk result (interests.new.items ≡ interests.old.items ++ interest ∷ []) }
{
    match interests.push(interest) {
        Ok(()) => Ok(()),
        Err(_) => Err(StoreError),
    }
}

/// The rows as interests.
fn all_interests(alloc: Global, rows: &[Row]) -> Got<Vec<Interest>>
    ensures { (interests : List TheInterest) → rows.now ≡ map shown_interest interests → IfOk result (λ v. v.items ≡ interests) }
{
    let mut interests = Vec::new(alloc);
    'rows: for row in rows {
        let Some(pair) = interest_in(row) else {
            return Err(StoreError);
        };
        let interest = Interest {
            parcel: pair.0,
            party: pair.1,
        };
        push_interest(&mut interests, interest)?;
    }
    Ok(interests)
}

/// All interests, in any order.
pub fn read_interests<S: Alter>(conn: &mut Idle<S>, alloc: Global) -> Got<Vec<Interest>>
    ensures found { OverShown S.Store conn.old conn.new (λ t. IfOk result (λ v. IsPermutation v.items t.interests)) }
    ensures read { IsRead S.Store conn.old conn.new result }
{
    let rows = declared_rows(conn)?;
    all_interests(alloc, &rows)
}

/// The row of the file with the number, where there were so many files at the upgrade.
pub fn read_file<S: Alter>(
    conn: &mut Idle<S>,
    file: FileId,
    upgrade: Option<u32>,
) -> Got<Option<FileRow>>
    ensures found { OverShown S.Store conn.old conn.new
        (λ t. t.upgrade ≡ upgrade → IfOk result (λ f. f ≡ find (λ f. f.id == file) t.files)) }
    ensures read { IsRead S.Store conn.old conn.new result }
{
    let rows = file_rows(conn, file)?;
    got(first_file(&rows, upgrade))
}

/// The state of the file with the number, read of its row without a copy of its description.
pub fn read_state<S: Alter>(
    conn: &mut Idle<S>,
    file: FileId,
    upgrade: Option<u32>,
) -> Got<Option<FileState>>
    ensures found { OverShown S.Store conn.old conn.new
        (λ t. t.upgrade ≡ upgrade → IfOk result (λ s. s ≡ option_map (λ f. f.state) (find (λ f. f.id == file) t.files))) }
    ensures read { IsRead S.Store conn.old conn.new result }
{
    let rows = file_rows(conn, file)?;
    first_state(&rows, upgrade)
}

/// Whether the paper of the number is an open notice of the file.
pub fn has_open_notice<S: Alter>(conn: &mut Idle<S>, file: FileId, number: PaperNumber) -> Got<bool>
    ensures found { OverShown S.Store conn.old conn.new
        (λ t. IfOk result (λ b. b ≡ list_any (λ p. (p.file == file) && (p.is_open && (p.number == number))) t.papers)) }
    ensures read { IsRead S.Store conn.old conn.new result }
{
    let rows = notice_rows(conn, file, number)?;
    Ok(rows.len() != 0)
}

/// A paper more.
fn push_paper(papers: &mut Vec<Paper>, paper: Paper) -> Got<()>
    ensures { OnOk result (papers.new.items ≡ papers.old.items ++ paper ∷ []) }
{
    match papers.push(paper) {
        Ok(()) => Ok(()),
        Err(_) => Err(StoreError),
    }
}

/// The rows as papers.
fn all_papers(alloc: Global, rows: &[Row]) -> Got<Vec<Paper>>
    ensures { (papers : List ThePaper) → rows.now ≡ map shown_paper papers → IfOk result (λ v. v.items ≡ papers) }
{
    let mut papers = Vec::new(alloc);
    'rows: for row in rows {
        let Ok(paper) = paper_of(row) else {
            return Err(StoreError);
        };
        push_paper(&mut papers, paper)?;
    }
    Ok(papers)
}

/// The papers of the file, in rising number.
pub fn read_papers<S: Alter>(conn: &mut Idle<S>, file: FileId, alloc: Global) -> Got<Vec<Paper>>
    ensures found { OverShown S.Store conn.old conn.new
        (λ t. IfOk result (λ v. v.items ≡ filter (λ p. p.file == file) t.papers)) }
    ensures read { IsRead S.Store conn.old conn.new result }
{
    let rows = paper_rows(conn, file)?;
    all_papers(alloc, &rows)
}
