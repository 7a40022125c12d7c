//! A row that a query shows as a typed value.

ghost use Rattle.std.specs.Prelude.{◌≡◌, Bool, ℕ, [], ◌∷◌, ◌++◌, List, map, Option, Some, option_map, slice_get, IfOk, IfErr, IfSome, IsSome};
ghost use Rattle.permit_model.specs.Caller.{Party as TheParty};
ghost use Rattle.permit_model.specs.Parcels.{Parcel as TheParcel, Interest as TheInterest};
ghost use Rattle.permit_model.specs.Tables.{Desk as TheDesk, FileRow as TheRow, State as TheState, Paper as ThePaper, version_of, edition_numbered as edition_by_number};
ghost use Rattle.permit_base.specs.declared.words.Edition.{Edition as TheEdition};
ghost use Rattle.permit_model.specs.Routes.{Found as TheFound};
ghost use Rattle.permit_model.specs.SoundState.{IsSoundState};
ghost use Rattle.sqlite.specs.declared.types.Value.{Value};
ghost use Rattle.sqlite_value.specs.Order.{column};
ghost use Rattle.permit_model.specs.Codes.{role_code};
ghost use Rattle.permit_sql_rows.specs.Rows.{int, flag, shown_desk, shown_upgrade, shown_party, shown_parcel, shown_file, shown_found, shown_interest, shown_paper};
ghost use Rattle.permit_sql_rows.specs.Kept.{IsNamed};
ghost use Rattle.permit_sql_rows.specs.Shown.{ShowsParty, ShowsParcel, ShowsPaper, ShowsFile, ShowsFound};
ghost use Rattle.permit_sql_rows.specs.Typed.{firsts, IsObject, IsDesk, IsParty, IsParcel, IsInterest, IsPaper, IsState, IsFile, IsCount, ShowsState};

use crate::fields::{
    Read, RowFault, cents, day, day_or_minus_one, days_or_zero, digest, file_number, has_lot,
    has_string, kind, lot, number, number_or_minus_one, paper_number, parcel_number, party_number,
    party_or_null, party_or_zero, readable, role, shared_text, short_number, small_number, sort,
    stage, step_or_minus_one, string, text, truth,
};
use permit_base::values::{FileId, ParcelId, PartyId};
use permit_base::words::{Edition, Role};
use permit_core::restore::StateFields;
use permit_core::state::FileState;
use permit_store::rows::{Desk, FileRow, Found, Paper, Parcel, Party};
use sqlite::Row;

/// The edition whose tables have the version.
fn edition_of(version: u32) -> Option<Edition>
    ensures read { (is : TheEdition) → version ≡ version_of is → result ≡ Some is }
    ensures back { IfSome result (λ e. version ≡ version_of e) }
{
    match version {
        1 => Some(Edition::First),
        2 => Some(Edition::Second),
        _ => None,
    }
}

/// The edition of the file of the number, by the count of files at the upgrade, if there was one.
fn edition_numbered(upgrade: Option<u32>, id: FileId) -> Edition
    ensures { result ≡ edition_by_number upgrade id }
{
    match upgrade {
        None => Edition::First,
        Some(count) => {
            if id.get() <= count {
                Edition::First
            } else {
                Edition::Second
            }
        }
    }
}

/// The desk's row, which is number 1 and of a version that there is.
pub fn desk_in(row: &Row) -> Option<Desk>
    ensures read { (is : TheDesk) → row.now ≡ shown_desk is → IfSome result (λ d. d ≡ is) }
    ensures back { IfSome result (λ d. firsts 6 0 row.now ≡ shown_desk d) }
    ensures typed { IfSome result IsDesk }
    ensures some { (is : TheDesk) → IsDesk is → row.now ≡ shown_desk is → IsSome result }
{
    if number(row, 0)? != 1 {
        return None;
    }
    let edition = edition_of(number(row, 1)?)?;
    Some(Desk {
        edition,
        last: day(row, 2)?,
        parties: number(row, 3)?,
        parcels: number(row, 4)?,
        files: number(row, 5)?,
    })
}

/// The count of files in the upgrade's row, which is number 1.
pub fn upgrade_in(row: &Row) -> Option<u32>
    ensures back { IfSome result (λ n. (firsts 2 0 row.now ≡ shown_upgrade n) × IsCount n) }
    ensures some { (is : ℕ) → IsCount is → row.now ≡ shown_upgrade is → result ≡ Some is }
{
    if number(row, 0)? != 1 {
        return None;
    }
    number(row, 1)
}

/// A party's row.
pub fn party_of(row: &Row) -> Read<Party>
    ensures read { (is : TheParty) → row.now ≡ shown_party is → IfOk result (λ p. p ≡ is) }
    ensures back { IfOk result (λ p. firsts 4 0 row.now ≡ shown_party p) }
    ensures typed { IfOk result IsParty }
    ensures some { (is : TheParty) → IsParty is → row.now ≡ shown_party is → IfErr result (λ e. e ≡ RowFault.NoMemory) }
    ensures memory { IfErr result (λ e. e ≡ RowFault.NoMemory → ShowsParty row.now) }
{
    Ok(Party {
        id: readable(party_number(row, 0))?,
        role: readable(role(row, 2))?,
        digest: readable(digest(row, 3))?,
        name: text(row, 1)?,
    })
}

/// The role in a party's row.
///
/// # Examples
///
/// ```
/// let row = conn.query_row("SELECT id, name, role, digest FROM party", &[])?;
/// assert!(rt; matches!(role_in(&row), Some(Role::Official)));
/// ```
pub fn role_in(row: &Row) -> Option<Role>
    ensures read { (is : TheParty) → row.now ≡ shown_party is → IfSome result (λ r. r ≡ is.role) }
    ensures back { IfSome result (λ r. column row.now 2 ≡ int (role_code r)) }
    ensures some { (is : TheParty) → row.now ≡ shown_party is → IsSome result }
{
    role(row, 2)
}

/// A parcel's row.
pub fn parcel_of(row: &Row) -> Read<Parcel>
    ensures read { (is : TheParcel) → row.now ≡ shown_parcel is → IfOk result (λ p. p ≡ is) }
    ensures back { IfOk result (λ p. firsts 4 0 row.now ≡ shown_parcel p) }
    ensures typed { IfOk result IsParcel }
    ensures some { (is : TheParcel) → IsParcel is → row.now ≡ shown_parcel is → IfErr result (λ e. e ≡ RowFault.NoMemory) }
    ensures memory { IfErr result (λ e. e ≡ RowFault.NoMemory → ShowsParcel row.now) }
{
    if !has_lot(row, 1) {
        return Err(RowFault::Unreadable);
    }
    Ok(Parcel {
        id: readable(parcel_number(row, 0))?,
        owner: readable(party_number(row, 3))?,
        address: text(row, 2)?,
        lot: lot(row, 1)?,
    })
}

/// The owner in a parcel's row.
pub fn owner_in(row: &Row) -> Option<PartyId>
    ensures read { (is : TheParcel) → row.now ≡ shown_parcel is → IfSome result (λ o. o ≡ is.owner) }
    ensures back { IfSome result (λ o. (column row.now 3 ≡ int o) × IsObject o) }
    ensures some { (is : TheParcel) → IsObject is.owner → row.now ≡ shown_parcel is → IsSome result }
{
    party_number(row, 3)
}

/// The truth value in a row of one column.
pub fn truth_in(row: &Row) -> Option<bool>
    ensures read { (is : Bool) → row.now ≡ flag is ∷ [] → IfSome result (λ b. b ≡ is) }
    ensures back { IfSome result (λ b. column row.now 0 ≡ flag b) }
    ensures some { (is : Bool) → row.now ≡ flag is ∷ [] → IsSome result }
{
    truth(row, 0)
}

/// The parcel and the party of an interest's row.
pub fn interest_in(row: &Row) -> Option<(ParcelId, PartyId)>
    ensures back { IfSome result (λ i. (firsts 2 0 row.now ≡ int i.0 ∷ int i.1 ∷ []) × IsObject i.0 × IsObject i.1) }
    ensures some { (is : TheInterest) → IsInterest is → row.now ≡ shown_interest is → IsSome result }
{
    Some((
        ParcelId::new(number(row, 0)?)?,
        PartyId::new(number(row, 1)?)?,
    ))
}

/// A paper's row.
pub fn paper_of(row: &Row) -> Read<Paper>
    ensures read { (is : ThePaper) → row.now ≡ shown_paper is → IfOk result (λ p. p ≡ is) }
    ensures back { IfOk result (λ p. firsts 9 0 row.now ≡ shown_paper p) }
    ensures typed { IfOk result IsPaper }
    ensures some { (is : ThePaper) → IsPaper is → row.now ≡ shown_paper is → IfErr result (λ e. e ≡ RowFault.NoMemory) }
    ensures memory { IfErr result (λ e. e ≡ RowFault.NoMemory → ShowsPaper row.now) }
{
    if !has_string(row, 7) {
        return Err(RowFault::Unreadable);
    }
    Ok(Paper {
        file: readable(file_number(row, 0))?,
        number: readable(paper_number(row, 1))?,
        day: readable(day(row, 2))?,
        author: readable(party_number(row, 3))?,
        sort: readable(sort(row, 4))?,
        days: readable(number(row, 5))?,
        is_open: readable(truth(row, 8))?,
        text: string(row, 6)?,
        terms: string(row, 7)?,
    })
}

/// What of a file's row its state keeps, of a file of the edition.
fn fields_in(row: &Row, edition: Edition) -> Option<StateFields>
    ensures read { (upgrade : Option ℕ) (is : TheRow) (more : List Value) → IsNamed upgrade is.id is.state → is.state.edition ≡ edition
        → row.now ≡ shown_file is ++ more → IfSome result (λ f. f ≡ is.state) }
    ensures back { IfSome result (ShowsState row.now) }
    ensures named { (upgrade : Option ℕ) (id : ℕ) → edition ≡ edition_by_number upgrade id → IfSome result (IsNamed upgrade id) }
    ensures typed { IfSome result IsState }
    ensures some { (is : TheRow) (more : List Value) → IsState is.state → row.now ≡ shown_file is ++ more → IsSome result }
{
    Some(StateFields {
        parcel: parcel_number(row, 1)?,
        applicant: party_number(row, 2)?,
        contractor: party_or_zero(row, 3)?,
        reviewer: party_or_zero(row, 4)?,
        inspector: party_or_zero(row, 5)?,
        kind: kind(row, 6)?,
        edition,
        filed: day(row, 9)?,
        stage: stage(row, 10)?,
        deadline: number_or_minus_one(row, 11)?,
        done: small_number(row, 12)?,
        request: step_or_minus_one(row, 13)?,
        requested: day_or_minus_one(row, 14)?,
        ask: days_or_zero(row, 15)?,
        stopped: truth(row, 16)?,
        notices: short_number(row, 17)?,
        papers: short_number(row, 18)?,
        temporary: number_or_minus_one(row, 19)?,
    })
}

/// The state in a file's row, of a file of the edition.
fn state_under(row: &Row, edition: Edition) -> Option<FileState>
    ensures read { (upgrade : Option ℕ) (is : TheRow) (more : List Value) → IsNamed upgrade is.id is.state → is.state.edition ≡ edition
        → row.now ≡ shown_file is ++ more → IfSome result (λ s. s ≡ is.state) }
    ensures back { IfSome result (ShowsState row.now) }
    ensures named { (upgrade : Option ℕ) (id : ℕ) → edition ≡ edition_by_number upgrade id → IfSome result (IsNamed upgrade id) }
    ensures typed { IfSome result IsState }
    ensures sound { IfSome result IsSoundState }
    ensures some { (upgrade : Option ℕ) (is : TheRow) (more : List Value) → IsFile is → IsNamed upgrade is.id is.state → is.state.edition ≡ edition
        → row.now ≡ shown_file is ++ more → IsSome result }
{
    FileState::restore(fields_in(row, edition)?)
}

/// The state in a file's row, which may have further columns, where there were so many files at the upgrade.
pub fn state_in(row: &Row, upgrade: Option<u32>) -> Option<FileState>
    ensures read { (is : TheRow) (more : List Value) → IsNamed upgrade is.id is.state → row.now ≡ shown_file is ++ more → IfSome result (λ s. s ≡ is.state) }
    ensures back { IfSome result (ShowsState row.now) }
    ensures named { IfSome result (λ s. (id : ℕ) × ((column row.now 0 ≡ int id) × IsNamed upgrade id s)) }
    ensures typed { IfSome result IsState }
    ensures sound { IfSome result IsSoundState }
    ensures some { (is : TheRow) (more : List Value) → IsFile is → IsNamed upgrade is.id is.state → row.now ≡ shown_file is ++ more → IsSome result }
{
    let id = file_number(row, 0)?;
    state_under(row, edition_numbered(upgrade, id))
}

/// A file's row, which may have further columns, where there were so many files at the upgrade.
pub fn file_of(row: &Row, upgrade: Option<u32>) -> Read<FileRow>
    ensures read { (is : TheRow) (more : List Value) → IsNamed upgrade is.id is.state → row.now ≡ shown_file is ++ more → IfOk result (λ f. f ≡ is) }
    ensures back { IfOk result (λ f. firsts 20 0 row.now ≡ shown_file f) }
    ensures named { IfOk result (λ f. IsNamed upgrade f.id f.state) }
    ensures typed { IfOk result IsFile }
    ensures some { (is : TheRow) (more : List Value) → IsFile is → IsNamed upgrade is.id is.state → row.now ≡ shown_file is ++ more
        → IfErr result (λ e. e ≡ RowFault.NoMemory) }
    ensures memory { IfErr result (λ e. e ≡ RowFault.NoMemory → ShowsFile upgrade row.now) }
{
    let id = readable(file_number(row, 0))?;
    Ok(FileRow {
        id,
        state: readable(state_under(row, edition_numbered(upgrade, id)))?,
        valuation: readable(cents(row, 7))?,
        description: shared_text(row, 8)?,
    })
}

/// A file's row as a selection shows it, with its parcel's owner and whether the caller has an interest in the parcel.
pub fn found_of(row: &Row, upgrade: Option<u32>) -> Read<Found>
    ensures read { (is : TheFound) → IsNamed upgrade is.row.id is.row.state → row.now ≡ shown_found is → IfOk result (λ f. f ≡ is) }
    ensures back { IfOk result (λ f. firsts 22 0 row.now ≡ shown_found f) }
    ensures named { IfOk result (λ f. IsNamed upgrade f.row.id f.row.state) }
    ensures typed { IfOk result (λ f. IsFile f.row × IfSome f.owner IsObject) }
    ensures some { (is : TheFound) → IsFile is.row → IfSome is.owner IsObject → IsNamed upgrade is.row.id is.row.state → row.now ≡ shown_found is
        → IfErr result (λ e. e ≡ RowFault.NoMemory) }
    ensures memory { IfErr result (λ e. e ≡ RowFault.NoMemory → ShowsFound upgrade row.now) }
{
    Ok(Found {
        owner: readable(party_or_null(row, 20))?,
        conflict: readable(truth(row, 21))?,
        row: file_of(row, upgrade)?,
    })
}
