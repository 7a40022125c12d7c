//! Whether a database is the office's.

ghost use Rattle.std.specs.Prelude.{◌≡◌, ◌≢◌, ◌≤◌, ◌⊎◌, ℕ, false, IsTrue, IsSome, IfOk, IfErr, IfSome, OnOk, Err, IsPermutation, map, slice_get, Some, [], ◌∷◌};
ghost use Rattle.sqlite_value.specs.Order.{column};
ghost use Rattle.sqlite.specs.Held.{state};
ghost use Rattle.sqlite.specs.State.{HasCleanDisk};
ghost use Rattle.permit_store.specs.declared.store.OpenError.TheVariants as open_error;
ghost use Rattle.permit_sql_rows.specs.Schema.{desk_table, IsOffice, upgrade_tree};
ghost use Rattle.permit_base.specs.declared.words.Edition.TheVariants.{Second};
ghost use Rattle.permit_model.specs.Tables.{Desk as TheDesk};
ghost use Rattle.permit_sql_rows.specs.Rows.{shown_desk, shown_upgrade};
ghost use Rattle.permit_sql_rows.specs.Typed.{firsts, IsDesk};
ghost use Rattle.permit_sql_rows.specs.Kept.{IsFine};
ghost use Rattle.permit_sql.specs.Opening.{seen_desk, seen_upgrade, IsOther, HasOtherVersion};
ghost use Rattle.permit_sql.specs.Found.{HasDesk, HasUpgrade, HasObjects, HasCases, HasSound, KeepsSoundUnder};
ghost use Rattle.permit_sql.specs.Refusing.{Refuses};
ghost use Rattle.permit_sql.specs.Frames.{IsLook, LeavesOverCrash, LeavesRows, OverTyped, StaysOpen};
ghost use Rattle.permit_sql_statements.specs.Frames.{IsIdle, IsOpenAfter};

use crate::sound_files::are_sound;
use crate::typed::{check_interests, check_parcels, check_parties};
use crate::typed_files::{check_files, check_papers, check_rowids};
use permit_base::words::Edition;
use permit_sql_rows::decode::{desk_in, upgrade_in};
use permit_sql_rows::fields::whole_number;
use permit_sql_rows::schema::{has_desk, is_office, version_of};
use permit_sql_statements::query::read_all;
use permit_sql_statements::texts::{READ_DESK, READ_UPGRADE};
use permit_store::rows::Desk;
use permit_store::store::{Got, OpenError, StoreError};
use sqlite::{Alter, Connection, Row};
use std::alloc::Global;

/// Whether a field is a number, and another than the version of the tables under the edition.
fn is_other(edition: Edition, row: &Row, at: usize) -> bool
    ensures other { IsTrue result → IsOther edition (column row.now at) }
    ensures told { IsOther edition (column row.now at) → IsTrue result }
{
    match whole_number(row, at) {
        Some(number) => number != i64::from(version_of(edition)),
        None => false,
    }
}

/// The rows of the desk's table, which is the first.
pub(crate) fn desk_seen<S: Alter>(conn: &mut Connection<S>) -> Got<Vec<Row>>
    requires idle { IsIdle conn.old }
    requires desk { slice_get (state S.Store conn.old).now.schema.tables 0 ≡ Some desk_table }
    ensures rows { HasCleanDisk (state S.Store conn.new)
        → IfOk result (λ rows. IsPermutation (map seen_desk ((state S.Store conn.old).now.trees 0)) rows.items) }
    ensures look { IsLook S.Store conn.old conn.new result }
{
    match read_all(conn, READ_DESK, &[]) {
        Ok(rows) => Ok(rows),
        Err(_) => Err(StoreError),
    }
}

/// Whether the desk's one row says another version than that of the tables under the edition.
pub(crate) fn has_other_version<S: Alter>(conn: &mut Connection<S>, edition: Edition) -> Got<bool>
    requires idle { IsIdle conn.old }
    requires desk { slice_get (state S.Store conn.old).now.schema.tables 0 ≡ Some desk_table }
    ensures other { HasCleanDisk (state S.Store conn.new)
        → IfOk result (λ is. IsTrue is → HasOtherVersion edition (state S.Store conn.old).now) }
    ensures told { HasCleanDisk (state S.Store conn.new) → HasOtherVersion edition (state S.Store conn.old).now
        → IfOk result (λ is. IsTrue is) }
    ensures look { IsLook S.Store conn.old conn.new result }
{
    let rows = desk_seen(conn)?;
    match rows.as_slice() {
        [row] => Ok(is_other(edition, row, 1)),
        _ => Ok(false),
    }
}

/// The desk in a row of number 1 and the edition's version, within its limits.
fn desk_under(edition: Edition, row: &Row) -> Option<Desk>
    ensures back { IfSome result (λ d. firsts 6 0 row.now ≡ shown_desk d) }
    ensures typed { IfSome result IsDesk }
    ensures now { IfSome result (λ d. d.edition ≡ edition) }
    ensures some { (is : TheDesk) → IsDesk is → is.edition ≡ edition → row.now ≡ shown_desk is → result ≡ Some is }
{
    let desk = desk_in(row)?;
    if desk.edition == edition {
        Some(desk)
    } else {
        None
    }
}

/// The desk of an answer of one row, of number 1 and the edition's version, within its limits.
fn only_desk(edition: Edition, rows: &[Row]) -> Option<Desk>
    ensures back { IfSome result (λ d. (q : _) × (rows.now ≡ q ∷ []) × (firsts 6 0 q ≡ shown_desk d)) }
    ensures typed { IfSome result IsDesk }
    ensures now { IfSome result (λ d. d.edition ≡ edition) }
    ensures some { (is : TheDesk) → IsDesk is → is.edition ≡ edition → rows.now ≡ shown_desk is ∷ [] → result ≡ Some is }
{
    match rows {
        [row] => desk_under(edition, row),
        _ => None,
    }
}

/// The desk, where it has one row, of number 1 and the edition's version, within its limits.
pub(crate) fn find_desk<S: Alter>(conn: &mut Connection<S>, edition: Edition) -> Got<Option<Desk>>
    requires idle { IsIdle conn.old }
    requires desk { slice_get (state S.Store conn.old).now.schema.tables 0 ≡ Some desk_table }
    ensures good { IsFine (state S.Store conn.new) → IsOffice edition (state S.Store conn.old).now.schema
        → IfOk result (λ o. IfSome o (λ d. HasDesk d ((state S.Store conn.old).now.trees 0))) }
    ensures now { IfOk result (λ o. IfSome o (λ d. d.edition ≡ edition)) }
    ensures kept { IsFine (state S.Store conn.new)
        → OverTyped S.Store edition conn.old (λ t. IfOk result (λ o. o ≡ Some t.desk)) }
    ensures look { IsLook S.Store conn.old conn.new result }
{
    // Its contract says that the database obeys the schema.
    let _schema = conn.schema();
    let rows = desk_seen(conn)?;
    Ok(only_desk(edition, rows.as_slice()))
}

/// The rows of the upgrade's table.
pub(crate) fn upgrade_seen<S: Alter>(conn: &mut Connection<S>) -> Got<Vec<Row>>
    requires idle { IsIdle conn.old }
    requires office { IsOffice Second (state S.Store conn.old).now.schema }
    ensures rows { HasCleanDisk (state S.Store conn.new)
        → IfOk result (λ rows. IsPermutation (map seen_upgrade ((state S.Store conn.old).now.trees (upgrade_tree (state S.Store conn.old).now.schema)))
        rows.items) }
    ensures look { IsLook S.Store conn.old conn.new result }
{
    match read_all(conn, READ_UPGRADE, &[]) {
        Ok(rows) => Ok(rows),
        Err(_) => Err(StoreError),
    }
}

/// The count of files in an answer of one row, of number 1, where it is at most that of today.
fn only_upgrade(rows: &[Row], files: u32) -> Option<u32>
    ensures back { IfSome result (λ n. (q : _) × (rows.now ≡ q ∷ []) × (firsts 2 0 q ≡ shown_upgrade n)) }
    ensures within { IfSome result (λ n. n ≤ files) }
    ensures some { (is : ℕ) → is ≤ files → rows.now ≡ shown_upgrade is ∷ [] → result ≡ Some is }
{
    match rows {
        [row] => upgrade_within(row, files),
        _ => None,
    }
}

/// The count of files in an upgrade's row, where it is at most that of today.
fn upgrade_within(row: &Row, files: u32) -> Option<u32>
    ensures back { IfSome result (λ n. firsts 2 0 row.now ≡ shown_upgrade n) }
    ensures within { IfSome result (λ n. n ≤ files) }
    ensures some { (is : ℕ) → is ≤ files → row.now ≡ shown_upgrade is → result ≡ Some is }
{
    let count = upgrade_in(row)?;
    if count <= files { Some(count) } else { None }
}

/// The count of files at the upgrade, which the tables have under the second edition, where the table of the upgrade is
/// sound.
pub(crate) fn find_upgrade<S: Alter>(
    conn: &mut Connection<S>,
    edition: Edition,
    files: u32,
) -> Got<Option<Option<u32>>>
    requires idle { IsIdle conn.old }
    ensures good { IsFine (state S.Store conn.new)
        → IfOk result (λ o. IfSome o (λ upgrade. HasUpgrade edition files upgrade (state S.Store conn.old).now)) }
    ensures kept { IsFine (state S.Store conn.new)
        → OverTyped S.Store edition conn.old (λ t. files ≡ t.desk.files → IfOk result (λ o. o ≡ Some t.upgrade)) }
    ensures open { StaysOpen S.Store conn.old conn.new result }
    ensures left { LeavesRows S.Store conn.old conn.new }
    ensures crash { LeavesOverCrash S.Store conn.old conn.new }
    ensures idle { IsIdle conn.new }
{
    match edition {
        Edition::First => Ok(Some(None)),
        Edition::Second => {
            if !is_office(Edition::Second, conn.schema()) {
                return Err(StoreError);
            }
            let rows = upgrade_seen(conn)?;
            match only_upgrade(rows.as_slice(), files) {
                Some(count) => Ok(Some(Some(count))),
                None => Ok(None),
            }
        }
    }
}

/// Whether the parties and parcels are as the desk counts them, and they and the interests within their limits.
fn has_sound_objects<S: Alter>(conn: &mut Connection<S>, edition: Edition, desk: Desk) -> Got<bool>
    requires idle { IsIdle conn.old }
    ensures good { IsFine (state S.Store conn.new)
        → IfOk result (λ good. IsTrue good → HasObjects desk (state S.Store conn.old).now.trees) }
    ensures kept { IsFine (state S.Store conn.new)
        → OverTyped S.Store edition conn.old (λ t. desk ≡ t.desk → IfOk result IsTrue) }
    ensures look { IsLook S.Store conn.old conn.new result }
{
    if !check_parties(conn, edition, desk.parties)? {
        return Ok(false);
    }
    if !check_parcels(conn, edition, desk.parcels)? {
        return Ok(false);
    }
    check_interests(conn, edition)
}

/// Whether the files are as the desk counts them, and they and their papers within their limits.
fn has_sound_files<S: Alter>(
    conn: &mut Connection<S>,
    alloc: Global,
    edition: Edition,
    desk: Desk,
    upgrade: Option<u32>,
) -> Got<bool>
    requires idle { IsIdle conn.old }
    ensures good { IsFine (state S.Store conn.new)
        → IfOk result (λ good. IsTrue good → HasCases desk upgrade (state S.Store conn.old).now.trees) }
    ensures kept { IsFine (state S.Store conn.new)
        → OverTyped S.Store edition conn.old (λ t. desk ≡ t.desk → t.upgrade ≡ upgrade → IfOk result IsTrue) }
    ensures look { IsLook S.Store conn.old conn.new result }
{
    let Some(counts) = check_files(conn, alloc, edition, upgrade, desk.files)? else {
        return Ok(false);
    };
    if !check_papers(conn, edition, counts)? {
        return Ok(false);
    }
    check_rowids(conn, edition)
}

/// What an open learns of sound tables.
#[derive(Clone, Copy)]
pub(crate) struct Sound {
    /// What the desk counts.
    pub(crate) desk: Desk,
    /// How many files there were at the upgrade, if there was one.
    pub(crate) upgrade: Option<u32>,
}

/// What the rows say, where they are sound tables: they are read twice, for their types and for what they say together.
pub(crate) fn find_sound<S: Alter>(
    conn: &mut Connection<S>,
    alloc: Global,
    edition: Edition,
) -> Got<Option<Sound>>
    requires idle { IsIdle conn.old }
    requires desk { slice_get (state S.Store conn.old).now.schema.tables 0 ≡ Some desk_table }
    ensures good { IsFine (state S.Store conn.new) → IsOffice edition (state S.Store conn.old).now.schema
        → IfOk result (λ o. IfSome o (λ s. HasSound edition (state S.Store conn.old).now s.desk s.upgrade)) }
    ensures kept { IsFine (state S.Store conn.new) → KeepsSoundUnder edition (state S.Store conn.old).now → IfOk result (λ o. IsSome o) }
    ensures look { IsLook S.Store conn.old conn.new result }
{
    let Some(desk) = find_desk(conn, edition)? else {
        return Ok(None);
    };
    let Some(upgrade) = find_upgrade(conn, edition, desk.files)? else {
        return Ok(None);
    };
    if !has_sound_objects(conn, edition, desk)? {
        return Ok(None);
    }
    if !has_sound_files(conn, alloc, edition, desk, upgrade)? {
        return Ok(None);
    }
    if !are_sound(conn, alloc, edition, desk, upgrade)? {
        return Ok(None);
    }
    Ok(Some(Sound { desk, upgrade }))
}

/// What the tables say, where the schema is an office's under the edition and the rows are sound tables; with another
/// schema the refusal is `Store`.
fn check_tables<S: Alter>(
    conn: &mut Connection<S>,
    alloc: Global,
    edition: Edition,
) -> Result<Sound, OpenError>
    requires idle { IsIdle conn.old }
    ensures sound { IsFine (state S.Store conn.new) → IfOk result (λ s. HasSound edition (state S.Store conn.new).now s.desk s.upgrade) }
    ensures damaged { HasCleanDisk (state S.Store conn.new)
        → IfErr result (λ e. e ≡ open_error.Damaged → ¬ KeepsSoundUnder edition (state S.Store conn.old).now) }
    ensures schema { IfErr result (λ e. e ≡ open_error.Damaged → IsOffice edition (state S.Store conn.old).now.schema) }
    ensures look { IsLook S.Store conn.old conn.new result }
    ensures judged { HasCleanDisk (state S.Store conn.new)
        → IfErr result (λ e. e ≢ open_error.Store → IsTrue (state S.Store conn.new).is_open) }
    ensures refusal { IfErr result (λ e. (e ≡ open_error.Damaged) ⊎ (e ≡ open_error.Store)) }
{
    if !is_office(edition, conn.schema()) {
        return Err(OpenError::Store);
    }
    match find_sound(conn, alloc, edition) {
        Ok(Some(sound)) => Ok(sound),
        Ok(None) => Err(OpenError::Damaged),
        Err(StoreError) => Err(OpenError::Store),
    }
}

/// The tests of a connection with no transaction, whose first table is the desk's.
fn check_versioned<S: Alter>(
    conn: &mut Connection<S>,
    alloc: Global,
    edition: Edition,
) -> Result<Sound, OpenError>
    requires idle { IsIdle conn.old }
    requires desk { slice_get (state S.Store conn.old).now.schema.tables 0 ≡ Some desk_table }
    ensures sound { IsFine (state S.Store conn.new) → IfOk result (λ s. HasSound edition (state S.Store conn.new).now s.desk s.upgrade) }
    ensures first { HasCleanDisk (state S.Store conn.new) → OnOk result (¬ HasOtherVersion edition (state S.Store conn.old).now) }
    ensures refuses { IfErr result (λ e. Refuses edition (state S.Store conn.old) (state S.Store conn.new) (λ why. e ≡ why)) }
    ensures look { IsLook S.Store conn.old conn.new result }
    ensures refusal { IfErr result (λ e. (e ≡ open_error.Damaged) ⊎ ((e ≡ open_error.Version) ⊎ (e ≡ open_error.Store))) }
{
    match has_other_version(conn, edition) {
        Ok(false) => check_tables(conn, alloc, edition),
        Ok(true) => Err(OpenError::Version),
        Err(StoreError) => Err(OpenError::Store),
    }
}

/// Finds the office's tables under the edition in the database, which it leaves as it is.
pub(crate) fn check<S: Alter>(
    conn: &mut Connection<S>,
    alloc: Global,
    edition: Edition,
) -> Result<Sound, OpenError>
    ensures sound { IsFine (state S.Store conn.new) → IfOk result (λ s. HasSound edition (state S.Store conn.new).now s.desk s.upgrade) }
    ensures first { HasCleanDisk (state S.Store conn.new) → OnOk result (¬ HasOtherVersion edition (state S.Store conn.old).now) }
    ensures refuses { IfErr result (λ e. Refuses edition (state S.Store conn.old) (state S.Store conn.new) (λ why. e ≡ why)) }
    ensures open { IsOpenAfter S.Store conn.new result }
    ensures left { LeavesRows S.Store conn.old conn.new }
    ensures refusal { IfErr result (λ e. (e ≡ open_error.Damaged) ⊎ ((e ≡ open_error.Version) ⊎ (e ≡ open_error.Store))) }
    ensures busy { IsTrue conn.old.in_transaction → result ≡ Err open_error.Store }
    ensures crash { LeavesOverCrash S.Store conn.old conn.new }
    ensures idle { OnOk result (IsIdle conn.new) }
    ensures transaction { conn.new.in_transaction ≡ conn.old.in_transaction }
{
    if !conn.is_autocommit() {
        return Err(OpenError::Store);
    }
    if !has_desk(conn.schema()) {
        return Err(OpenError::Store);
    }
    check_versioned(conn, alloc, edition)
}
