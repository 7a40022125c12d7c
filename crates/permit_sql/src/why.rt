//! The first place at which the tables of a database aren't sound.
//!
//! The tables are read in their order, desk, upgrade, party, parcel, interest, file and paper: first for rows that aren't
//! of their table's type, numbers with gaps, and counts; and then, where they are typed, for what they say together.

ghost use Rattle.std.specs.Prelude.{◌≡◌, true, map, None, Some, IsTrue, IfOk, IfSome, IsSome};
ghost use Rattle.sqlite.specs.State.{HasCleanDisk};
ghost use Rattle.sqlite.specs.Held.{state};
ghost use Rattle.permit_base.specs.declared.words.Edition.TheVariants.{Second};
ghost use Rattle.permit_sql_rows.specs.Kept.{IsFine};
ghost use Rattle.permit_sql.specs.Found.{KeepsSound};
ghost use Rattle.permit_sql.specs.Tested.{fits_desk};
ghost use Rattle.permit_sql.specs.Named.{breaks};
ghost use Rattle.permit_sql.specs.First.{or_else, first_of_parcels, first_of_interests, first_of_files, first_of_papers, first_of_rows, IsFirst, IsFirstWith};
ghost use Rattle.permit_sql_statements.specs.Frames.{IsIdle, IsOpenAfter};
ghost use Rattle.permit_sql.specs.Frames.{IsLook, LeavesOverCrash, LeavesRows, OverTyped, StaysOpen};

use crate::fault::{DeskRule, Fault, PaperRule, PartyRule, UpgradeRule};
use crate::first_unsound::{file_fault, interest_fault, parcel_fault};
use crate::first_unsound_paper::papers_fault;
use crate::first_untyped::{Table, first_untyped};
use crate::open::{desk_seen, find_desk, find_sound, find_upgrade, upgrade_seen};
use crate::row_rules::{desk_rule, has_official};
use crate::sound::roles_of;
use crate::typed::{check_interests, check_parcels, check_parties};
use crate::typed_files::{check_files, check_papers, check_rowids};
use crate::untyped_rule;
use permit_base::words::{Edition, Role};
use permit_sql_rows::schema::{has_desk, is_office};
use permit_store::rows::Desk;
use permit_store::store::{Got, StoreError};
use sqlite::{Alter, Connection};
use std::alloc::Global;

/// What the rows of the desk break, which aren't one row of a desk.
fn desk_fault<S: Alter>(conn: &mut Connection<S>) -> Got<Fault>
    requires idle { IsIdle conn.old }
    ensures look { IsLook S.Store conn.old conn.new result }
{
    if !has_desk(conn.schema()) {
        return Err(StoreError);
    }
    let rows = desk_seen(conn)?;
    Ok(Fault::Desk(match rows.as_slice() {
        [row] => untyped_rule::desk_rule(row),
        _ => DeskRule::Row,
    }))
}

/// What the rows of the upgrade break, which aren't one row of an upgrade, of at most the files of the desk.
fn upgrade_fault<S: Alter>(conn: &mut Connection<S>) -> Got<Fault>
    requires idle { IsIdle conn.old }
    ensures look { IsLook S.Store conn.old conn.new result }
{
    if !is_office(Edition::Second, conn.schema()) {
        return Err(StoreError);
    }
    let rows = upgrade_seen(conn)?;
    Ok(Fault::Upgrade(match rows.as_slice() {
        [row] => untyped_rule::upgrade_rule(row),
        _ => UpgradeRule::Row,
    }))
}

/// The first row of a table that isn't typed, or else the other fault.
fn untyped_or<S: Alter>(
    conn: &mut Connection<S>,
    table: Table,
    upgrade: Option<u32>,
    counts: Vec<u16>,
    other: Fault,
) -> Got<Option<Fault>>
    requires idle { IsIdle conn.old }
    ensures look { IsLook S.Store conn.old conn.new result }
{
    match first_untyped(conn, table, upgrade, counts)? {
        Some(fault) => Ok(Some(fault)),
        None => Ok(Some(other)),
    }
}

/// The first of the parties, parcels and interests that isn't typed, or isn't counted by the desk.
fn untyped_objects<S: Alter>(
    conn: &mut Connection<S>,
    alloc: Global,
    desk: Desk,
) -> Got<Option<Fault>>
    requires idle { IsIdle conn.old }
    ensures typed { IsFine (state S.Store conn.new)
        → OverTyped S.Store Second conn.old (λ t. desk ≡ t.desk → IfOk result (λ o. o ≡ None)) }
    ensures look { IsLook S.Store conn.old conn.new result }
{
    if !check_parties(conn, Edition::Second, desk.parties)? {
        let other = Fault::Desk(DeskRule::Parties);
        return untyped_or(conn, Table::Party, None, Vec::new(alloc), other);
    }
    if !check_parcels(conn, Edition::Second, desk.parcels)? {
        let other = Fault::Desk(DeskRule::Parcels);
        return untyped_or(conn, Table::Parcel, None, Vec::new(alloc), other);
    }
    if !check_interests(conn, Edition::Second)? {
        return first_untyped(conn, Table::Interest, None, Vec::new(alloc));
    }
    Ok(None)
}

/// The first of the files that isn't typed, or isn't counted by the desk.
fn untyped_files<S: Alter>(
    conn: &mut Connection<S>,
    alloc: Global,
    desk: Desk,
    upgrade: Option<u32>,
) -> Got<Option<Fault>>
    requires idle { IsIdle conn.old }
    ensures typed { IsFine (state S.Store conn.new)
        → OverTyped S.Store Second conn.old (λ t. desk ≡ t.desk → t.upgrade ≡ upgrade → IfOk result (λ o. o ≡ None)) }
    ensures look { IsLook S.Store conn.old conn.new result }
{
    match check_files(conn, alloc, Edition::Second, upgrade, desk.files)? {
        Some(_) => Ok(None),
        None => {
            let other = Fault::Desk(DeskRule::Files);
            untyped_or(conn, Table::File, upgrade, Vec::new(alloc), other)
        }
    }
}

/// The first of the papers that isn't typed, or isn't counted by its file.
fn untyped_papers<S: Alter>(
    conn: &mut Connection<S>,
    alloc: Global,
    desk: Desk,
    upgrade: Option<u32>,
) -> Got<Option<Fault>>
    requires idle { IsIdle conn.old }
    ensures typed { IsFine (state S.Store conn.new)
        → OverTyped S.Store Second conn.old (λ t. desk ≡ t.desk → t.upgrade ≡ upgrade → IfOk result (λ o. o ≡ None)) }
    ensures look { IsLook S.Store conn.old conn.new result }
{
    let Some(counts) = check_files(conn, alloc, Edition::Second, upgrade, desk.files)? else {
        return Err(StoreError);
    };
    if !check_papers(conn, Edition::Second, counts)? {
        let Some(counts) = check_files(conn, alloc, Edition::Second, upgrade, desk.files)? else {
            return Err(StoreError);
        };
        return first_untyped(conn, Table::Paper, None, counts);
    }
    if !check_rowids(conn, Edition::Second)? {
        return Ok(Some(Fault::Paper {
            file: None,
            number: None,
            rule: PaperRule::Rowid,
        }));
    }
    Ok(None)
}

/// The first row that isn't typed, or isn't counted, by the desk and the upgrade. Typed tables have none.
fn untyped<S: Alter>(
    conn: &mut Connection<S>,
    alloc: Global,
    desk: Desk,
    upgrade: Option<u32>,
) -> Got<Option<Fault>>
    requires idle { IsIdle conn.old }
    ensures typed { IsFine (state S.Store conn.new)
        → OverTyped S.Store Second conn.old (λ t. desk ≡ t.desk → t.upgrade ≡ upgrade → IfOk result (λ o. o ≡ None)) }
    ensures look { IsLook S.Store conn.old conn.new result }
{
    if let Some(fault) = untyped_objects(conn, alloc, desk)? {
        return Ok(Some(fault));
    }
    if let Some(fault) = untyped_files(conn, alloc, desk, upgrade)? {
        return Ok(Some(fault));
    }
    untyped_papers(conn, alloc, desk, upgrade)
}

/// The first of typed parcels and interests that isn't sound.
fn unsound_parcels<S: Alter>(conn: &mut Connection<S>, desk: Desk) -> Got<Option<Fault>>
    requires idle { IsIdle conn.old }
    ensures named { IsFine (state S.Store conn.new)
        → OverTyped S.Store Second conn.old (λ t. desk ≡ t.desk → IfOk result (λ o. IfSome o (λ fault. IsTrue (breaks t fault)))) }
    ensures first { IsFine (state S.Store conn.new)
        → OverTyped S.Store Second conn.old (λ t. desk ≡ t.desk → IfOk result (λ o. IsFirstWith t (λ u. or_else (first_of_parcels u) (first_of_interests u)) o)) }
    ensures look { IsLook S.Store conn.old conn.new result }
{
    if let Some(fault) = parcel_fault(conn, Edition::Second, desk.parties)? {
        return Ok(Some(fault));
    }
    interest_fault(conn, Edition::Second, desk.parcels, desk.parties)
}

/// The first of typed files that isn't sound, by the roles of the parties, and then of their papers.
fn unsound_cases<S: Alter>(
    conn: &mut Connection<S>,
    alloc: Global,
    desk: Desk,
    upgrade: Option<u32>,
    roles: Vec<Role>,
) -> Got<Option<Fault>>
    requires idle { IsIdle conn.old }
    ensures named { IsFine (state S.Store conn.new)
        → OverTyped S.Store Second conn.old (λ t. desk ≡ t.desk → t.upgrade ≡ upgrade → roles.items ≡ map (λ p. p.role) t.parties
        → IfOk result (λ o. IfSome o (λ fault. IsTrue (breaks t fault)))) }
    ensures first { IsFine (state S.Store conn.new)
        → OverTyped S.Store Second conn.old (λ t. desk ≡ t.desk → t.upgrade ≡ upgrade → roles.items ≡ map (λ p. p.role) t.parties
        → IfOk result (λ o. o ≡ or_else (first_of_files t) (first_of_papers t))) }
    ensures look { IsLook S.Store conn.old conn.new result }
{
    if let Some(fault) = file_fault(
        conn,
        Edition::Second,
        upgrade,
        roles,
        desk.parcels,
        desk.last,
    )? {
        return Ok(Some(fault));
    }
    papers_fault(conn, alloc, desk, upgrade)
}

/// The first place at which typed tables of a sound desk aren't sound.
fn unsound_rows<S: Alter>(
    conn: &mut Connection<S>,
    alloc: Global,
    desk: Desk,
    upgrade: Option<u32>,
) -> Got<Option<Fault>>
    requires idle { IsIdle conn.old }
    requires fits { fits_desk desk ≡ true }
    ensures named { IsFine (state S.Store conn.new)
        → OverTyped S.Store Second conn.old (λ t. desk ≡ t.desk → t.upgrade ≡ upgrade
        → IfOk result (λ o. IfSome o (λ fault. IsTrue (breaks t fault)))) }
    ensures first { IsFine (state S.Store conn.new)
        → OverTyped S.Store Second conn.old (λ t. desk ≡ t.desk → t.upgrade ≡ upgrade → IfOk result (IsFirstWith t first_of_rows)) }
    ensures look { IsLook S.Store conn.old conn.new result }
{
    let roles = roles_of(conn, alloc, Edition::Second)?;
    if !has_official(&roles) {
        return Ok(Some(Fault::Party {
            number: Some(1),
            rule: PartyRule::Official,
        }));
    }
    if let Some(fault) = unsound_parcels(conn, desk)? {
        return Ok(Some(fault));
    }
    unsound_cases(conn, alloc, desk, upgrade, roles)
}

/// The first place at which typed tables aren't sound.
fn unsound<S: Alter>(
    conn: &mut Connection<S>,
    alloc: Global,
    desk: Desk,
    upgrade: Option<u32>,
) -> Got<Option<Fault>>
    requires idle { IsIdle conn.old }
    ensures named { IsFine (state S.Store conn.new)
        → OverTyped S.Store Second conn.old (λ t. desk ≡ t.desk → t.upgrade ≡ upgrade
        → IfOk result (λ o. IfSome o (λ fault. IsTrue (breaks t fault)))) }
    ensures first { IsFine (state S.Store conn.new)
        → OverTyped S.Store Second conn.old (λ t. desk ≡ t.desk → t.upgrade ≡ upgrade → IfOk result (IsFirst t)) }
    ensures open { StaysOpen S.Store conn.old conn.new result }
    ensures left { LeavesRows S.Store conn.old conn.new }
    ensures crash { LeavesOverCrash S.Store conn.old conn.new }
    ensures idle { IsIdle conn.new }
{
    match desk_rule(desk) {
        Some(rule) => Ok(Some(Fault::Desk(rule))),
        None => unsound_rows(conn, alloc, desk, upgrade),
    }
}

/// The first place at which tables aren't sound, by their desk and upgrade.
fn fault_under<S: Alter>(
    conn: &mut Connection<S>,
    alloc: Global,
    desk: Desk,
    upgrade: Option<u32>,
) -> Got<Option<Fault>>
    requires idle { IsIdle conn.old }
    ensures named { IsFine (state S.Store conn.new)
        → OverTyped S.Store Second conn.old (λ t. desk ≡ t.desk → t.upgrade ≡ upgrade
        → IfOk result (λ o. IfSome o (λ fault. IsTrue (breaks t fault)))) }
    ensures first { IsFine (state S.Store conn.new)
        → OverTyped S.Store Second conn.old (λ t. desk ≡ t.desk → t.upgrade ≡ upgrade → IfOk result (IsFirst t)) }
    ensures look { IsLook S.Store conn.old conn.new result }
{
    match untyped(conn, alloc, desk, upgrade)? {
        Some(fault) => Ok(Some(fault)),
        None => unsound(conn, alloc, desk, upgrade),
    }
}

/// The first place at which tables aren't sound.
fn place<S: Alter>(conn: &mut Connection<S>, alloc: Global) -> Got<Option<Fault>>
    requires idle { IsIdle conn.old }
    ensures named { IsFine (state S.Store conn.new)
        → OverTyped S.Store Second conn.old (λ t. IfOk result (λ o. IfSome o (λ fault. IsTrue (breaks t fault)))) }
    ensures first { IsFine (state S.Store conn.new) → OverTyped S.Store Second conn.old (λ t. IfOk result (IsFirst t)) }
    ensures look { IsLook S.Store conn.old conn.new result }
{
    if !has_desk(conn.schema()) {
        return Err(StoreError);
    }
    let Some(desk) = find_desk(conn, Edition::Second)? else {
        return Ok(Some(desk_fault(conn)?));
    };
    let Some(upgrade) = find_upgrade(conn, Edition::Second, desk.files)? else {
        return Ok(Some(upgrade_fault(conn)?));
    };
    fault_under(conn, alloc, desk, upgrade)
}

/// Where the tables of a database aren't sound, the first place. It names one only where the database keeps no sound
/// tables, and none only where it keeps such; and what it names of typed tables is false of them, and the first that is: the
/// tables in their order, the rows in theirs (of interests, one that the database chooses), the rules in theirs.
pub fn first_fault<S: Alter>(conn: &mut Connection<S>, alloc: Global) -> Got<Option<Fault>>
    ensures none { HasCleanDisk (state S.Store conn.new) → IfOk result (λ o. o ≡ None → KeepsSound (state S.Store conn.old).now) }
    ensures some { HasCleanDisk (state S.Store conn.new) → IfOk result (λ o. IsSome o → ¬ KeepsSound (state S.Store conn.old).now) }
    ensures named { HasCleanDisk (state S.Store conn.new)
        → OverTyped S.Store Second conn.old (λ t. IfOk result (λ o. IfSome o (λ fault. IsTrue (breaks t fault)))) }
    ensures first { HasCleanDisk (state S.Store conn.new) → OverTyped S.Store Second conn.old (λ t. IfOk result (λ o. IsSome o → IsFirst t o)) }
    ensures opened { IsOpenAfter S.Store conn.new result }
    ensures left { LeavesRows S.Store conn.old conn.new }
    ensures crash { LeavesOverCrash S.Store conn.old conn.new }
{
    if !conn.is_autocommit() {
        return Err(StoreError);
    }
    if !is_office(Edition::Second, conn.schema()) {
        return Err(StoreError);
    }
    if let Some(_) = find_sound(conn, alloc, Edition::Second)? {
        return Ok(None);
    }
    match place(conn, alloc)? {
        Some(fault) => Ok(Some(fault)),
        None => Err(StoreError),
    }
}
