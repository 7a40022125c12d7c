//! Whether typed tables are sound: the files and their papers, and all of them.

ghost use Rattle.std.specs.Prelude.{◌≡◌, ◌↔◌, IsTrue, MatchBool, IfOk, IfSome, true, map, is_some, nat_le};
ghost use Rattle.std.specs.List.{list_all};
ghost use Rattle.sqlite.specs.State.{HasCleanDisk};
ghost use Rattle.sqlite.specs.Held.{state};
ghost use Rattle.permit_base.specs.Limits.{most_papers};
ghost use Rattle.permit_model.specs.Sound.{IsSoundTables};
ghost use Rattle.permit_sql_rows.specs.Kept.{IsFine};
ghost use Rattle.permit_sql.specs.Tested.{fits_file as fits_state, fits_parcels, fits_papers, fits_cases, first_tally};
ghost use Rattle.permit_sql.specs.Passed.{PassesFile, StopsFile, PassesPaper, StopsPaper};
ghost use Rattle.permit_sql.specs.Frames.{IsLook, LeavesOverCrash, LeavesRows, OverTyped, StaysOpen};
ghost use Rattle.permit_sql_statements.specs.Frames.{IsIdle};

use crate::each::Taker;
use crate::row_rules::{fits_desk, fits_file, fits_paper, has_official};
use crate::sound::{has_declarers, has_owners, roles_of};
use crate::tally::{Tally, are_ended, place_of};
use crate::texts::{EACH_FILE, EACH_PAPER};
use crate::typed::takes_all;
use permit_base::values::Day;
use permit_base::words::{Edition, Role};
use permit_sql_rows::decode::{paper_of, state_in};
use permit_sql_rows::fields::RowFault;
use permit_store::rows::Desk;
use permit_store::store::{Got, StoreError};
use sqlite::{Alter, Connection, Row};
use std::alloc::Global;

/// What a file is tested against, and the tallies of the files that were read.
#[derive(Drop)]
struct Filed {
    upgrade: Option<u32>,
    roles: Vec<Role>,
    parcels: u32,
    last: Day,
    tallies: Vec<Tally>,
    lacks_memory: bool,
}

impl Taker for Filed {
    ghost took = { λ a row b good. MatchBool good
        (PassesFile a.upgrade a.roles.items a.parcels a.last a.tallies.items row b.tallies.items
        × ((b.upgrade ≡ a.upgrade) × ((b.roles.items ≡ a.roles.items) × ((b.parcels ≡ a.parcels) × (b.last ≡ a.last)))))
        (StopsFile a.upgrade a.roles.items a.parcels a.last row b.lacks_memory) };

    fn take(&mut self, row: &Row) -> bool {
        let Some(state) = state_in(row, self.upgrade) else {
            return false;
        };
        if !fits_file(&self.roles, self.parcels, self.last, &state) {
            return false;
        }
        match self.tallies.push(Tally::of(&state)) {
            Ok(()) => true,
            Err(_) => {
                self.lacks_memory = true;
                false
            }
        }
    }
}

/// The tally of each of the typed files before its papers are read, where each is sound without them.
pub(crate) fn tallies_of<S: Alter>(
    conn: &mut Connection<S>,
    alloc: Global,
    edition: Edition,
    upgrade: Option<u32>,
    roles: Vec<Role>,
    parcels: u32,
    last: Day,
) -> Got<Option<Vec<Tally>>>
    requires idle { IsIdle conn.old }
    ensures told { HasCleanDisk (state S.Store conn.new)
        → OverTyped S.Store edition conn.old (λ t. t.upgrade ≡ upgrade
        → IfOk result (λ o. (is_some o ≡ list_all (λ f. fits_state roles.items parcels last f.state) t.files)
        × IfSome o (λ tallies. tallies.items ≡ map (λ f. first_tally f.state) t.files))) }
    ensures look { IsLook S.Store conn.old conn.new result }
{
    let mut filed = Filed {
        upgrade,
        roles,
        parcels,
        last,
        tallies: Vec::new(alloc),
        lacks_memory: false,
    };
    let all = takes_all(conn, edition, EACH_FILE, &mut filed)?;
    if filed.lacks_memory {
        return Err(StoreError);
    }
    if !all {
        return Ok(None);
    }
    Ok(Some(filed.tallies))
}

/// What a paper is tested against, and the tallies of the files.
#[derive(Drop)]
struct Entered {
    parties: u32,
    last: Day,
    tallies: Vec<Tally>,
    lacks_memory: bool,
}

impl Taker for Entered {
    ghost took = { λ a row b good. MatchBool good
        (PassesPaper a.parties a.last a.tallies.items row b.tallies.items × ((b.parties ≡ a.parties) × (b.last ≡ a.last)))
        (StopsPaper a.parties a.last a.tallies.items row b.lacks_memory) };

    fn take(&mut self, row: &Row) -> bool {
        let paper = match paper_of(row) {
            Ok(paper) => paper,
            Err(RowFault::NoMemory) => {
                self.lacks_memory = true;
                return false;
            }
            Err(RowFault::Unreadable) => return false,
        };
        if !fits_paper(self.parties, self.last, &paper) {
            return false;
        }
        let at = place_of(paper.file);
        if at >= self.tallies.len() {
            return false;
        }
        let Some(next) = self.tallies[at].after(&paper) else {
            return false;
        };
        self.tallies[at] = next;
        true
    }
}

/// Whether the typed papers are sound, and those of each file are as its row counts them.
pub(crate) fn has_sound_papers<S: Alter>(
    conn: &mut Connection<S>,
    edition: Edition,
    parties: u32,
    last: Day,
    tallies: Vec<Tally>,
) -> Got<bool>
    requires idle { IsIdle conn.old }
    ensures told { HasCleanDisk (state S.Store conn.new)
        → OverTyped S.Store edition conn.old (λ t. parties ≡ t.desk.parties → last ≡ t.desk.last → tallies.items ≡ map (λ f. first_tally f.state) t.files
        → list_all (λ f. nat_le f.state.papers most_papers) t.files ≡ true
        → IfOk result (λ good. good ≡ fits_papers t)) }
    ensures look { IsLook S.Store conn.old conn.new result }
{
    let mut entered = Entered {
        parties,
        last,
        tallies,
        lacks_memory: false,
    };
    let all = takes_all(conn, edition, EACH_PAPER, &mut entered)?;
    if entered.lacks_memory {
        return Err(StoreError);
    }
    if !all {
        return Ok(false);
    }
    Ok(are_ended(&entered.tallies))
}

/// Whether the typed files and papers are sound, by the roles of the parties.
fn has_sound_cases<S: Alter>(
    conn: &mut Connection<S>,
    alloc: Global,
    edition: Edition,
    desk: Desk,
    upgrade: Option<u32>,
    roles: Vec<Role>,
) -> Got<bool>
    requires idle { IsIdle conn.old }
    ensures told { IsFine (state S.Store conn.new)
        → OverTyped S.Store edition conn.old (λ t. t.desk ≡ desk → t.upgrade ≡ upgrade
        → IfOk result (λ good. good ≡ fits_cases roles.items t)) }
    ensures look { IsLook S.Store conn.old conn.new result }
{
    match tallies_of(
        conn,
        alloc,
        edition,
        upgrade,
        roles,
        desk.parcels,
        desk.last,
    )? {
        Some(tallies) => has_sound_papers(conn, edition, desk.parties, desk.last, tallies),
        None => Ok(false),
    }
}

/// Whether the typed parcels and interests are sound.
fn has_sound_parcels<S: Alter>(conn: &mut Connection<S>, edition: Edition, desk: Desk) -> Got<bool>
    requires idle { IsIdle conn.old }
    ensures told { IsFine (state S.Store conn.new)
        → OverTyped S.Store edition conn.old (λ t. t.desk ≡ desk → IfOk result (λ good. good ≡ fits_parcels t)) }
    ensures look { IsLook S.Store conn.old conn.new result }
{
    if !has_owners(conn, edition, desk.parties)? {
        return Ok(false);
    }
    has_declarers(conn, edition, desk.parcels, desk.parties)
}

/// Whether typed tables of this desk, with so many files at the upgrade, are sound. Each table is read once.
pub(crate) fn are_sound<S: Alter>(
    conn: &mut Connection<S>,
    alloc: Global,
    edition: Edition,
    desk: Desk,
    upgrade: Option<u32>,
) -> Got<bool>
    requires idle { IsIdle conn.old }
    ensures told { IsFine (state S.Store conn.new)
        → OverTyped S.Store edition conn.old (λ t. t.desk ≡ desk → t.upgrade ≡ upgrade
        → IfOk result (λ good. IsTrue good ↔ IsSoundTables t)) }
    ensures open { HasCleanDisk (state S.Store conn.new) → IfOk result (λ good. IsTrue good → IsTrue (state S.Store conn.new).is_open) }
    ensures stays { StaysOpen S.Store conn.old conn.new result }
    ensures left { LeavesRows S.Store conn.old conn.new }
    ensures crash { LeavesOverCrash S.Store conn.old conn.new }
    ensures idle { IsIdle conn.new }
{
    if !fits_desk(desk) {
        return Ok(false);
    }
    let roles = roles_of(conn, alloc, edition)?;
    if !has_official(&roles) {
        return Ok(false);
    }
    if !has_sound_parcels(conn, edition, desk)? {
        return Ok(false);
    }
    has_sound_cases(conn, alloc, edition, desk, upgrade, roles)
}
