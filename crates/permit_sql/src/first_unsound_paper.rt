//! The first of typed papers that isn't sound, or the first file whose papers aren't as its row counts them.

ghost use Rattle.std.specs.Prelude.{◌≡◌, true, map, nat_le, Some, IsTrue, IfOk, IfSome, MatchBool};
ghost use Rattle.std.specs.List.{list_all};
ghost use Rattle.sqlite.specs.State.{HasCleanDisk};
ghost use Rattle.sqlite.specs.Held.{state};
ghost use Rattle.permit_base.specs.declared.words.Edition.TheVariants.{Second};
ghost use Rattle.permit_sql_rows.specs.Kept.{IsFine};
ghost use Rattle.permit_base.specs.Limits.{most_papers};
ghost use Rattle.permit_sql.specs.Tested.{first_tally};
ghost use Rattle.permit_sql.specs.Named.{breaks};
ghost use Rattle.permit_sql.specs.First.{first_of_papers, ReadsPaper, NamesPaper};
ghost use Rattle.permit_sql_statements.specs.Frames.{IsIdle};
ghost use Rattle.permit_sql.specs.Frames.{IsLook, OverTyped};

use crate::each::Taker;
use crate::fault::{Fault, PaperRule};
use crate::row_rules::paper_rule;
use crate::sound::roles_of;
use crate::sound_files::tallies_of;
use crate::tally::{Tally, first_unended, place_of};
use crate::texts::EACH_PAPER;
use crate::typed::takes_all;
use permit_base::values::Day;
use permit_base::words::Edition;
use permit_sql_rows::decode::paper_of;
use permit_sql_rows::fields::RowFault;
use permit_store::rows::{Desk, Paper};
use permit_store::store::{Got, StoreError};
use sqlite::{Alter, Connection, Row};
use std::alloc::Global;

/// What papers are tested against, the tallies of the files, and what is broken.
#[derive(Drop)]
struct Read {
    parties: u32,
    last: Day,
    tallies: Vec<Tally>,
    fault: Option<Fault>,
    lacks_memory: bool,
}

/// That a paper breaks a rule.
fn fault_of(paper: &Paper, rule: PaperRule) -> Fault
    ensures { result ≡ Fault.Paper (Some paper.now.file) (Some paper.now.number) rule }
{
    Fault::Paper {
        file: Some(paper.file.get()),
        number: Some(paper.number.get()),
        rule,
    }
}

impl Taker for Read {
    ghost took = { λ a row b good. MatchBool good
        ((b.parties ≡ a.parties) × (b.last ≡ a.last) × ReadsPaper a.parties a.last a.tallies.items row b.tallies.items)
        (NamesPaper a.parties a.last a.tallies.items row b.fault b.lacks_memory) };

    fn take(&mut self, row: &Row) -> bool {
        let paper = match paper_of(row) {
            Ok(paper) => paper,
            Err(RowFault::NoMemory) => {
                self.lacks_memory = true;
                return false;
            }
            Err(RowFault::Unreadable) => return false,
        };
        if let Some(rule) = paper_rule(self.parties, self.last, &paper) {
            self.fault = Some(fault_of(&paper, rule));
            return false;
        }
        let at = place_of(paper.file);
        if at >= self.tallies.len() {
            self.fault = Some(fault_of(&paper, PaperRule::File));
            return false;
        }
        let Some(next) = self.tallies[at].after(&paper) else {
            self.fault = Some(self.tallies[at].fault_at(&paper));
            return false;
        };
        self.tallies[at] = next;
        true
    }
}

/// The first of the typed papers that breaks a rule, or the first file whose papers or open notices aren't as many as its
/// tally says.
fn first_of<S: Alter>(
    conn: &mut Connection<S>,
    desk: Desk,
    tallies: Vec<Tally>,
) -> Got<Option<Fault>>
    requires idle { IsIdle conn.old }
    ensures named { HasCleanDisk (state S.Store conn.new)
        → OverTyped S.Store Second conn.old (λ t. desk ≡ t.desk → tallies.items ≡ map (λ f. first_tally f.state) t.files
        → list_all (λ f. nat_le f.state.papers most_papers) t.files ≡ true
        → IfOk result (λ o. IfSome o (λ fault. IsTrue (breaks t fault)))) }
    ensures first { HasCleanDisk (state S.Store conn.new)
        → OverTyped S.Store Second conn.old (λ t. desk ≡ t.desk → tallies.items ≡ map (λ f. first_tally f.state) t.files
        → list_all (λ f. nat_le f.state.papers most_papers) t.files ≡ true → IfOk result (λ o. o ≡ first_of_papers t)) }
    ensures look { IsLook S.Store conn.old conn.new result }
{
    let mut read = Read {
        parties: desk.parties,
        last: desk.last,
        tallies,
        fault: None,
        lacks_memory: false,
    };
    let all = takes_all(conn, Edition::Second, EACH_PAPER, &mut read)?;
    if read.lacks_memory {
        return Err(StoreError);
    }
    if all {
        return Ok(first_unended(&read.tallies));
    }
    Ok(read.fault)
}

/// The first of the typed papers that breaks a rule, or the first file whose papers or open notices aren't as many as its
/// row says; the files are sound without their papers.
pub(crate) fn papers_fault<S: Alter>(
    conn: &mut Connection<S>,
    alloc: Global,
    desk: Desk,
    upgrade: Option<u32>,
) -> Got<Option<Fault>>
    requires idle { IsIdle conn.old }
    ensures named { IsFine (state S.Store conn.new)
        → OverTyped S.Store Second conn.old (λ t. desk ≡ t.desk → t.upgrade ≡ upgrade
        → IfOk result (λ o. IfSome o (λ fault. IsTrue (breaks t fault)))) }
    ensures first { IsFine (state S.Store conn.new)
        → OverTyped S.Store Second conn.old (λ t. desk ≡ t.desk → t.upgrade ≡ upgrade → IfOk result (λ o. o ≡ first_of_papers t)) }
    ensures look { IsLook S.Store conn.old conn.new result }
{
    let edition = Edition::Second;
    let roles = roles_of(conn, alloc, edition)?;
    let tallies = match tallies_of(
        conn,
        alloc,
        edition,
        upgrade,
        roles,
        desk.parcels,
        desk.last,
    )? {
        Some(tallies) => tallies,
        None => return Err(StoreError),
    };
    first_of(conn, desk, tallies)
}
