//! The rows of files and papers, tested one at a time.

ghost use Rattle.std.specs.Prelude.{◌≡◌, ◌↔◌, IsTrue, MatchBool, IfOk, IfSome, IsSomeAnd, length, map};
ghost use Rattle.sqlite.specs.State.{HasCleanDisk};
ghost use Rattle.sqlite.specs.Held.{state};
ghost use Rattle.permit_sql.specs.Found.{TakesFile, TakesPaper, TakesRowid, RefusesFile, RefusesPaper, RefusesRowid};
ghost use Rattle.permit_sql.specs.Found.{IsLater, HasFiles, HasPapers, IsApart};
ghost use Rattle.permit_sql.specs.Frames.{IsLook, OverTyped};
ghost use Rattle.permit_sql_statements.specs.Frames.{IsIdle};

use crate::each::Taker;
use crate::texts::{EACH_FILE, EACH_PAPER, EACH_ROWID};
use crate::typed::takes_all;
use permit_base::words::Edition;
use permit_sql_rows::decode::{file_of, paper_of};
use permit_sql_rows::fields::{RowFault, whole_number};
use permit_store::store::{Got, StoreError};
use sqlite::{Alter, Connection, Row};
use std::alloc::Global;

/// The count of files at the upgrade, and the counts of papers of the files that were read, each with the next number.
#[derive(Drop)]
struct Files {
    upgrade: Option<u32>,
    counts: Vec<u16>,
    lacks_memory: bool,
}

impl Taker for Files {
    ghost took = { λ a row b good. MatchBool good
        (TakesFile a.upgrade a.counts.items row b.counts.items × (b.upgrade ≡ a.upgrade))
        (RefusesFile a.upgrade a.counts.items row b.lacks_memory) };

    fn take(&mut self, row: &Row) -> bool {
        let file = match file_of(row, self.upgrade) {
            Ok(file) => file,
            Err(RowFault::NoMemory) => {
                self.lacks_memory = true;
                return false;
            }
            Err(RowFault::Unreadable) => return false,
        };
        if file.id.get() as usize != self.counts.len() + 1 {
            return false;
        }
        match self.counts.push(file.state.papers()) {
            Ok(()) => true,
            Err(_) => {
                self.lacks_memory = true;
                false
            }
        }
    }
}

/// The count of papers of each file, where there are so many files, numbered from 1, each within its limits.
pub(crate) fn check_files<S: Alter>(
    conn: &mut Connection<S>,
    alloc: Global,
    edition: Edition,
    upgrade: Option<u32>,
    count: u32,
) -> Got<Option<Vec<u16>>>
    requires idle { IsIdle conn.old }
    ensures good { HasCleanDisk (state S.Store conn.new)
        → IfOk result (λ o. IfSome o (λ counts. HasFiles upgrade counts.items ((state S.Store conn.old).now.trees 7))) }
    ensures counted { IfOk result (λ o. IfSome o (λ counts. length counts.items ≡ count)) }
    ensures kept { HasCleanDisk (state S.Store conn.new)
        → OverTyped S.Store edition conn.old (λ t. count ≡ t.desk.files → t.upgrade ≡ upgrade → IfOk result (λ o. IsSomeAnd o (λ counts. counts.items ≡ map (λ f. f.state.papers) t.files))) }
    ensures look { IsLook S.Store conn.old conn.new result }
{
    let mut files = Files {
        upgrade,
        counts: Vec::new(alloc),
        lacks_memory: false,
    };
    let all = takes_all(conn, edition, EACH_FILE, &mut files)?;
    if files.lacks_memory {
        return Err(StoreError);
    }
    if !all {
        return Ok(None);
    }
    if files.counts.len() != count as usize {
        return Ok(None);
    }
    Ok(Some(files.counts))
}

/// Whether the second is a later paper: of the same file with a higher number, or of a later file.
fn is_later(file: u32, number: u32, next_file: u32, next_number: u32) -> bool
    ensures later { IsTrue result → IsLater file number next_file next_number }
    ensures told { IsLater file number next_file next_number → IsTrue result }
{
    if next_file == file {
        number < next_number
    } else {
        file < next_file
    }
}

/// The paper that was read last, and the counts of papers of the files.
#[derive(Drop)]
struct Papers {
    file: u32,
    number: u32,
    counts: Vec<u16>,
    lacks_memory: bool,
}

impl Taker for Papers {
    ghost took = { λ a row b good. MatchBool good
        (TakesPaper a.counts.items a.file a.number row b.file b.number × (b.counts.items ≡ a.counts.items))
        (RefusesPaper a.counts.items a.file a.number row b.lacks_memory) };

    fn take(&mut self, row: &Row) -> bool {
        let paper = match paper_of(row) {
            Ok(paper) => paper,
            Err(RowFault::NoMemory) => {
                self.lacks_memory = true;
                return false;
            }
            Err(RowFault::Unreadable) => return false,
        };
        let file = paper.file.get();
        let number = paper.number.get();
        let Some(count) = self.counts.get(file as usize - 1) else {
            return false;
        };
        if number > u32::from(*count) {
            return false;
        }
        if !is_later(self.file, self.number, file, number) {
            return false;
        }
        self.file = file;
        self.number = number;
        true
    }
}

/// Whether each paper is within its limits, and each file's papers have numbers of their own, none above the file's
/// count.
pub(crate) fn check_papers<S: Alter>(
    conn: &mut Connection<S>,
    edition: Edition,
    counts: Vec<u16>,
) -> Got<bool>
    requires idle { IsIdle conn.old }
    ensures good { HasCleanDisk (state S.Store conn.new)
        → IfOk result (λ good. IsTrue good → HasPapers counts.items ((state S.Store conn.old).now.trees 8)) }
    ensures kept { HasCleanDisk (state S.Store conn.new)
        → OverTyped S.Store edition conn.old (λ t. counts.items ≡ map (λ f. f.state.papers) t.files → IfOk result IsTrue) }
    ensures look { IsLook S.Store conn.old conn.new result }
{
    let mut papers = Papers {
        file: 0,
        number: 0,
        counts,
        lacks_memory: false,
    };
    let all = takes_all(conn, edition, EACH_PAPER, &mut papers)?;
    if papers.lacks_memory {
        return Err(StoreError);
    }
    Ok(all)
}

/// The rowid that was read last, and whether one was no number, which no table's is.
#[derive(Drop)]
struct Rowids {
    last: Option<i64>,
    is_strange: bool,
}

impl Taker for Rowids {
    ghost took = { λ a row b good. MatchBool good (TakesRowid a.last row b.last) (RefusesRowid a.last row b.is_strange) };

    fn take(&mut self, row: &Row) -> bool {
        let Some(next) = whole_number(row, 0) else {
            self.is_strange = true;
            return false;
        };
        if let Some(last) = self.last {
            if next <= last {
                return false;
            }
        }
        self.last = Some(next);
        true
    }
}

/// Whether no rowid of a paper comes twice.
pub(crate) fn check_rowids<S: Alter>(conn: &mut Connection<S>, edition: Edition) -> Got<bool>
    requires idle { IsIdle conn.old }
    ensures good { HasCleanDisk (state S.Store conn.new)
        → IfOk result (λ good. IsTrue good → IsApart ((state S.Store conn.old).now.trees 8)) }
    ensures kept { HasCleanDisk (state S.Store conn.new) → OverTyped S.Store edition conn.old (λ t. IfOk result IsTrue) }
    ensures look { IsLook S.Store conn.old conn.new result }
{
    let mut rowids = Rowids {
        last: None,
        is_strange: false,
    };
    let all = takes_all(conn, edition, EACH_ROWID, &mut rowids)?;
    if rowids.is_strange {
        return Err(StoreError);
    }
    Ok(all)
}
