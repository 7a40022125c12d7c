//! The first row of a table that isn't one of its type, or hasn't the next number.

ghost use Rattle.permit_sql_statements.specs.Frames.{IsIdle};
ghost use Rattle.permit_sql.specs.Frames.{IsLook};

use crate::each::Taker;
use crate::fault::{Fault, FileRule, PaperRule, ParcelRule, PartyRule};
use crate::texts::{EACH_FILE, EACH_INTEREST, EACH_PAPER, EACH_PARCEL, EACH_PARTY};
use crate::typed::takes_all;
use crate::untyped_rule::{
    file_rule, interest_rule, number_in, paper_rule, parcel_rule, party_rule,
};
use permit_base::words::Edition;
use permit_sql_rows::decode::{file_of, interest_in, paper_of, parcel_of, party_of};
use permit_sql_rows::fields::{Read, RowFault};
use permit_store::store::{Got, StoreError};
use sqlite::{Alter, Connection, Row};

/// What the row of a party breaks, where the next number is this.
fn party_fault(row: &Row, next: u32) -> Read<Option<Fault>> {
    let rule = match party_of(row) {
        Ok(party) => {
            if party.id.get() == next {
                return Ok(None);
            }
            PartyRule::Number
        }
        Err(RowFault::Unreadable) => party_rule(row),
        Err(RowFault::NoMemory) => return Err(RowFault::NoMemory),
    };
    Ok(Some(Fault::Party {
        number: number_in(row, 0),
        rule,
    }))
}

/// What the row of a parcel breaks, where the next number is this.
fn parcel_fault(row: &Row, next: u32) -> Read<Option<Fault>> {
    let rule = match parcel_of(row) {
        Ok(parcel) => {
            if parcel.id.get() == next {
                return Ok(None);
            }
            ParcelRule::Number
        }
        Err(RowFault::Unreadable) => parcel_rule(row),
        Err(RowFault::NoMemory) => return Err(RowFault::NoMemory),
    };
    Ok(Some(Fault::Parcel {
        number: number_in(row, 0),
        rule,
    }))
}

/// What the row of an interest breaks.
fn interest_fault(row: &Row) -> Option<Fault> {
    match interest_in(row) {
        Some(_) => None,
        None => Some(Fault::Interest {
            parcel: number_in(row, 0),
            party: number_in(row, 1),
            rule: interest_rule(row),
        }),
    }
}

/// What the row of a file breaks, where the next number is this, and there were so many files at the upgrade.
fn file_fault(row: &Row, next: u32, upgrade: Option<u32>) -> Read<Option<Fault>> {
    let rule = match file_of(row, upgrade) {
        Ok(file) => {
            if file.id.get() == next {
                return Ok(None);
            }
            FileRule::Number
        }
        Err(RowFault::Unreadable) => file_rule(row, upgrade),
        Err(RowFault::NoMemory) => return Err(RowFault::NoMemory),
    };
    Ok(Some(Fault::File {
        number: number_in(row, 0),
        rule,
    }))
}

/// What the row of a paper breaks, where the paper before it is this, and the files have so many papers each.
fn paper_fault(row: &Row, before: (u32, u32), counts: &[u16]) -> Read<Option<Fault>> {
    let rule = match paper_of(row) {
        Ok(paper) => {
            let key = (paper.file.get(), paper.number.get());
            match counts.get(key.0 as usize - 1) {
                None => PaperRule::File,
                Some(count) if u32::from(*count) < key.1 => PaperRule::Uncounted,
                Some(_) if key == before => PaperRule::Twice,
                Some(_) => return Ok(None),
            }
        }
        Err(RowFault::Unreadable) => paper_rule(row),
        Err(RowFault::NoMemory) => return Err(RowFault::NoMemory),
    };
    Ok(Some(Fault::Paper {
        file: number_in(row, 0),
        number: number_in(row, 1),
        rule,
    }))
}

/// A table whose rows have a number each, or two.
#[derive(Clone, Copy)]
pub(crate) enum Table {
    Party,
    Parcel,
    Interest,
    File,
    Paper,
}

/// What is known of the rows that were read, and the first that breaks its type.
#[derive(Drop)]
struct Rows {
    table: Table,
    upgrade: Option<u32>,
    counts: Vec<u16>,
    /// The number of the next row.
    next: u32,
    /// The file and the number of the paper that was read last.
    paper: (u32, u32),
    fault: Option<Fault>,
    lacks_memory: bool,
}

impl Rows {
    /// What a row breaks.
    fn fault_in(&self, row: &Row) -> Read<Option<Fault>> {
        match self.table {
            Table::Party => party_fault(row, self.next),
            Table::Parcel => parcel_fault(row, self.next),
            Table::Interest => Ok(interest_fault(row)),
            Table::File => file_fault(row, self.next, self.upgrade),
            Table::Paper => paper_fault(row, self.paper, &self.counts),
        }
    }
}

impl Taker for Rows {
    ghost took = { λ a row b good. Unit {0} };

    fn take(&mut self, row: &Row) -> bool {
        match self.fault_in(row) {
            Ok(None) => {
                self.next = self.next.saturating_add(1);
                self.paper = (
                    number_in(row, 0).unwrap_or(0),
                    number_in(row, 1).unwrap_or(0),
                );
                true
            }
            Ok(fault) => {
                self.fault = fault;
                false
            }
            Err(_) => {
                self.lacks_memory = true;
                false
            }
        }
    }
}

/// Whether all rows of a table are of its type, in rising number.
fn takes_rows<S: Alter>(conn: &mut Connection<S>, table: Table, rows: &mut Rows) -> Got<bool>
    requires idle { IsIdle conn.old }
    ensures look { IsLook S.Store conn.old conn.new result }
{
    match table {
        Table::Party => takes_all(conn, Edition::Second, EACH_PARTY, rows),
        Table::Parcel => takes_all(conn, Edition::Second, EACH_PARCEL, rows),
        Table::Interest => takes_all(conn, Edition::Second, EACH_INTEREST, rows),
        Table::File => takes_all(conn, Edition::Second, EACH_FILE, rows),
        Table::Paper => takes_all(conn, Edition::Second, EACH_PAPER, rows),
    }
}

/// The first row of a table that isn't one of its type, or hasn't the next number. The upgrade is looked at for files
/// alone, and the counts of papers of the files for papers.
pub(crate) fn first_untyped<S: Alter>(
    conn: &mut Connection<S>,
    table: Table,
    upgrade: Option<u32>,
    counts: Vec<u16>,
) -> Got<Option<Fault>>
    requires idle { IsIdle conn.old }
    ensures look { IsLook S.Store conn.old conn.new result }
{
    let mut rows = Rows {
        table,
        upgrade,
        counts,
        next: 1,
        paper: (0, 0),
        fault: None,
        lacks_memory: false,
    };
    let _all = takes_rows(conn, table, &mut rows)?;
    if rows.lacks_memory {
        return Err(StoreError);
    }
    Ok(rows.fault)
}
