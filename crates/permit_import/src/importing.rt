//! Importing a parcel list.

ghost use Rattle.std.specs.Prelude.{◌≡◌, ◌≤◌};
ghost use Rattle.permit_import.specs.Importing.{Imports, ImportsBy};

use crate::adding::add;
use crate::fault::ImportFault;
use crate::heading::read_heading;
use crate::records::{read_next, records};
use crate::tally::Tally;
use crate::writing::{write_cause, write_counts, write_outcome};
use csv::ByteRecord;
use permit_base::values::{Day, Token};
use permit_office::log::Log;
use permit_office::office::Office;
use permit_store::store::Store;
use permit_wire::service::Service;
use std::alloc::Global;
use std::io::{Read, Write};

/// The most records after the first.
const MOST_RECORDS: u32 = 999999;

/// More bytes than a line has.
const LINE_ROOM: usize = 384;

/// Imports a parcel list for the caller of the token, on the day, by a service.
///
/// The list is text of comma-separated records, as `csv` reads them by default. The first is exactly `lot`, `address`,
/// `owner`. Each after it, at most 999999, is one request to the service for a new parcel, and has its line: `K added N`;
/// `K kept` where a parcel of its lot is there already; else `K refused: ..` with the refusal, which is `syntax` for a
/// record that has another number of fields, a field that is not UTF-8 or a value out of its limits. The line of the
/// counts follows them. One record is held at a time, so memory does not grow with the list.
///
/// With `why`, a line `K why: FIELD: WHAT` goes to `causes` before each `K refused: ..` goes to `out`, with the field and what is
/// wrong with it. From the first of them on that can't be written whole none is, and the import goes on: what goes to `out` is
/// the same with and without `why`. Where the first record isn't the one above nothing is written, and `heading::heading_reason`
/// says what it is.
///
/// After a fault what was tried before remains in effect, and the lines of the records that were tried are out. Of the last one's
/// only a prefix is out where the writer failed, and maybe nothing where memory ran out. Where the writer failed inside the
/// counts, all were tried. A record that the store refuses has that refusal in its line, and the import goes on.
///
/// # Examples
///
/// ```
/// let list = b"lot,address,owner\nA-2,2 Main St,9\n".as_slice();
/// let (out, causes) = (&mut Vec::new(alloc), &mut Vec::new(alloc));
/// let ended = import_by(alloc, office, &token, day, true, list, out, causes);
/// assert!(rt; ended.is_ok());
/// let counts = b"added 0 kept 0 refused 1\n".as_slice();
/// assert!(rt; out.as_slice().ends_with(counts));
/// assert!(rt; causes.as_slice() == b"1 why: owner: no party has this number\n".as_slice());
/// ```
pub fn import_by<M: Service<Day>, R: Read + Drop, W: Write, E: Write>(
    alloc: Global,
    service: &mut M,
    token: &Token,
    day: Day,
    why: bool,
    reader: R,
    out: &mut W,
    causes: &mut E,
) -> Result<Tally, ImportFault>
    requires { M.ready service.old }
    ensures imports { ImportsBy M.did token.now day why (R.remaining reader) (W.contents out.old) (W.contents out.new)
        (E.contents causes.old) (E.contents causes.new) service.old service.new result }
    ensures ready { M.ready service.new }
{
    let mut line = String::with_capacity(alloc, LINE_ROOM)?;
    let mut records = records(alloc, reader);
    let mut row = ByteRecord::new(alloc);
    read_heading(&mut records, &mut row)?;
    let mut tally = Tally::new();
    let mut asked = why;
    for number in 1..MOST_RECORDS + 2 {
        if !read_next(&mut records, &mut row)? {
            write_counts(out, &mut line, tally)?;
            return Ok(tally);
        }
        if number > MOST_RECORDS {
            break;
        }
        let outcome = add(alloc, service, token, day, &row)?;
        asked = write_cause(causes, &mut line, asked, number, outcome);
        write_outcome(out, &mut line, number, outcome)?;
        tally.count(outcome);
    }
    Err(ImportFault::Reading)
}

/// Imports a parcel list for the caller of the token, on the day, as `import_by` does, by an office, with or without a
/// history: each record that is a request is one step of it.
///
/// # Examples
///
/// ```
/// let list = b"lot,address,owner\nA-1,1 Main St,1\n".as_slice();
/// let out = &mut Vec::new(alloc);
/// let ended = import(alloc, office, &token, day, false, list, out, &mut sink());
/// assert!(rt; ended.is_ok());
/// assert!(rt; out.as_slice() == b"1 added 1\nadded 1 kept 0 refused 0\n".as_slice());
/// ```
pub fn import<S: Store + Drop, L: Log + Drop, R: Read + Drop, W: Write, E: Write>(
    alloc: Global,
    office: &mut Office<S, L>,
    token: &Token,
    day: Day,
    why: bool,
    reader: R,
    out: &mut W,
    causes: &mut E,
) -> Result<Tally, ImportFault>
    ensures imports { Imports S.view L.Log token.now day why (R.remaining reader) (W.contents out.old) (W.contents out.new)
        (E.contents causes.old) (E.contents causes.new) office.old office.new result }
    ensures policy { office.new.policy ≡ office.old.policy }
    ensures doubt { (S.view office.old.store).doubt ≤ (S.view office.new.store).doubt }
{
    import_by(alloc, office, token, day, why, reader, out, causes)
}
