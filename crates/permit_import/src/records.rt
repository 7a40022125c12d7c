//! The records of a parcel list.

ghost use Rattle.std.specs.Prelude.{◌≡◌, ℕ, List, [], Option, Some, IfOk, IfErr, IsTrue, ◌↔◌};
ghost use Rattle.csv.specs.Records.{fields_of, field_at};
ghost use Rattle.permit_import.specs.Records.{Fields, header};
ghost use Rattle.permit_import.specs.Reading.{Behind, ReadsNext};
ghost use Rattle.permit_import.specs.declared.fault.ImportFault.TheVariants.{Reading};

use crate::fault::ImportFault;
use csv::{ByteRecord, Reader, ReaderBuilder};
use std::alloc::Global;
use std::io::Read;

/// A list's records, of any number of fields.
pub(crate) fn records<R: Read>(alloc: Global, reader: R) -> Reader<R>
    ensures { Behind R.remaining (R.remaining reader) result [] }
{
    ReaderBuilder::new()
        .has_headers(false)
        .flexible(true)
        .from_reader(alloc, reader)
}

/// Reads the next record, and says whether there is one.
pub(crate) fn read_next<R: Read>(
    records: &mut Reader<R>,
    row: &mut ByteRecord,
) -> Result<bool, ImportFault>
    ensures next { (left : Option (List ℕ)) (rows : List Fields) → Behind R.remaining left records.old rows
        → IfOk result (ReadsNext R.remaining left rows (fields_of row.new) records.new) }
    ensures fault { IfErr result (λ fault. fault ≡ Reading) }
{
    records
        .read_byte_record(row)
        .map_err(|_| ImportFault::Reading)
}

/// Whether a field of a record is exactly this word.
fn has(row: &ByteRecord, place: usize, word: &str) -> bool
    ensures { IsTrue result ↔ (field_at (fields_of row.now) place ≡ Some word.now) }
{
    match row.get(place) {
        Some(field) => field == word.as_bytes(),
        None => false,
    }
}

/// Whether a record is the one that a parcel list begins with.
pub(crate) fn is_header(row: &ByteRecord) -> bool
    ensures { IsTrue result ↔ (fields_of row.now ≡ header) }
{
    row.len() == 3 && has(row, 0, "lot") && has(row, 1, "address") && has(row, 2, "owner")
}
