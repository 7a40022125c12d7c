//! The first record of a parcel list.

ghost use Rattle.std.specs.Prelude.{◌≡◌, ◌++◌, ◌<◌, ℕ, List, [], ◌∷◌, map, take, Option, option_map, OnOk, IfOk, IfErr, IfSome, string_bytes};
ghost use Rattle.std.specs.Bool.{MatchBool};
ghost use Rattle.csv.specs.Records.{fields_of};
ghost use Rattle.permit_import.specs.Headings.{heading_text, shown_byte, shown_field, IsHeadingText, StopsAtHeading};
ghost use Rattle.permit_import.specs.Reading.{Behind, LacksHeader};
ghost use Rattle.permit_import.specs.Records.{header};

use crate::fault::ImportFault;
use crate::records::{is_header, read_next, records};
use csv::{ByteRecord, Reader};
use std::alloc::{AllocError, Global};
use std::io::Read;

/// The most bytes of a field that are shown.
const MOST_SHOWN: usize = 60;

/// A byte as it is shown: `?` where it is no printable ASCII.
fn shown_byte(byte: u8) -> char
    ensures shown { result ≡ shown_byte byte }
    ensures ascii { result < 128 }
{
    if byte >= b' ' && byte < 0x7F {
        byte as char
    } else {
        '?'
    }
}

/// Appends the first bytes of a field.
fn push_bytes(text: &mut String, field: &[u8]) -> Result<(), AllocError>
    ensures { OnOk result (string_bytes text.new ≡ string_bytes text.old ++ map shown_byte (take 60 field.now)) }
{
    let count = MOST_SHOWN.min(field.len());
    for byte in &field[..count] {
        text.push(shown_byte(*byte))?;
    }
    Ok(())
}

/// Appends a field as it is shown, where it is there.
fn push_field(text: &mut String, field: Option<&[u8]>) -> Result<(), AllocError>
    ensures { OnOk result (string_bytes text.new ≡ string_bytes text.old ++ shown_field (option_map (λ s. s.now) field.entry)) }
{
    match field {
        Some(field) => {
            text.push_str(" `")?;
            push_bytes(text, field)?;
            text.push('`')
        }
        None => Ok(()),
    }
}

/// The text on a first record that isn't that of a parcel list.
fn heading_text(alloc: Global, row: &ByteRecord) -> Result<String, AllocError>
    ensures { IfOk result (λ text. string_bytes text ≡ heading_text (fields_of row.now)) }
{
    let mut text = String::from_str(alloc, "heading")?;
    push_field(&mut text, row.get(0))?;
    push_field(&mut text, row.get(1))?;
    push_field(&mut text, row.get(2))?;
    push_field(&mut text, row.get(3))?;
    text.push_str(": lot,address,owner")?;
    Ok(text)
}

/// Reads the first record, and says whether it is that of a parcel list. Without a record the row is empty.
fn read_first<R: Read>(records: &mut Reader<R>, row: &mut ByteRecord) -> Result<bool, ImportFault>
    ensures first { (left : Option (List ℕ)) → Behind R.remaining left records.old []
        → IfOk result (λ is. MatchBool is (Behind R.remaining left records.new (header ∷ [])) (LacksHeader left (fields_of row.new))) }
    ensures fault { IfErr result (λ fault. fault ≡ ImportFault.Reading) }
{
    if !read_next(records, row)? {
        row.clear();
        return Ok(false);
    }
    Ok(is_header(row))
}

/// Reads the first record, which has to be that of a parcel list.
pub(crate) fn read_heading<R: Read>(
    records: &mut Reader<R>,
    row: &mut ByteRecord,
) -> Result<(), ImportFault>
    ensures reads { (left : Option (List ℕ)) → Behind R.remaining left records.old [] → OnOk result (Behind R.remaining left records.new (header ∷ [])) }
    ensures headless { (left : Option (List ℕ)) → Behind R.remaining left records.old [] → IfErr result (StopsAtHeading left) }
{
    if read_first(records, row)? {
        Ok(())
    } else {
        Err(ImportFault::FirstRecord)
    }
}

/// What the first record of a text is, where it isn't that of a parcel list: at most four of its fields, and at most 60 bytes of
/// each. None where it is that of a parcel list, or where the reader fails or has no memory for it.
///
/// # Examples
///
/// ```
/// let list = b"lot;address;owner\nA-1;1 Main St;1\n".as_slice();
/// let reason = heading_reason(alloc, list)?.ok_or("a reason")?;
/// let wanted = "heading `lot;address;owner`: lot,address,owner";
/// assert_eq!(rt; reason.as_str(), wanted);
/// assert!(rt; heading_reason(alloc, b"lot,address,owner\n".as_slice())?.is_none());
/// ```
pub fn heading_reason<R: Read + Drop>(
    alloc: Global,
    reader: R,
) -> Result<Option<String>, AllocError>
    ensures { IfOk result (λ found. IfSome found (λ text. IsHeadingText (R.remaining reader) (string_bytes text))) }
{
    let mut records = records(alloc, reader);
    let mut row = ByteRecord::new(alloc);
    match read_first(&mut records, &mut row) {
        Ok(false) => Ok(Some(heading_text(alloc, &row)?)),
        Ok(true) | Err(_) => Ok(None),
    }
}
