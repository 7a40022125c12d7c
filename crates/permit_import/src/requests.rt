//! What a record asks for.

ghost use Rattle.std.specs.Prelude.{◌≡◌, IfOk, option_map, option_and_then};
ghost use Rattle.csv.specs.Records.{fields_of, field_at};
ghost use Rattle.permit_import.specs.Records.{text_in, parcel_of, request_of_record};

use csv::ByteRecord;
use permit_base::request::Request;
use permit_base::values::{Lot, PartyId, Text};
use permit_routes::id;
use std::alloc::{AllocError, Global};

/// The text of a field, where it is there and is UTF-8.
pub(crate) fn text_at(row: &ByteRecord, place: usize) -> Option<&str>
    ensures { option_map (λ s. s.now) result ≡ option_and_then text_in (field_at (fields_of row.now) place) }
{
    match str::from_utf8(row.get(place)?) {
        Ok(text) => Some(text),
        Err(_) => None,
    }
}

/// The request for a parcel of these values, where they are within their limits.
fn parcel(
    alloc: Global,
    lot: &str,
    address: &str,
    owner: &str,
) -> Result<Option<Request>, AllocError>
    ensures { IfOk result (λ request. request ≡ parcel_of lot.now address.now owner.now) }
{
    let Some(owner) = id(owner).and_then(PartyId::new) else {
        return Ok(None);
    };
    let Some(lot) = Lot::new(String::from_str(alloc, lot)?) else {
        return Ok(None);
    };
    let Some(address) = Text::new(String::from_str(alloc, address)?) else {
        return Ok(None);
    };
    Ok(Some(Request::AddParcel {
        lot,
        address,
        owner,
    }))
}

/// The request for the parcel of a record, or none where the record is no request.
pub(crate) fn request_of(alloc: Global, row: &ByteRecord) -> Result<Option<Request>, AllocError>
    ensures { IfOk result (λ request. request ≡ request_of_record (fields_of row.now)) }
{
    if row.len() != 3 {
        return Ok(None);
    }
    let Some(lot) = text_at(row, 0) else {
        return Ok(None);
    };
    let Some(address) = text_at(row, 1) else {
        return Ok(None);
    };
    let Some(owner) = text_at(row, 2) else {
        return Ok(None);
    };
    parcel(alloc, lot, address, owner)
}
