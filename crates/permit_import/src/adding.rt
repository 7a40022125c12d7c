//! Adding the parcel of one record.

ghost use Rattle.std.specs.Prelude.{◌≡◌, IfOk, OnErr};
ghost use Rattle.csv.specs.Records.{fields_of};
ghost use Rattle.permit_import.specs.Records.{request_of_record};
ghost use Rattle.permit_import.specs.Trying.{Tries};

use crate::outcome::Outcome;
use crate::requests::request_of;
use crate::why::RecordFault;
use csv::ByteRecord;
use permit_base::request::Asked;
use permit_base::values::{Day, Token};
use permit_wire::service::Service;
use std::alloc::{AllocError, Global};

/// Has the service add the parcel of a record, by one request. A record that is no request never reaches it.
pub(crate) fn add<M: Service<Day>>(
    alloc: Global,
    service: &mut M,
    token: &Token,
    day: Day,
    row: &ByteRecord,
) -> Result<Outcome, AllocError>
    requires { M.ready service.old }
    ensures ready { M.ready service.new }
    ensures tries { IfOk result (Tries M.did token.now day (fields_of row.now) (request_of_record (fields_of row.now)) service.old service.new) }
    ensures err { OnErr result (service.new ≡ service.old) }
{
    match request_of(alloc, row)? {
        Some(request) => {
            let token = token.clone()?;
            let dated = service.serve(&day, Asked { token, request });
            Ok(Outcome::of(&dated.reply))
        }
        None => Ok(Outcome::Malformed(RecordFault::of(row))),
    }
}
