//! The request that a route, its parameters and a body make.

ghost use Rattle.std.specs.Prelude.{Some, codes, IsAscii};
ghost use Rattle.matchit.specs.Params.{walk};
ghost use Rattle.permit_routes.specs.Outcome.{RoutesAs};
ghost use Rattle.permit_routes.specs.Requests.{party_in, parcel_in, filing_in, transfer_in, without_keys, without_body, on_parcel, on_file, request_with};

use crate::commands::command;
use crate::document::{cents_at, lot_at, object, parcel_at, party_at, text_at, token_at, word_at};
use crate::fault::RequestFault;
use crate::parts::{action_of, file_of, is_command, parcel_of, register_of, stage_of};
use matchit::Params;
use permit_base::request::{Filter, Request};
use permit_base::values::{FileId, ParcelId};
use permit_base::words::{Action, Kind, Role};
use std::alloc::Global;

/// What a pattern of the routes means.
#[derive(Clone, Copy, PartialEq, Eq)]
pub enum Endpoint {
    /// A new party.
    Parties,
    /// A new parcel.
    Parcels,
    /// A parcel's next owner, or the caller's interest in a parcel.
    ParcelAction,
    /// A parcel, to be read.
    Parcel,
    /// The filing of an application.
    Files,
    /// A command on a file.
    FileAction,
    /// A file, to be read.
    File,
    /// All files.
    Listing,
    /// The files in a stage.
    StageListing,
    /// A register.
    Register,
}

/// A new party.
fn party(alloc: Global, body: &[u8]) -> Result<Request, RequestFault>
    ensures { RoutesAs result (Some (party_in body.now)) }
{
    let value = object(alloc, body, 3)?;
    let name = text_at(alloc, &value, "name")?;
    let role = word_at::<Role>(&value, "role")?;
    let token = token_at(alloc, &value, "token")?;
    Ok(Request::AddParty { name, role, token })
}

/// A new parcel.
fn parcel(alloc: Global, body: &[u8]) -> Result<Request, RequestFault>
    ensures { RoutesAs result (Some (parcel_in body.now)) }
{
    let value = object(alloc, body, 3)?;
    let lot = lot_at(alloc, &value, "lot")?;
    let address = text_at(alloc, &value, "address")?;
    let owner = party_at(&value, "owner")?;
    Ok(Request::AddParcel {
        lot,
        address,
        owner,
    })
}

/// A filing.
fn filing(alloc: Global, body: &[u8]) -> Result<Request, RequestFault>
    ensures { RoutesAs result (Some (filing_in body.now)) }
{
    let value = object(alloc, body, 4)?;
    let parcel = parcel_at(&value, "parcel")?;
    let kind = word_at::<Kind>(&value, "kind")?;
    let valuation = cents_at(&value, "valuation")?;
    let description = text_at(alloc, &value, "description")?;
    Ok(Request::File {
        parcel,
        kind,
        valuation,
        description,
    })
}

/// A transfer of a parcel.
fn transfer(alloc: Global, parcel: ParcelId, body: &[u8]) -> Result<Request, RequestFault>
    ensures { RoutesAs result (Some (transfer_in parcel body.now)) }
{
    let value = object(alloc, body, 1)?;
    let to = party_at(&value, "to")?;
    Ok(Request::Transfer { parcel, to })
}

/// The request that a body without keys makes.
fn without_keys(alloc: Global, request: Request, body: &[u8]) -> Result<Request, RequestFault>
    ensures { RoutesAs result (Some (without_keys request body.now)) }
{
    object(alloc, body, 0)?;
    Ok(request)
}

/// The request that reads, which has no body.
fn without_body(request: Request, body: &[u8]) -> Result<Request, RequestFault>
    ensures { RoutesAs result (Some (without_body request body.now)) }
{
    if body.is_empty() {
        Ok(request)
    } else {
        Err(RequestFault::Body)
    }
}

/// The request of an action on a parcel. Any but its transfer and a declaration has no route.
fn on_parcel(
    alloc: Global,
    parcel: ParcelId,
    action: Action,
    body: &[u8],
) -> Result<Request, RequestFault>
    ensures { RoutesAs result (on_parcel parcel action body.now) }
{
    match action {
        Action::Transfer => transfer(alloc, parcel, body),
        Action::Declare => without_keys(alloc, Request::Declare { parcel }, body),
        _ => Err(RequestFault::Route),
    }
}

/// The request of an action on a file. Any but the 22 commands has no route.
fn on_file(
    alloc: Global,
    file: FileId,
    action: Action,
    body: &[u8],
) -> Result<Request, RequestFault>
    ensures { RoutesAs result (on_file file action body.now) }
{
    if !is_command(action) {
        return Err(RequestFault::Route);
    }
    let command = command(alloc, action, body)?;
    Ok(Request::OnFile { file, command })
}

/// The request of an endpoint with these parameters and a body. An id or a word that is none has no route.
pub fn request_with(
    alloc: Global,
    endpoint: Endpoint,
    params: &Params<'_, '_>,
    body: &[u8],
) -> Result<Request, RequestFault>
    requires text { IsAscii params.now.text.now }
    requires path { IsAscii params.now.path.now }
    ensures { RoutesAs result (request_with endpoint (walk params.now.pattern.now params.now.text.now params.now.path.now params.now.names.now 0 0) body.now) }
{
    match endpoint {
        Endpoint::Parties => party(alloc, body),
        Endpoint::Parcels => parcel(alloc, body),
        Endpoint::ParcelAction => {
            let parcel = parcel_of(params).ok_or(RequestFault::Route)?;
            let action = action_of(params).ok_or(RequestFault::Route)?;
            on_parcel(alloc, parcel, action, body)
        }
        Endpoint::Parcel => {
            let parcel = parcel_of(params).ok_or(RequestFault::Route)?;
            without_body(Request::ReadParcel { parcel }, body)
        }
        Endpoint::Files => filing(alloc, body),
        Endpoint::FileAction => {
            let file = file_of(params).ok_or(RequestFault::Route)?;
            let action = action_of(params).ok_or(RequestFault::Route)?;
            on_file(alloc, file, action, body)
        }
        Endpoint::File => {
            let file = file_of(params).ok_or(RequestFault::Route)?;
            without_body(Request::ReadFile { file }, body)
        }
        Endpoint::Listing => without_body(
            Request::ListFiles {
                filter: Filter::All,
            },
            body,
        ),
        Endpoint::StageListing => {
            let filter = Filter::InStage(stage_of(params).ok_or(RequestFault::Route)?);
            without_body(Request::ListFiles { filter }, body)
        }
        Endpoint::Register => {
            let kind = register_of(params).ok_or(RequestFault::Route)?;
            without_body(Request::Register { kind }, body)
        }
    }
}
