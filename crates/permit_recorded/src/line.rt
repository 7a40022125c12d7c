//! The line of a command in the history.

ghost use Rattle.std.specs.Prelude.{◌≡◌, Some, IfOk};
ghost use Rattle.permit_base.specs.declared.request.Request.TheVariants as request;
ghost use Rattle.permit_history.specs.Told.{act_told};
ghost use Rattle.permit_recorded.specs.Lines.{IsLineOf, whole_line_of};

use crate::copied::copied;
use permit_base::digests::digest;
use permit_base::request::{Command, Request};
use permit_base::values::{Cents, Day, FileId, Lot, PaperNumber, ParcelId, PartyId, Text, Token};
use permit_base::words::{Kind, Role};
use permit_history::entry::{Act, Deed, Entry};
use permit_history::write_line;
use permit_store::store::{Got, StoreError};
use std::alloc::{AllocError, Global};

/// What an office's call answers where there is no memory or no number.
fn stored<T: Drop>(found: Option<T>) -> Got<T>
    ensures { IfOk result (λ x. found ≡ Some x) }
{
    match found {
        Some(found) => Ok(found),
        None => Err(StoreError),
    }
}

/// The entry's command of a new party of this number.
fn new_party(name: &Text, role: Role, token: &Token, number: Option<u32>) -> Got<Act>
    ensures { IfOk result (λ act. act_told (request.AddParty name.now role token.now) number ≡ Some act) }
{
    let number = stored(number)?;
    let number = stored(PartyId::new(number))?;
    let Ok(digest) = digest(token) else {
        return Err(StoreError);
    };
    let Ok(name) = name.clone() else {
        return Err(StoreError);
    };
    Ok(Act::AddParty {
        name,
        role,
        digest,
        number,
    })
}

/// The entry's command of a new parcel of this number.
fn new_parcel(lot: &Lot, address: &Text, owner: PartyId, number: Option<u32>) -> Got<Act>
    ensures { IfOk result (λ act. act_told (request.AddParcel lot.now address.now owner) number ≡ Some act) }
{
    let number = stored(number)?;
    let number = stored(ParcelId::new(number))?;
    let Ok(lot) = lot.clone() else {
        return Err(StoreError);
    };
    let Ok(address) = address.clone() else {
        return Err(StoreError);
    };
    Ok(Act::AddParcel {
        lot,
        address,
        owner,
        number,
    })
}

/// The entry's command of an application of this number.
fn new_file(
    parcel: ParcelId,
    kind: Kind,
    valuation: Cents,
    description: &Text,
    number: Option<u32>,
) -> Got<Act>
    ensures { IfOk result (λ act. act_told (request.File parcel kind valuation description.now) number ≡ Some act) }
{
    let number = stored(number)?;
    let number = stored(FileId::new(number))?;
    let Ok(description) = description.clone() else {
        return Err(StoreError);
    };
    Ok(Act::File {
        parcel,
        kind,
        valuation,
        description,
        number,
    })
}

/// The number of a paper, if there is one.
fn paper_of(number: Option<u32>) -> Got<Option<PaperNumber>>
    ensures { IfOk result (λ paper. paper ≡ number) }
{
    let Some(number) = number else {
        return Ok(None);
    };
    let paper = stored(PaperNumber::new(number))?;
    Ok(Some(paper))
}

/// The entry's command on a file, which makes a paper of this number or none.
fn on_file(file: FileId, command: &Command, number: Option<u32>) -> Got<Act>
    ensures { IfOk result (λ act. act_told (request.OnFile file command.now) number ≡ Some act) }
{
    let number = paper_of(number)?;
    let Ok(command) = copied(command) else {
        return Err(StoreError);
    };
    Ok(Act::OnFile {
        file,
        command,
        number,
    })
}

/// The entry's command of a request that gives its record this number, if it makes one. A request that only reads has none.
fn act_of(request: &Request, number: Option<u32>) -> Got<Act>
    ensures { IfOk result (λ act. act_told request.now number ≡ Some act) }
{
    match request {
        Request::AddParty { name, role, token } => new_party(name, *role, token, number),
        Request::AddParcel {
            lot,
            address,
            owner,
        } => new_parcel(lot, address, *owner, number),
        Request::Transfer { parcel, to } => Ok(Act::Transfer {
            parcel: *parcel,
            to: *to,
        }),
        Request::Declare { parcel } => Ok(Act::Declare { parcel: *parcel }),
        Request::File {
            parcel,
            kind,
            valuation,
            description,
        } => new_file(*parcel, *kind, *valuation, description, number),
        Request::OnFile { file, command } => on_file(*file, command, number),
        Request::ReadParcel { .. }
        | Request::ReadFile { .. }
        | Request::ListFiles { .. }
        | Request::Register { .. } => Err(StoreError),
    }
}

/// The line of an entry, with its LF.
fn whole_line(alloc: Global, entry: Entry) -> Result<Vec<u8>, AllocError>
    ensures { IfOk result (λ line. line.items ≡ whole_line_of entry) }
{
    let mut line = write_line(alloc, &entry)?;
    line.push(b'\n')?;
    Ok(line)
}

/// The line of the caller's request on the day, with its LF, if it is done and gives its record this number. There is none of a
/// request that only reads: that is an error here, since such a request is never done.
pub(crate) fn line_of(
    alloc: Global,
    caller: PartyId,
    request: &Request,
    number: Option<u32>,
    day: Day,
) -> Got<Vec<u8>>
    ensures { IfOk result (λ line. IsLineOf caller request.now number day line.items) }
{
    let act = act_of(request, number)?;
    let deed = Deed::Accepted { caller, act };
    match whole_line(alloc, Entry { day, deed }) {
        Ok(line) => Ok(line),
        Err(AllocError) => Err(StoreError),
    }
}
