//! An office whose history is recorded as it serves.

use permit_base::digests::digest;
use permit_base::request::{Asked, Request};
use permit_base::values::{Day, FileId, PaperNumber, ParcelId, PartyId};
use permit_history::entry::{Act, Deed, Entry};
use permit_history::write_line;
use permit_http::inbox::Inbox;
use permit_office::office::Office;
use permit_office::reply::Reply;
use permit_samples::ask::read_ask;
use permit_samples::exchange::request;
use permit_samples::makers::day;
use permit_samples::offices::{FOUNDED, founder, over_vectors};
use permit_samples::script::requests;
use permit_store::plain::PlainStore;
use permit_wire::read::read_request;
use std::alloc::Global;
use std::test::Fail;

/// An office over vectors, with the text of its history.
#[derive(Drop)]
pub struct Told {
    /// The office.
    pub office: Office<PlainStore>,
    /// The text so far.
    pub text: Vec<u8>,
}

/// Adds the line of what was done on the day.
fn tell(alloc: Global, text: &mut Vec<u8>, day: Day, deed: Deed) -> Result<(), Fail> {
    let line = write_line(alloc, &Entry { day, deed })?;
    text.extend_from_slice(line.as_slice())?;
    text.push(b'\n')?;
    Ok(())
}

/// The office after its founding, with the text of it.
pub fn founded(alloc: Global) -> Result<Told, Fail> {
    let mut text = Vec::new(alloc);
    let founder = founder(alloc)?;
    let first = day(FOUNDED)?;
    let (name, digest) = (founder.name.clone()?, founder.digest);
    tell(alloc, &mut text, first, Deed::Found { name, digest })?;
    tell(alloc, &mut text, first, Deed::Upgrade)?;
    Ok(Told {
        office: over_vectors(alloc)?,
        text,
    })
}

/// The accepted command of a request that made what has this number, or None of a request that only reads.
fn act_of(request: Request, made: Option<u32>) -> Result<Option<Act>, Fail> {
    let number = made.unwrap_or(0);
    Ok(Some(match request {
        Request::AddParty { name, role, token } => Act::AddParty {
            name,
            role,
            digest: digest(&token).ok().ok_or("a digest")?,
            number: PartyId::new(number).ok_or("a party")?,
        },
        Request::AddParcel {
            lot,
            address,
            owner,
        } => Act::AddParcel {
            lot,
            address,
            owner,
            number: ParcelId::new(number).ok_or("a parcel")?,
        },
        Request::Transfer { parcel, to } => Act::Transfer { parcel, to },
        Request::Declare { parcel } => Act::Declare { parcel },
        Request::File {
            parcel,
            kind,
            valuation,
            description,
        } => Act::File {
            parcel,
            kind,
            valuation,
            description,
            number: FileId::new(number).ok_or("a file")?,
        },
        Request::OnFile { file, command } => Act::OnFile {
            file,
            command,
            number: PaperNumber::new(number),
        },
        Request::ReadParcel { .. }
        | Request::ReadFile { .. }
        | Request::ListFiles { .. }
        | Request::Register { .. } => return Ok(None),
    }))
}

/// The request that a line of a script is; None where its bytes are none.
fn read(alloc: Global, line: &str) -> Result<Option<Asked>, Fail> {
    let bytes = request(alloc, &read_ask(line)?)?;
    let mut inbox = Inbox::new();
    let mut reader = bytes.as_str().as_bytes();
    match read_request(alloc, &mut inbox, &mut reader) {
        Ok(asked) => Ok(asked),
        Err(_) => Ok(None),
    }
}

/// The number of what a step made, if it was done: None where it wasn't, and Some None where it made nothing.
fn made_by(office: &mut Office<PlainStore>, asked: &Asked, on: Day) -> Option<Option<u32>> {
    match &office.step(asked, on) {
        Reply::Done { number } => Some(*number),
        _ => None,
    }
}

/// Records the request of a caller that was done on the day and made what has this number.
fn tell_done(
    alloc: Global,
    text: &mut Vec<u8>,
    on: Day,
    caller: Option<PartyId>,
    request: Request,
    number: Option<u32>,
) -> Result<(), Fail> {
    let Some(caller) = caller else {
        return Err("a party".into());
    };
    match act_of(request, number)? {
        Some(act) => tell(alloc, text, on, Deed::Accepted { caller, act }),
        None => Ok(()),
    }
}

/// The number of the caller of a line, or None where it names no party.
fn caller_of(line: &str) -> Option<PartyId> {
    let (caller, _) = line.split_once(' ')?;
    PartyId::new(caller.parse().ok()?)
}

/// Has the office serve the request, and records it where it was done.
fn serve_asked(
    alloc: Global,
    told: &mut Told,
    asked: Asked,
    on: Day,
    caller: Option<PartyId>,
) -> Result<(), Fail> {
    let done = made_by(&mut told.office, &asked, on);
    let Asked { request, token: _ } = asked;
    match done {
        Some(number) => tell_done(alloc, &mut told.text, on, caller, request, number),
        None => Ok(()),
    }
}

/// Has the office serve the request of a line, and records it where it was done.
fn serve(alloc: Global, told: &mut Told, line: &str) -> Result<(), Fail> {
    let caller = caller_of(line);
    let on = day(read_ask(line)?.day)?;
    match read(alloc, line)? {
        Some(asked) => serve_asked(alloc, told, asked, on, caller),
        None => Ok(()),
    }
}

/// Has the office serve the requests of a script, and records those that were done.
pub fn serve_script(alloc: Global, told: &mut Told, script: &str) -> Result<(), Fail> {
    for line in requests(alloc, script)? {
        serve(alloc, told, line)?;
    }
    Ok(())
}
