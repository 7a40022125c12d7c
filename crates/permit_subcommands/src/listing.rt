//! Listings and registers of an office, with or without a history, over any store, and how a listing is printed.

ghost use Rattle.std.specs.Prelude.{◌≡◌, ◌≤◌, IfOk, string_bytes};
ghost use Rattle.permit_base.specs.Digests.{digest_of};
ghost use Rattle.permit_base.specs.declared.request.Request.TheVariants.{ListFiles, Register};
ghost use Rattle.permit_model.specs.Machine.{step_as};
ghost use Rattle.permit_office.specs.Opening.{rows_opened};
ghost use Rattle.permit_office.specs.Showing.{IsShowing, OpensAt};
ghost use Rattle.permit_office.specs.declared.reply.Reply.{Reply as TheReply};
ghost use Rattle.permit_office.specs.declared.showing.RowsEnd.{RowsEnd as TheEnd};
ghost use Rattle.permit_store.specs.Frames.{OverHistory};
ghost use Rattle.permit_wire.specs.Serving.{Steps};
ghost use Rattle.permit_subcommands.specs.Listings.{filter_of, listed, listing_text, Tells, Writes, WritesSome};

use crate::failure::Failure;
use crate::refused::Refused;
use permit_base::request::{Asked, FileStage, Filter, Request};
use permit_base::values::{Day, Token};
use permit_base::words::RegisterKind;
use permit_office::log::Log;
use permit_office::office::Office;
use permit_office::reply::{Listing, Reply};
use permit_office::showing::{RowsEnd, register_filter};
use permit_report::laws::written_registers;
use permit_report::{RegisterWriter, ReportError};
use permit_store::store::Store;
use std::alloc::{AllocError, Global};
use std::io::Write;

/// The listing that a reply holds, or its refusal.
fn listed(reply: Reply) -> Result<Listing, Failure>
    ensures { result ≡ listed reply }
{
    match reply {
        Reply::Listed(listing) => Ok(listing),
        Reply::Refused(why) => Err(Failure::Refused(Refused::from(why))),
        // The office gives no other reply to a request for a listing.
        _ => Err(Failure::memory()),
    }
}

/// The files of a stage, or all without one.
pub fn filter_of(stage: Option<FileStage>) -> Filter
    ensures { result ≡ filter_of stage }
{
    match stage {
        Some(stage) => Filter::InStage(stage),
        None => Filter::All,
    }
}

/// Lists the files of a filter, by one step of the office for the caller of the token. A refusal is the failure. Files that
/// the policy keeps from the caller are left out, which is no failure.
///
/// # Examples
///
/// ```
/// let Ok(listing) = list(office, token, Filter::All, day) else {
///     return Err(Fail::new("no listing"));
/// };
/// assert!(rt; listing_text(alloc, &listing)?.as_str() == "read 0\n");
/// ```
pub fn list<S: Store + Drop, L: Log + Drop>(
    office: &mut Office<S, L>,
    token: Token,
    filter: Filter,
    day: Day,
) -> Result<Listing, Failure>
    ensures step { (reply : TheReply) × (result ≡ listed reply)
        × Steps S.view L.Log day (record { token = token; request = ListFiles filter }) reply office.old office.new }
{
    let request = Request::ListFiles { filter };
    let reply = office.step(&Asked { token, request }, day);
    listed(reply)
}

/// Writes a register for the caller of the token, each line as the office hands its file out. The failure is the output's
/// where that failed, else the office's refusal; a prefix of the text is then written.
pub fn write_register<S: Store + Drop, L: Log + Drop, W: Write>(
    office: &mut Office<S, L>,
    token: Token,
    kind: RegisterKind,
    day: Day,
    out: &mut W,
) -> Result<(), Failure>
    ensures text { OverHistory (S.view office.old.store) (S.view office.new.store) (λ h.
        Writes day (W.contents out.old) (W.contents out.new) (step_as office.old.policy h (digest_of token) (Register kind) day).reply result) }
    ensures some { WritesSome kind day (W.contents out.old) (W.contents out.new) result }
    ensures ends { (end : TheEnd) × Tells end result × IsShowing (S.view office.old.store) (S.view office.new.store) end
        × OverHistory (S.view office.old.store) (S.view office.new.store) (λ h. OpensAt (rows_opened office.old.policy h (digest_of token) (Register kind) day)
        end (S.view office.old.store).handed (S.view office.new.store).handed) }
    ensures policy { office.new.policy ≡ office.old.policy }
    ensures log { office.new.log ≡ office.old.log }
{
    written_registers::<W>();
    let mut writer = RegisterWriter::new(kind, day, out);
    match office.rows(&token, day, register_filter(kind), &mut writer) {
        RowsEnd::All { .. } => match writer.finish() {
            Ok(()) => Ok(()),
            Err(ReportError::Write) => Err(Failure::Output),
        },
        RowsEnd::Stopped => Err(Failure::Output),
        RowsEnd::Refused(why) => Err(Failure::Refused(Refused::from(why))),
    }
}

/// The numbers of a listing's files, a line each, and how many rows were read for it.
pub fn listing_text(alloc: Global, listing: &Listing) -> Result<String, AllocError>
    ensures { IfOk result (λ text. string_bytes text ≡ listing_text listing.now.files.items listing.now.read) }
{
    let mut text = String::new(alloc);
    for file in &listing.files {
        let number = file.row.id.get();
        writeln!(text, "{number}")?;
    }
    let read = listing.read;
    writeln!(text, "read {read}")?;
    Ok(text)
}
