//! What the types of an entry's values promise, said for contracts: functions with nothing to do.

ghost use Rattle.std.specs.Prelude.{IsTrue};
ghost use Rattle.permit_base.specs.Limits.{is_object_number, is_paper_number, is_day, is_days, is_cents};
ghost use Rattle.permit_base.specs.Texts.{is_lot, is_digest};
ghost use Rattle.permit_history.specs.Within.{is_text, is_command_within, is_paper_or_none, is_act_within, is_deed_within, is_within};

use crate::entry::{Act, Deed, Entry};
use permit_base::request::Command;
use permit_base::values::{Cents, Digest, FileId, PaperNumber, ParcelId, PartyId, Text};

/// A text is within its limits, and UTF-8.
fn text_within(text: &Text)
    ensures { IsTrue (is_text text.now) }
{
    let _ = text.as_str();
}

/// The number of a party is within its limits.
fn party_within(party: PartyId)
    ensures { IsTrue (is_object_number party) }
{
    let _ = party.get();
}

/// The number of a parcel is within its limits.
fn parcel_within(parcel: ParcelId)
    ensures { IsTrue (is_object_number parcel) }
{
    let _ = parcel.get();
}

/// The number of a file is within its limits.
fn file_within(file: FileId)
    ensures { IsTrue (is_object_number file) }
{
    let _ = file.get();
}

/// The number of a paper is within its limits, if there is one.
fn paper_within(paper: Option<PaperNumber>)
    ensures { IsTrue (is_paper_or_none paper) }
{
    match paper {
        Some(paper) => {
            let _ = paper.get();
        }
        None => {}
    }
}

/// A digest is within its limits.
fn digest_within(digest: &Digest)
    ensures { IsTrue (is_digest digest.now) }
{
    let _ = digest.as_str();
}

/// A command's values are within their limits.
fn command_within(command: &Command)
    ensures { IsTrue (is_command_within command.now) }
{
    match command {
        Command::AssignReviewer { party }
        | Command::AssignInspector { party }
        | Command::NameContractor { party } => party_within(*party),
        Command::Return { text }
        | Command::Resubmit { text }
        | Command::Reject { text }
        | Command::RefuseExtension { text }
        | Command::Notice { text }
        | Command::Revoke { text } => text_within(text),
        Command::AskExtension { days, text } | Command::Temporary { days, text } => {
            let _ = days.get();
            text_within(text);
        }
        Command::ClearNotice { paper } => paper_within(Some(*paper)),
        Command::Stop { text, conditions } => {
            text_within(text);
            text_within(conditions);
        }
        _ => {}
    }
}

/// A filing's values are within their limits.
fn filing_within(parcel: ParcelId, valuation: Cents, description: &Text, number: FileId)
    ensures parcel { IsTrue (is_object_number parcel) }
    ensures valuation { IsTrue (is_cents valuation) }
    ensures description { IsTrue (is_text description.now) }
    ensures number { IsTrue (is_object_number number) }
{
    parcel_within(parcel);
    let _ = valuation.get();
    text_within(description);
    file_within(number);
}

/// An accepted command's values are within their limits.
fn act_within(act: &Act)
    ensures { IsTrue (is_act_within act.now) }
{
    match act {
        Act::AddParty {
            name,
            digest,
            number,
            ..
        } => {
            text_within(name);
            digest_within(digest);
            party_within(*number);
        }
        Act::AddParcel {
            lot,
            address,
            owner,
            number,
        } => {
            let _ = lot.as_str();
            text_within(address);
            party_within(*owner);
            parcel_within(*number);
        }
        Act::Transfer { parcel, to } => {
            parcel_within(*parcel);
            party_within(*to);
        }
        Act::Declare { parcel } => parcel_within(*parcel),
        Act::File {
            parcel,
            valuation,
            description,
            number,
            ..
        } => filing_within(*parcel, *valuation, description, *number),
        Act::OnFile {
            file,
            command,
            number,
        } => {
            file_within(*file);
            command_within(command);
            paper_within(*number);
        }
    }
}

/// What was done is within its limits.
fn deed_within(deed: &Deed)
    ensures { IsTrue (is_deed_within deed.now) }
{
    match deed {
        Deed::Begin { tables } => digest_within(tables),
        Deed::Found { name, digest } => {
            text_within(name);
            digest_within(digest);
        }
        Deed::Upgrade => {}
        Deed::RenewToken { party, digest } => {
            party_within(*party);
            digest_within(digest);
        }
        Deed::Accepted { caller, act } => {
            party_within(*caller);
            act_within(act);
        }
    }
}

/// An entry is within its limits.
pub fn entry_within(entry: &Entry)
    ensures { IsTrue (is_within entry.now) }
{
    let _ = entry.day.get();
    deed_within(&entry.deed);
}
