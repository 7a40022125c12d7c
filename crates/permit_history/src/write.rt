//! Writing an entry's line.

ghost use Rattle.std.specs.Prelude.{◌≡◌, [], Some, IfOk, OnOk, IsTrue};
ghost use Rattle.serde.specs.Event.{Log};
ghost use Rattle.serde_json.specs.Data.{string, object, no_members};
ghost use Rattle.serde_json.specs.Events.{SendsValue, SendsMembers};
ghost use Rattle.serde_json.specs.Sent.{IsTextOf};
ghost use Rattle.permit_history.specs.LineRead.{reading_of};
ghost use Rattle.permit_history.specs.Within.{is_within};
ghost use Rattle.permit_history.specs.LineData.{count, only, term_body, stop_body, party_body, parcel_body, filing_body, founding_body, renewal_body, command_body, act_body, deed_body, members_after_body, line_data, line_of};

use crate::entry::{Act, Deed, Entry};
use crate::member::{put_count, put_number, put_text};
use crate::within::entry_within;
use permit_base::request::Command;
use permit_base::values::{Cents, Days, Digest, Lot, ParcelId, PartyId, Text};
use permit_base::words::{Kind, Role, Word};
use serde::{Described, Serialize, Serializer};
use std::alloc::{AllocError, Global};

/// Sends a body without members.
fn send_nothing<S: Serializer>(out: &mut S) -> Result<(), S::Error>
    ensures { OnOk result (SendsValue (object no_members) (S.written out.old) (S.written out.new)) }
{
    out.begin_map(Some(0))?;
    out.end_map()
}

/// Sends a body whose only member is a number.
fn send_count<S: Serializer>(out: &mut S, key: &str, number: u32) -> Result<(), S::Error>
    ensures { OnOk result (SendsValue (object (only key.now (count number))) (S.written out.old) (S.written out.new)) }
{
    out.begin_map(Some(1))?;
    put_count(out, key, u64::from(number))?;
    out.end_map()
}

/// Sends a body whose only member is a text.
fn send_text<S: Serializer>(out: &mut S, key: &str, text: &str) -> Result<(), S::Error>
    ensures { OnOk result (SendsValue (object (only key.now (string text.now))) (S.written out.old) (S.written out.new)) }
{
    out.begin_map(Some(1))?;
    put_text(out, key, text)?;
    out.end_map()
}

/// Sends a body of days and a text.
fn send_term<S: Serializer>(out: &mut S, days: Days, text: &Text) -> Result<(), S::Error>
    ensures { OnOk result (SendsValue (object (term_body days text.now)) (S.written out.old) (S.written out.new)) }
{
    out.begin_map(Some(2))?;
    put_count(out, "days", u64::from(days.get()))?;
    put_text(out, "text", text.as_str())?;
    out.end_map()
}

/// Sends the body of a stop order.
fn send_stop<S: Serializer>(out: &mut S, text: &Text, conditions: &Text) -> Result<(), S::Error>
    ensures { OnOk result (SendsValue (object (stop_body text.now conditions.now)) (S.written out.old) (S.written out.new)) }
{
    out.begin_map(Some(2))?;
    put_text(out, "conditions", conditions.as_str())?;
    put_text(out, "text", text.as_str())?;
    out.end_map()
}

/// Sends the body of a command on a file.
fn send_command<S: Serializer>(out: &mut S, command: &Command) -> Result<(), S::Error>
    ensures { OnOk result (SendsValue (object (command_body command.now)) (S.written out.old) (S.written out.new)) }
{
    match command {
        Command::AssignReviewer { party }
        | Command::AssignInspector { party }
        | Command::NameContractor { party } => send_count(out, "party", party.get()),
        Command::Return { text }
        | Command::Resubmit { text }
        | Command::Reject { text }
        | Command::RefuseExtension { text }
        | Command::Notice { text }
        | Command::Revoke { text } => send_text(out, "text", text.as_str()),
        Command::AskExtension { days, text } | Command::Temporary { days, text } => {
            send_term(out, *days, text)
        }
        Command::RequestInspection { step } | Command::ApproveStep { step } => {
            send_text(out, "step", step.word())
        }
        Command::ClearNotice { paper } => send_count(out, "paper", paper.get()),
        Command::Stop { text, conditions } => send_stop(out, text, conditions),
        Command::StartReview
        | Command::ApprovePlans
        | Command::Issue
        | Command::GrantExtension
        | Command::BeginWork
        | Command::Lift
        | Command::Certify => send_nothing(out),
    }
}

/// Sends the body of a new party.
fn send_party<S: Serializer>(
    out: &mut S,
    name: &Text,
    role: Role,
    digest: &Digest,
) -> Result<(), S::Error>
    ensures { OnOk result (SendsValue (object (party_body name.now role digest.now)) (S.written out.old) (S.written out.new)) }
{
    out.begin_map(Some(3))?;
    put_text(out, "digest", digest.as_str())?;
    put_text(out, "name", name.as_str())?;
    put_text(out, "role", role.word())?;
    out.end_map()
}

/// Sends the body of a new parcel.
fn send_parcel<S: Serializer>(
    out: &mut S,
    lot: &Lot,
    address: &Text,
    owner: PartyId,
) -> Result<(), S::Error>
    ensures { OnOk result (SendsValue (object (parcel_body lot.now address.now owner)) (S.written out.old) (S.written out.new)) }
{
    out.begin_map(Some(3))?;
    put_text(out, "address", address.as_str())?;
    put_text(out, "lot", lot.as_str())?;
    put_count(out, "owner", u64::from(owner.get()))?;
    out.end_map()
}

/// Sends the body of a filing.
fn send_filing<S: Serializer>(
    out: &mut S,
    parcel: ParcelId,
    kind: Kind,
    valuation: Cents,
    description: &Text,
) -> Result<(), S::Error>
    ensures { OnOk result (SendsValue (object (filing_body parcel kind valuation description.now)) (S.written out.old) (S.written out.new)) }
{
    out.begin_map(Some(4))?;
    put_text(out, "description", description.as_str())?;
    put_text(out, "kind", kind.word())?;
    put_count(out, "parcel", u64::from(parcel.get()))?;
    put_count(out, "valuation", valuation.get())?;
    out.end_map()
}

/// Sends the body of an accepted command.
fn send_act<S: Serializer>(out: &mut S, act: &Act) -> Result<(), S::Error>
    ensures { OnOk result (SendsValue (object (act_body act.now)) (S.written out.old) (S.written out.new)) }
{
    match act {
        Act::AddParty {
            name,
            role,
            digest,
            ..
        } => send_party(out, name, *role, digest),
        Act::AddParcel {
            lot,
            address,
            owner,
            ..
        } => send_parcel(out, lot, address, *owner),
        Act::Transfer { to, .. } => send_count(out, "to", to.get()),
        Act::Declare { .. } => send_nothing(out),
        Act::File {
            parcel,
            kind,
            valuation,
            description,
            ..
        } => send_filing(out, *parcel, *kind, *valuation, description),
        Act::OnFile { command, .. } => send_command(out, command),
    }
}

/// Sends the body of the founding.
fn send_founding<S: Serializer>(out: &mut S, name: &Text, digest: &Digest) -> Result<(), S::Error>
    ensures { OnOk result (SendsValue (object (founding_body name.now digest.now)) (S.written out.old) (S.written out.new)) }
{
    out.begin_map(Some(2))?;
    put_text(out, "digest", digest.as_str())?;
    put_text(out, "name", name.as_str())?;
    out.end_map()
}

/// Sends the body of another token.
fn send_renewal<S: Serializer>(out: &mut S, party: PartyId, digest: &Digest) -> Result<(), S::Error>
    ensures { OnOk result (SendsValue (object (renewal_body party digest.now)) (S.written out.old) (S.written out.new)) }
{
    out.begin_map(Some(2))?;
    put_text(out, "digest", digest.as_str())?;
    put_count(out, "party", u64::from(party.get()))?;
    out.end_map()
}

/// Sends the body of an entry.
fn send_body<S: Serializer>(out: &mut S, deed: &Deed) -> Result<(), S::Error>
    ensures { OnOk result (SendsValue (object (deed_body deed.now)) (S.written out.old) (S.written out.new)) }
{
    match deed {
        Deed::Begin { tables } => send_text(out, "tables", tables.as_str()),
        Deed::Found { name, digest } => send_founding(out, name, digest),
        Deed::Upgrade => send_nothing(out),
        Deed::RenewToken { party, digest } => send_renewal(out, *party, digest),
        Deed::Accepted { act, .. } => send_act(out, act),
    }
}

/// Sends the members after the body.
fn send_members_after_body<S: Serializer>(out: &mut S, entry: &Entry) -> Result<(), S::Error>
    ensures { OnOk result (SendsMembers (members_after_body entry.now) (S.written out.old) (S.written out.new)) }
{
    let deed = &entry.deed;
    put_count(out, "caller", u64::from(deed.caller()))?;
    put_count(out, "day", u64::from(entry.day.get()))?;
    put_text(out, "done", deed.word())?;
    put_number(out, "id", deed.id())?;
    put_number(out, "number", deed.number())?;
    out.end_map()
}

/// An entry that is sent.
#[derive(Drop)]
struct SentEntry<'e>(&'e Entry);

impl Described for SentEntry<'_> {
    ghost writes = { λ sent. SendsValue (line_data sent.0.now) };
}

impl Serialize for SentEntry<'_> {
    fn serialize<S: Serializer>(&self, out: &mut S) -> Result<(), S::Error> {
        let entry = self.0;
        out.begin_map(Some(6))?;
        out.key("body")?;
        send_body(out, &entry.deed)?;
        send_members_after_body(out, entry)
    }
}

/// The text of what is sent. The writer fails where memory is refused, and any failure counts as that.
fn text_of<T: Serialize>(alloc: Global, sent: &T) -> Result<Vec<u8>, AllocError>
    ensures { IfOk result (λ text. (log : Log) × T.writes sent.now (Some []) log × IsTextOf log text.items) }
{
    match serde_json::to_vec(alloc, sent) {
        Ok(text) => Ok(text),
        Err(_) => Err(AllocError),
    }
}

/// The line of an entry, without its LF: at most 20000 bytes. Where memory is refused there is none, and nothing has changed.
///
/// # Examples
///
/// ```
/// let (day, deed) = (Day::new(19700).ok_or("a day")?, Deed::Upgrade);
/// let line = write_line(alloc, &Entry { day, deed })?;
/// assert!(rt; line.as_slice().starts_with(b"{\"body\":{},"));
/// ```
pub fn write_line(alloc: Global, entry: &Entry) -> Result<Vec<u8>, AllocError>
    ensures line { IfOk result (λ text. text.items ≡ line_of entry.now) }

    // Reading it gives the entry.
    ensures read { IfOk result (λ text. reading_of text.items ≡ Ok entry.now) }
    ensures within { IsTrue (is_within entry.now) }
{
    entry_within(entry);
    text_of(alloc, &SentEntry(entry))
}
