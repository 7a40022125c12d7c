//! Reading a line.

ghost use Rattle.std.specs.Prelude.{◌≡◌, IfOk, IsTrue, option_map};
ghost use Rattle.std.specs.Str.{is_utf8};
ghost use Rattle.serde_json.specs.View.{view};
ghost use Rattle.serde_json.specs.Read.{read};
ghost use Rattle.permit_base.specs.Limits.{only_if};
ghost use Rattle.permit_history.specs.Fields.{said};
ghost use Rattle.permit_history.specs.LineData.{line_of};
ghost use Rattle.permit_history.specs.LineRead.{term_in, stop_in, bare_command, text_command_in, command_in, party_in, parcel_in, transfer_in, filing_in, on_file_in, act_in, accepted_in, founding_in, renewal_in, beginning_in, deed_in, entry_in, reading_of};
ghost use Rattle.permit_history.specs.Within.{is_within};
ghost use Rattle.permit_history.specs.Outcome.{ReadsAs, same, SaysAs, IsUnlessMemory};

use crate::entry::{Act, Deed, Entry};
use crate::fault::LineFault;
use crate::fields::*;
use crate::write::write_line;
use permit_base::request::Command;
use permit_base::values::{Days, Text};
use permit_base::words::{Action, Word};
use serde_json::Value;
use std::alloc::Global;

/// The most bytes of a line, without its LF.
pub const LONGEST_LINE: usize = 20000;

/// A body's days and text.
fn term(alloc: Global, body: &Value) -> Result<(Days, Text), LineFault>
    ensures { ReadsAs same result (term_in (view body.now)) }
{
    let days = days_at(body, "days")?;
    let text = text_at(alloc, body, "text")?;
    Ok((days, text))
}

/// A stop order.
fn stop(alloc: Global, body: &Value) -> Result<Command, LineFault>
    ensures { ReadsAs same result (stop_in (view body.now)) }
{
    let text = text_at(alloc, body, "text")?;
    let conditions = text_at(alloc, body, "conditions")?;
    Ok(Command::Stop { text, conditions })
}

/// The command of an action that has no members in its body. It names every action, since each that `command` and
/// `text_command` don't name comes here.
fn bare_command(action: Action) -> Option<Command>
    ensures { result ≡ bare_command action }
{
    match action {
        Action::StartReview => Some(Command::StartReview),
        Action::ApprovePlans => Some(Command::ApprovePlans),
        Action::Issue => Some(Command::Issue),
        Action::GrantExtension => Some(Command::GrantExtension),
        Action::BeginWork => Some(Command::BeginWork),
        Action::Lift => Some(Command::Lift),
        Action::Certify => Some(Command::Certify),
        Action::AddParty
        | Action::AddStaff
        | Action::AddParcel
        | Action::Transfer
        | Action::Declare
        | Action::ReadParcel
        | Action::File
        | Action::Read
        | Action::List
        | Action::AssignReviewer
        | Action::AssignInspector
        | Action::NameContractor
        | Action::Return
        | Action::Resubmit
        | Action::Reject
        | Action::AskExtension
        | Action::RefuseExtension
        | Action::RequestInspection
        | Action::ApproveStep
        | Action::Notice
        | Action::ClearNotice
        | Action::Stop
        | Action::Revoke
        | Action::Temporary => None,
    }
}

/// The command of an action whose body has the member `text`, or none.
fn text_command(alloc: Global, action: Action, body: &Value) -> Result<Command, LineFault>
    ensures { ReadsAs same result (text_command_in action (view body.now)) }
{
    match action {
        Action::Return => Ok(Command::Return {
            text: text_at(alloc, body, "text")?,
        }),
        Action::Resubmit => Ok(Command::Resubmit {
            text: text_at(alloc, body, "text")?,
        }),
        Action::Reject => Ok(Command::Reject {
            text: text_at(alloc, body, "text")?,
        }),
        Action::RefuseExtension => Ok(Command::RefuseExtension {
            text: text_at(alloc, body, "text")?,
        }),
        Action::Notice => Ok(Command::Notice {
            text: text_at(alloc, body, "text")?,
        }),
        Action::Revoke => Ok(Command::Revoke {
            text: text_at(alloc, body, "text")?,
        }),
        _ => bare_command(action).ok_or(LineFault::Fields),
    }
}

/// The command on a file of an action and a body.
fn command(alloc: Global, action: Action, body: &Value) -> Result<Command, LineFault>
    ensures { ReadsAs same result (command_in action (view body.now)) }
{
    match action {
        Action::AssignReviewer => Ok(Command::AssignReviewer {
            party: party_at(body, "party")?,
        }),
        Action::AssignInspector => Ok(Command::AssignInspector {
            party: party_at(body, "party")?,
        }),
        Action::NameContractor => Ok(Command::NameContractor {
            party: party_at(body, "party")?,
        }),
        Action::AskExtension => {
            let (days, text) = term(alloc, body)?;
            Ok(Command::AskExtension { days, text })
        }
        Action::Temporary => {
            let (days, text) = term(alloc, body)?;
            Ok(Command::Temporary { days, text })
        }
        Action::RequestInspection => Ok(Command::RequestInspection {
            step: word_at(body, "step")?,
        }),
        Action::ApproveStep => Ok(Command::ApproveStep {
            step: word_at(body, "step")?,
        }),
        Action::ClearNotice => Ok(Command::ClearNotice {
            paper: paper_at(body, "paper")?,
        }),
        Action::Stop => stop(alloc, body),
        _ => text_command(alloc, action, body),
    }
}

/// A new party.
fn party(alloc: Global, line: &Value, body: &Value) -> Result<Act, LineFault>
    ensures { ReadsAs same result (party_in (view line.now) (view body.now)) }
{
    let name = text_at(alloc, body, "name")?;
    let role = word_at(body, "role")?;
    let digest = digest_at(body, "digest")?;
    let number = party_at(line, "number")?;
    Ok(Act::AddParty {
        name,
        role,
        digest,
        number,
    })
}

/// A new parcel.
fn parcel(alloc: Global, line: &Value, body: &Value) -> Result<Act, LineFault>
    ensures { ReadsAs same result (parcel_in (view line.now) (view body.now)) }
{
    let lot = lot_at(alloc, body, "lot")?;
    let address = text_at(alloc, body, "address")?;
    let owner = party_at(body, "owner")?;
    let number = parcel_at(line, "number")?;
    Ok(Act::AddParcel {
        lot,
        address,
        owner,
        number,
    })
}

/// A transfer of a parcel.
fn transfer(line: &Value, body: &Value) -> Result<Act, LineFault>
    ensures { ReadsAs same result (transfer_in (view line.now) (view body.now)) }
{
    let parcel = parcel_at(line, "id")?;
    let to = party_at(body, "to")?;
    Ok(Act::Transfer { parcel, to })
}

/// A filing.
fn filing(alloc: Global, line: &Value, body: &Value) -> Result<Act, LineFault>
    ensures { ReadsAs same result (filing_in (view line.now) (view body.now)) }
{
    let parcel = parcel_at(body, "parcel")?;
    let kind = word_at(body, "kind")?;
    let valuation = cents_at(body, "valuation")?;
    let description = text_at(alloc, body, "description")?;
    let number = file_at(line, "number")?;
    Ok(Act::File {
        parcel,
        kind,
        valuation,
        description,
        number,
    })
}

/// A command on a file.
fn on_file(alloc: Global, action: Action, line: &Value, body: &Value) -> Result<Act, LineFault>
    ensures { ReadsAs same result (on_file_in action (view line.now) (view body.now)) }
{
    let file = file_at(line, "id")?;
    let command = command(alloc, action, body)?;
    let number = paper_or_null_at(line, "number")?;
    Ok(Act::OnFile {
        file,
        command,
        number,
    })
}

/// The accepted command of an action, with its line and the body in it.
fn act(alloc: Global, action: Action, line: &Value, body: &Value) -> Result<Act, LineFault>
    ensures { ReadsAs same result (act_in action (view line.now) (view body.now)) }
{
    match action {
        Action::AddParty | Action::AddStaff => party(alloc, line, body),
        Action::AddParcel => parcel(alloc, line, body),
        Action::Transfer => transfer(line, body),
        Action::Declare => Ok(Act::Declare {
            parcel: parcel_at(line, "id")?,
        }),
        Action::File => filing(alloc, line, body),
        _ => on_file(alloc, action, line, body),
    }
}

/// An accepted command of a caller.
fn accepted(alloc: Global, word: &str, line: &Value, body: &Value) -> Result<Deed, LineFault>
    ensures { ReadsAs same result (accepted_in word.now (view line.now) (view body.now)) }
{
    let action = Action::read(word).ok_or(LineFault::Fields)?;
    let caller = party_at(line, "caller")?;
    let act = act(alloc, action, line, body)?;
    Ok(Deed::Accepted { caller, act })
}

/// A founding.
fn founding(alloc: Global, body: &Value) -> Result<Deed, LineFault>
    ensures { ReadsAs same result (founding_in (view body.now)) }
{
    let name = text_at(alloc, body, "name")?;
    let digest = digest_at(body, "digest")?;
    Ok(Deed::Found { name, digest })
}

/// Another token of a party.
fn renewal(body: &Value) -> Result<Deed, LineFault>
    ensures { ReadsAs same result (renewal_in (view body.now)) }
{
    let party = party_at(body, "party")?;
    let digest = digest_at(body, "digest")?;
    Ok(Deed::RenewToken { party, digest })
}

/// The deed that begins with an office that was there already.
fn beginning(body: &Value) -> Result<Deed, LineFault>
    ensures { ReadsAs same result (beginning_in (view body.now)) }
{
    let tables = digest_at(body, "tables")?;
    Ok(Deed::Begin { tables })
}

/// What was done, by its word.
fn deed(alloc: Global, word: &str, line: &Value, body: &Value) -> Result<Deed, LineFault>
    ensures { ReadsAs same result (deed_in word.now (view line.now) (view body.now)) }
{
    if word == "found" {
        founding(alloc, body)
    } else if word == "upgrade" {
        Ok(Deed::Upgrade)
    } else if word == "renew-token" {
        renewal(body)
    } else if word == "begin" {
        beginning(body)
    } else {
        accepted(alloc, word, line, body)
    }
}

/// The entry that a value says, by the members that the entry needs.
fn entry(alloc: Global, line: &Value) -> Result<Entry, LineFault>
    ensures { ReadsAs same result (entry_in (view line.now)) }
{
    let day = day_at(line, "day")?;
    let word = string_at(line, "done").ok_or(LineFault::Fields)?;
    let body = line.get("body").ok_or(LineFault::Fields)?;
    let deed = deed(alloc, word, line, body)?;
    Ok(Entry { day, deed })
}

/// The text of a line, where it is UTF-8.
fn text_in(line: &[u8]) -> Option<&str>
    ensures { option_map (λ s. s.now) result ≡ only_if is_utf8 line.now }
{
    match str::from_utf8(line) {
        Ok(text) => Some(text),
        Err(_) => None,
    }
}

/// What a text says as JSON.
fn value_of(alloc: Global, text: &str) -> Result<Value, LineFault>
    ensures { SaysAs view result (read text.now) }
{
    match Value::from_str(alloc, text) {
        Ok(value) => Ok(value),
        Err(error) => {
            if error.is_memory() {
                Err(LineFault::Memory)
            } else {
                Err(LineFault::Syntax)
            }
        }
    }
}

/// What a line says as JSON.
fn document(alloc: Global, line: &[u8]) -> Result<Value, LineFault>
    ensures { SaysAs view result (said line.now) }
{
    match text_in(line) {
        Some(text) => value_of(alloc, text),
        None => Err(LineFault::Syntax),
    }
}

/// The entry whose line these bytes are, without the LF.
///
/// A line is taken only where it is, byte for byte, what `write_line` gives for its entry. Where memory is refused, the
/// fault is `Memory`, whatever the line says.
///
/// # Examples
///
/// ```
/// let line = r#"{"body":{},"caller":0,"day":19700,"done":"upgrade","id":null,"number":null}"#;
/// let Ok(entry) = read_line(alloc, line.as_bytes()) else {
///     return Err(Fail::new("no entry"));
/// };
/// assert!(rt; entry.day.get() == 19700 && matches!(entry.deed, Deed::Upgrade));
/// assert!(rt; matches!(read_line(alloc, b"{}"), Err(LineFault::Fields)));
/// ```
pub fn read_line(alloc: Global, line: &[u8]) -> Result<Entry, LineFault>
    ensures exact { IsUnlessMemory result (reading_of line.now) }
    ensures line { IfOk result (λ entry. line_of entry ≡ line.now) }
    ensures within { IfOk result (λ entry. IsTrue (is_within entry)) }
{
    if line.len() > LONGEST_LINE {
        return Err(LineFault::Long);
    }
    let entry = entry(alloc, &document(alloc, line)?)?;
    if write_line(alloc, &entry)?.as_slice() == line {
        Ok(entry)
    } else {
        Err(LineFault::Form)
    }
}
