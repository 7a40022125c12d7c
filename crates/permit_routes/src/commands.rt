//! The command on a file that an action and a body make.

ghost use Rattle.std.specs.Prelude.{◌≡◌};
ghost use Rattle.permit_routes.specs.Outcome.{ReadsAs, same};
ghost use Rattle.permit_routes.specs.Commands.{party_in, text_alone, step_in, paper_in, days_and_text, text_and_conditions, bare_command};
ghost use Rattle.permit_routes.specs.Commands.{text_command, command_of};

use crate::document::{days_at, object, paper_at, party_at, text_at, word_at};
use crate::fault::RequestFault;
use permit_base::request::Command;
use permit_base::values::{Days, PaperNumber, PartyId, Text};
use permit_base::words::{Action, Step};
use std::alloc::Global;

/// A body whose only key is `party`.
fn party_in(alloc: Global, body: &[u8]) -> Result<PartyId, RequestFault>
    ensures { ReadsAs same result (party_in body.now) }
{
    let value = object(alloc, body, 1)?;
    party_at(&value, "party")
}

/// A body whose only key is `text`.
fn text_alone(alloc: Global, body: &[u8]) -> Result<Text, RequestFault>
    ensures { ReadsAs same result (text_alone body.now) }
{
    let value = object(alloc, body, 1)?;
    text_at(alloc, &value, "text")
}

/// A body whose only key is `step`.
fn step_in(alloc: Global, body: &[u8]) -> Result<Step, RequestFault>
    ensures { ReadsAs same result (step_in body.now) }
{
    let value = object(alloc, body, 1)?;
    word_at(&value, "step")
}

/// A body whose only key is `paper`.
fn paper_in(alloc: Global, body: &[u8]) -> Result<PaperNumber, RequestFault>
    ensures { ReadsAs same result (paper_in body.now) }
{
    let value = object(alloc, body, 1)?;
    paper_at(&value, "paper")
}

/// A body of the keys `days` and `text`.
fn days_and_text(alloc: Global, body: &[u8]) -> Result<(Days, Text), RequestFault>
    ensures { ReadsAs same result (days_and_text body.now) }
{
    let value = object(alloc, body, 2)?;
    let days = days_at(&value, "days")?;
    let text = text_at(alloc, &value, "text")?;
    Ok((days, text))
}

/// A body of the keys `text` and `conditions`.
fn text_and_conditions(alloc: Global, body: &[u8]) -> Result<(Text, Text), RequestFault>
    ensures { ReadsAs same result (text_and_conditions body.now) }
{
    let value = object(alloc, body, 2)?;
    let text = text_at(alloc, &value, "text")?;
    let conditions = text_at(alloc, &value, "conditions")?;
    Ok((text, conditions))
}

/// The command of an action that has no keys. It names every action, since each that `command` and `text_command` don't
/// name comes here.
fn bare_command(action: Action) -> Option<Command>
    ensures { result ≡ bare_command action }
{
    match action {
        Action::StartReview => Some(Command::StartReview),
        Action::ApprovePlans => Some(Command::ApprovePlans),
        Action::Issue => Some(Command::Issue),
        Action::GrantExtension => Some(Command::GrantExtension),
        Action::BeginWork => Some(Command::BeginWork),
        Action::Lift => Some(Command::Lift),
        Action::Certify => Some(Command::Certify),
        Action::AddParty
        | Action::AddStaff
        | Action::AddParcel
        | Action::Transfer
        | Action::Declare
        | Action::ReadParcel
        | Action::File
        | Action::Read
        | Action::List
        | Action::AssignReviewer
        | Action::AssignInspector
        | Action::NameContractor
        | Action::Return
        | Action::Resubmit
        | Action::Reject
        | Action::AskExtension
        | Action::RefuseExtension
        | Action::RequestInspection
        | Action::ApproveStep
        | Action::Notice
        | Action::ClearNotice
        | Action::Stop
        | Action::Revoke
        | Action::Temporary => None,
    }
}

/// The command of an action whose body has the key `text` alone, or no key.
fn text_command(alloc: Global, action: Action, body: &[u8]) -> Result<Command, RequestFault>
    ensures { ReadsAs same result (text_command action body.now) }
{
    match action {
        Action::Return => Ok(Command::Return {
            text: text_alone(alloc, body)?,
        }),
        Action::Resubmit => Ok(Command::Resubmit {
            text: text_alone(alloc, body)?,
        }),
        Action::Reject => Ok(Command::Reject {
            text: text_alone(alloc, body)?,
        }),
        Action::RefuseExtension => Ok(Command::RefuseExtension {
            text: text_alone(alloc, body)?,
        }),
        Action::Notice => Ok(Command::Notice {
            text: text_alone(alloc, body)?,
        }),
        Action::Revoke => Ok(Command::Revoke {
            text: text_alone(alloc, body)?,
        }),
        _ => {
            object(alloc, body, 0)?;
            bare_command(action).ok_or(RequestFault::Body)
        }
    }
}

/// The command that an action and a body make. An action that is no command on a file has none.
pub fn command(alloc: Global, action: Action, body: &[u8]) -> Result<Command, RequestFault>
    ensures { ReadsAs same result (command_of action body.now) }
{
    match action {
        Action::AssignReviewer => Ok(Command::AssignReviewer {
            party: party_in(alloc, body)?,
        }),
        Action::AssignInspector => Ok(Command::AssignInspector {
            party: party_in(alloc, body)?,
        }),
        Action::NameContractor => Ok(Command::NameContractor {
            party: party_in(alloc, body)?,
        }),
        Action::AskExtension => {
            let (days, text) = days_and_text(alloc, body)?;
            Ok(Command::AskExtension { days, text })
        }
        Action::Temporary => {
            let (days, text) = days_and_text(alloc, body)?;
            Ok(Command::Temporary { days, text })
        }
        Action::RequestInspection => Ok(Command::RequestInspection {
            step: step_in(alloc, body)?,
        }),
        Action::ApproveStep => Ok(Command::ApproveStep {
            step: step_in(alloc, body)?,
        }),
        Action::ClearNotice => Ok(Command::ClearNotice {
            paper: paper_in(alloc, body)?,
        }),
        Action::Stop => {
            let (text, conditions) = text_and_conditions(alloc, body)?;
            Ok(Command::Stop { text, conditions })
        }
        _ => text_command(alloc, action, body),
    }
}
