//! Commands once more, for the history.

ghost use Rattle.std.specs.Prelude.{◌≡◌, IfOk};

use permit_base::request::Command;
use std::alloc::AllocError;

/// The command once more.
pub(crate) fn copied(command: &Command) -> Result<Command, AllocError>
    ensures { IfOk result (λ copy. copy ≡ command.now) }
{
    Ok(match command {
        Command::AssignReviewer { party } => Command::AssignReviewer { party: *party },
        Command::AssignInspector { party } => Command::AssignInspector { party: *party },
        Command::NameContractor { party } => Command::NameContractor { party: *party },
        Command::StartReview => Command::StartReview,
        Command::Return { text } => Command::Return {
            text: text.clone()?,
        },
        Command::Resubmit { text } => Command::Resubmit {
            text: text.clone()?,
        },
        Command::ApprovePlans => Command::ApprovePlans,
        Command::Reject { text } => Command::Reject {
            text: text.clone()?,
        },
        Command::Issue => Command::Issue,
        Command::AskExtension { days, text } => Command::AskExtension {
            days: *days,
            text: text.clone()?,
        },
        Command::GrantExtension => Command::GrantExtension,
        Command::RefuseExtension { text } => Command::RefuseExtension {
            text: text.clone()?,
        },
        Command::BeginWork => Command::BeginWork,
        Command::RequestInspection { step } => Command::RequestInspection { step: *step },
        Command::ApproveStep { step } => Command::ApproveStep { step: *step },
        Command::Notice { text } => Command::Notice {
            text: text.clone()?,
        },
        Command::ClearNotice { paper } => Command::ClearNotice { paper: *paper },
        Command::Stop { text, conditions } => {
            let text = text.clone()?;
            Command::Stop {
                text,
                conditions: conditions.clone()?,
            }
        }
        Command::Lift => Command::Lift,
        Command::Revoke { text } => Command::Revoke {
            text: text.clone()?,
        },
        Command::Temporary { days, text } => Command::Temporary {
            days: *days,
            text: text.clone()?,
        },
        Command::Certify => Command::Certify,
    })
}
