//! The paper that a command adds to a file.

ghost use Rattle.std.specs.Prelude.{◌≡◌, ◌+◌, [], Some, unwrap_or};
ghost use Rattle.std.specs.Option.{option_copied};
ghost use Rattle.permit_model.specs.Search.{when};
ghost use Rattle.permit_model.specs.Files.{CaseFile};
ghost use Rattle.permit_model.specs.Effects.{effects};
ghost use Rattle.permit_model.specs.Work;
ghost use Rattle.permit_model.specs.Work.{makes_paper};
ghost use Rattle.permit_model.specs.Machine;
ghost use Rattle.permit_model.specs.Tables;
ghost use Rattle.permit_model.specs.Tables.{state_of};
ghost use Rattle.permit_core.specs.RowAfter.{row_paper_days};

use crate::state::FileState;
use permit_base::request::Command;
use permit_base::values::Text;
use permit_base::words::PaperSort;

/// The sort of paper that a command makes, if it makes one.
pub fn paper_sort(command: &Command) -> Option<PaperSort>
    ensures { result ≡ Work.paper_sort command.now }
{
    match command {
        Command::Issue => Some(PaperSort::Permit),
        Command::Return { .. } => Some(PaperSort::Returned),
        Command::Resubmit { .. } => Some(PaperSort::Resubmitted),
        Command::Reject { .. } => Some(PaperSort::Rejected),
        Command::AskExtension { .. } => Some(PaperSort::Asked),
        Command::GrantExtension => Some(PaperSort::Granted),
        Command::RefuseExtension { .. } => Some(PaperSort::Refused),
        Command::Notice { .. } => Some(PaperSort::Notice),
        Command::Stop { .. } => Some(PaperSort::Stop),
        Command::Lift => Some(PaperSort::Lifted),
        Command::Revoke { .. } => Some(PaperSort::Revoked),
        Command::Temporary { .. } => Some(PaperSort::Temporary),
        Command::Certify => Some(PaperSort::Certificate),
        _ => None,
    }
}

/// The text of the paper that a command makes; a permit, a grant, a lift and a certificate have none.
pub fn paper_text(command: &Command) -> Option<&Text>
    ensures { unwrap_or (option_copied result) [] ≡ (effects command.now).text }
{
    match command {
        Command::Return { text }
        | Command::Resubmit { text }
        | Command::Reject { text }
        | Command::AskExtension { text, .. }
        | Command::RefuseExtension { text }
        | Command::Notice { text }
        | Command::Stop { text, .. }
        | Command::Revoke { text }
        | Command::Temporary { text, .. } => Some(text),
        _ => None,
    }
}

/// The conditions for resuming work that a stop work order states (IBC 2018, section 115); no other paper has any.
pub fn paper_terms(command: &Command) -> Option<&Text>
    ensures { unwrap_or (option_copied result) [] ≡ (effects command.now).terms }
{
    match command {
        Command::Stop { conditions, .. } => Some(conditions),
        _ => None,
    }
}

impl FileState {
    /// The number of the paper that a command on this file makes, if it makes one.
    pub fn paper_number(&self, command: &Command) -> Option<u32>
        ensures row { result ≡ when (makes_paper command.now) (self.now.papers + 1) }
        ensures model { (file : CaseFile) → self.now ≡ state_of file → result ≡ Machine.paper_number command.now (Some file) }
    {
        match paper_sort(command) {
            Some(_) => Some(self.papers() as u32 + 1),
            None => None,
        }
    }

    /// The days of the paper that a command on this file makes: those asked, granted or given, else 0.
    pub fn paper_days(&self, command: &Command) -> u32
        ensures row { result ≡ row_paper_days self.now command.now }
        ensures model { (file : CaseFile) → self.now ≡ state_of file → result ≡ Tables.paper_days command.now file.acts }
    {
        match command {
            Command::AskExtension { days, .. } | Command::Temporary { days, .. } => days.get(),
            Command::GrantExtension => match self.ask() {
                Some(days) => days.get(),
                None => 0,
            },
            _ => 0,
        }
    }
}
