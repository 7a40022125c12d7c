//! The people about a command, which a file's row does not say.

ghost use Rattle.std.specs.Prelude.{◌≡◌};
ghost use Rattle.permit_core.specs.Naming;

use permit_base::request::Command;
use permit_base::values::{PaperNumber, PartyId};
use permit_base::words::Role;

/// The party that a command names, as the office knows it.
#[derive(Clone, Copy)]
pub struct NamedParty {
    /// The party's role.
    pub role: Role,
    /// Whether the party declared an interest in the file's parcel.
    pub has_interest: bool,
}

/// What the admission of a command needs to know beside the file's row.
#[derive(Clone, Copy)]
pub struct People {
    /// The party that the command names, where it names one that is there.
    pub named: Option<NamedParty>,
    /// The owner of the file's parcel.
    pub owner: Option<PartyId>,
    /// Whether the paper that a clearing names is an open notice of the file; a row that counts no open notice admits
    /// no clearing, whatever this says.
    pub is_open_notice: bool,
}

/// The party that a command names, if it names one.
pub fn named_party(command: &Command) -> Option<PartyId>
    ensures { result ≡ Naming.named_party command.now }
{
    match command {
        Command::AssignReviewer { party } => Some(*party),
        Command::AssignInspector { party } => Some(*party),
        Command::NameContractor { party } => Some(*party),
        _ => None,
    }
}

/// The paper that a command names, if it names one.
pub fn named_paper(command: &Command) -> Option<PaperNumber>
    ensures { result ≡ Naming.named_paper command.now }
{
    match command {
        Command::ClearNotice { paper } => Some(*paper),
        _ => None,
    }
}
