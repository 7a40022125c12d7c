//! The entries of a history's text. A value of these types is within its limits by its type.

ghost use Rattle.std.specs.Prelude.{◌≡◌};
ghost use Rattle.permit_history.specs.LineData.{act_action, done_word, caller_in, id_in, number_in};

use permit_base::request::Command;
use permit_base::values::{Cents, Day, Digest, FileId, Lot, PaperNumber, ParcelId, PartyId, Text};
use permit_base::words::{Action, Kind, Role, Word};

/// One entry of a history: what was done, and the day.
#[derive(Drop)]
pub struct Entry {
    pub day: Day,
    pub deed: Deed,
}

/// What an entry records. All but the last are no command, and nobody's.
#[derive(Drop)]
pub enum Deed {
    /// A text begins here, with an office that was there already: its tables have a text of this digest.
    Begin { tables: Digest },
    /// The office was founded, by its first party, an official.
    Found { name: Text, digest: Digest },
    /// The second edition of the inspections was adopted.
    Upgrade,
    /// The party has another token from here on, of this digest.
    RenewToken { party: PartyId, digest: Digest },
    /// A command of the caller was accepted.
    Accepted { caller: PartyId, act: Act },
}

/// An accepted command, with the number of what it made.
#[derive(Drop)]
pub enum Act {
    /// A new party, with the digest of its token.
    AddParty {
        name: Text,
        role: Role,
        digest: Digest,
        number: PartyId,
    },
    /// A new parcel, with its lot's number, its address and its owner.
    AddParcel {
        lot: Lot,
        address: Text,
        owner: PartyId,
        number: ParcelId,
    },
    /// The parcel got another owner.
    Transfer {
        parcel: ParcelId,
        to: PartyId,
    },
    /// The caller declared an interest in the parcel.
    Declare {
        parcel: ParcelId,
    },
    /// An application; its caller is the applicant.
    File {
        parcel: ParcelId,
        kind: Kind,
        valuation: Cents,
        description: Text,
        number: FileId,
    },
    /// A command on a file, with the number of the paper that it made, if it made one.
    OnFile {
        file: FileId,
        command: Command,
        number: Option<PaperNumber>,
    },
}

impl Act {
    /// The action of the command: a party of the role public is added by add-party, one of another role by add-staff.
    pub fn action(&self) -> Action
        ensures { result ≡ act_action self.now }
    {
        match self {
            Act::AddParty { role, .. } => match role {
                Role::Public => Action::AddParty,
                Role::Clerk | Role::Reviewer | Role::Inspector | Role::Official => Action::AddStaff,
            },
            Act::AddParcel { .. } => Action::AddParcel,
            Act::Transfer { .. } => Action::Transfer,
            Act::Declare { .. } => Action::Declare,
            Act::File { .. } => Action::File,
            Act::OnFile { command, .. } => command.action(),
        }
    }
}

impl Deed {
    /// The word of what was done.
    pub fn word(&self) -> &'static str
        ensures { result.now ≡ done_word self.now }
    {
        match self {
            Deed::Begin { .. } => "begin",
            Deed::Found { .. } => "found",
            Deed::Upgrade => "upgrade",
            Deed::RenewToken { .. } => "renew-token",
            Deed::Accepted { act, .. } => act.action().word(),
        }
    }

    /// The number of the caller, or 0 where it is no command.
    pub fn caller(&self) -> u32
        ensures { result ≡ caller_in self.now }
    {
        match self {
            Deed::Begin { .. } | Deed::Found { .. } | Deed::Upgrade | Deed::RenewToken { .. } => 0,
            Deed::Accepted { caller, .. } => caller.get(),
        }
    }

    /// The number of the parcel or file that a request's path names, if it names one.
    pub fn id(&self) -> Option<u32>
        ensures { result ≡ id_in self.now }
    {
        match self {
            Deed::Accepted { act, .. } => match act {
                Act::Transfer { parcel, .. } | Act::Declare { parcel } => Some(parcel.get()),
                Act::OnFile { file, .. } => Some(file.get()),
                Act::AddParty { .. } | Act::AddParcel { .. } | Act::File { .. } => None,
            },
            Deed::Begin { .. } | Deed::Found { .. } | Deed::Upgrade | Deed::RenewToken { .. } => {
                None
            }
        }
    }

    /// The number of the party, parcel, file or paper that was made, if one was. The founder is party 1.
    pub fn number(&self) -> Option<u32>
        ensures { result ≡ number_in self.now }
    {
        match self {
            Deed::Found { .. } => Some(1),
            Deed::Begin { .. } | Deed::Upgrade | Deed::RenewToken { .. } => None,
            Deed::Accepted { act, .. } => match act {
                Act::AddParty { number, .. } => Some(number.get()),
                Act::AddParcel { number, .. } => Some(number.get()),
                Act::File { number, .. } => Some(number.get()),
                Act::OnFile { number, .. } => number.map(|paper| paper.get()),
                Act::Transfer { .. } | Act::Declare { .. } => None,
            },
        }
    }
}
