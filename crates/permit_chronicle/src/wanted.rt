//! Which entries are wanted.

ghost use Rattle.std.specs.Prelude.{◌≡◌};
ghost use Rattle.permit_chronicle.specs.Wanted.{act_has_file, act_has_parcel, act_has_party, command_has_party, has_file, has_parcel, has_party, is_wanted};

use permit_base::request::Command;
use permit_base::values::{Day, FileId, ParcelId, PartyId};
use permit_history::entry::{Act, Deed, Entry};

/// Which entries are wanted: those of which all holds that is given here. With nothing given, each entry is wanted.
#[derive(Clone, Copy)]
pub struct Wanted {
    /// From this day on.
    pub since: Option<Day>,
    /// Entries that made this file, or did something to it.
    pub file: Option<FileId>,
    /// Entries that added this parcel, gave it away, declared an interest in it, or filed for it.
    pub parcel: Option<ParcelId>,
    /// Entries of this party, and those that name it.
    pub party: Option<PartyId>,
}

fn act_has_file(file: FileId, act: &Act) -> bool
    ensures { result ≡ act_has_file file act.now }
{
    match act {
        Act::File { number, .. } => *number == file,
        Act::OnFile { file: named, .. } => *named == file,
        Act::AddParty { .. } | Act::AddParcel { .. } | Act::Transfer { .. } | Act::Declare { .. } =>
            false,
    }
}

/// Whether the file was made, or something was done to it.
fn has_file(file: FileId, deed: &Deed) -> bool
    ensures { result ≡ has_file file deed.now }
{
    match deed {
        Deed::Begin { .. } | Deed::Found { .. } | Deed::Upgrade | Deed::RenewToken { .. } => false,
        Deed::Accepted { act, .. } => act_has_file(file, act),
    }
}

fn act_has_parcel(parcel: ParcelId, act: &Act) -> bool
    ensures { result ≡ act_has_parcel parcel act.now }
{
    match act {
        Act::AddParcel { number, .. } => *number == parcel,
        Act::Transfer { parcel: named, .. }
        | Act::Declare { parcel: named }
        | Act::File { parcel: named, .. } => *named == parcel,
        Act::AddParty { .. } | Act::OnFile { .. } => false,
    }
}

/// Whether the parcel was made, given away, declared or built on.
fn has_parcel(parcel: ParcelId, deed: &Deed) -> bool
    ensures { result ≡ has_parcel parcel deed.now }
{
    match deed {
        Deed::Begin { .. } | Deed::Found { .. } | Deed::Upgrade | Deed::RenewToken { .. } => false,
        Deed::Accepted { act, .. } => act_has_parcel(parcel, act),
    }
}

fn command_has_party(party: PartyId, command: &Command) -> bool
    ensures { result ≡ command_has_party party command.now }
{
    match command {
        Command::AssignReviewer { party: named }
        | Command::AssignInspector { party: named }
        | Command::NameContractor { party: named } => *named == party,
        Command::StartReview
        | Command::Return { .. }
        | Command::Resubmit { .. }
        | Command::ApprovePlans
        | Command::Reject { .. }
        | Command::Issue
        | Command::AskExtension { .. }
        | Command::GrantExtension
        | Command::RefuseExtension { .. }
        | Command::BeginWork
        | Command::RequestInspection { .. }
        | Command::ApproveStep { .. }
        | Command::Notice { .. }
        | Command::ClearNotice { .. }
        | Command::Stop { .. }
        | Command::Lift
        | Command::Revoke { .. }
        | Command::Temporary { .. }
        | Command::Certify => false,
    }
}

fn act_has_party(party: PartyId, act: &Act) -> bool
    ensures { result ≡ act_has_party party act.now }
{
    match act {
        Act::AddParty { number, .. } => *number == party,
        Act::AddParcel { owner, .. } => *owner == party,
        Act::Transfer { to, .. } => *to == party,
        Act::OnFile { command, .. } => command_has_party(party, command),
        Act::Declare { .. } | Act::File { .. } => false,
    }
}

/// Whether the party did it, or is named in it. The founder is party 1.
fn has_party(party: PartyId, deed: &Deed) -> bool
    ensures { result ≡ has_party party deed.now }
{
    match deed {
        Deed::Found { .. } => 1 == party.get(),
        Deed::Begin { .. } | Deed::Upgrade => false,
        Deed::RenewToken { party: named, .. } => *named == party,
        Deed::Accepted { caller, act } => *caller == party || act_has_party(party, act),
    }
}

impl Wanted {
    /// Whether an entry is wanted.
    ///
    /// # Examples
    ///
    /// ```
    /// let all = Wanted {
    ///     since: None,
    ///     file: None,
    ///     parcel: None,
    ///     party: None,
    /// };
    /// let since = Some(day_behind);
    /// let later = Wanted { since, ..all };
    /// let deed = Deed::Upgrade;
    /// let upgrade = Entry { day, deed };
    /// assert!(rt; all.is_wanted(&upgrade) && !later.is_wanted(&upgrade));
    /// ```
    pub fn is_wanted(&self, entry: &Entry) -> bool
        ensures { result ≡ is_wanted self.now entry.now }
    {
        let deed = &entry.deed;
        self.since.is_none_or(|day| day <= entry.day)
            && self.file.is_none_or(|file| has_file(file, deed))
            && self.parcel.is_none_or(|parcel| has_parcel(parcel, deed))
            && self.party.is_none_or(|party| has_party(party, deed))
    }
}
