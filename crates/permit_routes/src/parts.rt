//! The parts that the parameters of a path took: the number of a parcel or a file, and the word of an action, a stage or
//! a register.

ghost use Rattle.std.specs.Prelude.{◌≡◌, ◌<◌, ◌≤◌, IfSome, option_map, IsAscii};
ghost use Rattle.std.specs.List.{list_all};
ghost use Rattle.std.specs.Char.{is_ascii_digit};
ghost use Rattle.matchit.specs.Params.{walk, named};
ghost use Rattle.permit_base.specs.Limits.{most_records};
ghost use Rattle.permit_routes.specs.Ids.{is_plain_number, id_in, starts_with_zero};
ghost use Rattle.permit_routes.specs.Parts.{id_of, action_of, stage_of, register_of, is_command};

use matchit::Params;
use permit_base::limits::MOST_RECORDS;
use permit_base::request::FileStage;
use permit_base::values::{FileId, ParcelId};
use permit_base::words::{Action, RegisterKind, Stage, Word};

/// What a parameter took of an ASCII path, under an ASCII route.
fn part<'p>(params: &Params<'_, 'p>, key: &str) -> Option<&'p str>
    requires text { IsAscii params.now.text.now }
    requires path { IsAscii params.now.path.now }
    ensures { option_map (λ s. s.now) result ≡ named key.now (walk params.now.pattern.now params.now.text.now params.now.path.now params.now.names.now 0 0) }
{
    params.get(key)
}

fn are_digits(word: &[u8]) -> bool
    ensures { result ≡ list_all is_ascii_digit word.now }
{
    word.iter().all(|b| b.is_ascii_digit())
}

fn starts_with_zero(word: &[u8]) -> bool
    ensures { result ≡ starts_with_zero word.now }
{
    matches!(word, [b'0', ..])
}

/// Whether these are digits without a leading zero.
fn is_plain_number(word: &str) -> bool
    ensures { result ≡ is_plain_number word.now }
{
    !word.is_empty() && are_digits(word.as_bytes()) && !starts_with_zero(word.as_bytes())
}

/// The number of a record that a word spells without leading zeros.
///
/// # Examples
///
/// ```
/// assert!(rt; id("99999") == Some(99999));
/// assert!(rt; id("0").is_none() && id("007").is_none() && id("100000").is_none());
/// ```
pub fn id(word: &str) -> Option<u32>
    ensures number { result ≡ id_in word.now }
    ensures within { IfSome result (λ n. (0 < n) × (n ≤ most_records)) }
{
    if !is_plain_number(word) {
        return None;
    }
    match word.parse::<u32>() {
        Ok(number) if 1 <= number && number <= MOST_RECORDS => Some(number),
        _ => None,
    }
}

/// The file that the parameter `id` names.
pub fn file_of(params: &Params<'_, '_>) -> Option<FileId>
    requires text { IsAscii params.now.text.now }
    requires path { IsAscii params.now.path.now }
    ensures { result ≡ id_of (walk params.now.pattern.now params.now.text.now params.now.path.now params.now.names.now 0 0) }
{
    FileId::new(id(part(params, "id")?)?)
}

/// The parcel that the parameter `id` names.
pub fn parcel_of(params: &Params<'_, '_>) -> Option<ParcelId>
    requires text { IsAscii params.now.text.now }
    requires path { IsAscii params.now.path.now }
    ensures { result ≡ id_of (walk params.now.pattern.now params.now.text.now params.now.path.now params.now.names.now 0 0) }
{
    ParcelId::new(id(part(params, "id")?)?)
}

/// The action that the parameter `action` names.
pub fn action_of(params: &Params<'_, '_>) -> Option<Action>
    requires text { IsAscii params.now.text.now }
    requires path { IsAscii params.now.path.now }
    ensures { result ≡ action_of (walk params.now.pattern.now params.now.text.now params.now.path.now params.now.names.now 0 0) }
{
    Action::read(part(params, "action")?)
}

/// The stage of a file that the parameter `stage` names.
pub fn stage_of(params: &Params<'_, '_>) -> Option<FileStage>
    requires text { IsAscii params.now.text.now }
    requires path { IsAscii params.now.path.now }
    ensures { result ≡ stage_of (walk params.now.pattern.now params.now.text.now params.now.path.now params.now.names.now 0 0) }
{
    FileStage::new(Stage::read(part(params, "stage")?)?)
}

/// The register that the parameter `name` names.
pub fn register_of(params: &Params<'_, '_>) -> Option<RegisterKind>
    requires text { IsAscii params.now.text.now }
    requires path { IsAscii params.now.path.now }
    ensures { result ≡ register_of (walk params.now.pattern.now params.now.text.now params.now.path.now params.now.names.now 0 0) }
{
    RegisterKind::read(part(params, "name")?)
}

/// Whether an action is one of the 22 commands on a file.
pub fn is_command(action: Action) -> bool
    ensures { result ≡ is_command action }
{
    match action {
        Action::AddParty
        | Action::AddStaff
        | Action::AddParcel
        | Action::Transfer
        | Action::Declare
        | Action::ReadParcel
        | Action::File
        | Action::Read
        | Action::List => false,
        Action::AssignReviewer
        | Action::AssignInspector
        | Action::NameContractor
        | Action::StartReview
        | Action::Return
        | Action::Resubmit
        | Action::ApprovePlans
        | Action::Reject
        | Action::Issue
        | Action::AskExtension
        | Action::GrantExtension
        | Action::RefuseExtension
        | Action::BeginWork
        | Action::RequestInspection
        | Action::ApproveStep
        | Action::Notice
        | Action::ClearNotice
        | Action::Stop
        | Action::Lift
        | Action::Revoke
        | Action::Temporary
        | Action::Certify => true,
    }
}
