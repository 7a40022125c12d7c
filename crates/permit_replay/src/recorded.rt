//! The command of an entry, as the office takes it.

ghost use Rattle.std.specs.Prelude.{◌≡◌, ℕ, List};
ghost use Rattle.permit_office.specs.Accepting.{MayHave, request_of};
ghost use Rattle.permit_replay.specs.Histories.{HasTokenIn, new_token, request_by};

use permit_history::entry::Act;
use permit_office::accepting::Recorded;

/// The command of an entry, as the office takes it.
pub(crate) fn recorded(act: &Act) -> Recorded<'_>
    ensures asks { (token_of : List ℕ → List ℕ) → request_of (new_token token_of act.now) result ≡ request_by token_of act.now }
    ensures token { (token_of : List ℕ → List ℕ) → HasTokenIn token_of act.now → MayHave (new_token token_of act.now) result }
{
    match act {
        Act::AddParty {
            name,
            role,
            digest,
            number: _,
        } => Recorded::NewParty {
            name,
            role: *role,
            digest,
        },
        Act::AddParcel {
            lot,
            address,
            owner,
            number: _,
        } => Recorded::NewParcel {
            lot,
            address,
            owner: *owner,
        },
        Act::Transfer { parcel, to } => Recorded::Transfer {
            parcel: *parcel,
            to: *to,
        },
        Act::Declare { parcel } => Recorded::Declare { parcel: *parcel },
        Act::File {
            parcel,
            kind,
            valuation,
            description,
            number: _,
        } => Recorded::File {
            parcel: *parcel,
            kind: *kind,
            valuation: *valuation,
            description,
        },
        Act::OnFile {
            file,
            command,
            number: _,
        } => Recorded::OnFile {
            file: *file,
            command,
        },
    }
}
