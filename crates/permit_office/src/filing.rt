//! New files.

ghost use Rattle.std.specs.Prelude.{◌≡◌, ◌≤◌, ◌==◌, Some, IsTrue, IfOk, find, is_some};
ghost use Rattle.permit_base.specs.declared.request.Request.TheVariants as request;
ghost use Rattle.permit_model.specs.Caller;
ghost use Rattle.permit_model.specs.History.{last_day};
ghost use Rattle.permit_model.specs.Parcels.{Parcel, parcel_numbered};
ghost use Rattle.permit_model.specs.Tables.{desk_of};
ghost use Rattle.permit_model.specs.Machine.{outcome_by_request, outcome_of_command};
ghost use Rattle.permit_model.specs.Sound.{IsSoundTables};
ghost use Rattle.permit_store.specs.Frames.{OverHistory, OverTables};
ghost use Rattle.permit_office.specs.Answers.{IsDecided, IsOwn};
ghost use Rattle.permit_office.specs.Decisions.{Decides, IsDeciding, IsProper, LeavesSound, replies, reply_for};
ghost use Rattle.permit_office.specs.Reach.{NoRow};
ghost use Rattle.permit_office.specs.Sound.{MayAct};

use crate::decision::{Decision, next_number, refused};
use crate::facts::facts_on_parcel;
use crate::within::filing_within;
use permit_base::refusal::Refusal;
use permit_base::values::{Cents, Day, ParcelId, PartyId, Text};
use permit_base::words::{Action, Kind, Stage};
use permit_core::state::FileState;
use permit_policy::Policy;
use permit_store::rows::{Change, Desk, Party};
use permit_store::store::{Got, Store};

/// Admits an application on a parcel that is there, and files it.
pub(crate) fn make_file<'a, S: Store>(
    store: &mut S,
    caller: PartyId,
    desk: &Desk,
    parcel: ParcelId,
    kind: Kind,
    valuation: Cents,
    description: &'a Text,
    day: Day,
) -> Got<Decision<'a>>
    ensures model { OverHistory (S.view store.old) (S.view store.new) (λ h. (land : Parcel) → parcel_numbered h parcel ≡ Some land
        → desk.now ≡ desk_of h → last_day h ≤ day → IsTrue (Caller.is_party h caller)
        → IfOk result (λ d. Decides day d (outcome_of_command h day caller (request.File parcel kind valuation description.now)) h)) }
    ensures sound { OverTables (S.view store.old) (S.view store.new) (λ t. IsTrue (is_some (find (λ p. p.id == parcel) t.parcels))
        → IsSoundTables t → desk.now ≡ t.desk → MayAct t caller day → IfOk result (LeavesSound day t)) }
    ensures deciding { IsDeciding NoRow (S.view store.old) (S.view store.new) (replies result) }
    ensures proper { IfOk result (IsProper caller) }
    ensures decided { IfOk result (λ d. IsDecided (reply_for d)) }
{
    let number = match next_number(desk.files) {
        Ok(number) => number,
        Err(reason) => return Ok(refused(Refusal::NotAdmitted(reason))),
    };
    filing_within(valuation, description);
    let state = FileState::file(caller, parcel, kind, desk.edition, day);
    let change = Change::NewFile {
        state,
        valuation,
        description,
    };
    Ok(Decision::Admitted {
        caller,
        number,
        change,
    })
}

/// Files an application.
pub(crate) fn file<'a, S: Store>(
    store: &mut S,
    policy: &Policy,
    caller: &Party,
    desk: &Desk,
    parcel: ParcelId,
    kind: Kind,
    valuation: Cents,
    description: &'a Text,
    day: Day,
) -> Got<Decision<'a>>
    ensures model { OverHistory (S.view store.old) (S.view store.new) (λ h.
        desk.now ≡ desk_of h
        → last_day h ≤ day → IsTrue (Caller.is_party h caller.now.id)
        → IfOk result (λ d. Decides day d (outcome_by_request policy.now h day caller.now (request.File parcel kind valuation description.now)) h)) }
    ensures sound { OverTables (S.view store.old) (S.view store.new) (λ t. IsSoundTables t → desk.now ≡ t.desk → MayAct t caller.now.id day
        → IfOk result (LeavesSound day t)) }
    ensures deciding { IsDeciding NoRow (S.view store.old) (S.view store.new) (replies result) }
    ensures proper { IfOk result (IsProper caller.now.id) }
{
    let Some(owner) = store.owner(parcel)? else {
        return Ok(refused(Refusal::Record));
    };
    let facts = facts_on_parcel(store, caller, parcel, owner, Stage::New, Action::File)?;
    if let Some(name) = policy.denial(&facts) {
        return Ok(refused(Refusal::Denied(name)));
    }
    make_file(
        store,
        caller.id,
        desk,
        parcel,
        kind,
        valuation,
        description,
        day,
    )
}
