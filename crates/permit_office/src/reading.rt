//! Reads of one record.

ghost use Rattle.std.specs.Prelude.{◌≡◌, IfOk, true, false};
ghost use Rattle.permit_base.specs.declared.request.Request.TheVariants as request;
ghost use Rattle.permit_model.specs.History.{History};
ghost use Rattle.permit_model.specs.Tables.{Tables, tables};
ghost use Rattle.permit_model.specs.Machine.{outcome_by_request};
ghost use Rattle.permit_office.specs.Answers.{IsOwn};
ghost use Rattle.permit_office.specs.Decisions.{Decides, IsDeciding, IsProper, LeavesSound, replies, reply_for};
ghost use Rattle.permit_office.specs.Reach.{NoRow, OneRow};

use crate::decision::{Decision, refused};
use crate::facts::{facts_on_file, facts_on_parcel, owner_on};
use crate::reply::Reply;
use permit_base::refusal::Refusal;
use permit_base::values::{Day, FileId, ParcelId};
use permit_base::words::{Action, Stage};
use permit_policy::Policy;
use permit_store::rows::{FileView, Party};
use permit_store::store::{Got, Store};

/// Reads a file.
pub(crate) fn read_file<'a, S: Store>(
    store: &mut S,
    policy: &Policy,
    caller: &Party,
    file: FileId,
    day: Day,
) -> Got<Decision<'a>>
    ensures model { (S.view store.new).doubt ≡ 0 → (h : History) → (S.view store.old).holds (tables h)
        → IfOk result (λ d. Decides day d (outcome_by_request policy.now h day caller.now (request.ReadFile file)) h) }
    ensures sound { (t : Tables) → IfOk result (LeavesSound day t) }
    ensures deciding { IsDeciding OneRow (S.view store.old) (S.view store.new) (replies result) }
    ensures proper { IfOk result (IsProper caller.now.id) }
{
    let Some(row) = store.file(file)? else {
        return Ok(refused(Refusal::Record));
    };
    let owner = owner_on(store, &row.state)?;
    let facts = facts_on_file(store, caller, &row.state, &owner, Action::Read, day)?;
    if let Some(name) = policy.denial(&facts) {
        return Ok(refused(Refusal::Denied(name)));
    }
    let papers = store.papers(file)?;
    let stage = row.state.stage(day);
    let timing = row.state.timing(day);
    Ok(Decision::Answered(Reply::File(FileView { row, stage, timing }, papers)))
}

/// Reads a parcel.
pub(crate) fn read_parcel<'a, S: Store>(
    store: &mut S,
    policy: &Policy,
    caller: &Party,
    parcel: ParcelId,
    day: Day,
) -> Got<Decision<'a>>
    ensures model { (S.view store.new).doubt ≡ 0 → (h : History) → (S.view store.old).holds (tables h)
        → IfOk result (λ d. Decides day d (outcome_by_request policy.now h day caller.now (request.ReadParcel parcel)) h) }
    ensures sound { (t : Tables) → IfOk result (LeavesSound day t) }
    ensures deciding { IsDeciding NoRow (S.view store.old) (S.view store.new) (replies result) }
    ensures proper { IfOk result (IsProper caller.now.id) }
{
    let Some(land) = store.parcel(parcel)? else {
        return Ok(refused(Refusal::Record));
    };
    let facts = facts_on_parcel(
        store,
        caller,
        parcel,
        land.owner,
        Stage::Office,
        Action::ReadParcel,
    )?;
    if let Some(name) = policy.denial(&facts) {
        return Ok(refused(Refusal::Denied(name)));
    }
    Ok(Decision::Answered(Reply::Parcel(land)))
}
