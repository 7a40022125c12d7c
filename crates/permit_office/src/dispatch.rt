//! From a caller's digest to the request: who asks, whether the clock goes on, and what is asked.

ghost use Rattle.std.specs.Prelude.{◌≡◌, ◌≤◌, ℕ, IsTrue, IfOk, OnOk};
ghost use Rattle.permit_model.specs.Caller;
ghost use Rattle.permit_model.specs.History.{last_day};
ghost use Rattle.permit_model.specs.Tables.{desk_of};
ghost use Rattle.permit_model.specs.Machine.{outcome_by_request, step_as};
ghost use Rattle.permit_model.specs.Sound.{IsSoundTables};
ghost use Rattle.permit_store.specs.Frames.{HasOneDesk, OverHistory, OverTables};
ghost use Rattle.permit_office.specs.Callers.{number_of};
ghost use Rattle.permit_office.specs.Answers.{Attempts, IsOwn};
ghost use Rattle.permit_office.specs.Decisions.{replies, reply_for, Decides, IsDeciding, IsOf, IsProper, LeavesSound};
ghost use Rattle.permit_office.specs.Frames.{IsStep};
ghost use Rattle.permit_office.specs.Logged.{replied};
ghost use Rattle.permit_office.specs.Office.{office_of};
ghost use Rattle.permit_office.specs.Opening.{opened_for, rows_opened, Opens};
ghost use Rattle.permit_office.specs.Reach.{reach_of};
ghost use Rattle.permit_office.specs.Sound.{MayAct};

use crate::callers::known_caller;
use crate::commands::on_file;
use crate::decision::{Decision, refused};
use crate::entering::enter_and_carry_out;
use crate::filing::file;
use crate::listing::{list_files, show_register};
use crate::log::Log;
use crate::parcels::{add_parcel, declare, transfer};
use crate::parties::add_party;
use crate::reading::{read_file, read_parcel};
use crate::reply::Reply;
use permit_base::request::Request;
use permit_base::values::{Day, Digest};
use permit_policy::Policy;
use permit_store::rows::{Desk, Party};
use permit_store::store::{Got, Store, StoreError};

/// What the request of a known caller comes to, on a day that isn't below the last. Nothing is changed. It fails where a call of
/// the store failed, or where memory was refused to a listing.
fn decide_known<'a, S: Store>(
    store: &mut S,
    policy: &Policy,
    caller: &Party,
    desk: &Desk,
    request: &'a Request,
    day: Day,
) -> Got<Decision<'a>>
    ensures model { OverHistory (S.view store.old) (S.view store.new) (λ h.
        desk.now ≡ desk_of h
        → last_day h ≤ day → IsTrue (Caller.is_party h caller.now.id)
        → IfOk result (λ d. Decides day d (outcome_by_request policy.now h day caller.now request.now) h)) }
    ensures opened { OverHistory (S.view store.old) (S.view store.new) (λ h.
        IfOk result (λ d. Opens (opened_for policy.now h day caller.now request.now) (reply_for d) (S.view store.old).handed (S.view store.new).handed)) }
    ensures sound { OverTables (S.view store.old) (S.view store.new) (λ t. IsSoundTables t → desk.now ≡ t.desk → MayAct t caller.now.id day
        → IfOk result (LeavesSound day t)) }
    ensures deciding { IsDeciding (reach_of request.now) (S.view store.old) (S.view store.new) (replies result) }
    ensures proper { IfOk result (IsProper caller.now.id) }
{
    match request {
        Request::AddParty { name, role, token } => add_party(
            store, policy, caller, desk, name, *role, token, day,
        ),
        Request::AddParcel {
            lot,
            address,
            owner,
        } => add_parcel(store, policy, caller, desk, lot, address, *owner, day),
        Request::File {
            parcel,
            kind,
            valuation,
            description,
        } => file(
            store,
            policy,
            caller,
            desk,
            *parcel,
            *kind,
            *valuation,
            description,
            day,
        ),
        Request::ReadParcel { parcel } => read_parcel(store, policy, caller, *parcel, day),
        Request::Declare { parcel } => declare(store, policy, caller, *parcel, day),
        Request::Transfer { parcel, to } => transfer(store, policy, caller, *parcel, *to, day),
        Request::ReadFile { file } => read_file(store, policy, caller, *file, day),
        Request::OnFile { file, command } => on_file(store, policy, caller, *file, command, day),
        Request::ListFiles { filter } => list_files(store, policy, caller, day, *filter),
        Request::Register { kind } => show_register(store, policy, caller, day, *kind),
    }
}

/// What the request of the party that keeps the digest comes to on the day, by the policy. Nothing is changed.
///
/// The refusals are tested in the order of `Office::step_as`. A change that is admitted is the caller's. It fails where a call of
/// the store failed, or where memory was refused to a listing.
pub fn decide<'a, S: Store>(
    store: &mut S,
    policy: &Policy,
    digest: &Digest,
    request: &'a Request,
    day: Day,
) -> Got<Decision<'a>>
    ensures model { OverHistory (S.view store.old) (S.view store.new) (λ h.
        IfOk result (λ d. Decides day d (step_as policy.now h digest.now request.now day) h)) }
    ensures of { OverHistory (S.view store.old) (S.view store.new) (λ h. IfOk result (IsOf (number_of h digest.now))) }
    ensures opened { OverHistory (S.view store.old) (S.view store.new) (λ h.
        IfOk result (λ d. Opens (rows_opened policy.now h digest.now request.now day) (reply_for d) (S.view store.old).handed (S.view store.new).handed)) }
    ensures sound { OverTables (S.view store.old) (S.view store.new) (λ t. IsSoundTables t → IfOk result (LeavesSound day t)) }
    ensures deciding { IsDeciding (reach_of request.now) (S.view store.old) (S.view store.new) (replies result) }
    ensures one { (S.view store.new).doubt ≡ 0 → OnOk result (HasOneDesk (S.view store.new)) }
    ensures proper { IfOk result (λ d. (caller : ℕ) × IsProper caller d) }
{
    match known_caller(store, digest, day)? {
        Ok((caller, desk)) => decide_known(store, policy, &caller, &desk, request, day),
        Err(refusal) => Ok(refused(refusal)),
    }
}

/// Serves a request of the party that keeps the digest, on the day, by the policy: what `decide` returns is carried out, and a
/// change that is admitted is entered into the log before. It fails where a call of the store or of the log failed, where the log
/// takes no commands, or where memory was refused to a listing; then the tables are as they were.
pub fn attempt<S: Store, L: Log>(
    store: &mut S,
    log: &mut L,
    policy: &Policy,
    digest: &Digest,
    request: &Request,
    day: Day,
) -> Got<Reply>
    ensures model { OverHistory (S.view store.old) (S.view store.new) (λ h.
        Attempts (S.view store.new).holds result (step_as policy.now h digest.now request.now day) h) }
    ensures step { IsStep S.view L.Log digest.now request.now day (office_of store.old policy.now log.old) (office_of store.new policy.now log.new)
        (replied result) }
    ensures own { IfOk result IsOwn }
{
    if !log.is_open() {
        return Err(StoreError);
    }
    match decide(store, policy, digest, request, day) {
        Ok(decision) => enter_and_carry_out(store, log, decision, request, day),
        Err(error) => Err(error),
    }
}
