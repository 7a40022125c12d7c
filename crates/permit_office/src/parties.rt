//! New parties.

ghost use Rattle.std.specs.Prelude.{◌≡◌, ◌≤◌, ◌+◌, ◌&&◌, ℕ, Option, Some, None, List, IfOk, OnOk, IsTrue, bytes_eq, find, is_none, nat_lt, false};
ghost use Rattle.permit_base.specs.Limits.{most_records};
ghost use Rattle.permit_base.specs.Actions.{adding_action};
ghost use Rattle.permit_base.specs.Digests.{digest_of};
ghost use Rattle.permit_base.specs.declared.request.Request.TheVariants as request;
ghost use Rattle.permit_model.specs.Caller;
ghost use Rattle.permit_model.specs.History.{History, last_day};
ghost use Rattle.permit_model.specs.Admission.{reason_against};
ghost use Rattle.permit_model.specs.Tables.{Tables, tables, desk_of};
ghost use Rattle.permit_model.specs.Machine.{outcome_by_request, outcome_of_command};
ghost use Rattle.permit_model.specs.Sound.{IsSoundTables, has_party};
ghost use Rattle.permit_store.specs.Frames.{HasOneDesk, OverHistory, OverTables};
ghost use Rattle.permit_office.specs.Answers.{IsDecided, IsOwn, reason_in};
ghost use Rattle.permit_office.specs.Decisions.{Decides, IsDeciding, IsProper, LeavesSound, replies, reply_for};
ghost use Rattle.permit_office.specs.Frames.{OnlyReads};
ghost use Rattle.permit_office.specs.Reach.{NoRow};
ghost use Rattle.permit_office.specs.Sound.{MayAct};

use crate::decision::{Admitted, Decision, next_number, refused};
use crate::within::party_within;
use permit_base::digests::digest;
use permit_base::refusal::{Reason, Refusal};
use permit_base::values::{Day, Digest, PartyId, Text, Token};
use permit_base::words::{Action, Role};
use permit_policy::{Facts, Policy};
use permit_store::rows::{Change, Desk, Party};
use permit_store::store::{Got, Store, StoreError};

/// The action by which a party of the role is added.
fn adding(role: Role) -> Action
    ensures { result ≡ adding_action role }
{
    match role {
        Role::Public => Action::AddParty,
        _ => Action::AddStaff,
    }
}

/// Whether there is such a party.
pub(crate) fn is_party<S: Store>(store: &mut S, party: PartyId) -> Got<bool>
    ensures there { (S.view store.new).doubt ≡ 0 → (h : History) → (S.view store.old).holds (tables h) → IfOk result (λ b. b ≡ Caller.is_party h party) }
    ensures held { OverTables (S.view store.old) (S.view store.new) (λ t. IfOk result (λ b. b ≡ has_party t party)) }
    ensures one { (S.view store.new).doubt ≡ 0 → OnOk result (HasOneDesk (S.view store.new)) }
    ensures read { OnlyReads (S.view store.old) (S.view store.new) result }
{
    let role = store.role(party)?;
    Ok(role.is_some())
}

/// The number of a new party, or the reason against it.
fn admit_party<S: Store>(store: &mut S, desk: &Desk, digest: &Digest) -> Got<Admitted>
    ensures reason { (S.view store.new).doubt ≡ 0 → (h : History) (day caller : ℕ) (name : List ℕ) (role : Role) (token : List ℕ)
        → (S.view store.old).holds (tables h) → desk.now ≡ desk_of h
        → digest.now ≡ digest_of token
        → IfOk result (λ r. reason_in r ≡ reason_against h day caller (request.AddParty name role token)) }
    ensures number { IfOk result (λ r. IfOk r (λ number. number ≡ Some (desk.now.parties + 1))) }
    ensures suits { OverTables (S.view store.old) (S.view store.new) (λ t. desk.now ≡ t.desk
        → IfOk result (λ r. OnOk r (IsTrue (nat_lt t.desk.parties most_records && is_none (find (λ p. bytes_eq p.digest digest.now) t.parties))))) }
    ensures read { OnlyReads (S.view store.old) (S.view store.new) result }
{
    if store.party_by_token(digest)?.is_some() {
        return Ok(Err(Reason::Taken));
    }
    Ok(next_number(desk.parties))
}

/// Admits a new party of this digest, and adds it.
pub(crate) fn make_party<'a, S: Store>(
    store: &mut S,
    caller: PartyId,
    desk: &Desk,
    name: &'a Text,
    role: Role,
    digest: &Digest,
    day: Day,
) -> Got<Decision<'a>>
    ensures model { OverHistory (S.view store.old) (S.view store.new) (λ h. (token : List ℕ) → digest.now ≡ digest_of token
        → desk.now ≡ desk_of h → last_day h ≤ day
        → IfOk result (λ d. Decides day d (outcome_of_command h day caller (request.AddParty name.now role token)) h)) }
    ensures sound { OverTables (S.view store.old) (S.view store.new) (λ t. IsSoundTables t → desk.now ≡ t.desk → MayAct t caller day
        → IfOk result (LeavesSound day t)) }
    ensures deciding { IsDeciding NoRow (S.view store.old) (S.view store.new) (replies result) }
    ensures proper { IfOk result (IsProper caller) }
    ensures decided { IfOk result (λ d. IsDecided (reply_for d)) }
{
    let number = match admit_party(store, desk, digest)? {
        Ok(number) => number,
        Err(reason) => return Ok(refused(Refusal::NotAdmitted(reason))),
    };
    party_within(name, digest);
    let digest = *digest;
    let change = Change::NewParty { name, role, digest };
    Ok(Decision::Admitted {
        caller,
        number,
        change,
    })
}

/// Adds a party.
pub(crate) fn add_party<'a, S: Store>(
    store: &mut S,
    policy: &Policy,
    caller: &Party,
    desk: &Desk,
    name: &'a Text,
    role: Role,
    token: &Token,
    day: Day,
) -> Got<Decision<'a>>
    ensures model { OverHistory (S.view store.old) (S.view store.new) (λ h.
        desk.now ≡ desk_of h → last_day h ≤ day
        → IfOk result (λ d. Decides day d (outcome_by_request policy.now h day caller.now (request.AddParty name.now role token.now)) h)) }
    ensures sound { OverTables (S.view store.old) (S.view store.new) (λ t. IsSoundTables t → desk.now ≡ t.desk → MayAct t caller.now.id day
        → IfOk result (LeavesSound day t)) }
    ensures deciding { IsDeciding NoRow (S.view store.old) (S.view store.new) (replies result) }
    ensures proper { IfOk result (IsProper caller.now.id) }
{
    if let Some(rule) = policy.denial(&Facts::office(caller.role, adding(role))) {
        return Ok(refused(Refusal::Denied(rule)));
    }
    let Ok(digest) = digest(token) else {
        return Err(StoreError);
    };
    make_party(store, caller.id, desk, name, role, &digest, day)
}
