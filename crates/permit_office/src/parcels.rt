//! Parcels: new ones, their owners, and the interests declared in them.

ghost use Rattle.std.specs.Prelude.{◌≡◌, ◌≤◌, ◌+◌, ◌==◌, ◌∷◌, ◌&&◌, [], false, ℕ, Option, Some, None, List, IsTrue, IfOk, OnOk, bytes_eq, find};
ghost use Rattle.std.specs.Prelude.{is_none, is_some, nat_lt};
ghost use Rattle.std.specs.List.{list_any};
ghost use Rattle.permit_base.specs.declared.request.Request.TheVariants as request;
ghost use Rattle.permit_base.specs.Limits.{most_records};
ghost use Rattle.permit_model.specs.Caller;
ghost use Rattle.permit_model.specs.History.{History, last_day};
ghost use Rattle.permit_model.specs.Parcels;
ghost use Rattle.permit_model.specs.Parcels.{parcels};
ghost use Rattle.permit_base.specs.declared.refusal.Reason.TheVariants.{Taken};
ghost use Rattle.permit_model.specs.Admission.{first_failing, reason_against};
ghost use Rattle.permit_model.specs.Tables.{Tables, tables, desk_of};
ghost use Rattle.permit_model.specs.Machine.{outcome_by_request, outcome_of_command};
ghost use Rattle.permit_model.specs.Sound.{IsSoundTables, has_party};
ghost use Rattle.permit_store.specs.Frames.{OverHistory, OverTables};
ghost use Rattle.permit_office.specs.Answers.{IsDecided, IsOwn, reason_in};
ghost use Rattle.permit_office.specs.Decisions.{DecidesBy, Decides, IsDeciding, IsProper, LeavesSound, replies, reply_for};
ghost use Rattle.permit_office.specs.Frames.{OnlyReads};
ghost use Rattle.permit_office.specs.Reach.{NoRow};
ghost use Rattle.permit_office.specs.Sound.{MayAct};

use crate::decision::{Admitted, Decision, next_number, refused};
use crate::facts::facts_on_parcel;
use crate::parties::is_party;
use crate::within::parcel_within;
use permit_base::refusal::{Reason, Refusal};
use permit_base::values::{Day, Lot, ParcelId, PartyId, Text};
use permit_base::words::{Action, Stage};
use permit_policy::{Facts, Policy};
use permit_store::rows::{Change, Desk, Party};
use permit_store::store::{Got, Store};

/// Whether there is a parcel of that lot.
#[tactic(auto, using(crate::proofs::Lists::any_found))]
fn is_lot<S: Store>(store: &mut S, lot: &Lot) -> Got<bool>
    ensures there { (S.view store.new).doubt ≡ 0 → (h : History) → (S.view store.old).holds (tables h)
        → IfOk result (λ b. b ≡ list_any (λ p. bytes_eq p.lot lot.now) (parcels h)) }
    ensures held { OverTables (S.view store.old) (S.view store.new) (λ t. IfOk result (λ b. b ≡ is_some (find (λ p. bytes_eq p.lot lot.now) t.parcels))) }
    ensures read { OnlyReads (S.view store.old) (S.view store.new) result }
{
    let found = store.parcel_by_lot(lot)?;
    Ok(found.is_some())
}

/// The number of a new parcel, or the reason against it.
fn admit_parcel<S: Store>(store: &mut S, desk: &Desk, lot: &Lot, owner: PartyId) -> Got<Admitted>
    ensures reason { (S.view store.new).doubt ≡ 0 → (h : History) (day caller : ℕ) (address : List ℕ) → (S.view store.old).holds (tables h)
        → desk.now ≡ desk_of h
        → IfOk result (λ r. reason_in r ≡ reason_against h day caller (request.AddParcel lot.now address owner)) }
    ensures number { IfOk result (λ r. IfOk r (λ number. number ≡ Some (desk.now.parcels + 1))) }
    ensures suits { OverTables (S.view store.old) (S.view store.new) (λ t. desk.now ≡ t.desk
        → IfOk result (λ r. OnOk r (IsTrue (nat_lt t.desk.parcels most_records
        && is_none (find (λ p. bytes_eq p.lot lot.now) t.parcels) && has_party t owner)))) }
    ensures read { OnlyReads (S.view store.old) (S.view store.new) result }
{
    if !is_party(store, owner)? {
        return Ok(Err(Reason::Person));
    }
    if is_lot(store, lot)? {
        return Ok(Err(Reason::Taken));
    }
    Ok(next_number(desk.parcels))
}

/// Admits a new parcel, and adds it.
pub(crate) fn make_parcel<'a, S: Store>(
    store: &mut S,
    caller: PartyId,
    desk: &Desk,
    lot: &'a Lot,
    address: &'a Text,
    owner: PartyId,
    day: Day,
) -> Got<Decision<'a>>
    ensures model { OverHistory (S.view store.old) (S.view store.new) (λ h. desk.now ≡ desk_of h → last_day h ≤ day
        → IfOk result (λ d. Decides day d (outcome_of_command h day caller (request.AddParcel lot.now address.now owner)) h)) }
    ensures sound { OverTables (S.view store.old) (S.view store.new) (λ t. IsSoundTables t → desk.now ≡ t.desk → MayAct t caller day
        → IfOk result (LeavesSound day t)) }
    ensures deciding { IsDeciding NoRow (S.view store.old) (S.view store.new) (replies result) }
    ensures proper { IfOk result (IsProper caller) }
    ensures decided { IfOk result (λ d. IsDecided (reply_for d)) }
{
    let number = match admit_parcel(store, desk, lot, owner)? {
        Ok(number) => number,
        Err(reason) => return Ok(refused(Refusal::NotAdmitted(reason))),
    };
    parcel_within(lot, address);
    let change = Change::NewParcel {
        lot,
        address,
        owner,
    };
    Ok(Decision::Admitted {
        caller,
        number,
        change,
    })
}

/// Adds a parcel.
pub(crate) fn add_parcel<'a, S: Store>(
    store: &mut S,
    policy: &Policy,
    caller: &Party,
    desk: &Desk,
    lot: &'a Lot,
    address: &'a Text,
    owner: PartyId,
    day: Day,
) -> Got<Decision<'a>>
    ensures model { OverHistory (S.view store.old) (S.view store.new) (λ h.
        desk.now ≡ desk_of h → last_day h ≤ day
        → IfOk result (λ d. Decides day d (outcome_by_request policy.now h day caller.now (request.AddParcel lot.now address.now owner)) h)) }
    ensures sound { OverTables (S.view store.old) (S.view store.new) (λ t. IsSoundTables t → desk.now ≡ t.desk → MayAct t caller.now.id day
        → IfOk result (LeavesSound day t)) }
    ensures deciding { IsDeciding NoRow (S.view store.old) (S.view store.new) (replies result) }
    ensures proper { IfOk result (IsProper caller.now.id) }
{
    if let Some(name) = policy.denial(&Facts::office(caller.role, Action::AddParcel)) {
        return Ok(refused(Refusal::Denied(name)));
    }
    make_parcel(store, caller.id, desk, lot, address, owner, day)
}

/// Nobody declares an interest twice, and a declaration makes no record with a number.
fn admit_declaration(has_interest: bool) -> Admitted
    ensures reason { reason_in result ≡ first_failing ((has_interest, Taken) ∷ []) }
    ensures number { IfOk result (λ number. number ≡ None) }
{
    if has_interest {
        return Err(Reason::Taken);
    }
    Ok(None)
}

/// Admits the declaration of a party that has this interest in a parcel that is there, and makes it.
pub(crate) fn make_interest<'a, S: Store>(
    store: &mut S,
    party: PartyId,
    parcel: ParcelId,
    has_interest: bool,
    day: Day,
) -> Got<Decision<'a>>
    ensures model { (S.view store.new).doubt ≡ 0 → (h : History) → (S.view store.old).holds (tables h)
        → (land : Parcels.Parcel) → Parcels.parcel_numbered h parcel ≡ Some land
        → has_interest ≡ Parcels.has_interest h parcel party → last_day h ≤ day → IsTrue (Caller.is_party h party)
        → IfOk result (λ d. Decides day d (outcome_of_command h day party (request.Declare parcel)) h) }
    ensures sound { OverTables (S.view store.old) (S.view store.new) (λ t. IsTrue (is_some (find (λ p. p.id == parcel) t.parcels))
        → has_interest ≡ list_any (λ i. (i.parcel == parcel) && (i.party == party)) t.interests
        → IsSoundTables t → MayAct t party day → IfOk result (LeavesSound day t)) }
    ensures deciding { IsDeciding NoRow (S.view store.old) (S.view store.new) (replies result) }
    ensures proper { IfOk result (IsProper party) }
    ensures decided { IfOk result (λ d. IsDecided (reply_for d)) }
{
    let number = match admit_declaration(has_interest) {
        Ok(number) => number,
        Err(reason) => return Ok(refused(Refusal::NotAdmitted(reason))),
    };
    let change = Change::NewInterest { parcel, party };
    Ok(Decision::Admitted {
        caller: party,
        number,
        change,
    })
}

/// Declares an interest.
pub(crate) fn declare<'a, S: Store>(
    store: &mut S,
    policy: &Policy,
    caller: &Party,
    parcel: ParcelId,
    day: Day,
) -> Got<Decision<'a>>
    ensures model { (S.view store.new).doubt ≡ 0 → (h : History) → (S.view store.old).holds (tables h) → last_day h ≤ day
        → IsTrue (Caller.is_party h caller.now.id)
        → IfOk result (λ d. Decides day d (outcome_by_request policy.now h day caller.now (request.Declare parcel)) h) }
    ensures sound { DecidesBy (S.view store.old) (S.view store.new) caller.now.id day result }
    ensures deciding { IsDeciding NoRow (S.view store.old) (S.view store.new) (replies result) }
    ensures proper { IfOk result (IsProper caller.now.id) }
{
    let Some(owner) = store.owner(parcel)? else {
        return Ok(refused(Refusal::Record));
    };
    let facts = facts_on_parcel(store, caller, parcel, owner, Stage::Office, Action::Declare)?;
    if let Some(name) = policy.denial(&facts) {
        return Ok(refused(Refusal::Denied(name)));
    }
    make_interest(store, caller.id, parcel, facts.relations.conflict, day)
}

/// The reason against a transfer, which makes no record with a number.
fn admit_transfer<S: Store>(
    store: &mut S,
    parcel: ParcelId,
    owner: PartyId,
    to: PartyId,
) -> Got<Admitted>
    ensures reason { (S.view store.new).doubt ≡ 0 → (h : History) (day caller : ℕ) → (S.view store.old).holds (tables h)
        → Parcels.owner h parcel ≡ Some owner
        → IfOk result (λ r. reason_in r ≡ reason_against h day caller (request.Transfer parcel to)) }
    ensures number { IfOk result (λ r. IfOk r (λ number. number ≡ None)) }
    ensures receiver { OverTables (S.view store.old) (S.view store.new) (λ t. IfOk result (λ r. OnOk r (IsTrue (has_party t to)))) }
    ensures read { OnlyReads (S.view store.old) (S.view store.new) result }
{
    if !is_party(store, to)? {
        return Ok(Err(Reason::Person));
    }
    if owner.get() == to.get() {
        return Ok(Err(Reason::Taken));
    }
    Ok(Ok(None))
}

/// Admits the transfer of a parcel of this owner, and makes it.
pub(crate) fn make_transfer<'a, S: Store>(
    store: &mut S,
    caller: PartyId,
    parcel: ParcelId,
    owner: PartyId,
    to: PartyId,
    day: Day,
) -> Got<Decision<'a>>
    ensures model { (S.view store.new).doubt ≡ 0 → (h : History) → (S.view store.old).holds (tables h)
        → Parcels.owner h parcel ≡ Some owner → last_day h ≤ day
        → IfOk result (λ d. Decides day d (outcome_of_command h day caller (request.Transfer parcel to)) h) }
    ensures sound { OverTables (S.view store.old) (S.view store.new) (λ t. IsTrue (is_some (find (λ p. p.id == parcel) t.parcels))
        → IsSoundTables t → MayAct t caller day → IfOk result (LeavesSound day t)) }
    ensures deciding { IsDeciding NoRow (S.view store.old) (S.view store.new) (replies result) }
    ensures proper { IfOk result (IsProper caller) }
    ensures decided { IfOk result (λ d. IsDecided (reply_for d)) }
{
    let number = match admit_transfer(store, parcel, owner, to)? {
        Ok(number) => number,
        Err(reason) => return Ok(refused(Refusal::NotAdmitted(reason))),
    };
    let change = Change::NewOwner { parcel, owner: to };
    Ok(Decision::Admitted {
        caller,
        number,
        change,
    })
}

/// Transfers a parcel.
pub(crate) fn transfer<'a, S: Store>(
    store: &mut S,
    policy: &Policy,
    caller: &Party,
    parcel: ParcelId,
    to: PartyId,
    day: Day,
) -> Got<Decision<'a>>
    ensures model { (S.view store.new).doubt ≡ 0 → (h : History) → (S.view store.old).holds (tables h) → last_day h ≤ day
        → IfOk result (λ d. Decides day d (outcome_by_request policy.now h day caller.now (request.Transfer parcel to)) h) }
    ensures sound { DecidesBy (S.view store.old) (S.view store.new) caller.now.id day result }
    ensures deciding { IsDeciding NoRow (S.view store.old) (S.view store.new) (replies result) }
    ensures proper { IfOk result (IsProper caller.now.id) }
{
    let Some(owner) = store.owner(parcel)? else {
        return Ok(refused(Refusal::Record));
    };
    let facts = facts_on_parcel(
        store,
        caller,
        parcel,
        owner,
        Stage::Office,
        Action::Transfer,
    )?;
    if let Some(name) = policy.denial(&facts) {
        return Ok(refused(Refusal::Denied(name)));
    }
    make_transfer(store, caller.id, parcel, owner, to, day)
}
