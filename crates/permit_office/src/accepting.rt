//! Commands as a history records them, accepted without a policy.

ghost use Rattle.std.specs.Prelude.{◌≡◌, ◌≤◌, ℕ, List, IsTrue, IfOk, OnOk};
ghost use Rattle.permit_base.specs.declared.request.Request.TheVariants as request;
ghost use Rattle.permit_model.specs.Caller;
ghost use Rattle.permit_model.specs.History.{last_day};
ghost use Rattle.permit_model.specs.Tables.{desk_of};
ghost use Rattle.permit_model.specs.Sound.{IsSoundTables};
ghost use Rattle.permit_store.specs.Frames.{HasOneDesk, OverHistory, OverTables};
ghost use Rattle.permit_office.specs.Accepting.{AnswersCommand, MayHave, outcome_on_record, outcome_unjudged, reach_recorded, request_of};
ghost use Rattle.permit_office.specs.Answers.{Attempts, IsOwn};
ghost use Rattle.permit_office.specs.Decisions.{DecidesBy, Decides, IsDeciding, IsProper, LeavesSound, replies, reply_for};
ghost use Rattle.permit_office.specs.Frames.{IsAttempt};
ghost use Rattle.permit_office.specs.Reach.{NoRow, OneRow};
ghost use Rattle.permit_office.specs.Sound.{IsSoundChange, MayAct, OnMade};

use crate::commands::perform;
use crate::decision::{Decision, carry_out, refused};
use crate::facts::owner_on;
use crate::filing::make_file;
use crate::parcels::{make_interest, make_parcel, make_transfer};
use crate::parties::{is_party, make_party};
use crate::reply::Reply;
use permit_base::refusal::Refusal;
use permit_base::request::Command;
use permit_base::values::{Cents, Day, Digest, FileId, Lot, ParcelId, PartyId, Text};
use permit_base::words::{Kind, Role};
use permit_store::rows::Desk;
use permit_store::store::{Got, Store};

/// A command as a history records it. It borrows its texts.
#[derive(Clone, Copy)]
pub enum Recorded<'a> {
    /// A new party, with the digest of its token.
    NewParty {
        name: &'a Text,
        role: Role,
        digest: &'a Digest,
    },
    /// A new parcel.
    NewParcel {
        lot: &'a Lot,
        address: &'a Text,
        owner: PartyId,
    },
    /// The parcel gets another owner.
    Transfer {
        parcel: ParcelId,
        to: PartyId,
    },
    /// The caller declares an interest in the parcel.
    Declare {
        parcel: ParcelId,
    },
    /// An application; its caller is the applicant.
    File {
        parcel: ParcelId,
        kind: Kind,
        valuation: Cents,
        description: &'a Text,
    },
    /// A command on a file.
    OnFile {
        file: FileId,
        command: &'a Command,
    },
}

/// Accepts a transfer.
fn accept_transfer<'a, S: Store>(
    store: &mut S,
    caller: PartyId,
    parcel: ParcelId,
    to: PartyId,
    day: Day,
) -> Got<Decision<'a>>
    ensures model { OverHistory (S.view store.old) (S.view store.new) (λ h. last_day h ≤ day
        → IfOk result (λ d. Decides day d (outcome_on_record h day caller (request.Transfer parcel to)) h)) }
    ensures sound { OverTables (S.view store.old) (S.view store.new) (λ t. IsSoundTables t → MayAct t caller day
        → IfOk result (LeavesSound day t)) }
    ensures deciding { IsDeciding NoRow (S.view store.old) (S.view store.new) (replies result) }
    ensures proper { IfOk result (IsProper caller) }
    ensures command { IfOk result (λ d. AnswersCommand (reply_for d)) }
{
    let Some(owner) = store.owner(parcel)? else {
        return Ok(refused(Refusal::Record));
    };
    make_transfer(store, caller, parcel, owner, to, day)
}

/// Accepts a declaration.
fn accept_declaration<'a, S: Store>(
    store: &mut S,
    caller: PartyId,
    parcel: ParcelId,
    day: Day,
) -> Got<Decision<'a>>
    ensures model { OverHistory (S.view store.old) (S.view store.new) (λ h. last_day h ≤ day → IsTrue (Caller.is_party h caller)
        → IfOk result (λ d. Decides day d (outcome_on_record h day caller (request.Declare parcel)) h)) }
    ensures sound { DecidesBy (S.view store.old) (S.view store.new) caller day result }
    ensures deciding { IsDeciding NoRow (S.view store.old) (S.view store.new) (replies result) }
    ensures proper { IfOk result (IsProper caller) }
    ensures command { IfOk result (λ d. AnswersCommand (reply_for d)) }
{
    let Some(_owner) = store.owner(parcel)? else {
        return Ok(refused(Refusal::Record));
    };
    let has_interest = store.interest(parcel, caller)?;
    make_interest(store, caller, parcel, has_interest, day)
}

/// Accepts an application.
fn accept_application<'a, S: Store>(
    store: &mut S,
    caller: PartyId,
    desk: &Desk,
    parcel: ParcelId,
    kind: Kind,
    valuation: Cents,
    description: &'a Text,
    day: Day,
) -> Got<Decision<'a>>
    ensures model { OverHistory (S.view store.old) (S.view store.new) (λ h.
        desk.now ≡ desk_of h → last_day h ≤ day → IsTrue (Caller.is_party h caller)
        → IfOk result (λ d. Decides day d (outcome_on_record h day caller (request.File parcel kind valuation description.now)) h)) }
    ensures sound { OverTables (S.view store.old) (S.view store.new) (λ t. IsSoundTables t → desk.now ≡ t.desk → MayAct t caller day
        → IfOk result (LeavesSound day t)) }
    ensures deciding { IsDeciding NoRow (S.view store.old) (S.view store.new) (replies result) }
    ensures proper { IfOk result (IsProper caller) }
    ensures command { IfOk result (λ d. AnswersCommand (reply_for d)) }
{
    let Some(_owner) = store.owner(parcel)? else {
        return Ok(refused(Refusal::Record));
    };
    make_file(
        store,
        caller,
        desk,
        parcel,
        kind,
        valuation,
        description,
        day,
    )
}

/// Accepts a command on a file.
fn accept_on_file<'a, S: Store>(
    store: &mut S,
    caller: PartyId,
    file: FileId,
    command: &'a Command,
    day: Day,
) -> Got<Decision<'a>>
    ensures model { OverHistory (S.view store.old) (S.view store.new) (λ h. last_day h ≤ day → IsTrue (Caller.is_party h caller)
        → IfOk result (λ d. Decides day d (outcome_on_record h day caller (request.OnFile file command.now)) h)) }
    ensures sound { DecidesBy (S.view store.old) (S.view store.new) caller day result }
    ensures deciding { IsDeciding OneRow (S.view store.old) (S.view store.new) (replies result) }
    ensures proper { IfOk result (IsProper caller) }
    ensures command { IfOk result (λ d. AnswersCommand (reply_for d)) }
{
    let Some(state) = store.state(file)? else {
        return Ok(refused(Refusal::Record));
    };
    let owner = owner_on(store, &state)?;
    perform(store, caller, file, &state, owner, command, day)
}

/// Accepts a command of a known caller on a day that isn't below the last.
fn accept_known<'a, S: Store>(
    store: &mut S,
    caller: PartyId,
    desk: &Desk,
    act: &Recorded<'a>,
    day: Day,
) -> Got<Decision<'a>>
    ensures model { OverHistory (S.view store.old) (S.view store.new) (λ h. (token : List ℕ) → MayHave token act.now
        → desk.now ≡ desk_of h → last_day h ≤ day → IsTrue (Caller.is_party h caller)
        → IfOk result (λ d. Decides day d (outcome_on_record h day caller (request_of token act.now)) h)) }
    ensures sound { OverTables (S.view store.old) (S.view store.new) (λ t. IsSoundTables t → desk.now ≡ t.desk → MayAct t caller day
        → IfOk result (LeavesSound day t)) }
    ensures deciding { IsDeciding (reach_recorded act.now) (S.view store.old) (S.view store.new) (replies result) }
    ensures proper { IfOk result (IsProper caller) }
    ensures command { IfOk result (λ d. AnswersCommand (reply_for d)) }
{
    match act {
        Recorded::NewParty { name, role, digest } => {
            make_party(store, caller, desk, name, *role, digest, day)
        }
        Recorded::NewParcel {
            lot,
            address,
            owner,
        } => make_parcel(store, caller, desk, lot, address, *owner, day),
        Recorded::Transfer { parcel, to } => accept_transfer(store, caller, *parcel, *to, day),
        Recorded::Declare { parcel } => accept_declaration(store, caller, *parcel, day),
        Recorded::File {
            parcel,
            kind,
            valuation,
            description,
        } => accept_application(
            store,
            caller,
            desk,
            *parcel,
            *kind,
            *valuation,
            description,
            day,
        ),
        Recorded::OnFile { file, command } => accept_on_file(store, caller, *file, command, day),
    }
}

/// What a command of a party on the day comes to, as a history records it, whatever a policy says.
fn judge<'a, S: Store>(
    store: &mut S,
    caller: PartyId,
    act: &Recorded<'a>,
    day: Day,
) -> Got<Decision<'a>>
    ensures model { OverHistory (S.view store.old) (S.view store.new) (λ h. (token : List ℕ) → MayHave token act.now
        → IfOk result (λ d. Decides day d (outcome_unjudged h day caller (request_of token act.now)) h)) }
    ensures sound { OverTables (S.view store.old) (S.view store.new) (λ t. IsSoundTables t → IfOk result (LeavesSound day t)) }
    ensures deciding { IsDeciding (reach_recorded act.now) (S.view store.old) (S.view store.new) (replies result) }
    ensures one { (S.view store.new).doubt ≡ 0 → OnOk result (HasOneDesk (S.view store.new)) }
    ensures proper { IfOk result (IsProper caller) }
    ensures command { IfOk result (λ d. AnswersCommand (reply_for d)) }
{
    if !is_party(store, caller)? {
        return Ok(refused(Refusal::Caller));
    }
    let desk = store.desk()?;
    if day.get() < desk.last.get() {
        return Ok(refused(Refusal::Clock));
    }
    accept_known(store, caller, &desk, act, day)
}

/// Accepts a command of a party on the day, as a history records it, whatever a policy says.
///
/// The refusals are tested in the order caller, clock, record, not admitted; the first that applies is answered, and nothing
/// has changed. Where none does, the command is done by one commit, as a step of an office that allows it would, and sound
/// tables stay sound. It fails exactly where a call of the store failed; then, too, nothing has changed.
pub fn accept<S: Store>(store: &mut S, caller: PartyId, act: &Recorded<'_>, day: Day) -> Got<Reply>
    ensures model { OverHistory (S.view store.old) (S.view store.new) (λ h. (token : List ℕ) → MayHave token act.now
        → Attempts (S.view store.new).holds result (outcome_unjudged h day caller (request_of token act.now)) h) }
    ensures sound { OverTables (S.view store.old) (S.view store.new) (λ t. IsSoundTables t → OnMade result (IsSoundChange (S.view store.new).holds day t)) }
    ensures attempt { IsAttempt (reach_recorded act.now) (S.view store.old) (S.view store.new) result }
    ensures one { (S.view store.new).doubt ≡ 0 → OnOk result (HasOneDesk (S.view store.new)) }
    ensures own { IfOk result IsOwn }
    ensures command { IfOk result AnswersCommand }
{
    match judge(store, caller, act, day) {
        Ok(decision) => carry_out(store, decision, day),
        Err(error) => Err(error),
    }
}
