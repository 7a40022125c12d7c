//! The commands on a file that is there.

ghost use Rattle.std.specs.Prelude.{◌≡◌, ◌≤◌, ◌==◌, ℕ, List, Option, Some, None, IsTrue, IfOk, find, is_some, nat_lt, option_map, true, false};
ghost use Rattle.permit_base.specs.declared.request.Request.TheVariants as request;
ghost use Rattle.permit_model.specs.Caller;
ghost use Rattle.permit_model.specs.History.{History, last_day};
ghost use Rattle.permit_model.specs.Parcels;
ghost use Rattle.permit_model.specs.Files.{CaseFile, case_numbered};
ghost use Rattle.permit_model.specs.Work;
ghost use Rattle.permit_model.specs.Admission.{reason_against};
ghost use Rattle.permit_base.specs.Limits.{most_papers};
ghost use Rattle.permit_model.specs.Tables.{Paper, State, Tables, tables, state_of};
ghost use Rattle.permit_model.specs.Machine.{outcome_by_reason, entry_of, outcome_by_request};
ghost use Rattle.permit_core.specs.Naming;
ghost use Rattle.permit_core.specs.RowAfter;
ghost use Rattle.permit_model.specs.Sound.{IsSoundTables};
ghost use Rattle.permit_store.specs.Changes.{papers_after, suits_effect};
ghost use Rattle.permit_store.specs.Frames.{OverHistory, OverTables};
ghost use Rattle.permit_office.specs.Answers.{IsDecided, IsOwn};
ghost use Rattle.permit_office.specs.Effects.{papers_with};
ghost use Rattle.permit_office.specs.Decisions.{DecidesBy, Decides, IsDeciding, IsProper, LeavesSound, replies, reply_for};
ghost use Rattle.permit_office.specs.Frames.{OnlyReads};
ghost use Rattle.permit_office.specs.Reach.{NoRow, OneRow};
ghost use Rattle.permit_office.specs.Sound.{HasState, MayAct, is_open_in, role_named};

use crate::decision::{Decision, refused};
use crate::facts::{facts_on_file, owner_on};
use crate::within::{command_within, state_within};
use permit_base::refusal::Refusal;
use permit_base::request::Command;
use permit_base::values::{Day, FileId, ParcelId, PartyId};
use permit_core::paper::{paper_sort, paper_terms, paper_text};
use permit_core::people::{NamedParty, People, named_paper, named_party};
use permit_core::state::FileState;
use permit_policy::Policy;
use permit_store::rows::{Change, NewPaper, Party, RowEffect};
use permit_store::store::{Got, Store};

/// The party that a command names, where it is there, with its interest in the parcel.
fn named<S: Store>(store: &mut S, parcel: ParcelId, command: &Command) -> Got<Option<NamedParty>>
    ensures named { (S.view store.new).doubt ≡ 0 → (h : History) → (S.view store.old).holds (tables h)
        → IfOk result (λ p. p ≡ Naming.party_known h parcel (Naming.named_party command.now)) }
    ensures role { OverTables (S.view store.old) (S.view store.new) (λ t.
        IfOk result (λ p. option_map (λ n. n.role) p ≡ role_named t (Naming.named_party command.now))) }
    ensures read { OnlyReads (S.view store.old) (S.view store.new) result }
{
    let Some(party) = named_party(command) else {
        return Ok(None);
    };
    let Some(role) = store.role(party)? else {
        return Ok(None);
    };
    let has_interest = store.interest(parcel, party)?;
    Ok(Some(NamedParty { role, has_interest }))
}

/// Whether the paper that a command names is an open notice of the file.
fn is_open_notice<S: Store>(store: &mut S, file: FileId, command: &Command) -> Got<bool>
    ensures open { OverHistory (S.view store.old) (S.view store.new) (λ h.
        (one : CaseFile) → case_numbered h file ≡ Some one
        → IfOk result (λ b. b ≡ Naming.is_notice_open one (Naming.named_paper command.now))) }
    ensures held { OverTables (S.view store.old) (S.view store.new) (λ t. IfOk result (λ b. b ≡ is_open_in t file (Naming.named_paper command.now))) }
    ensures read { OnlyReads (S.view store.old) (S.view store.new) result }
{
    let Some(number) = named_paper(command) else {
        return Ok(false);
    };
    store.has_open_notice(file, number)
}

/// The people about a command on a file whose parcel has this owner.
fn people_about<S: Store>(
    store: &mut S,
    file: FileId,
    state: &FileState,
    owner: Option<PartyId>,
    command: &Command,
) -> Got<People>
    ensures people { OverHistory (S.view store.old) (S.view store.new) (λ h.
        (one : CaseFile) → case_numbered h file ≡ Some one → state.now ≡ state_of one → owner ≡ Parcels.owner h one.filing.parcel
        → IfOk result (λ p. p ≡ Naming.people_of h one command.now)) }
    ensures role { OverTables (S.view store.old) (S.view store.new) (λ t.
        IfOk result (λ p. option_map (λ n. n.role) p.named ≡ role_named t (Naming.named_party command.now))) }
    ensures notice { OverTables (S.view store.old) (S.view store.new) (λ t.
        IfOk result (λ p. p.is_open_notice ≡ is_open_in t file (Naming.named_paper command.now))) }
    ensures read { OnlyReads (S.view store.old) (S.view store.new) result }
{
    let named = named(store, state.parcel(), command)?;
    let is_open_notice = is_open_notice(store, file, command)?;
    Ok(People {
        named,
        owner,
        is_open_notice,
    })
}

/// What changes of the papers by a command of the author on a file of this state.
fn effect_of<'a>(state: &FileState, author: PartyId, command: &'a Command) -> RowEffect<'a>
    ensures papers { (file number day : ℕ) (papers : List Paper)
        → papers_after file number day result papers
        ≡ papers_with file number day author (RowAfter.row_paper_days state.now command.now) command.now (Work.paper_sort command.now)
        (Naming.named_paper command.now) papers }
    ensures suits { (t : Tables) (after : State) → after.papers ≡ RowAfter.papers_after command.now state.now.papers
        → IsTrue (is_some (find (λ p. p.id == author) t.parties))
        → (IsTrue (Work.makes_paper command.now) → IsTrue (nat_lt state.now.papers most_papers)) → IsTrue (suits_effect t state.now after result) }
{
    if let Some(sort) = paper_sort(command) {
        return RowEffect::Paper(NewPaper {
            author,
            sort,
            days: state.paper_days(command),
            text: paper_text(command),
            terms: paper_terms(command),
        });
    }
    match named_paper(command) {
        Some(paper) => RowEffect::NoticeClosed(paper),
        None => RowEffect::None,
    }
}

/// Admits an allowed command on a file whose parcel has this owner, and makes its change.
pub(crate) fn perform<'a, S: Store>(
    store: &mut S,
    caller: PartyId,
    file: FileId,
    state: &FileState,
    owner: Option<PartyId>,
    command: &'a Command,
    day: Day,
) -> Got<Decision<'a>>
    ensures model { OverHistory (S.view store.old) (S.view store.new) (λ h.
        (one : CaseFile) → case_numbered h file ≡ Some one → state.now ≡ state_of one → owner ≡ Parcels.owner h one.filing.parcel
        → last_day h ≤ day → IsTrue (Caller.is_party h caller)
        → IfOk result (λ d. Decides day d
        (outcome_by_reason h (entry_of h day caller (request.OnFile file command.now)) (reason_against h day caller (request.OnFile file command.now))) h)) }
    ensures sound { OverTables (S.view store.old) (S.view store.new) (λ t. IsSoundTables t → HasState t file state.now → MayAct t caller day
        → IfOk result (LeavesSound day t)) }
    ensures deciding { IsDeciding NoRow (S.view store.old) (S.view store.new) (replies result) }
    ensures decided { IfOk result (λ d. IsDecided (reply_for d)) }
    ensures proper { IfOk result (IsProper caller) }
{
    let people = people_about(store, file, state, owner, command)?;
    if let Err(reason) = state.admit(day, command, &people) {
        return Ok(refused(Refusal::NotAdmitted(reason)));
    }
    let number = state.paper_number(command);
    let effect = effect_of(state, caller, command);
    let mut state = *state;
    state.apply(day, command, caller);
    command_within(command);
    state_within(&state);
    let change = Change::NewRow {
        file,
        state,
        effect,
    };
    Ok(Decision::Admitted {
        caller,
        number,
        change,
    })
}

/// Serves a command on a file.
pub(crate) fn on_file<'a, S: Store>(
    store: &mut S,
    policy: &Policy,
    caller: &Party,
    file: FileId,
    command: &'a Command,
    day: Day,
) -> Got<Decision<'a>>
    ensures model { OverHistory (S.view store.old) (S.view store.new) (λ h.
        last_day h ≤ day
        → IsTrue (Caller.is_party h caller.now.id)
        → IfOk result (λ d. Decides day d (outcome_by_request policy.now h day caller.now (request.OnFile file command.now)) h)) }
    ensures sound { DecidesBy (S.view store.old) (S.view store.new) caller.now.id day result }
    ensures deciding { IsDeciding OneRow (S.view store.old) (S.view store.new) (replies result) }
    ensures proper { IfOk result (IsProper caller.now.id) }
{
    let Some(state) = store.state(file)? else {
        return Ok(refused(Refusal::Record));
    };
    let owner = owner_on(store, &state)?;
    let facts = facts_on_file(store, caller, &state, &owner, command.action(), day)?;
    if let Some(name) = policy.denial(&facts) {
        return Ok(refused(Refusal::Denied(name)));
    }
    perform(store, caller.id, file, &state, owner, command, day)
}
