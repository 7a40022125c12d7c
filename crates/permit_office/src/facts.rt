//! The facts by which the policy decides, from the rows of a parcel or a file.

ghost use Rattle.std.specs.Prelude.{◌≡◌, ◌==◌, ◌&&◌, Option, Some, None, IfOk};
ghost use Rattle.std.specs.List.{list_any};
ghost use Rattle.permit_model.specs.History.{History};
ghost use Rattle.permit_model.specs.Parcels;
ghost use Rattle.permit_model.specs.Files.{CaseFile};
ghost use Rattle.permit_model.specs.Facts.{file_facts, parcel_facts};
ghost use Rattle.permit_model.specs.Tables.{Tables, tables, state_of};
ghost use Rattle.permit_store.specs.Frames.{OverTables};
ghost use Rattle.permit_office.specs.Frames.{OnlyReads};

use permit_base::values::{Day, ParcelId, PartyId};
use permit_base::words::{Action, Relations, Stage, Timing};
use permit_core::state::FileState;
use permit_policy::Facts;
use permit_store::rows::Party;
use permit_store::store::{Got, Store};

/// The facts of a request on a parcel of this owner.
pub(crate) fn facts_on_parcel<S: Store>(
    store: &mut S,
    caller: &Party,
    parcel: ParcelId,
    owner: PartyId,
    word: Stage,
    action: Action,
) -> Got<Facts>
    ensures facts { (S.view store.new).doubt ≡ 0 → (h : History) → (S.view store.old).holds (tables h) → Parcels.owner h parcel ≡ Some owner
        → IfOk result (λ f. f ≡ parcel_facts h caller.now parcel word action) }
    ensures conflict { OverTables (S.view store.old) (S.view store.new) (λ t.
        IfOk result (λ f. f.relations.conflict ≡ list_any (λ i. (i.parcel == parcel) && (i.party == caller.now.id)) t.interests)) }
    ensures read { OnlyReads (S.view store.old) (S.view store.new) result }
{
    let conflict = store.interest(parcel, caller.id)?;
    Ok(Facts {
        role: caller.role,
        relations: Relations {
            applicant: false,
            contractor: false,
            owner: owner.get() == caller.id.get(),
            assigned_reviewer: false,
            assigned_inspector: false,
            conflict,
        },
        action,
        stage: word,
        stopped: false,
        timing: Timing::Untimed,
    })
}

/// The owner of the parcel of a file.
pub(crate) fn owner_on<S: Store>(store: &mut S, state: &FileState) -> Got<Option<PartyId>>
    ensures owner { (S.view store.new).doubt ≡ 0 → (h : History) (file : CaseFile) → (S.view store.old).holds (tables h) → state.now ≡ state_of file
        → IfOk result (λ o. o ≡ Parcels.owner h file.filing.parcel) }
    ensures read { OnlyReads (S.view store.old) (S.view store.new) result }
{
    store.owner(state.parcel())
}

/// The facts of a request on a file whose parcel has this owner.
pub(crate) fn facts_on_file<S: Store>(
    store: &mut S,
    caller: &Party,
    state: &FileState,
    owner: &Option<PartyId>,
    action: Action,
    day: Day,
) -> Got<Facts>
    ensures facts { (S.view store.new).doubt ≡ 0 → (h : History) (file : CaseFile) → (S.view store.old).holds (tables h) → state.now ≡ state_of file
        → owner.now ≡ Parcels.owner h file.filing.parcel
        → IfOk result (λ f. f ≡ file_facts h day caller.now file action) }
    ensures read { OnlyReads (S.view store.old) (S.view store.new) result }
{
    let conflict = store.interest(state.parcel(), caller.id)?;
    Ok(Facts {
        role: caller.role,
        relations: state.relations(caller.id, *owner, conflict),
        action,
        stage: state.stage(day),
        stopped: state.is_stopped(),
        timing: state.timing(day),
    })
}
