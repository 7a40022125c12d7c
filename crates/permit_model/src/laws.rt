//! The laws that hold of every history, and of every policy.

ghost use Rattle.std.specs.Prelude.{◌≡◌, ◌≤◌, ◌+◌, ◌++◌, ℕ, List, [], length, take, Some, is_some, true, false, IsTrue};
ghost use Rattle.permit_base.specs.Limits.{latest_day, latest_deadline};
ghost use Rattle.permit_base.specs.declared.words.Edition.TheVariants.{First};
ghost use Rattle.permit_base.specs.declared.words.Step.{Step};
ghost use Rattle.permit_base.specs.declared.words.Stage.TheVariants as stage;
ghost use Rattle.permit_base.specs.declared.words.Relations.{Relations};
ghost use Rattle.permit_base.specs.declared.request.Asked.{Asked};
ghost use Rattle.permit_base.specs.declared.request.Request.{Request};
ghost use Rattle.permit_model.specs.Days.{term};
ghost use Rattle.permit_model.specs.Steps.{required_steps};
ghost use Rattle.permit_model.specs.History.{History, edition, last_day, upgraded};
ghost use Rattle.permit_model.specs.Caller.{Party, parties};
ghost use Rattle.permit_model.specs.Parcels.{Parcel, parcels};
ghost use Rattle.permit_model.specs.Files.{CaseFile, case_files};
ghost use Rattle.permit_model.specs.Work.{approved_steps, next_of, pending_step, open_notices, is_stopped};
ghost use Rattle.permit_model.specs.BaseStage.{base_stage};
ghost use Rattle.permit_model.specs.Deadline.{deadline};
ghost use Rattle.permit_model.specs.Facts.{Facts};
ghost use Rattle.permit_model.specs.Policy.{Policy, allows};
ghost use Rattle.permit_model.specs.Numbering.{IsNumbered};
ghost use Rattle.permit_model.specs.Tables.{Paper, papers_of, state_of, next_in_row, files_at_upgrade, edition_numbered, tables, with_upgrade};
ghost use Rattle.permit_model.specs.SoundState.{is_timed, IsSoundState};
ghost use Rattle.permit_model.specs.Sound.{is_sound_desk, are_numbered, are_sound_parties, are_sound_parcels, are_sound_filings, are_sound_stages, is_sound_work, are_sound_papers, IsSoundTables};
ghost use Rattle.permit_model.specs.Within.{AreWithinLimits};
ghost use Rattle.permit_model.specs.Machine.{IsHistory, step_as, step, history_after};
ghost use Rattle.permit_model.specs.Laws.{OfEachFile, with_relations, Narrowed, Wanted, parcels_asked};

/// A step leads from a history to a history, and so does a run of steps, whoever asks for what on whatever day.
pub fn steps_keep_histories()
    ensures by_digest { (policy : Policy) (h : History) (digest : List ℕ) (request : Request) (day : ℕ) → IsHistory h → IsHistory (step_as policy h digest request day).history }
    ensures by_token { (policy : Policy) (h : History) (asked : Asked) (day : ℕ) → IsHistory h → IsHistory (step policy h asked day).history }
    ensures run { (policy : Policy) (requests : List (Asked × ℕ)) (h : History) → IsHistory h → IsHistory (history_after policy requests h) }
{}

/// What a policy allows to a set of relations, it allows to none of them, to one of them alone, or to two of them alone.
pub fn allowed_to_two_relations()
    ensures narrowed { (policy : Policy) (facts : Facts) (set : Relations) → allows policy (with_relations facts set) ≡ true → Narrowed policy facts set }
{}

/// Steps are approved in their order: the next step is the one at the count of approved ones, and a pending request is
/// for it.
pub fn steps_are_approved_in_order()
    ensures next { OfEachFile (λ h file. next_in_row (state_of file) ≡ next_of file) }
    ensures pending { OfEachFile (λ h file. (step : Step) → pending_step file.acts ≡ Some step → next_of file ≡ Some step) }
    ensures count { OfEachFile (λ h file. length (approved_steps file.acts) ≤ length (required_steps file.filing.edition file.filing.kind)) }
    ensures front { OfEachFile (λ h file. approved_steps file.acts ≡ take (length (approved_steps file.acts)) (required_steps file.filing.edition file.filing.kind)) }
{}

/// A file keeps the list of steps that was in force when it was filed, which follows from its number: the first edition up to the
/// count of files at the upgrade. The upgrade may follow whatever was accepted before, once, and changes of the tables
/// the edition in force and the count of files at the upgrade alone.
pub fn editions_are_told_by_number()
    ensures numbered { OfEachFile (λ h file. file.filing.edition ≡ edition_numbered (files_at_upgrade h) file.filing.id) }
    ensures next { (h : History) → edition h ≡ edition_numbered (files_at_upgrade h) (length (case_files h) + 1) }
    ensures follows { (h : History) → IsHistory h → edition h ≡ First → IsHistory (upgraded h) }
    ensures once { (h : History) → IsHistory (upgraded h) → edition h ≡ First }
    ensures made { (h : History) → tables (upgraded h) ≡ with_upgrade (tables h) }
{}

/// Parties, parcels and files are numbered from 1 in order of acceptance, and so are the papers of each file.
pub fn records_are_numbered()
    ensures parties { (h : History) → IsHistory h → IsNumbered (λ (p : Party). p.id) (parties h) }
    ensures parcels { (h : History) → IsHistory h → IsNumbered (λ (p : Parcel). p.id) (parcels h) }
    ensures files { (h : History) → IsHistory h → IsNumbered (λ (f : CaseFile). f.filing.id) (case_files h) }
    ensures papers { OfEachFile (λ h file. IsNumbered (λ (p : Paper). p.number) (papers_of h file.filing.id)) }
{}

/// A finaled or certified file has every required step approved, in order, and no open notice; on a certified file no
/// stop work order is in force.
pub fn certified_files_are_finished()
    ensures finaled { OfEachFile (λ h file. base_stage file.acts ≡ stage.Finaled → (approved_steps file.acts ≡ required_steps file.filing.edition file.filing.kind) × (open_notices file.acts ≡ [])) }
    ensures certified { OfEachFile (λ h file. base_stage file.acts ≡ stage.Certified → (approved_steps file.acts ≡ required_steps file.filing.edition file.filing.kind) × (open_notices file.acts ≡ []) × (is_stopped file.acts ≡ false)) }
{}

/// There is a deadline in the six stages from filed to working but rejected, and in no other. It is never before the
/// filing's 180 days. Where the last day is one that the office takes it is never after the latest deadline: days
/// never fall, and a grant that goes further isn't admitted.
pub fn deadlines_stand_in_bounds()
    ensures stands { OfEachFile (λ h file. is_some (deadline file) ≡ is_timed (base_stage file.acts)) }
    ensures least { OfEachFile (λ h file. (d : ℕ) → deadline file ≡ Some d → file.filing.filed + term ≤ d) }
    ensures most { OfEachFile (λ h file. last_day h ≤ latest_day → (d : ℕ) → deadline file ≡ Some d → d ≤ latest_deadline) }
{}

/// The row of each file is sound: a stored stage, no more steps done than its kind requires, a deadline in the six
/// stages alone, a request only for the next step and with its day, everything approved and no notice open once the
/// work is over, and no stop work order on a certified file.
pub fn rows_are_sound()
    ensures sound { OfEachFile (λ h file. IsSoundState (state_of file)) }
{}

/// The tables of every history are sound. What the model doesn't bound itself is a premise: for the desk and the deadlines
/// that the last day is one that the office takes, and for what was written that it is within the limits of its type.
pub fn tables_of_histories_are_sound()
    ensures desk { (h : History) → IsHistory h → last_day h ≤ latest_day → IsTrue (is_sound_desk (tables h)) }
    ensures numbering { (h : History) → IsHistory h → IsTrue (are_numbered (tables h)) }
    ensures parties { (h : History) → IsHistory h → AreWithinLimits h → IsTrue (are_sound_parties (tables h)) }
    ensures parcels { (h : History) → IsHistory h → AreWithinLimits h → IsTrue (are_sound_parcels (tables h)) }
    ensures filings { (h : History) → IsHistory h → AreWithinLimits h → IsTrue (are_sound_filings (tables h)) }
    ensures stages { (h : History) → IsHistory h → last_day h ≤ latest_day → IsTrue (are_sound_stages (tables h)) }
    ensures work { (h : History) → IsHistory h → AreWithinLimits h → IsTrue (is_sound_work (tables h)) }
    ensures papers { (h : History) → IsHistory h → AreWithinLimits h → IsTrue (are_sound_papers (tables h)) }
    ensures sound { (h : History) → IsHistory h → last_day h ≤ latest_day → AreWithinLimits h → IsSoundTables (tables h) }
{}

/// A list of requests for parcels that runs twice over, on one day by one caller, leaves the history of once, and so its
/// tables: what was added is taken then, and what was refused still is.
pub fn parcels_are_added_once()
    ensures history { (policy : Policy) (h : History) (token : List ℕ) (day : ℕ) (wanted : List Wanted)
        → history_after policy (parcels_asked token day wanted ++ parcels_asked token day wanted) h ≡ history_after policy (parcels_asked token day wanted) h }
    ensures tables { (policy : Policy) (h : History) (token : List ℕ) (day : ℕ) (wanted : List Wanted)
        → tables (history_after policy (parcels_asked token day wanted ++ parcels_asked token day wanted) h) ≡ tables (history_after policy (parcels_asked token day wanted) h) }
{}
