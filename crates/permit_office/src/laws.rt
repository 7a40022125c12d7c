//! Laws of the office: functions with nothing to do, whose contracts are the laws.

ghost use Rattle.std.specs.Prelude.{◌≡◌, ◌≢◌, ◌↔◌, ℕ, true, not, IsTrue, IsPermutation, List, Some};
ghost use Rattle.std.specs.List.{flat_map};
ghost use Rattle.permit_base.specs.declared.request.Filter.{Filter};
ghost use Rattle.permit_base.specs.declared.request.Request.{Request};
ghost use Rattle.permit_model.specs.Caller.{Party, who};
ghost use Rattle.permit_model.specs.Facts.{Facts};
ghost use Rattle.permit_model.specs.History.{History};
ghost use Rattle.permit_model.specs.Machine.{is_command, step_as};
ghost use Rattle.permit_model.specs.Opened.{Allowed};
ghost use Rattle.permit_model.specs.Policy.{Policy, allows};
ghost use Rattle.permit_model.specs.Routes.{found_by, routes_of};
ghost use Rattle.permit_model.specs.Tables.{Tables};
ghost use Rattle.permit_policy.specs.Selections.{selections_of};
ghost use Rattle.permit_store.specs.Handing.{found_by_any};
ghost use Rattle.permit_office.specs.Accepting.{outcome_unjudged};
ghost use Rattle.permit_office.specs.Answers.{is_store_refusal};
ghost use Rattle.permit_office.specs.Frames.{IsStep};
ghost use Rattle.permit_office.specs.Office.{OfficeView};
ghost use Rattle.permit_office.specs.Reach.{FailedBy, is_many, reach_of};
ghost use Rattle.permit_office.specs.declared.log.NoLog.{NoLog as NoLogValue};
ghost use Rattle.permit_office.specs.declared.reply.Reply.{Reply as Given};

use crate::log::{Log, NoLog};
use permit_store::store::Store;

/// What comes of a command that no policy judges is what comes of the machine's step under a policy that allows everything: the
/// same reply and the same history.
pub fn accepted_as_all_allowed()
    ensures { (policy : Policy) (h : History) (digest : List ℕ) (caller : Party) (asked : Request) (day : ℕ)
        → ((facts : Facts) → allows policy facts ≡ true) → IsTrue (is_command asked) → who h digest ≡ Some caller
        → outcome_unjudged h day caller.id asked ≡ step_as policy h digest asked day }
{}

/// The selections of a listing, of which a store hands out what any of their routes finds, find the rows that its routes find
/// one by one, each as often: so `Store::each_of_any` on the first opens the same rows as `Store::select` on the second.
pub fn selections_open_what_routes_open()
    ensures { (allowed : Allowed) (wanted : Filter) (caller day : ℕ) (t : Tables)
        → IsPermutation (flat_map (λ s. found_by_any s caller day t) (selections_of allowed wanted))
        (flat_map (λ r. found_by r caller day t) (routes_of allowed wanted)) }
{}

/// A step of an office with `NoLog` is one of an office that has no log: the store's refusal of a request that reaches to few rows
/// comes exactly where a call of the store failed, and the failed calls are counted.
pub fn no_log_adds_nothing<S: Store>()
    ensures { (digest : List ℕ) (asked : Request) (day : ℕ) (old new : OfficeView S NoLogValue) (reply : Given)
        → IsStep S.view ⟦<NoLog as Log>⟧ digest asked day old new reply
        → (IsTrue (not (is_many (reach_of asked))) → (IsTrue (is_store_refusal reply) ↔ ((S.view new.store).failed ≢ (S.view old.store).failed)))
        × FailedBy (reach_of asked) reply (S.view old.store).failed (S.view new.store).failed }
{}
