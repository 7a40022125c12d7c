//! Entering an admitted change into the log before it is made.

ghost use Rattle.permit_model.specs.History.{History};
ghost use Rattle.permit_model.specs.Machine.{Outcome};
ghost use Rattle.permit_model.specs.Tables.{Tables, tables};
ghost use Rattle.permit_office.specs.Answers.{Attempts};
ghost use Rattle.permit_office.specs.Decisions.{Decides, IsProper, LeavesSound};
ghost use Rattle.permit_office.specs.Entering.{Enters, IsCarriedOutWith};
ghost use Rattle.permit_office.specs.Sound.{IsSoundChange, OnMade};
ghost use Rattle.std.specs.Prelude.{ℕ};

use crate::decision::{Decision, carry_out};
use crate::log::Log;
use crate::reply::Reply;
use permit_base::request::Request;
use permit_base::values::Day;
use permit_store::store::{Got, Store};

/// Enters what was admitted of the request, on the day, into the log. A reply that changes nothing isn't entered.
fn enter<L: Log>(log: &mut L, decision: &Decision<'_>, request: &Request, day: Day) -> Got<()>
    ensures { Enters L.Log request.now day decision.now log.old log.new result }
{
    match decision {
        Decision::Answered(_) => Ok(()),
        Decision::Admitted { caller, number, .. } => log.enter(*caller, request, *number, day),
    }
}

/// Does what was decided of the request on the day, as `carry_out`, once an admitted change is in the log. Where it can't be
/// entered nothing is done; where it is entered and isn't done after all, it is withdrawn.
pub(crate) fn enter_and_carry_out<S: Store, L: Log>(
    store: &mut S,
    log: &mut L,
    decision: Decision<'_>,
    request: &Request,
    day: Day,
) -> Got<Reply>
    ensures model { (h : History) (outcome : Outcome) → (S.view store.old).holds (tables h) → Decides day decision.entry outcome h
        → Attempts (S.view store.new).holds result outcome h }
    ensures sound { (t : Tables) → (S.view store.old).holds t → LeavesSound day t decision.entry
        → (caller : ℕ) → IsProper caller decision.entry → OnMade result (IsSoundChange (S.view store.new).holds day t) }
    ensures carried { IsCarriedOutWith S.view L.Log request.now day decision.entry store.old store.new log.old log.new result }
{
    enter(log, &decision, request, day)?;
    match carry_out(store, decision, day) {
        Ok(reply) => Ok(reply),
        Err(error) => {
            // Only a commit fails here, and what it commits was entered.
            log.withdraw(store);
            Err(error)
        }
    }
}
