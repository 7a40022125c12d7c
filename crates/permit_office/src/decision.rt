//! What a request comes to before anything is written, and the one place that commits.

ghost use Rattle.std.specs.Prelude.{◌≡◌, ◌∷◌, [], ◌+◌, ℕ, Option, Some, Ok, IfOk, nat_le};
ghost use Rattle.permit_base.specs.Limits.{most_records};
ghost use Rattle.permit_base.specs.declared.refusal.Reason.TheVariants.{Full};
ghost use Rattle.permit_model.specs.Admission.{first_failing};
ghost use Rattle.permit_model.specs.History.{History, Entry};
ghost use Rattle.permit_model.specs.Tables.{Tables, tables};
ghost use Rattle.permit_model.specs.Sound.{IsSoundTables};
ghost use Rattle.permit_model.specs.Machine.{Outcome, outcome_by_reason};
ghost use Rattle.permit_store.specs.Changes.{Fits, changed};
ghost use Rattle.permit_office.specs.Answers.{Attempts, IsDecided, reason_in};
ghost use Rattle.permit_office.specs.Decisions.{reply_for, Decides, IsCarriedOut, IsProper, LeavesSound};
ghost use Rattle.permit_office.specs.Sound.{IsSoundChange, OnMade};

use crate::reply::Reply;
use permit_base::limits::number_after;
use permit_base::refusal::{Reason, Refusal};
use permit_base::values::{Day, PartyId};
use permit_store::rows::Change;
use permit_store::store::{Got, Store};

/// What a request comes to before anything is written.
#[derive(Drop)]
pub enum Decision<'a> {
    /// It has this reply, and changes nothing.
    Answered(Reply),
    /// It is admitted, for this caller: this change is to be made, which gives its record this number if it makes one.
    Admitted {
        caller: PartyId,
        number: Option<u32>,
        change: Change<'a>,
    },
}

/// The number of the record that an admitted request makes, if it makes one; or the reason against it.
pub(crate) type Admitted = Result<Option<u32>, Reason>;

/// The number of a new record after so many, or that there may be no more.
pub(crate) fn next_number(count: u32) -> Admitted
    ensures reason { reason_in result ≡ first_failing ((nat_le most_records count, Full) ∷ []) }
    ensures number { IfOk result (λ number. number ≡ Some (count + 1)) }
{
    match number_after(count) {
        Some(number) => Ok(Some(number)),
        None => Err(Reason::Full),
    }
}

/// What a request comes to that is refused.
pub(crate) fn refused<'a>(why: Refusal) -> Decision<'a>
    ensures { result ≡ Decision.Answered (Reply.Refused why) }
{
    Decision::Answered(Reply::Refused(why))
}

/// Does what was decided of a request on the day: a change that is admitted is made by one commit.
pub fn carry_out<S: Store>(store: &mut S, decision: Decision<'_>, day: Day) -> Got<Reply>
    ensures model { (h : History) (outcome : Outcome) → (S.view store.old).holds (tables h) → Decides day decision.entry outcome h
        → Attempts (S.view store.new).holds result outcome h }
    ensures sound { (t : Tables) → (S.view store.old).holds t → LeavesSound day t decision.entry
        → (caller : ℕ) → IsProper caller decision.entry → OnMade result (IsSoundChange (S.view store.new).holds day t) }
    ensures carried { IsCarriedOut decision.entry (S.view store.old) (S.view store.new) result }
{
    match decision {
        Decision::Answered(reply) => Ok(reply),
        Decision::Admitted {
            caller: _,
            number,
            change,
        } => {
            store.commit(&change, day)?;
            Ok(Reply::Done { number })
        }
    }
}
