//! Stores that make many changes by one commit.

ghost use Rattle.std.specs.Prelude.{◌≡◌, IfOk, None, OnOk};
ghost use Rattle.permit_model.specs.Renewal.{against_renewal, with_renewed};
ghost use Rattle.permit_model.specs.Tables.{Tables};
ghost use Rattle.permit_store.specs.Changes.{changed, Fits};
ghost use Rattle.permit_store.specs.Frames.{IsCommit};
ghost use Rattle.permit_batch.specs.Leading.{LeadThrough};

use permit_base::values::{Day, Digest, PartyId};
use permit_store::renewing::Renewing;
use permit_store::rows::{Change, Desk};
use permit_store::store::Got;
use std::alloc::Global;

/// A store that makes many changes by one commit. Each change is a step, which is written down beforehand and owns its texts.
pub trait Batching: Renewing {
    /// A change that is written down and not made.
    type Step: Drop;

    /// The step leads from the first tables to the second.
    ghost leads: { Self.Step → Tables → Tables → Type 0 };

    /// Writes down a change on a day, of tables with this desk. It fails only where memory is refused or there is no number for
    /// one more record of the change's kind.
    fn change_step(alloc: Global, desk: &Desk, change: &Change<'_>, day: Day) -> Got<Self::Step>
        ensures { (t : Tables) → desk.now ≡ t.desk → Fits t change.now day → IfOk result (λ step. leads step t (changed t change.now day)) };

    /// Writes down that a party is given another digest. It fails only where memory is refused.
    fn renewal_step(alloc: Global, party: PartyId, digest: &Digest) -> Got<Self::Step>
        ensures { (t : Tables) → against_renewal t.parties party digest.now ≡ None
            → IfOk result (λ step. leads step t (with_renewed party digest.now t)) };

    /// Makes all steps in turn by one commit, or answers an error and changes nothing. Where they don't lead from the tables that
    /// are held to others, a success promises nothing. A crash inside leaves the tables as they were, or with all steps made.
    ///
    /// # Examples
    ///
    /// ```
    /// let mut steps = Vec::new(alloc);
    /// steps.push(SqlStore::<MemStore>::renewal_step(alloc, party, &digest)?)?;
    /// store.commit_all(steps.as_slice())?;
    /// assert!(rt; store.party_by_token(&digest)?.is_some());
    /// ```
    fn commit_all(&mut self, steps: &[Self::Step]) -> Got<()>
        ensures made { (t u : Tables) → LeadThrough leads steps.now t u → (Self.Renewing.view self.old).holds t
            → OnOk result ((Self.Renewing.view self.new).holds u) }
        ensures commit { IsCommit (Self.Renewing.view self.old) (Self.Renewing.view self.new) result }
        ensures crash { (t u : Tables) → LeadThrough leads steps.now t u → Self.Renewing.crash self.old self.new t (λ left. left u) };
}
