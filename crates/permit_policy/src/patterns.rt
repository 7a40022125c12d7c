//! Sets of relations in words: those that have some relations and not others.

ghost use Rattle.std.specs.Prelude.{◌≡◌, ◌<◌, true, ◌&&◌, IfOk};
ghost use Rattle.std.specs.List.{list_any};
ghost use Rattle.permit_base.specs.declared.words.Relations.{Relations as TheRelations};
ghost use Rattle.permit_policy.specs.Masks.{has_set, set_number};
ghost use Rattle.permit_policy.specs.Patterns.{asks, exactly, fits, without};

use crate::region::has_bit;
use crate::sets::{EVERY_SET, sets_with};
use permit_base::words::{Relation, Relations, Word};
use std::alloc::{AllocError, Global};

/// What is asked of a set of relations: that it has some, and that it doesn't have others.
#[derive(Clone, Copy)]
pub struct Pattern {
    /// The relations that the set has.
    pub with: Relations,
    /// Those that it doesn't have.
    pub without: Relations,
}

/// The sets that have what is asked of one relation, by the sets that have the relation.
fn asked(with: bool, without: bool, sets: u64) -> u64
    ensures { (set : TheRelations) → has_set result set ≡ asks with without (has_set sets set) }
{
    if with {
        sets
    } else if without {
        !sets
    } else {
        EVERY_SET
    }
}

impl Pattern {
    /// The one set of a number, and no other.
    fn exactly(number: u32) -> Pattern
        requires { number < 64 }
        ensures { (set : TheRelations) → set_number set ≡ number → result ≡ exactly set }
    {
        let with = Relations {
            applicant: has_bit(sets_with(Relation::Applicant), number),
            contractor: has_bit(sets_with(Relation::Contractor), number),
            owner: has_bit(sets_with(Relation::Owner), number),
            assigned_reviewer: has_bit(sets_with(Relation::AssignedReviewer), number),
            assigned_inspector: has_bit(sets_with(Relation::AssignedInspector), number),
            conflict: has_bit(sets_with(Relation::Conflict), number),
        };
        Pattern {
            with,
            without: Relations {
                applicant: !with.applicant,
                contractor: !with.contractor,
                owner: !with.owner,
                assigned_reviewer: !with.assigned_reviewer,
                assigned_inspector: !with.assigned_inspector,
                conflict: !with.conflict,
            },
        }
    }

    /// Whether nothing is asked.
    pub fn is_any(&self) -> bool {
        Relation::all().iter().all(|relation| !self.with.has(*relation)
            && !self.without.has(*relation))
    }

    /// The sets that have what is asked.
    fn sets(&self) -> u64
        ensures { (set : TheRelations) → has_set result set ≡ fits self.now set }
    {
        let (with, without) = (&self.with, &self.without);
        asked(
            with.applicant,
            without.applicant,
            sets_with(Relation::Applicant),
        ) & asked(
            with.contractor,
            without.contractor,
            sets_with(Relation::Contractor),
        ) & asked(with.owner, without.owner, sets_with(Relation::Owner))
            & asked(
                with.assigned_reviewer,
                without.assigned_reviewer,
                sets_with(Relation::AssignedReviewer),
            )
            & asked(
                with.assigned_inspector,
                without.assigned_inspector,
                sets_with(Relation::AssignedInspector),
            )
            & asked(
                with.conflict,
                without.conflict,
                sets_with(Relation::Conflict),
            )
    }

    /// The same, but that nothing is asked of one relation, if the mask has all sets that are in it then.
    fn wider(&self, relation: Relation, mask: u64) -> Pattern
        ensures wider { (set : TheRelations) → fits self.now set ≡ true → fits result set ≡ true }
        ensures within { ((set : TheRelations) → fits self.now set ≡ true → has_set mask set ≡ true) → (set : TheRelations) →
            fits result set ≡ true → has_set mask set ≡ true }
    {
        let wider = Pattern {
            with: without(self.with, relation),
            without: without(self.without, relation),
        };
        if wider.sets() & !mask == 0 {
            wider
        } else {
            *self
        }
    }

    /// The same, but that nothing is asked of a relation wherever the mask has all sets that are in it then.
    fn widest(&self, mask: u64) -> Pattern
        ensures wider { (set : TheRelations) → fits self.now set ≡ true → fits result set ≡ true }
        ensures within { ((set : TheRelations) → fits self.now set ≡ true → has_set mask set ≡ true) → (set : TheRelations) →
            fits result set ≡ true → has_set mask set ≡ true }
    {
        let mut pattern = *self;
        for relation in Relation::all() {
            pattern = pattern.wider(*relation, mask);
        }
        pattern
    }
}

/// The set without a relation.
fn without(set: Relations, relation: Relation) -> Relations
    ensures { result ≡ without set relation }
{
    let mut set = set;
    match relation {
        Relation::Applicant => set.applicant = false,
        Relation::Contractor => set.contractor = false,
        Relation::Owner => set.owner = false,
        Relation::AssignedReviewer => set.assigned_reviewer = false,
        Relation::AssignedInspector => set.assigned_inspector = false,
        Relation::Conflict => set.conflict = false,
    }
    set
}

/// Patterns whose sets are those of the mask.
pub(crate) fn patterns(alloc: Global, mask: u64) -> Result<Vec<Pattern>, AllocError>
    ensures { IfOk result (λ patterns. (set : TheRelations) → list_any (λ p. fits p set) patterns.items ≡ has_set mask set) }
{
    let mut patterns = Vec::new(alloc);
    let mut left = mask;
    for number in 0..64 {
        if has_bit(left, number) {
            let pattern = Pattern::exactly(number).widest(mask);
            left &= !pattern.sets();
            patterns.push(pattern)?;
        }
    }
    Ok(patterns)
}
