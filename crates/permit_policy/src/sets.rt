//! Masks of sets of relations: bit k of 64 means the set of number k.

ghost use Rattle.std.specs.Prelude.{◌≡◌, ◌≤◌, ◌<◌};
ghost use Rattle.permit_base.specs.declared.words.Relations.{Relations as TheRelations};
ghost use Rattle.permit_model.specs.Facts.{holds, no_relations};
ghost use Rattle.permit_model.specs.Opened.{only, both_of};
ghost use Rattle.permit_model.specs.Policy.{OneOf, matches_relations};
ghost use Rattle.permit_policy.specs.Masks.{only_where, set_number, has_set};
ghost use Rattle.permit_policy.specs.Relating.{relation_view};

use crate::rule::RelationTest;
use permit_base::words::{Relation, Relations};

/// The mask of each set.
pub(crate) const EVERY_SET: u64 = u64::MAX;

fn only_where(held: bool, number: u32) -> u32
    ensures same { result ≡ only_where held number }
    ensures within { result ≤ number }
{
    if held { number } else { 0 }
}

/// The number of a set, below 64: bit k says whether the relation of code k is in it.
fn set_number(set: Relations) -> u32
    ensures same { result ≡ set_number set }
    ensures within { result < 64 }
{
    only_where(set.applicant, 1)
        + only_where(set.contractor, 2)
        + only_where(set.owner, 4)
        + only_where(set.assigned_reviewer, 8)
        + only_where(set.assigned_inspector, 16)
        + only_where(set.conflict, 32)
}

/// Whether the mask holds the set.
pub(crate) fn has_set(mask: u64, set: Relations) -> bool
    ensures { result ≡ has_set mask set }
{
    mask >> set_number(set) & 1 == 1
}

/// The set of no relation.
pub(crate) fn no_relations() -> Relations
    ensures { result ≡ no_relations }
{
    Relations {
        applicant: false,
        contractor: false,
        owner: false,
        assigned_reviewer: false,
        assigned_inspector: false,
        conflict: false,
    }
}

/// The set of one relation.
pub(crate) fn only(relation: Relation) -> Relations
    ensures { result ≡ only relation }
{
    Relations {
        applicant: relation == Relation::Applicant,
        contractor: relation == Relation::Contractor,
        owner: relation == Relation::Owner,
        assigned_reviewer: relation == Relation::AssignedReviewer,
        assigned_inspector: relation == Relation::AssignedInspector,
        conflict: relation == Relation::Conflict,
    }
}

/// The set of two relations.
pub(crate) fn both_of(first: Relation, second: Relation) -> Relations
    ensures { result ≡ both_of (first, second) }
{
    let one = only(first);
    let other = only(second);
    Relations {
        applicant: one.applicant || other.applicant,
        contractor: one.contractor || other.contractor,
        owner: one.owner || other.owner,
        assigned_reviewer: one.assigned_reviewer || other.assigned_reviewer,
        assigned_inspector: one.assigned_inspector || other.assigned_inspector,
        conflict: one.conflict || other.conflict,
    }
}

/// The sets that hold the relation.
pub(crate) fn sets_with(relation: Relation) -> u64
    ensures { (set : TheRelations) → has_set result set ≡ holds set relation }
{
    match relation {
        Relation::Applicant => 0xAAAA_AAAA_AAAA_AAAA,
        Relation::Contractor => 0xCCCC_CCCC_CCCC_CCCC,
        Relation::Owner => 0xF0F0_F0F0_F0F0_F0F0,
        Relation::AssignedReviewer => 0xFF00_FF00_FF00_FF00,
        Relation::AssignedInspector => 0xFFFF_0000_FFFF_0000,
        Relation::Conflict => 0xFFFF_FFFF_0000_0000,
    }
}

/// The sets that hold one of the relations at least.
fn sets_with_one(relations: &[Relation]) -> u64
    ensures { (set : TheRelations) → has_set result set ≡ matches_relations (OneOf relations.now) set }
{
    let mut sets = 0;
    for relation in relations {
        sets |= sets_with(*relation);
    }
    sets
}

/// The sets that pass the test.
pub(crate) fn sets_passing(test: &RelationTest) -> u64
    ensures { (set : TheRelations) → has_set result set ≡ matches_relations (relation_view test.now) set }
{
    match test {
        RelationTest::Any => EVERY_SET,
        RelationTest::OneOf(words) => sets_with_one(words),
        RelationTest::Both(first, second) => sets_with(*first) & sets_with(*second),
    }
}
