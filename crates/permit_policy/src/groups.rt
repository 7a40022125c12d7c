//! Groups of facts that two policies decide differently, no two of which could be one.

ghost use Rattle.std.specs.Prelude.{◌≡◌, IfOk, position};
ghost use Rattle.permit_policy.specs.Groups.{can_join, opens, same_decision, Gathers, GathersSets};

use crate::cell::Cell;
use crate::decide::Decision;
use crate::region::Region;
use std::alloc::AllocError;

/// Facts of one role and one action that one policy decides in one way, and another policy in another.
#[derive(Clone, Copy)]
pub struct Group {
    /// The facts.
    pub region: Region,
    /// What the policy in question decides, and by which rule.
    pub by: Decision,
    /// What the other decides, and by which rule.
    pub was: Decision,
}

/// Whether two decisions are one.
fn same_decision(a: &Decision, b: &Decision) -> bool
    ensures { result ≡ same_decision a.now b.now }
{
    a.rule == b.rule && a.is_allow() == b.is_allow()
}

impl Group {
    /// Whether the policy in question allows what the other denies; else it denies what the other allows.
    pub fn opens(&self) -> bool
        ensures { result ≡ opens self.now }
    {
        self.by.is_allow()
    }

    /// Whether the group and facts of these decisions differ in one set alone, or in none.
    fn can_join(&self, region: &Region, by: &Decision, was: &Decision) -> bool
        ensures { result ≡ can_join region.now by.now was.now self.now }
    {
        self.region.joins(region) && same_decision(&self.by, by) && same_decision(&self.was, was)
    }
}

/// The place of the first group that these facts can be one with.
fn joining_place(groups: &[Group], region: &Region, by: &Decision, was: &Decision) -> Option<usize>
    ensures { result ≡ position (can_join region.now by.now was.now) groups.now }
{
    groups
        .iter()
        .position(|group| group.can_join(region, by, was))
}

/// Adds facts that none of the groups has, with each group that they can be one with.
fn gather(
    groups: &mut Vec<Group>,
    region: Region,
    by: &Decision,
    was: &Decision,
) -> Result<(), AllocError>
    ensures { IfOk result (λ done. Gathers region by.now was.now groups.old.items groups.new.items) }
{
    let mut region = region;
    while let Some(place) = joining_place(groups, &region, by, was) {
        let other = groups.remove(place);
        region = other.region.joined(&region);
    }
    groups.push(Group {
        region,
        by: *by,
        was: *was,
    })?;
    Ok(())
}

/// Adds these sets of relations in a cell, which none of the groups has there.
pub(crate) fn gather_sets(
    groups: &mut Vec<Group>,
    sets: u64,
    cell: Cell,
    by: &Decision,
    was: &Decision,
) -> Result<(), AllocError>
    ensures { IfOk result (λ done. GathersSets sets cell by.now was.now groups.old.items groups.new.items) }
{
    if sets == 0 {
        return Ok(());
    }
    gather(groups, Region::of_cell(sets, cell), by, was)?;
    Ok(())
}
