//! What one policy decides differently from another, all of it.

ghost use Rattle.std.specs.Prelude.{◌≡◌, [], ◌∷◌, ◌++◌, All, IfOk, map};
ghost use Rattle.permit_base.specs.Words.{all_actions};
ghost use Rattle.permit_base.specs.declared.words.Relations.{Relations as TheRelations};
ghost use Rattle.permit_model.specs.Opened.{Cell as TheCell};
ghost use Rattle.permit_policy.specs.Groups.{Decided};
ghost use Rattle.permit_policy.specs.Shares.{decided_for, shared, TellsShare};
ghost use Rattle.permit_policy.specs.Changes.{all_requests, request_of, AreDifferences, GathersPairs, GathersShare, IsChanged};

use crate::cell::{CELLS, Cell};
use crate::decide::Policy;
use crate::groups::{Group, gather_sets};
use crate::masks::hits_by_rule;
use crate::rule::Rule;
use crate::shares::{Share, shares};
use permit_base::words::{Action, Role, Word};
use std::alloc::{AllocError, Global};

/// What two policies decide differently for one role and one action.
#[derive(Drop)]
pub struct Changes {
    /// The role.
    pub role: Role,
    /// The action.
    pub action: Action,
    /// The facts that are decided differently, each in one group.
    pub groups: Vec<Group>,
}

/// Adds the sets that two shares of a cell have in common, if they are decided differently.
fn gather_pair(
    groups: &mut Vec<Group>,
    cell: Cell,
    by: &Share,
    was: &Share,
) -> Result<(), AllocError>
    ensures { IfOk result (λ done. GathersShare cell by.now (was.now ∷ []) groups.old.items groups.new.items) }
{
    if by.decision.is_allow() == was.decision.is_allow() {
        return Ok(());
    }
    gather_sets(
        groups,
        by.sets & was.sets,
        cell,
        &by.decision,
        &was.decision,
    )?;
    Ok(())
}

/// Adds what a share has in common with those of the other policy that are decided differently.
fn gather_share(
    groups: &mut Vec<Group>,
    cell: Cell,
    by: &Share,
    was: &[Share],
) -> Result<(), AllocError>
    ensures { IfOk result (λ done. GathersShare cell by.now was.now groups.old.items groups.new.items) }
{
    for other in was {
        gather_pair(groups, cell, by, other)?;
    }
    Ok(())
}

/// Adds what two policies decide differently in a cell, by their shares.
fn gather_cell(
    groups: &mut Vec<Group>,
    cell: Cell,
    by: &[Share],
    was: &[Share],
) -> Result<(), AllocError>
    ensures { IfOk result (λ done. GathersPairs cell by.now was.now groups.old.items groups.new.items) }
{
    for share in by {
        gather_share(groups, cell, share, was)?;
    }
    Ok(())
}

/// What the rules decide differently from the others for a role and an action.
fn groups_of(
    alloc: Global,
    rules: &[Rule],
    others: &[Rule],
    role: Role,
    action: Action,
) -> Result<Vec<Group>, AllocError>
    ensures { IfOk result (λ groups. AreDifferences (decided_for rules.now role action) (decided_for others.now role action) groups.items) }
{
    let hits = hits_by_rule(alloc, rules, role, action)?;
    let other_hits = hits_by_rule(alloc, others, role, action)?;
    let mut groups = Vec::new(alloc);
    for number in 0..CELLS {
        let cell = Cell::numbered(number);
        let by = shares(alloc, rules, &hits, cell)?;
        let was = shares(alloc, others, &other_hits, cell)?;
        gather_cell(&mut groups, cell, &by, &was)?;
    }
    Ok(groups)
}

/// Adds what is decided differently for a role, action by action.
fn push_changes(
    alloc: Global,
    policy: &Policy,
    other: &Policy,
    role: Role,
    all: &mut Vec<Changes>,
) -> Result<(), AllocError>
    ensures order { IfOk result (λ done. map request_of all.new.items ≡ map request_of all.old.items ++ map (λ action. (role, action)) all_actions) }
    ensures each { IfOk result (λ done. All (IsChanged policy.now other.now) all.old.items → All (IsChanged policy.now other.now) all.new.items) }
{
    for action in Action::all() {
        all.push(Changes {
            role,
            action: *action,
            groups: groups_of(alloc, policy.in_order(), other.in_order(), role, *action)?,
        })?;
    }
    Ok(())
}

/// What a policy decides differently from another, for each role and each action in the order of their tables: each combination
/// of facts that one allows and the other denies is in one group, and no other is in any; and no two groups of a role and an
/// action, with the same decisions, differ in the relations, the stages, the stop order or the timings alone. It fails only
/// where memory runs out.
///
/// # Examples
///
/// ```
/// let new = read_policy(alloc, text)?;
/// let old = read_policy(alloc, "")?;
/// let all = differences(alloc, &new, &old)?;
/// let said = changes_text(alloc, &all)?;
/// assert!(rt; said.as_str().ends_with("opens 222208 closes 0\n"));
/// ```
pub fn differences(
    alloc: Global,
    policy: &Policy,
    other: &Policy,
) -> Result<Vec<Changes>, AllocError>
    ensures order { IfOk result (λ all. map request_of all.items ≡ all_requests) }
    ensures each { IfOk result (λ all. All (IsChanged policy.now other.now) all.items) }
{
    let mut all = Vec::new(alloc);
    for role in Role::all() {
        push_changes(alloc, policy, other, *role, &mut all)?;
    }
    Ok(all)
}
