//! Who may do what under a policy.

ghost use Rattle.std.specs.Prelude.{◌≡◌, All, IfOk, map};
ghost use Rattle.std.specs.Bool.{OnTrue, OnFalse};
ghost use Rattle.permit_base.specs.Words.{all_actions};
ghost use Rattle.permit_base.specs.declared.words.Relations.{Relations as TheRelations};
ghost use Rattle.permit_model.specs.Opened.{Cell as TheCell, allowed_by};
ghost use Rattle.permit_policy.specs.Masks.{may};
ghost use Rattle.permit_policy.specs.Access.{access_of, action_of, AreAllowed, IsFull, TellsAccess, TellsRow};

use crate::cell::{CELLS, Cell};
use crate::decide::{Decision, Policy};
use crate::groups::{Group, gather_sets};
use crate::masks::{Masks, compile_rules};
use crate::region::Region;
use crate::sets::EVERY_SET;
use permit_base::values::RuleName;
use permit_base::words::{Action, Effect, Role, Word};
use std::alloc::{AllocError, Global};

/// Whether a role may do something.
#[derive(Drop)]
pub enum Access {
    /// Whatever the other facts are.
    Always,
    /// Whatever the other facts are not.
    Never,
    /// With the facts of one of these regions; no two of them could be one.
    Where(Vec<Region>),
}

/// Which roles may do something.
#[derive(Drop)]
pub struct Row {
    /// What is done.
    pub action: Action,
    pub public: Access,
    pub clerk: Access,
    pub reviewer: Access,
    pub inspector: Access,
    pub official: Access,
}

impl Row {
    /// Whether this role may do it.
    pub fn of_role(&self, role: Role) -> &Access
        ensures { result.now ≡ access_of self.now role }
    {
        match role {
            Role::Public => &self.public,
            Role::Clerk => &self.clerk,
            Role::Reviewer => &self.reviewer,
            Role::Inspector => &self.inspector,
            Role::Official => &self.official,
        }
    }
}

/// Whether each set of relations is allowed in each cell.
fn is_full(masks: &Masks) -> bool
    ensures full { OnTrue result (IsFull (may masks.now)) }
    ensures more { OnFalse result (IsFull (may masks.now) → ⊥) }
{
    for number in 0..CELLS {
        if masks.word(Cell::numbered(number)) != EVERY_SET {
            return false;
        }
    }
    true
}

/// The groups without what is decided.
fn bare_regions(alloc: Global, groups: &[Group]) -> Result<Vec<Region>, AllocError>
    ensures { IfOk result (λ regions. regions.items ≡ map (λ group. group.region) groups.now) }
{
    groups.iter().map(|group| group.region).collect(alloc)
}

/// What is allowed, each of it in one region.
fn regions_of(alloc: Global, masks: &Masks) -> Result<Vec<Region>, AllocError>
    ensures { IfOk result (λ regions. AreAllowed (may masks.now) regions.items) }
{
    let unnamed = Decision {
        effect: Effect::Deny,
        rule: RuleName::default_denial(),
    };
    let mut groups = Vec::new(alloc);
    for number in 0..CELLS {
        let cell = Cell::numbered(number);
        gather_sets(&mut groups, masks.word(cell), cell, &unnamed, &unnamed)?;
    }
    let regions = bare_regions(alloc, &groups)?;
    Ok(regions)
}

/// What the policy lets the role do by the action.
fn access_for(
    alloc: Global,
    policy: &Policy,
    role: Role,
    action: Action,
) -> Result<Access, AllocError>
    ensures { IfOk result (TellsAccess (allowed_by policy.now role action)) }
{
    let masks = compile_rules(alloc, policy.in_order(), role, action)?;
    if is_full(&masks) {
        return Ok(Access::Always);
    }
    let regions = regions_of(alloc, &masks)?;
    if regions.is_empty() {
        return Ok(Access::Never);
    }
    Ok(Access::Where(regions))
}

/// What the policy lets each role do by the action.
fn row_for(alloc: Global, policy: &Policy, action: Action) -> Result<Row, AllocError>
    ensures action { IfOk result (λ row. row.action ≡ action) }
    ensures told { IfOk result (TellsRow policy.now) }
{
    Ok(Row {
        action,
        public: access_for(alloc, policy, Role::Public, action)?,
        clerk: access_for(alloc, policy, Role::Clerk, action)?,
        reviewer: access_for(alloc, policy, Role::Reviewer, action)?,
        inspector: access_for(alloc, policy, Role::Inspector, action)?,
        official: access_for(alloc, policy, Role::Official, action)?,
    })
}

/// Who may do what under a policy: a row for each action, in the order of their table. `Always` and `Never` are exactly
/// where all facts of the role and the action are decided so. It fails only where memory runs out.
///
/// # Examples
///
/// ```
/// let rows = table_of(alloc, &new)?;
/// let table = table_text(alloc, &rows, TableForm::Csv)?;
/// let head = "action,public,clerk,reviewer,inspector,official\r\nadd-party,no,no,yes,no,no\r\n";
/// assert!(rt; table.as_str().starts_with(head));
/// ```
pub fn table_of(alloc: Global, policy: &Policy) -> Result<Vec<Row>, AllocError>
    ensures order { IfOk result (λ rows. map action_of rows.items ≡ all_actions) }
    ensures told { IfOk result (λ rows. All (TellsRow policy.now) rows.items) }
{
    let mut rows = Vec::new(alloc);
    for action in Action::all() {
        rows.push(row_for(alloc, policy, *action)?)?;
    }
    Ok(rows)
}
