//! Rules that decide for no facts.

ghost use Rattle.std.specs.Prelude.{◌≡◌, false, length, replicate, IfOk};
ghost use Rattle.permit_base.specs.declared.words.Role.{Role as TheRole};
ghost use Rattle.permit_base.specs.declared.words.Action.{Action as TheAction};
ghost use Rattle.permit_policy.specs.Hits.{AreHits};
ghost use Rattle.permit_policy.specs.Dead.{AreDead};
ghost use Rattle.permit_policy.specs.Marks.{Marks, IsIn, IsOf, HasRole};

use crate::cell::{CELLS, Cell};
use crate::decide::Policy;
use crate::masks::{decided_by, hits_by_rule};
use crate::rule::Rule;
use crate::sets::EVERY_SET;
use permit_base::values::RuleName;
use permit_base::words::{Action, Role, Word};
use std::alloc::{AllocError, Global};

/// Marks each rule that decides in the cell for some set of relations. `hits` has the sets that each rule matches.
fn mark_in_cell(rules: &[Rule], hits: &[u64], cell: Cell, live: &mut [bool])
    requires hits { length hits.now ≡ length rules.now }
    requires marks { length live.old ≡ length rules.now }
    ensures { (role : TheRole) (action : TheAction) → AreHits role action rules.now hits.now → Marks rules.now (IsIn role action cell) live.old live.new }
{
    let mut undecided = EVERY_SET;
    for (place, rule) in rules.iter().enumerate() {
        let decided = decided_by(rule, hits[place], undecided, cell);
        live[place] |= decided != 0;
        undecided &= !decided;
    }
}

/// Marks each rule that decides in some cell for some set of relations.
fn mark_in_cells(rules: &[Rule], hits: &[u64], live: &mut [bool])
    requires hits { length hits.now ≡ length rules.now }
    requires marks { length live.old ≡ length rules.now }
    ensures { (role : TheRole) (action : TheAction) → AreHits role action rules.now hits.now → Marks rules.now (IsOf role action) live.old live.new }
{
    for number in 0..CELLS {
        mark_in_cell(rules, hits, Cell::numbered(number), live);
    }
}

/// Marks the rules that decide for the role by some action.
fn mark_for(alloc: Global, rules: &[Rule], role: Role, live: &mut [bool]) -> Result<(), AllocError>
    requires { length live.old ≡ length rules.now }
    ensures { IfOk result (λ done. Marks rules.now (HasRole role) live.old live.new) }
{
    for action in Action::all() {
        let hits = hits_by_rule(alloc, rules, role, *action)?;
        mark_in_cells(rules, &hits, live);
    }
    Ok(())
}

/// For each rule, whether it decides for some facts.
fn live_rules(alloc: Global, rules: &[Rule]) -> Result<Vec<bool>, AllocError>
    ensures { IfOk result (λ live. (length live.items ≡ length rules.now) × Marks rules.now (λ facts. Unit {0}) (replicate (length rules.now) false) live.items) }
{
    let mut live = vec![in alloc; false; rules.len()]?;
    for role in Role::all() {
        mark_for(alloc, rules, *role, &mut live)?;
    }
    Ok(live)
}

/// The names of the rules that decide for no facts, in the rules' order. Whatever such a rule matches, a rule before it
/// matches too. It fails only where memory runs out.
pub fn dead_rules(alloc: Global, policy: &Policy) -> Result<Vec<RuleName>, AllocError>
    ensures exact { IfOk result (λ names. AreDead policy.now names.items) }
{
    let rules = policy.in_order();
    let live = live_rules(alloc, rules)?;
    let mut names = Vec::new(alloc);
    for (place, rule) in rules.iter().enumerate() {
        if !live[place] {
            names.push(rule.name)?;
        }
    }
    Ok(names)
}
