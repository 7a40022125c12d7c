//! What a policy allows a role in each cell to each set of relations.

ghost use Rattle.std.specs.Prelude.{◌≡◌, ◌&&◌, length, slice_index, IfOk};
ghost use Rattle.permit_base.specs.declared.words.Role.{Role as TheRole};
ghost use Rattle.permit_base.specs.declared.words.Action.{Action as TheAction};
ghost use Rattle.permit_base.specs.declared.words.Relations.{Relations as TheRelations};
ghost use Rattle.permit_model.specs.Policy.{is_allow, matches_relations};
ghost use Rattle.permit_model.specs.Opened.{Cell as TheCell, allowed_by};
ghost use Rattle.permit_policy.specs.Masks.{cell_number, has_set, may};
ghost use Rattle.permit_policy.specs.Hits.{is_for, covers, AreHits};

use crate::cell::{CELLS, Cell};
use crate::decide::Policy;
use crate::rule::Rule;
use crate::sets::{EVERY_SET, has_set, sets_passing};
use permit_base::words::{Action, Effect, Relations, Role};
use std::alloc::{AllocError, Global};
use std::marker::Model;

/// What a policy allows one role by one action: for each of the 112 cells 64 bits, of which bit k says whether the set of
/// relations of number k is allowed.
#[derive(Drop)]
pub struct Masks {
    words: Vec<u64>,
}

impl Model for Masks {
    ghost use Rattle.std.specs.Prelude.{◌≡◌, List, ℕ, length};

    ghost Value = { List ℕ };

    ghost view = { λ m. m.words.items };

    ghost invariant = { λ m. length m.words.items ≡ 112 };
}

impl Masks {
    /// The word of a cell: bit k says whether the set of relations of number k is allowed.
    pub(crate) fn word(&self, cell: Cell) -> u64
        ensures { result ≡ slice_index self.now (cell_number cell) }
    {
        self.words[cell.number()]
    }

    /// Whether the relations are allowed in the cell.
    pub fn may(&self, cell: Cell, relations: Relations) -> bool
        ensures { result ≡ may self.now cell relations }
    {
        has_set(self.word(cell), relations)
    }
}

/// The sets of relations with which the rule matches the role and the action, in any cell that it covers.
fn hits_of(rule: &Rule, role: Role, action: Action) -> u64
    ensures { (set : TheRelations) → has_set result set ≡ (is_for rule.now role action && matches_relations rule.now.relation set) }
{
    if rule.is_for(role, action) {
        sets_passing(&rule.relation)
    } else {
        0
    }
}

/// These sets for each rule, in the rules' order.
pub(crate) fn hits_by_rule(
    alloc: Global,
    rules: &[Rule],
    role: Role,
    action: Action,
) -> Result<Vec<u64>, AllocError>
    ensures { IfOk result (λ hits. AreHits role action rules.now hits.items) }
{
    let mut hits = Vec::with_capacity(alloc, rules.len())?;
    for rule in rules {
        hits.push(hits_of(rule, role, action))?;
    }
    Ok(hits)
}

/// Of the sets for which no rule before has decided, those for which this one decides in the cell.
pub(crate) fn decided_by(rule: &Rule, hits: u64, undecided: u64, cell: Cell) -> u64
    ensures { (set : TheRelations) → has_set result set ≡ (covers rule.now cell && has_set hits set && has_set undecided set) }
{
    let decided = hits & undecided;
    if decided != 0 && rule.covers(cell) {
        decided
    } else {
        0
    }
}

/// Of the sets for which a rule decides, those that it allows.
fn allowed_by(effect: Effect, decided: u64) -> u64
    ensures { (set : TheRelations) → has_set result set ≡ (is_allow effect && has_set decided set) }
{
    match effect {
        Effect::Allow => decided,
        Effect::Deny => 0,
    }
}

/// The sets of relations that are allowed in the cell, by the sets that each rule hits.
fn allowed_in(rules: &[Rule], hits: &[u64], cell: Cell) -> u64
    requires { length hits.now ≡ length rules.now }
    ensures { (role : TheRole) (action : TheAction) → AreHits role action rules.now hits.now → (set : TheRelations) →
        has_set result set ≡ allowed_by rules.now role action cell set }
{
    let mut undecided = EVERY_SET;
    let mut allowed = 0;
    for (place, rule) in rules.iter().enumerate() {
        let decided = decided_by(rule, hits[place], undecided, cell);
        allowed |= allowed_by(rule.effect, decided);
        undecided &= !decided;
    }
    allowed
}

/// What the rules allow the role by the action in each cell to each set of relations.
pub(crate) fn compile_rules(
    alloc: Global,
    rules: &[Rule],
    role: Role,
    action: Action,
) -> Result<Masks, AllocError>
    ensures exact { IfOk result (λ masks. (cell : TheCell) (set : TheRelations) → may masks cell set ≡ allowed_by rules.now role action cell set) }
{
    let hits = hits_by_rule(alloc, rules, role, action)?;
    let mut words = Vec::with_capacity(alloc, CELLS)?;
    for number in 0..CELLS {
        words.push(allowed_in(rules, &hits, Cell::numbered(number)))?;
    }
    Ok(Masks { words })
}

/// What the policy allows the role by the action in each cell to each set of relations. It fails only where memory runs
/// out.
pub fn compile(
    alloc: Global,
    policy: &Policy,
    role: Role,
    action: Action,
) -> Result<Masks, AllocError>
    ensures exact { IfOk result (λ masks. (cell : TheCell) (set : TheRelations) → may masks cell set ≡ allowed_by policy.now role action cell set) }
{
    compile_rules(alloc, policy.in_order(), role, action)
}
