//! The sets of relations, those together that one rule of a policy decides for.

ghost use Rattle.std.specs.Prelude.{◌≡◌, ◌+◌, ℕ, true, length, count_by, All, IfOk};
ghost use Rattle.permit_base.specs.declared.words.Relations.{Relations as TheRelations};
ghost use Rattle.permit_base.specs.declared.words.Role.{Role as TheRole};
ghost use Rattle.permit_base.specs.declared.words.Action.{Action as TheAction};
ghost use Rattle.permit_policy.specs.Hits.{AreHits};
ghost use Rattle.permit_policy.specs.Shares.{decided_for, shared, TellsShare, SharesMore};

use crate::cell::Cell;
use crate::decide::Decision;
use crate::masks::decided_by;
use crate::rule::Rule;
use crate::sets::EVERY_SET;
use permit_base::values::RuleName;
use permit_base::words::Effect;
use std::alloc::{AllocError, Global};

/// Sets of relations for which one rule decides in a cell, or none.
#[derive(Clone, Copy)]
pub(crate) struct Share {
    /// The sets.
    pub sets: u64,
    /// What is decided for them.
    pub decision: Decision,
}

/// Adds the sets for which a rule decides, if there are any.
fn push_decided(shares: &mut Vec<Share>, rule: &Rule, decided: u64) -> Result<(), AllocError>
    ensures { IfOk result (λ done. SharesMore rule.now decided shares.old.items shares.new.items) }
{
    if decided == 0 {
        return Ok(());
    }
    shares.push(Share {
        sets: decided,
        decision: Decision {
            effect: rule.effect,
            rule: rule.name,
        },
    })?;
    Ok(())
}

/// The shares of the rules in a cell, by the sets that each rule hits: each set is in one of them.
pub(crate) fn shares(
    alloc: Global,
    rules: &[Rule],
    hits: &[u64],
    cell: Cell,
) -> Result<Vec<Share>, AllocError>
    requires { length hits.now ≡ length rules.now }
    ensures once { IfOk result (λ shares. (set : TheRelations) → shared shares.items set ≡ 1) }
    ensures told { (role : TheRole) (action : TheAction) → AreHits role action rules.now hits.now → IfOk result (λ shares.
        All (TellsShare (decided_for rules.now role action cell)) shares.items) }
{
    let mut undecided = EVERY_SET;
    let mut shares = Vec::new(alloc);
    for (place, rule) in rules.iter().enumerate() {
        let decided = decided_by(rule, hits[place], undecided, cell);
        push_decided(&mut shares, rule, decided)?;
        undecided &= !decided;
    }
    shares.push(Share {
        sets: undecided,
        decision: Decision {
            effect: Effect::Deny,
            rule: RuleName::default_denial(),
        },
    })?;
    Ok(shares)
}
