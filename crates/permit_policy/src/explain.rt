//! Why a policy decides as it does.

ghost use Rattle.std.specs.Prelude.{◌≡◌, IfOk};
ghost use Rattle.permit_policy.specs.Explained.{explanation};

use crate::decide::Policy;
use crate::facts::Facts;
use crate::key::Key;
use permit_base::values::RuleName;
use std::alloc::{AllocError, Global};
use std::marker::Model;

/// A rule that was tried on some facts.
#[derive(Clone, Copy)]
pub struct Tried {
    /// The rule's name.
    pub rule: RuleName,
    /// The first key whose condition doesn't hold, in the order role, relation, both, action, stage, timing, stopped;
    /// None where the rule matches.
    pub failing: Option<Key>,
}

impl Model for Tried {
    ghost use Rattle.permit_policy.specs.Explained.{Tried as TheTried};

    ghost Value = { TheTried };

    ghost view = { λ t. record { rule = t.rule; failing = t.failing } };

    ghost inverse = { λ t. record { rule = t.rule; failing = t.failing } };
}

/// Each rule up to the one that decides, in order. The last of them matches; where no rule matches, each rule is there. It
/// fails only where memory runs out.
pub fn explain(alloc: Global, policy: &Policy, facts: &Facts) -> Result<Vec<Tried>, AllocError>
    ensures exact { IfOk result (λ tried. tried.items ≡ explanation policy.now facts.now) }
{
    let mut tried = Vec::new(alloc);
    for rule in policy.in_order() {
        let failing = rule.failing_key(facts);
        tried.push(Tried {
            rule: rule.name,
            failing,
        })?;
        if failing.is_none() {
            return Ok(tried);
        }
    }
    Ok(tried)
}
