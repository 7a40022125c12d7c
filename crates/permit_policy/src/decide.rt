//! A policy, and what it decides: the first rule that matches.

ghost use Rattle.std.specs.Prelude.{◌≡◌, length, IfOk};
ghost use Rattle.permit_base.specs.declared.words.Action.TheVariants as action;
ghost use Rattle.permit_base.specs.declared.words.Relations.{Relations as TheRelations};
ghost use Rattle.permit_model.specs.Opened.{Cell as TheCell, allowed_by};
ghost use Rattle.permit_model.specs.Policy.{decision, is_allow};
ghost use Rattle.permit_policy.specs.Masks.{may};
ghost use Rattle.permit_policy.specs.Denial.{denied};

use crate::facts::Facts;
use crate::listings::Listings;
use crate::masks::Masks;
use crate::rule::Rule;
use permit_base::values::RuleName;
use permit_base::words::{Effect, Role};
use std::alloc::{AllocError, Global};
use std::marker::Model;

/// The rules in the order written, with what they let each role list.
#[derive(Drop)]
pub struct Policy {
    rules: Vec<Rule>,
    listings: Listings,
}

impl Model for Policy {
    ghost use Rattle.std.specs.Prelude.{List};
    ghost use Rattle.permit_model.specs.Policy.{Rule as TheRule};
    ghost use Rattle.permit_policy.specs.Compiled.{AreCompiled};

    ghost Value = { List TheRule };

    ghost view = { λ p. p.rules.items };

    ghost invariant = { λ p. AreCompiled p.rules.items p.listings };
}

impl Policy {
    /// The policy of these rules. It fails only where memory runs out.
    pub(crate) fn new(alloc: Global, rules: Vec<Rule>) -> Result<Policy, AllocError>
        ensures { IfOk result (λ policy. policy ≡ rules.items) }
    {
        let listings = Listings::compile(alloc, &rules)?;
        Ok(Policy { rules, listings })
    }

    /// The rules in the order written.
    pub(crate) fn in_order(&self) -> &[Rule]
        ensures { result.now ≡ self.now }
    {
        &self.rules
    }

    /// The allocator of its rules. What is made of the policy may be allocated with it too.
    pub fn allocator(&self) -> Global {
        *self.rules.allocator()
    }

    /// The count of rules.
    pub fn rules(&self) -> usize
        ensures { result ≡ length self.now }
    {
        self.rules.len()
    }

    /// What the rules let the role list in each cell, to each set of relations. It was compiled once, when the policy was made.
    pub fn listing(&self, role: Role) -> &Masks
        ensures { (cell : TheCell) (set : TheRelations) → may result.now cell set ≡ allowed_by self.now role action.List cell set }
    {
        self.listings.of_role(role)
    }

    /// The name of the rule that denies, or None where the policy allows.
    ///
    /// # Examples
    ///
    /// ```
    /// let asked = Facts::office(Role::Public, Action::AddParcel);
    /// let rule = policy.denial(&asked).ok_or("a denial")?;
    /// assert!(rt; rule.as_str() == "default");
    /// ```
    pub fn denial(&self, facts: &Facts) -> Option<RuleName>
        ensures { result ≡ denied (decision self.now facts.now) }
    {
        let decision = decide(self, facts);
        if decision.is_allow() {
            None
        } else {
            Some(decision.rule)
        }
    }
}

/// What a policy decides, and by which rule.
#[derive(Clone, Copy)]
pub struct Decision {
    /// Whether the request is allowed.
    pub effect: Effect,
    /// The deciding rule's name, or `default` where no rule matched.
    pub rule: RuleName,
}

impl Model for Decision {
    ghost use Rattle.permit_model.specs.Policy.{Decision as TheDecision};

    ghost Value = { TheDecision };

    ghost view = { λ d. record { effect = d.effect; rule = d.rule } };

    ghost inverse = { λ d. record { effect = d.effect; rule = d.rule } };
}

impl Decision {
    /// Whether the request is allowed.
    pub fn is_allow(self) -> bool
        ensures { result ≡ is_allow self.effect }
    {
        match self.effect {
            Effect::Allow => true,
            Effect::Deny => false,
        }
    }
}

/// The effect of the first rule that matches, with its name; where none matches, a denial named `default`.
/// It takes no memory.
///
/// # Examples
///
/// ```
/// let asked = Facts::office(Role::Clerk, Action::AddParcel);
/// let decision = decide(&policy, &asked);
/// assert!(rt; decision.is_allow() && decision.rule.as_str() == "clerks");
/// ```
pub fn decide(policy: &Policy, facts: &Facts) -> Decision
    ensures { result ≡ decision policy.now facts.now }
{
    for rule in &policy.rules {
        if rule.matches(facts) {
            return Decision {
                effect: rule.effect,
                rule: rule.name,
            };
        }
    }
    Decision {
        effect: Effect::Deny,
        rule: RuleName::default_denial(),
    }
}
