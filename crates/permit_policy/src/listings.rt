//! What rules let each role list, compiled.

ghost use Rattle.std.specs.Prelude.{◌≡◌, IfOk};
ghost use Rattle.permit_policy.specs.Compiled.{AreCompiled, words_for};

use crate::masks::{Masks, compile_rules};
use crate::rule::Rule;
use permit_base::words::{Action, Role};
use std::alloc::{AllocError, Global};

/// What rules let each role list.
#[derive(Drop)]
pub(crate) struct Listings {
    public: Masks,
    clerk: Masks,
    reviewer: Masks,
    inspector: Masks,
    official: Masks,
}

impl Listings {
    /// What these rules let each role list.
    pub(crate) fn compile(alloc: Global, rules: &[Rule]) -> Result<Listings, AllocError>
        ensures { IfOk result (λ listings. AreCompiled rules.now listings) }
    {
        Ok(Listings {
            public: compile_rules(alloc, rules, Role::Public, Action::List)?,
            clerk: compile_rules(alloc, rules, Role::Clerk, Action::List)?,
            reviewer: compile_rules(alloc, rules, Role::Reviewer, Action::List)?,
            inspector: compile_rules(alloc, rules, Role::Inspector, Action::List)?,
            official: compile_rules(alloc, rules, Role::Official, Action::List)?,
        })
    }

    /// What they let this role list.
    pub(crate) fn of_role(&self, role: Role) -> &Masks
        ensures { result.now ≡ words_for self.now role }
    {
        match role {
            Role::Public => &self.public,
            Role::Clerk => &self.clerk,
            Role::Reviewer => &self.reviewer,
            Role::Inspector => &self.inspector,
            Role::Official => &self.official,
        }
    }
}
