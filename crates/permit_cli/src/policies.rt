//! Reading a policy, and saying of it what is asked.

ghost use Rattle.std.specs.Prelude.{◌≡◌, ◌⊎◌, IfErr, IfOk, None, Some};
ghost use Rattle.permit_args.specs.FactsText.{facts_in, pieces};
ghost use Rattle.permit_import.specs.declared.refused.RefusalWord.TheVariants.{Store};
ghost use Rattle.permit_subcommands.specs.Failures.{plain};
ghost use Rattle.permit_subcommands.specs.declared.failure.Failure.TheVariants as failure;
ghost use Rattle.permit_cli.specs.Doing.{IsPolicyChecked};
ghost use Rattle.permit_cli.specs.Failing.{FailsToCheck, IsAgainstFailure, IsPolicyFailure};

use permit_args::checking::{dead_text, explained_text, rules_text};
use permit_args::facts::read_facts;
use permit_args::plan::{Check, CheckPolicyWords};
use permit_database::outcome::Outcome;
use permit_policy::text::read_policy;
use permit_policy::{Facts, Policy, TableForm, changes_text, differences, table_of, table_text};
use permit_subcommands::failure::Failure;
use std::alloc::{AllocError, Global};
use std::fs;

/// Reads the policy at a path.
pub(crate) fn policy_at(rt: &HostRuntime, path: &str) -> Result<Policy, Failure>
    ensures { IfErr result (IsPolicyFailure path.now) }
{
    match fs::read_to_string(rt, path) {
        Ok(text) => match read_policy(rt.alloc(), text.as_str()) {
            Ok(policy) => Ok(policy),
            Err(error) => Err(Failure::of_policy(error)),
        },
        Err(error) => Err(Failure::of_reading(rt.alloc(), path, &error)),
    }
}

/// Reads the policy at a path, with which another one is compared.
fn against_at(rt: &HostRuntime, path: &str) -> Result<Policy, Failure>
    ensures { IfErr result (IsAgainstFailure path.now) }
{
    match fs::read_to_string(rt, path) {
        Ok(text) => match read_policy(rt.alloc(), text.as_str()) {
            Ok(policy) => Ok(policy),
            Err(error) => Err(Failure::of_against(error)),
        },
        Err(error) => Err(Failure::of_reading(rt.alloc(), path, &error)),
    }
}

/// What the policy opens and closes beside the other.
fn changes(alloc: Global, policy: &Policy, other: &Policy) -> Result<String, AllocError> {
    let all = differences(alloc, policy, other)?;
    changes_text(alloc, &all)
}

/// Who may do what under the policy.
fn table(alloc: Global, policy: &Policy, form: TableForm) -> Result<String, AllocError> {
    let rows = table_of(alloc, policy)?;
    table_text(alloc, &rows, form)
}

/// The facts of a word.
fn facts_of(alloc: Global, text: &str) -> Result<Facts, Failure>
    ensures read { IfOk result (λ facts. facts_in (pieces 44 text.now) ≡ Some facts) }
    ensures refused { IfErr result (λ why. (why ≡ plain Store) ⊎ ((why ≡ failure.Facts) × (facts_in (pieces 44 text.now) ≡ None))) }
{
    match read_facts(alloc, text)? {
        Some(facts) => Ok(facts),
        None => Err(Failure::Facts),
    }
}

/// Reads the policy at a path, and says of it what is asked. The facts are read first.
pub(crate) fn check_policy(
    rt: &HostRuntime,
    words: &CheckPolicyWords<'_>,
) -> Result<Outcome, Failure>
    ensures says { IfOk result (IsPolicyChecked words.now.check) }
    ensures fails { IfErr result (FailsToCheck words.now) }
{
    let alloc = rt.alloc();
    match words.check {
        Check::Rules => {
            let text = rules_text(alloc, &policy_at(rt, words.policy)?)?;
            Ok(Outcome::Checked(text))
        }
        Check::Dead => {
            let text = dead_text(alloc, &policy_at(rt, words.policy)?)?;
            Ok(Outcome::Checked(text))
        }
        Check::Facts(text) => {
            let facts = facts_of(alloc, text)?;
            let text = explained_text(alloc, &policy_at(rt, words.policy)?, &facts)?;
            Ok(Outcome::Checked(text))
        }
        Check::Against(path) => {
            let policy = policy_at(rt, words.policy)?;
            let other = against_at(rt, path)?;
            let text = changes(alloc, &policy, &other)?;
            Ok(Outcome::Checked(text))
        }
        Check::Table => {
            let text = table(alloc, &policy_at(rt, words.policy)?, words.form)?;
            Ok(Outcome::Checked(text))
        }
    }
}
