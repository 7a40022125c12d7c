//! What is printed of a policy.

ghost use Rattle.std.specs.Prelude.{◌≡◌, ◌++◌, length, IfOk, string_bytes};
ghost use Rattle.permit_model.specs.Policy.{decision};
ghost use Rattle.permit_policy.specs.Explained.{explanation};
ghost use Rattle.permit_args.specs.Checks.{decided_line, rules_line, tried_lines, TellsDead};

use permit_base::words::Word;
use permit_policy::decide::decide;
use permit_policy::explain::explain;
use permit_policy::{Facts, Policy, dead_rules};
use std::alloc::{AllocError, Global};

/// How many rules a policy has.
pub fn rules_text(alloc: Global, policy: &Policy) -> Result<String, AllocError>
    ensures { IfOk result (λ text. string_bytes text ≡ rules_line (length policy.now)) }
{
    let rules = policy.rules();
    format!(in alloc; "rules {rules}\n")
}

/// How many rules a policy has, and a line for each rule that decides for no facts.
pub fn dead_text(alloc: Global, policy: &Policy) -> Result<String, AllocError>
    ensures { IfOk result (λ text. TellsDead policy.now (string_bytes text)) }
{
    let dead = dead_rules(alloc, policy)?;
    let mut text = rules_text(alloc, policy)?;
    for rule in &dead {
        let name = rule.as_str();
        writeln!(text, "dead {name}")?;
    }
    Ok(text)
}

/// A line for each rule up to the one that decides for the facts, and a line with what is decided.
///
/// # Examples
///
/// ```
/// let text = "[[rule]]\nname = \"plans\"\neffect = \"allow\"\nrole = [\"reviewer\"]\n";
/// let policy = read_policy(alloc, text)?;
/// let explained = explained_text(alloc, &policy, &facts)?;
/// assert!(rt; explained.as_str() == "plans match\ndecided plans allow\n");
/// ```
pub fn explained_text(alloc: Global, policy: &Policy, facts: &Facts) -> Result<String, AllocError>
    ensures { IfOk result (λ text. string_bytes text ≡ tried_lines (explanation policy.now facts.now) ++ decided_line (decision policy.now facts.now)) }
{
    let explained = explain(alloc, policy, facts)?;
    let mut text = String::new(alloc);
    for tried in &explained {
        let name = tried.rule.as_str();
        let word = match tried.failing {
            Some(key) => key.word(),
            None => "match",
        };
        writeln!(text, "{name} {word}")?;
    }
    let decision = decide(policy, facts);
    let name = decision.rule.as_str();
    let effect = decision.effect.word();
    writeln!(text, "decided {name} {effect}")?;
    Ok(text)
}
