//! What the checks of a policy's text report to its author: rules that never decide, and why a rule decided.

use permit_base::values::RuleName;
use permit_base::words::{Action, Relations, Role, Stage, Timing, Word};
use permit_policy::dead::dead_rules;
use permit_policy::explain::{Tried, explain};
use permit_policy::facts::Facts;
use permit_policy::key::Key;
use permit_policy::read_policy;
use permit_samples::held::Held;
use permit_samples::standard::POLICY;
use std::alloc::Global;
use std::test::Fail;

/// The third rule decides for nobody: each role is another rule's before it.
const EVERY_ROLE: &str = "\
[[rule]]\n\
name = \"a\"\n\
effect = \"deny\"\n\
role = [\"clerk\"]\n\
\n\
[[rule]]\n\
name = \"b\"\n\
effect = \"deny\"\n\
role = [\"public\", \"reviewer\", \"inspector\", \"official\"]\n\
\n\
[[rule]]\n\
name = \"c\"\n\
effect = \"deny\"\n\
";

/// The second rule and the last decide for nothing: who has both relations has one of them.
const BOTH_BEHIND_ONE: &str = "\
[[rule]]\n\
name = \"owner\"\n\
effect = \"allow\"\n\
relation = [\"owner\"]\n\
\n\
[[rule]]\n\
name = \"owner-contractor\"\n\
effect = \"deny\"\n\
both = [\"contractor\", \"owner\"]\n\
\n\
[[rule]]\n\
name = \"contractor-conflict\"\n\
effect = \"deny\"\n\
both = [\"contractor\", \"conflict\"]\n\
stopped = false\n\
\n\
[[rule]]\n\
name = \"both-again\"\n\
effect = \"allow\"\n\
both = [\"conflict\", \"contractor\"]\n\
stopped = false\n\
timing = [\"past\"]\n\
";

/// A rule for each key, each of which fails there alone.
const EACH_KEY: &str = "\
[[rule]]\n\
name = \"key-role\"\n\
effect = \"deny\"\n\
role = [\"clerk\"]\n\
stopped = true\n\
\n\
[[rule]]\n\
name = \"key-relation\"\n\
effect = \"deny\"\n\
relation = [\"conflict\"]\n\
action = [\"read\"]\n\
\n\
[[rule]]\n\
name = \"key-both\"\n\
effect = \"deny\"\n\
both = [\"owner\", \"conflict\"]\n\
action = [\"read\"]\n\
\n\
[[rule]]\n\
name = \"key-action\"\n\
effect = \"deny\"\n\
action = [\"read\"]\n\
stage = [\"filed\"]\n\
\n\
[[rule]]\n\
name = \"key-stage\"\n\
effect = \"deny\"\n\
stage = [\"filed\"]\n\
timing = [\"past\"]\n\
\n\
[[rule]]\n\
name = \"key-timing\"\n\
effect = \"deny\"\n\
timing = [\"past\"]\n\
stopped = true\n\
\n\
[[rule]]\n\
name = \"key-stopped\"\n\
effect = \"deny\"\n\
stopped = true\n\
";

/// Texts with the names of their dead rules, each followed by a space.
const DEAD: [(&str, &str); 4] = [
    (EVERY_ROLE, "c "),
    (POLICY, ""),
    ("", ""),
    (BOTH_BEHIND_ONE, "owner-contractor both-again "),
];

/// Texts with what is tried for an assigned reviewer who approves the plans on a parcel of their own: each rule with its
/// failing key or `match`, a line each.
const EXPLAINED: [(&str, &str); 3] = [
    (POLICY, "no-conflict relation\nown-work match\n"),
    (
        EACH_KEY,
        "\
        key-role role\n\
        key-relation relation\n\
        key-both both\n\
        key-action action\n\
        key-stage stage\n\
        key-timing timing\n\
        key-stopped stopped\n",
    ),
    ("", ""),
];

/// The facts of that reviewer.
const OWN_PLANS: Facts = Facts {
    role: Role::Reviewer,
    relations: Relations {
        applicant: false,
        contractor: false,
        owner: true,
        assigned_reviewer: true,
        assigned_inspector: false,
        conflict: false,
    },
    action: Action::ApprovePlans,
    stage: Stage::Review,
    stopped: false,
    timing: Timing::Ahead,
};

fn dead(alloc: Global, text: &str) -> Result<Vec<RuleName>, Fail> {
    let policy = Held::new(read_policy(alloc, text)?);
    Ok(dead_rules(alloc, &policy.value)?)
}

/// The names of the dead rules, each followed by a space.
fn dead_in(alloc: Global, text: &str) -> Result<String, Fail> {
    let mut names = String::new(alloc);
    for name in &dead(alloc, text)? {
        let name = name.as_str();
        write!(names, "{name} ")?;
    }
    Ok(names)
}

fn tried(alloc: Global, text: &str) -> Result<Vec<Tried>, Fail> {
    let policy = Held::new(read_policy(alloc, text)?);
    Ok(explain(alloc, &policy.value, &OWN_PLANS)?)
}

/// Each rule that was tried, with its failing key or `match`, a line each.
fn explained(alloc: Global, text: &str) -> Result<String, Fail> {
    let mut lines = String::new(alloc);
    for tried in &tried(alloc, text)? {
        let (rule, outcome) = (
            tried.rule.as_str(),
            tried.failing.map_or("match", Word::word),
        );
        writeln!(lines, "{rule} {outcome}")?;
    }
    Ok(lines)
}

#[test]
fn dead_rules_are_named(rt: HostRuntime) -> Result<(), Fail> {
    for (text, names) in DEAD {
        assert!(rt; dead_in(rt.alloc(), text)?.as_str() == names, "{names}");
    }
    Ok(())
}

#[test]
fn decisions_are_explained(rt: HostRuntime) -> Result<(), Fail> {
    for (text, lines) in EXPLAINED {
        assert!(rt; explained(rt.alloc(), text)?.as_str() == lines, "{lines}");
    }
    Ok(())
}

#[test]
fn a_key_has_one_spelling(rt: HostRuntime) {
    for key in Key::all() {
        assert!(rt; Key::read(key.word()) == Some(*key));
    }
    assert!(rt; Key::read("name").is_none());
}
