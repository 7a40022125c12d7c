//! Texts of policies, read and decided by.

use permit_base::words::{Action, Relations, Role, Stage, Timing};
use permit_policy::decide::decide;
use permit_policy::facts::Facts;
use permit_policy::{Policy, read_policy};
use permit_samples::held::Held;
use std::alloc::Global;
use std::process::Abort;
use std::test::Fail;

/// Who may act on plans: nobody on their own, and the assigned reviewer.
const PLANS: &str = "\
[[rule]]\n\
name = \"own-work\"\n\
effect = \"deny\"\n\
role = [\"clerk\", \"reviewer\", \"inspector\", \"official\"]\n\
relation = [\"applicant\", \"contractor\", \"owner\"]\n\
action = [\"start-review\", \"return\", \"approve-plans\", \"reject\"]\n\
\n\
[[rule]]\n\
name = \"reviewer-acts\"\n\
effect = \"allow\"\n\
role = [\"reviewer\"]\n\
relation = [\"assigned-reviewer\"]\n\
";

/// Whoever acts while a stop order is in force.
const STOPPED: &str = "[[rule]]\nname = \"stopped\"\neffect = \"allow\"\nstopped = true\n";

/// Who owns the parcel and reviews its plans, by a rule with the longest name.
const TWO: &str = "\
[[rule]]\n\
name = \"abcdefghijklmnopqrstuvwxyz-01234\"\n\
effect = \"allow\"\n\
both = [\"owner\", \"assigned-reviewer\"]\n\
";

/// The relations of an assigned reviewer who owns the parcel.
const OWNING_REVIEWER: Relations = Relations {
    applicant: false,
    contractor: false,
    owner: true,
    assigned_reviewer: true,
    assigned_inspector: false,
    conflict: false,
};

/// The relations of an assigned reviewer.
const REVIEWER: Relations = Relations {
    applicant: false,
    contractor: false,
    owner: false,
    assigned_reviewer: true,
    assigned_inspector: false,
    conflict: false,
};

/// No relations.
const NOBODY: Relations = Relations {
    applicant: false,
    contractor: false,
    owner: false,
    assigned_reviewer: false,
    assigned_inspector: false,
    conflict: false,
};

/// A reviewer approves plans on a parcel of their own.
const OWN: Facts = Facts {
    role: Role::Reviewer,
    relations: OWNING_REVIEWER,
    action: Action::ApprovePlans,
    stage: Stage::Review,
    stopped: false,
    timing: Timing::Ahead,
};

/// The same while a stop order is in force.
const OWN_STOPPED: Facts = Facts {
    role: Role::Reviewer,
    relations: OWNING_REVIEWER,
    action: Action::ApprovePlans,
    stage: Stage::Review,
    stopped: true,
    timing: Timing::Ahead,
};

/// A reviewer approves plans on a parcel of others.
const OTHERS: Facts = Facts {
    role: Role::Reviewer,
    relations: REVIEWER,
    action: Action::ApprovePlans,
    stage: Stage::Review,
    stopped: false,
    timing: Timing::Ahead,
};

/// An official adds a party.
const OFFICE: Facts = Facts {
    role: Role::Official,
    relations: NOBODY,
    action: Action::AddParty,
    stage: Stage::Office,
    stopped: false,
    timing: Timing::Untimed,
};

/// Texts with the count of their rules, and for facts whether they allow and by which rule.
const DECISIONS: [(&str, usize, Facts, bool, &str); 9] = [
    ("", 0, OFFICE, false, "default"),
    ("rule = []\n", 0, OFFICE, false, "default"),
    ("# nothing\n", 0, OFFICE, false, "default"),
    (PLANS, 2, OWN, false, "own-work"),
    (PLANS, 2, OTHERS, true, "reviewer-acts"),
    (STOPPED, 1, OWN, false, "default"),
    (STOPPED, 1, OWN_STOPPED, true, "stopped"),
    (TWO, 1, OWN, true, "abcdefghijklmnopqrstuvwxyz-01234"),
    (TWO, 1, OTHERS, false, "default"),
];

/// Texts with a fault, each with the fault's number and place.
const FAULTS: &[(&str, u8, usize)] = &[
    ("rule", 2, 0),
    ("x = ", 2, 0),
    ("rules = []\n", 3, 0),
    ("rule = 1\n", 3, 0),
    ("[rule]\nname = \"a\"\neffect = \"allow\"\n", 3, 0),
    ("rule = [1]\n", 3, 1),
    (
        "[[rule]]\nname = \"a\"\neffect = \"allow\"\n[[rule]]\nname = \"b\"\n",
        3,
        2,
    ),
    (
        "[[rule]]\nname = \"a\"\neffect = \"allow\"\n[[rule]]\neffect = \"deny\"\n",
        3,
        2,
    ),
    (
        "[[rule]]\nname = \"a\"\neffect = \"allow\"\nkind = [\"move\"]\n",
        3,
        1,
    ),
    (
        "[[rule]]\nname = \"a\"\neffect = \"allow\"\nrole = \"clerk\"\n",
        3,
        1,
    ),
    (
        "[[rule]]\nname = \"a\"\neffect = \"allow\"\nrole = [\"clerk\", 1]\n",
        3,
        1,
    ),
    (
        "[[rule]]\nname = \"a\"\neffect = \"allow\"\nstopped = \"no\"\n",
        3,
        1,
    ),
    (
        "[[rule]]\nname = \"a\"\neffect = \"allow\"\nboth = \"owner\"\n",
        3,
        1,
    ),
    (
        "[[rule]]\nname = \"a\"\neffect = \"allow\"\nboth = [\"owner\", 1]\n",
        3,
        1,
    ),
    (
        "[[rule]]\nname = \"a\"\neffect = \"allow\"\nrelation = [\"owner\"]\nboth = [\"owner\", \"conflict\"]\n",
        3,
        1,
    ),
    (
        "[[rule]]\nname = \"default\"\neffect = \"deny\"\nrole = []\n",
        5,
        1,
    ),
    (
        "[[rule]]\nname = \"a\"\neffect = \"let\"\n[[rule]]\nname = \"a\"\neffect = \"allow\"\n",
        5,
        2,
    ),
    ("[[rule]]\nname = \"\"\neffect = \"allow\"\n", 5, 1),
    ("[[rule]]\nname = \"A\"\neffect = \"allow\"\n", 5, 1),
    ("[[rule]]\nname = \"Default\"\neffect = \"allow\"\n", 5, 1),
    ("[[rule]]\nname = \"own work\"\neffect = \"allow\"\n", 5, 1),
    (
        "[[rule]]\nname = \"abcdefghijklmnopqrstuvwxyz-012345\"\neffect = \"allow\"\n",
        5,
        1,
    ),
    (
        "[[rule]]\nname = \"aaaaaaaaaaaaaaaaaaaaaaaaaaaaaaaaa\"\neffect = \"allow\"\n",
        5,
        1,
    ),
    (
        "[[rule]]\nname = \"a\"\neffect = \"allow\"\nrole = []\n[[rule]]\nname = \"b\"\neffect = \"let\"\n",
        6,
        2,
    ),
    (
        "[[rule]]\nname = \"a\"\neffect = \"allow\"\nrole = []\n",
        7,
        1,
    ),
    (
        "[[rule]]\nname = \"a\"\neffect = \"allow\"\n[[rule]]\nname = \"b\"\neffect = \"deny\"\ntiming = [\"past\", \"later\"]\n",
        7,
        2,
    ),
    (
        "[[rule]]\nname = \"a\"\neffect = \"allow\"\nstage = [\"filed\", \"filed\"]\n",
        7,
        1,
    ),
    (
        "[[rule]]\nname = \"a\"\neffect = \"allow\"\nboth = []\n",
        7,
        1,
    ),
    (
        "[[rule]]\nname = \"a\"\neffect = \"allow\"\nboth = [\"owner\"]\n",
        7,
        1,
    ),
    (
        "[[rule]]\nname = \"a\"\neffect = \"allow\"\nboth = [\"owner\", \"conflict\", \"applicant\"]\n",
        7,
        1,
    ),
    (
        "[[rule]]\nname = \"a\"\neffect = \"allow\"\nboth = [\"owner\", \"owner\"]\n",
        7,
        1,
    ),
    (
        "[[rule]]\nname = \"a\"\neffect = \"allow\"\n[[rule]]\nname = \"b\"\neffect = \"deny\"\nboth = [\"owner\", \"heir\"]\n",
        7,
        2,
    ),
    (
        "[[rule]]\nname = \"a\"\neffect = \"let\"\n[[rule]]\nname = \"b\"\neffect = \"allow\"\neffects = 1\n",
        3,
        2,
    ),
];

/// The fault of a text and its place, if it has one.
fn fault_of(alloc: Global, text: &str) -> Option<(u8, usize)> {
    match read_policy(alloc, text) {
        Ok(_) => None,
        Err(error) => Some((error.code.number(), error.rule)),
    }
}

#[test]
fn refuses_each_fault(rt: HostRuntime) {
    for (text, number, rule) in FAULTS {
        assert!(rt;
            fault_of(rt.alloc(), text) == Some((*number, *rule)),
            "{text}"
        );
    }
}

#[test]
fn refuses_more_than_65536_bytes(rt: HostRuntime) -> Result<(), Fail> {
    let bytes = [b' '; 65537];
    let text = str::from_utf8(&bytes)?;
    assert!(rt; fault_of(rt.alloc(), text) == Some((1, 0)));
    let text = str::from_utf8(&bytes[1..])?;
    assert!(rt; fault_of(rt.alloc(), text).is_none());
    Ok(())
}

/// A text of so many rules.
fn rules_of(alloc: Global, count: u32) -> Result<String, Fail> {
    let mut text = String::new(alloc);
    for n in 0..count {
        let rule = format!(in alloc; "[[rule]]\nname = \"rule-{n}\"\neffect = \"deny\"\n")?;
        text.push_str(&rule)?;
    }
    Ok(text)
}

#[test]
fn refuses_more_than_64_rules(rt: HostRuntime) -> Result<(), Fail> {
    let text = rules_of(rt.alloc(), 64)?;
    let policy = Held::new(read_policy(rt.alloc(), &text)?);
    assert!(rt; policy.value.rules() == 64);
    let text = rules_of(rt.alloc(), 65)?;
    assert!(rt; fault_of(rt.alloc(), &text) == Some((4, 0)));
    Ok(())
}

/// A policy decides so by its rule of this name.
fn decides(rt: &impl Abort, policy: &Policy, facts: &Facts, is_allow: bool, rule: &str) {
    let decision = decide(policy, facts);
    let denial = if is_allow { None } else { Some(decision.rule) };
    assert!(rt;
        decision.is_allow() == is_allow && decision.rule.as_str() == rule,
        "{rule}"
    );
    assert!(rt; policy.denial(facts) == denial, "{rule}");
}

#[test]
fn decides_by_its_rules(rt: HostRuntime) -> Result<(), Fail> {
    for (text, rules, facts, is_allow, rule) in DECISIONS {
        let policy = Held::new(read_policy(rt.alloc(), text)?);
        assert!(rt; policy.value.rules() == rules, "{text}");
        decides(&rt, &policy.value, &facts, is_allow, rule);
    }
    Ok(())
}
