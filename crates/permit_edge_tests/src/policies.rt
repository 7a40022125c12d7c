//! Why a policy is refused, in words: each reason with its exact line.

use permit_policy::{PolicyError, PolicyFault, read_policy};
use permit_reasons::policy_reason;
use std::alloc::Global;
use std::test::Fail;

/// Texts with one fault each, and their lines.
const REASONS: [(&str, &str); 32] = [
    (
        "rules = 1\n",
        "unknown key `rules`: the text has rule alone",
    ),
    (
        "rule = 1\n",
        "rule is no list of tables: [[rule]] begins each",
    ),
    ("rule = [1]\n", "rule 1: no table: [[rule]] begins one"),
    (
        "[[rule]]\nname = \"x\"\neffect = \"deny\"\ncolour = 1\n",
        "rule 1 `x`: unknown key `colour`: a rule has name, effect, role, relation, both, action, stage, timing and stopped",
    ),
    ("[[rule]]\neffect = \"deny\"\n", "rule 1: name missing"),
    (
        "[[rule]]\nname = 7\neffect = \"deny\"\n",
        "rule 1: name is no text: 1 to 32 of a-z, 0-9 and -",
    ),
    (
        "[[rule]]\nname = \"a\"\n",
        "rule 1 `a`: effect missing: allow or deny",
    ),
    (
        "[[rule]]\nname = \"a\"\neffect = true\n",
        "rule 1 `a`: effect is no text: allow or deny",
    ),
    (
        "[[rule]]\nname = \"a\"\neffect = \"deny\"\nrole = \"clerk\"\n",
        "rule 1 `a`: role is no list of texts: public, clerk, reviewer, inspector or official",
    ),
    (
        "[[rule]]\nname = \"a\"\neffect = \"deny\"\ntiming = [\"past\", 1]\n",
        "rule 1 `a`: timing is no list of texts: none, past, near or ahead",
    ),
    (
        "[[rule]]\nname = \"a\"\neffect = \"deny\"\nstopped = \"yes\"\n",
        "rule 1 `a`: stopped: true or false",
    ),
    (
        "[[rule]]\nname = \"b\"\neffect = \"deny\"\nrelation = [\"owner\"]\nboth = [\"owner\", \"applicant\"]\n",
        "rule 1 `b`: relation and both stand in one rule",
    ),
    (
        "[[rule]]\nname = \"default\"\neffect = \"deny\"\n",
        "rule 1 `default`: name is that of a denial where no rule matches",
    ),
    (
        "[[rule]]\nname = \"Own work\"\neffect = \"deny\"\n",
        "rule 1 `Own work`: name: 1 to 32 of a-z, 0-9 and -",
    ),
    (
        "[[rule]]\nname = \"\"\neffect = \"deny\"\n",
        "rule 1 ``: name: 1 to 32 of a-z, 0-9 and -",
    ),
    (
        "[[rule]]\nname = \"z\"\neffect = \"deny\"\n[[rule]]\nname = \"a\"\neffect = \"deny\"\n[[rule]]\nname = \"a\"\neffect = \"let\"\n",
        "rule 3 `a`: name was used by rule 2",
    ),
    (
        "[[rule]]\nname = \"a\"\neffect = \"deny\"\n[[rule]]\nname = \"own-work\"\neffect = \"alow\"\n",
        "rule 2 `own-work`: effect `alow`: allow or deny",
    ),
    (
        "[[rule]]\nname = \"b\"\neffect = \"deny\"\nrole = [\"clerk\", \"clark\"]\n",
        "rule 1 `b`: role `clark`: public, clerk, reviewer, inspector or official",
    ),
    (
        "[[rule]]\nname = \"b\"\neffect = \"deny\"\nrole = []\n",
        "rule 1 `b`: role has 0 words: one word or more of public, clerk, reviewer, inspector or official",
    ),
    (
        "[[rule]]\nname = \"b\"\neffect = \"deny\"\nrole = [\"clerk\", \"public\", \"clerk\"]\n",
        "rule 1 `b`: role `clerk`: each word once",
    ),
    (
        "[[rule]]\nname = \"b\"\neffect = \"deny\"\nrelation = [\"neighbour\"]\n",
        "rule 1 `b`: relation `neighbour`: applicant, contractor, owner, assigned-reviewer, assigned-inspector or conflict",
    ),
    (
        "[[rule]]\nname = \"b\"\neffect = \"deny\"\nboth = [\"owner\"]\n",
        "rule 1 `b`: both has 1 words: two words of applicant, contractor, owner, assigned-reviewer, assigned-inspector or conflict",
    ),
    (
        "[[rule]]\nname = \"b\"\neffect = \"deny\"\nboth = [\"owner\", \"owner\"]\n",
        "rule 1 `b`: both `owner`: each word once",
    ),
    (
        "[[rule]]\nname = \"b\"\neffect = \"deny\"\nboth = [\"owner\", \"tenant\"]\n",
        "rule 1 `b`: both `tenant`: applicant, contractor, owner, assigned-reviewer, assigned-inspector or conflict",
    ),
    (
        "[[rule]]\nname = \"b\"\neffect = \"deny\"\naction = [\"isue\"]\n",
        "rule 1 `b`: action `isue`: add-party, add-staff, add-parcel, transfer, declare, read-parcel, file, read, list, assign-reviewer, assign-inspector, name-contractor, start-review, return, resubmit, approve-plans, reject, issue, ask-extension, grant-extension, refuse-extension, begin-work, request-inspection, approve-step, notice, clear-notice, stop, lift, revoke, temporary or certify",
    ),
    (
        "[[rule]]\nname = \"b\"\neffect = \"deny\"\nstage = [\"open\"]\n",
        "rule 1 `b`: stage `open`: filed, review, returned, approved, rejected, issued, working, revoked, finaled, certified, abandoned, lapsed, new or office",
    ),
    (
        "[[rule]]\nname = \"b\"\neffect = \"deny\"\ntiming = [\"late\"]\n",
        "rule 1 `b`: timing `late`: none, past, near or ahead",
    ),
    (
        "[[rule]]\nname = \"b\"\neffect = \"al\\u001b[1m\\nlow\"\n",
        "rule 1 `b`: effect `al?[1m?low`: allow or deny",
    ),
    (
        "[[rule]]\nname = \"b\"\neffect = \"größe-größe-größe-größe-größe-größe-größe-größe-größe-größe-größe\"\n",
        "rule 1 `b`: effect `größe-größe-größe-größe-größe-größe-größe-größe-größe-größe-`: allow or deny",
    ),
    (
        "[[rule]]\nname = \"default\"\neffect = \"let\"\n[[rule]]\ncolour = 1\n",
        "rule 2: unknown key `colour`: a rule has name, effect, role, relation, both, action, stage, timing and stopped",
    ),
    (
        "[[rule]]\nname = \"b\"\neffect = \"deny\"\nrole = [\"clerk\", \"clerk\", \"clark\"]\ntiming = []\n",
        "rule 1 `b`: role `clark`: public, clerk, reviewer, inspector or official",
    ),
    (
        "[[rule]]\nname = \"b\"\neffect = \"deny\"\nstopped = true\ntiming = []\n",
        "rule 1 `b`: timing has 0 words: one word or more of none, past, near or ahead",
    ),
];

/// The line for a text that `read_policy` refuses.
fn reason(alloc: Global, text: &str) -> Result<String, Fail> {
    match read_policy(alloc, text) {
        Ok(_) => Err(Fail::new("a text without a fault")),
        Err(error) => Ok(policy_reason(alloc, text, &error)?),
    }
}

#[test]
fn each_fault_of_a_few_lines_has_its_line(rt: HostRuntime) -> Result<(), Fail> {
    for (text, wanted) in REASONS {
        let line = reason(rt.alloc(), text)?;
        assert_eq!(rt; line.as_str(), wanted);
    }
    Ok(())
}

#[test]
fn a_text_that_is_no_toml_has_its_place(rt: HostRuntime) -> Result<(), Fail> {
    for (text, place) in [
        ("rule\n", "TOML parse error at line 1, column 5: "),
        (
            "[[rule]]\nname = \"a\"\neffect = deny\n",
            "TOML parse error at line 3, column 10: ",
        ),
    ] {
        let line = reason(rt.alloc(), text)?;
        assert!(rt; line.as_str().starts_with(place), "{line}");
        assert!(rt; line.as_str().len() > place.len() && !line.as_str().contains('\n'));
    }
    Ok(())
}

#[test]
fn texts_that_are_too_long_have_their_sizes(rt: HostRuntime) -> Result<(), Fail> {
    let mut many = String::new(rt.alloc());
    for number in 0..65 {
        let rule = format!(in rt.alloc(); "[[rule]]\nname = \"a{number}\"\neffect = \"deny\"\n")?;
        many.push_str(rule.as_str())?;
    }
    let line = reason(rt.alloc(), many.as_str())?;
    assert_eq!(rt; line.as_str(), "the text has 65 rules: at most 64");
    let mut long = String::new(rt.alloc());
    for _byte in 0..65537 {
        long.push('#')?;
    }
    let line = reason(rt.alloc(), long.as_str())?;
    assert_eq!(rt; line.as_str(), "the text has 65537 bytes: at most 65536");
    Ok(())
}

#[test]
fn an_error_of_another_text_has_a_line(rt: HostRuntime) -> Result<(), Fail> {
    let text = "[[rule]]\nname = \"a\"\neffect = \"deny\"\n";
    for (code, rule, wanted) in [
        (PolicyFault::Memory, 0, "out of memory"),
        (PolicyFault::List, 2, "rule 2 isn't there"),
        (PolicyFault::List, 1, "rule 1 `a`: each list is sound"),
        (
            PolicyFault::Unreadable,
            1,
            "rule 1 `a`: the fault is in no rule",
        ),
    ] {
        let line = policy_reason(rt.alloc(), text, &PolicyError { code, rule })?;
        assert_eq!(rt; line.as_str(), wanted);
    }
    Ok(())
}
