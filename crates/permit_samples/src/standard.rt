//! The standard policy.

/// The text of the standard policy, as the repository keeps it beside the crates.
pub const POLICY: &str = "[[rule]]
name = \"no-conflict\"
effect = \"deny\"
relation = [\"conflict\"]
action = [\"start-review\", \"return\", \"approve-plans\", \"reject\", \"issue\", \"approve-step\", \"notice\", \"clear-notice\", \"temporary\", \"certify\"]

[[rule]]
name = \"own-work\"
effect = \"deny\"
role = [\"clerk\", \"reviewer\", \"inspector\", \"official\"]
relation = [\"applicant\", \"contractor\", \"owner\"]
action = [\"start-review\", \"return\", \"approve-plans\", \"reject\", \"issue\", \"approve-step\", \"notice\", \"clear-notice\", \"temporary\", \"certify\"]

[[rule]]
name = \"official-all\"
effect = \"allow\"
role = [\"official\"]

[[rule]]
name = \"clerk-desk\"
effect = \"allow\"
role = [\"clerk\"]
action = [\"add-party\", \"add-parcel\", \"transfer\", \"read-parcel\", \"read\", \"list\", \"assign-reviewer\", \"assign-inspector\", \"name-contractor\"]

[[rule]]
name = \"reviewer-acts\"
effect = \"allow\"
role = [\"reviewer\"]
relation = [\"assigned-reviewer\"]
action = [\"read\", \"list\", \"start-review\", \"return\", \"approve-plans\", \"reject\"]

[[rule]]
name = \"inspector-acts\"
effect = \"allow\"
role = [\"inspector\"]
relation = [\"assigned-inspector\"]
action = [\"read\", \"list\", \"approve-step\", \"notice\", \"clear-notice\", \"stop\"]

[[rule]]
name = \"closed-to-public\"
effect = \"deny\"
role = [\"public\"]
timing = [\"past\"]

[[rule]]
name = \"party-reads\"
effect = \"allow\"
relation = [\"applicant\", \"contractor\", \"owner\"]
action = [\"read\", \"list\", \"read-parcel\"]

[[rule]]
name = \"applicant-acts\"
effect = \"allow\"
role = [\"public\"]
relation = [\"applicant\"]
action = [\"name-contractor\", \"resubmit\", \"ask-extension\"]

[[rule]]
name = \"holder-acts\"
effect = \"allow\"
role = [\"public\"]
relation = [\"applicant\", \"contractor\"]
action = [\"begin-work\", \"request-inspection\"]

[[rule]]
name = \"public-files\"
effect = \"allow\"
role = [\"public\"]
action = [\"file\"]
stage = [\"new\"]

[[rule]]
name = \"staff-declares\"
effect = \"allow\"
role = [\"clerk\", \"reviewer\", \"inspector\"]
action = [\"declare\"]
";
