//! The scenarios.

use crate::{filing, limits, listings, plans, unknown_and_missing, work};
use std::alloc::Global;
use std::test::Fail;

/// A scenario: its scripts, one after the other. It is played in an office of its own, after the opening.
pub type Scenario = &'static [&'static str];

/// A scenario whose last script is played under another policy than the standard one.
#[derive(Clone, Copy)]
pub struct UnderPolicy {
    /// The scripts before.
    pub scripts: Scenario,
    /// The policy's text.
    pub policy: &'static str,
    /// The script under it.
    pub last: &'static str,
}

const FILINGS: &[Scenario] = &[
    unknown_and_missing::UNKNOWN,
    unknown_and_missing::MISSING,
    filing::FILING,
    filing::EARLIER_DAY,
    limits::NUMBERS,
    limits::TEXTS,
    &[limits::FORMS],
    limits::REFUSED,
];

const APPLICATIONS: &[Scenario] = &[
    plans::EXTENSION,
    plans::ARITHMETIC,
    plans::POLICY_FIRST,
    plans::OWN_WORK,
    plans::ASKS,
    plans::REJECTION,
];

const INSPECTIONS: &[Scenario] = &[
    work::CONFLICT,
    work::STEPS_OF_CONSTRUCTION,
    work::STEPS_OF_ALTERATION,
    work::ENERGY_AFTER_FRAME,
    work::NOTICE,
    work::ACTIVITY,
];

const ORDERS: &[Scenario] = &[work::STOP, work::LAST_DAY, work::DAY_BEHIND, work::REVOKED];

const CERTIFICATES: &[Scenario] = &[work::CERTIFICATE, work::NO_CERTIFICATE, work::TEMPORARY];

const LISTINGS: &[Scenario] = &[listings::NOTHING, listings::WHO_LISTS, listings::REGISTERS];

const ZERO_RULES: UnderPolicy = UnderPolicy {
    scripts: &[filing::FILED],
    policy: "",
    last: r#"
> 1 19723 GET /files/1
< 403 Forbidden {"refused":"denied","rule":"default"}
> 1 19723 GET /parcels/1
< 403 Forbidden {"refused":"denied","rule":"default"}
> 1 19723 POST /parcels/1/transfer {"to":6}
< 403 Forbidden {"refused":"denied","rule":"default"}
> 1 19723 POST /parcels/1/declare
< 403 Forbidden {"refused":"denied","rule":"default"}
> 5 19723 POST /files {"parcel":1,"kind":"construct","valuation":1,"description":"House"}
< 403 Forbidden {"refused":"denied","rule":"default"}
> 5 19723 GET /files/1
< 403 Forbidden {"refused":"denied","rule":"default"}
> 2 19723 POST /files/1/assign-reviewer {"party":3}
< 403 Forbidden {"refused":"denied","rule":"default"}
> 2 19723 POST /files/1/assign-inspector {"party":4}
< 403 Forbidden {"refused":"denied","rule":"default"}
> 5 19723 POST /files/1/name-contractor {"party":6}
< 403 Forbidden {"refused":"denied","rule":"default"}
> 1 19723 POST /files/1/start-review
< 403 Forbidden {"refused":"denied","rule":"default"}
> 1 19723 POST /files/1/return {"text":"Stairs"}
< 403 Forbidden {"refused":"denied","rule":"default"}
> 1 19723 POST /files/1/resubmit {"text":"Stairs"}
< 403 Forbidden {"refused":"denied","rule":"default"}
> 1 19723 POST /files/1/approve-plans
< 403 Forbidden {"refused":"denied","rule":"default"}
> 1 19723 POST /files/1/reject {"text":"Stairs"}
< 403 Forbidden {"refused":"denied","rule":"default"}
> 1 19723 POST /files/1/issue
< 403 Forbidden {"refused":"denied","rule":"default"}
> 5 19723 POST /files/1/ask-extension {"days":90,"text":"Rain"}
< 403 Forbidden {"refused":"denied","rule":"default"}
> 1 19723 POST /files/1/grant-extension
< 403 Forbidden {"refused":"denied","rule":"default"}
> 1 19723 POST /files/1/refuse-extension {"text":"No cause"}
< 403 Forbidden {"refused":"denied","rule":"default"}
> 5 19723 POST /files/1/begin-work
< 403 Forbidden {"refused":"denied","rule":"default"}
> 5 19723 POST /files/1/request-inspection {"step":"footing"}
< 403 Forbidden {"refused":"denied","rule":"default"}
> 1 19723 POST /files/1/approve-step {"step":"footing"}
< 403 Forbidden {"refused":"denied","rule":"default"}
> 1 19723 POST /files/1/notice {"text":"Nails"}
< 403 Forbidden {"refused":"denied","rule":"default"}
> 1 19723 POST /files/1/clear-notice {"paper":1}
< 403 Forbidden {"refused":"denied","rule":"default"}
> 1 19723 POST /files/1/stop {"text":"Unsafe","conditions":"Shore it"}
< 403 Forbidden {"refused":"denied","rule":"default"}
> 1 19723 POST /files/1/lift
< 403 Forbidden {"refused":"denied","rule":"default"}
> 1 19723 POST /files/1/revoke {"text":"Lapsed"}
< 403 Forbidden {"refused":"denied","rule":"default"}
> 1 19723 POST /files/1/temporary {"days":60,"text":"Ground floor"}
< 403 Forbidden {"refused":"denied","rule":"default"}
> 1 19723 POST /files/1/certify
< 403 Forbidden {"refused":"denied","rule":"default"}
> 1 19723 GET /files
< 200 OK {"files":[]}
"#,
};

const OTHER_POLICIES: &[UnderPolicy] = &[
    ZERO_RULES,
    listings::DENY_ON_OWNER,
    listings::TWO_RELATIONS,
    listings::PAIR_BEFORE_ONE,
];

/// Filing and abandonment, a caller whom nobody knows, a record that there is not, a day before the last, and what bodies
/// may be.
pub fn filings() -> &'static [Scenario] {
    FILINGS
}

/// Applications, their review, extensions and issuance.
pub fn applications() -> &'static [Scenario] {
    APPLICATIONS
}

/// Inspections in their order, a notice, and an inspector with an interest.
pub fn inspections() -> &'static [Scenario] {
    INSPECTIONS
}

/// A stop work order, the last day to begin work, and a permit that is revoked.
pub fn orders() -> &'static [Scenario] {
    ORDERS
}

/// Certificates of occupancy, temporary ones among them.
pub fn certificates() -> &'static [Scenario] {
    CERTIFICATES
}

/// Listings and registers: who lists which files.
pub fn listings() -> &'static [Scenario] {
    LISTINGS
}

/// The scenarios under other policies: no rules, a denial before what another rule allows, and two relations at once.
pub fn other_policies() -> &'static [UnderPolicy] {
    OTHER_POLICIES
}

/// A filing whose description has so many bytes, as a script has it.
fn filing_of(alloc: Global, size: usize) -> Result<String, Fail> {
    let mut description = String::new(alloc);
    for _ in 0..size {
        description.push_str("a")?;
    }
    Ok(format!(in alloc;
        "> 5 19723 POST /files {{\"parcel\":1,\"kind\":\"construct\",\"valuation\":1,\"description\":\"{description}\"}}"
    )?)
}

/// The script of one scenario more: a filing with a description past its limit, and one with the longest.
pub fn limits_of_text(alloc: Global) -> Result<String, Fail> {
    let long = filing_of(alloc, 2001)?;
    let full = filing_of(alloc, 2000)?;
    Ok(format!(in alloc;
        "{long}\n< 400 Bad Request {{\"refused\":\"syntax\"}}\n{full}\n< 200 OK {{\"day\":19723,\"done\":\"file\",\"number\":1}}\n"
    )?)
}

/// The script of a file in work whose deadline is 199900: the greatest is 200000.
pub fn far_deadline(alloc: Global) -> Result<String, Fail> {
    let (before, again, behind) = limits::FAR;
    let mut script = String::from_str(alloc, before)?;
    for _ in 0..554 {
        script.push_str(again)?;
    }
    script.push_str(behind)?;
    Ok(script)
}
