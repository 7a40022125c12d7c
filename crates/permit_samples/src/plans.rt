//! Applications, their review, extensions and issuance.

/// An extension that is asked for on the day of the deadline.
pub(crate) const EXTENSION: &[&str] = &[
    r#"
> 5 19723 POST /files {"parcel":1,"kind":"construct","valuation":25000000,"description":"House"}
< 200 OK {"day":19723,"done":"file","number":1}
> 5 19903 POST /files/1/ask-extension {"days":91,"text":"Rain"}
< 409 Conflict {"reason":"days","refused":"not-admitted"}
> 5 19903 POST /files/1/ask-extension {"days":90,"text":"Rain"}
< 200 OK {"day":19903,"done":"ask-extension","number":1}
> 1 19903 POST /files/1/grant-extension
< 200 OK {"day":19903,"done":"grant-extension","number":2}
> 1 19903 GET /files/1
~ "deadline":19993,
~ "ask":null,
"#,
];

/// The deadline from the permit on.
pub(crate) const ARITHMETIC: &[&str] = &[
    r#"
> 5 19790 POST /files {"parcel":1,"kind":"construct","valuation":25000000,"description":"House"}
< 200 OK {"day":19790,"done":"file","number":1}
> 1 19790 GET /files/1
~ "deadline":19970,
> 2 19790 POST /files/1/assign-reviewer {"party":3}
< 200 OK {"day":19790,"done":"assign-reviewer","number":null}
> 1 19790 GET /files/1
~ "deadline":19970,
> 5 19790 POST /files/1/name-contractor {"party":6}
< 200 OK {"day":19790,"done":"name-contractor","number":null}
> 1 19790 GET /files/1
~ "deadline":19970,
> 3 19790 POST /files/1/start-review
< 200 OK {"day":19790,"done":"start-review","number":null}
> 1 19790 GET /files/1
~ "deadline":19970,
> 3 19800 POST /files/1/approve-plans
< 200 OK {"day":19800,"done":"approve-plans","number":null}
> 1 19800 GET /files/1
~ "deadline":19970,
> 1 19800 POST /files/1/issue
< 200 OK {"day":19800,"done":"issue","number":1}
> 1 19800 GET /files/1
~ "deadline":19980,
> 5 19800 POST /files/1/ask-extension {"days":100,"text":"Rain"}
< 200 OK {"day":19800,"done":"ask-extension","number":2}
> 1 19800 GET /files/1
~ "deadline":19980,
> 1 19800 POST /files/1/grant-extension
< 200 OK {"day":19800,"done":"grant-extension","number":3}
> 1 19800 GET /files/1
~ "deadline":20080,
> 6 19810 POST /files/1/begin-work
< 200 OK {"day":19810,"done":"begin-work","number":null}
> 1 19810 GET /files/1
~ "deadline":20080,
> 6 20000 POST /files/1/request-inspection {"step":"footing"}
< 200 OK {"day":20000,"done":"request-inspection","number":null}
> 1 20000 GET /files/1
~ "deadline":20180,
~ "request":"footing","requested":20000,
~ "stage":"working",
~ "timing":"ahead",
~ "number":3,"open":false,"sort":"granted","terms":"","text":""}],"parcel":1,
> 1 20000 GET /registers/inspections
~  FILE NEXT    REQUESTED  INSPECTOR NOTICES
~     1 footing 2024-10-04         -       0
~ files 1
> 1 20000 POST /files/1/begin-work
< 409 Conflict {"reason":"stage","refused":"not-admitted"}
"#,
];

/// A command that neither the policy allows nor the stage admits.
pub(crate) const POLICY_FIRST: &[&str] = &[
    r#"
> 5 19723 POST /files {"parcel":1,"kind":"construct","valuation":25000000,"description":"House"}
< 200 OK {"day":19723,"done":"file","number":1}
> 3 19723 POST /files/1/approve-plans
< 403 Forbidden {"refused":"denied","rule":"default"}
"#,
];

/// A reviewer who comes to own the parcel.
pub(crate) const OWN_WORK: &[&str] = &[
    r#"
> 5 19723 POST /files {"parcel":1,"kind":"construct","valuation":25000000,"description":"House"}
< 200 OK {"day":19723,"done":"file","number":1}
> 2 19723 POST /files/1/assign-reviewer {"party":3}
< 200 OK {"day":19723,"done":"assign-reviewer","number":null}
> 3 19723 POST /files/1/start-review
< 200 OK {"day":19723,"done":"start-review","number":null}
> 2 19723 POST /parcels/1/transfer {"to":3}
< 200 OK {"day":19723,"done":"transfer","number":null}
> 3 19723 POST /files/1/approve-plans
< 403 Forbidden {"refused":"denied","rule":"own-work"}
"#,
];

/// Asks for extensions, and a permit that ends the one that is pending.
pub(crate) const ASKS: &[&str] = &[
    r#"
> 5 19723 POST /files {"parcel":1,"kind":"construct","valuation":25000000,"description":"House"}
< 200 OK {"day":19723,"done":"file","number":1}
> 1 19723 GET /files/1
~ "deadline":19903,
> 5 19730 POST /files/1/ask-extension {"days":30,"text":"Rain"}
< 200 OK {"day":19730,"done":"ask-extension","number":1}
> 1 19730 POST /files/1/refuse-extension {"text":"No cause"}
< 200 OK {"day":19730,"done":"refuse-extension","number":2}
> 1 19730 GET /files/1
~ {"author":1,"day":19730,"days":0,"number":2,"open":false,"sort":"refused","terms":"","text":"No cause"}
> 5 19730 POST /files/1/ask-extension {"days":60,"text":"Rain"}
< 200 OK {"day":19730,"done":"ask-extension","number":3}
> 5 19730 POST /files/1/ask-extension {"days":10,"text":"Rain"}
< 409 Conflict {"reason":"pending","refused":"not-admitted"}
> 2 19740 POST /files/1/assign-reviewer {"party":3}
< 200 OK {"day":19740,"done":"assign-reviewer","number":null}
> 3 19740 POST /files/1/start-review
< 200 OK {"day":19740,"done":"start-review","number":null}
> 3 19740 POST /files/1/approve-plans
< 200 OK {"day":19740,"done":"approve-plans","number":null}
> 1 19740 POST /files/1/issue
< 200 OK {"day":19740,"done":"issue","number":4}
> 1 19740 GET /files/1
~ "deadline":19920,
~ "ask":null,
> 1 19740 POST /files/1/grant-extension
< 409 Conflict {"reason":"nothing-pending","refused":"not-admitted"}
"#,
];

/// Plans that are returned, resubmitted and rejected.
pub(crate) const REJECTION: &[&str] = &[
    r#"
> 5 19723 POST /files {"parcel":1,"kind":"construct","valuation":25000000,"description":"House"}
< 200 OK {"day":19723,"done":"file","number":1}
> 2 19723 POST /files/1/assign-reviewer {"party":3}
< 200 OK {"day":19723,"done":"assign-reviewer","number":null}
> 3 19724 POST /files/1/start-review
< 200 OK {"day":19724,"done":"start-review","number":null}
> 3 19725 POST /files/1/return {"text":"Stairs"}
< 200 OK {"day":19725,"done":"return","number":1}
> 5 19726 POST /files/1/resubmit {"text":"Stairs drawn anew"}
< 200 OK {"day":19726,"done":"resubmit","number":2}
> 1 19726 GET /files/1
~ "stage":"review",
~ "deadline":19903,
~ {"author":5,"day":19726,"days":0,"number":2,"open":false,"sort":"resubmitted","terms":"","text":"Stairs drawn anew"}
> 3 19727 POST /files/1/reject {"text":"Too high"}
< 200 OK {"day":19727,"done":"reject","number":3}
> 1 19727 GET /files/1
~ "stage":"rejected",
~ "timing":"none",
~ "deadline":null,
~ {"author":3,"day":19727,"days":0,"number":3,"open":false,"sort":"rejected","terms":"","text":"Too high"}
"#,
];
