//! Listings and registers.

use crate::filing::FILED;
use crate::scenarios::UnderPolicy;

/// A listing after the opening alone.
pub(crate) const NOTHING: &[&str] = &[
    r#"
> 1 19700 GET /files
< 200 OK {"files":[]}
"#,
];

/// File 2 on parcel 2, of party 6.
const ROOF: &str = r#"
> 6 19723 POST /files {"parcel":2,"kind":"repair","valuation":100,"description":"Roof"}
< 200 OK {"day":19723,"done":"file","number":2}
"#;

/// File 3 on parcel 2, of party 6.
const WALL: &str = r#"
> 6 19723 POST /files {"parcel":2,"kind":"alter","valuation":100,"description":"Wall"}
< 200 OK {"day":19723,"done":"file","number":3}
"#;

/// Who lists which files: party 5 is the applicant of file 1 and owns its parcel, and is the contractor of file 2. The
/// reviewer is assigned to none.
pub(crate) const WHO_LISTS: &[&str] = &[
    FILED,
    ROOF,
    WALL,
    r#"
> 6 19723 POST /files/2/name-contractor {"party":5}
< 200 OK {"day":19723,"done":"name-contractor","number":null}
> 5 19723 GET /files
< 200 OK {"files":[{"applicant":5,"ask":null,"contractor":null,"deadline":19903,"description":"House","done":[],"filed":19723,"id":1,"inspector":null,"kind":"construct","next":"footing","notices":0,"parcel":1,"request":null,"requested":null,"reviewer":null,"stage":"filed","stopped":false,"temporary":null,"timing":"ahead","valuation":25000000},{"applicant":6,"ask":null,"contractor":5,"deadline":19903,"description":"Roof","done":[],"filed":19723,"id":2,"inspector":null,"kind":"repair","next":"frame","notices":0,"parcel":2,"request":null,"requested":null,"reviewer":null,"stage":"filed","stopped":false,"temporary":null,"timing":"ahead","valuation":100}]}
> 2 19723 GET /files
< 200 OK {"files":[{"applicant":5,"ask":null,"contractor":null,"deadline":19903,"description":"House","done":[],"filed":19723,"id":1,"inspector":null,"kind":"construct","next":"footing","notices":0,"parcel":1,"request":null,"requested":null,"reviewer":null,"stage":"filed","stopped":false,"temporary":null,"timing":"ahead","valuation":25000000},{"applicant":6,"ask":null,"contractor":5,"deadline":19903,"description":"Roof","done":[],"filed":19723,"id":2,"inspector":null,"kind":"repair","next":"frame","notices":0,"parcel":2,"request":null,"requested":null,"reviewer":null,"stage":"filed","stopped":false,"temporary":null,"timing":"ahead","valuation":100},{"applicant":6,"ask":null,"contractor":null,"deadline":19903,"description":"Wall","done":[],"filed":19723,"id":3,"inspector":null,"kind":"alter","next":"frame","notices":0,"parcel":2,"request":null,"requested":null,"reviewer":null,"stage":"filed","stopped":false,"temporary":null,"timing":"ahead","valuation":100}]}
> 3 19723 GET /files
< 200 OK {"files":[]}
> 2 19723 GET /files/stage/filed
< 200 OK {"files":[{"applicant":5,"ask":null,"contractor":null,"deadline":19903,"description":"House","done":[],"filed":19723,"id":1,"inspector":null,"kind":"construct","next":"footing","notices":0,"parcel":1,"request":null,"requested":null,"reviewer":null,"stage":"filed","stopped":false,"temporary":null,"timing":"ahead","valuation":25000000},{"applicant":6,"ask":null,"contractor":5,"deadline":19903,"description":"Roof","done":[],"filed":19723,"id":2,"inspector":null,"kind":"repair","next":"frame","notices":0,"parcel":2,"request":null,"requested":null,"reviewer":null,"stage":"filed","stopped":false,"temporary":null,"timing":"ahead","valuation":100},{"applicant":6,"ask":null,"contractor":null,"deadline":19903,"description":"Wall","done":[],"filed":19723,"id":3,"inspector":null,"kind":"alter","next":"frame","notices":0,"parcel":2,"request":null,"requested":null,"reviewer":null,"stage":"filed","stopped":false,"temporary":null,"timing":"ahead","valuation":100}]}
> 2 19723 GET /files/stage/review
< 200 OK {"files":[]}
> 2 19723 GET /files/stage/new
< 404 Not Found {"refused":"route"}
> 2 19723 GET /files/stage/office
< 404 Not Found {"refused":"route"}
> 0 19723 GET /files
< 401 Unauthorized {"refused":"caller"}
> 1 19722 GET /registers/files
< 503 Service Unavailable {"refused":"clock"}
> 1 19904 GET /files/stage/abandoned
~ {"files":[{"applicant":5,
~ "id":3,"inspector":null,"kind":"alter",
> 5 19904 GET /files
< 200 OK {"files":[]}
"#,
];

/// The registers of one file.
pub(crate) const REGISTERS: &[&str] = &[
    FILED,
    r#"
> 1 19723 GET /registers/files
~  FILE PARCEL KIND      STAGE     TIMING DEADLINE           CENTS
~     1      1 construct filed     ahead  2024-06-29      25000000
~ files 1
> 3 19723 GET /registers/files
~ files 0
> 1 19723 GET /registers/deadlines
~ files 0
> 1 19903 GET /registers/deadlines
~  FILE STAGE     TIMING DEADLINE      LEFT
~     1 filed     near   2024-06-29       0
~ files 1
> 1 19723 GET /registers/fees
< 404 Not Found {"refused":"route"}
"#,
];

/// Owners are denied before assigned reviewers may list.
const NOT_OWN: &str = r#"[[rule]]
name = "not-own"
effect = "deny"
relation = ["owner"]

[[rule]]
name = "mine"
effect = "allow"
relation = ["assigned-reviewer"]
action = ["list"]
"#;

/// Party 3 reviews files 1 and 2 and owns the parcel of file 2; under the policy it lists file 1 alone.
pub(crate) const DENY_ON_OWNER: UnderPolicy = UnderPolicy {
    scripts: &[
        FILED,
        ROOF,
        r#"
> 5 19723 POST /files {"parcel":1,"kind":"alter","valuation":100,"description":"Wall"}
< 200 OK {"day":19723,"done":"file","number":3}
> 2 19723 POST /files/1/assign-reviewer {"party":3}
< 200 OK {"day":19723,"done":"assign-reviewer","number":null}
> 2 19723 POST /files/2/assign-reviewer {"party":3}
< 200 OK {"day":19723,"done":"assign-reviewer","number":null}
> 2 19723 POST /parcels/2/transfer {"to":3}
< 200 OK {"day":19723,"done":"transfer","number":null}
"#,
    ],
    policy: NOT_OWN,
    last: r#"
> 3 19723 GET /files
< 200 OK {"files":[{"applicant":5,"ask":null,"contractor":null,"deadline":19903,"description":"House","done":[],"filed":19723,"id":1,"inspector":null,"kind":"construct","next":"footing","notices":0,"parcel":1,"request":null,"requested":null,"reviewer":3,"stage":"filed","stopped":false,"temporary":null,"timing":"ahead","valuation":25000000}]}
"#,
};

/// Who is both the owner of its parcel and its contractor may list a file.
const BUILDERS: &str = r#"[[rule]]
name = "builders"
effect = "allow"
both = ["owner", "contractor"]
action = ["list"]
"#;

/// File 1 of party 5 with contractor 6, files 2 and 3 of party 6 on its own parcel, the latter with contractor 6; under
/// the policy it lists file 3 alone.
pub(crate) const TWO_RELATIONS: UnderPolicy = UnderPolicy {
    scripts: &[
        FILED,
        ROOF,
        WALL,
        r#"
> 5 19723 POST /files/1/name-contractor {"party":6}
< 200 OK {"day":19723,"done":"name-contractor","number":null}
> 6 19723 POST /files/3/name-contractor {"party":6}
< 200 OK {"day":19723,"done":"name-contractor","number":null}
"#,
    ],
    policy: BUILDERS,
    last: r#"
> 6 19723 GET /files
< 200 OK {"files":[{"applicant":6,"ask":null,"contractor":6,"deadline":19903,"description":"Wall","done":[],"filed":19723,"id":3,"inspector":null,"kind":"alter","next":"frame","notices":0,"parcel":2,"request":null,"requested":null,"reviewer":null,"stage":"filed","stopped":false,"temporary":null,"timing":"ahead","valuation":100}]}
> 5 19723 GET /files
< 200 OK {"files":[]}
"#,
};

/// A pair opens what one relation alone doesn't, a single relation opens beside it, and a later rule that denies comes
/// too late: contractors who own the parcel list before owners are denied, and applicants last.
const PAIR_FIRST: &str = r#"[[rule]]
name = "builders"
effect = "allow"
both = ["owner", "contractor"]

[[rule]]
name = "owners"
effect = "deny"
relation = ["owner"]

[[rule]]
name = "applicants"
effect = "allow"
relation = ["applicant"]
"#;

/// Under the policy party 6 lists file 3, which it built on its own parcel, and file 4, which it asked for on another's;
/// file 2 on its own parcel it doesn't.
pub(crate) const PAIR_BEFORE_ONE: UnderPolicy = UnderPolicy {
    scripts: &[
        FILED,
        ROOF,
        WALL,
        r#"
> 6 19723 POST /files/3/name-contractor {"party":6}
< 200 OK {"day":19723,"done":"name-contractor","number":null}
> 6 19723 POST /files {"parcel":1,"kind":"repair","valuation":100,"description":"Door"}
< 200 OK {"day":19723,"done":"file","number":4}
"#,
    ],
    policy: PAIR_FIRST,
    last: r#"
> 6 19723 GET /files
< 200 OK {"files":[{"applicant":6,"ask":null,"contractor":6,"deadline":19903,"description":"Wall","done":[],"filed":19723,"id":3,"inspector":null,"kind":"alter","next":"frame","notices":0,"parcel":2,"request":null,"requested":null,"reviewer":null,"stage":"filed","stopped":false,"temporary":null,"timing":"ahead","valuation":100},{"applicant":6,"ask":null,"contractor":null,"deadline":19903,"description":"Door","done":[],"filed":19723,"id":4,"inspector":null,"kind":"repair","next":"frame","notices":0,"parcel":1,"request":null,"requested":null,"reviewer":null,"stage":"filed","stopped":false,"temporary":null,"timing":"ahead","valuation":100}]}
"#,
};
