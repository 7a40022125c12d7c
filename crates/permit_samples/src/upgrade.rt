//! A file that was filed before the upgrade to the second edition of the inspections, and files filed after it.

/// The statements that make of a database of version 2 the one of version 1 with the same rows.
pub const VERSION_1: [&str; 2] = ["DROP TABLE upgrade", "UPDATE desk SET version = 1"];

/// A query of the number of the upgrade's row and the files that it counts, in one text.
pub const UPGRADE: &str = "SELECT id || ' ' || files FROM upgrade";

use crate::scenarios::Scenario;
use crate::work;

/// A construction, file 1, with its frame approved.
pub const BEFORE: Scenario = work::FRAME_APPROVED;

/// What comes after it: file 1 keeps its list, and files 2, a construction, and 3, a repair, have that of the second
/// edition.
pub const BEHIND: Scenario = &[
    r#"
> 6 19820 POST /files/1/request-inspection {"step":"energy"}
< 409 Conflict {"reason":"step","refused":"not-admitted"}
> 6 19820 POST /files/1/request-inspection {"step":"lath"}
< 200 OK {"day":19820,"done":"request-inspection","number":null}
"#,
    r#"
> 5 19820 POST /files {"parcel":1,"kind":"construct","valuation":1,"description":"House"}
< 200 OK {"day":19820,"done":"file","number":2}
> 2 19820 POST /files/2/assign-reviewer {"party":3}
< 200 OK {"day":19820,"done":"assign-reviewer","number":null}
> 5 19820 POST /files/2/name-contractor {"party":6}
< 200 OK {"day":19820,"done":"name-contractor","number":null}
> 3 19820 POST /files/2/start-review
< 200 OK {"day":19820,"done":"start-review","number":null}
> 3 19820 POST /files/2/approve-plans
< 200 OK {"day":19820,"done":"approve-plans","number":null}
> 2 19820 POST /files/2/assign-inspector {"party":4}
< 200 OK {"day":19820,"done":"assign-inspector","number":null}
> 1 19820 POST /files/2/issue
< 200 OK {"day":19820,"done":"issue","number":1}
> 6 19820 POST /files/2/begin-work
< 200 OK {"day":19820,"done":"begin-work","number":null}
> 6 19820 POST /files/2/request-inspection {"step":"footing"}
< 200 OK {"day":19820,"done":"request-inspection","number":null}
> 4 19820 POST /files/2/approve-step {"step":"footing"}
< 200 OK {"day":19820,"done":"approve-step","number":null}
> 6 19820 POST /files/2/request-inspection {"step":"slab"}
< 200 OK {"day":19820,"done":"request-inspection","number":null}
> 4 19820 POST /files/2/approve-step {"step":"slab"}
< 200 OK {"day":19820,"done":"approve-step","number":null}
> 6 19820 POST /files/2/request-inspection {"step":"frame"}
< 200 OK {"day":19820,"done":"request-inspection","number":null}
> 4 19820 POST /files/2/approve-step {"step":"frame"}
< 200 OK {"day":19820,"done":"approve-step","number":null}
> 6 19820 POST /files/2/request-inspection {"step":"lath"}
< 409 Conflict {"reason":"step","refused":"not-admitted"}
> 1 19820 GET /registers/inspections
~     1 lath    2024-04-07         4       0
~     2 energy  -                  4       0
~ files 2
> 6 19820 POST /files/2/request-inspection {"step":"energy"}
< 200 OK {"day":19820,"done":"request-inspection","number":null}
"#,
    r#"
> 5 19820 POST /files {"parcel":1,"kind":"repair","valuation":1,"description":"Roof"}
< 200 OK {"day":19820,"done":"file","number":3}
> 2 19820 POST /files/3/assign-reviewer {"party":3}
< 200 OK {"day":19820,"done":"assign-reviewer","number":null}
> 5 19820 POST /files/3/name-contractor {"party":6}
< 200 OK {"day":19820,"done":"name-contractor","number":null}
> 3 19820 POST /files/3/start-review
< 200 OK {"day":19820,"done":"start-review","number":null}
> 3 19820 POST /files/3/approve-plans
< 200 OK {"day":19820,"done":"approve-plans","number":null}
> 2 19820 POST /files/3/assign-inspector {"party":4}
< 200 OK {"day":19820,"done":"assign-inspector","number":null}
> 1 19820 POST /files/3/issue
< 200 OK {"day":19820,"done":"issue","number":1}
> 6 19820 POST /files/3/begin-work
< 200 OK {"day":19820,"done":"begin-work","number":null}
> 6 19820 POST /files/3/request-inspection {"step":"frame"}
< 200 OK {"day":19820,"done":"request-inspection","number":null}
> 4 19820 POST /files/3/approve-step {"step":"frame"}
< 200 OK {"day":19820,"done":"approve-step","number":null}
> 1 19820 GET /files/3
~ "next":"final",
"#,
];
