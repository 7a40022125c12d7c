//! Work on a file: inspections, notices, orders and certificates.

/// A construction that party 5 files on parcel 1.
const CONSTRUCT: &str = r#"
> 5 19790 POST /files {"parcel":1,"kind":"construct","valuation":1,"description":"House"}
< 200 OK {"day":19790,"done":"file","number":1}
"#;

/// An alteration that party 5 files on parcel 1.
const ALTER: &str = r#"
> 5 19790 POST /files {"parcel":1,"kind":"alter","valuation":1,"description":"Wall"}
< 200 OK {"day":19790,"done":"file","number":1}
"#;

/// A repair that party 5 files on parcel 1.
const REPAIR: &str = r#"
> 5 19790 POST /files {"parcel":1,"kind":"repair","valuation":1,"description":"Roof"}
< 200 OK {"day":19790,"done":"file","number":1}
"#;

/// A demolition that party 5 files on parcel 1.
const DEMOLISH: &str = r#"
> 5 19790 POST /files {"parcel":1,"kind":"demolish","valuation":1,"description":"Shed"}
< 200 OK {"day":19790,"done":"file","number":1}
"#;

/// Its review by 3, with contractor 6, all on the day of the filing; the plans are approved.
const APPROVED: &str = r#"
> 2 19790 POST /files/1/assign-reviewer {"party":3}
< 200 OK {"day":19790,"done":"assign-reviewer","number":null}
> 5 19790 POST /files/1/name-contractor {"party":6}
< 200 OK {"day":19790,"done":"name-contractor","number":null}
> 3 19790 POST /files/1/start-review
< 200 OK {"day":19790,"done":"start-review","number":null}
> 3 19790 POST /files/1/approve-plans
< 200 OK {"day":19790,"done":"approve-plans","number":null}
"#;

/// Its permit, paper 1, with inspector 4.
const ISSUED: &str = r#"
> 2 19790 POST /files/1/assign-inspector {"party":4}
< 200 OK {"day":19790,"done":"assign-inspector","number":null}
> 1 19800 POST /files/1/issue
< 200 OK {"day":19800,"done":"issue","number":1}
"#;

/// The start of its work.
const BEGUN: &str = r#"
> 6 19810 POST /files/1/begin-work
< 200 OK {"day":19810,"done":"begin-work","number":null}
"#;

/// The step `footing`, requested by the contractor and approved by the inspector.
const FOOTING: &str = r#"
> 6 19820 POST /files/1/request-inspection {"step":"footing"}
< 200 OK {"day":19820,"done":"request-inspection","number":null}
> 4 19820 POST /files/1/approve-step {"step":"footing"}
< 200 OK {"day":19820,"done":"approve-step","number":null}
"#;

/// The step `slab`, requested by the contractor and approved by the inspector.
const SLAB: &str = r#"
> 6 19820 POST /files/1/request-inspection {"step":"slab"}
< 200 OK {"day":19820,"done":"request-inspection","number":null}
> 4 19820 POST /files/1/approve-step {"step":"slab"}
< 200 OK {"day":19820,"done":"approve-step","number":null}
"#;

/// The step `frame`, requested by the contractor and approved by the inspector.
const FRAME: &str = r#"
> 6 19820 POST /files/1/request-inspection {"step":"frame"}
< 200 OK {"day":19820,"done":"request-inspection","number":null}
> 4 19820 POST /files/1/approve-step {"step":"frame"}
< 200 OK {"day":19820,"done":"approve-step","number":null}
"#;

/// The step `energy`, requested by the contractor and approved by the inspector.
const ENERGY: &str = r#"
> 6 19820 POST /files/1/request-inspection {"step":"energy"}
< 200 OK {"day":19820,"done":"request-inspection","number":null}
> 4 19820 POST /files/1/approve-step {"step":"energy"}
< 200 OK {"day":19820,"done":"approve-step","number":null}
"#;

/// The step `lath`, requested by the contractor and approved by the inspector.
const LATH: &str = r#"
> 6 19820 POST /files/1/request-inspection {"step":"lath"}
< 200 OK {"day":19820,"done":"request-inspection","number":null}
> 4 19820 POST /files/1/approve-step {"step":"lath"}
< 200 OK {"day":19820,"done":"approve-step","number":null}
"#;

/// The step `final`, requested by the contractor and approved by the inspector.
const FINAL: &str = r#"
> 6 19820 POST /files/1/request-inspection {"step":"final"}
< 200 OK {"day":19820,"done":"request-inspection","number":null}
> 4 19820 POST /files/1/approve-step {"step":"final"}
< 200 OK {"day":19820,"done":"approve-step","number":null}
"#;

/// An inspector with an interest in the parcel.
pub(crate) const CONFLICT: &[&str] = &[
    CONSTRUCT,
    APPROVED,
    r#"
> 7 19795 POST /parcels/1/declare
< 200 OK {"day":19795,"done":"declare","number":null}
> 2 19795 POST /files/1/assign-inspector {"party":7}
< 409 Conflict {"reason":"interested","refused":"not-admitted"}
> 2 19795 POST /files/1/assign-inspector {"party":4}
< 200 OK {"day":19795,"done":"assign-inspector","number":null}
> 1 19800 POST /files/1/issue
< 200 OK {"day":19800,"done":"issue","number":1}
> 6 19810 POST /files/1/begin-work
< 200 OK {"day":19810,"done":"begin-work","number":null}
> 6 19820 POST /files/1/request-inspection {"step":"footing"}
< 200 OK {"day":19820,"done":"request-inspection","number":null}
> 4 19820 POST /parcels/1/declare
< 200 OK {"day":19820,"done":"declare","number":null}
> 4 19820 POST /files/1/approve-step {"step":"footing"}
< 403 Forbidden {"refused":"denied","rule":"no-conflict"}
"#,
];

/// A step out of its order.
pub(crate) const STEPS_OF_CONSTRUCTION: &[&str] = &[
    CONSTRUCT,
    APPROVED,
    ISSUED,
    BEGUN,
    FOOTING,
    r#"
> 6 19820 POST /files/1/request-inspection {"step":"frame"}
< 409 Conflict {"reason":"step","refused":"not-admitted"}
"#,
];

/// A kind of work that begins with that step.
pub(crate) const STEPS_OF_ALTERATION: &[&str] = &[
    ALTER,
    APPROVED,
    ISSUED,
    BEGUN,
    FRAME,
    r#"
> 1 19820 GET /files/1
~ "next":"energy",
"#,
];

/// A construction with its frame approved.
pub(crate) const FRAME_APPROVED: &[&str] = &[
    CONSTRUCT, APPROVED, ISSUED, BEGUN, FOOTING, SLAB, FRAME,
];

/// The inspection of energy, which comes between frame and lath.
pub(crate) const ENERGY_AFTER_FRAME: &[&str] = &[
    CONSTRUCT,
    APPROVED,
    ISSUED,
    BEGUN,
    FOOTING,
    SLAB,
    FRAME,
    r#"
> 6 19820 POST /files/1/request-inspection {"step":"lath"}
< 409 Conflict {"reason":"step","refused":"not-admitted"}
> 1 19820 GET /registers/inspections
~     1 energy  -                  4       0
~ files 1
> 6 19820 POST /files/1/request-inspection {"step":"energy"}
< 200 OK {"day":19820,"done":"request-inspection","number":null}
"#,
];

/// A notice that is open when the step is to be approved.
pub(crate) const NOTICE: &[&str] = &[
    REPAIR,
    APPROVED,
    ISSUED,
    BEGUN,
    r#"
> 6 19820 POST /files/1/request-inspection {"step":"frame"}
< 200 OK {"day":19820,"done":"request-inspection","number":null}
> 4 19820 POST /files/1/notice {"text":"Nails"}
< 200 OK {"day":19820,"done":"notice","number":2}
> 6 19820 POST /files/1/request-inspection {"step":"frame"}
< 200 OK {"day":19820,"done":"request-inspection","number":null}
> 4 19820 POST /files/1/approve-step {"step":"frame"}
< 409 Conflict {"reason":"notice-open","refused":"not-admitted"}
> 1 19820 GET /registers/inspections
~     1 frame   2024-04-07         4       1
~ files 1
> 4 19820 POST /files/1/clear-notice {"paper":1}
< 409 Conflict {"reason":"no-such-notice","refused":"not-admitted"}
> 1 19820 GET /files/1
~ "notices":1,"papers":[{"author":1,"day":19800,"days":0,"number":1,"open":false,"sort":"permit","terms":"","text":""},{"author":4,"day":19820,"days":0,"number":2,"open":true,"sort":"notice","terms":"","text":"Nails"}],
> 4 19820 POST /files/1/clear-notice {"paper":2}
< 200 OK {"day":19820,"done":"clear-notice","number":null}
> 4 19820 POST /files/1/clear-notice {"paper":2}
< 409 Conflict {"reason":"no-such-notice","refused":"not-admitted"}
> 4 19820 POST /files/1/approve-step {"step":"frame"}
< 200 OK {"day":19820,"done":"approve-step","number":null}
> 1 19820 GET /files/1
~ "next":"final","notices":0,
~ "done":["frame"],
> 1 19820 GET /registers/inspections
~     1 final   -                  4       0
~ files 1
"#,
];

/// What counts as activity: a request, a notice and an approval each move the deadline, and a notice cleared doesn't.
pub(crate) const ACTIVITY: &[&str] = &[
    CONSTRUCT,
    APPROVED,
    ISSUED,
    BEGUN,
    r#"
> 6 19820 POST /files/1/request-inspection {"step":"footing"}
< 200 OK {"day":19820,"done":"request-inspection","number":null}
> 1 19820 GET /files/1
~ "deadline":20000,
> 4 19825 POST /files/1/notice {"text":"Nails"}
< 200 OK {"day":19825,"done":"notice","number":2}
> 1 19825 GET /files/1
~ "deadline":20005,
> 6 19830 POST /files/1/request-inspection {"step":"footing"}
< 200 OK {"day":19830,"done":"request-inspection","number":null}
> 4 19832 POST /files/1/clear-notice {"paper":2}
< 200 OK {"day":19832,"done":"clear-notice","number":null}
> 1 19832 GET /files/1
~ "deadline":20010,
> 4 19835 POST /files/1/approve-step {"step":"footing"}
< 200 OK {"day":19835,"done":"approve-step","number":null}
> 1 19835 GET /files/1
~ "deadline":20015,
"#,
];

/// A stop work order, and its lifting.
pub(crate) const STOP: &[&str] = &[
    CONSTRUCT,
    APPROVED,
    ISSUED,
    BEGUN,
    r#"
> 1 19810 GET /files/1
~ "deadline":19990,
> 4 19820 POST /files/1/stop {"text":"Unsafe","conditions":"Shore it"}
< 200 OK {"day":19820,"done":"stop","number":2}
> 6 19820 POST /files/1/request-inspection {"step":"footing"}
< 409 Conflict {"reason":"stopped","refused":"not-admitted"}
> 1 19830 POST /files/1/lift
< 200 OK {"day":19830,"done":"lift","number":3}
> 1 19830 GET /files/1
~ "deadline":19990,
~ "sort":"stop","terms":"Shore it","text":"Unsafe"
~ "stopped":false,
> 6 19830 POST /files/1/request-inspection {"step":"footing"}
< 200 OK {"day":19830,"done":"request-inspection","number":null}
> 1 19830 GET /files/1
~ "deadline":20010,
"#,
];

/// A construction to its certificate.
pub(crate) const CERTIFICATE: &[&str] = &[
    CONSTRUCT,
    APPROVED,
    ISSUED,
    BEGUN,
    FOOTING,
    SLAB,
    FRAME,
    ENERGY,
    LATH,
    FINAL,
    r#"
> 1 19820 GET /files/1
~ "stage":"finaled",
~ "next":null,
~ "done":["footing","slab","frame","energy","lath","final"],
> 1 19830 POST /files/1/certify
< 200 OK {"day":19830,"done":"certify","number":2}
> 1 19830 GET /files/1
~ "stage":"certified",
~ "timing":"none",
~ "deadline":null,
"#,
];

/// A kind of work that has no certificate.
pub(crate) const NO_CERTIFICATE: &[&str] = &[
    DEMOLISH,
    APPROVED,
    ISSUED,
    BEGUN,
    FINAL,
    r#"
> 1 19830 POST /files/1/certify
< 409 Conflict {"reason":"kind","refused":"not-admitted"}
"#,
];

/// Work that begins on the last day.
pub(crate) const LAST_DAY: &[&str] = &[
    CONSTRUCT,
    APPROVED,
    ISSUED,
    r#"
> 1 19980 GET /files/1
~ "deadline":19980,
~ "stage":"issued",
> 6 19980 POST /files/1/begin-work
< 200 OK {"day":19980,"done":"begin-work","number":null}
> 1 19980 GET /files/1
~ "deadline":20160,
"#,
];

/// Work that would begin on the day after it.
pub(crate) const DAY_BEHIND: &[&str] = &[
    CONSTRUCT,
    APPROVED,
    ISSUED,
    r#"
> 6 19981 POST /files/1/begin-work
< 403 Forbidden {"refused":"denied","rule":"closed-to-public"}
> 1 19981 POST /files/1/begin-work
< 409 Conflict {"reason":"stage","refused":"not-admitted"}
"#,
];

/// Temporary certificates, the later in place of the earlier.
pub(crate) const TEMPORARY: &[&str] = &[
    CONSTRUCT,
    APPROVED,
    ISSUED,
    BEGUN,
    r#"
> 1 19850 POST /files/1/temporary {"days":60,"text":"Ground floor"}
< 200 OK {"day":19850,"done":"temporary","number":2}
> 1 19850 GET /files/1
~ {"author":1,"day":19850,"days":60,"number":2,"open":false,"sort":"temporary","terms":"","text":"Ground floor"}
~ "temporary":19910,
~ "deadline":19990,
> 1 19860 POST /files/1/temporary {"days":30,"text":"Ground floor"}
< 200 OK {"day":19860,"done":"temporary","number":3}
> 1 19860 GET /files/1
~ "temporary":19890,
~ "deadline":19990,
> 1 19860 POST /files/1/temporary {"days":181,"text":"Ground floor"}
< 409 Conflict {"reason":"days","refused":"not-admitted"}
"#,
];

/// A permit that lapsed and is revoked, and a stop on its file.
pub(crate) const REVOKED: &[&str] = &[
    CONSTRUCT,
    APPROVED,
    ISSUED,
    r#"
> 1 19981 GET /files/1
~ "stage":"lapsed",
> 1 19981 GET /files/stage/lapsed
~ {"files":[{"applicant":5,
~ "stage":"lapsed",
> 1 19981 POST /files/1/revoke {"text":"Lapsed"}
< 200 OK {"day":19981,"done":"revoke","number":2}
> 1 19981 GET /files/1
~ {"author":1,"day":19981,"days":0,"number":2,"open":false,"sort":"revoked","terms":"","text":"Lapsed"}
~ "stage":"revoked",
~ "deadline":null,
~ "timing":"none",
> 1 19981 POST /files/1/revoke {"text":"Lapsed"}
< 409 Conflict {"reason":"stage","refused":"not-admitted"}
> 1 19981 POST /files/1/stop {"text":"Unsafe","conditions":"Shore it"}
< 200 OK {"day":19981,"done":"stop","number":3}
> 1 19981 POST /files/1/stop {"text":"Unsafe","conditions":"Shore it"}
< 409 Conflict {"reason":"stopped","refused":"not-admitted"}
> 1 19981 POST /files/1/lift
< 200 OK {"day":19981,"done":"lift","number":4}
"#,
];
