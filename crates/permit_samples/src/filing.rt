//! Filing and abandonment.

/// The body of the filing.
pub const HOUSE: &str =
    r#"{"parcel":1,"kind":"construct","valuation":25000000,"description":"House"}"#;

/// Party 5 files on parcel 1 on 2024-01-01.
pub const FILED: &str = r#"
> 5 19723 POST /files {"parcel":1,"kind":"construct","valuation":25000000,"description":"House"}
< 200 OK {"day":19723,"done":"file","number":1}
"#;

/// A file on its last day, and on the day after it.
pub(crate) const FILING: &[&str] = &[
    FILED,
    r#"
> 1 19903 GET /files/1
< 200 OK {"applicant":5,"ask":null,"contractor":null,"deadline":19903,"description":"House","done":[],"filed":19723,"id":1,"inspector":null,"kind":"construct","next":"footing","notices":0,"papers":[],"parcel":1,"request":null,"requested":null,"reviewer":null,"stage":"filed","stopped":false,"temporary":null,"timing":"near","valuation":25000000}
> 5 19903 GET /files/1
< 200 OK {"applicant":5,"ask":null,"contractor":null,"deadline":19903,"description":"House","done":[],"filed":19723,"id":1,"inspector":null,"kind":"construct","next":"footing","notices":0,"papers":[],"parcel":1,"request":null,"requested":null,"reviewer":null,"stage":"filed","stopped":false,"temporary":null,"timing":"near","valuation":25000000}
> 1 19904 GET /files/1
< 200 OK {"applicant":5,"ask":null,"contractor":null,"deadline":19903,"description":"House","done":[],"filed":19723,"id":1,"inspector":null,"kind":"construct","next":"footing","notices":0,"papers":[],"parcel":1,"request":null,"requested":null,"reviewer":null,"stage":"abandoned","stopped":false,"temporary":null,"timing":"past","valuation":25000000}
> 5 19904 GET /files/1
< 403 Forbidden {"refused":"denied","rule":"closed-to-public"}
"#,
];

/// A command on a day before that of the last one, and reads of which the second is on a day before the first's.
pub(crate) const EARLIER_DAY: &[&str] = &[
    r#"
> 5 20000 POST /files {"parcel":1,"kind":"construct","valuation":25000000,"description":"House"}
< 200 OK {"day":20000,"done":"file","number":1}
> 5 19990 POST /files {"parcel":1,"kind":"repair","valuation":100,"description":"Roof"}
< 503 Service Unavailable {"refused":"clock"}
> 1 20001 GET /files/1
~ "filed":20000,"id":1,
> 1 20000 GET /files/1
~ "filed":20000,"id":1,
> 1 19999 GET /files/1
< 503 Service Unavailable {"refused":"clock"}
> 1 20000 GET /files/2
< 404 Not Found {"refused":"record"}
"#,
];
