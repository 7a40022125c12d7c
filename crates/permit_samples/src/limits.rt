//! Values at their limits, the forms of bodies, and what is refused before the office.

/// The greatest numbers that are read, and the next ones, which aren't.
pub(crate) const NUMBERS: &[&str] = &[
    r#"
> 5 19723 POST /files {"parcel":1,"kind":"construct","valuation":9999999999999,"description":"House"}
< 200 OK {"day":19723,"done":"file","number":1}
> 1 19723 GET /files/1
~ "valuation":9999999999999}
> 5 19723 POST /files {"parcel":1,"kind":"construct","valuation":10000000000000,"description":"House"}
< 400 Bad Request {"refused":"syntax"}
> 1 19723 GET /parcels/99999
< 404 Not Found {"refused":"record"}
> 1 19723 GET /parcels/100000
< 404 Not Found {"refused":"route"}
> 1 19723 GET /files/99999
< 404 Not Found {"refused":"record"}
> 1 19723 GET /files/0
< 404 Not Found {"refused":"route"}
> 2 19723 POST /files/1/assign-reviewer {"party":99999}
< 409 Conflict {"reason":"person","refused":"not-admitted"}
> 2 19723 POST /files/1/assign-reviewer {"party":100000}
< 400 Bad Request {"refused":"syntax"}
> 5 19723 POST /files/1/name-contractor {"party":7}
< 200 OK {"day":19723,"done":"name-contractor","number":null}
> 1 19723 GET /files/1
~ "contractor":7,
> 5 19723 POST /files/1/ask-extension {"days":365,"text":"Rain"}
< 409 Conflict {"reason":"days","refused":"not-admitted"}
> 5 19723 POST /files/1/ask-extension {"days":366,"text":"Rain"}
< 400 Bad Request {"refused":"syntax"}
> 1 19723 POST /files/1/clear-notice {"paper":9999}
< 409 Conflict {"reason":"stage","refused":"not-admitted"}
> 1 19723 POST /files/1/clear-notice {"paper":10000}
< 400 Bad Request {"refused":"syntax"}
> 1 100000 GET /files/1
~ "stage":"abandoned",
"#,
];

/// Texts, lots and tokens within their limits and past them.
pub(crate) const TEXTS: &[&str] = &[
    "\
> 1 19723 POST /parcels {\"lot\":\"A-17\",\"address\":\"Hauptstraße 5, \\u00a0London\",\"owner\":5}\n\
< 200 OK {\"day\":19723,\"done\":\"add-parcel\",\"number\":3}\n\
> 1 19723 GET /parcels/3\n\
< 200 OK {\"address\":\"Hauptstraße 5, \u{a0}London\",\"id\":3,\"lot\":\"A-17\",\"owner\":5}\n\
> 1 19723 POST /parcels {\"lot\":\"A-18\",\"address\":\"\",\"owner\":5}\n\
< 400 Bad Request {\"refused\":\"syntax\"}\n\
> 1 19723 POST /parcels {\"lot\":\"A-18\",\"address\":\"a\\tb\",\"owner\":5}\n\
< 400 Bad Request {\"refused\":\"syntax\"}\n\
> 1 19723 POST /parcels {\"lot\":\"A-18\",\"address\":\"a\\nb\",\"owner\":5}\n\
< 400 Bad Request {\"refused\":\"syntax\"}\n\
> 1 19723 POST /parcels {\"lot\":\"A-18\",\"address\":\"\\u007f\",\"owner\":5}\n\
< 400 Bad Request {\"refused\":\"syntax\"}\n\
> 1 19723 POST /parcels {\"lot\":\"\",\"address\":\"3 Main St\",\"owner\":5}\n\
< 400 Bad Request {\"refused\":\"syntax\"}\n\
> 1 19723 POST /parcels {\"lot\":\"a-17\",\"address\":\"3 Main St\",\"owner\":5}\n\
< 400 Bad Request {\"refused\":\"syntax\"}\n\
> 1 19723 POST /parcels {\"lot\":\"A 17\",\"address\":\"3 Main St\",\"owner\":5}\n\
< 400 Bad Request {\"refused\":\"syntax\"}\n\
> 1 19723 POST /parcels {\"lot\":\"ABCDEFGHIJKLMNOPQRSTU\",\"address\":\"3 Main St\",\"owner\":5}\n\
< 400 Bad Request {\"refused\":\"syntax\"}\n\
> 1 19723 POST /parties {\"name\":\"Ann\",\"role\":\"clerk\",\"token\":\"abcdefghijklmno\"}\n\
< 400 Bad Request {\"refused\":\"syntax\"}\n\
> 1 19723 POST /parties {\"name\":\"Ann\",\"role\":\"clerk\",\"token\":\"abcdefghijklmno-\"}\n\
< 400 Bad Request {\"refused\":\"syntax\"}\n\
",
];

/// Bodies with spaces and escapes, with their keys in any order, and with a key that occurs twice: the last counts. Party
/// 8 has the name `Zürn`.
pub const FORMS: &str = r#"
> 1 19723 POST /parties  { "token" : "abcdefghijklmnop", "name" : "Z\u00fcrn", "role" : "clerk" } 
< 200 OK {"day":19723,"done":"add-staff","number":8}
> 1 19723 POST /parties {"name":"Ann","role":"public","token":"abcdefghijklmnop"}
< 409 Conflict {"reason":"taken","refused":"not-admitted"}
> 1 19723 POST /parcels {"lot":"B-1","lot":"A-1","address":"1 Main Street","owner":5}
< 409 Conflict {"reason":"taken","refused":"not-admitted"}
> 1 19723 POST /parcels {"lot":"B-1","lot":"A-3","address":"1 Main Street","owner":5}
< 200 OK {"day":19723,"done":"add-parcel","number":3}
> 1 19723 GET /parcels/3
< 200 OK {"address":"1 Main Street","id":3,"lot":"A-3","owner":5}
> 2 19723 POST /parcels/2/transfer {"to":5}
< 200 OK {"day":19723,"done":"transfer","number":null}
> 2 19723 POST /parcels/2/transfer {"to":6}
< 200 OK {"day":19723,"done":"transfer","number":null}
> 1 19723 GET /parcels/2
< 200 OK {"address":"2 Main St","id":2,"lot":"A-2","owner":6}
> 3 19723 POST /parcels/2/declare {}
< 200 OK {"day":19723,"done":"declare","number":null}
> 3 19723 POST /parcels/2/declare {}
< 409 Conflict {"reason":"taken","refused":"not-admitted"}
> 5 19723 POST /files {"parcel":1,"kind":"construct","valuation":5,"description":"House"}
< 200 OK {"day":19723,"done":"file","number":1}
> 1 19723 POST /files/1/issue
< 409 Conflict {"reason":"stage","refused":"not-admitted"}
> 1 19723 POST /files/1/lift  { } 
< 409 Conflict {"reason":"stage","refused":"not-admitted"}
> 5 19723 POST /files/1/ask-extension {"text":"Rain","days":90}
< 200 OK {"day":19723,"done":"ask-extension","number":1}
> 1 19723 GET /files/1
~ {"author":5,"day":19723,"days":90,"number":1,"open":false,"sort":"asked","terms":"","text":"Rain"}
> 2 19723 POST /files/1/assign-reviewer {"party":3}
< 200 OK {"day":19723,"done":"assign-reviewer","number":null}
> 3 19723 POST /files/1/start-review
< 200 OK {"day":19723,"done":"start-review","number":null}
> 3 19723 POST /files/1/return {"text":"Stairs"}
< 200 OK {"day":19723,"done":"return","number":2}
> 1 19723 GET /files/1
~ "reviewer":3,"stage":"returned",
~ {"author":3,"day":19723,"days":0,"number":2,"open":false,"sort":"returned","terms":"","text":"Stairs"}
"#;

/// Bodies that are not what their request wants, and requests without a route.
pub(crate) const REFUSED: &[&str] = &[
    r#"
> 5 19723 POST /files
< 400 Bad Request {"refused":"syntax"}
> 5 19723 POST /files {"parcel":1,"kind":"construct","valuation":5.0,"description":"House"}
< 400 Bad Request {"refused":"syntax"}
> 5 19723 POST /files {"parcel":1,"kind":"construct","valuation":5e0,"description":"House"}
< 400 Bad Request {"refused":"syntax"}
> 5 19723 POST /files {"parcel":1,"kind":"construct","valuation":5}
< 400 Bad Request {"refused":"syntax"}
> 5 19723 POST /files {"parcel":1,"kind":"construct","valuation":5,"description":"House","day":1}
< 400 Bad Request {"refused":"syntax"}
> 5 19723 POST /files {"parcel":0,"kind":"construct","valuation":5,"description":"House"}
< 400 Bad Request {"refused":"syntax"}
> 5 19723 POST /files {"parcel":1,"kind":"Construct","valuation":5,"description":"House"}
< 400 Bad Request {"refused":"syntax"}
> 1 19723 GET /files/1 {}
< 400 Bad Request {"refused":"syntax"}
> 1 19723 GET /files {}
< 400 Bad Request {"refused":"syntax"}
> 1 19723 POST /files/01/issue
< 404 Not Found {"refused":"route"}
> 1 19723 GET /files?x=1
< 404 Not Found {"refused":"route"}
> 1 19723 BREW /files
< 404 Not Found {"refused":"route"}
> 1 19723 GET /files
< 200 OK {"files":[]}
"#,
];

/// A permit whose work begins on the last day that there is.
const LAST_DAY: &str = r#"
> 5 100000 POST /files {"parcel":1,"kind":"construct","valuation":1,"description":"House"}
< 200 OK {"day":100000,"done":"file","number":1}
> 2 100000 POST /files/1/assign-reviewer {"party":3}
< 200 OK {"day":100000,"done":"assign-reviewer","number":null}
> 5 100000 POST /files/1/name-contractor {"party":6}
< 200 OK {"day":100000,"done":"name-contractor","number":null}
> 3 100000 POST /files/1/start-review
< 200 OK {"day":100000,"done":"start-review","number":null}
> 3 100000 POST /files/1/approve-plans
< 200 OK {"day":100000,"done":"approve-plans","number":null}
> 1 100000 POST /files/1/issue
< 200 OK {"day":100000,"done":"issue","number":1}
> 6 100000 POST /files/1/begin-work
< 200 OK {"day":100000,"done":"begin-work","number":null}
> 1 100000 GET /files/1
~ "deadline":100180,
"#;

/// An extension of 180 days.
const EXTENDED: &str = r#"
> 5 100000 POST /files/1/ask-extension {"days":180,"text":"Rain"}
~ "done":"ask-extension",
> 1 100000 POST /files/1/grant-extension
~ "done":"grant-extension",
"#;

/// One more day than the last deadline, and then that deadline.
const LAST_DEADLINE: &str = r#"
> 1 100000 GET /files/1
~ "deadline":199900,
~ "stage":"working",
> 5 100000 POST /files/1/ask-extension {"days":101,"text":"Rain"}
< 200 OK {"day":100000,"done":"ask-extension","number":1110}
> 1 100000 POST /files/1/grant-extension
< 409 Conflict {"reason":"far","refused":"not-admitted"}
> 1 100000 GET /files/1
~ "deadline":199900,
> 1 100000 POST /files/1/refuse-extension {"text":"Too far"}
< 200 OK {"day":100000,"done":"refuse-extension","number":1111}
> 5 100000 POST /files/1/ask-extension {"days":100,"text":"Rain"}
< 200 OK {"day":100000,"done":"ask-extension","number":1112}
> 1 100000 POST /files/1/grant-extension
< 200 OK {"day":100000,"done":"grant-extension","number":1113}
> 1 100000 GET /files/1
~ "deadline":200000,
"#;

/// What leads a file in work to the last deadline that there is: what comes first, what is done 554 times, and what comes
/// last.
pub(crate) const FAR: (&str, &str, &str) = (LAST_DAY, EXTENDED, LAST_DEADLINE);
