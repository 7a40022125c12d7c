//! Scripts with a command for each kind of change of the tables.

/// The first commands of an office: a party, a parcel, its next owner, and an interest in it.
pub const FIRST_CHANGES: &str = r#"
> 1 19700 POST /parties {"name":"Cal","role":"clerk","token":"clerk2clerk2clerk2"}
< 200 OK {"day":19700,"done":"add-staff","number":2}
> 1 19700 POST /parcels {"lot":"A-1","address":"1 Main St","owner":2}
< 200 OK {"day":19700,"done":"add-parcel","number":1}
> 1 19701 POST /parcels/1/transfer {"to":1}
< 200 OK {"day":19701,"done":"transfer","number":null}
> 2 19701 POST /parcels/1/declare
< 200 OK {"day":19701,"done":"declare","number":null}
"#;

/// What follows a construction, file 1, whose frame is approved: a row with no paper, one with a paper, a notice
/// that is closed, a file, and an extension that is granted.
pub const LATER_CHANGES: &str = r#"
> 6 19820 POST /files/1/request-inspection {"step":"energy"}
< 200 OK {"day":19820,"done":"request-inspection","number":null}
> 4 19820 POST /files/1/notice {"text":"Nails"}
< 200 OK {"day":19820,"done":"notice","number":2}
> 4 19821 POST /files/1/clear-notice {"paper":2}
< 200 OK {"day":19821,"done":"clear-notice","number":null}
> 5 19821 POST /files {"parcel":2,"kind":"repair","valuation":1,"description":"Roof"}
< 200 OK {"day":19821,"done":"file","number":2}
> 5 19821 POST /files/2/ask-extension {"days":90,"text":"Rain"}
< 200 OK {"day":19821,"done":"ask-extension","number":1}
> 1 19822 POST /files/2/grant-extension
< 200 OK {"day":19822,"done":"grant-extension","number":2}
"#;
