//! The opening of the scenarios: seven parties and two parcels under the standard policy.

/// What party 1 does on the day of the founding: it adds a clerk, a reviewer, an inspector, two of the public and
/// another inspector, and two parcels of the public's.
pub const OPENING: &str = r#"
> 1 19700 POST /parties {"name":"Cal","role":"clerk","token":"clerk2clerk2clerk2"}
< 200 OK {"day":19700,"done":"add-staff","number":2}
> 1 19700 POST /parties {"name":"Rae","role":"reviewer","token":"reviewer3reviewer3"}
< 200 OK {"day":19700,"done":"add-staff","number":3}
> 1 19700 POST /parties {"name":"Ian","role":"inspector","token":"inspector4inspector4"}
< 200 OK {"day":19700,"done":"add-staff","number":4}
> 1 19700 POST /parties {"name":"Sam","role":"public","token":"public5public5public5"}
< 200 OK {"day":19700,"done":"add-party","number":5}
> 1 19700 POST /parties {"name":"Pat","role":"public","token":"public6public6public6"}
< 200 OK {"day":19700,"done":"add-party","number":6}
> 1 19700 POST /parties {"name":"Ivy","role":"inspector","token":"inspector7inspector7"}
< 200 OK {"day":19700,"done":"add-staff","number":7}
> 1 19700 POST /parcels {"lot":"A-1","address":"1 Main St","owner":5}
< 200 OK {"day":19700,"done":"add-parcel","number":1}
> 1 19700 POST /parcels {"lot":"A-2","address":"2 Main St","owner":6}
< 200 OK {"day":19700,"done":"add-parcel","number":2}
"#;
