//! Unknown caller, missing record.

/// A token of nobody.
pub(crate) const UNKNOWN: &[&str] = &[
    r#"
> 0 19723 GET /files/1
< 401 Unauthorized {"refused":"caller"}
"#,
];

/// A file that there is not.
pub(crate) const MISSING: &[&str] = &[
    r#"
> 1 19723 GET /files/99
< 404 Not Found {"refused":"record"}
"#,
];
