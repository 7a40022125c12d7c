//! Tokens in the field of a head. Targets and bodies are in the scenarios.

use permit_routes::bearer::read_token;
use std::test::Fail;

/// Values of the field, each with whether it has the token.
const FIELDS: [(&str, bool); 6] = [
    ("Bearer abcdefghijklmnopqrstuvwxyz", true),
    ("bEARER abcdefghijklmnopqrstuvwxyz", true),
    ("Bearer  abcdefghijklmnopqrstuvwxyz", false),
    ("Basic abcdefghijklmnopqrstuvwxyz", false),
    ("Bearer abcdefghijklmno", false),
    ("", false),
];

#[test]
fn tokens_are_read(rt: HostRuntime) -> Result<(), Fail> {
    for (value, has_token) in FIELDS {
        let is_right = match read_token(rt.alloc(), value.as_bytes())? {
            Some(token) => has_token && token.as_str() == "abcdefghijklmnopqrstuvwxyz",
            None => !has_token,
        };
        assert!(rt; is_right, "{value}");
    }
    Ok(())
}
