//! Lines that are none, each with what is wrong with it.

use permit_history::fault::LineFault;
use permit_history::{LONGEST_LINE, read_line};
use std::test::*;

/// Lines that are no JSON value, or no UTF-8.
const SYNTAX: [&[u8]; 9] = [
    b"",
    b" ",
    b"\r",
    b"{",
    b"\xEF\xBB\xBF{\"body\":{},\"caller\":0,\"day\":19700,\"done\":\"upgrade\",\"id\":null,\"number\":null}",
    b"{\"body\":{},\"caller\":0,\"day\":19700,\"done\":\"upgr\xFFade\",\"id\":null,\"number\":null}",
    b"{\"body\":{},\"caller\":0,\"day\":19700,\"done\":\"upgrade\",\"id\":null,\"number\":null",
    b"{\"body\":{},\"caller\":0,\"day\":19700,\"done\":\"upgrade\",\"id\":null,\"number\":null}x",
    b"{\"body\":{},\"caller\":0,\"day\":019700,\"done\":\"upgrade\",\"id\":null,\"number\":null}",
];

/// Lines in which a member that the entry needs is missing or out of its limits.
const FIELDS: [&str; 27] = [
    "{}",
    "[]",
    "null",
    r#"{"caller":0,"day":19700,"done":"upgrade","id":null,"number":null}"#,
    r#"{"body":{},"caller":0,"done":"upgrade","id":null,"number":null}"#,
    r#"{"body":{},"caller":0,"day":19700,"id":null,"number":null}"#,
    r#"{"body":{},"caller":0,"day":100001,"done":"upgrade","id":null,"number":null}"#,
    r#"{"body":{},"caller":0,"day":-1,"done":"upgrade","id":null,"number":null}"#,
    r#"{"body":{},"caller":0,"day":19700.5,"done":"upgrade","id":null,"number":null}"#,
    r#"{"body":{},"caller":0,"day":123456789012345678901234567890,"done":"upgrade","id":null,"number":null}"#,
    r#"{"body":{},"caller":0,"day":"19700","done":"upgrade","id":null,"number":null}"#,
    r#"{"body":{},"caller":1,"day":19700,"done":"Upgrade","id":null,"number":null}"#,
    r#"{"body":{},"caller":1,"day":19700,"done":"read","id":1,"number":null}"#,
    r#"{"body":{},"caller":1,"day":19700,"done":"list","id":null,"number":null}"#,
    r#"{"body":{},"caller":0,"day":19700,"done":"issue","id":1,"number":4}"#,
    r#"{"body":{},"caller":100000,"day":19700,"done":"issue","id":1,"number":4}"#,
    r#"{"body":{},"caller":1,"day":19700,"done":"issue","id":null,"number":4}"#,
    r#"{"body":{},"caller":1,"day":19700,"done":"issue","id":1,"number":10000}"#,
    r#"{"body":{},"caller":1,"day":19700,"done":"issue","id":1}"#,
    r#"{"body":{"name":"Sam","role":"public","token":"public5public5public5"},"caller":2,"day":19701,"done":"add-party","id":null,"number":5}"#,
    r#"{"body":{"digest":"public5public5public5","name":"Sam","role":"public"},"caller":2,"day":19701,"done":"add-party","id":null,"number":5}"#,
    r#"{"body":{"text":""},"caller":2,"day":19701,"done":"return","id":1,"number":5}"#,
    r#"{"body":{"tables":"71c480df93d6ae2f1efad1447c66c9525e316218cf51fc8d9ed832f2daf18b7"},"caller":0,"day":19800,"done":"begin","id":null,"number":null}"#,
    r#"{"body":{"tables":"71C480DF93D6AE2F1EFAD1447C66C9525E316218CF51FC8D9ED832F2DAF18B73"},"caller":0,"day":19800,"done":"begin","id":null,"number":null}"#,
    r#"{"body":{"digest":"71c480df93d6ae2f1efad1447c66c9525e316218cf51fc8d9ed832f2daf18b73"},"caller":0,"day":19800,"done":"begin","id":null,"number":null}"#,
    r#"{"body":{"tables":"71c480df93d6ae2f1efad1447c66c9525e316218cf51fc8d9ed832f2daf18b730"},"caller":0,"day":19800,"done":"begin","id":null,"number":null}"#,
    r#"{"body":{"tables":"71c480df93d6ae2f1efad1447c66c9525e316218cf51fc8d9ed832f2daf18b73"},"caller":0,"done":"begin","id":null,"number":null}"#,
];

/// Lines that say an entry, but not as its line does.
const FORM: [&str; 17] = [
    r#" {"body":{},"caller":0,"day":19700,"done":"upgrade","id":null,"number":null}"#,
    "{\"body\":{},\"caller\":0,\"day\":19700,\"done\":\"upgrade\",\"id\":null,\"number\":null}\r",
    r#"{"body": {},"caller":0,"day":19700,"done":"upgrade","id":null,"number":null}"#,
    r#"{"caller":0,"body":{},"day":19700,"done":"upgrade","id":null,"number":null}"#,
    r#"{"body":{},"caller":1,"day":19700,"done":"upgrade","id":null,"number":null}"#,
    r#"{"body":{},"caller":0,"day":19700,"done":"upgrade","id":1,"number":null}"#,
    r#"{"body":{},"caller":0,"day":19700,"done":"upgrade","id":null}"#,
    r#"{"body":{},"caller":0,"day":1,"day":19700,"done":"upgrade","id":null,"number":null}"#,
    r#"{"body":{"text":"x"},"caller":0,"day":19700,"done":"upgrade","id":null,"number":null}"#,
    r#"{"body":{},"caller":0,"day":19700,"done":"upgr\u0061de","id":null,"number":null}"#,
    r#"{"body":{"text":"x","days":3},"caller":1,"day":19700,"done":"temporary","id":1,"number":1}"#,
    r#"{"body":{"digest":"71c480df93d6ae2f1efad1447c66c9525e316218cf51fc8d9ed832f2daf18b73","name":"Sam","role":"clerk"},"caller":2,"day":19701,"done":"add-party","id":null,"number":5}"#,
    r#"{"body":{"digest":"71c480df93d6ae2f1efad1447c66c9525e316218cf51fc8d9ed832f2daf18b73","name":"Sam"},"caller":0,"day":19701,"done":"found","id":null,"number":2}"#,
    r#"{"body":{"tables":"71c480df93d6ae2f1efad1447c66c9525e316218cf51fc8d9ed832f2daf18b73"},"caller":1,"day":19800,"done":"begin","id":null,"number":null}"#,
    r#"{"body":{"tables":"71c480df93d6ae2f1efad1447c66c9525e316218cf51fc8d9ed832f2daf18b73"},"caller":0,"day":19800,"done":"begin","id":null,"number":1}"#,
    r#"{"body":{"tables":"71c480df93d6ae2f1efad1447c66c9525e316218cf51fc8d9ed832f2daf18b73"},"caller":0,"day":19800,"done":"begin","id":1,"number":null}"#,
    r#"{"body":{"digest":"71c480df93d6ae2f1efad1447c66c9525e316218cf51fc8d9ed832f2daf18b73","tables":"71c480df93d6ae2f1efad1447c66c9525e316218cf51fc8d9ed832f2daf18b73"},"caller":0,"day":19800,"done":"begin","id":null,"number":null}"#,
];

/// Whether the line is refused for this fault.
fn is_refused(rt: &HostRuntime, line: &[u8], fault: LineFault) -> bool {
    match read_line(rt.alloc(), line) {
        Ok(_) => false,
        Err(found) => found == fault,
    }
}

#[test]
fn bad_lines_are_refused(rt: HostRuntime) {
    for line in SYNTAX {
        assert!(rt; is_refused(&rt, line, LineFault::Syntax), "{line:?}");
    }
    for line in FIELDS {
        assert!(rt;
            is_refused(&rt, line.as_bytes(), LineFault::Fields),
            "{line}"
        );
    }
    for line in FORM {
        assert!(rt; is_refused(&rt, line.as_bytes(), LineFault::Form), "{line}");
    }
}

#[test]
fn long_lines_are_refused(rt: HostRuntime) -> Result<(), Fail> {
    let spaces = vec![in rt.alloc(); b' '; LONGEST_LINE + 1]?;
    assert!(rt; is_refused(&rt, spaces.as_slice(), LineFault::Long));
    assert!(rt; is_refused(&rt, &spaces.as_slice()[..LONGEST_LINE], LineFault::Syntax));
    let megabyte = vec![in rt.alloc(); b'{'; 1000000]?;
    assert!(rt; is_refused(&rt, megabyte.as_slice(), LineFault::Long));
    let nested = vec![in rt.alloc(); b'['; 1000]?;
    assert!(rt; is_refused(&rt, nested.as_slice(), LineFault::Syntax));
    Ok(())
}
