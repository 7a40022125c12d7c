//! The evidence of a text, against digests that another program computes, and how much of a text is settled.

use permit_base::values::Digest;
use permit_history::{Evidence, digest_of_lines, evidence_of, settled_length, verify};
use std::io::BufReader;
use std::test::Fail;

/// Three lines, and a part of a fourth.
const TEXT: &[u8] = b"one\ntwo\nthree\nfou";

/// The digests of its first lines: of none, one, two and three.
const DIGESTS: [&str; 4] = [
    "e3b0c44298fc1c149afbf4c8996fb92427ae41e4649b934ca495991b7852b855",
    "2c8b08da5ce60398e1f19af0e5dccc744df274b826abe585eaba68c525434806",
    "c3f9c8c283a2b1f2f1896f27a01cbe3cddc0c9d93f752e4639035a0f5b36f6e8",
    "b6285c57e8797db5d4c51c80d6f11938afda9b11c6a003549709189e9b4b92a2",
];

/// The evidence of the first lines of the text.
fn evidence(lines: u64) -> Result<Evidence, Fail> {
    let sha256 = DIGESTS
        .get(lines as usize)
        .and_then(|digits| Digest::read(digits))
        .ok_or("a digest")?;
    Ok(Evidence { lines, sha256 })
}

#[test]
fn each_prefix_has_its_digest(rt: HostRuntime) -> Result<(), Fail> {
    let alloc = rt.alloc();
    for size in 1..20 {
        for lines in 0..4 {
            let mut source = BufReader::with_capacity(alloc, size, TEXT)?;
            let digest = digest_of_lines(&mut source, lines)?;
            assert!(rt; digest == Some(evidence(lines)?.sha256));
        }
        let mut source = BufReader::with_capacity(alloc, size, TEXT)?;
        assert!(rt; digest_of_lines(&mut source, 4)?.is_none());
        let mut source = BufReader::with_capacity(alloc, size, TEXT)?;
        assert!(rt; evidence_of(&mut source)? == evidence(3)?);
    }
    Ok(())
}

#[test]
fn a_text_without_lines_has_no_digest_of_one(rt: HostRuntime) -> Result<(), Fail> {
    for text in [b"".as_slice(), b"one".as_slice()] {
        let mut source = text;
        assert!(rt; evidence_of(&mut source)? == evidence(0)?);
        let mut source = text;
        assert!(rt; digest_of_lines(&mut source, 1)?.is_none());
    }
    Ok(())
}

#[test]
fn all_lines_but_the_last_are_settled(rt: HostRuntime) -> Result<(), Fail> {
    let alloc = rt.alloc();
    for (text, settled) in [
        (TEXT, 8),
        (b"one\ntwo\n".as_slice(), 4),
        (b"\n\n\n".as_slice(), 2),
        (b"one\ntw".as_slice(), 0),
        (b"one".as_slice(), 0),
        (b"".as_slice(), 0),
    ] {
        for size in 1..20 {
            let mut source = BufReader::with_capacity(alloc, size, text)?;
            assert_eq!(rt; settled_length(&mut source)?, settled);
        }
    }
    Ok(())
}

#[test]
fn lines_that_changed_are_not_verified(rt: HostRuntime) -> Result<(), Fail> {
    let two = evidence(2)?;
    for (text, same) in [
        (b"one\ntwo\n".as_slice(), true),
        (b"one\ntwo\nfour\n".as_slice(), true),
        (b"one\ntwo".as_slice(), false),
        (b"one\ntwO\nthree\n".as_slice(), false),
        (b"two\none\nthree\n".as_slice(), false),
        (b"".as_slice(), false),
    ] {
        let mut source = text;
        assert_eq!(rt; verify(&mut source, &two)?, same);
    }
    Ok(())
}
