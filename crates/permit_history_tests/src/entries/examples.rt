//! The examples of the doc comments, line by line as they are written there.

use permit_base::values::Day;
use permit_history::entry::{Deed, Entry};
use permit_history::fault::LineFault;
use permit_history::{
    digest_of_hash, digest_of_lines, evidence_of, next_entry, read_line, settled_length, verify,
    write_line,
};
use sha2::{Digest as _, Sha256};
use std::alloc::Global;
use std::process::Abort;
use std::test::*;

fn writing(rt: &impl Abort, alloc: Global) -> Result<(), Fail> {
    let (day, deed) = (Day::new(19700).ok_or("a day")?, Deed::Upgrade);
    let line = write_line(alloc, &Entry { day, deed })?;
    assert!(rt; line.as_slice().starts_with(b"{\"body\":{},"));
    Ok(())
}

fn reading(rt: &impl Abort, alloc: Global) -> Result<(), Fail> {
    let line = r#"{"body":{},"caller":0,"day":19700,"done":"upgrade","id":null,"number":null}"#;
    let Ok(entry) = read_line(alloc, line.as_bytes()) else {
        return Err(Fail::new("no entry"));
    };
    assert!(rt; entry.day.get() == 19700 && matches!(entry.deed, Deed::Upgrade));
    assert!(rt; matches!(read_line(alloc, b"{}"), Err(LineFault::Fields)));
    Ok(())
}

fn going_on(rt: &impl Abort, alloc: Global) -> Result<(), Fail> {
    let line = r#"{"body":{},"caller":0,"day":19700,"done":"upgrade","id":null,"number":null}"#;
    let lines = format!(in alloc; "{line}\n")?;
    let (mut text, mut room) = (lines.as_bytes(), Vec::new(alloc));
    let entry = next_entry(alloc, &mut text, &mut room);
    assert!(rt; matches!(entry, Ok(Some(_))));
    let entry = next_entry(alloc, &mut text, &mut room);
    assert!(rt; matches!(entry, Ok(None)));
    Ok(())
}

fn hashing_a_message(rt: &impl Abort) -> Result<(), Fail> {
    let digest = digest_of_hash(Sha256::new().chain_update(b"one\ntwo\n".as_slice()));
    assert!(rt; digest.as_str().starts_with("c3f9c8c2"));
    Ok(())
}

fn settling(rt: &impl Abort) -> Result<(), Fail> {
    assert!(rt; settled_length(&mut b"one\ntwo\nthr".as_slice())? == 4);
    assert!(rt; settled_length(&mut b"one\n".as_slice())? == 0);
    Ok(())
}

fn counting(rt: &impl Abort) -> Result<(), Fail> {
    let evidence = evidence_of(&mut b"one\ntwo\nthr".as_slice())?;
    assert!(rt; evidence.lines == 2);
    assert!(rt; evidence.sha256.as_str().starts_with("c3f9c8c2"));
    Ok(())
}

fn hashing(rt: &impl Abort) -> Result<(), Fail> {
    let digest = digest_of_lines(&mut b"one\ntwo\nthr".as_slice(), 2)?.ok_or("two lines")?;
    assert!(rt; digest.as_str().starts_with("c3f9c8c2"));
    assert!(rt; digest_of_lines(&mut b"one\ntwo\nthr".as_slice(), 3)?.is_none());
    Ok(())
}

fn verifying(rt: &impl Abort) -> Result<(), Fail> {
    let evidence = evidence_of(&mut b"one\ntwo\n".as_slice())?;
    assert!(rt; verify(&mut b"one\ntwo\nthree\n".as_slice(), &evidence)?);
    assert!(rt; !verify(&mut b"one\n2\nthree\n".as_slice(), &evidence)?);
    Ok(())
}

#[test]
fn examples_hold(rt: HostRuntime) -> Result<(), Fail> {
    let alloc = rt.alloc();
    writing(&rt, alloc)?;
    reading(&rt, alloc)?;
    going_on(&rt, alloc)?;
    hashing_a_message(&rt)?;
    settling(&rt)?;
    counting(&rt)?;
    hashing(&rt)?;
    verifying(&rt)
}
