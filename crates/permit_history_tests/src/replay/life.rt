//! The text of a life of one file, from the office's founding to the certificate.

use permit_replay::beginning::Beginning;
use permit_replay::fault::ReplayFault;
use permit_replay::replay;
use permit_store::plain::PlainStore;
use std::alloc::Global;
use std::test::Fail;

/// Its lines, in which `@` and a digit mean a digest of 64 of that digit.
const LIFE: &str =
    r#"{"body":{"digest":"@1","name":"Chief"},"caller":0,"day":19700,"done":"found","id":null,"number":1}
{"body":{},"caller":0,"day":19700,"done":"upgrade","id":null,"number":null}
{"body":{"digest":"@2","name":"Cal","role":"clerk"},"caller":1,"day":19701,"done":"add-staff","id":null,"number":2}
{"body":{"digest":"@3","name":"Rae","role":"reviewer"},"caller":1,"day":19701,"done":"add-staff","id":null,"number":3}
{"body":{"digest":"@4","name":"Ida","role":"inspector"},"caller":1,"day":19701,"done":"add-staff","id":null,"number":4}
{"body":{"digest":"@5","name":"Sam","role":"public"},"caller":2,"day":19702,"done":"add-party","id":null,"number":5}
{"body":{"digest":"@6","name":"Ben","role":"public"},"caller":2,"day":19702,"done":"add-party","id":null,"number":6}
{"body":{"address":"1 Main St","lot":"A-1","owner":5},"caller":2,"day":19702,"done":"add-parcel","id":null,"number":1}
{"body":{},"caller":6,"day":19703,"done":"declare","id":1,"number":null}
{"body":{"description":"House","kind":"move","parcel":1,"valuation":25000000},"caller":5,"day":19710,"done":"file","id":null,"number":1}
{"body":{"party":3},"caller":2,"day":19711,"done":"assign-reviewer","id":1,"number":null}
{"body":{},"caller":3,"day":19711,"done":"start-review","id":1,"number":null}
{"body":{"text":"Say which rafters"},"caller":3,"day":19712,"done":"return","id":1,"number":1}
{"body":{"text":"All of them"},"caller":5,"day":19713,"done":"resubmit","id":1,"number":2}
{"body":{},"caller":3,"day":19714,"done":"approve-plans","id":1,"number":null}
{"body":{"days":30,"text":"Ill"},"caller":5,"day":19715,"done":"ask-extension","id":1,"number":3}
{"body":{"text":"Too early"},"caller":1,"day":19716,"done":"refuse-extension","id":1,"number":4}
{"body":{},"caller":2,"day":19717,"done":"issue","id":1,"number":5}
{"body":{"party":4},"caller":2,"day":19718,"done":"assign-inspector","id":1,"number":null}
{"body":{"party":6},"caller":5,"day":19718,"done":"name-contractor","id":1,"number":null}
{"body":{},"caller":6,"day":19719,"done":"begin-work","id":1,"number":null}
{"body":{"conditions":"A rail all round","text":"Unsafe scaffold"},"caller":4,"day":19720,"done":"stop","id":1,"number":6}
{"body":{},"caller":4,"day":19721,"done":"lift","id":1,"number":7}
{"body":{"step":"footing"},"caller":6,"day":19722,"done":"request-inspection","id":1,"number":null}
{"body":{"text":"Two rafters are cracked"},"caller":4,"day":19723,"done":"notice","id":1,"number":8}
{"body":{"paper":8},"caller":4,"day":19724,"done":"clear-notice","id":1,"number":null}
{"body":{"step":"footing"},"caller":6,"day":19724,"done":"request-inspection","id":1,"number":null}
{"body":{"step":"footing"},"caller":4,"day":19725,"done":"approve-step","id":1,"number":null}
{"body":{"step":"frame"},"caller":6,"day":19726,"done":"request-inspection","id":1,"number":null}
{"body":{"step":"frame"},"caller":4,"day":19727,"done":"approve-step","id":1,"number":null}
{"body":{"days":30,"text":"The ground floor"},"caller":1,"day":19728,"done":"temporary","id":1,"number":9}
{"body":{"step":"final"},"caller":6,"day":19729,"done":"request-inspection","id":1,"number":null}
{"body":{"step":"final"},"caller":4,"day":19730,"done":"approve-step","id":1,"number":null}
{"body":{},"caller":1,"day":19731,"done":"certify","id":1,"number":10}
{"body":{"to":6},"caller":2,"day":19732,"done":"transfer","id":1,"number":null}"#;

/// The lines of the life, oldest first.
pub fn life(alloc: Global) -> Result<Vec<&'static str>, Fail> {
    let mut lines = Vec::new(alloc);
    for line in LIFE.lines() {
        lines.push(line)?;
    }
    Ok(lines)
}

/// Adds a line that is written so, with its LF.
fn push_line(text: &mut Vec<u8>, line: &str) -> Result<(), Fail> {
    let mut is_digest = false;
    for byte in line.as_bytes() {
        if is_digest {
            text.resize(text.len() + 64, *byte)?;
        } else if *byte != b'@' {
            text.push(*byte)?;
        }
        is_digest = *byte == b'@';
    }
    text.push(b'\n')?;
    Ok(())
}

/// The text of lines that are written so.
pub fn text(alloc: Global, lines: &[&str]) -> Result<Vec<u8>, Fail> {
    let mut text = Vec::new(alloc);
    for line in lines {
        push_line(&mut text, line)?;
    }
    Ok(text)
}

/// What replaying such lines answers, which may begin so.
pub fn replay_from(
    alloc: Global,
    beginning: Beginning,
    lines: &[&str],
) -> Result<Result<PlainStore, ReplayFault>, Fail> {
    let text = text(alloc, lines)?;
    let mut source = text.as_slice();
    Ok(replay(alloc, beginning, &mut source))
}

/// What replaying such lines answers, which found their office.
pub fn replay_lines(
    alloc: Global,
    lines: &[&str],
) -> Result<Result<PlainStore, ReplayFault>, Fail> {
    replay_from(alloc, Beginning::Founding, lines)
}
