//! The text of a small office.

use permit_replay::beginning::Beginning;
use permit_replay::replay;
use permit_store::plain::PlainStore;
use std::alloc::Global;
use std::test::Fail;

/// Nine lines: the founding, the upgrade, and seven commands.
pub const TEXT: &str =
    r#"{"body":{"digest":"71c480df93d6ae2f1efad1447c66c9525e316218cf51fc8d9ed832f2daf18b73","name":"Chief"},"caller":0,"day":19700,"done":"found","id":null,"number":1}
{"body":{},"caller":0,"day":19700,"done":"upgrade","id":null,"number":null}
{"body":{"digest":"4605b248089a824141cc1e1cf568b4ab0e2839dbacff8c5f6a46ff0de3eddcfa","name":"Rae","role":"reviewer"},"caller":1,"day":19701,"done":"add-staff","id":null,"number":2}
{"body":{"address":"1 Main St","lot":"A-1","owner":1},"caller":1,"day":19701,"done":"add-parcel","id":null,"number":1}
{"body":{"description":"Roof","kind":"repair","parcel":1,"valuation":250000},"caller":1,"day":19701,"done":"file","id":null,"number":1}
{"body":{"party":2},"caller":1,"day":19701,"done":"assign-reviewer","id":1,"number":null}
{"body":{},"caller":1,"day":19701,"done":"start-review","id":1,"number":null}
{"body":{"text":"Say which rafters"},"caller":1,"day":19701,"done":"return","id":1,"number":1}
{"body":{"to":2},"caller":1,"day":19701,"done":"transfer","id":1,"number":null}
"#;

/// The text.
pub fn text() -> &'static [u8] {
    TEXT.as_bytes()
}

/// The length of the text's first lines, so many.
pub fn length(lines: usize) -> usize {
    let mut length = 0;
    let mut left = lines;
    for (place, byte) in text().iter().enumerate() {
        if left > 0 {
            length = place + 1;
            if *byte == b'\n' {
                left -= 1;
            }
        }
    }
    length
}

/// The first bytes of the text, so many.
pub fn first(length: usize) -> Result<&'static [u8], Fail> {
    Ok(text().get(..length).ok_or("so many bytes")?)
}

/// The text with other words in the places of these.
pub fn reworded(alloc: Global, from: &'static str, to: &str) -> Result<String, Fail> {
    Ok(TEXT.replace(alloc, from, to)?)
}

/// The store that the text's first lines leave, so many.
pub fn store(alloc: Global, lines: usize) -> Result<PlainStore, Fail> {
    let mut source = first(length(lines))?;
    match replay(alloc, Beginning::Founding, &mut source) {
        Ok(store) => Ok(store),
        Err(_) => Err("the lines are not replayed".into()),
    }
}
