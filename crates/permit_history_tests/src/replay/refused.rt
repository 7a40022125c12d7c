//! Lines that are no next entry.

use crate::replay::life::{life, replay_lines};
use permit_base::refusal::Refusal;
use permit_base::words::Word;
use permit_history::fault::LineFault;
use permit_replay::fault::{ReplayFault, Why};
use std::alloc::Global;
use std::test::*;

/// Each line is refused after so many lines of the life, and for this reason.
const REFUSED: &str =
    r#"0 no-founding {"body":{},"caller":0,"day":19700,"done":"upgrade","id":null,"number":null}
0 no-founding {"body":{"digest":"@2","name":"Cal","role":"clerk"},"caller":1,"day":19701,"done":"add-staff","id":null,"number":2}
0 no-founding {"body":{"digest":"@1","name":"Chief"},"caller":0,"day":0,"done":"found","id":null,"number":1}
1 second-founding {"body":{"digest":"@1","name":"Chief"},"caller":0,"day":19700,"done":"found","id":null,"number":1}
1 first-edition {"body":{"digest":"@2","name":"Cal","role":"clerk"},"caller":1,"day":19701,"done":"add-staff","id":null,"number":2}
1 upgrade-day {"body":{},"caller":0,"day":19701,"done":"upgrade","id":null,"number":null}
2 second-founding {"body":{"digest":"@1","name":"Chief"},"caller":0,"day":19700,"done":"found","id":null,"number":1}
2 second-upgrade {"body":{},"caller":0,"day":19700,"done":"upgrade","id":null,"number":null}
1 first-edition {"body":{"digest":"@7","party":1},"caller":0,"day":19700,"done":"renew-token","id":null,"number":null}
3 record {"body":{"digest":"@7","party":3},"caller":0,"day":19700,"done":"renew-token","id":null,"number":null}
3 taken {"body":{"digest":"@2","party":1},"caller":0,"day":19700,"done":"renew-token","id":null,"number":null}
3 taken {"body":{"digest":"@1","party":1},"caller":0,"day":19700,"done":"renew-token","id":null,"number":null}
2 caller {"body":{"digest":"@2","name":"Cal","role":"clerk"},"caller":9,"day":19701,"done":"add-staff","id":null,"number":2}
3 clock {"body":{"digest":"@3","name":"Rae","role":"reviewer"},"caller":1,"day":19699,"done":"add-staff","id":null,"number":3}
8 record {"body":{"description":"House","kind":"move","parcel":2,"valuation":25000000},"caller":5,"day":19710,"done":"file","id":null,"number":1}
8 record {"body":{},"caller":6,"day":19703,"done":"declare","id":2,"number":null}
8 record {"body":{"to":6},"caller":2,"day":19732,"done":"transfer","id":2,"number":null}
9 record {"body":{},"caller":3,"day":19711,"done":"start-review","id":1,"number":null}
9 taken {"body":{},"caller":6,"day":19704,"done":"declare","id":1,"number":null}
3 taken {"body":{"digest":"@2","name":"Cal","role":"clerk"},"caller":1,"day":19701,"done":"add-staff","id":null,"number":3}
8 person {"body":{"address":"1 Main St","lot":"A-2","owner":7},"caller":2,"day":19702,"done":"add-parcel","id":null,"number":2}
10 stage {"body":{},"caller":3,"day":19714,"done":"approve-plans","id":1,"number":null}
2 number {"body":{"digest":"@2","name":"Cal","role":"clerk"},"caller":1,"day":19701,"done":"add-staff","id":null,"number":3}
7 number {"body":{"address":"1 Main St","lot":"A-1","owner":5},"caller":2,"day":19702,"done":"add-parcel","id":null,"number":2}
9 number {"body":{"description":"House","kind":"move","parcel":1,"valuation":25000000},"caller":5,"day":19710,"done":"file","id":null,"number":2}
12 number {"body":{"text":"Say which rafters"},"caller":3,"day":19712,"done":"return","id":1,"number":2}
12 number {"body":{"text":"Say which rafters"},"caller":3,"day":19712,"done":"return","id":1,"number":null}
11 number {"body":{},"caller":3,"day":19711,"done":"start-review","id":1,"number":1}"#;

/// A reason in a word.
pub fn word(why: Why) -> &'static str {
    match why {
        Why::NoFounding => "no-founding",
        Why::NoCopy => "no-copy",
        Why::OtherCopy => "another-copy",
        Why::CopyDay => "copy-day",
        Why::SecondBeginning => "second-beginning",
        Why::SecondFounding => "second-founding",
        Why::FirstEdition => "first-edition",
        Why::UpgradeDay => "upgrade-day",
        Why::SecondUpgrade => "second-upgrade",
        Why::Number => "number",
        Why::Refused(Refusal::Caller) => "caller",
        Why::Refused(Refusal::Clock) => "clock",
        Why::Refused(Refusal::Record) => "record",
        Why::Refused(Refusal::NotAdmitted(reason)) => reason.word(),
        Why::Refused(_) | Why::Memory => "none of these",
    }
}

/// The line at which replaying these lines stops, and the reason in a word; line 0 where it doesn't.
fn stop_of(alloc: Global, lines: &[&str]) -> Result<(u64, &'static str), Fail> {
    Ok(match &replay_lines(alloc, lines)? {
        Ok(_) => (0, "replayed"),
        Err(ReplayFault::Entry { line, why }) => (*line, word(*why)),
        Err(ReplayFault::Line { line, fault }) => match fault {
            LineFault::Syntax => (*line, "syntax"),
            _ => (*line, "another fault"),
        },
        Err(_) => (0, "another fault"),
    })
}

/// Fails where the line of a case isn't refused as it says.
fn refuses(alloc: Global, life: &[&'static str], case: &'static str) -> Result<(), Fail> {
    let (count, rest) = case.split_once(' ').ok_or("a count")?;
    let (reason, refused) = rest.split_once(' ').ok_or("a reason")?;
    let before = life.get(..count.parse()?).ok_or("so many lines")?;
    let mut lines = Vec::new(alloc);
    lines.extend_from_slice(before)?;
    lines.push(refused)?;
    let (line, told) = stop_of(alloc, lines.as_slice())?;
    if line == lines.len() as u64 && told == reason {
        Ok(())
    } else {
        Err(Fail::new(format!(in alloc; "{line} {told}: {case}")?))
    }
}

#[test]
fn a_line_that_is_no_next_entry_is_refused_with_its_reason(rt: HostRuntime) -> Result<(), Fail> {
    let life = life(rt.alloc())?;
    for case in REFUSED.lines() {
        refuses(rt.alloc(), life.as_slice(), case)?;
    }
    Ok(())
}

/// Fails where a line that occurs twice isn't refused there, unless it changes nothing the second time.
fn finds_twice(alloc: Global, life: &[&'static str], place: usize) -> Result<(), Fail> {
    let (before, behind) = life.split_at_checked(place).ok_or("a place")?;
    let twice = *behind.first().ok_or("a line")?;
    let mut lines = Vec::new(alloc);
    lines.extend_from_slice(before)?;
    lines.push(twice)?;
    lines.extend_from_slice(behind)?;
    let (line, told) = stop_of(alloc, lines.as_slice())?;
    let changes_nothing = twice.contains("assign-") || twice.contains("name-");
    let wanted = if changes_nothing {
        0
    } else {
        before.len() as u64 + 2
    };
    if line == wanted {
        Ok(())
    } else {
        Err(Fail::new(format!(in alloc; "{line} {told}: {twice}")?))
    }
}

#[test]
fn a_line_that_stands_twice_is_found(rt: HostRuntime) -> Result<(), Fail> {
    let life = life(rt.alloc())?;
    for place in 0..life.len() {
        finds_twice(rt.alloc(), life.as_slice(), place)?;
    }
    Ok(())
}

#[test]
fn a_line_that_is_no_entry_s_is_named(rt: HostRuntime) -> Result<(), Fail> {
    let mut lines = life(rt.alloc())?;
    lines.truncate(2);
    lines.push("{")?;
    let (line, told) = stop_of(rt.alloc(), lines.as_slice())?;
    assert!(rt; line == 3 && told == "syntax");
    Ok(())
}
