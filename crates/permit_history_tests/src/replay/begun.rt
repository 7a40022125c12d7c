//! Texts that begin with a copy of the tables that an office had before.

use crate::replay::life::{life, replay_from, replay_lines, text};
use crate::replay::refused::word;
use permit_base::values::Digest;
use permit_replay::beginning::{Beginning, CopiedTables};
use permit_replay::fault::ReplayFault;
use permit_replay::replay;
use permit_store::plain::PlainStore;
use permit_store::store::Store;
use std::alloc::Global;
use std::test::*;

const EIGHTS: &str = "8888888888888888888888888888888888888888888888888888888888888888";

/// The `begin` line on the day of the upgrade, and such lines with another digest and on other days.
const BEGUN: &str =
    r#"{"body":{"tables":"@8"},"caller":0,"day":19700,"done":"begin","id":null,"number":null}"#;

const OF_OTHERS: &str =
    r#"{"body":{"tables":"@9"},"caller":0,"day":19700,"done":"begin","id":null,"number":null}"#;

const BEFORE: &str =
    r#"{"body":{"tables":"@8"},"caller":0,"day":19699,"done":"begin","id":null,"number":null}"#;

const BEHIND: &str =
    r#"{"body":{"tables":"@8"},"caller":0,"day":19701,"done":"begin","id":null,"number":null}"#;

/// Another token of party 1.
const RENEWED: &str =
    r#"{"body":{"digest":"@7","party":1},"caller":0,"day":0,"done":"renew-token","id":null,"number":null}"#;

/// A copy of the tables of the first lines of the life, so many.
fn copy(alloc: Global, lines: &[&'static str]) -> Result<Beginning, Fail> {
    let tables = Digest::read(EIGHTS).ok_or("a digest")?;
    match replay_lines(alloc, lines)? {
        Ok(store) => Ok(Beginning::Copy(CopiedTables { store, tables })),
        Err(_) => Err("the lines are not replayed".into()),
    }
}

/// The number and the reason of the line at which replaying stops; line 0 where it doesn't.
fn stop_of(
    alloc: Global,
    beginning: Beginning,
    lines: &[&str],
) -> Result<(u64, &'static str), Fail> {
    Ok(match &replay_from(alloc, beginning, lines)? {
        Ok(_) => (0, "replayed"),
        Err(ReplayFault::Entry { line, why }) => (*line, word(*why)),
        Err(ReplayFault::Short) => (0, "short"),
        Err(_) => (0, "another fault"),
    })
}

/// A text in letters, the line at which it is refused after a copy of the upgrade's tables, and the reason. The letters mean
/// the `begin` line, that line with another digest, a day earlier and a day later, and the founding, the upgrade, the
/// first command, and another token.
const TEXTS: &str = "b 0 replayed
bc 0 replayed
br 0 replayed
brc 0 replayed
f 0 short
fu 0 replayed
fuc 0 replayed
o 1 another-copy
oc 1 another-copy
d 1 copy-day
e 1 copy-day
u 1 no-founding
c 1 no-founding
r 1 no-founding
bb 2 second-beginning
bo 2 second-beginning
bcb 3 second-beginning
fb 2 second-beginning
fub 3 second-beginning
fucb 4 second-beginning
bf 2 second-founding
bu 2 second-upgrade
bcc 3 taken";

/// The line of a letter.
fn line_of(life: &[&'static str], letter: u8) -> Result<&'static str, Fail> {
    Ok(match letter {
        b'b' => BEGUN,
        b'o' => OF_OTHERS,
        b'd' => BEFORE,
        b'e' => BEHIND,
        b'f' => *life.first().ok_or("a founding")?,
        b'u' => *life.get(1).ok_or("an upgrade")?,
        b'c' => *life.get(2).ok_or("a command")?,
        _ => RENEWED,
    })
}

/// The lines of letters.
fn lines_of(
    alloc: Global,
    life: &[&'static str],
    letters: &str,
) -> Result<Vec<&'static str>, Fail> {
    let mut lines = Vec::new(alloc);
    for letter in letters.as_bytes() {
        lines.push(line_of(life, *letter)?)?;
    }
    Ok(lines)
}

/// Fails where the text of a case isn't refused as it says.
fn refuses(
    alloc: Global,
    beginning: Beginning,
    life: &[&'static str],
    case: &'static str,
) -> Result<(), Fail> {
    let (letters, rest) = case.split_once(' ').ok_or("letters")?;
    let (place, reason) = rest.split_once(' ').ok_or("a line")?;
    let place: u64 = place.parse()?;
    let lines = lines_of(alloc, life, letters)?;
    let (line, told) = stop_of(alloc, beginning, lines.as_slice())?;
    if line == place && told == reason {
        Ok(())
    } else {
        Err(Fail::new(format!(in alloc; "{line} {told}: {case}")?))
    }
}

#[test]
fn a_text_begins_with_the_copy_alone(rt: HostRuntime) -> Result<(), Fail> {
    let alloc = rt.alloc();
    let life = life(alloc)?;
    for case in TEXTS.lines() {
        let beginning = copy(alloc, life.get(..2).ok_or("two lines")?)?;
        refuses(alloc, beginning, life.as_slice(), case)?;
    }
    Ok(())
}

#[test]
fn a_text_without_a_copy_begins_with_a_founding(rt: HostRuntime) -> Result<(), Fail> {
    let alloc = rt.alloc();
    let (line, told) = stop_of(alloc, Beginning::Founding, [BEGUN].as_slice())?;
    assert!(rt; line == 1 && told == "no-copy");
    Ok(())
}

/// The digits of a day in a line.
fn day_of(line: &'static str) -> Result<&'static str, Fail> {
    let (_, rest) = line.split_once("\"day\":").ok_or("a day")?;
    let (day, _) = rest.split_once(',').ok_or("a comma")?;
    Ok(day)
}

/// The text of the life that begins after its first lines, so many.
fn text_behind(alloc: Global, life: &[&'static str], count: usize) -> Result<Vec<u8>, Fail> {
    let (before, behind) = life.split_at_checked(count).ok_or("so many lines")?;
    let day = day_of(*before.last().ok_or("a line")?)?;
    let begun = format!(in alloc;
        r#"{{"body":{{"tables":"{EIGHTS}"}},"caller":0,"day":{day},"done":"begin","id":null,"number":null}}"#
    )?;
    let mut whole = begun.into_bytes();
    whole.push(b'\n')?;
    whole.extend_from_slice(text(alloc, behind)?.as_slice())?;
    Ok(whole)
}

/// The tables of the life, whose text begins after its first lines, so many.
fn tables_behind(alloc: Global, life: &[&'static str], count: usize) -> Result<PlainStore, Fail> {
    let beginning = copy(alloc, life.get(..count).ok_or("so many lines")?)?;
    let text = text_behind(alloc, life, count)?;
    let mut source = text.as_slice();
    match replay(alloc, beginning, &mut source) {
        Ok(store) => Ok(store),
        Err(_) => Err("the lines are not replayed".into()),
    }
}

/// Fails where a life whose text begins after its first lines, so many, leaves other tables than the whole of it.
fn ends_alike(alloc: Global, life: &[&'static str], count: usize) -> Result<(), Fail> {
    let desk = tables_behind(alloc, life, count)?.desk()?;
    let same = desk.last.get() == 19732
        && desk.parties == 6
        && desk.parcels == 1
        && desk.files == 1;
    if same {
        Ok(())
    } else {
        Err("other tables".into())
    }
}

#[test]
fn a_life_goes_on_behind_a_copy_of_any_of_its_days(rt: HostRuntime) -> Result<(), Fail> {
    let life = life(rt.alloc())?;
    for count in 2..life.len() {
        ends_alike(rt.alloc(), life.as_slice(), count)?;
    }
    Ok(())
}
