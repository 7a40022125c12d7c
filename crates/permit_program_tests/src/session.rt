//! Sessions: what a person types, and what the program prints.
//!
//! A line `$ WORDS` runs the program on words; one with spaces is in single quotes, and so does an empty one. The word
//! `@N` means the files of the office, the token of party N and the day of the filings. After the line follows what
//! is wanted: `| TEXT` for each line of the output, `! TEXT` for each line of the errors, and `= STATUS` where that isn't
//! 0. Lines `> TEXT` go to the file that the line `+ PATH` after them names.

use crate::run::run_owned;
use permit_samples::ask::TOKENS;
use permit_samples::script::agree;
use std::alloc::Global;
use std::fs;
use std::sync::Wait;
use std::test::Fail;
use std::thread::Threads;

/// The words that `@N` means, of the office in a folder.
fn office_words(alloc: Global, folder: &str, party: &str) -> Result<String, Fail> {
    let token = TOKENS
        .get(party.parse::<usize>()?.wrapping_sub(1))
        .ok_or("a party")?;
    Ok(format!(in alloc;
        "--db {folder}/office.db --policy {folder}/policy.toml --token {token} --day 2024-01-01"
    )?)
}

/// Adds the words that are parted by spaces.
fn push_words(alloc: Global, words: &mut Vec<String>, text: &str) -> Result<(), Fail> {
    for word in text.split(' ') {
        if !word.is_empty() {
            words.push(String::from_str(alloc, word)?)?;
        }
    }
    Ok(())
}

/// The words of a line.
fn words_of(alloc: Global, folder: &str, line: &str) -> Result<Vec<String>, Fail> {
    let mut words = Vec::new(alloc);
    let mut is_quoted = false;
    for part in line.split('\'') {
        if is_quoted {
            words.push(String::from_str(alloc, part)?)?;
        } else if let Some((before, party)) = part.split_once('@') {
            push_words(alloc, &mut words, before)?;
            push_words(
                alloc,
                &mut words,
                office_words(alloc, folder, party)?.as_str(),
            )?;
        } else {
            push_words(alloc, &mut words, part)?;
        }
        is_quoted = !is_quoted;
    }
    Ok(words)
}

/// Adds each line of a text after a sign. Fails where the last has no line end.
fn push_lines(seen: &mut String, sign: &str, text: &str) -> Result<(), Fail> {
    if !text.is_empty() && !text.ends_with('\n') {
        return Err(Fail::new("a text without a line end"));
    }
    for line in text.lines() {
        seen.push_str(sign)?;
        if !line.is_empty() {
            seen.push_str(" ")?;
        }
        seen.push_str(line)?;
        seen.push_str("\n")?;
    }
    Ok(())
}

/// Runs the program on words, and adds what it printed and its status.
fn push_run<R: Threads + Wait + Copy + Drop + Send + 'static>(
    rt: &HostRuntime,
    workers: R,
    words: &[String],
    seen: &mut String,
) -> Result<(), Fail> {
    let (status, out, err) = run_owned(rt, workers, words)?;
    push_lines(seen, "|", out.as_str())?;
    push_lines(seen, "!", err.as_str())?;
    if status != 0 {
        seen.push_str(format!(in rt.alloc(); "= {status}\n")?.as_str())?;
    }
    Ok(())
}

/// Plays a session with the office in a folder. Fails where the program prints something else.
pub fn play<R: Threads + Wait + Copy + Drop + Send + 'static>(
    rt: &HostRuntime,
    workers: R,
    folder: &str,
    session: &str,
) -> Result<(), Fail> {
    let alloc = rt.alloc();
    let (mut seen, mut file) = (String::new(alloc), String::new(alloc));
    for line in session.lines() {
        if line.starts_with('|') || line.starts_with('!') || line.starts_with('=') {
            continue;
        }
        seen.push_str(line)?;
        seen.push_str("\n")?;
        if let Some(words) = line.strip_prefix('$') {
            let words = words_of(alloc, folder, words)?;
            push_run(rt, workers, words.as_slice(), &mut seen)?;
        } else if let Some(path) = line.strip_prefix("+ ") {
            fs::write(rt, path, file.as_str())?;
            file.clear();
        } else if line.starts_with('>') {
            file.push_str(line.strip_prefix("> ").unwrap_or(""))?;
            file.push_str("\n")?;
        }
    }
    agree(alloc, session, seen.as_str())
}
