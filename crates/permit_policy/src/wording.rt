//! The facts of a region in words: those that `--facts` reads, with alternatives between slashes and a hyphen for what
//! doesn't matter.

use crate::patterns::{Pattern, patterns};
use crate::region::{Region, has_bit};
use permit_base::words::{Relation, Stage, Timing, Word};
use std::alloc::{AllocError, Global};

/// The word for what doesn't matter.
const ANY: &str = "-";

/// Adds a word after the others, and after what separates two.
fn push_word(text: &mut String, between: &str, mark: &str, word: &str) -> Result<(), AllocError> {
    if !text.is_empty() {
        text.push_str(between)?;
    }
    text.push_str(mark)?;
    text.push_str(word)
}

/// What a pattern asks, as `owner+not-conflict`.
fn pattern_words(alloc: Global, pattern: &Pattern) -> Result<String, AllocError> {
    let mut text = String::new(alloc);
    for relation in Relation::all() {
        if pattern.with.has(*relation) {
            push_word(&mut text, "+", "", relation.word())?;
        }
    }
    for relation in Relation::all() {
        if pattern.without.has(*relation) {
            push_word(&mut text, "+", "not-", relation.word())?;
        }
    }
    Ok(text)
}

/// The sets of relations of a mask, as `applicant/owner+not-conflict`.
pub(crate) fn relation_words(alloc: Global, mask: u64) -> Result<String, AllocError> {
    let mut text = String::new(alloc);
    for pattern in &patterns(alloc, mask)? {
        if pattern.is_any() {
            return String::from_str(alloc, ANY);
        }
        let words = pattern_words(alloc, pattern)?;
        push_word(&mut text, "/", "", words.as_str())?;
    }
    Ok(text)
}

/// The stages of a mask, as `filed/review`.
pub(crate) fn stage_words(alloc: Global, mask: u64) -> Result<String, AllocError> {
    let mut text = String::new(alloc);
    if Stage::all()
        .iter()
        .all(|stage| has_bit(mask, *stage as u32))
    {
        return String::from_str(alloc, ANY);
    }
    for stage in Stage::all() {
        if has_bit(mask, *stage as u32) {
            push_word(&mut text, "/", "", stage.word())?;
        }
    }
    Ok(text)
}

/// The timings of a mask, as `past/near`.
pub(crate) fn timing_words(alloc: Global, mask: u64) -> Result<String, AllocError> {
    let mut text = String::new(alloc);
    if Timing::all()
        .iter()
        .all(|timing| has_bit(mask, *timing as u32))
    {
        return String::from_str(alloc, ANY);
    }
    for timing in Timing::all() {
        if has_bit(mask, *timing as u32) {
            push_word(&mut text, "/", "", timing.word())?;
        }
    }
    Ok(text)
}

/// Whether there is a stop order: `yes`, `no`, or that it doesn't matter.
pub(crate) fn stopped_word(mask: u64) -> &'static str {
    if has_bit(mask, 0) && has_bit(mask, 1) {
        ANY
    } else if has_bit(mask, 1) {
        "yes"
    } else {
        "no"
    }
}
