//! Texts that were typed, as they are shown.

ghost use Rattle.std.specs.Prelude.{◌≡◌, ◌++◌, IfOk, OnOk, string_bytes, option_and_then, codes};
ghost use Rattle.toml.specs.Data.{as_str, get};
ghost use Rattle.toml.specs.View.{view};
ghost use Rattle.permit_reasons.specs.Shown.{name_part, quoted, rule_head, shown, shown_letter};

use crate::entry::value_at;
use std::alloc::{AllocError, Global};
use toml::Value;

/// The most characters of a text that are shown.
const MOST_SHOWN: usize = 60;

fn shown_letter(letter: char) -> char
    ensures { result ≡ shown_letter letter }
{
    if letter.is_control() { '?' } else { letter }
}

/// The first characters of a text, with `?` for a control character.
fn shown(alloc: Global, text: &str) -> Result<String, AllocError>
    ensures { IfOk result (λ s. string_bytes s ≡ shown text.now) }
{
    let mut shown = String::new(alloc);
    for letter in text.chars().take(MOST_SHOWN) {
        shown.push(shown_letter(letter))?;
    }
    Ok(shown)
}

/// A text in backquotes, as it is shown.
pub(crate) fn quoted(alloc: Global, text: &str) -> Result<String, AllocError>
    ensures { IfOk result (λ s. string_bytes s ≡ quoted text.now) }
{
    let text = shown(alloc, text)?;
    format!(in alloc; "`{text}`")
}

/// A rule by its place, from 1, and its name, where that is a text.
pub(crate) fn rule_head(alloc: Global, place: usize, table: &Value) -> Result<String, AllocError>
    ensures { IfOk result (λ s. string_bytes s ≡ rule_head place (view table.now)) }
{
    match value_at(table, "name").and_then(Value::as_str) {
        Some(name) => {
            let name = quoted(alloc, name)?;
            format!(in alloc; "rule {place} {name}")
        }
        None => format!(in alloc; "rule {place}"),
    }
}
