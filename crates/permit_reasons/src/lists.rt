//! What is wrong with a condition's list of words.

ghost use Rattle.std.specs.Prelude.{◌≡◌, map, not, IfOk, Some, option_map, string_bytes};
ghost use Rattle.std.specs.List.{find};
ghost use Rattle.toml.specs.View.{view};
ghost use Rattle.permit_policy.specs.PolicyText.{is_among, text_of};
ghost use Rattle.permit_reasons.specs.Lists.{first_list_fault, is_taken, list_fault, repeated};
ghost use Rattle.permit_reasons.specs.Shapes.{list_keys};

use crate::entry::{list_at, text_of};
use crate::key::ListKey;
use crate::shown::quoted;
use std::alloc::{AllocError, Global};
use toml::Value;

/// The first text that is no word of the key.
fn unknown(key: ListKey, values: &[Value]) -> Option<&str>
    ensures { option_map (λ s. s.now) result ≡ find (λ t. not (is_taken key t)) (map text_of (map view values.now)) }
{
    for value in values {
        if !key.takes(text_of(value)) {
            return Some(text_of(value));
        }
    }
    None
}

/// Whether a text is one of these.
fn is_among(values: &[Value], text: &str) -> bool
    ensures { result ≡ is_among (map text_of (map view values.now)) text.now }
{
    values.iter().any(|value| text == text_of(value))
}

/// The first text that comes again.
fn repeated(values: &[Value]) -> Option<&str>
    ensures { option_map (λ s. s.now) result ≡ repeated (map text_of (map view values.now)) }
{
    for (i, value) in values.iter().enumerate() {
        if is_among(&values[i + 1..], text_of(value)) {
            return Some(text_of(value));
        }
    }
    None
}

/// What is wrong with a list, if anything is.
fn list_fault(alloc: Global, key: ListKey, values: &[Value]) -> Result<Option<String>, AllocError>
    ensures { IfOk result (λ fault.
        option_map (λ s. string_bytes s) fault ≡ list_fault key (Some (map text_of (map view values.now)))) }
{
    let word = key.word();
    let taken = key.taken();
    if !key.takes_length(values.len()) {
        let count = values.len();
        let length = key.length_taken();
        return Ok(Some(format!(in alloc; "{word} has {count} words: {length}{taken}")?));
    }
    if let Some(text) = unknown(key, values) {
        let text = quoted(alloc, text)?;
        return Ok(Some(format!(in alloc; "{word} {text}: {taken}")?));
    }
    if let Some(text) = repeated(values) {
        let text = quoted(alloc, text)?;
        return Ok(Some(format!(in alloc; "{word} {text}: each word once")?));
    }
    Ok(None)
}

/// What is wrong with the first list of a rule in which anything is.
pub(crate) fn first_list_fault(alloc: Global, table: &Value) -> Result<Option<String>, AllocError>
    ensures { IfOk result (λ fault. option_map (λ s. string_bytes s) fault ≡ first_list_fault (view table.now) list_keys) }
{
    for key in ListKey::all() {
        if let Some(values) = list_at(table, key.word()) {
            if let Some(fault) = list_fault(alloc, *key, values)? {
                return Ok(Some(fault));
            }
        }
    }
    Ok(None)
}
