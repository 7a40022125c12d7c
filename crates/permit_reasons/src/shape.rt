//! What is wrong with a rule's keys, and with the types of their values.

ghost use Rattle.std.specs.Prelude.{◌≡◌, [], ◌∷◌, map, codes, IfOk, option_map, string_bytes};
ghost use Rattle.std.specs.List.{list_all};
ghost use Rattle.toml.specs.Data.{as_table};
ghost use Rattle.toml.specs.View.{table_view, view};
ghost use Rattle.permit_policy.specs.PolicyText.{has, is_among, is_list_of_texts, is_text, is_truth, may_have, rule_keys};
ghost use Rattle.permit_reasons.specs.Shapes.{condition_shape, item_shape, key_shape, lacks, list_keys, no_list, table_shape, unknown_key};

use crate::entry::{items, member};
use crate::key::ListKey;
use crate::shown::quoted;
use std::alloc::{AllocError, Global};
use toml::{Table, Value};

/// What a name is.
pub(crate) const NAME_TAKEN: &str = "1 to 32 of a-z, 0-9 and -";

/// The effects.
pub(crate) const EFFECTS_TAKEN: &str = "allow or deny";

fn is_rule_key(key: &str) -> bool
    ensures { result ≡ is_among rule_keys key.now }
{
    key == "name"
        || key == "effect"
        || key == "role"
        || key == "relation"
        || key == "both"
        || key == "action"
        || key == "stage"
        || key == "timing"
        || key == "stopped"
}

/// The first key that no rule has.
fn unknown_key(table: &Table) -> Option<&str>
    ensures { option_map (λ s. s.now) result ≡ unknown_key rule_keys (table_view table.now) }
{
    match table.keys().find(|key| !is_rule_key(key.as_str())) {
        Some(key) => Some(key.as_str()),
        None => None,
    }
}

/// The first key that isn't `rule`.
pub(crate) fn unknown_top_key(document: &Table) -> Option<&str>
    ensures { option_map (λ s. s.now) result ≡ unknown_key (codes "rule" ∷ []) (table_view document.now) }
{
    match document.keys().find(|key| key.as_str() != "rule") {
        Some(key) => Some(key.as_str()),
        None => None,
    }
}

fn lacks(table: &Table, key: &str) -> bool
    ensures { result ≡ lacks (table_view table.now) key.now }
{
    member(table, key).is_none()
}

fn has_text(table: &Table, key: &str) -> bool
    ensures { result ≡ has is_text (table_view table.now) key.now }
{
    match member(table, key) {
        Some(value) => value.is_str(),
        None => false,
    }
}

fn may_have_truth(table: &Table, key: &str) -> bool
    ensures { result ≡ may_have is_truth (table_view table.now) key.now }
{
    match member(table, key) {
        Some(value) => value.is_bool(),
        None => true,
    }
}

fn are_texts(values: &[Value]) -> bool
    ensures { result ≡ list_all is_text (map view values.now) }
{
    values.iter().all(|value| value.is_str())
}

fn is_list_of_texts(value: &Value) -> bool
    ensures { result ≡ is_list_of_texts (view value.now) }
{
    match items(value) {
        Some(values) => are_texts(values),
        None => false,
    }
}

fn may_have_list(table: &Table, key: &str) -> bool
    ensures { result ≡ may_have is_list_of_texts (table_view table.now) key.now }
{
    match member(table, key) {
        Some(value) => is_list_of_texts(value),
        None => true,
    }
}

/// The first key of a list whose value is another than a list of texts.
fn no_list(table: &Table) -> Option<ListKey>
    ensures { result ≡ no_list (table_view table.now) list_keys }
{
    ListKey::all()
        .iter()
        .copied()
        .find(|key| !may_have_list(table, key.word()))
}

/// What is wrong where each key is known, and `name` and `effect` are texts.
fn condition_shape(alloc: Global, table: &Table) -> Result<String, AllocError>
    ensures { IfOk result (λ s. string_bytes s ≡ condition_shape (table_view table.now) (no_list (table_view table.now) list_keys)) }
{
    match no_list(table) {
        Some(key) => {
            let (key, taken) = (key.word(), key.taken());
            format!(in alloc; "{key} is no list of texts: {taken}")
        }
        None => {
            let fault = if may_have_truth(table, "stopped") {
                "relation and both stand in one rule"
            } else {
                "stopped: true or false"
            };
            String::from_str(alloc, fault)
        }
    }
}

/// What is wrong where each key is known.
fn key_shape(alloc: Global, table: &Table) -> Result<String, AllocError>
    ensures { IfOk result (λ s. string_bytes s ≡ key_shape (table_view table.now)) }
{
    if lacks(table, "name") {
        return String::from_str(alloc, "name missing");
    }
    if !has_text(table, "name") {
        return format!(in alloc; "name is no text: {NAME_TAKEN}");
    }
    if lacks(table, "effect") {
        return format!(in alloc; "effect missing: {EFFECTS_TAKEN}");
    }
    if !has_text(table, "effect") {
        return format!(in alloc; "effect is no text: {EFFECTS_TAKEN}");
    }
    condition_shape(alloc, table)
}

/// What is wrong with an item of the array `rule`.
pub(crate) fn item_shape(alloc: Global, item: &Value) -> Result<String, AllocError>
    ensures { IfOk result (λ s. string_bytes s ≡ item_shape (as_table (view item.now))) }
{
    let Some(table) = item.as_table() else {
        return String::from_str(alloc, "no table: [[rule]] begins one");
    };
    match unknown_key(table) {
        Some(key) => {
            let key = quoted(alloc, key)?;
            format!(in alloc;
                "unknown key {key}: a rule has name, effect, role, relation, both, action, stage, timing and stopped"
            )
        }
        None => key_shape(alloc, table),
    }
}
