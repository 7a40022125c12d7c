//! One table of the array `rule`: its keys, and the type of each value.

ghost use Rattle.std.specs.Prelude.{◌≡◌, map, not, option_map, codes};
ghost use Rattle.std.specs.List.{list_all};
ghost use Rattle.toml.specs.Data.{get, get_member, as_array};
ghost use Rattle.toml.specs.View.{view, table_view};
ghost use Rattle.permit_policy.specs.PolicyText.{is_among, items_list, keys_among, rule_keys, text_keys, list_keys, text_at, truth_at, is_text, is_truth, is_list_of_texts, has, may_have, has_both_tests, is_shaped, is_misshapen};

use toml::{Table, Value};

/// The value at a key of the members.
pub(crate) fn member<'t>(table: &'t Table, key: &str) -> Option<&'t Value>
    ensures { option_map (λ v. view v.now) result ≡ get_member key.now (table_view table.now) }
{
    table.get(key)
}

/// The value at a key of a table.
pub(crate) fn value_at<'t>(table: &'t Value, key: &str) -> Option<&'t Value>
    ensures { option_map (λ v. view v.now) result ≡ get key.now (view table.now) }
{
    table.get(key)
}

/// The text at a key of a table, empty where there is none.
pub(crate) fn text_at<'t>(table: &'t Value, key: &str) -> &'t str
    ensures { result.now ≡ text_at key.now (view table.now) }
{
    match value_at(table, key) {
        Some(value) => text_of(value),
        None => "",
    }
}

/// A text, empty where the value is none.
pub(crate) fn text_of(value: &Value) -> &str
    ensures { result.now ≡ Rattle.permit_policy.specs.PolicyText.text_of (view value.now) }
{
    match value.as_str() {
        Some(text) => text,
        None => "",
    }
}

/// The truth value at a key of a table.
pub(crate) fn truth_at(table: &Value, key: &str) -> Option<bool>
    ensures { result ≡ truth_at key.now (view table.now) }
{
    match value_at(table, key) {
        Some(value) => value.as_bool(),
        None => None,
    }
}

fn is_text_key(key: &str) -> bool
    ensures { result ≡ is_among text_keys key.now }
{
    key == "name" || key == "effect"
}

fn is_list_key(key: &str) -> bool
    ensures { result ≡ is_among list_keys key.now }
{
    key == "role"
        || key == "relation"
        || key == "both"
        || key == "action"
        || key == "stage"
        || key == "timing"
}

fn is_rule_key(key: &str) -> bool
    ensures { result ≡ is_among rule_keys key.now }
{
    is_text_key(key) || is_list_key(key) || key == "stopped"
}

fn are_texts(values: &[Value]) -> bool
    ensures { result ≡ list_all is_text (map view values.now) }
{
    values.iter().all(|value| value.is_str())
}

fn knows_keys(table: &Table) -> bool
    ensures { result ≡ keys_among rule_keys (table_view table.now) }
{
    table.keys().all(|key| is_rule_key(key.as_str()))
}

fn has_text(table: &Table, key: &str) -> bool
    ensures { result ≡ has is_text (table_view table.now) key.now }
{
    match member(table, key) {
        Some(value) => value.is_str(),
        None => false,
    }
}

/// The items of an array.
pub(crate) fn items(value: &Value) -> Option<&[Value]>
    ensures { option_map (λ items. map view items.now) result ≡ option_map items_list (as_array (view value.now)) }
{
    match value.as_array() {
        Some(items) => Some(items),
        None => None,
    }
}

fn is_list_of_texts(value: &Value) -> bool
    ensures { result ≡ is_list_of_texts (view value.now) }
{
    match items(value) {
        Some(values) => are_texts(values),
        None => false,
    }
}

fn may_have_list(table: &Table, key: &str) -> bool
    ensures { result ≡ may_have is_list_of_texts (table_view table.now) key.now }
{
    match member(table, key) {
        Some(value) => is_list_of_texts(value),
        None => true,
    }
}

fn may_have_truth(table: &Table, key: &str) -> bool
    ensures { result ≡ may_have is_truth (table_view table.now) key.now }
{
    match member(table, key) {
        Some(value) => value.is_bool(),
        None => true,
    }
}

fn has_texts(table: &Table) -> bool
    ensures { result ≡ list_all (has is_text (table_view table.now)) text_keys }
{
    has_text(table, "name") && has_text(table, "effect")
}

fn may_have_lists(table: &Table) -> bool
    ensures { result ≡ list_all (may_have is_list_of_texts (table_view table.now)) list_keys }
{
    may_have_list(table, "role")
        && may_have_list(table, "relation")
        && may_have_list(table, "both")
        && may_have_list(table, "action")
        && may_have_list(table, "stage")
        && may_have_list(table, "timing")
}

fn has_both_tests(table: &Table) -> bool
    ensures { result ≡ has_both_tests (table_view table.now) }
{
    member(table, "relation").is_some() && member(table, "both").is_some()
}

fn is_shaped(table: &Table) -> bool
    ensures { result ≡ is_shaped (table_view table.now) }
{
    knows_keys(table)
        && has_texts(table)
        && may_have_lists(table)
        && may_have_truth(table, "stopped")
        && !has_both_tests(table)
}

/// Whether an item of the array `rule` is no table, or one with an unknown key, without `name` or `effect`, with both
/// `relation` and `both`, or with a value of another type than is stated.
pub(crate) fn is_misshapen(item: &Value) -> bool
    ensures { result ≡ is_misshapen (view item.now) }
{
    match item.as_table() {
        Some(table) => !is_shaped(table),
        None => true,
    }
}
