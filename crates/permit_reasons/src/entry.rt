//! What is written in a table of a policy's text.

ghost use Rattle.std.specs.Prelude.{◌≡◌, map, option_map, string_bytes};
ghost use Rattle.toml.specs.Data.{as_array, get, get_member};
ghost use Rattle.toml.specs.View.{table_view, view};
ghost use Rattle.permit_policy.specs.PolicyText.{items_list, name_of, text_of, text_at, texts_at};

use toml::{Table, Value};

/// The value at a key of the members.
pub(crate) fn member<'t>(table: &'t Table, key: &str) -> Option<&'t Value>
    ensures { option_map (λ v. view v.now) result ≡ get_member key.now (table_view table.now) }
{
    table.get(key)
}

/// The value at a key of a table.
pub(crate) fn value_at<'t>(table: &'t Value, key: &str) -> Option<&'t Value>
    ensures { option_map (λ v. view v.now) result ≡ get key.now (view table.now) }
{
    table.get(key)
}

/// A text, empty where the value is none.
pub(crate) fn text_of(value: &Value) -> &str
    ensures { result.now ≡ text_of (view value.now) }
{
    match value.as_str() {
        Some(text) => text,
        None => "",
    }
}

/// The text at a key of a table, empty where there is none.
pub(crate) fn text_at<'t>(table: &'t Value, key: &str) -> &'t str
    ensures { result.now ≡ text_at key.now (view table.now) }
{
    match value_at(table, key) {
        Some(value) => text_of(value),
        None => "",
    }
}

/// The items of an array.
pub(crate) fn items(value: &Value) -> Option<&[Value]>
    ensures { option_map (λ items. map view items.now) result ≡ option_map items_list (as_array (view value.now)) }
{
    match value.as_array() {
        Some(items) => Some(items),
        None => None,
    }
}

/// The list at a key of a table.
pub(crate) fn list_at<'t>(table: &'t Value, key: &str) -> Option<&'t [Value]>
    ensures { option_map (λ items. map text_of (map view items.now)) result ≡ texts_at key.now (view table.now) }
{
    match value_at(table, key) {
        Some(value) => items(value),
        None => None,
    }
}
