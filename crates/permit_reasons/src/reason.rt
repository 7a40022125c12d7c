//! The line for each fault of a policy's text.

ghost use Rattle.std.specs.Prelude.{◌≡◌, ◌-◌, map, IfOk, Some, option_map, slice_get, string_bytes};
ghost use Rattle.toml.specs.View.{table_view, view};
ghost use Rattle.permit_policy.specs.PolicyText.{tables_in};
ghost use Rattle.permit_reasons.specs.Reasons.{document_reason, effect_fault, missing_rule, name_fault, place_named, rule_fault, rule_reason, tables_reason, top_reason, IsReason};

use crate::entry::{items, member, text_at};
use crate::lists::first_list_fault;
use crate::shape::{EFFECTS_TAKEN, NAME_TAKEN, item_shape, unknown_top_key};
use crate::shown::{quoted, rule_head};
use permit_base::values::RuleName;
use permit_policy::{PolicyError, PolicyFault};
use std::alloc::{AllocError, Global};
use toml::{Table, Value};

/// The place, from 1, of the first rule of a name.
fn place_named(name: &str, tables: &[Value]) -> usize
    ensures { result ≡ place_named name.now (map view tables.now) }
{
    for (i, table) in tables.iter().enumerate() {
        if name == text_at(table, "name") {
            return i + 1;
        }
    }
    0
}

/// What is wrong with a name.
fn name_fault(alloc: Global, name: &str, tables: &[Value]) -> Result<String, AllocError>
    ensures { IfOk result (λ s. string_bytes s ≡ name_fault name.now (map view tables.now)) }
{
    if name == "default" {
        return String::from_str(alloc, "name is that of a denial where no rule matches");
    }
    if RuleName::new(name).is_none() {
        return format!(in alloc; "name: {NAME_TAKEN}");
    }
    let place = place_named(name, tables);
    format!(in alloc; "name was used by rule {place}")
}

/// What is wrong with an effect.
fn effect_fault(alloc: Global, effect: &str) -> Result<String, AllocError>
    ensures { IfOk result (λ s. string_bytes s ≡ effect_fault effect.now) }
{
    let effect = quoted(alloc, effect)?;
    format!(in alloc; "effect {effect}: {EFFECTS_TAKEN}")
}

/// What the fault is in a rule.
fn rule_fault(
    alloc: Global,
    code: PolicyFault,
    tables: &[Value],
    table: &Value,
) -> Result<String, AllocError>
    ensures { IfOk result (λ s. string_bytes s ≡ rule_fault code (map view tables.now) (view table.now)) }
{
    match code {
        PolicyFault::Shape => item_shape(alloc, table),
        PolicyFault::Name => name_fault(alloc, text_at(table, "name"), tables),
        PolicyFault::Effect => effect_fault(alloc, text_at(table, "effect")),
        PolicyFault::List => match first_list_fault(alloc, table)? {
            Some(fault) => Ok(fault),
            None => String::from_str(alloc, "each list is sound"),
        },
        PolicyFault::TooLong
        | PolicyFault::Unreadable
        | PolicyFault::TooMany
        | PolicyFault::Memory => String::from_str(alloc, "the fault is in no rule"),
    }
}

/// The error's place, with the rule there, and what the fault is in it.
fn rule_line(
    alloc: Global,
    error: &PolicyError,
    tables: &[Value],
    table: &Value,
) -> Result<String, AllocError>
    ensures { IfOk result (λ s. string_bytes s ≡ rule_reason error.now (map view tables.now) (Some (view table.now))) }
{
    let rule = rule_head(alloc, error.rule, table)?;
    let fault = rule_fault(alloc, error.code, tables, table)?;
    format!(in alloc; "{rule}: {fault}")
}

/// A place at which no rule is.
fn missing_line(alloc: Global, place: usize) -> Result<String, AllocError>
    ensures { IfOk result (λ s. string_bytes s ≡ missing_rule place) }
{
    format!(in alloc; "rule {place} isn't there")
}

/// The item at an index.
fn item_at(values: &[Value], index: usize) -> Option<&Value>
    ensures { option_map (λ v. view v.now) result ≡ slice_get (map view values.now) index }
{
    values.get(index)
}

/// The rule at the error's place, and what the fault is in it.
fn rule_reason(alloc: Global, error: &PolicyError, tables: &[Value]) -> Result<String, AllocError>
    ensures { IfOk result (λ s. string_bytes s ≡ rule_reason error.now (map view tables.now) (slice_get (map view tables.now) (error.now.rule - 1))) }
{
    match item_at(tables, error.rule.saturating_sub(1)) {
        Some(table) => rule_line(alloc, error, tables, table),
        None => missing_line(alloc, error.rule),
    }
}

/// The line for a fault in these rules.
fn tables_reason(alloc: Global, error: &PolicyError, tables: &[Value]) -> Result<String, AllocError>
    ensures { IfOk result (λ s. string_bytes s ≡ tables_reason error.now.code error.now (map view tables.now)) }
{
    match error.code {
        PolicyFault::TooMany => {
            let count = tables.len();
            format!(in alloc; "the text has {count} rules: at most 64")
        }
        _ => rule_reason(alloc, error, tables),
    }
}

/// What is wrong with a text that has another key than `rule`, or in which that is no array.
fn top_reason(alloc: Global, key: Option<&str>) -> Result<String, AllocError>
    ensures { IfOk result (λ s. string_bytes s ≡ top_reason (option_map (λ s. s.now) key.entry)) }
{
    match key {
        Some(key) => {
            let key = quoted(alloc, key)?;
            format!(in alloc; "unknown key {key}: the text has rule alone")
        }
        None => String::from_str(alloc, "rule is no list of tables: [[rule]] begins each"),
    }
}

/// The line for a fault in what TOML reads.
fn document_reason(
    alloc: Global,
    error: &PolicyError,
    document: &Table,
) -> Result<String, AllocError>
    ensures { IfOk result (λ s. string_bytes s ≡ document_reason error.now (table_view document.now) (tables_in (table_view document.now))) }
{
    match unknown_top_key(document) {
        Some(key) => top_reason(alloc, Some(key)),
        None => match member(document, "rule") {
            None => tables_reason(alloc, error, &[]),
            Some(value) => match items(value) {
                Some(tables) => tables_reason(alloc, error, tables),
                None => top_reason(alloc, None),
            },
        },
    }
}

/// TOML's own message in one line.
fn parse_reason(alloc: Global, error: &toml::de::Error) -> Result<String, AllocError> {
    let message = format!(in alloc; "{error}")?;
    let mut line = String::new(alloc);
    for letter in message.trim_end().chars() {
        if letter == '\n' {
            line.push_str(": ")?;
        } else if letter.is_control() {
            line.push('?')?;
        } else {
            line.push(letter)?;
        }
    }
    Ok(line)
}

/// Why a policy's text is refused, in words: one line without its end. The error is that of `read_policy` for the text.
///
/// The line says where the error's place is, and what is wrong there: the rule and its name, the key, the word as it was
/// typed, at most 60 characters of it and with `?` for a control character, and what would be taken. For a text that is not
/// TOML it is the message of `toml`, with the line and the column. Want of memory is the only error.
///
/// # Examples
///
/// ```
/// let text = "[[rule]]\nname = \"plans\"\neffect = \"alow\"\n";
/// let Err(error) = read_policy(alloc, text) else {
///     return Err(Fail::new("a policy"));
/// };
/// let line = policy_reason(alloc, text, &error)?;
/// assert!(rt; line.as_str() == "rule 1 `plans`: effect `alow`: allow or deny");
/// ```
pub fn policy_reason(alloc: Global, text: &str, error: &PolicyError) -> Result<String, AllocError>
    ensures { IfOk result (λ s. IsReason error.now text.now (string_bytes s)) }
{
    match error.code {
        PolicyFault::TooLong => {
            let count = text.len();
            format!(in alloc; "the text has {count} bytes: at most 65536")
        }
        PolicyFault::Memory => String::from_str(alloc, "out of memory"),
        _ => match toml::table_from_str(alloc, text) {
            Ok(document) => document_reason(alloc, error, &document),
            Err(error) => {
                if error.is_memory() {
                    Err(AllocError)
                } else {
                    parse_reason(alloc, &error)
                }
            }
        },
    }
}
