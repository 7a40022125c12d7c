//! The text of a policy read to its rules.

ghost use Rattle.std.specs.Prelude.{◌≡◌, [], ◌∷◌, false, map, codes, IfOk, IfErr, option_map, if◌then◌else◌, Some, None};
ghost use Rattle.toml.specs.View.{view, table_view};
ghost use Rattle.permit_policy.specs.declared.fault.PolicyFault.TheVariants as fault;
ghost use Rattle.permit_policy.specs.PolicyText.{is_among, keys_among, tables_in, is_misshapen, first_place, is_new_name, bad_name_place, name_of, has_bad_effect, effect_of, has_bad_list, relation_test, rule_of, meaning_of_tables, meaning, Means};
ghost use Rattle.permit_policy.specs.Relating.{relation_view};
ghost use Rattle.permit_policy.specs.Reading.{AreParts, IsRefusal, IsListFault};

use crate::decide::Policy;
use crate::fault::{PolicyError, PolicyFault};
use crate::lists::{read_list, read_pair};
use crate::rule::{RelationTest, Rule};
use crate::table::{is_misshapen, items, member, text_at, truth_at};
use permit_base::values::RuleName;
use permit_base::words::{Effect, Relation, Word};
use std::alloc::{AllocError, Global};
use toml::{Table, Value};

fn has_rule_alone(document: &Table) -> bool
    ensures { result ≡ keys_among (codes "rule" ∷ []) (table_view document.now) }
{
    document.keys().all(|key| key.as_str() == "rule")
}

/// The items of the array `rule`; without that key there are no items. `None` where there is another key, or where `rule` is
/// no array.
fn tables_in(document: &Table) -> Option<&[Value]>
    ensures { option_map (λ tables. map view tables.now) result ≡ tables_in (table_view document.now) }
{
    if !has_rule_alone(document) {
        return None;
    }
    match member(document, "rule") {
        Some(value) => items(value),
        None => Some(&[]),
    }
}

/// The place, from 1, of the first item that isn't a table of the stated shape.
fn first_misshapen(tables: &[Value]) -> Option<usize>
    ensures { result ≡ first_place is_misshapen (map view tables.now) }
{
    for (i, table) in tables.iter().enumerate() {
        if is_misshapen(table) {
            return Some(i + 1);
        }
    }
    None
}

fn is_used(used: &[RuleName], text: &str) -> bool
    ensures { result ≡ is_among used.now text.now }
{
    used.iter().any(|name| text == name.as_str())
}

/// The name that a text gives a rule, unless it is out of limits, `default`, or used before.
fn new_name(text: &str, used: &[RuleName]) -> Option<RuleName>
    ensures { result ≡ (if is_new_name used.now text.now then Some text.now else None) }
{
    if text == "default" || is_used(used, text) {
        return None;
    }
    RuleName::new(text)
}

/// The names of the rules, in order.
fn read_names(alloc: Global, tables: &[Value]) -> Result<Vec<RuleName>, PolicyError>
    ensures ok { IfOk result (λ names.
        AreParts (bad_name_place (map view tables.now)) (map name_of (map view tables.now)) names.items) }
    ensures err { IfErr result (IsRefusal fault.Name (bad_name_place (map view tables.now))) }
{
    let mut names = Vec::new(alloc);
    for (i, table) in tables.iter().enumerate() {
        match new_name(text_at(table, "name"), &names) {
            Some(name) => names.push(name)?,
            None => return Err(PolicyFault::Name.at(i + 1)),
        }
    }
    Ok(names)
}

fn read_effect(table: &Value) -> Option<Effect>
    ensures { result ≡ (if has_bad_effect (view table.now) then None else Some (effect_of (view table.now))) }
{
    Effect::read(text_at(table, "effect"))
}

/// The effects of the rules, in order.
fn read_effects(alloc: Global, tables: &[Value]) -> Result<Vec<Effect>, PolicyError>
    ensures ok { IfOk result (λ effects.
        AreParts (first_place has_bad_effect (map view tables.now)) (map effect_of (map view tables.now)) effects.items) }
    ensures err { IfErr result (IsRefusal fault.Effect (first_place has_bad_effect (map view tables.now))) }
{
    let mut effects = Vec::new(alloc);
    for (i, table) in tables.iter().enumerate() {
        match read_effect(table) {
            Some(effect) => effects.push(effect)?,
            None => return Err(PolicyFault::Effect.at(i + 1)),
        }
    }
    Ok(effects)
}

/// What the words of `relation` and those of `both` ask of the caller's relations.
fn relation_test(words: Option<Vec<Relation>>, pair: Option<(Relation, Relation)>) -> RelationTest
    ensures { relation_view result ≡ relation_test (option_map (λ v. v.items) words) pair }
{
    match (words, pair) {
        (_, Some((first, second))) => RelationTest::Both(first, second),
        (Some(words), None) => RelationTest::OneOf(words),
        (None, None) => RelationTest::Any,
    }
}

/// The rule of a table, whose name and effect were read before.
fn read_rule(
    alloc: Global,
    table: &Value,
    name: RuleName,
    effect: Effect,
) -> Result<Rule, PolicyFault>
    ensures sound { IfOk result (λ rule. has_bad_list (view table.now) ≡ false) }
    ensures rule { IfOk result (λ rule.
        name ≡ name_of (view table.now) → effect ≡ effect_of (view table.now) → rule ≡ rule_of (view table.now)) }
    ensures err { IfErr result (IsListFault (has_bad_list (view table.now))) }
{
    Ok(Rule {
        name,
        effect,
        role: read_list(alloc, table, "role")?,
        relation: relation_test(
            read_list(alloc, table, "relation")?,
            read_pair(table, "both")?,
        ),
        action: read_list(alloc, table, "action")?,
        stage: read_list(alloc, table, "stage")?,
        timing: read_list(alloc, table, "timing")?,
        stopped: truth_at(table, "stopped"),
    })
}

/// The rules of the tables, in order. Their names and effects were read before.
fn read_rules(
    alloc: Global,
    tables: &[Value],
    names: &[RuleName],
    effects: &[Effect],
) -> Result<Vec<Rule>, PolicyError>
    requires named { names.now ≡ map name_of (map view tables.now) }
    requires decided { effects.now ≡ map effect_of (map view tables.now) }
    ensures ok { IfOk result (λ rules.
        AreParts (first_place has_bad_list (map view tables.now)) (map rule_of (map view tables.now)) rules.items) }
    ensures err { IfErr result (IsRefusal fault.List (first_place has_bad_list (map view tables.now))) }
{
    let mut rules = Vec::new(alloc);
    for (i, table) in tables.iter().enumerate() {
        match read_rule(alloc, table, names[i], effects[i]) {
            Ok(rule) => rules.push(rule)?,
            Err(code) => return Err(code.at(i + 1)),
        }
    }
    Ok(rules)
}

fn read_tables(alloc: Global, tables: &[Value]) -> Result<Policy, PolicyError>
    ensures { Means result (meaning_of_tables (map view tables.now)) }
{
    if let Some(place) = first_misshapen(tables) {
        return Err(PolicyFault::Shape.at(place));
    }
    if tables.len() > 64 {
        return Err(PolicyFault::TooMany.at(0));
    }
    let names = read_names(alloc, tables)?;
    let effects = read_effects(alloc, tables)?;
    let rules = read_rules(alloc, tables, &names, &effects)?;
    match Policy::new(alloc, rules) {
        Ok(policy) => Ok(policy),
        Err(AllocError) => Err(PolicyFault::Memory.at(0)),
    }
}

/// Reads a policy's text, in TOML 1.1: an array of tables `rule`, each with `name` and `effect` and, where wanted, the
/// lists of words `role`, `relation`, `action`, `stage` and `timing`, the list `both` of two relations in place of
/// `relation`, and the truth value `stopped`.
///
/// A text with a fault is refused with the fault of the lowest number that applies, and the place of the first table
/// that has it. Want of memory may come in place of any other answer.
///
/// # Examples
///
/// ```
/// let text = "[[rule]]\nname = \"clerks\"\neffect = \"allow\"\nrole = [\"clerk\"]\n";
/// let policy = read_policy(alloc, text)?;
/// assert!(rt; policy.rules() == 1);
/// ```
pub fn read_policy(alloc: Global, text: &str) -> Result<Policy, PolicyError>
    ensures { Means result (meaning text.now) }
{
    if text.len() > 65536 {
        return Err(PolicyFault::TooLong.at(0));
    }
    match toml::table_from_str(alloc, text) {
        Ok(document) => match tables_in(&document) {
            Some(tables) => read_tables(alloc, tables),
            None => Err(PolicyFault::Shape.at(0)),
        },
        Err(error) => {
            if error.is_memory() {
                Err(PolicyFault::Memory.at(0))
            } else {
                Err(PolicyFault::Unreadable.at(0))
            }
        }
    }
}
