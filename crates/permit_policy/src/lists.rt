//! A condition's list of words.

ghost use Rattle.std.specs.Prelude.{◌≡◌, true, false, not, map, IfOk, IfErr, option_map, if◌then◌else◌, Some, None};
ghost use Rattle.std.specs.List.{filter_map};
ghost use Rattle.toml.specs.View.{view};
ghost use Rattle.permit_base.specs.Words.{named};
ghost use Rattle.permit_policy.specs.PolicyText.{text_of, texts_at, is_among, are_words, is_bad_list, is_bad_pair, words_of, pair_in};
ghost use Rattle.permit_policy.specs.Reading.{IsListFault};

use crate::fault::PolicyFault;
use crate::table::{items, text_of, value_at};
use permit_base::words::Word;
use std::alloc::Global;
use toml::Value;

/// Whether a text is one of these.
fn is_among(values: &[Value], text: &str) -> bool
    ensures { result ≡ is_among (map text_of (map view values.now)) text.now }
{
    values.iter().any(|value| text == text_of(value))
}

/// The word that a text spells, unless the text comes again later.
fn read_word<W: Word>(text: &str, later: &[Value]) -> Option<W>
    ensures { result ≡ (if is_among (map text_of (map view later.now)) text.now then None
        else named W.spelling W.every text.now) }
{
    if is_among(later, text) {
        None
    } else {
        W::read(text)
    }
}

/// The words that the texts spell.
fn read_words<W: Word>(alloc: Global, values: &[Value]) -> Result<Vec<W>, PolicyFault>
    ensures sound { IfOk result (λ words.
        are_words (named W.spelling W.every) (map text_of (map view values.now)) ≡ true) }
    ensures words { IfOk result (λ words.
        words.items ≡ filter_map (named W.spelling W.every) (map text_of (map view values.now))) }
    ensures err { IfErr result (IsListFault
        (not (are_words (named W.spelling W.every) (map text_of (map view values.now))))) }
{
    let mut words = Vec::new(alloc);
    for (i, value) in values.iter().enumerate() {
        match read_word::<W>(text_of(value), &values[i + 1..]) {
            Some(word) => words.push(word)?,
            None => return Err(PolicyFault::List),
        }
    }
    Ok(words)
}

/// The words of two texts. `None` where there aren't two texts, where one spells no word, or where both spell the same.
fn two_words<W: Word>(values: &[Value]) -> Option<(W, W)>
    ensures { result ≡ (if is_bad_pair (named W.spelling W.every) (Some (map text_of (map view values.now))) then None
        else pair_in (words_of (named W.spelling W.every) (Some (map text_of (map view values.now))))) }
{
    match values {
        [first, second] => {
            let first = read_word::<W>(text_of(first), &values[1..])?;
            let second = W::read(text_of(second))?;
            Some((first, second))
        }
        _ => None,
    }
}

fn list_at<'t>(table: &'t Value, key: &str) -> Option<&'t [Value]>
    ensures { option_map (λ items. map text_of (map view items.now)) result ≡ texts_at key.now (view table.now) }
{
    match value_at(table, key) {
        Some(value) => items(value),
        None => None,
    }
}

/// The words of the list at a key of a table, or `None` without the key. A list that is empty, that has an unknown word, or
/// that has a word twice is refused.
pub(crate) fn read_list<W: Word>(
    alloc: Global,
    table: &Value,
    key: &str,
) -> Result<Option<Vec<W>>, PolicyFault>
    ensures sound { IfOk result (λ words.
        is_bad_list (named W.spelling W.every) (texts_at key.now (view table.now)) ≡ false) }
    ensures words { IfOk result (λ words.
        option_map (λ v. v.items) words ≡ words_of (named W.spelling W.every) (texts_at key.now (view table.now))) }
    ensures err { IfErr result (IsListFault
        (is_bad_list (named W.spelling W.every) (texts_at key.now (view table.now)))) }
{
    match list_at(table, key) {
        Some(values) => {
            if values.is_empty() {
                return Err(PolicyFault::List);
            }
            Ok(Some(read_words::<W>(alloc, values)?))
        }
        None => Ok(None),
    }
}

/// The two words of the list at a key of a table, or `None` without the key. A list of more or fewer words, with an unknown
/// word, or with the same word twice is refused.
pub(crate) fn read_pair<W: Word>(table: &Value, key: &str) -> Result<Option<(W, W)>, PolicyFault>
    ensures sound { IfOk result (λ pair.
        is_bad_pair (named W.spelling W.every) (texts_at key.now (view table.now)) ≡ false) }
    ensures pair { IfOk result (λ pair.
        pair ≡ pair_in (words_of (named W.spelling W.every) (texts_at key.now (view table.now)))) }
    ensures err { IfErr result (IsListFault
        (is_bad_pair (named W.spelling W.every) (texts_at key.now (view table.now)))) }
{
    match list_at(table, key) {
        Some(values) => match two_words::<W>(values) {
            Some(pair) => Ok(Some(pair)),
            None => Err(PolicyFault::List),
        },
        None => Ok(None),
    }
}
