//! What a JSON body contains, key by key.

ghost use Rattle.std.specs.Prelude.{◌≡◌, ◌≤◌, IfOk, IfSome, option_map, string_bytes, nat_le};
ghost use Rattle.serde_json.specs.View.{view};
ghost use Rattle.serde_json.specs.Read.{read};
ghost use Rattle.permit_base.specs.Limits.{is_between, is_object_number, is_days, is_paper_number, is_cents};
ghost use Rattle.permit_base.specs.Texts.{is_printable, is_lot, is_token};
ghost use Rattle.permit_routes.specs.Bodies.{text_in, said, has_members, object_of, number_at, string_at, text_at, word_at};
ghost use Rattle.permit_routes.specs.Outcome.{ReadsAs, same};

use crate::fault::RequestFault;
use permit_base::limits::{MOST_CENTS, MOST_DAYS, MOST_PAPERS, MOST_RECORDS};
use permit_base::values::{Cents, Days, Lot, PaperNumber, ParcelId, PartyId, Text, Token};
use permit_base::words::Word;
use serde_json::Value;
use std::alloc::Global;

/// The text of a body; an empty one counts as `{}`.
fn body_text(body: &[u8]) -> Option<&str>
    ensures { option_map (λ s. s.now) result ≡ text_in body.now }
{
    if body.is_empty() {
        return Some("{}");
    }
    match str::from_utf8(body) {
        Ok(text) => Some(text),
        Err(_) => None,
    }
}

/// What a text says as JSON.
fn value_of(alloc: Global, text: &str) -> Result<Value, RequestFault>
    ensures { ReadsAs view result (read text.now) }
{
    match Value::from_str(alloc, text) {
        Ok(value) => Ok(value),
        Err(error) => {
            if error.is_memory() {
                Err(RequestFault::Memory)
            } else {
                Err(RequestFault::Body)
            }
        }
    }
}

/// What a body says as JSON.
fn document(alloc: Global, body: &[u8]) -> Result<Value, RequestFault>
    ensures { ReadsAs view result (said body.now) }
{
    match body_text(body) {
        Some(text) => value_of(alloc, text),
        None => Err(RequestFault::Body),
    }
}

/// Whether a value is an object of so many members.
fn has_members(value: &Value, members: usize) -> bool
    ensures { result ≡ has_members members (view value.now) }
{
    match value.as_object() {
        Some(map) => map.len() == members,
        None => false,
    }
}

/// What a body says, where it is an object of so many members.
pub fn object(alloc: Global, body: &[u8], members: usize) -> Result<Value, RequestFault>
    ensures { ReadsAs view result (object_of members body.now) }
{
    let value = document(alloc, body)?;
    if has_members(&value, members) {
        Ok(value)
    } else {
        Err(RequestFault::Body)
    }
}

/// The unsigned whole number at a key, within the limits.
fn number_at(value: &Value, key: &str, low: u64, high: u64) -> Option<u64>
    ensures exact { result ≡ number_at (is_between low high) key.now (view value.now) }
    ensures within { IfSome result (λ n. (low ≤ n) × (n ≤ high)) }
{
    let number = value.get(key).and_then(Value::as_u64)?;
    if low <= number && number <= high {
        Some(number)
    } else {
        None
    }
}

/// The party whose number is at a key.
pub fn party_at(value: &Value, key: &str) -> Result<PartyId, RequestFault>
    ensures { ReadsAs same result (number_at is_object_number key.now (view value.now)) }
{
    let number = number_at(value, key, 1, u64::from(MOST_RECORDS)).ok_or(RequestFault::Body)?;
    PartyId::new(number as u32).ok_or(RequestFault::Body)
}

/// The parcel whose number is at a key.
pub fn parcel_at(value: &Value, key: &str) -> Result<ParcelId, RequestFault>
    ensures { ReadsAs same result (number_at is_object_number key.now (view value.now)) }
{
    let number = number_at(value, key, 1, u64::from(MOST_RECORDS)).ok_or(RequestFault::Body)?;
    ParcelId::new(number as u32).ok_or(RequestFault::Body)
}

/// The amount of cents at a key.
pub fn cents_at(value: &Value, key: &str) -> Result<Cents, RequestFault>
    ensures { ReadsAs same result (number_at is_cents key.now (view value.now)) }
{
    let number = number_at(value, key, 0, MOST_CENTS).ok_or(RequestFault::Body)?;
    Cents::new(number).ok_or(RequestFault::Body)
}

/// The count of days at a key.
pub fn days_at(value: &Value, key: &str) -> Result<Days, RequestFault>
    ensures { ReadsAs same result (number_at is_days key.now (view value.now)) }
{
    let number = number_at(value, key, 1, u64::from(MOST_DAYS)).ok_or(RequestFault::Body)?;
    Days::new(number as u32).ok_or(RequestFault::Body)
}

/// The number of a paper, at a key.
pub fn paper_at(value: &Value, key: &str) -> Result<PaperNumber, RequestFault>
    ensures { ReadsAs same result (number_at is_paper_number key.now (view value.now)) }
{
    let number = number_at(value, key, 1, u64::from(MOST_PAPERS)).ok_or(RequestFault::Body)?;
    PaperNumber::new(number as u32).ok_or(RequestFault::Body)
}

/// The string at a key.
fn string_at<'v>(value: &'v Value, key: &str) -> Option<&'v str>
    ensures { option_map (λ s. s.now) result ≡ string_at key.now (view value.now) }
{
    match value.get(key) {
        Some(value) => value.as_str(),
        None => None,
    }
}

/// The word at a key.
pub fn word_at<W: Word>(value: &Value, key: &str) -> Result<W, RequestFault>
    ensures { ReadsAs same result (word_at W.spelling W.every key.now (view value.now)) }
{
    let word = string_at(value, key).ok_or(RequestFault::Body)?;
    W::read(word).ok_or(RequestFault::Body)
}

/// The text at a key.
pub fn text_at(alloc: Global, value: &Value, key: &str) -> Result<Text, RequestFault>
    ensures { ReadsAs same result (text_at is_printable key.now (view value.now)) }
{
    let text = string_at(value, key).ok_or(RequestFault::Body)?;
    Text::new(String::from_str(alloc, text)?).ok_or(RequestFault::Body)
}

/// The number of a lot, at a key.
pub fn lot_at(alloc: Global, value: &Value, key: &str) -> Result<Lot, RequestFault>
    ensures { ReadsAs same result (text_at is_lot key.now (view value.now)) }
{
    let text = string_at(value, key).ok_or(RequestFault::Body)?;
    Lot::new(String::from_str(alloc, text)?).ok_or(RequestFault::Body)
}

/// The token at a key.
pub fn token_at(alloc: Global, value: &Value, key: &str) -> Result<Token, RequestFault>
    ensures { ReadsAs same result (text_at is_token key.now (view value.now)) }
{
    let text = string_at(value, key).ok_or(RequestFault::Body)?;
    Token::new(String::from_str(alloc, text)?).ok_or(RequestFault::Body)
}
