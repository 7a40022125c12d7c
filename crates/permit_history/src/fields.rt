//! What a JSON value holds, member by member.

ghost use Rattle.std.specs.Prelude.{◌≡◌, ◌≤◌, IfSome, option_map};
ghost use Rattle.serde_json.specs.View.{view};
ghost use Rattle.permit_base.specs.Limits.{is_between, is_object_number, is_day, is_days, is_paper_number, is_cents};
ghost use Rattle.permit_base.specs.Texts.{is_printable, is_lot, is_digest};
ghost use Rattle.permit_history.specs.Fields.{number_at, number_or_null_at, string_at, text_at, word_at, is_null_at};
ghost use Rattle.permit_history.specs.Outcome.{ReadsAs, same};

use crate::fault::LineFault;
use permit_base::limits::{LATEST_DAY, MOST_CENTS, MOST_DAYS, MOST_PAPERS, MOST_RECORDS};
use permit_base::values::{
    Cents, Day, Days, Digest, FileId, Lot, PaperNumber, ParcelId, PartyId, Text,
};
use permit_base::words::Word;
use serde_json::Value;
use std::alloc::Global;

/// The unsigned whole number at a key, within the limits.
fn number_at(value: &Value, key: &str, low: u64, high: u64) -> Option<u64>
    ensures exact { result ≡ number_at (is_between low high) key.now (view value.now) }
    ensures within { IfSome result (λ n. (low ≤ n) × (n ≤ high)) }
{
    let number = value.get(key).and_then(Value::as_u64)?;
    if low <= number && number <= high {
        Some(number)
    } else {
        None
    }
}

/// The party whose number is at a key.
pub fn party_at(value: &Value, key: &str) -> Result<PartyId, LineFault>
    ensures { ReadsAs same result (number_at is_object_number key.now (view value.now)) }
{
    let number = number_at(value, key, 1, u64::from(MOST_RECORDS)).ok_or(LineFault::Fields)?;
    PartyId::new(number as u32).ok_or(LineFault::Fields)
}

/// The parcel whose number is at a key.
pub fn parcel_at(value: &Value, key: &str) -> Result<ParcelId, LineFault>
    ensures { ReadsAs same result (number_at is_object_number key.now (view value.now)) }
{
    let number = number_at(value, key, 1, u64::from(MOST_RECORDS)).ok_or(LineFault::Fields)?;
    ParcelId::new(number as u32).ok_or(LineFault::Fields)
}

/// The file whose number is at a key.
pub fn file_at(value: &Value, key: &str) -> Result<FileId, LineFault>
    ensures { ReadsAs same result (number_at is_object_number key.now (view value.now)) }
{
    let number = number_at(value, key, 1, u64::from(MOST_RECORDS)).ok_or(LineFault::Fields)?;
    FileId::new(number as u32).ok_or(LineFault::Fields)
}

/// The day at a key.
pub fn day_at(value: &Value, key: &str) -> Result<Day, LineFault>
    ensures { ReadsAs same result (number_at is_day key.now (view value.now)) }
{
    let number = number_at(value, key, 0, u64::from(LATEST_DAY)).ok_or(LineFault::Fields)?;
    Day::new(number as u32).ok_or(LineFault::Fields)
}

/// The count of days at a key.
pub fn days_at(value: &Value, key: &str) -> Result<Days, LineFault>
    ensures { ReadsAs same result (number_at is_days key.now (view value.now)) }
{
    let number = number_at(value, key, 1, u64::from(MOST_DAYS)).ok_or(LineFault::Fields)?;
    Days::new(number as u32).ok_or(LineFault::Fields)
}

/// The amount of cents at a key.
pub fn cents_at(value: &Value, key: &str) -> Result<Cents, LineFault>
    ensures { ReadsAs same result (number_at is_cents key.now (view value.now)) }
{
    let number = number_at(value, key, 0, MOST_CENTS).ok_or(LineFault::Fields)?;
    Cents::new(number).ok_or(LineFault::Fields)
}

/// The number of a paper, at a key.
pub fn paper_at(value: &Value, key: &str) -> Result<PaperNumber, LineFault>
    ensures { ReadsAs same result (number_at is_paper_number key.now (view value.now)) }
{
    let number = number_at(value, key, 1, u64::from(MOST_PAPERS)).ok_or(LineFault::Fields)?;
    PaperNumber::new(number as u32).ok_or(LineFault::Fields)
}

/// Whether null is at a key.
fn is_null_at(value: &Value, key: &str) -> bool
    ensures { result ≡ is_null_at key.now (view value.now) }
{
    match value.get(key) {
        Some(value) => value.is_null(),
        None => false,
    }
}

/// The number of a paper, or none where null is at the key.
pub fn paper_or_null_at(value: &Value, key: &str) -> Result<Option<PaperNumber>, LineFault>
    ensures { ReadsAs same result (number_or_null_at is_paper_number key.now (view value.now)) }
{
    if is_null_at(value, key) {
        Ok(None)
    } else {
        Ok(Some(paper_at(value, key)?))
    }
}

/// The string at a key.
pub fn string_at<'v>(value: &'v Value, key: &str) -> Option<&'v str>
    ensures { option_map (λ s. s.now) result ≡ string_at key.now (view value.now) }
{
    match value.get(key) {
        Some(value) => value.as_str(),
        None => None,
    }
}

/// The word at a key.
pub fn word_at<W: Word>(value: &Value, key: &str) -> Result<W, LineFault>
    ensures { ReadsAs same result (word_at W.spelling W.every key.now (view value.now)) }
{
    let word = string_at(value, key).ok_or(LineFault::Fields)?;
    W::read(word).ok_or(LineFault::Fields)
}

/// The text at a key.
pub fn text_at(alloc: Global, value: &Value, key: &str) -> Result<Text, LineFault>
    ensures { ReadsAs same result (text_at is_printable key.now (view value.now)) }
{
    let text = string_at(value, key).ok_or(LineFault::Fields)?;
    Text::new(String::from_str(alloc, text)?).ok_or(LineFault::Fields)
}

/// The number of a lot, at a key.
pub fn lot_at(alloc: Global, value: &Value, key: &str) -> Result<Lot, LineFault>
    ensures { ReadsAs same result (text_at is_lot key.now (view value.now)) }
{
    let text = string_at(value, key).ok_or(LineFault::Fields)?;
    Lot::new(String::from_str(alloc, text)?).ok_or(LineFault::Fields)
}

/// The digest at a key.
pub fn digest_at(value: &Value, key: &str) -> Result<Digest, LineFault>
    ensures { ReadsAs same result (text_at is_digest key.now (view value.now)) }
{
    let text = string_at(value, key).ok_or(LineFault::Fields)?;
    Digest::read(text).ok_or(LineFault::Fields)
}
