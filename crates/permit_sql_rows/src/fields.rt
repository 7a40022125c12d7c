//! A field of a row as a typed value, or none where the field isn't one.

ghost use Rattle.std.specs.Prelude.{◌≡◌, ◌≢◌, ◌<◌, ◌≤◌, ◌^◌, ◌↔◌, ℕ, ℤ, IsUtf8, List, IfOk, IsSome, IsTrue, IfErr, Bool, Option, Some, None, IfSome, string_bytes, slice_get, option_map, length};
ghost use Rattle.sqlite.specs.declared.types.Value.TheVariants.{Int, Text as TextValue};
ghost use Rattle.sqlite_value.specs.Order.{column};
ghost use Rattle.permit_base.specs.Limits.{latest_day, most_cents, most_days, most_papers};
ghost use Rattle.permit_base.specs.Texts.{is_printable, is_lot, is_digest};
ghost use Rattle.permit_base.specs.declared.words.Step.{Step as TheStep};
ghost use Rattle.permit_sql_rows.specs.Rows.{int, or_zero, or_minus_one, or_null, step_value, flag};
ghost use Rattle.permit_sql_rows.specs.Typed.{IsObject, IsString, IsStringOf};
ghost use Rattle.permit_model.specs.Codes.{role_code, kind_code, stage_code, sort_code, step_code};

use permit_base::values::{
    Cents, Day, Days, Digest, FileId, Lot, LotNumber, PaperNumber, ParcelId, PartyId, Printable,
    Text, TextKind,
};
use permit_base::words::{Kind, PaperSort, Role, Stage, Step, Word};
use permit_core::shared::SharedText;
use sqlite::{Error, ErrorCode, Row};
use sqlite_value::value::ValueRef;
use std::alloc::Global;

/// Why a row isn't read as a typed value.
#[derive(Clone, Copy, Debug, PartialEq, Eq)]
pub enum RowFault {
    /// Memory was refused.
    NoMemory,
    /// A field is out of its limits.
    Unreadable,
}

/// What reading a row gives.
pub type Read<T> = Result<T, RowFault>;

/// A number, which may be below 0.
pub fn whole_number(row: &Row, at: usize) -> Option<i64>
    ensures read { (z : ℤ) → column row.now at ≡ Int z → result ≡ Some z }
    ensures back { IfSome result (λ x. column row.now at ≡ Int x) }
{
    match row.get_ref(at) {
        Ok(ValueRef::Int(number)) => Some(number),
        _ => None,
    }
}

/// A number.
pub(crate) fn number(row: &Row, at: usize) -> Option<u32>
    ensures read { (n : ℕ) → column row.now at ≡ int n → IfSome result (λ x. x ≡ n) }
    ensures back { IfSome result (λ x. column row.now at ≡ int x) }
    ensures some { (n : ℕ) → n < 2 ^ 32 → column row.now at ≡ int n → IsSome result }
{
    u32::try_from(whole_number(row, at)?).ok()
}

/// A number of up to 64 bits.
pub(crate) fn long_number(row: &Row, at: usize) -> Option<u64>
    ensures read { (n : ℕ) → column row.now at ≡ int n → IfSome result (λ x. x ≡ n) }
    ensures back { IfSome result (λ x. column row.now at ≡ int x) }
    ensures some { (n : ℕ) → n < 2 ^ 63 → column row.now at ≡ int n → IsSome result }
{
    u64::try_from(whole_number(row, at)?).ok()
}

/// A number where -1 means none.
pub(crate) fn number_or_minus_one(row: &Row, at: usize) -> Option<Option<u32>>
    ensures read { (o : Option ℕ) → column row.now at ≡ or_minus_one o → IfSome result (λ x. x ≡ o) }
    ensures back { IfSome result (λ x. column row.now at ≡ or_minus_one x) }
    ensures some { (o : Option ℕ) → IfSome o (λ n. n < 2 ^ 32) → column row.now at ≡ or_minus_one o → IsSome result }
{
    let code = whole_number(row, at)?;
    if code == -1 {
        return Some(None);
    }
    Some(Some(number(row, at)?))
}

/// A number where 0 means none.
pub(crate) fn number_or_zero(row: &Row, at: usize) -> Option<Option<u32>>
    ensures read { (o : Option ℕ) → o ≢ Some 0 → column row.now at ≡ or_zero o → IfSome result (λ x. x ≡ o) }
    ensures back { IfSome result (λ x. (column row.now at ≡ or_zero x) × (x ≢ Some 0)) }
    ensures some { (o : Option ℕ) → IfSome o (λ n. n < 2 ^ 32) → column row.now at ≡ or_zero o → IsSome result }
{
    let code = number(row, at)?;
    if code == 0 {
        return Some(None);
    }
    Some(Some(code))
}

/// A number of up to 8 bits.
pub(crate) fn small_number(row: &Row, at: usize) -> Option<u8>
    ensures read { (n : ℕ) → column row.now at ≡ int n → IfSome result (λ x. x ≡ n) }
    ensures back { IfSome result (λ x. column row.now at ≡ int x) }
    ensures some { (n : ℕ) → n < 2 ^ 8 → column row.now at ≡ int n → IsSome result }
{
    u8::try_from(number(row, at)?).ok()
}

/// A number of up to 16 bits.
pub(crate) fn short_number(row: &Row, at: usize) -> Option<u16>
    ensures read { (n : ℕ) → column row.now at ≡ int n → IfSome result (λ x. x ≡ n) }
    ensures back { IfSome result (λ x. column row.now at ≡ int x) }
    ensures some { (n : ℕ) → n < 2 ^ 16 → column row.now at ≡ int n → IsSome result }
{
    u16::try_from(number(row, at)?).ok()
}

/// The number of a party.
pub(crate) fn party_number(row: &Row, at: usize) -> Option<PartyId>
    ensures read { (n : ℕ) → column row.now at ≡ int n → IfSome result (λ x. x ≡ n) }
    ensures back { IfSome result (λ x. column row.now at ≡ int x) }
    ensures some { (n : ℕ) → IsObject n → column row.now at ≡ int n → IsSome result }
{
    PartyId::new(number(row, at)?)
}

/// The number of a parcel.
pub(crate) fn parcel_number(row: &Row, at: usize) -> Option<ParcelId>
    ensures read { (n : ℕ) → column row.now at ≡ int n → IfSome result (λ x. x ≡ n) }
    ensures back { IfSome result (λ x. column row.now at ≡ int x) }
    ensures some { (n : ℕ) → IsObject n → column row.now at ≡ int n → IsSome result }
{
    ParcelId::new(number(row, at)?)
}

/// The number of a file.
pub(crate) fn file_number(row: &Row, at: usize) -> Option<FileId>
    ensures read { (n : ℕ) → column row.now at ≡ int n → IfSome result (λ x. x ≡ n) }
    ensures back { IfSome result (λ x. column row.now at ≡ int x) }
    ensures some { (n : ℕ) → IsObject n → column row.now at ≡ int n → IsSome result }
{
    FileId::new(number(row, at)?)
}

/// The number of a paper.
pub(crate) fn paper_number(row: &Row, at: usize) -> Option<PaperNumber>
    ensures read { (n : ℕ) → column row.now at ≡ int n → IfSome result (λ x. x ≡ n) }
    ensures back { IfSome result (λ x. column row.now at ≡ int x) }
    ensures some { (n : ℕ) → (0 < n) × (n ≤ most_papers) → column row.now at ≡ int n → IsSome result }
{
    PaperNumber::new(number(row, at)?)
}

/// An amount of money.
pub(crate) fn cents(row: &Row, at: usize) -> Option<Cents>
    ensures read { (n : ℕ) → column row.now at ≡ int n → IfSome result (λ x. x ≡ n) }
    ensures back { IfSome result (λ x. column row.now at ≡ int x) }
    ensures some { (n : ℕ) → n ≤ most_cents → column row.now at ≡ int n → IsSome result }
{
    Cents::new(long_number(row, at)?)
}

/// A day.
pub(crate) fn day(row: &Row, at: usize) -> Option<Day>
    ensures read { (n : ℕ) → column row.now at ≡ int n → IfSome result (λ x. x ≡ n) }
    ensures back { IfSome result (λ x. column row.now at ≡ int x) }
    ensures some { (n : ℕ) → n ≤ latest_day → column row.now at ≡ int n → IsSome result }
{
    Day::new(number(row, at)?)
}

/// The number of a party, where 0 means none.
pub(crate) fn party_or_zero(row: &Row, at: usize) -> Option<Option<PartyId>>
    ensures read { (o : Option ℕ) → o ≢ Some 0 → column row.now at ≡ or_zero o → IfSome result (λ x. x ≡ o) }
    ensures back { IfSome result (λ x. (column row.now at ≡ or_zero x) × (x ≢ Some 0)) }
    ensures some { (o : Option ℕ) → IfSome o IsObject → column row.now at ≡ or_zero o → IsSome result }
{
    match number_or_zero(row, at)? {
        None => Some(None),
        Some(number) => Some(Some(PartyId::new(number)?)),
    }
}

/// The number of a party, where Null means none.
pub(crate) fn party_or_null(row: &Row, at: usize) -> Option<Option<PartyId>>
    ensures read { (o : Option ℕ) → column row.now at ≡ or_null o → IfSome result (λ x. x ≡ o) }
    ensures back { IfSome result (λ x. column row.now at ≡ or_null x) }
    ensures some { (o : Option ℕ) → IfSome o IsObject → at < length row.now → column row.now at ≡ or_null o → IsSome result }
{
    match row.get_ref(at) {
        Ok(ValueRef::Null) => Some(None),
        _ => Some(Some(party_number(row, at)?)),
    }
}

/// A count of days, where 0 means none.
pub(crate) fn days_or_zero(row: &Row, at: usize) -> Option<Option<Days>>
    ensures read { (o : Option ℕ) → o ≢ Some 0 → column row.now at ≡ or_zero o → IfSome result (λ x. x ≡ o) }
    ensures back { IfSome result (λ x. (column row.now at ≡ or_zero x) × (x ≢ Some 0)) }
    ensures some { (o : Option ℕ) → IfSome o (λ n. (0 < n) × (n ≤ most_days)) → column row.now at ≡ or_zero o → IsSome result }
{
    match number_or_zero(row, at)? {
        None => Some(None),
        Some(number) => Some(Some(Days::new(number)?)),
    }
}

/// A day, where -1 means none.
pub(crate) fn day_or_minus_one(row: &Row, at: usize) -> Option<Option<Day>>
    ensures read { (o : Option ℕ) → column row.now at ≡ or_minus_one o → IfSome result (λ x. x ≡ o) }
    ensures back { IfSome result (λ x. column row.now at ≡ or_minus_one x) }
    ensures some { (o : Option ℕ) → IfSome o (λ n. n ≤ latest_day) → column row.now at ≡ or_minus_one o → IsSome result }
{
    match number_or_minus_one(row, at)? {
        None => Some(None),
        Some(number) => Some(Some(Day::new(number)?)),
    }
}

/// The string in a column, where it is one in UTF-8.
pub fn string_in(row: &Row, at: usize) -> Option<&str>
    ensures back { IfSome result (λ x. column row.now at ≡ TextValue x.now) }
    ensures utf8 { IfSome result (λ x. IsUtf8 x.now) }
    ensures some { (t : List ℕ) → IsUtf8 t → column row.now at ≡ TextValue t → IsSome result }
{
    match row.get_ref(at) {
        Ok(ValueRef::Text(bytes)) => str::from_utf8(bytes).ok(),
        _ => None,
    }
}

/// Whether a column has a string, which may be empty.
pub(crate) fn has_string(row: &Row, at: usize) -> bool
    ensures { IsTrue result ↔ IsString (column row.now at) }
{
    string_in(row, at).is_some()
}

/// Whether a column has a text within its limits.
pub fn has_text(row: &Row, at: usize) -> bool
    ensures { IsTrue result ↔ IsStringOf is_printable (column row.now at) }
{
    match string_in(row, at) {
        Some(text) => Printable::admits(text.as_bytes()),
        None => false,
    }
}

/// Whether a column has a lot.
pub(crate) fn has_lot(row: &Row, at: usize) -> bool
    ensures { IsTrue result ↔ IsStringOf is_lot (column row.now at) }
{
    match string_in(row, at) {
        Some(text) => LotNumber::admits(text.as_bytes()),
        None => false,
    }
}

/// A string, which may be empty. Memory is said to be refused only where there is one.
pub(crate) fn string(row: &Row, at: usize) -> Read<String>
    ensures read { (t : List ℕ) → column row.now at ≡ TextValue t → IfOk result (λ x. string_bytes x ≡ t) }
    ensures back { IfOk result (λ x. column row.now at ≡ TextValue (string_bytes x)) }
    ensures utf8 { IfOk result (λ x. IsUtf8 (string_bytes x)) }
    ensures some { (t : List ℕ) → IsUtf8 t → column row.now at ≡ TextValue t → IfErr result (λ e. e ≡ RowFault.NoMemory) }
    ensures memory { IfErr result (λ e. e ≡ RowFault.NoMemory → IsString (column row.now at)) }
{
    match row.get::<String>(at) {
        Ok(text) => {
            // Its contract says that a string's bytes are UTF-8.
            let _bytes = text.as_str();
            Ok(text)
        }
        Err(Error::SqliteFailure(ErrorCode::OutOfMemory)) if has_string(row, at) => {
            Err(RowFault::NoMemory)
        }
        Err(_) => Err(RowFault::Unreadable),
    }
}

/// A text within its limits. Memory is said to be refused only where there is one.
pub(crate) fn text(row: &Row, at: usize) -> Read<Text>
    ensures read { (t : List ℕ) → column row.now at ≡ TextValue t → IfOk result (λ x. x ≡ t) }
    ensures back { IfOk result (λ x. column row.now at ≡ TextValue x) }
    ensures within { IfOk result (λ x. IsTrue (is_printable x)) }
    ensures utf8 { IfOk result (λ x. IsUtf8 x) }
    ensures some { (t : List ℕ) → IsTrue (is_printable t) → IsUtf8 t → column row.now at ≡ TextValue t → IfErr result (λ e. e ≡ RowFault.NoMemory) }
    ensures memory { IfErr result (λ e. e ≡ RowFault.NoMemory → IsStringOf is_printable (column row.now at)) }
{
    match string(row, at) {
        Ok(text) => readable(Text::new(text)),
        Err(RowFault::NoMemory) if has_text(row, at) => Err(RowFault::NoMemory),
        Err(_) => Err(RowFault::Unreadable),
    }
}

/// The text, to be shared.
fn shared(alloc: Global, text: Text) -> Read<SharedText>
    ensures ok { IfOk result (λ x. x ≡ text) }
    ensures err { IfErr result (λ e. e ≡ RowFault.NoMemory) }
{
    match SharedText::new(alloc, text) {
        Ok(text) => Ok(text),
        Err(_) => Err(RowFault::NoMemory),
    }
}

/// A text within its limits, to be shared. Memory is said to be refused only where there is one.
pub(crate) fn shared_text(row: &Row, at: usize) -> Read<SharedText>
    ensures read { (t : List ℕ) → column row.now at ≡ TextValue t → IfOk result (λ x. x ≡ t) }
    ensures back { IfOk result (λ x. column row.now at ≡ TextValue x) }
    ensures within { IfOk result (λ x. IsTrue (is_printable x)) }
    ensures utf8 { IfOk result (λ x. IsUtf8 x) }
    ensures some { (t : List ℕ) → IsTrue (is_printable t) → IsUtf8 t → column row.now at ≡ TextValue t → IfErr result (λ e. e ≡ RowFault.NoMemory) }
    ensures memory { IfErr result (λ e. e ≡ RowFault.NoMemory → IsStringOf is_printable (column row.now at)) }
{
    match string(row, at) {
        Ok(text) => {
            let alloc = *text.allocator();
            shared(alloc, readable(Text::new(text))?)
        }
        Err(RowFault::NoMemory) if has_text(row, at) => Err(RowFault::NoMemory),
        Err(_) => Err(RowFault::Unreadable),
    }
}

/// A lot. Memory is said to be refused only where there is one.
pub(crate) fn lot(row: &Row, at: usize) -> Read<Lot>
    ensures read { (t : List ℕ) → column row.now at ≡ TextValue t → IfOk result (λ x. x ≡ t) }
    ensures back { IfOk result (λ x. column row.now at ≡ TextValue x) }
    ensures within { IfOk result (λ x. IsTrue (is_lot x)) }
    ensures some { (t : List ℕ) → IsTrue (is_lot t) → column row.now at ≡ TextValue t → IfErr result (λ e. e ≡ RowFault.NoMemory) }
    ensures memory { IfErr result (λ e. e ≡ RowFault.NoMemory → IsStringOf is_lot (column row.now at)) }
{
    match string(row, at) {
        Ok(text) => readable(Lot::new(text)),
        Err(RowFault::NoMemory) if has_lot(row, at) => Err(RowFault::NoMemory),
        Err(_) => Err(RowFault::Unreadable),
    }
}

/// A digest.
pub(crate) fn digest(row: &Row, at: usize) -> Option<Digest>
    ensures read { (t : List ℕ) → column row.now at ≡ TextValue t → IfSome result (λ x. x ≡ t) }
    ensures back { IfSome result (λ x. column row.now at ≡ TextValue x) }
    ensures within { IfSome result (λ x. IsTrue (is_digest x)) }
    ensures some { (t : List ℕ) → IsTrue (is_digest t) → column row.now at ≡ TextValue t → IsSome result }
{
    Digest::read(string_in(row, at)?)
}

/// The value, or that the row is unreadable.
pub(crate) fn readable<T>(value: Option<T>) -> Read<T>
    ensures ok { IfOk result (λ x. value ≡ Some x) }
    ensures err { IfErr result (λ e. (value ≡ None) × (e ≡ RowFault.Unreadable)) }
{
    match value {
        Some(value) => Ok(value),
        None => Err(RowFault::Unreadable),
    }
}

/// 1 or 0.
pub(crate) fn truth(row: &Row, at: usize) -> Option<bool>
    ensures read { (b : Bool) → column row.now at ≡ flag b → IfSome result (λ x. x ≡ b) }
    ensures back { IfSome result (λ x. column row.now at ≡ flag x) }
    ensures some { (b : Bool) → column row.now at ≡ flag b → IsSome result }
{
    match number(row, at)? {
        0 => Some(false),
        1 => Some(true),
        _ => None,
    }
}

/// The word with a code.
fn word_at<W: Word>(code: u32) -> Option<W>
    ensures { result ≡ slice_get W.every code }
{
    W::all().get(code as usize).copied()
}

/// A role by its code.
#[tactic(auto, using(crate::proofs::Coded::role_back, crate::proofs::Coded::role_code_of))]
pub(crate) fn role(row: &Row, at: usize) -> Option<Role>
    ensures read { (w : _) → column row.now at ≡ int (role_code w) → IfSome result (λ x. x ≡ w) }
    ensures back { IfSome result (λ x. column row.now at ≡ int (role_code x)) }
    ensures some { (w : _) → column row.now at ≡ int (role_code w) → IsSome result }
{
    word_at(number(row, at)?)
}

/// A kind of work by its code.
#[tactic(auto, using(crate::proofs::Coded::kind_back, crate::proofs::Coded::kind_code_of))]
pub(crate) fn kind(row: &Row, at: usize) -> Option<Kind>
    ensures read { (w : _) → column row.now at ≡ int (kind_code w) → IfSome result (λ x. x ≡ w) }
    ensures back { IfSome result (λ x. column row.now at ≡ int (kind_code x)) }
    ensures some { (w : _) → column row.now at ≡ int (kind_code w) → IsSome result }
{
    word_at(number(row, at)?)
}

/// A stage by its code.
#[tactic(auto, using(crate::proofs::Coded::stage_back, crate::proofs::Coded::stage_code_of))]
pub(crate) fn stage(row: &Row, at: usize) -> Option<Stage>
    ensures read { (w : _) → column row.now at ≡ int (stage_code w) → IfSome result (λ x. x ≡ w) }
    ensures back { IfSome result (λ x. column row.now at ≡ int (stage_code x)) }
    ensures some { (w : _) → column row.now at ≡ int (stage_code w) → IsSome result }
{
    word_at(number(row, at)?)
}

/// A sort of paper by its code.
#[tactic(auto, using(crate::proofs::Coded::sort_back, crate::proofs::Coded::sort_code_of))]
pub(crate) fn sort(row: &Row, at: usize) -> Option<PaperSort>
    ensures read { (w : _) → column row.now at ≡ int (sort_code w) → IfSome result (λ x. x ≡ w) }
    ensures back { IfSome result (λ x. column row.now at ≡ int (sort_code x)) }
    ensures some { (w : _) → column row.now at ≡ int (sort_code w) → IsSome result }
{
    word_at(number(row, at)?)
}

/// The step with a code, if there is a code.
#[tactic(auto, using(crate::proofs::Coded::step_back, crate::proofs::Coded::step_code_of))]
fn step_with(code: Option<u32>) -> Option<Option<Step>>
    ensures read { (o : Option TheStep) → code ≡ option_map step_code o → IfSome result (λ x. x ≡ o) }
    ensures back { IfSome result (λ x. code ≡ option_map step_code x) }
    ensures some { (o : Option TheStep) → code ≡ option_map step_code o → IsSome result }
{
    match code {
        None => Some(None),
        Some(code) => Some(Some(word_at(code)?)),
    }
}

/// A step by its code, where -1 means none.
pub(crate) fn step_or_minus_one(row: &Row, at: usize) -> Option<Option<Step>>
    ensures read { (o : Option TheStep) → column row.now at ≡ step_value o → IfSome result (λ x. x ≡ o) }
    ensures back { IfSome result (λ x. column row.now at ≡ step_value x) }
    ensures some { (o : Option TheStep) → column row.now at ≡ step_value o → IsSome result }
{
    step_with(number_or_minus_one(row, at)?)
}
