//! Days as dates in text, YYYY-MM-DD.

ghost use Rattle.std.specs.Prelude.{◌≡◌, ◌≤◌, ◌<◌, ◌∷◌, ◌↔◌, ◌≤ℤ◌, [], ℕ, List, IfOk, IfSome, IsSome, Some, pos, string_bytes};
ghost use Rattle.jiff.specs.Words.{epoch_day, date_text};
ghost use Rattle.jiff_fmt.specs.Text.{pad2};
ghost use Rattle.jiff_core.specs.declared.civil.date.Date.{Date as TheDate};
ghost use Rattle.permit_base.specs.Limits.{latest_day, latest_deadline};
ghost use Rattle.permit_days.specs.Dates.{written, IsDateOf, IsTextOf};

use crate::instants::number;
use jiff::civil::Date;
use jiff_core::civil;
use permit_base::values::Day;
use std::alloc::{AllocError, Global};

/// The date with this day number, counted from 1970-01-01, where the calendar has it: up to 9999-12-31.
fn date_of(day: u32) -> Option<Date>
    ensures date { IfSome result (IsDateOf day) }
    ensures there { day ≤ 2932896 → IsSome result }
{
    match civil::Date::from_unix_epoch_day(i64::from(day)) {
        Ok(date) => Some(Date::from_plain(date)),
        Err(_) => None,
    }
}

/// The date of a day as YYYY-MM-DD. The day counts from 1970-01-01; past 9999-12-31, which no deadline reaches, the
/// text is empty.
///
/// # Examples
///
/// ```
/// let date = date_text(alloc, 19723)?;
/// assert!(rt; date.as_str() == "2024-01-01");
/// ```
pub fn date_text(alloc: Global, day: u32) -> Result<String, AllocError>
    ensures text { day ≤ latest_deadline → IfOk result (λ text. IsTextOf day (string_bytes text)) }
{
    match date_of(day) {
        Some(date) => date.to_string(alloc),
        None => Ok(String::new(alloc)),
    }
}

/// The number that two digits write.
fn two_digits(tens: u8, ones: u8) -> Option<u8>
    ensures read { IfSome result (λ n. (n < 100) × (pad2 n ≡ tens ∷ ones ∷ [])) }
    ensures reads { (n : ℕ) → n < 100 → pad2 n ≡ tens ∷ ones ∷ [] → result ≡ Some n }
{
    if tens.is_ascii_digit() && ones.is_ascii_digit() {
        Some((tens - b'0') * 10 + (ones - b'0'))
    } else {
        None
    }
}

/// The year, month and day that ten bytes write as YYYY-MM-DD.
fn parts_in(text: &[u8]) -> Option<(u16, u8, u8)>
    ensures read { IfSome result (λ p. (p.0 < 10000) × (p.1 < 100) × (p.2 < 100) × (written p.0 p.1 p.2 ≡ text.now)) }
    ensures reads { (y m d : ℕ) → y < 10000 → m < 100 → d < 100 → written y m d ≡ text.now → result ≡ Some (y, m, d) }
{
    match text {
        [a, b, c, d, b'-', e, f, b'-', g, h] => {
            let century = two_digits(*a, *b)?;
            let year = two_digits(*c, *d)?;
            let month = two_digits(*e, *f)?;
            let day = two_digits(*g, *h)?;
            Some((u16::from(century) * 100 + u16::from(year), month, day))
        }
        _ => None,
    }
}

/// The day of a date, where the office takes it.
fn day_of_date(date: Date) -> Option<Day>
    ensures day { IfSome result (λ day. IsDateOf day date) }
    ensures every { (day : ℕ) → IsDateOf day date → day ≤ latest_day → result ≡ Some day }
{
    let number = number(date);
    if number < 0 {
        return None;
    }
    Day::new(number as u32)
}

/// The day of a date written as YYYY-MM-DD, exactly so: none for another form, for a date that doesn't exist, and for a
/// day that isn't from 1970-01-01 to the day 100000.
///
/// # Examples
///
/// ```
/// let day = read_date("2024-01-01").ok_or("a date")?;
/// assert!(rt; day.get() == 19723);
/// assert!(rt; read_date("2024-1-1").is_none());
/// ```
pub fn read_date(text: &str) -> Option<Day>
    ensures read { IfSome result (λ day. IsTextOf day text.now) }
    ensures every { (day : ℕ) → day ≤ latest_day → IsTextOf day text.now → result ≡ Some day }
{
    match parts_in(text.as_bytes()) {
        Some((year, month, day)) => match Date::new(year as i16, month as i8, day as i8) {
            Ok(date) => day_of_date(date),
            Err(_) => None,
        },
        None => None,
    }
}
