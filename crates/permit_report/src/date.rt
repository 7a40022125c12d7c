//! Dates of the civil calendar by their days' numbers, counted in place and so without memory.
//!
//! The years go on to 2570. A day after them, which no deadline is, falls in a thirteenth month of the last year, as
//! the definitions have it.

ghost use Rattle.std.specs.Prelude.{◌≡◌, ◌-◌, ◌^◌, ◌<◌, ◌≤◌, length, decimal};
ghost use Rattle.permit_model.specs.Register.{is_leap, year_days, month_days, date_in_months, or_hyphen};
ghost use Rattle.permit_report.specs.Dates.{date_from, shown_date};

use crate::column::{Column, hyphen, push_padded};

/// The year that day 0 begins.
const FIRST_YEAR: u32 = 1970;

/// The last year; the last deadline is in 2517.
const LAST_YEAR: u32 = 2570;

/// Whether a year has a leap day.
fn is_leap_year(year: u32) -> bool
    ensures { result ≡ is_leap year }
{
    year % 4 == 0 && (year % 100 != 0 || year % 400 == 0)
}

/// The days of a year.
fn year_length(year: u32) -> u32
    ensures { result ≡ year_days year }
{
    if is_leap_year(year) { 366 } else { 365 }
}

/// The days of the months of a year.
fn month_lengths(year: u32) -> [u32; 12]
    ensures { result ≡ month_days year }
{
    let february = if is_leap_year(year) { 29 } else { 28 };
    [31, february, 31, 30, 31, 30, 31, 31, 30, 31, 30, 31]
}

/// The year of a day, and how many days of that year come before it.
fn year_of(day: u32) -> (u32, u32)
    ensures date { date_from (LAST_YEAR - FIRST_YEAR) FIRST_YEAR day ≡ date_in_months result.0 1 (month_days result.0) result.1 }
    ensures digits { length (decimal result.0) ≤ 4 }
    ensures days { result.1 < 2 ^ 32 - 1 }
{
    let mut days = day;
    for year in FIRST_YEAR..LAST_YEAR {
        let length = year_length(year);
        if days < length {
            return (year, days);
        }
        days -= length;
    }
    (LAST_YEAR, days)
}

/// The month and the day of the month, by how many days of the year come before it.
fn month_of(year: u32, before: u32) -> (u32, u32)
    requires { before < 2 ^ 32 - 1 }
    ensures date { date_in_months year 1 (month_days year) before ≡ record { year = year; month = result.0; day = result.1 } }
    ensures digits { (length (decimal result.0) ≤ 2) × (length (decimal result.1) ≤ 10) }
{
    let mut month = 1;
    let mut days = before;
    for length in month_lengths(year) {
        if days < length {
            return (month, days + 1);
        }
        days -= length;
        month += 1;
    }
    (month, days + 1)
}

/// The date of a day as YYYY-MM-DD.
fn date(day: u32) -> Column
    ensures { result.bytes ≡ shown_date day }
{
    let (year, before) = year_of(day);
    let (month, day_of_month) = month_of(year, before);
    let mut text = Column::new();
    push_padded(&mut text, 4, year);
    text.push('-');
    push_padded(&mut text, 2, month);
    text.push('-');
    push_padded(&mut text, 2, day_of_month);
    text
}

/// The date of a day as YYYY-MM-DD, or a hyphen for none.
pub fn date_or_hyphen(day: Option<u32>) -> Column
    ensures { result.bytes ≡ or_hyphen shown_date day }
{
    match day {
        Some(day) => date(day),
        None => hyphen(),
    }
}
