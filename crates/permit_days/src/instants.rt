//! The day of an instant in a zone.

ghost use Rattle.std.specs.Prelude.{◌≡◌, ◌≤◌, ℕ, IfOk, IfErr};
ghost use Rattle.jiff.specs.Words.{epoch_day, plain_zone};
ghost use Rattle.permit_base.specs.Limits.{latest_day};
ghost use Rattle.permit_days.specs.Instants.{IsDayAt};

use jiff::Timestamp;
use jiff::civil::Date;
use jiff::tz::TimeZone;
use permit_base::values::Day;

/// Why an instant has no day.
#[derive(Clone, Copy, PartialEq, Eq, Debug)]
pub enum DayError {
    /// The date is before 1970-01-01 or after the day 100000.
    Range,
    /// The zone refused the instant, or found no memory: the zones of this library never do.
    Zone,
}

/// The number of a date's day, from 1970-01-01.
pub(crate) fn number(date: Date) -> i32
    ensures { result ≡ epoch_day date }
{
    date.to_plain().to_unix_epoch_day()
}

/// The day that a zone's clock shows at an instant, counted from 1970-01-01.
///
/// # Examples
///
/// ```
/// let midnight = Timestamp::from_second(1_704_067_200)?;
/// let there = day_of(midnight, &TimeZone::posix("EST5")?);
/// assert!(rt; there.map(Day::get) == Ok(19722));
/// ```
pub fn day_of(instant: Timestamp, zone: &TimeZone<'_>) -> Result<Day, DayError>
    ensures day { IfOk result (IsDayAt (plain_zone zone.now) instant.nanosecond) }
    ensures range { IfErr result (λ e. (e ≡ DayError.Range) × ((day : ℕ) → day ≤ latest_day → IsDayAt (plain_zone zone.now) instant.nanosecond day → ⊥)) }
{
    let shown = number(zone.to_datetime(instant).date());
    if shown < 0 {
        return Err(DayError::Range);
    }
    match Day::new(shown as u32) {
        Some(day) => Ok(day),
        None => Err(DayError::Range),
    }
}
