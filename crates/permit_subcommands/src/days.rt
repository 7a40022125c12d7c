//! The day of a run: the date that its words name, or the clock's.

ghost use Rattle.std.specs.Prelude.{◌≡◌, ◌≤◌, ℕ, false, IfErr, IfNone, IfOk, IfSome, IsOk, IsSomeAnd, IsTrue, None, OnOk, Ok};
ghost use Rattle.jiff.specs.Placed.{IsPosixZone};
ghost use Rattle.jiff.specs.Words.{plain_zone};
ghost use Rattle.permit_base.specs.Limits.{latest_day};
ghost use Rattle.permit_days.specs.Dates.{IsTextOf};
ghost use Rattle.permit_subcommands.specs.Days.{is_zone, zone_of, IsClockDay, IsDayAtReading, IsDayOn, IsDayOnIn, IsRefusedFor};
ghost use Rattle.permit_subcommands.specs.declared.failure.Failure.TheVariants as failure;

use crate::clock::Readings;
use crate::failure::Failure;
use jiff::Timestamp;
use jiff::tz::TimeZone;
use permit_args::plan::DayWords;
use permit_base::values::Day;
use permit_days::dates::read_date;
use permit_days::instants::day_of;

/// The day that a date names. A text that is no date of the office's days is refused.
pub fn dated(date: &str) -> Result<Day, Failure>
    ensures read { IfOk result (λ day. IsTextOf day date.now) }
    ensures every { (day : ℕ) → day ≤ latest_day → IsTextOf day date.now → result ≡ Ok day }
    ensures refused { IfErr result (λ why. why ≡ failure.Day) }
{
    match read_date(date) {
        Some(day) => Ok(day),
        None => Err(Failure::Day),
    }
}

/// Day 0, which is before every founding.
fn no_day() -> Day
    ensures { result ≡ 0 }
{
    match Day::new(0) {
        Some(day) => day,
        None => unreachable!(),
    }
}

/// The day at a reading of the clock in a zone; day 0 where it gives none that the office takes, so that the office refuses.
pub fn day_at(now: Option<Timestamp>, zone: &TimeZone<'_>) -> Day
    ensures { IsDayAtReading (plain_zone zone.now) now result }
{
    match now {
        Some(now) => match day_of(now, zone) {
            Ok(day) => day,
            Err(_) => no_day(),
        },
        None => no_day(),
    }
}

/// The day on the clock in a zone.
fn on_the_clock<R: Readings>(clock: &R, zone: &TimeZone<'_>) -> Day
    ensures { IsDayOn R.gave clock.now (plain_zone zone.now) result }
{
    day_at(clock.reading(), zone)
}

/// The zone of the clock.
fn zone(words: &DayWords<'_>) -> Result<TimeZone<'static>, Failure>
    ensures read { IfOk result (λ zone. IsPosixZone (zone_of words.now) (plain_zone zone)) }
    ensures within { OnOk result (IsTrue (is_zone (zone_of words.now))) }
    ensures refused { IfErr result (λ why. (why ≡ failure.Zone) × (is_zone (zone_of words.now) ≡ false)) }
{
    match TimeZone::posix(words.zone.unwrap_or("UTC0")) {
        Ok(zone) => Ok(zone),
        Err(_) => Err(Failure::Zone),
    }
}

/// The day of a run: a date goes before the clock, which is asked without one alone. The zone is read first, and with a date too.
pub fn day_of_run<R: Readings>(rt: &R, words: &DayWords<'_>) -> Result<Day, Failure>
    ensures read { IfSome words.now.day (λ date. IfOk result (λ day. IsTextOf day date.now)) }
    ensures every { IfSome words.now.day (λ date. IsTrue (is_zone (zone_of words.now)) → (day : ℕ) → day ≤ latest_day → IsTextOf day date.now → result ≡ Ok day) }
    ensures clock { IfNone words.now.day (IfOk result (IsDayOnIn R.gave rt.now (zone_of words.now))) }
    ensures within { OnOk result (IsTrue (is_zone (zone_of words.now))) }
    ensures refused { IfErr result (IsRefusedFor words.now) }
{
    Ok(days_of_run(words)?.today(rt))
}

/// The days of a run that goes on: a date, or what the clock gives each time.
#[derive(Drop)]
pub struct RunDays {
    zone: TimeZone<'static>,
    date: Option<Day>,
}

/// The days of a run that goes on. The zone is read first, and with a date too.
pub fn days_of_run(words: &DayWords<'_>) -> Result<RunDays, Failure>
    ensures dated { IfSome words.now.day (λ date. IfOk result (λ days. IsSomeAnd days.date (λ day. IsTextOf day date.now))) }
    ensures every { IfSome words.now.day (λ date. IsTrue (is_zone (zone_of words.now)) → (day : ℕ) → day ≤ latest_day → IsTextOf day date.now → IsOk result) }
    ensures clock { IfNone words.now.day (IfOk result (λ days. days.date ≡ None)) }
    ensures zone { IfOk result (λ days. IsPosixZone (zone_of words.now) (plain_zone days.zone)) }
    ensures within { OnOk result (IsTrue (is_zone (zone_of words.now))) }
    ensures refused { IfErr result (IsRefusedFor words.now) }
{
    let of_clock = zone(words)?;
    match words.day {
        Some(date) => Ok(RunDays {
            zone: of_clock,
            date: Some(dated(date)?),
        }),
        None => Ok(RunDays {
            zone: of_clock,
            date: None,
        }),
    }
}

impl RunDays {
    /// The day: the date, or the clock's; day 0 where that gives none that the office takes.
    pub fn today<R: Readings>(&self, rt: &R) -> Day
        ensures dated { IfSome self.now.date (λ day. result ≡ day) }
        ensures clock { IfNone self.now.date (IsClockDay (plain_zone self.now.zone) result) }
        ensures reading { IfNone self.now.date (IsDayOn R.gave rt.now (plain_zone self.now.zone) result) }
    {
        match self.date {
            Some(date) => date,
            None => on_the_clock(rt, &self.zone),
        }
    }
}
