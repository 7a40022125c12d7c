//! Dates and days against another calendar's, and zones against their rules.

use jiff::Timestamp;
use jiff::tz::TimeZone;
use permit_base::values::Day;
use permit_days::dates::{date_text, read_date};
use permit_days::instants::{DayError, day_of};
use std::test::Fail;

/// Days with their dates, by the calendar of another library.
const DATES: [(u32, &str); 7] = [
    (0, "1970-01-01"),
    (11016, "2000-02-29"),
    (19723, "2024-01-01"),
    (19903, "2024-06-29"),
    (20000, "2024-10-04"),
    (100000, "2243-10-17"),
    (200000, "2517-08-01"),
];

/// Texts that are no dates, or dates of no day.
const NO_DATES: [&str; 9] = [
    "",
    "2024-1-01",
    "2024-02-30",
    "1969-12-31",
    "2023-02-29",
    "2024-06-29 ",
    "+024-06-29",
    "2024/06/29",
    "2243-10-18",
];

/// Seconds since 1970 with a zone's rule and the day there.
const INSTANTS: [(i64, &str, Result<u32, DayError>); 4] = [
    (1_704_067_200, "UTC0", Ok(19723)),
    (1_704_067_200, "EST5", Ok(19722)),
    (-1, "UTC0", Err(DayError::Range)),
    (-1, "XXX-1", Ok(0)),
];

#[test]
fn dates_are_written_and_read(rt: HostRuntime) -> Result<(), Fail> {
    for (day, date) in DATES {
        assert!(rt; date_text(rt.alloc(), day)?.as_str() == date, "{date}");
        let number = if day <= 100000 { Some(day) } else { None };
        assert!(rt; read_date(date).map(Day::get) == number, "{date}");
    }
    for text in NO_DATES {
        assert!(rt; read_date(text).is_none(), "{text}");
    }
    Ok(())
}

#[test]
fn a_day_is_the_zones(rt: HostRuntime) -> Result<(), Fail> {
    for (second, zone, day) in INSTANTS {
        let instant = Timestamp::from_second(second)?;
        let found = day_of(instant, &TimeZone::posix(zone)?).map(Day::get);
        assert!(rt; found == day, "{second} {zone}");
    }
    Ok(())
}
