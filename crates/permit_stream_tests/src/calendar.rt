//! The days that the clock of a hall gives.

use permit_base::values::Day;
use permit_samples::makers::day;
use std::test::Fail;

/// One day for so many requests, and another for all later ones.
#[derive(Clone, Copy)]
pub struct Calendar {
    requests: u32,
    on: Day,
    then: Day,
}

impl Calendar {
    /// The day of the next request.
    pub fn next(&mut self) -> Day {
        if self.requests == 0 {
            return self.then;
        }
        self.requests -= 1;
        self.on
    }
}

/// The same day for all requests.
pub fn always(number: u32) -> Result<Calendar, Fail> {
    let on = day(number)?;
    Ok(Calendar {
        requests: 0,
        on,
        then: on,
    })
}

/// The day for so many requests, and the day after it for all later ones.
pub fn midnight_after(requests: u32, number: u32) -> Result<Calendar, Fail> {
    Ok(Calendar {
        requests,
        on: day(number)?,
        then: day(number.wrapping_add(1))?,
    })
}
