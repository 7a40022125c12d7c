//! Values by their numbers and texts, and entries of them.

use permit_base::request::Command;
use permit_base::values::{Day, Days, Digest, PaperNumber};
use permit_history::entry::{Act, Deed, Entry};
use permit_samples::makers::{file, party};
use std::test::Fail;

/// The digest of the token of the letters from a to z.
pub const DIGEST: &str = "71c480df93d6ae2f1efad1447c66c9525e316218cf51fc8d9ed832f2daf18b73";

/// A paper's number.
pub fn paper(number: u32) -> Result<PaperNumber, Fail> {
    Ok(PaperNumber::new(number).ok_or("a paper")?)
}

/// A count of days.
pub fn days(number: u32) -> Result<Days, Fail> {
    Ok(Days::new(number).ok_or("days")?)
}

/// A digest.
pub fn digest() -> Result<Digest, Fail> {
    Ok(Digest::read(DIGEST).ok_or("a digest")?)
}

/// What was done on the day.
pub fn entry(day: u32, deed: Deed) -> Result<Entry, Fail> {
    let day = Day::new(day).ok_or("a day")?;
    Ok(Entry { day, deed })
}

/// An accepted command of the caller on the day.
pub fn accepted(caller: u32, day: u32, act: Act) -> Result<Entry, Fail> {
    let caller = party(caller)?;
    entry(day, Deed::Accepted { caller, act })
}

/// An accepted command of party 4 on file 1 on day 19901, with the number of its paper or 0.
pub fn on_file(command: Command, number: u32) -> Result<Entry, Fail> {
    accepted(
        4,
        19901,
        Act::OnFile {
            file: file(1)?,
            command,
            number: PaperNumber::new(number),
        },
    )
}
