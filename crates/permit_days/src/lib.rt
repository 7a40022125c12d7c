//! Civil days: the day of an instant in a zone, and days as dates in text.
#![tactic(auto)]

pub mod dates;
pub mod instants;
