//! Importing parcel lists: text of comma-separated records, each of which asks for one new parcel.
//!
//! `importing::import_by` reads the records one at a time, has a service add the parcel of each, and writes a line for
//! each and one with the counts, and to another writer why records are refused. `importing::import` does so for an office.
//! `heading` says what a first record is that isn't that of a parcel list, `records` reads, `requests` says what a record
//! asks for, `outcome` what became of it, `why` says what is wrong with a record that is refused, and `refused` has the line
//! of a refusal, which the whole program shares.
#![tactic(auto)]

mod adding;
pub mod fault;
pub mod heading;
pub mod importing;
pub mod outcome;
mod records;
pub mod refused;
mod requests;
pub mod tally;
pub mod why;
mod writing;
