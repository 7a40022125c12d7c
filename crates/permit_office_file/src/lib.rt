//! The files of the office's database, on their disk or as copies in memory, so that what they have is opened and nothing of it
//! is written.
#![tactic(auto)]

pub mod copies;
pub mod office_file;
