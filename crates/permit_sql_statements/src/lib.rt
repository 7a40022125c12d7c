//! The statements of the office's database: the reads of its tables, each change of them in one transaction, and
//! what makes them in an empty database. A change is first written down (`step::Step`) and then run, alone or with many others.
//!
//! A connection that a failure shut shows nothing, so each statement is of an open one, and each is of a disk that
//! has so far given back what was written (`HasCleanDisk` of the connection after the call).
#![tactic(auto)]

pub mod commit;
pub mod create;
pub mod idle;
pub mod lending;
pub mod query;
pub mod read;
pub mod renew;
mod runs;
pub mod select;
mod statements;
pub mod step;
pub mod texts;
