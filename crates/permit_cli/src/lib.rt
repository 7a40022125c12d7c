//! The program `permit`: `program` does what a plan asks, and `telling` prints what it came to.
//!
//! `database` opens the database that a plan names, or a copy in memory where it is only read, and has `permit_database` do the work
//! on it; `checks`, `entries` and `replaying` are such work. `history` opens the file of a history and `reading` reads it, `keeping` looks for
//! one that isn't named, `policies` reads a policy, and `listening` tests an address. `explaining` prints why a plan failed, where that is asked for: `standing` looks at the tables of a database, and
//! `reason` has the lines. `complaining` prints the line of a failure. `stream` is where all of it is printed.
//!
//! Its public calls are here, those of the crates below among them: `plan` reads the words of a command line to one of
//! `plans`, `import` the records of a parcel list, and `run_words` is the program but for its streams.
#![tactic(auto)]

mod checks;
mod complaining;
mod database;
mod entries;
mod explaining;
mod history;
mod keeping;
mod listening;
mod policies;
pub mod program;
mod reading;
mod reason;
mod replaying;
mod standing;
pub mod stream;
mod telling;

pub use permit_args::plan as plans;
pub use permit_args::plan::PlanFault;
pub use permit_args::words::plan;
pub use permit_import::fault::ImportFault;
pub use permit_import::importing::import;
pub use permit_import::tally::Tally;
pub use program::run_words;
