//! An office in a database, with or without its history.
//!
//! `work` has what is done with one as a value, and what does it. `founding` founds an office, `maintenance` upgrades and tests its
//! tables, and `asking` asks it a question of `question`. `serving` serves one over TCP, and `renewing` gives a party of one a new
//! token. `outcome` is what comes of it, and `failing` what fails.
//!
//! A history is a text in a file, which is a write-ahead log: `opening::settled_in` redoes on a database what the text has beyond
//! its tables. `copying` begins the history of an office that has none, `comparing` looks for the tables of a database in a
//! text, and `replaying` makes an office of a text, or brings one further.
#![tactic(auto)]

pub mod asking;
pub mod comparing;
pub mod copying;
mod empty;
pub mod failing;
pub mod founding;
pub mod laws;
mod line;
pub mod maintenance;
pub mod opening;
pub mod outcome;
pub mod question;
pub mod renewing;
pub mod replaying;
pub mod serving;
mod shut;
pub mod work;
