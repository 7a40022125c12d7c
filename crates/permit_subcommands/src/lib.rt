//! What the program's subcommands do with an office, over any store, reader and writer.
//!
//! `founding`, `request` and `answering` are what `init` and `act` do, and `listing` what `list` and `register` do. `token` is
//! the text of the token that their words name.
//! `days` is the day that a run counts, by the readings of a `clock`; `lines` and `printing` are what is printed of what was
//! done, `failure` has the lines and statuses of all that can go wrong, and `explaining` what is taken in place of words that are
//! refused.
#![tactic(auto)]

pub mod answering;
pub mod clock;
pub mod days;
pub mod explaining;
pub mod failure;
pub mod founding;
pub mod lines;
pub mod listing;
pub mod printing;
pub mod refused;
pub mod request;
pub mod token;
