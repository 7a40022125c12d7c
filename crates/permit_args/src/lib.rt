//! What the words of the program's command line ask for, and all of its answers that need no office.
//!
//! `words` reads the words of a command line to a plan: `commands` declares the subcommands to the command line library,
//! `subcommands` and `found` are what each finds in the values that the library read, and `places` says what is wrong with
//! a value. `facts` and `checking` are what `check-policy` reads and says of a policy.
#![tactic(auto)]

pub mod checking;
mod commands;
pub mod facts;
mod found;
mod places;
pub mod plan;
mod subcommands;
pub mod words;
