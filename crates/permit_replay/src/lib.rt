//! Replay: from the text of a history to its tables, and the comparison of those with a store's.
//!
//! An entry is taken where the entries with it are a history, whatever a policy says, and then the tables are
//! that history's. `replay` does so with a whole text, `Replayed` with one entry at a time. A text founds its office, or begins
//! with one that was there already, of whose tables a copy is given (`Beginning`). `alike` compares two stores row by row,
//! `seal` has the SHA-256 of a store's tables, and `opening` says what a text has of a store.
#![tactic(auto)]

pub mod alike;
pub mod beginning;
pub mod fault;
pub mod following;
pub mod laws;
mod line;
pub mod opening;
mod recorded;
pub mod replayed;
pub mod seal;
mod text;

pub use text::replay;
