//! The history of an office: each command's line is in the history's file, and on the disk, before the command is done.
//!
//! `log::HistoryLog` is the log of an office with a history, and the laws say what such an office leaves of it. `resuming` brings a
//! store to its history after a crash.
#![tactic(auto)]

mod copied;
pub mod laws;
mod line;
pub mod log;
pub mod resuming;
