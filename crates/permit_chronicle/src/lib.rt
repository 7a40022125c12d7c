//! The text of a history for people: a line for each entry that is wanted, with the day, who it was, what was done and about what.
//!
//! `tell` reads the text that `permit_history` describes, one line at a time, and writes these lines. It tests no entry beside
//! the others; `permit_replay` does.
#![tactic(auto)]

mod evidence;
mod fault;
mod line;
mod roles;
mod telling;
pub mod wanted;

pub use evidence::{evidence_text, lacks_text, verified_text};
pub use fault::ChronicleFault;
pub use telling::tell;
