//! The text of a history: one line an entry, oldest first, as docs/HISTORY.md describes it.
//!
//! A line is compact JSON with its keys in byte order, and each entry has one line. What is read is, byte for byte, what
//! writing gives. A token is never written in it: its digest is.
#![tactic(auto)]

pub mod entry;
pub mod evidence;
pub mod examples;
pub mod fault;
mod fields;
pub mod laws;
mod member;
mod read;
mod settled;
pub mod text;
mod within;
mod write;

pub use evidence::{Evidence, digest_of_hash, digest_of_lines, evidence_of, verify};
pub use read::{LONGEST_LINE, read_line};
pub use settled::settled_length;
pub use text::next_entry;
pub use write::write_line;
