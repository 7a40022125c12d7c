//! The file in which the text of a history is kept, one line an entry, as docs/HISTORY.md describes it.
//!
//! `file::HistoryFile` is what any such file promises, and what a crash leaves of it; `disk_file::DiskFile` keeps one on a disk.
//! `journal::Journal` enters lines into a file, each whole and on the disk, or not at all, and takes the last one back. What a line
//! says is no matter here.
#![tactic(auto)]

pub mod disk_file;
pub mod file;
pub mod journal;
