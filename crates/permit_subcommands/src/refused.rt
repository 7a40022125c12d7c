//! Refusals. The line that is printed for one is the one that an import prints too.

pub use permit_import::refused::{RefusalWord, Refused};
