//! What the text of a history says of a store's tables.
//!
//! The text is a write-ahead log: a command's line is appended and synced before the command is committed, so a store has the
//! tables of the whole text or of a prefix of it. `find_place` says of which, and `difference` at which place the store's tables and
//! the text's differ first. `bring` redoes the rest on the store, by commits of many lines.

pub mod bringing;
pub mod differing;
pub mod fault;
pub mod placing;
mod redoing;
