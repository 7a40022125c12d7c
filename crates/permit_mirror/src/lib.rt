//! A store that reads from memory, beside the store that keeps its tables.
#![tactic(auto)]

mod covering;
mod filling;
mod index;
pub mod indexed;
pub mod load;
pub mod mirrored;
mod pairs;
mod search;
