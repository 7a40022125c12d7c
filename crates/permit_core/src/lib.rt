//! A file's state: what it is on a day, to whom, what is admitted on it and what that makes of it.
//!
//! Each call says what it answers on the row that the tables keep, and that this is what the whole list of accepted
//! commands means, for every history whose row it is. None of the calls on a state takes memory.
#![tactic(auto)]

pub mod admit;
pub mod apply;
pub mod paper;
pub mod people;
pub mod restore;
pub mod row;
pub mod shared;
pub mod state;
pub mod steps;
pub mod taker;
