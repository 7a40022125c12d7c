//! What the crates of tests share: values, the offices of the scenarios, and the scenarios themselves, each a script of
//! requests with what is wanted of their answers, which is played in an office over any store.
#![tactic(auto)]

pub mod ask;
pub mod each_change;
pub mod exchange;
pub mod filing;
pub mod found;
pub mod held;
pub mod limits;
mod listings;
pub mod makers;
pub mod offices;
pub mod opening;
mod plans;
pub mod scenarios;
pub mod script;
pub mod standard;
pub mod tables;
mod unknown_and_missing;
pub mod upgrade;
mod work;
