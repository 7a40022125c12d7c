//! From a request's method, path, token and body to what is asked of the office.
#![tactic(auto)]

pub mod bearer;
mod commands;
mod document;
pub mod fault;
pub mod laws;
mod parts;
mod requests;
pub mod routing;

pub use parts::id;
