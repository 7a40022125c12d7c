//! The registers' texts: a header, a line for each file, a foot.
//!
//! Lines and dates are made in place, so a register takes no memory, and it is written one line at a time.
#![tactic(auto)]

mod column;
mod date;
mod error;
pub mod laws;
mod line;
mod lines;
mod writer;

pub use error::ReportError;
pub use writer::{RegisterWriter, register, write_whole};
