//! Tables that no call of a store distinguishes, and the comparison of two stores, row by row.

pub mod compare;
pub mod differing;
pub(crate) mod rows;
pub mod unordered;
