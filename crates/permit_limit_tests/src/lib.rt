//! The greatest counts of records that there can be, over vectors.
#![tactic(auto)]

#[cfg(test)]
mod limits;
