//! Why a policy's text is refused, in words.
//!
//! `policy_reason` says in one line what is wrong at the place of a `PolicyError`: the rule with its name, the key, the
//! word, and what would be taken there.
#![tactic(auto)]

mod entry;
mod key;
mod lists;
mod reason;
mod shape;
mod shown;

pub use crate::reason::policy_reason;
