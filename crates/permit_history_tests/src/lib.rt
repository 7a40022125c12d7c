//! Histories, their texts, and offices that keep them. The tests are in a crate apart from what they call, so that a change of a
//! test proves nothing of it anew.
#![tactic(auto)]

#[cfg(test)]
mod entries;
#[cfg(test)]
mod opening;
mod recorded;
#[cfg(test)]
mod replay;
#[cfg(test)]
mod scenarios;
