//! The crates below the edges through their public calls: that each call succeeds with ample memory, and what no
//! clause says. They are in a crate apart from what they call, so that a change of a test proves nothing of it anew.
#![tactic(auto)]

#[cfg(test)]
mod base;
#[cfg(test)]
mod dates;
#[cfg(test)]
mod examples;
#[cfg(test)]
mod files;
#[cfg(test)]
mod interests;
#[cfg(test)]
mod listings;
#[cfg(test)]
mod offices;
#[cfg(test)]
mod policies;
#[cfg(test)]
mod reports;
#[cfg(test)]
mod routes;
#[cfg(test)]
mod selections;
#[cfg(test)]
mod stores;
