//! The worked rows in offices over vectors and over a database alike, and the store over SQLite through its public calls.
#![tactic(auto)]

#[cfg(test)]
mod batches;
#[cfg(test)]
mod calls;
#[cfg(test)]
mod changes;
#[cfg(test)]
mod damage;
#[cfg(test)]
mod database;
#[cfg(test)]
mod examples;
#[cfg(test)]
mod opening;
#[cfg(test)]
mod renewing;
#[cfg(test)]
mod reopening;
#[cfg(test)]
mod rows;
#[cfg(test)]
mod several;
#[cfg(test)]
mod upgrading;
