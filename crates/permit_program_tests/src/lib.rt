//! The program through its public calls: the worked rows by `act` on a file, what it prints for its words, and what it serves
//! over TCP.
#![tactic(auto)]

#[cfg(test)]
mod examples;
#[cfg(test)]
mod histories;
#[cfg(test)]
mod listings;
#[cfg(test)]
mod program;
#[cfg(test)]
mod reasons;
#[cfg(test)]
mod renewals;
#[cfg(test)]
mod rows;
#[cfg(test)]
mod run;
#[cfg(test)]
mod serving;
#[cfg(test)]
mod session;
#[cfg(test)]
mod words;
