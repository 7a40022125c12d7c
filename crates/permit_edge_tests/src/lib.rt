//! What reads a command line, what its subcommands do with an office over vectors, and why a policy is refused, through
//! their public calls.
#![tactic(auto)]

#[cfg(test)]
mod asking;
#[cfg(test)]
mod examples;
#[cfg(test)]
mod failures;
#[cfg(test)]
mod histories;
#[cfg(test)]
mod policies;
#[cfg(test)]
mod registers;
