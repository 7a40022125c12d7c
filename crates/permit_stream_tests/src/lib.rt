//! What reads and writes streams, through its public calls: messages, answers, serving on a connection, registers, parcel
//! lists and the hall. They are in a crate apart from the other calls, so that neither crate is the last that the gate waits for.
#![tactic(auto)]

#[cfg(test)]
mod answers;
#[cfg(test)]
mod calendar;
#[cfg(test)]
mod examples;
#[cfg(test)]
mod hall;
#[cfg(test)]
mod hall_commands;
#[cfg(test)]
mod hall_streams;
#[cfg(test)]
mod imports;
#[cfg(test)]
mod memory_doors;
#[cfg(test)]
mod messages;
#[cfg(test)]
mod registers;
#[cfg(test)]
mod streams;
#[cfg(test)]
mod wire;
