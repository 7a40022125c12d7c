//! An office with a history over vectors, files of a history that fail or stop, and journals over files in memory and on a disk.

#[cfg(test)]
mod database;
#[cfg(test)]
mod examples;
mod failing;
#[cfg(test)]
mod in_memory;
mod memory;
#[cfg(test)]
mod on_disk;
#[cfg(test)]
mod resumed;
#[cfg(test)]
mod served;
mod stopping;
