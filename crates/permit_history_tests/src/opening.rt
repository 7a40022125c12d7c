//! Where tables are in texts that end anywhere in their last lines, texts of which some words are others, and the seals of small
//! offices.

#[cfg(test)]
mod begun;
#[cfg(test)]
mod differing;
#[cfg(test)]
mod examples;
#[cfg(test)]
mod placed;
#[cfg(test)]
mod sealed;
#[cfg(test)]
mod texts;
