//! Texts of histories that are replayed, and lines that are no next entry, written here by hand.

#[cfg(test)]
mod begun;
#[cfg(test)]
mod examples;
#[cfg(test)]
mod life;
#[cfg(test)]
mod refused;
#[cfg(test)]
mod replayed;
#[cfg(test)]
mod told;
