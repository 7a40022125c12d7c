//! Databases over disks in memory that fail, or lose what was not synced, at each of their calls in turn.
#![tactic(auto)]

#[cfg(test)]
mod commands;
#[cfg(test)]
mod disk_calls;
#[cfg(test)]
mod disk_lives;
#[cfg(test)]
mod disk_upgrade;
#[cfg(test)]
mod disks;
#[cfg(test)]
mod trials;
