//! A file's life and its listings, under the standard policy, over two disks of which one fails at some of its calls in
//! turn. Reads are answered as the program answers them: from memory, and listings by relations from the database.
//!
//! A life makes some 200 calls of the log and 110 of the file, and is played once for each call that fails. So only some do.

use crate::commands::Begin;
use crate::disk_calls::{Play, Reads};
use crate::disks::Fault;
use crate::trials::outlasts_every;
use permit_samples::scenarios::{Scenario, certificates, listings};
use std::test::Fail;

/// Every so many-th call fails, each in a run of its own. A prime number, so that they are spread over the calls of a commit.
const EVERY: u64 = 7;

/// Plays the scenario of a place among these, with a fault at every so many-th call of one of the files in turn.
fn hold(
    rt: &(impl Print + AllocGlobal),
    scenarios: &[Scenario],
    place: usize,
    fault: Fault,
    is_in_log: bool,
) -> Result<(), Fail> {
    let scenario = *scenarios.get(place).ok_or("a scenario")?;
    let play = Play::new(rt.alloc(), Begin::Opened, scenario, Reads::FromMemory)?;
    outlasts_every(rt, &play, fault, is_in_log, EVERY)
}

/// A construction to its certificate.
fn hold_life(rt: &(impl Print + AllocGlobal), fault: Fault, is_in_log: bool) -> Result<(), Fail> {
    hold(rt, certificates(), 0, fault, is_in_log)
}

/// Three files, and who lists which of them.
fn hold_listings(
    rt: &(impl Print + AllocGlobal),
    fault: Fault,
    is_in_log: bool,
) -> Result<(), Fail> {
    hold(rt, listings(), 1, fault, is_in_log)
}

#[test]
fn a_life_outlasts_a_log_that_fails(rt: HostRuntime) -> Result<(), Fail> {
    hold_life(&rt, Fault::Lasting, true)
}

#[test]
fn a_life_outlasts_a_call_of_the_log_that_fails(rt: HostRuntime) -> Result<(), Fail> {
    hold_life(&rt, Fault::Single, true)
}

#[test]
fn a_life_outlasts_a_call_of_the_file_that_fails(rt: HostRuntime) -> Result<(), Fail> {
    hold_life(&rt, Fault::Single, false)
}

#[test]
fn a_life_outlasts_a_power_cut_at_the_log(rt: HostRuntime) -> Result<(), Fail> {
    hold_life(&rt, Fault::Cut, true)
}

#[test]
fn listings_outlast_a_call_of_the_log_that_fails(rt: HostRuntime) -> Result<(), Fail> {
    hold_listings(&rt, Fault::Single, true)
}

#[test]
fn listings_outlast_a_call_of_the_file_that_fails(rt: HostRuntime) -> Result<(), Fail> {
    hold_listings(&rt, Fault::Single, false)
}
