//! The scenarios, each recorded and replayed.

use crate::scenarios::telling::{Told, founded, serve_script};
use permit_replay::beginning::Beginning;
use permit_replay::replay;
use permit_samples::opening::OPENING;
use permit_samples::scenarios::{
    Scenario, applications, certificates, far_deadline, filings, inspections, limits_of_text,
    listings, orders,
};
use permit_samples::script::agree;
use permit_samples::tables::tables_text;
use std::alloc::Global;
use std::test::*;

/// The tables that a text leaves, as text.
fn tables_of(alloc: Global, text: &[u8]) -> Result<String, Fail> {
    let mut source = text;
    match replay(alloc, Beginning::Founding, &mut source) {
        Ok(mut store) => tables_text(alloc, &mut store),
        Err(_) => Err("the text is not replayed".into()),
    }
}

/// Fails where the tables of the text aren't those of the office, or nobody but the founder is in them.
fn tells_its_tables(alloc: Global, told: Told) -> Result<(), Fail> {
    let Told { office, text } = told;
    let replayed = tables_of(alloc, text.as_slice())?;
    let mut store = office.into_store();
    let served = tables_text(alloc, &mut store)?;
    if !served.contains("party 7 inspector") {
        return Err("the opening is not served".into());
    }
    agree(alloc, served.as_str(), replayed.as_str())
}

/// Plays each scenario in an office of its own, and replays it.
fn told_and_replayed(alloc: Global, scenarios: &[Scenario]) -> Result<(), Fail> {
    for scenario in scenarios {
        let mut told = founded(alloc)?;
        serve_script(alloc, &mut told, OPENING)?;
        for script in *scenario {
            serve_script(alloc, &mut told, script)?;
        }
        tells_its_tables(alloc, told)?;
    }
    Ok(())
}

#[test]
fn filings_are_told(rt: HostRuntime) -> Result<(), Fail> {
    told_and_replayed(rt.alloc(), filings())
}

#[test]
fn applications_are_told(rt: HostRuntime) -> Result<(), Fail> {
    told_and_replayed(rt.alloc(), applications())
}

#[test]
fn inspections_are_told(rt: HostRuntime) -> Result<(), Fail> {
    told_and_replayed(rt.alloc(), inspections())
}

#[test]
fn orders_are_told(rt: HostRuntime) -> Result<(), Fail> {
    told_and_replayed(rt.alloc(), orders())
}

#[test]
fn certificates_are_told(rt: HostRuntime) -> Result<(), Fail> {
    told_and_replayed(rt.alloc(), certificates())
}

#[test]
fn listings_are_told(rt: HostRuntime) -> Result<(), Fail> {
    told_and_replayed(rt.alloc(), listings())
}

#[test]
fn scenarios_with_made_scripts_are_told(rt: HostRuntime) -> Result<(), Fail> {
    let alloc = rt.alloc();
    for script in [limits_of_text(alloc)?, far_deadline(alloc)?] {
        let mut told = founded(alloc)?;
        serve_script(alloc, &mut told, OPENING)?;
        serve_script(alloc, &mut told, script.as_str())?;
        tells_its_tables(alloc, told)?;
    }
    Ok(())
}
