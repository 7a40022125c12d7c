//! The scenarios that are written out, played in an office over vectors, in one over a database, and in one over a database
//! with its tables in memory.

use crate::database::{over_database, over_memory_too};
use permit_office::office::Office;
use permit_samples::held::Held;
use permit_samples::offices::{over_vectors, under};
use permit_samples::opening::OPENING;
use permit_samples::scenarios::{self, UnderPolicy};
use permit_samples::script::{agree, play};
use permit_store::store::Store;
use std::alloc::Global;
use std::test::Fail;

/// Plays the opening and scripts, and gives the bodies of the scripts' answers.
fn played_first<S: Store + Drop>(
    alloc: Global,
    office: &mut Office<S>,
    scripts: &[&str],
) -> Result<String, Fail> {
    play(alloc, office, OPENING)?;
    let mut bodies = String::new(alloc);
    for script in scripts {
        bodies.push_str(play(alloc, office, script)?.as_str())?;
    }
    Ok(bodies)
}

/// Plays one more script under another policy, if there is one, and gives the bodies of the answers.
fn played_last<S: Store + Drop>(
    alloc: Global,
    office: Office<S>,
    last: Option<&UnderPolicy>,
) -> Result<String, Fail> {
    let Some(row) = last else {
        drop(office);
        return Ok(String::new(alloc));
    };
    let office = &mut Held::new(under(alloc, office, row.policy)?).value;
    play(alloc, office, row.last)
}

/// Plays all, and gives the bodies of the answers. Fails where an answer isn't what is wanted.
fn played<S: Store + Drop>(
    alloc: Global,
    office: Office<S>,
    scripts: &[&str],
    last: Option<&UnderPolicy>,
) -> Result<String, Fail> {
    let mut office = Held::new(office);
    let mut bodies = played_first(alloc, &mut office.value, scripts)?;
    bodies.push_str(played_last(alloc, office.into_inner(), last)?.as_str())?;
    Ok(bodies)
}

/// Fails where an answer to the scripts isn't what is wanted, and where the offices' bodies differ.
fn hold(alloc: Global, scripts: &[&str], last: Option<&UnderPolicy>) -> Result<(), Fail> {
    let served = played(alloc, over_vectors(alloc)?, scripts, last)?;
    let kept = played(alloc, over_database(alloc)?, scripts, last)?;
    agree(alloc, served.as_str(), kept.as_str())?;
    let read = played(alloc, over_memory_too(alloc)?, scripts, last)?;
    agree(alloc, served.as_str(), read.as_str())
}

#[test]
fn each_scenario_holds(rt: HostRuntime) -> Result<(), Fail> {
    let alloc = rt.alloc();
    for rows in [
        scenarios::filings(),
        scenarios::applications(),
        scenarios::inspections(),
        scenarios::orders(),
        scenarios::certificates(),
        scenarios::listings(),
    ] {
        for scripts in rows {
            hold(alloc, scripts, None)?;
        }
    }
    hold(alloc, &[scenarios::limits_of_text(alloc)?.as_str()], None)?;
    for row in scenarios::other_policies() {
        hold(alloc, row.scripts, Some(row))?;
    }
    Ok(())
}
