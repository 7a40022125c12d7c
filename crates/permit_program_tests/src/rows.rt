//! The rows that are written out, by the program on a file.

use crate::program::Program;
use permit_office::office::Office;
use permit_samples::offices::{over_vectors, under};
use permit_samples::opening::OPENING;
use permit_samples::scenarios::{self, Scenario, UnderPolicy};
use permit_samples::script::{agree, play};
use permit_store::plain::PlainStore;
use std::sync::Wait;
use std::test::Fail;
use std::thread::Threads;
use std::{env, fs, process};

/// One office kept twice: over vectors, and by the program on a file.
#[derive(Drop)]
struct Offices {
    vectors: Office<PlainStore>,
    program: Program,
}

impl Offices {
    /// The offices after the opening; the program's files are in the folder.
    fn open<R: Threads + Wait + Copy + Drop + Send + 'static>(
        rt: &HostRuntime,
        workers: R,
        folder: &str,
    ) -> Result<Offices, Fail> {
        let mut offices = Offices {
            vectors: over_vectors(rt.alloc())?,
            program: Program::found(rt, workers, folder)?,
        };
        offices.play(rt, workers, OPENING)?;
        Ok(offices)
    }

    /// Plays a script in both. Fails where an answer isn't what is wanted, and where the bodies differ.
    fn play<R: Threads + Wait + Copy + Drop + Send + 'static>(
        &mut self,
        rt: &HostRuntime,
        workers: R,
        script: &str,
    ) -> Result<(), Fail> {
        let served = play(rt.alloc(), &mut self.vectors, script)?;
        let printed = self.program.play(rt, workers, script)?;
        agree(rt.alloc(), served.as_str(), printed.as_str())
    }

    /// The offices with the tables that they have, under another policy.
    fn under(self, rt: &HostRuntime, policy: &str) -> Result<Offices, Fail> {
        let Offices { vectors, program } = self;
        program.follow(rt, policy)?;
        let vectors = under(rt.alloc(), vectors, policy)?;
        Ok(Offices { vectors, program })
    }
}

/// Plays scripts after the opening, and then one more under another policy, if there is one.
fn play_in<R: Threads + Wait + Copy + Drop + Send + 'static>(
    rt: &HostRuntime,
    workers: R,
    folder: &str,
    scripts: &[&str],
    last: Option<&UnderPolicy>,
) -> Result<(), Fail> {
    let mut offices = Offices::open(rt, workers, folder)?;
    for script in scripts {
        offices.play(rt, workers, script)?;
    }
    match last {
        Some(row) => offices.under(rt, row.policy)?.play(rt, workers, row.last),
        None => Ok(()),
    }
}

/// A new folder among the temporary ones.
fn new_folder(rt: &HostRuntime) -> Result<String, Fail> {
    let place = env::temp_dir(rt)?;
    let place = place.as_str();
    let id = process::id(rt.process());
    let folder = format!(in rt.alloc(); "{place}/permit_program_tests-{id}")?;
    fs::create_dir(rt, folder.as_str())?;
    Ok(folder)
}

/// The same, with the program's files in a folder that is removed afterwards.
fn hold<R: Threads + Wait + Copy + Drop + Send + 'static>(
    rt: &HostRuntime,
    workers: R,
    scripts: &[&str],
    last: Option<&UnderPolicy>,
) -> Result<(), Fail> {
    let folder = new_folder(rt)?;
    let outcome = play_in(rt, workers, folder.as_str(), scripts, last);
    let removed = fs::remove_dir_all(rt, folder.as_str());
    outcome?;
    Ok(removed?)
}

/// The same for each row alone.
fn hold_each<R: Threads + Wait + Copy + Drop + Send + 'static>(
    rt: &HostRuntime,
    workers: R,
    rows: &[Scenario],
) -> Result<(), Fail> {
    for scripts in rows {
        hold(rt, workers, scripts, None)?;
    }
    Ok(())
}

#[test]
fn filings(rt: HostRuntime) -> Result<(), Fail> {
    hold_each(&rt, rt, scenarios::filings())
}

#[test]
fn applications(rt: HostRuntime) -> Result<(), Fail> {
    hold_each(&rt, rt, scenarios::applications())
}

#[test]
fn inspections(rt: HostRuntime) -> Result<(), Fail> {
    hold_each(&rt, rt, scenarios::inspections())
}

#[test]
fn orders(rt: HostRuntime) -> Result<(), Fail> {
    hold_each(&rt, rt, scenarios::orders())
}

#[test]
fn certificates(rt: HostRuntime) -> Result<(), Fail> {
    hold_each(&rt, rt, scenarios::certificates())
}

#[test]
fn limits_of_text(rt: HostRuntime) -> Result<(), Fail> {
    let script = scenarios::limits_of_text(rt.alloc())?;
    hold(&rt, rt, &[script.as_str()], None)
}

#[test]
fn listings(rt: HostRuntime) -> Result<(), Fail> {
    hold_each(&rt, rt, scenarios::listings())
}

#[test]
fn other_policies(rt: HostRuntime) -> Result<(), Fail> {
    for row in scenarios::other_policies() {
        hold(&rt, rt, row.scripts, Some(row))?;
    }
    Ok(())
}
