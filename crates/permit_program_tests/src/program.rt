//! The program on files.

use crate::run::run;
use permit_days::dates::date_text;
use permit_samples::ask::{Ask, TOKENS, read_ask};
use permit_samples::standard::POLICY;
use std::fs;
use std::sync::Wait;
use std::test::Fail;
use std::thread::Threads;

/// The files that the program opens.
#[derive(Drop)]
pub struct Program {
    database: String,
    policy: String,
}

/// Has the program found the office in a database, on the day of the founding.
fn init<'x, R: Threads + Wait + Copy + Drop + Send + 'static>(
    rt: &HostRuntime,
    workers: R,
    database: &'x str,
) -> Result<(), Fail> {
    let token: &'x str = TOKENS[0];
    let words = [
        "init",
        "--db",
        database,
        "--name",
        "Chief",
        "--token",
        token,
        "--day",
        "2023-12-09",
    ];
    match run(rt, workers, &words)? {
        (0, out, _) if out.as_str() == "party 1\n" => Ok(()),
        _ => Err(Fail::new("the program founds no office")),
    }
}

/// What the program prints for one request on a date: the answer's body, and a line end.
fn act<'x, R: Threads + Wait + Copy + Drop + Send + 'static>(
    rt: &HostRuntime,
    workers: R,
    database: &'x str,
    policy: &'x str,
    ask: Ask<'x>,
    date: &'x str,
) -> Result<String, Fail> {
    let words = [
        "act", ask.method, ask.path, ask.body, "--db", database, "--policy", policy, "--token",
        ask.token, "--day", date,
    ];
    let (_, out, _) = run(rt, workers, &words)?;
    Ok(out)
}

impl Program {
    /// The program with its files in a folder, after the founding.
    pub fn found<R: Threads + Wait + Copy + Drop + Send + 'static>(
        rt: &HostRuntime,
        workers: R,
        folder: &str,
    ) -> Result<Program, Fail> {
        let program = Program {
            database: format!(in rt.alloc(); "{folder}/office.db")?,
            policy: format!(in rt.alloc(); "{folder}/policy.toml")?,
        };
        program.follow(rt, POLICY)?;
        init(rt, workers, program.database.as_str())?;
        Ok(program)
    }

    /// Puts a policy in place of the one that the program reads.
    pub fn follow(&self, rt: &HostRuntime, policy: &str) -> Result<(), Fail> {
        Ok(fs::write(rt, self.policy.as_str(), policy)?)
    }

    /// What the program prints for one request.
    fn answer<R: Threads + Wait + Copy + Drop + Send + 'static>(
        &self,
        rt: &HostRuntime,
        workers: R,
        ask: &Ask<'_>,
    ) -> Result<String, Fail> {
        let date = date_text(rt.alloc(), ask.day)?;
        let (database, policy) = (self.database.as_str(), self.policy.as_str());
        act(rt, workers, database, policy, *ask, date.as_str())
    }

    /// What the program prints for the requests of a script: the answers' bodies, each with a line end.
    pub fn play<R: Threads + Wait + Copy + Drop + Send + 'static>(
        &self,
        rt: &HostRuntime,
        workers: R,
        script: &str,
    ) -> Result<String, Fail> {
        let mut bodies = String::new(rt.alloc());
        for line in script.lines() {
            if let Some(request) = line.strip_prefix("> ") {
                bodies.push_str(self.answer(rt, workers, &read_ask(request)?)?.as_str())?;
            }
        }
        Ok(bodies)
    }
}
