//! Commands, and what they are answered and leave where nothing fails.

use permit_office::office::Office;
use permit_samples::ask::read_ask;
use permit_samples::exchange::asked;
use permit_samples::held::Held;
use permit_samples::offices::{over_vectors, under};
use permit_samples::opening::OPENING;
use permit_samples::scenarios::Scenario;
use permit_samples::script::{play, play_all, requests_of};
use permit_samples::standard::POLICY;
use permit_samples::tables::tables_text;
use permit_samples::upgrade::BEFORE;
use permit_store::plain::PlainStore;
use permit_store::store::Store;
use std::alloc::Global;
use std::test::Fail;

/// A policy under which each command is allowed. It is read faster than the standard one.
const ANY: &str = "[[rule]]\nname = \"any\"\neffect = \"allow\"\n";

/// What the requests come after, and under which policy.
#[derive(Clone, Copy)]
pub(crate) enum Begin {
    /// After the founding, each command allowed.
    New,
    /// After a construction whose frame is approved, each command allowed.
    Framed,
    /// After the opening of the scenarios, under the standard policy.
    Opened,
}

impl Begin {
    /// The policy's text.
    pub(crate) fn policy(self) -> &'static str {
        match self {
            Begin::New | Begin::Framed => ANY,
            Begin::Opened => POLICY,
        }
    }
}

/// The answers to commands, and the tables after them.
pub(crate) struct Behind {
    pub(crate) answers: String,
    pub(crate) tables: String,
}

// It is written out, so that who owns one doesn't prove again how each part ends.
impl Drop for Behind {
    fn drop(self) {
        let Behind {
            answers: _,
            tables: _,
        } = self;
    }
}

impl Behind {
    pub(crate) fn into_tables(self) -> String {
        let Behind { answers: _, tables } = self;
        tables
    }

    fn copy(&self, alloc: Global) -> Result<Behind, Fail> {
        Ok(Behind {
            answers: String::from_str(alloc, self.answers.as_str())?,
            tables: String::from_str(alloc, self.tables.as_str())?,
        })
    }
}

/// The commands of a script.
#[derive(Drop)]
pub(crate) struct Commands {
    pub(crate) begin: Begin,
    pub(crate) requests: Vec<&'static str>,
    /// The answers and tables after none of them, after the first, after the first two, and so on.
    behind: Vec<Behind>,
}

/// Plays what comes before the requests.
pub(crate) fn play_before<S: Store + Drop>(
    alloc: Global,
    office: &mut Office<S>,
    begin: Begin,
) -> Result<(), Fail> {
    match begin {
        Begin::New => Ok(()),
        Begin::Framed => {
            play(alloc, office, OPENING)?;
            play_all(alloc, office, BEFORE)
        }
        Begin::Opened => {
            play(alloc, office, OPENING)?;
            Ok(())
        }
    }
}

/// An office over vectors, in which nothing fails.
fn begun(alloc: Global, begin: Begin) -> Result<Office<PlainStore>, Fail> {
    let mut office = Held::new(under(alloc, over_vectors(alloc)?, begin.policy())?);
    play_before(alloc, &mut office.value, begin)?;
    Ok(office.into_inner())
}

/// The answers to these requests.
fn answers_to(
    alloc: Global,
    office: &mut Office<PlainStore>,
    lines: &[&str],
) -> Result<String, Fail> {
    let mut answers = String::new(alloc);
    for line in lines {
        answers.push_str(asked(alloc, office, &read_ask(line)?)?.as_str())?;
    }
    Ok(answers)
}

/// The tables of an office.
fn tables_of(alloc: Global, office: Office<PlainStore>) -> Result<String, Fail> {
    let store = &mut Held::new(office.into_store()).value;
    tables_text(alloc, store)
}

/// The answers and tables after these requests.
fn behind_of(alloc: Global, begin: Begin, lines: &[&str]) -> Result<Behind, Fail> {
    let mut office = Held::new(begun(alloc, begin)?);
    let answers = answers_to(alloc, &mut office.value, lines)?;
    let tables = tables_of(alloc, office.into_inner())?;
    Ok(Behind { answers, tables })
}

/// The answers and tables after none of these requests, after the first, after the first two, and so on.
fn behind_each(
    alloc: Global,
    begin: Begin,
    requests: &[&'static str],
) -> Result<Vec<Behind>, Fail> {
    let mut lines = Vec::new(alloc);
    let mut behind = Vec::new(alloc);
    behind.push(behind_of(alloc, begin, lines.as_slice())?)?;
    for line in requests {
        lines.push(*line)?;
        behind.push(behind_of(alloc, begin, lines.as_slice())?)?;
    }
    Ok(behind)
}

/// Whether the numbers are 0, 1, 2 and so on.
fn are_first(numbers: &[usize]) -> bool {
    for (place, number) in numbers.iter().enumerate() {
        if *number != place {
            return false;
        }
    }
    true
}

impl Commands {
    /// The requests of a scenario that follow this start. Fails where they aren't answered as their scripts want.
    pub(crate) fn new(alloc: Global, begin: Begin, scenario: Scenario) -> Result<Commands, Fail> {
        play_all(alloc, &mut Held::new(begun(alloc, begin)?).value, scenario)?;
        let requests = requests_of(alloc, scenario)?;
        let behind = behind_each(alloc, begin, requests.as_slice())?;
        Ok(Commands {
            begin,
            requests,
            behind,
        })
    }

    /// The answers and tables after the commands of these numbers.
    pub(crate) fn behind(&self, alloc: Global, numbers: &[usize]) -> Result<Behind, Fail> {
        if are_first(numbers) {
            return self
                .behind
                .get(numbers.len())
                .ok_or("commands")?
                .copy(alloc);
        }
        let mut lines = Vec::new(alloc);
        for number in numbers {
            lines.push(*self.requests.get(*number).ok_or("a command")?)?;
        }
        behind_of(alloc, self.begin, lines.as_slice())
    }
}
