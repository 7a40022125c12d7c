//! Commands over two disks of which one fails, at each of its calls in turn: the tables that are found again are those of
//! the commands that were acknowledged, or of these and the one in which the disk failed.

use crate::commands::{Begin, Behind, Commands};
use crate::disks::{Bytes, Fault, Told, Trouble, failing_files, left_by, untold};
use crate::trials::{
    Tried, closed, connected, ended, found, outlasts_each, prepared, stored, tables_in,
};
use permit_mirror::mirrored::Mirrored;
use permit_office::log::NoLog;
use permit_office::office::Office;
use permit_policy::text::read_policy;
use permit_samples::ask::read_ask;
use permit_samples::each_change::{FIRST_CHANGES, LATER_CHANGES};
use permit_samples::exchange::asked;
use permit_samples::held::Held;
use permit_samples::scenarios::Scenario;
use permit_sql::store::SqlStore;
use permit_store::store::Store;
use sqlite::{Alter, Connection};
use sqlite_disk::{Disk, Files};
use std::alloc::Global;
use std::sync::atomic::Ordering;
use std::test::Fail;

/// The end of an answer that refuses for the store.
const REFUSED: &str = "\r\n\r\n{\"refused\":\"store\"}";

/// What a database answered, and the numbers of the commands.
struct Answered {
    acknowledged: Vec<usize>,
    /// Those and, at its place, the one in which the disk failed.
    with_failed: Vec<usize>,
    answers: String,
}

// It is written out, so that who owns one doesn't prove again how each part ends.
impl Drop for Answered {
    fn drop(self) {
        let Answered {
            acknowledged: _,
            with_failed: _,
            answers: _,
        } = self;
    }
}

impl Answered {
    fn new(alloc: Global) -> Answered {
        Answered {
            acknowledged: Vec::new(alloc),
            with_failed: Vec::new(alloc),
            answers: String::new(alloc),
        }
    }

    fn acknowledge(&mut self, number: usize, answer: &str) -> Result<(), Fail> {
        self.acknowledged.push(number)?;
        self.with_failed.push(number)?;
        self.answers.push_str(answer)?;
        Ok(())
    }

    /// Takes the answer to a command. Fails where it is refused for the store and no disk has failed.
    fn take(
        &mut self,
        number: usize,
        answer: &str,
        had_failed: bool,
        told: &Told,
    ) -> Result<(), Fail> {
        if !answer.ends_with(REFUSED) {
            return self.acknowledge(number, answer);
        }
        if !told.load(Ordering::SeqCst) {
            return Err(Fail::new("a command refused without cause"));
        }
        if !had_failed {
            self.with_failed.push(number)?;
        }
        Ok(())
    }
}

/// Serves the commands. Fails where one is refused for the store and no disk has failed.
fn serve_all<S: Store + Drop>(
    alloc: Global,
    office: &mut Office<S>,
    commands: &Commands,
    told: &Told,
) -> Result<Answered, Fail> {
    let mut answered = Answered::new(alloc);
    for (number, line) in commands.requests.iter().enumerate() {
        let had_failed = told.load(Ordering::SeqCst);
        let answer = asked(alloc, office, &read_ask(line)?)?;
        answered.take(number, answer.as_str(), had_failed, told)?;
    }
    Ok(answered)
}

/// Where an office's reads are answered.
#[derive(Clone, Copy)]
pub(crate) enum Reads {
    FromDatabase,
    FromMemory,
}

/// What came of the commands.
#[derive(Drop)]
enum Outcome {
    /// No office was opened.
    Unopened { is_founded: bool },
    Answered(Answered),
}

/// Opens the office over a store, and serves the commands. The store comes back.
fn served<S: Store + Drop>(
    alloc: Global,
    store: S,
    commands: &Commands,
    told: &Told,
) -> Result<(S, Outcome), Fail> {
    let policy = read_policy(alloc, commands.begin.policy())?;
    match Office::open(store, policy, NoLog) {
        Ok(office) => {
            let mut office = Held::new(office);
            let answered = serve_all(alloc, &mut office.value, commands, told)?;
            let store = office.into_inner().into_store();
            Ok((store, Outcome::Answered(answered)))
        }
        Err((store, _, _)) => Ok((store, Outcome::Unopened { is_founded: true })),
    }
}

/// The same over a database, which comes back.
fn served_in<S: Alter + Drop>(
    alloc: Global,
    store: SqlStore<S>,
    reads: Reads,
    commands: &Commands,
    told: &Told,
) -> Result<(Connection<S>, Outcome), Fail> {
    match reads {
        Reads::FromDatabase => {
            let (store, outcome) = served(alloc, store, commands, told)?;
            Ok((store.into_connection(), outcome))
        }
        Reads::FromMemory => match Mirrored::load(alloc, store) {
            Ok(store) => {
                let (store, outcome) = served(alloc, store, commands, told)?;
                Ok((store.into_kept().into_connection(), outcome))
            }
            Err((store, _)) => {
                let outcome = Outcome::Unopened { is_founded: true };
                Ok((store.into_connection(), outcome))
            }
        },
    }
}

/// What may be found when files are opened again.
#[derive(Drop)]
struct Wanted {
    may_be_empty: bool,
    acknowledged: Behind,
    with_failed: Behind,
}

impl Wanted {
    /// Where no office was opened, so that no command was served.
    fn unopened(alloc: Global, commands: &Commands, is_founded: bool) -> Result<Wanted, Fail> {
        let is_to_found = match commands.begin {
            Begin::New => true,
            Begin::Framed | Begin::Opened => false,
        };
        let acknowledged = commands.behind(alloc, &[])?;
        let with_failed = commands.behind(alloc, &[])?;
        Ok(Wanted {
            may_be_empty: is_to_found && !is_founded,
            acknowledged,
            with_failed,
        })
    }

    /// After what was answered, which is answered so where nothing fails.
    fn behind(alloc: Global, commands: &Commands, answered: &Answered) -> Result<Wanted, Fail> {
        let acknowledged = commands.behind(alloc, answered.acknowledged.as_slice())?;
        if acknowledged.answers.as_str() != answered.answers.as_str() {
            return Err(Fail::new("other answers than where nothing fails"));
        }
        let with_failed = commands.behind(alloc, answered.with_failed.as_slice())?;
        Ok(Wanted {
            may_be_empty: false,
            acknowledged,
            with_failed,
        })
    }

    fn is_met(&self, tables: Option<&str>) -> bool {
        match tables {
            None => self.may_be_empty,
            Some(tables) => {
                tables == self.acknowledged.tables.as_str()
                    || tables == self.with_failed.tables.as_str()
            }
        }
    }
}

/// Commands, and the bytes of the files over which they are played.
#[derive(Drop)]
pub(crate) struct Play {
    reads: Reads,
    commands: Commands,
    bytes: Bytes,
}

impl Play {
    /// The requests of a scenario that follow a start.
    pub(crate) fn new(
        alloc: Global,
        begin: Begin,
        scenario: Scenario,
        reads: Reads,
    ) -> Result<Play, Fail> {
        let bytes = bytes_before(alloc, begin)?;
        let commands = Commands::new(alloc, begin, scenario)?;
        Ok(Play {
            reads,
            commands,
            bytes,
        })
    }

    /// Plays in a database. It comes back.
    fn played_in<S: Alter + Drop>(
        &self,
        alloc: Global,
        conn: Connection<S>,
        told: &Told,
    ) -> Result<(Connection<S>, Outcome), Fail> {
        match stored(alloc, conn, self.commands.begin)? {
            Ok(store) => served_in(alloc, store, self.reads, &self.commands, told),
            Err(conn) => Ok((conn, Outcome::Unopened { is_founded: false })),
        }
    }

    /// Plays over files. They come back.
    fn played<D: Disk + Drop>(
        &self,
        alloc: Global,
        files: Files<D>,
        fault: Fault,
        told: &Told,
    ) -> Result<(Files<D>, Outcome), Fail> {
        match connected(alloc, files) {
            Ok(conn) => {
                let (conn, outcome) = self.played_in(alloc, conn, told)?;
                Ok((ended(conn, fault), outcome))
            }
            Err(files) => Ok((files, Outcome::Unopened { is_founded: false })),
        }
    }

    /// What may be found after an outcome. Fails where no office was opened and no disk has failed.
    fn wanted(&self, alloc: Global, outcome: Outcome, told: &Told) -> Result<Wanted, Fail> {
        match outcome {
            Outcome::Answered(answered) => Wanted::behind(alloc, &self.commands, &answered),
            Outcome::Unopened { is_founded } => {
                if !told.load(Ordering::SeqCst) {
                    return Err(Fail::new("an office refused without cause"));
                }
                Wanted::unopened(alloc, &self.commands, is_founded)
            }
        }
    }
}

/// The bytes of the files in which the commands that follow a start are played.
fn bytes_before(alloc: Global, begin: Begin) -> Result<Bytes, Fail> {
    match begin {
        Begin::New => Ok(Bytes::none(alloc)),
        Begin::Framed | Begin::Opened => {
            let files = closed(prepared(alloc, begin)?);
            Bytes::of(alloc, &files)
        }
    }
}

/// Fails where the files that are left hold something else than is wanted.
fn meets(alloc: Global, left: &Bytes, wanted: &Wanted, trouble: Trouble) -> Result<(), Fail> {
    let tables = tables_in(alloc, found(alloc, left)?)?;
    if wanted.is_met(tables.as_ref().map(|tables| tables.as_str())) {
        return Ok(());
    }
    Err(Fail::new(format!(in alloc; "{trouble:?}: {tables:?}")?))
}

impl Tried for Play {
    fn outlasts(&self, alloc: Global, trouble: Trouble) -> Result<bool, Fail> {
        let told = untold(alloc)?;
        let files = failing_files(alloc, &self.bytes, trouble, &told)?;
        let (files, outcome) = self.played(alloc, files, trouble.fault, &told)?;
        let left = left_by(alloc, files, trouble)?;
        let wanted = Held::new(self.wanted(alloc, outcome, &told)?);
        for left in &left {
            meets(alloc, left, &wanted.value, trouble)?;
        }
        Ok(told.load(Ordering::SeqCst))
    }
}

/// Plays the commands that follow a start with a fault at each call of one of the files in turn.
fn hold(
    rt: &(impl Print + AllocGlobal),
    begin: Begin,
    fault: Fault,
    is_in_log: bool,
) -> Result<(), Fail> {
    let scenario: Scenario = match begin {
        Begin::New => &[FIRST_CHANGES],
        Begin::Framed | Begin::Opened => &[LATER_CHANGES],
    };
    let play = Play::new(rt.alloc(), begin, scenario, Reads::FromDatabase)?;
    outlasts_each(rt, &play, fault, is_in_log)
}

/// The same where reads are answered from memory, after the start with a frame.
fn hold_in_memory(
    rt: &(impl Print + AllocGlobal),
    fault: Fault,
    is_in_log: bool,
) -> Result<(), Fail> {
    let play = Play::new(
        rt.alloc(),
        Begin::Framed,
        &[LATER_CHANGES],
        Reads::FromMemory,
    )?;
    outlasts_each(rt, &play, fault, is_in_log)
}

#[test]
fn a_founding_outlasts_a_log_that_fails(rt: HostRuntime) -> Result<(), Fail> {
    hold(&rt, Begin::New, Fault::Lasting, true)
}

#[test]
fn a_founding_outlasts_a_file_that_fails(rt: HostRuntime) -> Result<(), Fail> {
    hold(&rt, Begin::New, Fault::Lasting, false)
}

#[test]
fn a_founding_outlasts_a_call_of_the_log_that_fails(rt: HostRuntime) -> Result<(), Fail> {
    hold(&rt, Begin::New, Fault::Single, true)
}

#[test]
fn a_founding_outlasts_a_call_of_the_file_that_fails(rt: HostRuntime) -> Result<(), Fail> {
    hold(&rt, Begin::New, Fault::Single, false)
}

#[test]
fn a_founding_outlasts_a_power_cut_at_the_log(rt: HostRuntime) -> Result<(), Fail> {
    hold(&rt, Begin::New, Fault::Cut, true)
}

#[test]
fn a_founding_outlasts_a_power_cut_at_the_file(rt: HostRuntime) -> Result<(), Fail> {
    hold(&rt, Begin::New, Fault::Cut, false)
}

#[test]
fn commands_outlast_a_log_that_fails(rt: HostRuntime) -> Result<(), Fail> {
    hold(&rt, Begin::Framed, Fault::Lasting, true)
}

#[test]
fn commands_outlast_a_file_that_fails(rt: HostRuntime) -> Result<(), Fail> {
    hold(&rt, Begin::Framed, Fault::Lasting, false)
}

#[test]
fn commands_outlast_a_call_of_the_log_that_fails(rt: HostRuntime) -> Result<(), Fail> {
    hold(&rt, Begin::Framed, Fault::Single, true)
}

#[test]
fn commands_outlast_a_call_of_the_file_that_fails(rt: HostRuntime) -> Result<(), Fail> {
    hold(&rt, Begin::Framed, Fault::Single, false)
}

#[test]
fn commands_outlast_a_power_cut_at_the_log(rt: HostRuntime) -> Result<(), Fail> {
    hold(&rt, Begin::Framed, Fault::Cut, true)
}

#[test]
fn commands_outlast_a_power_cut_at_the_file(rt: HostRuntime) -> Result<(), Fail> {
    hold(&rt, Begin::Framed, Fault::Cut, false)
}

#[test]
fn commands_beside_memory_outlast_a_log_that_fails(rt: HostRuntime) -> Result<(), Fail> {
    hold_in_memory(&rt, Fault::Lasting, true)
}

#[test]
fn commands_beside_memory_outlast_a_file_that_fails(rt: HostRuntime) -> Result<(), Fail> {
    hold_in_memory(&rt, Fault::Lasting, false)
}

#[test]
fn commands_beside_memory_outlast_a_call_of_the_log_that_fails(
    rt: HostRuntime,
) -> Result<(), Fail> {
    hold_in_memory(&rt, Fault::Single, true)
}

#[test]
fn commands_beside_memory_outlast_a_call_of_the_file_that_fails(
    rt: HostRuntime,
) -> Result<(), Fail> {
    hold_in_memory(&rt, Fault::Single, false)
}

#[test]
fn commands_beside_memory_outlast_a_power_cut_at_the_log(rt: HostRuntime) -> Result<(), Fail> {
    hold_in_memory(&rt, Fault::Cut, true)
}

#[test]
fn commands_beside_memory_outlast_a_power_cut_at_the_file(rt: HostRuntime) -> Result<(), Fail> {
    hold_in_memory(&rt, Fault::Cut, false)
}
