//! What the program is to do, or why it does nothing.

ghost use Rattle.std.specs.Prelude.{◌≡◌};
ghost use Rattle.permit_args.specs.Keepings.{named_history};

use permit_base::request::FileStage;
use permit_base::values::Digest;
use permit_base::words::RegisterKind;
use permit_policy::TableForm;
use std::alloc::AllocError;

/// What the program is to do. Each text is a word of the command line, not yet read; a stage and a register's name are.
#[derive(Clone, Copy, PartialEq, Drop)]
pub enum Plan<'a> {
    /// No words: the program prints its name.
    Name,
    /// Reads a policy and says what it comes to.
    CheckPolicy(CheckPolicyWords<'a>),
    /// Founds an office in a database.
    Init(InitWords<'a>),
    /// Has the office serve one request.
    Act(ActWords<'a>),
    /// Lists the files that the caller may list.
    List(ListWords<'a>),
    /// Writes a register.
    Register(RegisterWords<'a>),
    /// Adds the parcels of a file of records.
    Import(ImportWords<'a>),
    /// Serves the office over TCP.
    Serve(ServeWords<'a>),
    /// Makes of a database of the schema's first version one of the second.
    Upgrade(UpgradeWords<'a>),
    /// Says whether a database's tables are sound, and whether they are those of a history.
    CheckDb(CheckDbWords<'a>),
    /// Replaces a party's token.
    RenewToken(RenewTokenWords<'a>),
    /// Prints the entries of an office's history.
    History(HistoryWords<'a>),
    /// Makes an office in a database of a history, or brings one further to it.
    Replay(ReplayWords<'a>),
    /// Begins the history of an office that has none, or a new file of it.
    BeginHistory(BeginHistoryWords<'a>),
}

/// The subcommands.
#[derive(Clone, Copy)]
pub enum Subcommand {
    CheckPolicy,
    Init,
    Act,
    List,
    Register,
    Import,
    Serve,
    Upgrade,
    CheckDb,
    RenewToken,
    History,
    Replay,
    BeginHistory,
}

/// Where a token is.
#[derive(Clone, Copy, PartialEq, Drop)]
pub enum TokenWords<'a> {
    /// The token itself.
    Given(&'a str),
    /// The path of the file whose first line is the token; `-` is standard input.
    File(&'a str),
}

/// Which policy is read, and what is said of it.
#[derive(Clone, Copy, PartialEq, Drop)]
pub struct CheckPolicyWords<'a> {
    /// The policy's path.
    pub policy: &'a str,
    /// What is said of it.
    pub check: Check<'a>,
    /// How a table is written.
    pub form: TableForm,
    /// Whether a failure is explained.
    pub why: bool,
}

/// What is said of a policy.
#[derive(Clone, Copy, PartialEq, Drop)]
pub enum Check<'a> {
    /// How many rules it has.
    Rules,
    /// The same, and the rules that decide for no facts.
    Dead,
    /// How it decides for the facts of this text.
    Facts(&'a str),
    /// What it decides differently from the policy at this path.
    Against(&'a str),
    /// Who may do what under it.
    Table,
}

/// Two words of which each asks for something else to be said of a policy.
#[derive(Clone, Copy)]
pub(crate) enum Clash {
    DeadFacts,
    DeadAgainst,
    DeadTable,
    FactsAgainst,
    FactsTable,
    AgainstTable,
}

/// Which day it is.
#[derive(Clone, Copy, PartialEq, Drop)]
pub struct DayWords<'a> {
    /// A date, which goes before the clock.
    pub day: Option<&'a str>,
    /// The zone in which the clock is read, as a POSIX rule; without one it is `UTC0`. It has to be one beside a date too.
    pub zone: Option<&'a str>,
}

/// The files of an office's history.
#[derive(Clone, Copy, PartialEq, Drop)]
pub struct HistoryPaths<'a> {
    /// The path of the file of the history.
    pub text: &'a str,
    /// The path of the copy of the database with which the history begins; without one it begins with the founding.
    pub copy: Option<&'a str>,
}

/// What is said of the history that an office keeps.
#[derive(Clone, Copy, PartialEq, Drop)]
pub enum Keeping<H> {
    /// Nothing: none is kept, and none may lie beside the database.
    Unsaid,
    /// None is kept, whatever lies beside the database.
    Without,
    /// This one is kept.
    With(H),
}

impl<H> Keeping<H> {
    /// The history that is named.
    pub fn named(self) -> Option<H>
        ensures { result ≡ named_history self }
    {
        match self {
            Keeping::With(history) => Some(history),
            Keeping::Unsaid | Keeping::Without => None,
        }
    }
}

/// Who founds an office, where and when.
#[derive(Clone, Copy, PartialEq, Drop)]
pub struct InitWords<'a> {
    /// The database's path.
    pub db: &'a str,
    /// The first official's name.
    pub name: &'a str,
    /// The first official's token.
    pub token: TokenWords<'a>,
    /// The founding day.
    pub days: DayWords<'a>,
    /// The path of the file of the office's history; without one none is kept.
    pub history: Option<&'a str>,
    /// Whether a failure is explained.
    pub why: bool,
}

/// Which office is asked, by whom and when.
#[derive(Clone, Copy, PartialEq, Drop)]
pub struct OfficeWords<'a> {
    /// The database's path.
    pub db: &'a str,
    /// The policy's path.
    pub policy: &'a str,
    /// The caller's token.
    pub token: TokenWords<'a>,
    /// The day on which the office is asked.
    pub days: DayWords<'a>,
    /// Whether a failure is explained.
    pub why: bool,
}

/// One request, and the office that serves it.
#[derive(Clone, Copy, PartialEq, Drop)]
pub struct ActWords<'a> {
    /// The office that is asked.
    pub office: OfficeWords<'a>,
    /// The files of the office's history.
    pub history: Keeping<HistoryPaths<'a>>,
    /// The request's method.
    pub method: &'a str,
    /// The request's path.
    pub path: &'a str,
    /// The request's body; without one it is empty.
    pub body: Option<&'a str>,
}

/// Which files are listed.
#[derive(Clone, Copy, PartialEq, Drop)]
pub struct ListWords<'a> {
    /// The office that is asked.
    pub office: OfficeWords<'a>,
    /// The stage that they are in on the day; without one all files are listed.
    pub stage: Option<FileStage>,
}

/// Which register is written.
#[derive(Clone, Copy, PartialEq, Drop)]
pub struct RegisterWords<'a> {
    /// The office that is asked.
    pub office: OfficeWords<'a>,
    /// The register.
    pub kind: RegisterKind,
}

/// Which records are imported.
#[derive(Clone, Copy, PartialEq, Drop)]
pub struct ImportWords<'a> {
    /// The office that is asked.
    pub office: OfficeWords<'a>,
    /// The files of the office's history.
    pub history: Keeping<HistoryPaths<'a>>,
    /// The path of the file of records.
    pub file: &'a str,
}

/// Which office is served, on what days and where, and by how many workers.
#[derive(Clone, Copy, PartialEq, Drop)]
pub struct ServeWords<'a> {
    /// The database's path.
    pub db: &'a str,
    /// The policy's path.
    pub policy: &'a str,
    /// The day of all requests; without a date the clock is asked at each of them.
    pub days: DayWords<'a>,
    /// The files of the office's history.
    pub history: Keeping<HistoryPaths<'a>>,
    /// The address on which connections are taken: a host or its number, and a port.
    pub listen: &'a str,
    /// How many workers serve connections, each one at a time: 1 to 8.
    pub workers: u32,
    /// After how many connections a worker ends, 1 to 99999; without it never.
    pub connections: Option<u32>,
    /// Whether a failure is explained.
    pub why: bool,
}

/// Which database is upgraded, and where its history begins.
#[derive(Clone, Copy, PartialEq, Drop)]
pub struct UpgradeWords<'a> {
    /// The database's path.
    pub db: &'a str,
    /// The path of the new file in which the office's history is begun once it is upgraded.
    pub history: Keeping<&'a str>,
    /// Whether a failure is explained.
    pub why: bool,
}

/// Which database is checked, and beside which history.
#[derive(Clone, Copy, PartialEq, Drop)]
pub struct CheckDbWords<'a> {
    /// The database's path.
    pub db: &'a str,
    /// The files of the history that the tables are to be those of.
    pub history: Option<HistoryPaths<'a>>,
    /// Whether a failure is explained, and the first place that is wrong is named.
    pub why: bool,
}

/// Whose token is replaced, and by which one.
#[derive(Clone, Copy, PartialEq, Drop)]
pub struct RenewTokenWords<'a> {
    /// The database's path.
    pub db: &'a str,
    /// The party's number, 1 to 99999.
    pub party: u32,
    /// The party's new token.
    pub token: TokenWords<'a>,
    /// The files of the office's history.
    pub history: Keeping<HistoryPaths<'a>>,
    /// Whether a failure is explained.
    pub why: bool,
}

/// The first lines of a history as they once were.
#[derive(Clone, Copy, PartialEq, Drop)]
pub struct VerifyWords {
    /// How many lines, 1 to 18446744073709551615.
    pub lines: u64,
    /// Their SHA-256.
    pub sha256: Digest,
}

/// Which history is printed, and which of its entries: those of which all holds that is given.
#[derive(Clone, Copy, PartialEq, Drop)]
pub struct HistoryWords<'a> {
    /// The path of the history's file.
    pub history: &'a str,
    /// The number of the file that the entries are about, 1 to 99999.
    pub file: Option<u32>,
    /// The number of the parcel that the entries are about, 1 to 99999.
    pub parcel: Option<u32>,
    /// The number of the party that the entries are of or name, 1 to 99999.
    pub party: Option<u32>,
    /// The date from which on the entries are, not yet read.
    pub since: Option<&'a str>,
    /// The database whose tables are looked for in the text.
    pub db: Option<&'a str>,
    /// The lines that it is to begin with still, in place of entries: none of these is chosen beside it, and no database is named.
    pub verify: Option<VerifyWords>,
    /// Whether a failure is explained.
    pub why: bool,
}

/// Which database is made of a history, or brought further to it.
#[derive(Clone, Copy, PartialEq, Drop)]
pub struct ReplayWords<'a> {
    /// The database's path, which is made where there is none.
    pub db: &'a str,
    /// The files of the history.
    pub history: HistoryPaths<'a>,
    /// Whether its last line is replayed too, which alone may still be taken back.
    pub settled: bool,
    /// Whether a failure is explained.
    pub why: bool,
}

/// Which office's history is begun, and where.
#[derive(Clone, Copy, PartialEq, Drop)]
pub struct BeginHistoryWords<'a> {
    /// The database's path.
    pub db: &'a str,
    /// The path of the new file in which the history is kept from now on.
    pub history: &'a str,
    /// Whether a failure is explained.
    pub why: bool,
}

/// An option that chooses entries of a history or names the database beside it: none is given with lines to verify.
#[derive(Clone, Copy)]
pub(crate) enum Choice {
    File,
    Parcel,
    Party,
    Since,
    Db,
}

/// Why words give no plan.
#[derive(Drop)]
pub enum PlanFault {
    /// The words ask for help, which is this text.
    Help(String),
    /// The words are bad; the text says why.
    Words(String),
    /// Out of memory.
    Memory,
}

impl From<AllocError> for PlanFault {
    ghost use Rattle.permit_args.specs.declared.plan.PlanFault.TheVariants.{Memory};

    ghost from_gives = { λ _ fault. fault ≡ Memory };

    fn from(_error: AllocError) -> PlanFault {
        PlanFault::Memory
    }
}
