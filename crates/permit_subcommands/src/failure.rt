//! Why the program does not do what its words ask, and its status then.

ghost use Rattle.std.specs.Prelude.{◌≡◌, ◌≤◌, Some};
ghost use Rattle.std.specs.IoError.{error_kind};
ghost use Rattle.permit_subcommands.specs.Failures.{against_failure, failure_line, failure_status, import_status, plain, policy_failure, IsFailureOfImport, IsUnheard, IsUnread};
ghost use Rattle.permit_import.specs.declared.refused.RefusalWord.TheVariants.{Store};

use crate::refused::{RefusalWord, Refused};
use permit_import::fault::ImportFault;
use permit_import::tally::Tally;
use permit_policy::fault::{PolicyError, PolicyFault};
use permit_store::store::OpenError;
use std::alloc::{AllocError, Global};
use std::fmt;
use std::io::{self, ErrorKind};

/// What is wrong with a line of a history's text: it is no entry's, or its entry may not follow those before it.
#[derive(Clone, Copy, PartialEq, Eq)]
pub enum LineReason {
    /// It has too many bytes.
    Long,
    /// It is not UTF-8, or no JSON.
    Syntax,
    /// A key is missing, or a value is out of its limits.
    Fields,
    /// It is another spelling of its entry.
    Form,
    /// It is the first, and neither founds an office nor begins with a copy, or founds one on day 0.
    NoFounding,
    /// It begins with a copy after the first line.
    SecondBeginning,
    /// It founds an office after the first line.
    SecondFounding,
    /// It is between the founding and the upgrade.
    FirstEdition,
    /// It is the upgrade, on another day than the founding.
    UpgradeDay,
    /// It is the upgrade after the upgrade.
    SecondUpgrade,
    /// No party has the number of the caller.
    Caller,
    /// Its day is before that of the last command.
    Clock,
    /// The parcel, file or party isn't there.
    Record,
    /// The state of the office does not admit the command.
    NotAdmitted,
    /// The command makes another number than the line has.
    Number,
}

/// Why the history of an office can't be used.
#[derive(Clone, Copy, PartialEq, Eq)]
pub enum HistoryFailure {
    /// The office's tables are not those that the text gives.
    Differs,
    /// The first lines of the text aren't those that they once were.
    Changed,
    /// This line of the text is none, or its entry may not follow those before it. Lines are counted from 1 on.
    Line(u64, LineReason),
    /// The text ends before its second line, so it describes no office.
    Short,
    /// Where an office is founded, there is a text already.
    Exists,
    /// The text begins with a copy of the office's database, and the copy that is named is another one or none, or none is named.
    Copy,
    /// The copy of the office's database that is named is that database itself.
    Itself,
    /// There is a history beside the database, which isn't named.
    Unused,
    /// A call of the file failed, or another program has it open.
    Store,
}

/// Why the program does not do what its words ask. Printed, it is one line without its end.
#[derive(Drop)]
pub enum Failure {
    /// A request or a founding is refused, or memory ran out.
    Refused(Refused),
    /// The file of the path cannot be read.
    File(String),
    /// The policy's text is refused.
    Policy(PolicyError),
    /// The text of the policy that another one is compared with is refused.
    Against(PolicyError),
    /// The facts to decide by are in another form.
    Facts,
    /// The database cannot be opened or made.
    Database(OpenError),
    /// The office's history can't be used.
    History(HistoryFailure),
    /// The day is no date from 1970-01-01 to the day 100000.
    Day,
    /// The zone is no POSIX rule.
    Zone,
    /// No connections can be taken on the address.
    Listen(String),
    /// Standard output failed.
    Output,
}

impl Failure {
    /// A refusal that names no rule and no reason.
    pub fn plain(word: RefusalWord) -> Failure
        ensures { result ≡ plain word }
    {
        Failure::Refused(Refused::Plain(word))
    }

    /// Out of memory, which is reported as the store's refusal is.
    pub fn memory() -> Failure
        ensures { result ≡ plain Store }
    {
        Failure::plain(RefusalWord::Store)
    }

    /// That the file at a path cannot be read.
    fn unread(alloc: Global, path: &str) -> Failure
        ensures { IsUnread path.now result }
    {
        match String::from_str(alloc, path) {
            Ok(path) => Failure::File(path),
            Err(_) => Failure::memory(),
        }
    }

    /// That no connections can be taken on an address.
    pub fn unheard(alloc: Global, address: &str) -> Failure
        ensures { IsUnheard address.now result }
    {
        match String::from_str(alloc, address) {
            Ok(address) => Failure::Listen(address),
            Err(_) => Failure::memory(),
        }
    }

    /// Why a file could not be read: its path is named, unless memory ran out.
    pub fn of_reading(alloc: Global, path: &str, error: &io::Error) -> Failure
        ensures path { IsUnread path.now result }
        ensures memory { error_kind error.now ≡ ErrorKind.OutOfMemory → result ≡ plain Store }
    {
        if error.kind() == ErrorKind::OutOfMemory {
            Failure::memory()
        } else {
            Failure::unread(alloc, path)
        }
    }

    /// Why an import of the records at a path stopped. A first record that is none of an import's is reported as a file that
    /// cannot be read.
    pub fn of_import(alloc: Global, path: &str, fault: ImportFault) -> Failure
        ensures { IsFailureOfImport path.now fault result }
    {
        match fault {
            ImportFault::FirstRecord | ImportFault::Reading => Failure::unread(alloc, path),
            ImportFault::Memory => Failure::memory(),
            ImportFault::Writing => Failure::Output,
        }
    }

    /// Why a policy was refused: by its place, unless memory ran out.
    pub fn of_policy(error: PolicyError) -> Failure
        ensures { result ≡ policy_failure error }
    {
        match error.code {
            PolicyFault::Memory => Failure::memory(),
            _ => Failure::Policy(error),
        }
    }

    /// Why the policy was refused that another one is compared with: by its place, unless memory ran out.
    pub fn of_against(error: PolicyError) -> Failure
        ensures { result ≡ against_failure error }
    {
        match error.code {
            PolicyFault::Memory => Failure::memory(),
            _ => Failure::Against(error),
        }
    }

    /// The program's status: 1 where it is refused or cannot print, 2 for bad words and files.
    pub fn status(&self) -> u8
        ensures { result ≡ failure_status self.now }
    {
        match self {
            Failure::Refused(_) | Failure::Output => 1,
            Failure::File(_)
            | Failure::Policy(_)
            | Failure::Against(_)
            | Failure::Facts
            | Failure::Database(_)
            | Failure::History(_)
            | Failure::Day
            | Failure::Zone
            | Failure::Listen(_) => 2,
        }
    }
}

/// The program's status after an import: 1 where a record was refused.
pub fn status_after(tally: &Tally) -> u8
    ensures { result ≡ import_status tally.now }
{
    if tally.refused == 0 { 0 } else { 1 }
}

impl From<AllocError> for Failure {
    ghost from_gives = { λ _ failure. failure ≡ plain Store };

    fn from(_error: AllocError) -> Failure {
        Failure::memory()
    }
}

impl fmt::Display for Failure {
    ghost output = { λ failure. Some (failure_line failure) };

    fn fmt<W: fmt::Write>(&self, f: &mut fmt::Formatter<W>) -> fmt::Result {
        match self {
            Failure::Refused(why) => write!(f, "{why}"),
            Failure::File(path) => write!(f, "cannot read {path}"),
            Failure::Policy(error) => {
                let code = error.code.number();
                let rule = error.rule;
                write!(f, "policy: fault {code} at rule {rule}")
            }
            Failure::Against(error) => {
                let code = error.code.number();
                let rule = error.rule;
                write!(f, "against: fault {code} at rule {rule}")
            }
            Failure::Facts => f.write_str("facts: unreadable"),
            Failure::Database(OpenError::Damaged) => f.write_str("database: damaged"),
            Failure::Database(OpenError::Version) => f.write_str("database: version"),
            Failure::Database(OpenError::Store) => f.write_str("database: store"),
            Failure::Database(OpenError::Exists) => f.write_str("database: exists"),
            Failure::History(HistoryFailure::Differs | HistoryFailure::Changed) => f.write_str(
                "history: differs",
            ),
            Failure::History(HistoryFailure::Line(line, _)) => write!(f, "history: line {line}"),
            Failure::History(HistoryFailure::Short) => f.write_str("history: short"),
            Failure::History(HistoryFailure::Exists) => f.write_str("history: exists"),
            Failure::History(HistoryFailure::Copy | HistoryFailure::Itself) => f.write_str(
                "history: copy",
            ),
            Failure::History(HistoryFailure::Unused) => f.write_str("history: unused"),
            Failure::History(HistoryFailure::Store) => f.write_str("history: store"),
            Failure::Day => f.write_str("day: unreadable"),
            Failure::Zone => f.write_str("zone: unreadable"),
            Failure::Listen(address) => write!(f, "cannot listen {address}"),
            Failure::Output => f.write_str("cannot write"),
        }
    }
}
