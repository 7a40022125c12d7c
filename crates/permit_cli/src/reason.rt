//! Why a database or a history can't be used, in words.

ghost use Rattle.std.specs.Prelude.{◌≡◌};
ghost use Rattle.permit_cli.specs.Reasons.{history_reason, reason_for, reason_line, reason_of_wanted};

use crate::standing::Standing;
use permit_base::words::Edition;
use permit_store::store::OpenError;
use permit_subcommands::explaining::line_reason;
use permit_subcommands::failure::HistoryFailure;

/// Why a database can't be used, as it is found after the failure.
#[derive(Clone, Copy, Debug, PartialEq, Eq)]
pub enum Reason {
    /// There is no file at the path.
    NoFile,
    /// There is no file at the path, and none can be made there.
    NoFolder,
    /// The path is a folder.
    Folder,
    /// The path is a device, a pipe or a socket.
    NotRegular,
    /// The file can't be opened to be read and written.
    NoRight,
    /// The file has a hard link.
    SecondName,
    /// Another program holds SQLite's lock on the file.
    InUse,
    /// The file can be opened, and its log beside it can't.
    NoLog,
    /// There is no room left.
    DiskFull,
    /// A call of the disk failed.
    DiskFails,
    /// Memory was refused.
    Memory,
    /// The file is no database, or a damaged one.
    NoDatabase,
    /// There are no tables, or another schema than the program makes.
    OtherTables,
    /// The office has version 1.
    FirstVersion,
    /// The office has version 2.
    SecondVersion,
    /// The office has another version than those two.
    OtherVersion,
    /// The office of version 1 has rows that break its rules.
    BadFirstRows,
    /// The office has rows that break its rules.
    BadRows,
    /// Nothing is wrong any more, or it can't be found out.
    Failed,
}

impl Reason {
    /// The line for the reason, without its end.
    pub fn line(self) -> &'static str
        ensures { result.now ≡ reason_line self }
    {
        match self {
            Reason::NoFile => "no such file or folder",
            Reason::NoFolder => "no file can be made there: see the folder and its rights",
            Reason::Folder => "the path is a folder",
            Reason::NotRegular => "the path is no regular file",
            Reason::NoRight => "no right to read and write the file",
            Reason::SecondName => "the file has a second name, a hard link",
            Reason::InUse => "another program has the file open",
            Reason::NoLog => {
                "the log beside the file can't be opened: see the folder's rights, a journal of SQLite there, and the disk"
            }
            Reason::DiskFull => "the disk is full",
            Reason::DiskFails => "the disk fails",
            Reason::Memory => "out of memory",
            Reason::NoDatabase => "no sound SQLite database",
            Reason::OtherTables => "no tables of an office, or more than those (ANALYZE adds some)",
            Reason::FirstVersion => "an office of version 1: run \"permit upgrade\"",
            Reason::SecondVersion => "an office of version 2",
            Reason::OtherVersion => "an office of another version: run the program that made it",
            Reason::BadFirstRows => "rows that break the rules of version 1",
            Reason::BadRows => {
                "rows that break the office's rules: run \"permit check-db --why\""
            }
            Reason::Failed => "the disk is full or fails, or memory ran out",
        }
    }
}

/// Why the tables that are wanted can't be used, though they are found.
fn reason_of_wanted(wanted: Edition, why: OpenError) -> Reason
    ensures { result ≡ reason_of_wanted wanted why }
{
    match (why, wanted) {
        (OpenError::Damaged, Edition::First) => Reason::BadFirstRows,
        (OpenError::Damaged, Edition::Second) => Reason::BadRows,
        (OpenError::Exists, Edition::First) => Reason::FirstVersion,
        (OpenError::Exists, Edition::Second) => Reason::SecondVersion,
        (OpenError::Version | OpenError::Store, _) => Reason::Failed,
    }
}

/// Why a database can't be used from which the tables of an edition are wanted, by what is in it.
pub(crate) fn reason_for(wanted: Edition, why: OpenError, standing: Standing) -> Reason
    ensures { result ≡ reason_for wanted why standing }
{
    match standing {
        Standing::Office(found) if found == wanted => reason_of_wanted(wanted, why),
        Standing::Office(Edition::First) => Reason::FirstVersion,
        Standing::Office(Edition::Second) => Reason::SecondVersion,
        Standing::OtherVersion => Reason::OtherVersion,
        Standing::OtherTables => Reason::OtherTables,
    }
}

/// The line for a history that can't be used, without its end.
pub(crate) fn history_reason(why: HistoryFailure) -> &'static str
    ensures { result.now ≡ history_reason why }
{
    match why {
        HistoryFailure::Differs => {
            "the tables are not those that the text tells: something was done without --history, or one of the two is another office's or an older copy"
        }
        HistoryFailure::Changed => "the first lines have another SHA-256, or there are fewer",
        HistoryFailure::Line(_, reason) => line_reason(reason),
        HistoryFailure::Short => {
            "the text ends before its second line, so it is no office's history"
        }
        HistoryFailure::Exists => "there is a text in the file already",
        HistoryFailure::Copy => {
            "the text begins with a copy of the database that begin-history was given: name it by --from, as it was then"
        }
        HistoryFailure::Itself => "the copy that is named by --from is the database itself",
        HistoryFailure::Unused => "there is a history, which isn't named",
        HistoryFailure::Store => {
            "another program has the file open, it is no regular file or has a second name, there is no right to it, or the disk is full or fails"
        }
    }
}
