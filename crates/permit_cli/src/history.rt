//! The file of an office's history, opened to be kept.

ghost use Rattle.std.specs.Prelude.{◌≡◌, ◌⊎◌, ◌↔◌, IfErr, IfOk, IsSome};
ghost use Rattle.permit_subcommands.specs.Failures.{IsUnread};
ghost use Rattle.permit_database.specs.Failing.{IsOfHistory};
ghost use Rattle.permit_cli.specs.Failing.{AreUnread, IsUnbegun, IsUnkept};

use crate::database::{closed, copied, log_of, remove_log};
use permit_args::plan::HistoryPaths;
use permit_database::copying::copied_in;
use permit_database::opening::Recording;
use permit_database::outcome::Outcome;
use permit_journal::disk_file::DiskFile;
use permit_journal::journal::Journal;
use permit_replay::beginning::Beginning;
use permit_subcommands::failure::{Failure, HistoryFailure};
use sqlite::{Error, ErrorCode};
use sqlite_disk::Files;
use sqlite_std_file::{OpenError, Unknown, open};
use std::alloc::Global;
use std::fs;
use std::io::ErrorKind;
use std::os::unix::fs::MetadataExt;

/// The file of a history, on a disk.
pub(crate) type HistoryOnDisk = DiskFile<sqlite_std_file::File>;

/// That a call of the file failed, or that another program has it open.
fn failed() -> Failure
    ensures { IsOfHistory result }
{
    Failure::History(HistoryFailure::Store)
}

/// Opens the file of a history, which is made where there is none. Who else opens it so meanwhile is refused.
fn history_at(rt: &HostRuntime, path: &str) -> Result<HistoryOnDisk, Failure>
    ensures { IfErr result IsOfHistory }
{
    match open(rt, path, Unknown) {
        Ok(files) => {
            let Files { log, db } = files;
            drop(log);
            // A history has no log.
            if let Some(log) = log_of(rt, path) {
                remove_log(rt, log.as_str());
            }
            match DiskFile::open(db) {
                Ok(file) => Ok(file),
                Err(_) => Err(failed()),
            }
        }
        Err(OpenError::OutOfMemory) => Err(Failure::memory()),
        Err(_) => Err(failed()),
    }
}

/// The journal over the file of a history, which is made where there is none.
pub(crate) fn journal_at(rt: &HostRuntime, path: &str) -> Result<Journal<HistoryOnDisk>, Failure>
    ensures { IfErr result IsOfHistory }
{
    match Journal::open(history_at(rt, path)?) {
        Ok(journal) => Ok(journal),
        Err(_) => Err(failed()),
    }
}

/// The same at a path that is named; none where none is.
pub(crate) fn journal_named(
    rt: &HostRuntime,
    path: Option<&str>,
) -> Result<Option<Journal<HistoryOnDisk>>, Failure>
    ensures named { IfOk result (λ journal. IsSome journal ↔ IsSome path.entry) }
    ensures fails { IfErr result (IsUnbegun path.entry) }
{
    match path {
        None => Ok(None),
        Some(path) => match journal_at(rt, path) {
            Ok(journal) => Ok(Some(journal)),
            Err(why) => Err(why),
        },
    }
}

/// The path at which a file is made for a history: one where nothing is yet.
pub(crate) fn new_at<'a>(rt: &HostRuntime, path: Option<&'a str>) -> Option<&'a str> {
    path.filter(|path| matches!(fs::exists(rt, *path), Ok(false)))
}

/// Removes the file of a history at a path, if it has no byte and no other program has it open.
fn remove_empty(rt: &HostRuntime, path: &str) {
    if let Ok(journal) = journal_at(rt, path) {
        if journal.length() == 0 {
            let _ = fs::remove_file(rt, path);
        }
        drop(journal);
    }
}

/// What it came to that an office was founded or its history begun. Where it failed, the file that was made for the history is
/// removed again, if nothing was written to it.
pub(crate) fn unless_failed(
    rt: &HostRuntime,
    made: Option<&str>,
    came: Result<Outcome, Failure>,
) -> Result<Outcome, Failure>
    ensures { result ≡ came }
{
    if came.is_err()
        && let Some(path) = made
    {
        remove_empty(rt, path);
    }
    came
}

/// That there is a file at a path: none is made there.
fn has_history(rt: &HostRuntime, path: &str) -> Result<(), Failure>
    ensures { IfErr result (IsUnread path.now) }
{
    match fs::exists(rt, path) {
        Ok(false) => Err(Failure::of_reading(rt.alloc(), path, &ErrorKind::NotFound.into())),
        _ => Ok(()),
    }
}

/// Why the copy of a database at a path isn't opened. A file that is no database is no copy of one.
fn of_copy(alloc: Global, path: &str, error: Error) -> Failure
    ensures { IsOfHistory result ⊎ IsUnread path.now result }
{
    match error {
        Error::SqliteFailure(ErrorCode::OutOfMemory) => Failure::memory(),
        Error::SqliteFailure(ErrorCode::NotADatabase | ErrorCode::DatabaseCorrupt) =>
            Failure::History(HistoryFailure::Copy),
        _ => Failure::of_reading(alloc, path, &ErrorKind::Other.into()),
    }
}

/// The tables of the copy of a database at a path, with which a history begins.
fn copy_at(rt: &HostRuntime, path: &str) -> Result<Beginning, Failure>
    ensures { IfErr result (λ why. IsOfHistory why ⊎ IsUnread path.now why) }
{
    if let Ok(false) = fs::exists(rt, path) {
        return Err(Failure::of_reading(rt.alloc(), path, &ErrorKind::NotFound.into()));
    }
    match copied(rt, path) {
        Ok(conn) => {
            let (conn, tables) = copied_in(rt.alloc(), conn);
            closed(conn);
            tables
        }
        Err(error) => Err(of_copy(rt.alloc(), path, error)),
    }
}

/// Whether two paths lead to one file.
fn are_same(rt: &HostRuntime, one: &str, other: &str) -> bool {
    match (fs::metadata(rt, one), fs::metadata(rt, other)) {
        (Ok(one), Ok(other)) => one.dev() == other.dev() && one.ino() == other.ino(),
        _ => false,
    }
}

/// What the history of the database at a path begins with: the copy of it that is named, and else the founding. The database itself is
/// no copy.
pub(crate) fn beginning_at(
    rt: &HostRuntime,
    db: &str,
    history: HistoryPaths<'_>,
) -> Result<Beginning, Failure>
    ensures { IfErr result (λ why. IsOfHistory why ⊎ AreUnread history.entry why) }
{
    match history.copy {
        None => Ok(Beginning::Founding),
        Some(path) if are_same(rt, db, path) => Err(Failure::History(HistoryFailure::Itself)),
        Some(path) => copy_at(rt, path),
    }
}

/// The file of the history of the database at a path, which is there, and what its text may begin with; none where no history is
/// named. It is opened as by `journal_at`.
pub(crate) fn recording_at(
    rt: &HostRuntime,
    db: &str,
    history: Option<HistoryPaths<'_>>,
) -> Result<Option<Recording<HistoryOnDisk>>, Failure>
    ensures named { IfOk result (λ recording. IsSome recording ↔ IsSome history.entry) }
    ensures fails { IfErr result (IsUnkept history.entry) }
{
    let Some(history) = history else {
        return Ok(None);
    };
    if let Err(why) = has_history(rt, history.text) {
        return Err(why);
    }
    match beginning_at(rt, db, history) {
        Ok(beginning) => match history_at(rt, history.text) {
            Ok(file) => Ok(Some(Recording { beginning, file })),
            Err(why) => Err(why),
        },
        Err(why) => Err(why),
    }
}
