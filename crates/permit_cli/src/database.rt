//! The office's database: one file with its log beside it.

ghost use Rattle.std.specs.Prelude.{◌≡◌, ◌⊎◌, IfErr, IfOk, IfSome, IsTrue};
ghost use Rattle.sqlite_std_file.specs.File.{file_is_usable};
ghost use Rattle.permit_database.specs.Doing.{SaysOpening};
ghost use Rattle.permit_database.specs.Failing.{FailsToListen, IsUnopened, IsUnusable, OrOfText};
ghost use Rattle.permit_database.specs.Served.{SaysWhere};
ghost use Rattle.permit_database.specs.Working.{ComesOf, FailsAt, SaysAt};
ghost use Rattle.permit_cli.specs.Failing.{opening_failure};
ghost use Rattle.permit_cli.specs.Reasons.{is_of_path, opening_reason, IsReasonFor};
ghost use Rattle.permit_cli.specs.Streams.{printed};

use crate::history::HistoryOnDisk;
use crate::reading::Reading;
use crate::reason::Reason;
use crate::standing::reason_in;
use crate::stream::Stream;
use permit_args::plan::ServeWords;
use permit_base::words::Edition;
use permit_database::opening::Recording;
use permit_database::outcome::Outcome;
use permit_database::serving::served_in;
use permit_database::work::{Work, done_in};
use permit_office_file::copies::{in_memory, on_disk};
use permit_office_file::office_file::OfficeFile;
use permit_policy::Policy;
use permit_store::store::OpenError;
use permit_subcommands::days::RunDays;
use permit_subcommands::failure::Failure;
use sqlite::{Alter, Connection, Error, ErrorCode, FileStore};
use sqlite_disk::{Disk, Files};
use sqlite_pager::Options;
use sqlite_std_file::{OpenError as FileError, Start, Unknown};
use std::alloc::Global;
use std::fs::{self, File, Metadata, OpenOptions};
use std::hash::{BuildHasher, RandomState};
use std::io::ErrorKind;
use std::os::unix::fs::MetadataExt;
use std::sync::Wait;
use std::thread::Threads;

/// Why a database is not opened.
pub(crate) fn of_opening(error: Error) -> Failure
    ensures told { result ≡ opening_failure error }
    ensures kind { IsUnopened result }
{
    match error {
        Error::SqliteFailure(ErrorCode::OutOfMemory) => Failure::memory(),
        Error::SqliteFailure(ErrorCode::NotADatabase | ErrorCode::DatabaseCorrupt) =>
            Failure::Database(OpenError::Damaged),
        _ => Failure::Database(OpenError::Store),
    }
}

/// The database's file or its log: on the disk, or a copy in memory of one that is only read.
pub(crate) type DatabaseFile = OfficeFile<sqlite_std_file::File>;

/// A connection to the two.
pub(crate) type OfficeConnection = Connection<FileStore<DatabaseFile>>;

/// What is to be done on a database where histories and records are files.
pub(crate) type WorkOnDisk<'a> = Work<'a, HistoryOnDisk, File, Reading>;

/// Opens the two files of the database at a path, under SQLite's lock on them. Those that are missing are made.
fn files_at(rt: &HostRuntime, path: &str) -> Result<Files<sqlite_std_file::File>, Error>
    ensures { IfOk result (λ files. IsTrue (file_is_usable ⟦<Unknown as Start>⟧ files.log) × IsTrue (file_is_usable ⟦<Unknown as Start>⟧ files.db)) }
{
    if path == ":memory:" || path.starts_with("file:") {
        return Err(Error::SqliteFailure(ErrorCode::CannotOpen));
    }
    match sqlite_std_file::open(rt, path, Unknown) {
        Ok(files) => Ok(files),
        Err(FileError::OutOfMemory) => Err(Error::SqliteFailure(ErrorCode::OutOfMemory)),
        Err(FileError::Io(error)) if error.kind() == ErrorKind::OutOfMemory => Err(
            Error::SqliteFailure(ErrorCode::OutOfMemory),
        ),
        Err(FileError::Busy) => Err(Error::SqliteFailure(ErrorCode::DatabaseBusy)),
        Err(_) => Err(Error::SqliteFailure(ErrorCode::CannotOpen)),
    }
}

/// Connects to the two files of a database.
fn connected(rt: &HostRuntime, files: Files<DatabaseFile>) -> Result<OfficeConnection, Error>
    requires log { IsTrue (⟦<DatabaseFile as Disk>⟧.is_usable files.log) }
    requires db { IsTrue (⟦<DatabaseFile as Disk>⟧.is_usable files.db) }
{
    let Ok(random) = RandomState::new(rt) else {
        return Err(Error::SqliteFailure(ErrorCode::CannotOpen));
    };
    let options = Options::new(random.hash_one(&0u8));
    match Connection::open_files(rt.alloc(), files, options) {
        Ok(conn) => Ok(conn),
        Err((error, _)) => Err(error),
    }
}

/// Opens the database at a path, which is made where there is none.
fn opened(rt: &HostRuntime, path: &str) -> Result<OfficeConnection, Error> {
    match files_at(rt, path) {
        Ok(files) => connected(rt, on_disk(files)),
        Err(error) => Err(error),
    }
}

/// The path of the log that SQLite keeps beside the file at a path.
pub(crate) fn log_of(rt: &HostRuntime, path: &str) -> Option<String> {
    let real = fs::canonicalize(rt, path).ok()?;
    format!(in rt.alloc(); "{}-wal", real.as_str()).ok()
}

/// Removes the log at a path, which the opening of the file beside it made. One with bytes stays.
pub(crate) fn remove_log(rt: &HostRuntime, log: &str) {
    if let Ok(found) = fs::symlink_metadata(rt, log)
        && found.is_file()
        && found.len() == 0
    {
        let _ = fs::remove_file(rt, log);
    }
}

/// The path of the log that an opening of the file at a path makes; none where there is one.
fn log_made(rt: &HostRuntime, path: &str) -> Option<String> {
    let log = log_of(rt, path)?;
    match fs::exists(rt, log.as_str()) {
        Ok(false) => Some(log),
        _ => None,
    }
}

/// Connects to a copy in memory of the database at a path, whose files stay as they are.
pub(crate) fn copied(rt: &HostRuntime, path: &str) -> Result<OfficeConnection, Error> {
    let made = log_made(rt, path);
    let files = match files_at(rt, path) {
        Ok(files) => files,
        Err(error) => return Err(error),
    };
    let (files, copies) = in_memory(rt.alloc(), files);
    if let Some(log) = made {
        remove_log(rt, log.as_str());
    }
    drop(files);
    match copies {
        Ok(copies) => connected(rt, copies),
        Err(error) if error.kind() == ErrorKind::OutOfMemory => Err(Error::SqliteFailure(
            ErrorCode::OutOfMemory,
        )),
        Err(_) => Err(Error::SqliteFailure(ErrorCode::SystemIoFailure)),
    }
}

/// Opens the database at a path for work on it: a copy where the work only reads it.
fn opened_for(
    rt: &HostRuntime,
    path: &str,
    work: &WorkOnDisk<'_>,
) -> Result<OfficeConnection, Failure>
    ensures { IfErr result IsUnopened }
{
    let opened = if work.only_reads() {
        copied(rt, path)
    } else {
        opened(rt, path)
    };
    match opened {
        Ok(conn) => Ok(conn),
        Err(error) => Err(of_opening(error)),
    }
}

/// That there is a database at a path: none is made there.
pub(crate) fn has_database(rt: &HostRuntime, path: &str) -> Result<(), Failure>
    ensures { IfErr result IsUnusable }
{
    match fs::exists(rt, path) {
        Ok(false) => Err(Failure::Database(OpenError::Store)),
        _ => Ok(()),
    }
}

/// Closes a database, whose log is copied into the file then. Where that fails, the log stays beside the file, with all that was
/// accepted.
pub(crate) fn closed(conn: OfficeConnection) {
    let _ = conn.close();
}

/// Does the work on a database. A register and the lines of an import are written to `out` on the way. How many commands an opening
/// with a history redid, and why records are refused, where that is asked for, are written to `err`.
///
/// The prover doesn't take all types of a call of `done_in` at once. So here the store stays any.
fn done_over<S: Alter + Drop>(
    alloc: Global,
    conn: Connection<S>,
    work: WorkOnDisk<'_>,
    out: &mut Stream,
    err: &mut Stream,
) -> (Connection<S>, Result<Outcome, Failure>)
    ensures comes { IfOk result.1 (ComesOf work.entry (printed out.old) (printed out.new)) }
    ensures fails { IfErr result.1 (FailsAt work.entry (printed out.old) (printed out.new)) }
    ensures says { SaysAt work.entry (printed err.old) (printed err.new) }
{
    done_in(alloc, conn, work, out, err)
}

/// Does the work on the database at a path, as `done_over` does on one that is open. A call with the store of a file costs the
/// prover half a minute, so all work but serving comes here.
pub(crate) fn done_at(
    rt: &HostRuntime,
    path: &str,
    work: WorkOnDisk<'_>,
    out: &mut Stream,
    err: &mut Stream,
) -> Result<Outcome, Failure>
    ensures comes { IfOk result (ComesOf work.entry (printed out.old) (printed out.new)) }
    ensures fails { IfErr result (FailsAt work.entry (printed out.old) (printed out.new)) }
    ensures says { SaysAt work.entry (printed err.old) (printed err.new) }
{
    match opened_for(rt, path, &work) {
        Ok(conn) => {
            let (conn, done) = done_over(rt.alloc(), conn, work, out, err);
            closed(conn);
            done
        }
        Err(why) => {
            // Work that ends its life here does so once, and not in each of its forms.
            drop(work);
            Err(why)
        }
    }
}

/// Serves the office in the database that the words name over TCP, with its history where one comes with it, until its workers
/// have ended. The line of the address is written to `out`, and how many commands were redone to `err`.
#[tactic(auto, using(crate::proofs::Doings::says_no_opening))]
pub(crate) fn serve_at<R>(
    rt: &HostRuntime,
    workers: R,
    policy: Policy,
    days: &RunDays,
    words: &ServeWords<'_>,
    history: Option<Recording<HistoryOnDisk>>,
    out: &mut Stream,
    err: &mut Stream,
) -> Result<(), Failure>
where
    R: Threads + Wait + Copy + Drop + Send + 'static,
    ensures fails { IfErr result (λ why. OrOfText history (IsUnusable why) why ⊎ FailsToListen words.now.listen.now why) }
    ensures says { SaysWhere (printed out.old) (printed out.new) result }
    ensures redone { SaysOpening history (printed err.old) (printed err.new) }
{
    match opened(rt, words.db) {
        Ok(conn) => {
            let (conn, served) = served_in(
                rt, workers, conn, policy, days, words, history, out, err,
            );
            closed(conn);
            served
        }
        Err(error) => {
            drop(history);
            Err(of_opening(error))
        }
    }
}

/// Why a file isn't opened, where the library only says that it can't be.
fn reason_of_file(rt: &HostRuntime, path: &str, found: &Metadata) -> Reason
    ensures { IsTrue (is_of_path result) }
{
    if !found.is_file() {
        return Reason::NotRegular;
    }
    if found.nlink() != 1 {
        return Reason::SecondName;
    }
    match OpenOptions::new().read(true).write(true).open(rt, path) {
        Ok(_) => Reason::NoLog,
        Err(_) => Reason::NoRight,
    }
}

/// Why the library doesn't open the file at a path.
fn reason_unopened(rt: &HostRuntime, path: &str, found: &Metadata, error: Error) -> Reason
    ensures by_error { IfSome (opening_reason error) (λ reason. result ≡ reason) }
    ensures of_path { IsTrue (is_of_path result) }
{
    match error {
        Error::SqliteFailure(ErrorCode::CannotOpen) => reason_of_file(rt, path, found),
        Error::SqliteFailure(ErrorCode::DatabaseBusy) => Reason::InUse,
        Error::SqliteFailure(ErrorCode::DiskFull) => Reason::DiskFull,
        Error::SqliteFailure(ErrorCode::OutOfMemory) => Reason::Memory,
        Error::SqliteFailure(ErrorCode::NotADatabase | ErrorCode::DatabaseCorrupt) =>
            Reason::NoDatabase,
        _ => Reason::DiskFails,
    }
}

/// Why there is nothing at a path that could be opened, by whether a file was to be made there.
fn reason_absent(kind: ErrorKind, makes: bool) -> Reason
    ensures { IsTrue (is_of_path result) }
{
    match kind {
        ErrorKind::NotFound | ErrorKind::NotADirectory if makes => Reason::NoFolder,
        ErrorKind::NotFound | ErrorKind::NotADirectory => Reason::NoFile,
        ErrorKind::PermissionDenied => Reason::NoRight,
        ErrorKind::OutOfMemory => Reason::Memory,
        _ => Reason::DiskFails,
    }
}

/// Why the database at a path can't be used from which the tables of an edition are wanted, as it is found after the failure.
/// No file is made or changed.
pub fn reason_at(
    rt: &HostRuntime,
    path: &str,
    makes: bool,
    wanted: Edition,
    why: OpenError,
) -> Reason
    ensures { IsReasonFor wanted why result }
{
    let found = match fs::metadata(rt, path) {
        Ok(found) => found,
        Err(error) => return reason_absent(error.kind(), makes),
    };
    if found.is_dir() {
        return Reason::Folder;
    }
    match copied(rt, path) {
        Ok(conn) => {
            let mut conn = conn;
            let reason = reason_in(&mut conn, wanted, why);
            closed(conn);
            reason
        }
        Err(error) => reason_unopened(rt, path, &found, error),
    }
}
