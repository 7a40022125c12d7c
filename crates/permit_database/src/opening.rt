//! Opening an office in a database, with or without its history.

ghost use Rattle.std.specs.Prelude.{◌≡◌, IfErr, IfOk, MatchResult, OnOk, Some, string_bytes};
ghost use Rattle.permit_database.specs.Doing.{SaysOpening, SaysRedone, redone_line};
ghost use Rattle.permit_database.specs.Failing.{IsUnsettled};
ghost use Rattle.permit_database.specs.Opening.{FailsToSettle, IsBase, IsOver, LeavesOpened, OpensWith, Refuses, WasRead};
ghost use Rattle.permit_replay.specs.Holding.{IsBeginning};
ghost use Rattle.sqlite.specs.Held.{Held};

use crate::empty::found_first;
use crate::failing::of_resuming;
use permit_journal::file::HistoryFile;
use permit_journal::journal::Journal;
use permit_recorded::resuming::settle;
use permit_replay::alike::unordered::Unordered;
use permit_replay::beginning::Beginning;
use permit_sockets::connections::Flag;
use permit_sql::store::SqlStore;
use permit_store::plain::PlainStore;
use permit_store::store::{OpenError, Store};
use permit_subcommands::failure::Failure;
use permit_subcommands::printing::print_text;
use sqlite::{Alter, Connection};
use std::alloc::{AllocError, Global};
use std::io::Write;

/// The file of a history, and what its text may begin with.
#[derive(Drop)]
pub struct Recording<H: HistoryFile + Drop> {
    pub beginning: Beginning,
    pub file: H,
}

/// A store with the tables that the text of a history gives, and the journal over that text.
#[derive(Drop)]
pub struct Settled<S: Alter, H: HistoryFile> {
    pub store: Unordered<SqlStore<S>>,
    pub journal: Journal<H>,
    /// How many lines of the text were redone on the store.
    pub redone: u64,
}

/// The store in a database; else the connection comes back. The flag is set once the connection is shut.
pub fn store_in<S: Alter + Drop>(
    alloc: Global,
    conn: Connection<S>,
    shut: Option<Flag>,
) -> Result<SqlStore<S>, (Connection<S>, OpenError)>
    ensures opened { IfOk result (λ store. IsOver S.Store conn store.conn (⟦<SqlStore<S> as Store>⟧.view store)) }
    ensures refused { IfErr result (λ back. Refuses S.Store conn back.0 back.1) }
{
    match SqlStore::open(alloc, conn) {
        Ok(store) => {
            let mut store = store;
            if let Some(shut) = shut {
                store.tell_when_shut(shut);
            }
            Ok(store)
        }
        Err(refused) => Err(refused),
    }
}

/// The line of how many lines were redone.
fn redone_text(alloc: Global, redone: u64) -> Result<String, AllocError>
    ensures { IfOk result (λ line. string_bytes line ≡ redone_line redone) }
{
    format!(in alloc; "history: redid {redone} commands\n")
}

/// Says on a line how many lines were redone, if any were. A failure of the writer, and want of memory, can't be reported.
fn say_redone<E: Write>(alloc: Global, redone: u64, err: &mut E)
    ensures { SaysRedone redone (E.contents err.old) (E.contents err.new) }
{
    if redone == 0 {
        return;
    }
    if let Ok(line) = redone_text(alloc, redone) {
        let _ = print_text(err, line.as_str());
    }
}

/// Redoes on a store that was opened over a connection what the text of the file has beyond its tables. The file was only read
/// before.
fn settle_over<S: Alter + Drop, H: HistoryFile + Drop>(
    alloc: Global,
    store: SqlStore<S>,
    history: Recording<H>,
) -> Result<Settled<S, H>, (Connection<S>, H, Failure)>
    ensures settled { (conn from : Held _) (file : H) → WasRead H.view file history.file
        → IsBase S.Store (IsBeginning ⟦<PlainStore as Store>⟧.view history.beginning) H.view conn from (H.view file).text history.file
        → IsOver S.Store from store.conn (⟦<SqlStore<S> as Store>⟧.view store)
        → IfOk result (λ it. OpensWith S.Store (IsBeginning ⟦<PlainStore as Store>⟧.view history.beginning) H.view conn it.store.store.conn
        (H.view file).text (⟦<Unordered<SqlStore<S>> as Store>⟧.view it.store) it.journal it.redone) }
    ensures left { (conn from : Held _) (file : H) → WasRead H.view file history.file
        → IsBase S.Store (IsBeginning ⟦<PlainStore as Store>⟧.view history.beginning) H.view conn from (H.view file).text history.file
        → IsOver S.Store from store.conn (⟦<SqlStore<S> as Store>⟧.view store)
        → IfErr result (λ back. FailsToSettle S.Store (IsBeginning ⟦<PlainStore as Store>⟧.view history.beginning) H.view H.leaves conn back.0
        file back.1 back.2) }
    ensures fails { IfErr result (λ back. IsUnsettled back.2) }
{
    let Recording { beginning, file } = history;
    let mut store = Unordered { store };
    match settle(alloc, beginning, &mut store, file) {
        Ok(settled) => Ok(Settled {
            store,
            journal: settled.journal,
            redone: settled.redone,
        }),
        Err((file, fault)) => {
            let Unordered { store } = store;
            Err((store.into_connection(), file, of_resuming(&fault)))
        }
    }
}

/// Opens the store in a database, and redoes on it what the text of the file has beyond its tables. The file was only read before, and
/// the office founded first if the database was empty.
fn settle_from<S: Alter + Drop, H: HistoryFile + Drop>(
    alloc: Global,
    from: Connection<S>,
    history: Recording<H>,
    shut: Option<Flag>,
) -> Result<Settled<S, H>, (Connection<S>, H, Failure)>
    ensures settled { (conn : Held _) (file : H) → WasRead H.view file history.file
        → IsBase S.Store (IsBeginning ⟦<PlainStore as Store>⟧.view history.beginning) H.view conn from (H.view file).text history.file
        → IfOk result (λ it. OpensWith S.Store (IsBeginning ⟦<PlainStore as Store>⟧.view history.beginning) H.view conn it.store.store.conn
        (H.view file).text (⟦<Unordered<SqlStore<S>> as Store>⟧.view it.store) it.journal it.redone) }
    ensures left { (conn : Held _) (file : H) → WasRead H.view file history.file
        → IsBase S.Store (IsBeginning ⟦<PlainStore as Store>⟧.view history.beginning) H.view conn from (H.view file).text history.file
        → IfErr result (λ back. FailsToSettle S.Store (IsBeginning ⟦<PlainStore as Store>⟧.view history.beginning) H.view H.leaves conn back.0
        file back.1 back.2) }
    ensures fails { IfErr result (λ back. IsUnsettled back.2) }
{
    match store_in(alloc, from, shut) {
        Ok(store) => settle_over(alloc, store, history),
        Err((conn, why)) => {
            let Recording { beginning, file } = history;
            drop(beginning);
            Err((conn, file, Failure::Database(why)))
        }
    }
}

/// Opens the store in a database, and redoes on it what the text of the history's file has beyond its tables: the text is a
/// write-ahead log. In an empty database the office is made first that the text founds. What is after the text's last LF is cut. How
/// many lines were redone is said on a line of `err`, if any were. The flag is set once the connection is shut. With a failure the
/// connection and the file come back, and the tables are as before or those of a longer prefix of the text.
pub fn settled_in<S: Alter + Drop, H: HistoryFile + Drop, E: Write>(
    alloc: Global,
    conn: Connection<S>,
    history: Recording<H>,
    shut: Option<Flag>,
    err: &mut E,
) -> Result<Settled<S, H>, (Connection<S>, H, Failure)>
    ensures settled { IfOk result (λ it. OpensWith S.Store (IsBeginning ⟦<PlainStore as Store>⟧.view history.beginning) H.view conn it.store.store.conn
        (H.view history.file).text (⟦<Unordered<SqlStore<S>> as Store>⟧.view it.store) it.journal it.redone) }
    ensures left { IfErr result (λ back. FailsToSettle S.Store (IsBeginning ⟦<PlainStore as Store>⟧.view history.beginning) H.view H.leaves conn back.0
        history.file back.1 back.2) }
    ensures fails { IfErr result (λ back. IsUnsettled back.2) }
    ensures says { MatchResult result (λ it. SaysRedone it.redone (E.contents err.old) (E.contents err.new))
        (λ back. E.contents err.new ≡ E.contents err.old) }
{
    let Recording {
        beginning,
        mut file,
    } = history;
    match found_first(alloc, conn, &beginning, &mut file) {
        Ok(from) => match settle_from(alloc, from, Recording { beginning, file }, shut) {
            Ok(settled) => {
                say_redone(alloc, settled.redone, err);
                Ok(settled)
            }
            Err(back) => Err(back),
        },
        Err((conn, why)) => {
            drop(beginning);
            Err((conn, file, why))
        }
    }
}

/// Brings the office in a database to the end of its history, as `settled_in` does, and gives the connection and the file back.
pub fn complete_in<S: Alter + Drop, H: HistoryFile + Drop, E: Write>(
    alloc: Global,
    conn: Connection<S>,
    history: Recording<H>,
    err: &mut E,
) -> (Connection<S>, H, Result<(), Failure>)
    ensures completed { OnOk result.2 (LeavesOpened S.Store (IsBeginning ⟦<PlainStore as Store>⟧.view history.beginning) H.view conn result.0
        history.file result.1 (E.contents err.old) (E.contents err.new)) }
    ensures left { IfErr result.2 (λ why. FailsToSettle S.Store (IsBeginning ⟦<PlainStore as Store>⟧.view history.beginning) H.view H.leaves conn result.0
        history.file result.1 why) }
    ensures fails { IfErr result.2 IsUnsettled }
    ensures says { SaysOpening (Some history) (E.contents err.old) (E.contents err.new) }
{
    match settled_in(alloc, conn, history, None, err) {
        Ok(settled) => {
            let Settled {
                store,
                journal,
                redone: _,
            } = settled;
            (store.store.into_connection(), journal.into_file(), Ok(()))
        }
        Err((conn, file, why)) => (conn, file, Err(why)),
    }
}
