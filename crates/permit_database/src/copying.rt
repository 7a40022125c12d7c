//! Starting the history of an office that has none, and the copy of its database with which such a history begins.

ghost use Rattle.std.specs.Prelude.{◌≡◌, ◌≢◌, ◌⊎◌, [], Err, IfErr, IfOk, OnErr, OnOk};
ghost use Rattle.sqlite.specs.State.{HasCleanDisk};
ghost use Rattle.sqlite.specs.Held.{state};
ghost use Rattle.permit_import.specs.declared.refused.RefusalWord.TheVariants.{Store as StoreWord};
ghost use Rattle.permit_journal.specs.Files.{LeavesGrown};
ghost use Rattle.permit_journal.specs.Journals.{Has, HasUnlessShut, IsSettled};
ghost use Rattle.permit_model.specs.Sound.{IsSoundTables};
ghost use Rattle.permit_model.specs.Tables.{Tables};
ghost use Rattle.permit_sql_rows.specs.Kept.{Shows};
ghost use Rattle.permit_store.specs.Frames.{OverTables};
ghost use Rattle.permit_subcommands.specs.Failures.{plain};
ghost use Rattle.permit_subcommands.specs.declared.failure.Failure.TheVariants.{History};
ghost use Rattle.permit_subcommands.specs.declared.failure.HistoryFailure.TheVariants.{Copy, Exists};
ghost use Rattle.permit_replay.specs.Comparing.{Looks};
ghost use Rattle.permit_database.specs.Copying.{begin_line, Begins, HasCopied, IsSealedOn};
ghost use Rattle.permit_database.specs.Failing.{IsUnstarted, IsUnusable};
ghost use Rattle.permit_database.specs.Opening.{IsOnlyRead};

use crate::line::whole_line;
use crate::opening::store_in;
use permit_base::values::{Day, Digest};
use permit_history::entry::Deed;
use permit_journal::file::HistoryFile;
use permit_journal::journal::Journal;
use permit_replay::beginning::{Beginning, CopiedTables};
use permit_replay::seal::seal;
use permit_store::plain::PlainStore;
use permit_store::store::{OpenError, Store};
use permit_subcommands::failure::{Failure, HistoryFailure};
use sqlite::{Alter, Connection};
use std::alloc::Global;

/// The tables of a store in memory, under the digest of their text.
fn copied_of<S: Store>(alloc: Global, store: &mut S) -> Result<Beginning, Failure>
    ensures copied { OverTables (S.view store.old) (S.view store.new) (λ t. IsSoundTables t
        → IfOk result (HasCopied ⟦<PlainStore as Store>⟧.view t)) }
    ensures looks { Looks (S.view store.old) (S.view store.new) }
    ensures fails { IfErr result (λ why. why ≡ plain StoreWord) }
{
    let Ok(mut tables) = PlainStore::load(alloc, store) else {
        return Err(Failure::memory());
    };
    match seal(&mut tables) {
        Ok(digest) => Ok(Beginning::Copy(CopiedTables {
            store: tables,
            tables: digest,
        })),
        Err(_) => Err(Failure::memory()),
    }
}

/// The tables of the copy of an office's database, with which its history begins. The copy is only read.
pub fn copied_in<S: Alter + Drop>(
    alloc: Global,
    conn: Connection<S>,
) -> (Connection<S>, Result<Beginning, Failure>)
    ensures copied { IfOk result.1 (λ beginning. HasCleanDisk (state S.Store result.0) → (t : Tables) → Shows t (state S.Store conn)
        → IsSoundTables t → HasCopied ⟦<PlainStore as Store>⟧.view t beginning) }
    ensures back { IsOnlyRead S.Store conn result.0 }
    ensures fails { IfErr result.1 (λ why. (why ≡ History Copy) ⊎ (why ≡ plain StoreWord)) }
{
    match store_in(alloc, conn, None) {
        Ok(store) => {
            let mut store = store;
            let copied = copied_of(alloc, &mut store);
            let conn = store.into_connection();
            match copied {
                Ok(copied) => (conn, Ok(copied)),
                Err(why) => (conn, Err(why)),
            }
        }
        Err((conn, _)) => (conn, Err(Failure::History(HistoryFailure::Copy))),
    }
}

/// An office's last day, and the digest of the text of its tables.
#[derive(Clone, Copy)]
struct Sealed {
    last: Day,
    tables: Digest,
}

/// The last day of a store and the digest of the text of its tables.
fn sealed_of<S: Store>(store: &mut S) -> Result<Sealed, Failure>
    ensures sealed { OverTables (S.view store.old) (S.view store.new) (λ t. IsSoundTables t
        → IfOk result (λ it. IsSealedOn t it.last it.tables)) }
    ensures looks { Looks (S.view store.old) (S.view store.new) }
    ensures other { IfErr result (λ why. why ≢ History Exists) }
    ensures fails { IfErr result IsUnusable }
{
    let Ok(desk) = store.desk() else {
        return Err(Failure::Database(OpenError::Store));
    };
    match seal(store) {
        Ok(tables) => Ok(Sealed {
            last: desk.last,
            tables,
        }),
        Err(_) => Err(Failure::Database(OpenError::Store)),
    }
}

/// The same of the office in a database, which is only read.
fn sealed_in<S: Alter + Drop>(
    alloc: Global,
    conn: Connection<S>,
) -> (Connection<S>, Result<Sealed, Failure>)
    ensures sealed { IfOk result.1 (λ it. HasCleanDisk (state S.Store result.0) → (t : Tables) → Shows t (state S.Store conn)
        → IsSoundTables t → IsSealedOn t it.last it.tables) }
    ensures back { IsOnlyRead S.Store conn result.0 }
    ensures other { IfErr result.1 (λ why. why ≢ History Exists) }
    ensures fails { IfErr result.1 IsUnusable }
{
    match store_in(alloc, conn, None) {
        Ok(store) => {
            let mut store = store;
            let sealed = sealed_of(&mut store);
            let conn = store.into_connection();
            match sealed {
                Ok(sealed) => (conn, Ok(sealed)),
                Err(why) => (conn, Err(why)),
            }
        }
        Err((conn, why)) => (conn, Err(Failure::Database(why))),
    }
}

/// Begins the text of a history that has none, with the tables of this digest on the day.
fn begin_text<H: HistoryFile + Drop>(
    alloc: Global,
    journal: &mut Journal<H>,
    sealed: &Sealed,
) -> Result<(), Failure>
    ensures begun { IsSettled H.view journal.old → OnOk result (((H.view journal.old.file).text ≡ [])
        × Has H.view journal.new (begin_line sealed.now.last sealed.now.tables)) }
    ensures back { IsSettled H.view journal.old
        → OnErr result (HasUnlessShut H.view journal.new journal.new.is_shut (H.view journal.old.file).text) }
    ensures exists { IsSettled H.view journal.old → result ≡ Err (History Exists) → (H.view journal.old.file).text ≢ [] }
    ensures there { IsSettled H.view journal.old → (H.view journal.old.file).text ≢ [] → result ≡ Err (History Exists) }
    ensures crash { IsSettled H.view journal.old
        → LeavesGrown H.leaves (begin_line sealed.now.last sealed.now.tables) (H.view journal.old.file).text (H.view journal.new.file).may_leave }
    ensures fails { IfErr result (λ why. IsUnusable why ⊎ IsUnstarted why) }
{
    if journal.length() != 0 {
        return Err(Failure::History(HistoryFailure::Exists));
    }
    let begin = Deed::Begin {
        tables: sealed.tables,
    };
    let line = whole_line(alloc, sealed.last, begin)?;
    match journal.enter(line.as_slice()) {
        Ok(()) => Ok(()),
        Err(_) => Err(Failure::History(HistoryFailure::Store)),
    }
}

/// Begins the history of the office in a database, which is only read: the text's first line gives the office's last day and the
/// digest of its tables' text, and is on the disk. It returns that day. A journal with a text is refused, as `exists`. With a
/// refusal the text is as it was, unless the journal is shut.
///
/// # Examples
///
/// ```
/// let (_, begun) = begin_in(alloc, conn, &mut journal);
/// let Ok(last) = begun else {
///     return Err(Fail::new("no beginning"));
/// };
/// assert!(rt; last == founder.day && journal.length() != 0);
/// ```
pub fn begin_in<S: Alter + Drop, H: HistoryFile + Drop>(
    alloc: Global,
    conn: Connection<S>,
    journal: &mut Journal<H>,
) -> (Connection<S>, Result<Day, Failure>)
    ensures begun { IfOk result.1 (λ day. IsSettled H.view journal.old → HasCleanDisk (state S.Store result.0)
        → (t : Tables) → Shows t (state S.Store conn) → IsSoundTables t → Begins H.view t day journal.new) }
    ensures empty { IsSettled H.view journal.old → OnOk result.1 ((H.view journal.old.file).text ≡ []) }
    ensures unbegun { IsSettled H.view journal.old
        → OnErr result.1 (HasUnlessShut H.view journal.new journal.new.is_shut (H.view journal.old.file).text) }
    ensures exists { IsSettled H.view journal.old → result.1 ≡ Err (History Exists) → (H.view journal.old.file).text ≢ [] }
    ensures back { IsOnlyRead S.Store conn result.0 }
    ensures fails { IfErr result.1 (λ why. IsUnusable why ⊎ IsUnstarted why) }
{
    let (conn, sealed) = sealed_in(alloc, conn);
    match sealed {
        Ok(sealed) => match begin_text(alloc, journal, &sealed) {
            Ok(()) => (conn, Ok(sealed.last)),
            Err(why) => (conn, Err(why)),
        },
        Err(why) => (conn, Err(why)),
    }
}
