//! An empty database, in which the office is founded that the text of a history founds.

ghost use Rattle.std.specs.Prelude.{◌≡◌, ◌⊎◌, IfErr, IfOk};
ghost use Rattle.sqlite.specs.Held.{state};
ghost use Rattle.permit_replay.specs.Holding.{IsBeginning};
ghost use Rattle.permit_sql_rows.specs.Schema.{empty_schema};
ghost use Rattle.permit_database.specs.Failing.{IsOfStore, IsOfText};
ghost use Rattle.permit_database.specs.Opening.{IsBase, WasRead};
ghost use Rattle.permit_database.specs.Replaying.{IsLeftOf};

use crate::replaying::{founder_told, is_empty};
use permit_journal::file::HistoryFile;
use permit_recorded::resuming::read::read_whole;
use permit_replay::beginning::Beginning;
use permit_sql::store::SqlStore;
use permit_store::plain::PlainStore;
use permit_store::store::{OpenError, Store};
use permit_subcommands::failure::{Failure, HistoryFailure};
use sqlite::{Alter, Connection};
use std::alloc::Global;

/// Founds in an empty database the office that the text of a file founds, which has to be replayed whole, in memory.
fn found_as_text<S: Alter + Drop, H: HistoryFile + Drop>(
    alloc: Global,
    conn: Connection<S>,
    file: &mut H,
) -> Result<Connection<S>, (Connection<S>, Failure)>
    ensures base { IfOk result (λ from. IsBase S.Store (IsBeginning ⟦<PlainStore as Store>⟧.view Beginning.Founding) H.view conn from (H.view file.old).text
        file.new) }
    ensures same { IfErr result (λ back. IsLeftOf S.Store conn back.0) }
    ensures read { WasRead H.view file.old file.new }
    ensures fails { IfErr result (λ back. IsOfStore back.1 ⊎ IsOfText back.1) }
{
    let Ok(text) = read_whole(alloc, file) else {
        return Err((conn, Failure::History(HistoryFailure::Store)));
    };
    let (mut whole, mut first) = (text.as_slice(), text.as_slice());
    match founder_told(alloc, Beginning::Founding, &mut whole, &mut first) {
        Ok(Some(founder)) => match SqlStore::create(alloc, conn, &founder) {
            Ok(store) => Ok(store.into_connection()),
            Err((conn, _)) => Err((conn, Failure::Database(OpenError::Store))),
        },
        Ok(None) => Ok(conn),
        Err(why) => Err((conn, why)),
    }
}

/// Founds in an empty database the office that the text of a file founds, unless the text begins with a copy of a database. With a
/// failure the database is as it was.
pub(crate) fn found_first<S: Alter + Drop, H: HistoryFile + Drop>(
    alloc: Global,
    conn: Connection<S>,
    beginning: &Beginning,
    file: &mut H,
) -> Result<Connection<S>, (Connection<S>, Failure)>
    ensures base { IfOk result (λ from. IsBase S.Store (IsBeginning ⟦<PlainStore as Store>⟧.view beginning.now) H.view conn from (H.view file.old).text file.new) }
    ensures empty { IfErr result (λ back. (state S.Store conn).now.schema ≡ empty_schema) }
    ensures same { IfErr result (λ back. IsLeftOf S.Store conn back.0) }
    ensures read { WasRead H.view file.old file.new }
    ensures fails { IfErr result (λ back. IsOfStore back.1 ⊎ IsOfText back.1) }
{
    if !is_empty(&conn) {
        return Ok(conn);
    }
    match beginning {
        Beginning::Founding => found_as_text(alloc, conn, file),
        Beginning::Copy(_) => Ok(conn),
    }
}
