//! A store that is closed and opened again.

ghost use Rattle.std.specs.Prelude.{IfSome};
ghost use Rattle.sqlite.specs.State.{HasCleanDisk};
ghost use Rattle.sqlite.specs.Files.{file_state};
ghost use Rattle.sqlite.specs.Held.{state};
ghost use Rattle.permit_model.specs.Tables.{Tables};
ghost use Rattle.permit_sql_rows.specs.Kept.{Keeps, Shows};
ghost use Rattle.permit_sql.specs.Reopening.{FindsAgain, HasSettled};

use crate::store::SqlStore;
use permit_store::store::Store;
use sqlite::{Alter, Connection, FileStore, Options};
use sqlite_disk::Disk;
use std::alloc::Global;

/// The connection of a store, which has committed what the store held.
fn settled<S: Alter>(store: SqlStore<S>) -> Connection<S>
    ensures { (t : Tables) → (HasCleanDisk (state S.Store store.conn) → Shows t (state S.Store store.conn)) → HasSettled t (state S.Store result) }
{
    let conn = store.into_connection();
    let _settled = conn.is_autocommit();
    let _schema = conn.schema();
    conn
}

/// Closes a connection and opens its files again, which finds what was committed. It gives none where a call failed.
fn opened_again<D: Disk + Drop>(
    alloc: Global,
    conn: Connection<FileStore<D>>,
    options: Options,
) -> Option<Connection<FileStore<D>>>
    ensures { IfSome result (λ again. HasCleanDisk (file_state again) → FindsAgain (file_state conn) (file_state again)) }
{
    let files = match conn.close_files() {
        Ok(files) => files,
        Err((_, left)) => {
            drop(left.close());
            return None;
        }
    };
    match Connection::open_files(alloc, files, options) {
        Ok(again) => Some(again),
        Err(_) => None,
    }
}

/// Closes a store's connection and opens its files again. The database of the connection that is given
/// back keeps what the store held. It gives none where a call failed.
pub fn reopen<D: Disk + Drop>(
    alloc: Global,
    store: SqlStore<FileStore<D>>,
    options: Options,
) -> Option<Connection<FileStore<D>>>
    ensures { (t : Tables) → (⟦<SqlStore<FileStore<D>> as Store>⟧.view store).holds t → IfSome result (λ again. HasCleanDisk (file_state again) → Keeps t (file_state again).now) }
{
    opened_again(alloc, settled(store), options)
}
