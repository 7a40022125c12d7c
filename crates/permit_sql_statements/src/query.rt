//! A read, and what it leaves.

ghost use Rattle.std.specs.Prelude.{IfOk};
ghost use Rattle.sqlite.specs.State.{HasCleanDisk, Shown};
ghost use Rattle.sqlite.specs.Values.{bound};
ghost use Rattle.sqlite.specs.Held.{state};
ghost use Rattle.permit_base.specs.declared.words.Edition.TheVariants.{Second};
ghost use Rattle.permit_sql_statements.specs.Frames.{IsIdle, IsPlainIn, IsQuery, IsRead, ReadOutlasts};

use crate::idle::Idle;
use permit_store::store::{Got, StoreError};
use sqlite::{Alter, Connection, Error, Row};
use sqlite_value::value::ValueRef;

/// All rows of the answer.
pub fn read_all<S: Alter>(
    conn: &mut Connection<S>,
    sql: &str,
    params: &[ValueRef<'_>],
) -> Result<Vec<Row>, Error>
    requires { IsIdle conn.old }
    ensures rows { HasCleanDisk (state S.Store conn.new)
        → IfOk result (λ rows. Shown sql.now (bound params.now) (state S.Store conn.old) (state S.Store conn.new) rows.items) }
    ensures query { IsQuery S.Store sql.now conn.old conn.new result }
{
    let _settled = conn.is_autocommit();
    conn.query_all(sql, params)
}

/// All rows of the answer to a query of the office's tables, which leaves them.
pub(crate) fn rows_of<S: Alter>(
    conn: &mut Idle<S>,
    sql: &str,
    params: &[ValueRef<'_>],
) -> Got<Vec<Row>>
    ensures shown { HasCleanDisk (state S.Store conn.new)
        → IfOk result (λ rows. Shown sql.now (bound params.now) (state S.Store conn.old) (state S.Store conn.new) rows.items) }
    ensures read { IsPlainIn Second sql.now → IsRead S.Store conn.old conn.new result }
    ensures outlasts { IsPlainIn Second sql.now → ReadOutlasts S.Store conn.old conn.new }
{
    match read_all(&mut conn.conn, sql, params) {
        Ok(rows) => Ok(rows),
        Err(_) => Err(StoreError),
    }
}
