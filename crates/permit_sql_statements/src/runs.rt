//! Statements that lead from the tables that a connection shows to others, in one transaction.

ghost use Rattle.std.specs.Prelude.{map, [], ◌∷◌};
ghost use Rattle.sqlite.specs.Values.{bound};
ghost use Rattle.permit_sql_statements.specs.TextAndParams.{text_and_params};
ghost use Rattle.permit_sql_statements.specs.Frames.{IsRun};

use crate::idle::Idle;
use crate::statements::{Statement, run_all};
use permit_store::store::{Got, StoreError};
use sqlite::Alter;
use sqlite_value::value::ValueRef;

/// All statements in turn or none, also over a crash.
pub(crate) fn run<S: Alter>(conn: &mut Idle<S>, statements: &[Statement<'_>]) -> Got<()>
    ensures { IsRun S.Store (map text_and_params statements.now) conn.old conn.new result }
{
    match run_all(&mut conn.conn, statements) {
        Ok(()) => Ok(()),
        Err(_) => Err(StoreError),
    }
}

/// One statement or nothing, also over a crash.
pub(crate) fn run_one<'a, S: Alter>(
    conn: &mut Idle<S>,
    text: &'a str,
    params: &'a [ValueRef<'a>],
) -> Got<()>
    ensures { IsRun S.Store ((text.now, bound params.now) ∷ []) conn.old conn.new result }
{
    run(conn, &[Statement { text, params }])
}
