//! Statements in one transaction.

ghost use Rattle.std.specs.Prelude.{map};
ghost use Rattle.permit_sql_statements.specs.Frames.{IsIdle, RunsAll};
ghost use Rattle.permit_sql_statements.specs.TextAndParams.{text_and_params};

use sqlite::{Alter, Connection, Error};
use sqlite_value::value::ValueRef;

/// A statement and its parameters.
#[derive(Drop)]
pub struct Statement<'a> {
    pub text: &'a str,
    pub params: &'a [ValueRef<'a>],
}

/// All statements in turn or none, also over a crash.
pub fn run_all<S: Alter>(
    conn: &mut Connection<S>,
    statements: &[Statement<'_>],
) -> Result<(), Error>
    requires { IsIdle conn.old }
    ensures { RunsAll S.Store (map text_and_params statements.now) conn.old conn.new result }
{
    let _settled = conn.is_autocommit();
    let mut tx = conn.transaction();
    'statements: for statement in statements {
        tx.execute(statement.text, statement.params)?;
    }
    tx.commit()?;
    Ok(())
}
