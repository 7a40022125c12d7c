//! The rows of an answer, tested one at a time.

ghost use Rattle.std.specs.Prelude.{Bool, IfOk};
ghost use Rattle.sqlite_value.specs.Order.{Row as SqlRow};
ghost use Rattle.sqlite.specs.State.{HasCleanDisk};
ghost use Rattle.sqlite.specs.Values.{bound};
ghost use Rattle.sqlite.specs.Held.{state};
ghost use Rattle.sqlite.specs.Given.{IsPlain};
ghost use Rattle.sqlite.specs.Listing.{understood};
ghost use Rattle.permit_sql.specs.Taken.{TookRows};
ghost use Rattle.permit_sql.specs.Frames.{IsLook};
ghost use Rattle.permit_sql_statements.specs.Frames.{IsIdle};

use sqlite::{Alter, Connection, Error, ErrorCode, Row};
use sqlite_value::value::ValueRef;

/// Takes rows one at a time, and says whether it wants more.
pub trait Taker {
    ghost took: { Self → SqlRow → Self → Bool → Type 0 };

    fn take(&mut self, row: &Row) -> bool
        ensures { took self.old row.now self.new result };
}

/// Hands the rows of the answer to the taker, in order, until it wants no more. True says that it took them all.
pub fn each_row<S: Alter, T: Taker>(
    conn: &mut Connection<S>,
    sql: &str,
    params: &[ValueRef<'_>],
    taker: &mut T,
) -> Result<bool, Error>
    requires idle { IsIdle conn.old }
    requires plain { IsPlain (understood conn.old.schema sql.now) }
    ensures ok { HasCleanDisk (state S.Store conn.new)
        → IfOk result (λ all. TookRows T.Taker.took S.Store sql.now (bound params.now) conn.old conn.new taker.old taker.new all) }
    ensures look { IsLook S.Store conn.old conn.new result }
{
    let _settled = conn.is_autocommit();
    let mut rows = conn.query(sql, params)?;
    'rows: for _ in 0..u64::MAX {
        let Some(row) = rows.next()? else {
            return Ok(true);
        };
        if !taker.take(row) {
            return Ok(false);
        }
    }
    Err(Error::SqliteFailure(ErrorCode::OutOfMemory))
}
