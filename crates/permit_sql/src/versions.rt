//! Which version a database's desk says.

ghost use Rattle.std.specs.Prelude.{◌≡◌, IfOk, IsTrue, OnOk};
ghost use Rattle.sqlite.specs.State.{HasCleanDisk};
ghost use Rattle.sqlite.specs.Held.{state};
ghost use Rattle.permit_sql.specs.Frames.{LeavesOverCrash, LeavesRows};
ghost use Rattle.permit_sql.specs.Opening.{HasOtherVersion};

use crate::open::has_other_version;
use permit_base::words::Edition;
use permit_sql_rows::schema::has_desk;
use permit_store::store::{Got, StoreError};
use sqlite::{Alter, Connection};

/// Whether a database has a desk whose one row says another version than that of the tables under the edition. The
/// database stays as it is.
pub fn says_other_version<S: Alter>(conn: &mut Connection<S>, edition: Edition) -> Got<bool>
    ensures other { HasCleanDisk (state S.Store conn.new)
        → IfOk result (λ is. IsTrue is → HasOtherVersion edition (state S.Store conn.old).now) }
    ensures told { HasCleanDisk (state S.Store conn.new) → HasOtherVersion edition (state S.Store conn.old).now
        → IfOk result (λ is. IsTrue is) }
    ensures same { HasCleanDisk (state S.Store conn.new)
        → OnOk result (HasCleanDisk (state S.Store conn.old) × ((state S.Store conn.new).now ≡ (state S.Store conn.old).now)) }
    ensures left { LeavesRows S.Store conn.old conn.new }
    ensures crash { LeavesOverCrash S.Store conn.old conn.new }
{
    if !conn.is_autocommit() {
        return Err(StoreError);
    }
    if !has_desk(conn.schema()) {
        return Ok(false);
    }
    has_other_version(conn, edition)
}
