//! Which tables there are in a database that can't be used.

ghost use Rattle.std.specs.Prelude.{◌≡◌, IfOk};
ghost use Rattle.sqlite.specs.State.{HasCleanDisk};
ghost use Rattle.sqlite.specs.Held.{state};
ghost use Rattle.permit_sql.specs.Frames.{LeavesRows};
ghost use Rattle.permit_cli.specs.Reasons.{standing_by, IsReasonFor, IsReasonOf, Stands};

use crate::reason::{Reason, reason_for};
use permit_base::words::Edition;
use permit_sql::versions::says_other_version;
use permit_sql_rows::schema::is_office;
use permit_store::store::{Got, OpenError};
use sqlite::{Alter, Connection};

/// Which tables there are in a database, by its schema and by the version that its desk says.
#[derive(Clone, Copy, PartialEq, Eq)]
pub(crate) enum Standing {
    /// Those of an edition, and the desk says no other version.
    Office(Edition),
    /// A desk says a version that is neither 1 nor 2.
    OtherVersion,
    /// Others, or none.
    OtherTables,
}

/// Which tables there are in a database, by whether its desk says another version than the first and than the second, and by whether
/// its schema is that of the first and of the second.
fn standing_by(not_first: bool, not_second: bool, is_first: bool, is_second: bool) -> Standing
    ensures { result ≡ standing_by not_first not_second is_first is_second }
{
    if not_first && not_second {
        Standing::OtherVersion
    } else if !not_first && is_first {
        Standing::Office(Edition::First)
    } else if !not_second && is_second {
        Standing::Office(Edition::Second)
    } else {
        Standing::OtherTables
    }
}

/// Which tables there are in a database, which stays as it is.
fn standing_in<S: Alter>(conn: &mut Connection<S>) -> Got<Standing>
    ensures stands { HasCleanDisk (state S.Store conn.new) → IfOk result (Stands (state S.Store conn.old).now) }
    ensures left { LeavesRows S.Store conn.old conn.new }
{
    let not_first = says_other_version(conn, Edition::First)?;
    let not_second = says_other_version(conn, Edition::Second)?;
    let is_first = is_office(Edition::First, conn.schema());
    let is_second = is_office(Edition::Second, conn.schema());
    Ok(standing_by(not_first, not_second, is_first, is_second))
}

/// Why a database can't be used from which the tables of an edition are wanted. It stays as it is.
pub(crate) fn reason_in<S: Alter>(
    conn: &mut Connection<S>,
    wanted: Edition,
    why: OpenError,
) -> Reason
    ensures told { HasCleanDisk (state S.Store conn.new) → IsReasonOf wanted why (state S.Store conn.old).now result }
    ensures kind { IsReasonFor wanted why result }
    ensures left { LeavesRows S.Store conn.old conn.new }
{
    match standing_in(conn) {
        Ok(standing) => reason_for(wanted, why, standing),
        Err(_) => Reason::Failed,
    }
}
