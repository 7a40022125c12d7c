//! A new digest for a party, in one transaction.

ghost use Rattle.std.specs.Prelude.{◌≡◌, OnOk};
ghost use Rattle.sqlite.specs.State.{HasCleanDisk, Survives};
ghost use Rattle.sqlite.specs.Held.{state};
ghost use Rattle.sqlite.specs.Values.{bound};
ghost use Rattle.permit_model.specs.Renewal.{with_renewed};
ghost use Rattle.permit_sql_rows.specs.Kept.{Keeps};
ghost use Rattle.permit_sql_statements.specs.Frames.{IsIdle, IsTransaction, RunsAll};
ghost use Rattle.permit_sql_statements.specs.Renewing.{renewal_statements, IsRenewal, OverRenewal};

use crate::idle::Idle;
use crate::runs::run_one;
use crate::statements::{Statement, run_all};
use crate::texts::SET_DIGEST;
use permit_base::values::Digest;
use permit_store::store::Got;
use sqlite::{Alter, Connection, Error, params};
use sqlite_value::value::ValueRef;

/// Sets a party's digest, in one transaction.
fn set_digest<'a, S: Alter>(
    conn: &mut Connection<S>,
    party: &'a [ValueRef<'a>],
) -> Result<(), Error>
    requires { IsIdle conn.old }
    ensures { RunsAll S.Store (renewal_statements (bound party.now)) conn.old conn.new result }
{
    run_all(
        conn,
        &[Statement {
            text: SET_DIGEST,
            params: party,
        }],
    )
}

/// Gives the party with the number the digest, or changes nothing, also over a crash. The party is there, and nobody has
/// the digest.
pub fn renew_in<S: Alter>(
    conn: &mut Connection<S>,
    party: u32,
    digest: &Digest,
) -> Result<(), Error>
    requires { IsIdle conn.old }
    ensures made { HasCleanDisk (state S.Store conn.new) → OverRenewal party digest.now (state S.Store conn.old).now
        (λ t. OnOk result (Keeps (with_renewed party digest.now t) (state S.Store conn.new).now)) }
    ensures transaction { IsTransaction S.Store conn.old conn.new result }
    ensures crash { Survives (state S.Store conn.old) (state S.Store conn.new)
        (λ trees. OverRenewal party digest.now (state S.Store conn.old).now
        (λ t. (db : _) × Keeps (with_renewed party digest.now t) db × (trees ≡ db.trees))) }
{
    set_digest(conn, params![party, digest.as_str()])
}

/// The same over a connection between transactions.
pub fn renew_party<S: Alter>(conn: &mut Idle<S>, party: u32, digest: &Digest) -> Got<()>
    ensures { IsRenewal S.Store party digest.now conn.old conn.new result }
{
    run_one(conn, SET_DIGEST, params![party, digest.as_str()])
}
