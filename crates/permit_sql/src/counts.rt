//! What the desk counts of tables that are sound.

ghost use Rattle.std.specs.Prelude.{◌≡◌, ◌≢◌, ◌⊎◌, Err, IfErr, IfOk, IsTrue};
ghost use Rattle.sqlite.specs.State.{HasCleanDisk};
ghost use Rattle.sqlite.specs.Held.{state};
ghost use Rattle.permit_base.specs.declared.words.Edition.TheVariants.{Second};
ghost use Rattle.permit_sql.specs.Found.{CountsSound, KeepsSound};
ghost use Rattle.permit_sql.specs.Frames.{LeavesOverCrash, LeavesRows};
ghost use Rattle.permit_sql.specs.Opening.{HasOtherVersion};
ghost use Rattle.permit_sql_statements.specs.Frames.{IsOpenAfter};
ghost use Rattle.permit_store.specs.declared.store.OpenError.TheVariants as open_error;

use crate::open::check;
use permit_base::words::Edition;
use permit_store::rows::Desk;
use permit_store::store::OpenError;
use sqlite::{Alter, Connection};
use std::alloc::Global;

/// Tests the tables of a database as `SqlStore::open` does, with its refusals, and returns what their desk counts. The
/// database stays as it is.
pub fn sound_desk<S: Alter>(conn: &mut Connection<S>, alloc: Global) -> Result<Desk, OpenError>
    ensures sound { HasCleanDisk (state S.Store conn.new) → IfOk result (CountsSound (state S.Store conn.old).now) }
    ensures damaged { HasCleanDisk (state S.Store conn.new)
        → IfErr result (λ e. e ≡ open_error.Damaged → ¬ KeepsSound (state S.Store conn.old).now) }
    ensures version { HasCleanDisk (state S.Store conn.new)
        → IfErr result (λ e. e ≡ open_error.Version → HasOtherVersion Second (state S.Store conn.old).now) }
    ensures told { HasCleanDisk (state S.Store conn.new) → HasOtherVersion Second (state S.Store conn.old).now
        → (result ≡ Err open_error.Version) ⊎ (result ≡ Err open_error.Store) }
    ensures open { IsOpenAfter S.Store conn.new result }
    ensures judged { HasCleanDisk (state S.Store conn.new)
        → IfErr result (λ e. e ≢ open_error.Store → IsTrue (state S.Store conn.new).is_open) }
    ensures left { LeavesRows S.Store conn.old conn.new }
    ensures refusal { IfErr result (λ e. (e ≡ open_error.Damaged) ⊎ ((e ≡ open_error.Version) ⊎ (e ≡ open_error.Store))) }
    ensures crash { LeavesOverCrash S.Store conn.old conn.new }
    ensures transaction { conn.new.in_transaction ≡ conn.old.in_transaction }
{
    let sound = check(conn, alloc, Edition::Second)?;
    Ok(sound.desk)
}
