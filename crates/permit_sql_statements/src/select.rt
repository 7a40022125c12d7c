//! The file rows that a selection finds, all at once or one at a time. Each call goes through all files in rising number
//! and keeps back the rows that it isn't asked for. The schema's indexes of the files serve none of it, and stay since a
//! database is opened by its exact schema.

ghost use Rattle.std.specs.Prelude.{◌≡◌, ◌++◌, [], ◌∷◌, List, IsTrue, length, IfOk};
ghost use Rattle.sqlite.specs.State.{HasCleanDisk};
ghost use Rattle.sqlite.specs.Given.{IsPlain};
ghost use Rattle.sqlite.specs.Listing.{understood};
ghost use Rattle.sqlite.specs.Values.{bound};
ghost use Rattle.sqlite.specs.Held.{state};
ghost use Rattle.permit_model.specs.Routes.{Found as TheFound, found_by};
ghost use Rattle.permit_store.specs.Handing.{AreAmong, AreFound, AreHanded, Took, found_by_any, more_handed};
ghost use Rattle.permit_sql_statements.specs.Gave.{Gave};
ghost use Rattle.permit_sql_statements.specs.Frames.{IsIdle, IsQuery, IsRead, OverShown};

use crate::idle::Idle;
use crate::texts::READ_FOUND;
use permit_base::route::Route;
use permit_base::values::{Day, PartyId};
use permit_core::taker::Taker;
use permit_sql_rows::decode::found_of;
use permit_sql_rows::values::number;
use permit_store::rows::Found;
use permit_store::sieve::Sieve;
use permit_store::store::{Got, StoreError};
use sqlite::{Alter, Connection};
use sqlite_value::value::ValueRef;
use std::alloc::Global;

/// Hands what the rows of the answer show to the taker, each as it is read, until it asks to stop. True says that it took
/// them all. A connection that is well afterwards was so before, and shows the same.
fn hand_rows<S: Alter, T: Taker<Found>>(
    conn: &mut Connection<S>,
    sql: &str,
    params: &[ValueRef<'_>],
    upgrade: Option<u32>,
    taker: &mut T,
) -> Got<bool>
    requires { IsIdle conn.old }
    ensures handed { (given : List TheFound) × Took T.took given taker.old taker.new result
        × (HasCleanDisk (state S.Store conn.new) → (IsTrue (state S.Store conn.old).is_open → IsPlain (understood conn.old.schema sql.now))
        → Gave upgrade result sql.now (bound params.now) (state S.Store conn.old) (state S.Store conn.new) given) }
    ensures query { IsQuery S.Store sql.now conn.old conn.new result }
{
    let _settled = conn.is_autocommit();
    let Ok(mut rows) = conn.query(sql, params) else {
        return Err(StoreError);
    };
    'rows: for _ in 0..u64::MAX {
        let Ok(next) = rows.next() else {
            return Err(StoreError);
        };
        let Some(row) = next else {
            return Ok(true);
        };
        let Ok(found) = found_of(row, upgrade) else {
            return Err(StoreError);
        };
        if !taker.take(found) {
            return Ok(false);
        }
    }
    Err(StoreError)
}

/// Hands the rows that any of the selections finds for the caller on the day to the taker, each once and in rising number,
/// until it asks to stop, and counts each that it took. True says that it took them all.
fn each_sifted<S: Alter, T: Taker<Found>>(
    conn: &mut Idle<S>,
    routes: &[Route],
    caller: PartyId,
    day: Day,
    upgrade: Option<u32>,
    handed: &mut u64,
    taker: &mut T,
) -> Got<bool>
    ensures handed { (given : List TheFound) × Took T.took given taker.old taker.new result × (handed.new ≡ more_handed (length given) handed.old)
        × OverShown S.Store conn.old conn.new (λ t. t.upgrade ≡ upgrade → AreHanded t result given (found_by_any routes.now caller day t)) }
    ensures read { IsRead S.Store conn.old conn.new result }
{
    let params = [number(caller.get())];
    let mut sieve = Sieve {
        routes,
        caller,
        day,
        taker,
        passed: 0,
    };
    let all = hand_rows(&mut conn.conn, READ_FOUND, &params, upgrade, &mut sieve);
    // A row that none of the selections finds wasn't handed out.
    *handed = handed.wrapping_add(sieve.passed);
    all
}

/// Hands the rows that the selection finds for the caller on the day to the taker, one at a time and in rising number,
/// until it asks to stop, and counts each that it took. True says that it took them all.
pub fn each_found<S: Alter, T: Taker<Found>>(
    conn: &mut Idle<S>,
    route: &Route,
    caller: PartyId,
    day: Day,
    upgrade: Option<u32>,
    handed: &mut u64,
    taker: &mut T,
) -> Got<bool>
    ensures handed { (given : List TheFound) × Took T.took given taker.old taker.new result × (handed.new ≡ more_handed (length given) handed.old)
        × OverShown S.Store conn.old conn.new (λ t. t.upgrade ≡ upgrade → AreHanded t result given (found_by route.now caller day t)) }
    ensures read { IsRead S.Store conn.old conn.new result }
{
    each_sifted(conn, &[*route], caller, day, upgrade, handed, taker)
}

/// Hands the rows that any of the selections finds for the caller on the day to the taker, each once and in any order, one
/// at a time, until it asks to stop, and counts each that it took. True says that it took them all.
pub fn each_of_any_found<S: Alter, T: Taker<Found>>(
    conn: &mut Idle<S>,
    routes: &[Route],
    caller: PartyId,
    day: Day,
    upgrade: Option<u32>,
    handed: &mut u64,
    taker: &mut T,
) -> Got<bool>
    ensures handed { (given : List TheFound) × Took T.took given taker.old taker.new result × (handed.new ≡ more_handed (length given) handed.old)
        × OverShown S.Store conn.old conn.new (λ t. t.upgrade ≡ upgrade → AreAmong result given (found_by_any routes.now caller day t)) }
    ensures read { IsRead S.Store conn.old conn.new result }
{
    each_sifted(conn, routes, caller, day, upgrade, handed, taker)
}

/// Keeps the rows that a selection finds.
#[derive(Drop)]
struct FoundList {
    rows: Vec<Found>,
}

impl Taker<Found> for FoundList {
    ghost took = { λ before found after more. IsTrue more → after.rows.items ≡ before.rows.items ++ found ∷ [] };

    /// False where memory is refused.
    fn take(&mut self, found: Found) -> bool {
        self.rows.push(found).is_ok()
    }
}

/// The rows that the selection finds for the caller on the day, in rising number.
pub fn select_found<S: Alter>(
    conn: &mut Idle<S>,
    route: &Route,
    caller: PartyId,
    day: Day,
    upgrade: Option<u32>,
    alloc: Global,
) -> Got<Vec<Found>>
    ensures found { OverShown S.Store conn.old conn.new
        (λ t. t.upgrade ≡ upgrade → IfOk result (λ v. AreFound t v.items (found_by route.now caller day t))) }
    ensures read { IsRead S.Store conn.old conn.new result }
{
    let mut list = FoundList {
        rows: Vec::new(alloc),
    };
    // Isn't needed, since the store counts the rows of a list by its length.
    let mut handed = 0;
    let is_whole = each_found(conn, route, caller, day, upgrade, &mut handed, &mut list)?;
    if is_whole {
        Ok(list.rows)
    } else {
        Err(StoreError)
    }
}
