//! What is done on the tables of a database: it is upgraded, a party of its office gets a new token, or it is tested.

ghost use Rattle.std.specs.Prelude.{◌≡◌, ◌⊎◌, true, Err, IfErr, IfOk, IsTrue, OnErr, OnOk};
ghost use Rattle.sqlite.specs.State.{HasCleanDisk};
ghost use Rattle.sqlite.specs.Held.{state};
ghost use Rattle.permit_base.specs.declared.words.Edition.TheVariants.{First, Second};
ghost use Rattle.permit_base.specs.Digests.{digest_of};
ghost use Rattle.permit_model.specs.History.{History, upgraded};
ghost use Rattle.permit_model.specs.Machine.{IsHistory};
ghost use Rattle.permit_model.specs.Renewal.{renewed, with_renewed};
ghost use Rattle.permit_model.specs.Tables.{tables};
ghost use Rattle.permit_store.specs.declared.store.OpenError.TheVariants as opening;
ghost use Rattle.permit_sql_rows.specs.Kept.{Keeps, KeepsUnder, IsFine};
ghost use Rattle.permit_sql.specs.Opening.{HasOtherVersion};
ghost use Rattle.permit_sql.specs.Renewing.{OverKept};
ghost use Rattle.permit_subcommands.specs.declared.failure.Failure.TheVariants.{Database};
ghost use Rattle.permit_database.specs.Checked.{IsCheckedAs, IsNamedAs};
ghost use Rattle.permit_database.specs.Doing.{IsCheck, IsUpgrade};
ghost use Rattle.permit_database.specs.Failing.{IsUnrenewed, IsUnusable};
ghost use Rattle.permit_database.specs.Founded.{IsRenewedAs, IsUpgradedAs};

use crate::failing::of_renewing;
use crate::outcome::Outcome;
use permit_base::values::Token;
use permit_sql::counts::sound_desk;
use permit_sql::store::SqlStore;
use permit_sql::why::first_fault;
use permit_store::store::OpenError;
use permit_subcommands::failure::Failure;
use sqlite::{Alter, Connection};
use std::alloc::Global;

/// Makes of a database of the version before one of this version.
pub fn upgrade_in<S: Alter + Drop>(
    alloc: Global,
    conn: Connection<S>,
) -> (Connection<S>, Result<Outcome, Failure>)
    ensures made { OnOk result.1 (HasCleanDisk (state S.Store result.0) → (h : History) → IsHistory h
        → KeepsUnder First (tables h) (state S.Store conn).now → Keeps (tables (upgraded h)) (state S.Store result.0).now) }
    ensures kind { IfOk result.1 IsUpgrade }
    ensures fails { IfErr result.1 IsUnusable }
    ensures told { HasCleanDisk (state S.Store result.0) → IsUpgradedAs (state S.Store conn).now (state S.Store result.0).now result.1 }
    ensures version { HasCleanDisk (state S.Store result.0) → HasOtherVersion First (state S.Store conn).now
        → (result.1 ≡ Err (Database opening.Version)) ⊎ (result.1 ≡ Err (Database opening.Store)) }
    ensures same { OnErr result.1 (IsFine (state S.Store result.0) → (state S.Store result.0).now ≡ (state S.Store conn).now) }
{
    let mut conn = conn;
    match SqlStore::upgrade(alloc, &mut conn) {
        Ok(files) => (conn, Ok(Outcome::Upgraded(files))),
        Err(why) => (conn, Err(Failure::Database(why))),
    }
}

/// Gives a party of the office in a database a new token.
pub fn renew_in<S: Alter + Drop>(
    alloc: Global,
    conn: Connection<S>,
    party: u32,
    token: &Token,
) -> (Connection<S>, Result<Outcome, Failure>)
    ensures made { OverKept S.Store conn result.0
        (λ t. OnOk result.1 (Keeps (with_renewed party (digest_of token.now) t) (state S.Store result.0).now)) }
    ensures history { HasCleanDisk (state S.Store result.0) → (h : History) → IsHistory h → Keeps (tables h) (state S.Store conn).now
        → OnOk result.1 (IsHistory (renewed party token.now h) × Keeps (tables (renewed party token.now h)) (state S.Store result.0).now) }
    ensures kind { IfOk result.1 (λ done. done ≡ Outcome.Renewed party) }
    ensures fails { IfErr result.1 IsUnrenewed }
    ensures told { HasCleanDisk (state S.Store result.0) → IsRenewedAs party token.now (state S.Store conn).now result.1 }
    ensures version { HasCleanDisk (state S.Store result.0) → HasOtherVersion Second (state S.Store conn).now
        → (result.1 ≡ Err (Database opening.Version)) ⊎ (result.1 ≡ Err (Database opening.Store)) }
    ensures same { OnErr result.1 (IsFine (state S.Store result.0) → (state S.Store result.0).now ≡ (state S.Store conn).now) }
{
    let mut conn = conn;
    match SqlStore::renew_token(alloc, &mut conn, party, token) {
        Ok(()) => (conn, Ok(Outcome::Renewed(party))),
        Err(error) => (conn, Err(of_renewing(error))),
    }
}

/// The first place at which the tables of a damaged database aren't sound. Where it can't be found, they are damaged all the
/// same.
fn named_in<S: Alter + Drop>(
    alloc: Global,
    conn: Connection<S>,
) -> (Connection<S>, Result<Outcome, Failure>)
    ensures kind { IfOk result.1 (IsCheck true) }
    ensures fails { IfErr result.1 IsUnusable }
    ensures named { HasCleanDisk (state S.Store result.0) → IsNamedAs (state S.Store conn).now result.1 }
    ensures open { HasCleanDisk (state S.Store result.0) → OnOk result.1 (IsTrue (state S.Store result.0).is_open) }
    ensures clean { HasCleanDisk (state S.Store result.0) → HasCleanDisk (state S.Store conn) }
    ensures left { IsFine (state S.Store result.0) → IsFine (state S.Store conn) × ((state S.Store result.0).now ≡ (state S.Store conn).now) }
{
    let mut conn = conn;
    match first_fault(&mut conn, alloc) {
        Ok(Some(fault)) => (conn, Ok(Outcome::Unsound(fault))),
        _ => (conn, Err(Failure::Database(OpenError::Damaged))),
    }
}

/// Tests the tables of a database, which stays as it is, and counts their records. Where they aren't sound, it names the first
/// place if that is asked for.
pub fn check_in<S: Alter + Drop>(
    alloc: Global,
    conn: Connection<S>,
    why: bool,
) -> (Connection<S>, Result<Outcome, Failure>)
    ensures kind { IfOk result.1 (IsCheck why) }
    ensures fails { IfErr result.1 IsUnusable }
    ensures checked { HasCleanDisk (state S.Store result.0) → IsCheckedAs why (state S.Store conn).now result.1 }
    ensures version { HasCleanDisk (state S.Store result.0) → HasOtherVersion Second (state S.Store conn).now
        → (result.1 ≡ Err (Database opening.Version)) ⊎ (result.1 ≡ Err (Database opening.Store)) }
    ensures open { HasCleanDisk (state S.Store result.0) → OnOk result.1 (IsTrue (state S.Store result.0).is_open) }
    ensures left { IsFine (state S.Store result.0) → (state S.Store result.0).now ≡ (state S.Store conn).now }
{
    let mut conn = conn;
    match sound_desk(&mut conn, alloc) {
        Ok(desk) => (conn, Ok(Outcome::Sound(desk))),
        Err(OpenError::Damaged) if why => named_in(alloc, conn),
        Err(refusal) => (conn, Err(Failure::Database(refusal))),
    }
}
