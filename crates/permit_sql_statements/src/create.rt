//! The tables with their founding, in an empty database, and their upgrade from version 1.

ghost use Rattle.std.specs.Prelude.{◌≡◌, [], OnOk};
ghost use Rattle.sqlite.specs.State.{HasCleanDisk, Survives};
ghost use Rattle.sqlite.specs.Held.{state};
ghost use Rattle.sqlite.specs.Values.{bound};
ghost use Rattle.permit_model.specs.Tables.{tables, with_upgrade};
ghost use Rattle.permit_store.specs.Founding.{founding};
ghost use Rattle.permit_sql_rows.specs.Schema.{empty_schema};
ghost use Rattle.permit_sql_statements.specs.Founding.{founding_statements, upgrade_statements, OverFirst};
ghost use Rattle.permit_sql_rows.specs.Kept.{Keeps};
ghost use Rattle.permit_sql_statements.specs.Frames.{IsIdle, IsTransaction, RunsAll};

use crate::statements::{Statement, run_all};
use crate::texts::{
    ADD_PARTY, ADD_UPGRADE, CREATE_DESK, CREATE_FILE, CREATE_INTEREST, CREATE_PAPER, CREATE_PARCEL,
    CREATE_PARTY, CREATE_UPGRADE, FOUND_DESK, INDEX_APPLICANT, INDEX_CELL, INDEX_CONTRACTOR,
    INDEX_INSPECTOR, INDEX_INTERESTED, INDEX_OWNER, INDEX_PARCEL, INDEX_REVIEWER, SET_VERSION,
};
use permit_base::words::Role;
use permit_store::founder::Founder;
use sqlite::{Alter, Connection, Error, params};
use sqlite_value::value::ValueRef;

/// A text and its parameters.
fn statement<'a>(text: &'a str, params: &'a [ValueRef<'a>]) -> Statement<'a>
    ensures { (result.text.now ≡ text.now) × (result.params.now ≡ params.now) }
{
    Statement { text, params }
}

/// The tables, their indexes, the desk, the upgrade and the first party, in one transaction.
fn found<'a, S: Alter>(
    conn: &mut Connection<S>,
    none: &'a [ValueRef<'a>],
    desk: &'a [ValueRef<'a>],
    upgrade: &'a [ValueRef<'a>],
    party: &'a [ValueRef<'a>],
) -> Result<(), Error>
    requires idle { IsIdle conn.old }
    requires bare { none.now ≡ [] }
    ensures { RunsAll S.Store (founding_statements (bound desk.now) (bound upgrade.now) (bound party.now)) conn.old conn.new result }
{
    run_all(
        conn,
        &[
            statement(CREATE_DESK, none),
            statement(CREATE_PARTY, none),
            statement(CREATE_PARCEL, none),
            statement(CREATE_INTEREST, none),
            statement(CREATE_FILE, none),
            statement(CREATE_PAPER, none),
            statement(INDEX_CELL, none),
            statement(INDEX_APPLICANT, none),
            statement(INDEX_CONTRACTOR, none),
            statement(INDEX_REVIEWER, none),
            statement(INDEX_INSPECTOR, none),
            statement(INDEX_PARCEL, none),
            statement(INDEX_OWNER, none),
            statement(INDEX_INTERESTED, none),
            statement(CREATE_UPGRADE, none),
            statement(FOUND_DESK, desk),
            statement(ADD_UPGRADE, upgrade),
            statement(ADD_PARTY, party),
        ],
    )
}

/// The number of the first party, who founds the office.
const FOUNDER: u32 = 1;

/// How many files there are at the upgrade of a new office, which follows its founding at once.
const NO_FILES: u32 = 0;

/// Makes the tables with their founding and the upgrade in a database that has none, or changes nothing, also over a crash.
///
/// # Examples
///
/// ```
/// let mut conn = Connection::open_in_memory(alloc)?;
/// create_in(&mut conn, &founder)?;
/// assert!(rt; is_office(Edition::Second, conn.schema()));
/// ```
pub fn create_in<S: Alter>(conn: &mut Connection<S>, founder: &Founder) -> Result<(), Error>
    requires idle { IsIdle conn.old }
    requires empty { (state S.Store conn.old).now.schema ≡ empty_schema }
    ensures made { HasCleanDisk (state S.Store conn.new)
        → OnOk result (Keeps (tables (founding founder.now.name founder.now.digest founder.now.day)) (state S.Store conn.new).now) }
    ensures transaction { IsTransaction S.Store conn.old conn.new result }
    ensures crash { Survives (state S.Store conn.old) (state S.Store conn.new)
        (λ trees. (db : _) × Keeps (tables (founding founder.now.name founder.now.digest founder.now.day)) db × (trees ≡ db.trees)) }
{
    found(
        conn,
        &[],
        params![founder.day.get()],
        params![NO_FILES],
        params![
            FOUNDER,
            founder.name.as_str(),
            Role::Official as u32,
            founder.digest.as_str()
        ],
    )
}

/// The table of the upgrade with its row, and the desk's version, in one transaction.
fn upgraded<'a, S: Alter>(
    conn: &mut Connection<S>,
    none: &'a [ValueRef<'a>],
    files: &'a [ValueRef<'a>],
) -> Result<(), Error>
    requires idle { IsIdle conn.old }
    requires bare { none.now ≡ [] }
    ensures { RunsAll S.Store (upgrade_statements (bound files.now)) conn.old conn.new result }
{
    run_all(
        conn,
        &[
            statement(CREATE_UPGRADE, none),
            statement(ADD_UPGRADE, files),
            statement(SET_VERSION, none),
        ],
    )
}

/// Makes of tables of version 1 with so many files those after the upgrade, or changes nothing, also over a crash.
pub fn upgrade_in<S: Alter>(conn: &mut Connection<S>, files: u32) -> Result<(), Error>
    requires idle { IsIdle conn.old }
    ensures made { HasCleanDisk (state S.Store conn.new)
        → OverFirst files (state S.Store conn.old).now (λ t. OnOk result (Keeps (with_upgrade t) (state S.Store conn.new).now)) }
    ensures transaction { IsTransaction S.Store conn.old conn.new result }
    ensures crash { Survives (state S.Store conn.old) (state S.Store conn.new)
        (λ trees. OverFirst files (state S.Store conn.old).now (λ t. (db : _) × Keeps (with_upgrade t) db × (trees ≡ db.trees))) }
{
    upgraded(conn, &[], params![files])
}
