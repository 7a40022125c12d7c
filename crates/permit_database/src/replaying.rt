//! Making an office in a database of the text of a history, or bringing one further.

ghost use Rattle.std.specs.Prelude.{◌≡◌, ◌≢◌, ◌⊎◌, ℕ, false, List, Some, Err, IfErr, IfNone, IfOk, IfSome, IsTrue, OnOk};
ghost use Rattle.sqlite.specs.State.{HasCleanDisk};
ghost use Rattle.sqlite.specs.Held.{state};
ghost use Rattle.permit_history.specs.Told.{told_on};
ghost use Rattle.permit_history.specs.declared.entry.Deed.TheVariants as deed;
ghost use Rattle.permit_import.specs.declared.refused.RefusalWord.TheVariants.{Store as StoreWord};
ghost use Rattle.permit_replay.specs.Holding.{IsBeginning};
ghost use Rattle.permit_replay.specs.Texts.{IsReplayed};
ghost use Rattle.permit_store.specs.declared.plain.PlainStore.{PlainStore as ThePlainStore};
ghost use Rattle.permit_sql_rows.specs.Kept.{Keeps};
ghost use Rattle.permit_sql_rows.specs.Schema.{empty_schema};
ghost use Rattle.permit_subcommands.specs.Failures.{plain};
ghost use Rattle.permit_subcommands.specs.declared.failure.Failure.TheVariants.{History};
ghost use Rattle.permit_subcommands.specs.declared.failure.HistoryFailure.TheVariants.{Differs};
ghost use Rattle.permit_database.specs.Failing.{IsOfText, IsUnsettled};
ghost use Rattle.permit_database.specs.Founding.{IsFoundedBy};
ghost use Rattle.permit_database.specs.Replaying.{BringsOver, FoundsAndBrings, IsBeginLine, IsBegunLater, IsLeftOf};

use crate::failing::{of_bringing, of_replaying};
use crate::opening::store_in;
use permit_history::entry::{Deed, Entry};
use permit_history::next_entry;
use permit_replay::alike::unordered::Unordered;
use permit_replay::beginning::Beginning;
use permit_replay::opening::bringing::{Brought, bring};
use permit_replay::replay;
use permit_sql::store::SqlStore;
use permit_store::founder::Founder;
use permit_store::plain::PlainStore;
use permit_store::store::Store;
use permit_subcommands::failure::{Failure, HistoryFailure};
use sqlite::{Alter, Connection};
use std::alloc::Global;
use std::io::BufRead;

/// Brings the office over a store further, and gives its connection back.
fn bring_over<S: Alter + Drop, R: BufRead, Q: BufRead>(
    alloc: Global,
    store: SqlStore<S>,
    beginning: Beginning,
    source: &mut R,
    again: &mut Q,
) -> (Connection<S>, Result<Brought, Failure>)
    ensures brings { (bytes : List ℕ) → R.remaining source.old ≡ Some bytes → Q.remaining again.old ≡ Some bytes → HasCleanDisk (state S.Store result.0)
        → BringsOver S.Store (IsBeginning ⟦<PlainStore as Store>⟧.view beginning) bytes (⟦<SqlStore<S> as Store>⟧.view store).holds result.0 result.1 }
    ensures fails { IfErr result.1 IsUnsettled }
{
    let mut kept = Unordered { store };
    let brought = bring(alloc, beginning, &mut kept, source, again);
    let Unordered { store } = kept;
    let conn = store.into_connection();
    match brought {
        Ok(brought) => (conn, Ok(brought)),
        Err(fault) => (conn, Err(of_bringing(&fault))),
    }
}

/// Brings the office in a database further.
fn bring_there<S: Alter + Drop, R: BufRead, Q: BufRead>(
    alloc: Global,
    conn: Connection<S>,
    beginning: Beginning,
    source: &mut R,
    again: &mut Q,
) -> (Connection<S>, Result<Brought, Failure>)
    ensures brings { (bytes : List ℕ) → R.remaining source.old ≡ Some bytes → Q.remaining again.old ≡ Some bytes → HasCleanDisk (state S.Store result.0)
        → BringsOver S.Store (IsBeginning ⟦<PlainStore as Store>⟧.view beginning) bytes (λ t. Keeps t (state S.Store conn).now) result.0 result.1 }
    ensures fails { IfErr result.1 IsUnsettled }
{
    match store_in(alloc, conn, None) {
        Ok(store) => bring_over(alloc, store, beginning, source, again),
        Err((conn, why)) => (conn, Err(Failure::Database(why))),
    }
}

/// Founds an office in an empty database, and brings it further.
fn found_and_bring<S: Alter + Drop, R: BufRead, Q: BufRead>(
    alloc: Global,
    conn: Connection<S>,
    founder: &Founder,
    beginning: Beginning,
    source: &mut R,
    again: &mut Q,
) -> (Connection<S>, Result<Brought, Failure>)
    ensures brings { (bytes : List ℕ) → R.remaining source.old ≡ Some bytes → Q.remaining again.old ≡ Some bytes → HasCleanDisk (state S.Store result.0)
        → FoundsAndBrings S.Store (IsBeginning ⟦<PlainStore as Store>⟧.view beginning) bytes founder.now conn result.0 result.1 }
    ensures fails { (state S.Store conn).now.schema ≡ empty_schema → IfErr result.1 IsUnsettled }
{
    match SqlStore::create(alloc, conn, founder) {
        Ok(store) => bring_over(alloc, store, beginning, source, again),
        Err((conn, why)) => (conn, Err(Failure::Database(why))),
    }
}

/// The founder of an entry that founds an office; none of one with which a text begins later.
fn founder_in(entry: Entry) -> Result<Option<Founder>, Failure>
    ensures founds { IfOk result (λ founder. IfSome founder (λ founder. entry ≡ told_on founder.day (deed.Found founder.name founder.digest))) }
    ensures begins { IfOk result (λ founder. IfNone founder (IsBeginLine entry)) }
    ensures fails { IfErr result (λ why. (why ≡ plain StoreWord) ⊎ IsOfText why) }
{
    let Entry { day, deed } = entry;
    match deed {
        Deed::Found { name, digest } => match Founder::new(name, digest, day) {
            Some(founder) => Ok(Some(founder)),
            None => Err(Failure::History(HistoryFailure::Store)),
        },
        Deed::Begin { tables: _ } => Ok(None),
        Deed::Upgrade | Deed::RenewToken { .. } | Deed::Accepted { .. } => Err(Failure::History(
            HistoryFailure::Store,
        )),
    }
}

/// The founder that the first line of a text names; none where it says that the text begins with a copy.
fn founder_of<R: BufRead>(alloc: Global, source: &mut R) -> Result<Option<Founder>, Failure>
    ensures founds { IfSome (R.remaining source.old) (λ bytes. IfOk result (λ founder. IfSome founder (IsFoundedBy bytes))) }
    ensures begins { IfSome (R.remaining source.old) (λ bytes. IfOk result (λ founder. IfNone founder (IsBegunLater bytes))) }
    ensures fails { IfErr result (λ why. (why ≡ plain StoreWord) ⊎ IsOfText why) }
{
    let mut room = Vec::new(alloc);
    match next_entry(alloc, source, &mut room) {
        Ok(Some(entry)) => founder_in(entry),
        Ok(None) | Err(_) => Err(Failure::History(HistoryFailure::Store)),
    }
}

/// The founder that a text names; none where the text begins with a copy of the database. The text has to be one that is replayed
/// whole, in memory. Of it there are two readings, from its start.
pub fn founder_told<P: BufRead, Q: BufRead>(
    alloc: Global,
    beginning: Beginning,
    whole: &mut P,
    first: &mut Q,
) -> Result<Option<Founder>, Failure>
    ensures founds { IfSome (Q.remaining first.old) (λ bytes. IfOk result (λ founder. IfSome founder (IsFoundedBy bytes))) }
    ensures begins { IfSome (Q.remaining first.old) (λ bytes. IfOk result (λ founder. IfNone founder (IsBegunLater bytes))) }
    ensures whole { IfSome (P.remaining whole.old) (λ bytes. OnOk result ((store : ThePlainStore)
        × IsReplayed ⟦<PlainStore as Store>⟧.view (IsBeginning ⟦<PlainStore as Store>⟧.view beginning) bytes store)) }
    ensures fails { IfErr result (λ why. (why ≡ plain StoreWord) ⊎ IsOfText why) }
{
    match replay(alloc, beginning, whole) {
        Ok(replayed) => {
            // The tables aren't asked for again.
            drop(replayed);
            founder_of(alloc, first)
        }
        Err(fault) => Err(of_replaying(&fault)),
    }
}

/// Whether a database has no table, no index and no view.
pub(crate) fn is_empty<S: Alter>(conn: &Connection<S>) -> bool
    ensures yes { IsTrue result → (state S.Store conn.now).now.schema ≡ empty_schema }
    ensures no { result ≡ false → (state S.Store conn.now).now.schema ≢ empty_schema }
{
    let schema = conn.schema();
    schema.tables.is_empty() && schema.indexes.is_empty() && schema.views.is_empty()
}

/// Makes an office in an empty database with this founder, or takes the one that is there, and brings it further: to the tables
/// that the text's whole lines give. The text is one that `founder_told` takes, and the founder is its own; of it there are two
/// readings, from its start. The lines that the database hasn't are done by commits of at most 1000, so that the tables are those
/// of a prefix of the text at each time.
///
/// Where the database's tables are those of no prefix that has the upgrade, it answers that they differ, and they are as before.
/// So it answers of an empty database too where the text begins with a copy, and so has no founder.
pub fn replay_in<S: Alter + Drop, R: BufRead + Drop, Q: BufRead + Drop>(
    alloc: Global,
    conn: Connection<S>,
    founder: &Option<Founder>,
    beginning: Beginning,
    source: R,
    again: Q,
) -> (Connection<S>, Result<Brought, Failure>)
    // A database with an office.
    ensures there { (state S.Store conn).now.schema ≢ empty_schema → (bytes : List ℕ) → R.remaining source ≡ Some bytes → Q.remaining again ≡ Some bytes
        → HasCleanDisk (state S.Store result.0)
        → BringsOver S.Store (IsBeginning ⟦<PlainStore as Store>⟧.view beginning) bytes (λ t. Keeps t (state S.Store conn).now) result.0 result.1 }

    // An empty database.
    ensures made { (state S.Store conn).now.schema ≡ empty_schema → IfSome founder.now (λ founder. (bytes : List ℕ)
        → R.remaining source ≡ Some bytes → Q.remaining again ≡ Some bytes → HasCleanDisk (state S.Store result.0)
        → FoundsAndBrings S.Store (IsBeginning ⟦<PlainStore as Store>⟧.view beginning) bytes founder conn result.0 result.1) }
    ensures unmade { (state S.Store conn).now.schema ≡ empty_schema
        → IfNone founder.now ((result.1 ≡ Err (History Differs)) × IsLeftOf S.Store conn result.0) }
    ensures fails { IfErr result.1 IsUnsettled }
{
    let (mut source, mut again) = (source, again);
    if !is_empty(&conn) {
        return bring_there(alloc, conn, beginning, &mut source, &mut again);
    }
    match founder {
        Some(founder) => found_and_bring(alloc, conn, founder, beginning, &mut source, &mut again),
        None => (conn, Err(Failure::History(HistoryFailure::Differs))),
    }
}
