//! Comparing the tables of a database with the text of a history.

ghost use Rattle.std.specs.Prelude.{◌≡◌, ◌↔◌, ℕ, Err, IfErr, IfNone, IfOk, IfSome, IsTrue, List, Some};
ghost use Rattle.sqlite.specs.State.{HasCleanDisk};
ghost use Rattle.sqlite.specs.Held.{state};
ghost use Rattle.permit_model.specs.Sound.{IsSoundTables};
ghost use Rattle.permit_model.specs.Tables.{Tables};
ghost use Rattle.permit_replay.specs.Bringing.{IsNowhere};
ghost use Rattle.permit_replay.specs.Holding.{IsBeginning};
ghost use Rattle.permit_replay.specs.Opening.{DiffersFirst, IsAlike};
ghost use Rattle.permit_replay.specs.Placing.{IsPlaceIn};
ghost use Rattle.permit_sql_rows.specs.Kept.{Shows};
ghost use Rattle.permit_subcommands.specs.declared.failure.Failure.TheVariants.{History};
ghost use Rattle.permit_subcommands.specs.declared.failure.HistoryFailure.TheVariants.{Differs};
ghost use Rattle.permit_database.specs.Doing.{IsPlaced};
ghost use Rattle.permit_database.specs.Failing.{IsUnsettled};
ghost use Rattle.permit_database.specs.Opening.{IsOnlyRead, shown};

use crate::failing::of_comparing;
use crate::opening::store_in;
use permit_replay::alike::differing::Difference;
use permit_replay::beginning::Beginning;
use permit_replay::opening::differing::difference;
use permit_replay::opening::placing::{Place, find_place};
use permit_store::plain::PlainStore;
use permit_store::store::Store;
use permit_subcommands::failure::{Failure, HistoryFailure};
use sqlite::{Alter, Connection};
use std::alloc::Global;
use std::io::BufRead;

/// Whether a place is one of a text: some prefix of it gives the tables.
fn is_placed(place: &Place) -> bool
    ensures { IsTrue result ↔ IsPlaced place.now }
{
    matches!(place.stood, Some(stood) if stood <= place.lines)
}

/// The place, where it is one of a text; else the tables differ.
fn only_placed(place: Place) -> Result<Place, Failure>
    ensures placed { IfOk result (λ it. (it ≡ place) × IsPlaced it) }
    ensures differs { IfErr result (λ why. (why ≡ History Differs) × (IsPlaced place → ⊥)) }
    ensures fails { IfErr result IsUnsettled }
{
    if is_placed(&place) {
        Ok(place)
    } else {
        Err(Failure::History(HistoryFailure::Differs))
    }
}

/// The place of a database's tables, which are only read, in a history's text: after the longest prefix that gives them.
/// Where none does they differ.
///
/// # Examples
///
/// ```
/// let (_, compared) = compare_in(alloc, conn, Beginning::Founding, text.as_bytes());
/// assert!(rt; compared.is_ok());
/// ```
pub fn compare_in<S: Alter + Drop, R: BufRead + Drop>(
    alloc: Global,
    conn: Connection<S>,
    beginning: Beginning,
    source: R,
) -> (Connection<S>, Result<Place, Failure>)
    ensures stands { (bytes : List ℕ) → R.remaining source ≡ Some bytes
        → IfOk result.1 (IsPlaceIn (IsBeginning ⟦<PlainStore as Store>⟧.view beginning) bytes (shown (state S.Store conn)) (shown (state S.Store result.0))) }
    ensures placed { IfOk result.1 IsPlaced }
    ensures differs { (bytes : List ℕ) → R.remaining source ≡ Some bytes → HasCleanDisk (state S.Store result.0) → (t : Tables) → Shows t (state S.Store conn)
        → IsSoundTables t → result.1 ≡ Err (History Differs) → IsNowhere (IsBeginning ⟦<PlainStore as Store>⟧.view beginning) bytes t }
    ensures back { IsOnlyRead S.Store conn result.0 }
    ensures fails { IfErr result.1 IsUnsettled }
{
    match store_in(alloc, conn, None) {
        Ok(mut store) => {
            let mut source = source;
            let place = find_place(alloc, beginning, &mut store, &mut source);
            let conn = store.into_connection();
            match place {
                Ok(place) => (conn, only_placed(place)),
                Err(fault) => (conn, Err(of_comparing(&fault))),
            }
        }
        Err((conn, why)) => (conn, Err(Failure::Database(why))),
    }
}

/// The first place at which the tables of a database, which are only read, differ from those of a history's text, or none.
pub fn difference_in<S: Alter + Drop, R: BufRead + Drop>(
    alloc: Global,
    conn: Connection<S>,
    beginning: Beginning,
    source: R,
) -> (Connection<S>, Result<Option<Difference>, Failure>)
    ensures none { (bytes : List ℕ) → R.remaining source ≡ Some bytes → HasCleanDisk (state S.Store result.0)
        → (t : Tables) → Shows t (state S.Store conn) → IsSoundTables t → IfOk result.1 (λ found. IfNone found ((size : ℕ) × IsAlike (IsBeginning ⟦<PlainStore as Store>⟧.view beginning) bytes t size)) }
    ensures named { (bytes : List ℕ) → R.remaining source ≡ Some bytes → HasCleanDisk (state S.Store result.0)
        → (t : Tables) → Shows t (state S.Store conn) → IfOk result.1 (λ found. IfSome found (DiffersFirst (IsBeginning ⟦<PlainStore as Store>⟧.view beginning) bytes t)) }
    ensures back { IsOnlyRead S.Store conn result.0 }
    ensures fails { IfErr result.1 IsUnsettled }
{
    match store_in(alloc, conn, None) {
        Ok(mut store) => {
            let mut source = source;
            let found = difference(alloc, beginning, &mut store, &mut source);
            let conn = store.into_connection();
            match found {
                Ok(found) => (conn, Ok(found)),
                Err(fault) => (conn, Err(of_comparing(&fault))),
            }
        }
        Err((conn, why)) => (conn, Err(Failure::Database(why))),
    }
}
