//! The rows of the tables, tested one at a time.

ghost use Rattle.std.specs.Prelude.{◌≡◌, ℕ, false, [], IsTrue, MatchBool, IfOk, IfErr};
ghost use Rattle.sqlite_value.specs.Order.{Row as SqlRow};
ghost use Rattle.sqlite.specs.State.{HasCleanDisk};
ghost use Rattle.sqlite.specs.Held.{state};
ghost use Rattle.permit_sql_rows.specs.Schema.{IsOffice};
ghost use Rattle.permit_sql_rows.specs.Rows.{shown_party, shown_parcel};
ghost use Rattle.permit_sql_rows.specs.Typed.{firsts, IsParty, IsParcel};
ghost use Rattle.permit_sql.specs.Taken.{TookRows};
ghost use Rattle.permit_sql.specs.Found.{TookTable, TakesNumbered, TakesInterest, RefusesNumbered, RefusesInterest, HasParties, HasParcels, HasInterests};
ghost use Rattle.permit_sql.specs.Frames.{IsLook, OverTyped};
ghost use Rattle.permit_sql_statements.specs.Frames.{IsIdle, IsPlainIn};

use crate::each::{Taker, each_row};
use crate::texts::{EACH_INTEREST, EACH_PARCEL, EACH_PARTY};
use permit_base::words::Edition;
use permit_sql_rows::decode::{interest_in, parcel_of, party_of};
use permit_sql_rows::fields::{Read, RowFault};
use permit_sql_rows::schema::is_office;
use permit_store::rows::{Parcel, Party};
use permit_store::store::{Got, StoreError};
use sqlite::{Alter, Connection, Row};
use std::marker::PhantomData;

/// Whether the taker takes all rows of an answer, in a database of an office's schema under the edition; with another it
/// fails. The database stays as it is.
pub(crate) fn takes_all<S: Alter, T: Taker>(
    conn: &mut Connection<S>,
    edition: Edition,
    sql: &str,
    taker: &mut T,
) -> Got<bool>
    requires idle { IsIdle conn.old }
    requires plain { IsPlainIn edition sql.now }
    ensures all { HasCleanDisk (state S.Store conn.new)
        → IfOk result (λ all. IsTrue all → IsOffice edition (state S.Store conn.old).now.schema
        × TookTable T.Taker.took S.Store sql.now conn.old conn.new taker.old taker.new) }
    ensures handed { HasCleanDisk (state S.Store conn.new)
        → IfOk result (λ all. TookRows T.Taker.took S.Store sql.now [] conn.old conn.new taker.old taker.new all) }
    ensures look { IsLook S.Store conn.old conn.new result }
{
    if !is_office(edition, conn.schema()) {
        return Err(StoreError);
    }
    match each_row(conn, sql, &[], taker) {
        Ok(all) => Ok(all),
        Err(_) => Err(StoreError),
    }
}

/// An object of the office, whose rows are numbered from 1 and show four values.
trait Object: Drop {
    /// It is within its limits.
    ghost IsGood: { Self → Type 0 };

    /// What a row shows of it.
    ghost shown: { Self → SqlRow };

    ghost number_of: { Self → ℕ };

    /// The object in a row.
    fn of_row(row: &Row) -> Read<Self>
        ensures back { IfOk result (λ x. firsts 4 0 row.now ≡ shown x) }
        ensures typed { IfOk result IsGood }
        ensures read { (is : Self) → row.now ≡ shown is → IfOk result (λ x. x ≡ is) }
        ensures some { (is : Self) → IsGood is → row.now ≡ shown is → IfErr result (λ e. e ≡ RowFault.NoMemory) };

    /// Its number.
    fn number(&self) -> u32
        ensures { result ≡ number_of self.now };
}

impl Object for Party {
    ghost IsGood = { IsParty };

    ghost shown = { shown_party };

    ghost number_of = { λ p. p.id };

    fn of_row(row: &Row) -> Read<Party> {
        party_of(row)
    }

    fn number(&self) -> u32 {
        self.id.get()
    }
}

impl Object for Parcel {
    ghost IsGood = { IsParcel };

    ghost shown = { shown_parcel };

    ghost number_of = { λ p. p.id };

    fn of_row(row: &Row) -> Read<Parcel> {
        parcel_of(row)
    }

    fn number(&self) -> u32 {
        self.id.get()
    }
}

/// How many rows of a kind of objects were read, each with the next number.
#[derive(Drop)]
struct Numbered<X> {
    count: u32,
    lacks_memory: bool,
    kind: PhantomData<X>,
}

impl<X: Object> Numbered<X> {
    fn new() -> Self
        ensures { result.count ≡ 0 }
    {
        Numbered {
            count: 0,
            lacks_memory: false,
            kind: PhantomData,
        }
    }
}

impl<X: Object> Taker for Numbered<X> {
    ghost took = { λ a row b good. MatchBool good (TakesNumbered X.shown X.IsGood X.number_of a.count row b.count)
        (RefusesNumbered X.shown X.IsGood X.number_of a.count row b.lacks_memory) };

    fn take(&mut self, row: &Row) -> bool {
        let object = match X::of_row(row) {
            Ok(object) => object,
            Err(RowFault::NoMemory) => {
                self.lacks_memory = true;
                return false;
            }
            Err(RowFault::Unreadable) => return false,
        };
        let number = object.number();
        if number == 0 || number - 1 != self.count {
            return false;
        }
        self.count = number;
        true
    }
}

/// Whether there are so many parties, numbered from 1, each within its limits.
pub(crate) fn check_parties<S: Alter>(
    conn: &mut Connection<S>,
    edition: Edition,
    count: u32,
) -> Got<bool>
    requires idle { IsIdle conn.old }
    ensures good { HasCleanDisk (state S.Store conn.new)
        → IfOk result (λ good. IsTrue good → HasParties count ((state S.Store conn.old).now.trees 1)) }
    ensures kept { HasCleanDisk (state S.Store conn.new)
        → OverTyped S.Store edition conn.old (λ t. count ≡ t.desk.parties → IfOk result IsTrue) }
    ensures look { IsLook S.Store conn.old conn.new result }
{
    let mut parties = Numbered::<Party>::new();
    let all = takes_all(conn, edition, EACH_PARTY, &mut parties)?;
    if parties.lacks_memory {
        return Err(StoreError);
    }
    Ok(all && parties.count == count)
}

/// Whether there are so many parcels, numbered from 1, each within its limits.
pub(crate) fn check_parcels<S: Alter>(
    conn: &mut Connection<S>,
    edition: Edition,
    count: u32,
) -> Got<bool>
    requires idle { IsIdle conn.old }
    ensures good { HasCleanDisk (state S.Store conn.new)
        → IfOk result (λ good. IsTrue good → HasParcels count ((state S.Store conn.old).now.trees 3)) }
    ensures kept { HasCleanDisk (state S.Store conn.new)
        → OverTyped S.Store edition conn.old (λ t. count ≡ t.desk.parcels → IfOk result IsTrue) }
    ensures look { IsLook S.Store conn.old conn.new result }
{
    let mut parcels = Numbered::<Parcel>::new();
    let all = takes_all(conn, edition, EACH_PARCEL, &mut parcels)?;
    if parcels.lacks_memory {
        return Err(StoreError);
    }
    Ok(all && parcels.count == count)
}

/// Whether the row is an interest's, its numbers within their limits.
#[tactic(auto, using(crate::proofs::Checks::interest_taken))]
fn is_interest(row: &Row) -> bool
    ensures taken { IsTrue result → TakesInterest row.now }
    ensures refused { result ≡ false → RefusesInterest row.now }
{
    match interest_in(row) {
        Some((_, _)) => true,
        None => false,
    }
}

/// Interests are taken in any order.
#[derive(Drop)]
struct Interests;

impl Taker for Interests {
    ghost took = { λ a row b good. MatchBool good (TakesInterest row) (RefusesInterest row) };

    fn take(&mut self, row: &Row) -> bool {
        is_interest(row)
    }
}

/// Whether each interest is of numbers within their limits.
pub(crate) fn check_interests<S: Alter>(conn: &mut Connection<S>, edition: Edition) -> Got<bool>
    requires idle { IsIdle conn.old }
    ensures good { HasCleanDisk (state S.Store conn.new)
        → IfOk result (λ good. IsTrue good → HasInterests ((state S.Store conn.old).now.trees 5)) }
    ensures kept { HasCleanDisk (state S.Store conn.new) → OverTyped S.Store edition conn.old (λ t. IfOk result IsTrue) }
    ensures look { IsLook S.Store conn.old conn.new result }
{
    takes_all(conn, edition, EACH_INTEREST, &mut Interests)
}
