//! A new token for a party.

ghost use Rattle.std.specs.Prelude.{◌≡◌, ◌≢◌, ◌==◌, ◌⊎◌, List, not, length, find, is_some, bytes_eq, None, Some, Err, IsTrue, IfOk, IfErr, OnOk, OnErr};
ghost use Rattle.sqlite_value.specs.Order.{Row as SqlRow};
ghost use Rattle.sqlite.specs.State.{HasCleanDisk, Shown, Survives};
ghost use Rattle.sqlite.specs.Values.{bound};
ghost use Rattle.sqlite.specs.Held.{state};
ghost use Rattle.permit_base.specs.Digests.{digest_of};
ghost use Rattle.permit_base.specs.declared.refusal.Refusal.{Refusal as TheRefusal};
ghost use Rattle.permit_base.specs.declared.refusal.Refusal.TheVariants as refused;
ghost use Rattle.permit_base.specs.declared.refusal.Reason.TheVariants as reason;
ghost use Rattle.permit_base.specs.declared.words.Edition.TheVariants.{Second};
ghost use Rattle.permit_model.specs.Renewal.{with_renewed, against_renewal};
ghost use Rattle.permit_model.specs.Tables.{Tables};
ghost use Rattle.permit_store.specs.Renewing.{Renews};
ghost use Rattle.permit_store.specs.declared.store.OpenError.TheVariants as open_error;
ghost use Rattle.permit_sql_rows.specs.Kept.{IsFine, Keeps, Shows};
ghost use Rattle.permit_sql_statements.specs.Frames.{IsIdle, IsPlainIn, KeepsDoubt, OverShown};
ghost use Rattle.permit_sql.specs.Found.{KeepsSound};
ghost use Rattle.permit_sql.specs.Frames.{IsLook};
ghost use Rattle.permit_sql.specs.Refusing.{Refuses};
ghost use Rattle.permit_sql.specs.Renewing.{OverKept, IsRenewed, RenewsToken};
ghost use Rattle.permit_sql.specs.Seen.{IsLeft};
ghost use Rattle.permit_sql.specs.declared.renew.RenewError.TheVariants as renew_error;

use crate::open::check;
use crate::store::SqlStore;
use permit_base::digests::digest;
use permit_base::refusal::{Reason, Refusal};
use permit_base::values::{Digest, PartyId, Token};
use permit_base::words::Edition;
use permit_sql_rows::schema::is_office;
use permit_sql_statements::idle::Idle;
use permit_sql_statements::query::read_all;
use permit_sql_statements::read::{find_party, read_role};
use permit_sql_statements::renew::{renew_in, renew_party};
use permit_sql_statements::texts::{FIND_PARTY, READ_PARTY};
use permit_store::store::{Got, OpenError, StoreError};
use sqlite::{Alter, Connection, params};
use sqlite_value::value::ValueRef;
use std::alloc::Global;

/// Why a party has no new token. The database is as before.
#[derive(Clone, Copy, PartialEq, Eq)]
pub enum RenewError {
    /// There is no such party (`Record`), or a party has the token (`NotAdmitted` for `Taken`).
    Refused(Refusal),
    /// The tables aren't those of an office that can be opened (`Damaged`, `Version`), or a call failed (`Store`).
    Open(OpenError),
}

/// Whether the answer to a query has a row, in a database of an office's schema; with another it fails. The database
/// stays as it is.
fn has_row<S: Alter>(conn: &mut Connection<S>, sql: &str, params: &[ValueRef<'_>]) -> Got<bool>
    requires idle { IsIdle conn.old }
    requires plain { IsPlainIn Second sql.now }
    ensures shown { HasCleanDisk (state S.Store conn.new) → IfOk result (λ has. (rows : List SqlRow)
        × Shown sql.now (bound params.now) (state S.Store conn.old) (state S.Store conn.new) rows × (has ≡ not (length rows == 0))) }
    ensures look { IsLook S.Store conn.old conn.new result }
{
    if !is_office(Edition::Second, conn.schema()) {
        return Err(StoreError);
    }
    match read_all(conn, sql, params) {
        Ok(rows) => Ok(rows.len() != 0),
        Err(_) => Err(StoreError),
    }
}

/// Whether there is a party with the number.
fn has_party<S: Alter>(conn: &mut Connection<S>, party: u32) -> Got<bool>
    requires idle { IsIdle conn.old }
    ensures found { OverKept S.Store conn.old conn.new (λ t. IfOk result (λ has. has ≡ is_some (find (λ p. p.id == party) t.parties))) }
    ensures look { IsLook S.Store conn.old conn.new result }
{
    has_row(conn, READ_PARTY, params![party])
}

/// Whether a party has the digest.
fn has_digest<S: Alter>(conn: &mut Connection<S>, digest: &Digest) -> Got<bool>
    requires idle { IsIdle conn.old }
    ensures found { OverKept S.Store conn.old conn.new (λ t. IfOk result (λ has. has ≡ is_some (find (λ p. bytes_eq p.digest digest.now) t.parties))) }
    ensures look { IsLook S.Store conn.old conn.new result }
{
    has_row(conn, FIND_PARTY, params![digest.as_str()])
}

/// The reason against giving the party the digest.
fn find_against<S: Alter>(
    conn: &mut Connection<S>,
    party: u32,
    digest: &Digest,
) -> Got<Option<Refusal>>
    requires idle { IsIdle conn.old }
    ensures found { OverKept S.Store conn.old conn.new (λ t. IfOk result (λ against. against ≡ against_renewal t.parties party digest.now)) }
    ensures two { IfOk result (λ against. (against ≡ None) ⊎ ((against ≡ Some refused.Record) ⊎ (against ≡ Some (refused.NotAdmitted reason.Taken)))) }
    ensures look { IsLook S.Store conn.old conn.new result }
{
    if !has_party(conn, party)? {
        return Ok(Some(Refusal::Record));
    }
    if has_digest(conn, digest)? {
        Ok(Some(Refusal::NotAdmitted(Reason::Taken)))
    } else {
        Ok(None)
    }
}

/// Gives the party the digest where there is no reason against it, in one transaction.
fn give_digest<S: Alter>(
    conn: &mut Connection<S>,
    party: u32,
    digest: &Digest,
) -> Result<(), RenewError>
    requires idle { IsIdle conn.old }
    ensures made { OverKept S.Store conn.old conn.new (λ t. OnOk result (Keeps (with_renewed party digest.now t) (state S.Store conn.new).now)) }
    ensures admitted { OverKept S.Store conn.old conn.new (λ t. OnOk result (against_renewal t.parties party digest.now ≡ None)) }
    ensures refused { OverKept S.Store conn.old conn.new (λ t. IfErr result (λ e. (why : TheRefusal) → e ≡ renew_error.Refused why
        → against_renewal t.parties party digest.now ≡ Some why)) }
    ensures opened { HasCleanDisk (state S.Store conn.new) → OnOk result (IsTrue (state S.Store conn.new).is_open) }
    ensures judged { HasCleanDisk (state S.Store conn.new)
        → IfErr result (λ e. e ≢ renew_error.Open open_error.Store → IsTrue (state S.Store conn.new).is_open) }
    ensures same { IsFine (state S.Store conn.new) → OnErr result ((state S.Store conn.new).now ≡ (state S.Store conn.old).now) }
    ensures fine { IsFine (state S.Store conn.new) → IsFine (state S.Store conn.old) }
    ensures refusal { IfErr result (λ e. (e ≡ renew_error.Refused refused.Record) ⊎ ((e ≡ renew_error.Refused (refused.NotAdmitted reason.Taken))
        ⊎ (e ≡ renew_error.Open open_error.Store))) }
    ensures crash { Survives (state S.Store conn.old) (state S.Store conn.new) (IsRenewed party digest.now (state S.Store conn.old).now) }
    ensures idle { IsIdle conn.new }
{
    match find_against(conn, party, digest) {
        Ok(None) => match renew_in(conn, party, digest) {
            Ok(()) => Ok(()),
            Err(_) => Err(RenewError::Open(OpenError::Store)),
        },
        Ok(Some(why)) => Err(RenewError::Refused(why)),
        Err(StoreError) => Err(RenewError::Open(OpenError::Store)),
    }
}

impl<S: Alter> SqlStore<S> {
    /// Gives a party another token: the tables are then those of the same history in which the party had that token, and
    /// the old one is nobody's. It tests the tables first, as `open` does, and makes the change in one transaction. It
    /// refuses a number that no party has as `Record`, and a token that a party has, be it this one, as `NotAdmitted`
    /// for `Taken`. It fails as `open` does, whatever the order of the schema: as `Version`, as `Damaged`, and as `Store`,
    /// also where a transaction is open. With a refusal or a failure the database is as before. A crash inside leaves what
    /// was there, or the tables with the new token whole.
    pub fn renew_token(
        alloc: Global,
        conn: &mut Connection<S>,
        party: u32,
        token: &Token,
    ) -> Result<(), RenewError>
        ensures renews { OnOk result (RenewsToken party token.now (state S.Store conn.old) (state S.Store conn.new)) }
        ensures refuses { IfErr result (λ e. Refuses Second (state S.Store conn.old) (state S.Store conn.new) (λ why. e ≡ renew_error.Open why)) }
        ensures refused { OverKept S.Store conn.old conn.new (λ t. IfErr result (λ e. (why : TheRefusal) → e ≡ renew_error.Refused why
            → against_renewal t.parties party (digest_of token.now) ≡ Some why)) }
        ensures fine { IsFine (state S.Store conn.new) → IsFine (state S.Store conn.old) }
        ensures busy { IsTrue conn.old.in_transaction → result ≡ Err (renew_error.Open open_error.Store) }
        ensures refusal { IfErr result (λ e. (e ≡ renew_error.Refused refused.Record) ⊎ ((e ≡ renew_error.Refused (refused.NotAdmitted reason.Taken))
            ⊎ ((e ≡ renew_error.Open open_error.Damaged) ⊎ ((e ≡ renew_error.Open open_error.Version)
            ⊎ (e ≡ renew_error.Open open_error.Store))))) }
        ensures crash { Survives (state S.Store conn.old) (state S.Store conn.new)
            (λ trees. KeepsSound (state S.Store conn.old).now × IsRenewed party (digest_of token.now) (state S.Store conn.old).now trees) }
        ensures transaction { conn.new.in_transaction ≡ conn.old.in_transaction }
    {
        let Ok(digest) = digest(token) else {
            unreachable!()
        };
        match check(conn, alloc, Edition::Second) {
            Ok(_) => give_digest(conn, party, &digest),
            Err(why) => Err(RenewError::Open(why)),
        }
    }
}

/// Gives the party the digest where there is no reason against it.
pub(crate) fn renew_over<S: Alter>(
    conn: &mut Idle<S>,
    party: PartyId,
    digest: &Digest,
) -> Got<Result<(), Refusal>>
    ensures renewed { OverShown S.Store conn.old conn.new (λ t. Renews (λ u. Shows u (state S.Store conn.new)) party digest.now t result) }
    ensures doubt { KeepsDoubt S.Store conn.old conn.new }
    ensures crash { (t : Tables) → Keeps t (state S.Store conn.old).now
        → Survives (state S.Store conn.old) (state S.Store conn.new) (λ trees. IsLeft trees (with_renewed party digest.now t)) }
{
    let role = read_role(conn, party)?;
    if role.is_none() {
        return Ok(Err(Refusal::Record));
    }
    let holder = find_party(conn, digest)?;
    if holder.is_some() {
        return Ok(Err(Refusal::NotAdmitted(Reason::Taken)));
    }
    renew_party(conn, party.get(), digest)?;
    Ok(Ok(()))
}
