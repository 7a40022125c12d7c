//! A new token for a party of an office that is opened with its history.

ghost use Rattle.std.specs.Prelude.{◌≡◌, ◌++◌, ◌⊎◌, ℕ, List, None, Some, length, IfErr, IfOk, OnErr, OnOk, IsTrue};
ghost use Rattle.sqlite.specs.State.{HasCleanDisk};
ghost use Rattle.sqlite.specs.Held.{state};
ghost use Rattle.permit_base.specs.Digests.{digest_of};
ghost use Rattle.permit_journal.specs.Files.{LeavesGrown};
ghost use Rattle.permit_journal.specs.Journals.{Has, HasUnlessShut, IsSettled};
ghost use Rattle.permit_model.specs.Renewal.{against_renewal, with_renewed};
ghost use Rattle.permit_model.specs.Tables.{Tables};
ghost use Rattle.permit_replay.specs.Holding.{IsBeginning};
ghost use Rattle.permit_sql_rows.specs.Kept.{IsFine, Keeps, Shows};
ghost use Rattle.permit_sql.specs.Found.{KeepsSound};
ghost use Rattle.permit_sql.specs.Renewing.{IsRenewed, OverKept};
ghost use Rattle.permit_database.specs.Crashing.{CrashesBehind};
ghost use Rattle.permit_database.specs.Doing.{SaysOpening};
ghost use Rattle.permit_database.specs.Failing.{IsOfText, IsUnrenewed};
ghost use Rattle.permit_database.specs.Opening.{IsNotOpenedWith};
ghost use Rattle.permit_database.specs.Renewing.{IsNotRenewed, renewal_line, RenewsWith};

use crate::failing::of_renewing;
use crate::line::whole_line;
use crate::opening::{Recording, Settled, settled_in};
use permit_base::digests::digest;
use permit_base::values::{Day, PartyId, Token};
use permit_history::entry::Deed;
use permit_journal::file::HistoryFile;
use permit_journal::journal::Journal;
use permit_sql::renew::RenewError;
use permit_sql::store::SqlStore;
use permit_store::plain::PlainStore;
use permit_store::store::{Got, OpenError, Store};
use permit_subcommands::failure::{Failure, HistoryFailure};
use sqlite::{Alter, Connection};
use std::alloc::Global;
use std::io::Write;

/// Enters the line of a party's new token into the history.
fn enter_renewal<H: HistoryFile + Drop>(
    alloc: Global,
    journal: &mut Journal<H>,
    day: Day,
    party: PartyId,
    token: &Token,
) -> Result<(), Failure>
    ensures entered { IsSettled H.view journal.old → OnOk result (Has H.view journal.new
        ((H.view journal.old.file).text ++ renewal_line day party (digest_of token.now))) }
    ensures back { IsSettled H.view journal.old
        → OnErr result (HasUnlessShut H.view journal.new journal.new.is_shut (H.view journal.old.file).text) }
    ensures crash { IsSettled H.view journal.old
        → LeavesGrown H.leaves (renewal_line day party (digest_of token.now)) (H.view journal.old.file).text (H.view journal.new.file).may_leave }
    ensures fails { IfErr result (λ why. IsUnrenewed why ⊎ IsOfText why) }
{
    let digest = digest(token)?;
    let line = whole_line(alloc, day, Deed::RenewToken { party, digest })?;
    match journal.enter(line.as_slice()) {
        Ok(()) => Ok(()),
        Err(_) => Err(Failure::History(HistoryFailure::Store)),
    }
}

/// Takes back the line of a renewal that is refused. Where a call failed it isn't known whether the database has the token: then
/// the line stays and the journal is shut.
fn take_back_refused<H: HistoryFile + Drop>(
    journal: &mut Journal<H>,
    before: u64,
    error: &RenewError,
)
    ensures back { IsSettled H.view journal.old → (base line : List ℕ) → length base ≡ before
        → (H.view journal.old.file).text ≡ base ++ line → HasUnlessShut H.view journal.new journal.new.is_shut base }
    ensures crash { IsSettled H.view journal.old → (base line : List ℕ) → length base ≡ before
        → (H.view journal.old.file).text ≡ base ++ line → LeavesGrown H.leaves line base (H.view journal.old.file).may_leave
        → LeavesGrown H.leaves line base (H.view journal.new.file).may_leave }
{
    match error {
        RenewError::Refused(_) => journal.take_back(before),
        RenewError::Open(_) => journal.shut(),
    }
}

/// Gives a party of the office in a database a new token, whose line of the day is in the history and on the disk before that.
/// It refuses a number that no party has, and a token that a party has. With a refusal the database is as it was, and so is the
/// text, unless the journal is shut. A call that failed shuts it, and the line stays: it isn't known then whether the database has
/// the token, and the next opening redoes the line if it hasn't.
pub fn renew_with<S: Alter + Drop, H: HistoryFile + Drop>(
    alloc: Global,
    conn: Connection<S>,
    journal: &mut Journal<H>,
    day: Day,
    party: PartyId,
    token: &Token,
) -> (Connection<S>, Result<(), Failure>)
    ensures made { OverKept S.Store conn result.0
        (λ t. OnOk result.1 (Keeps (with_renewed party (digest_of token.now) t) (state S.Store result.0).now)) }
    ensures admitted { OverKept S.Store conn result.0 (λ t. OnOk result.1 (against_renewal t.parties party (digest_of token.now) ≡ None)) }
    ensures opened { HasCleanDisk (state S.Store result.0) → OnOk result.1 (IsTrue (state S.Store result.0).is_open) }
    ensures fine { IsFine (state S.Store result.0) → IsFine (state S.Store conn) }
    ensures same { OnErr result.1 (IsFine (state S.Store result.0) → (state S.Store result.0).now ≡ (state S.Store conn).now) }
    ensures entered { IsSettled H.view journal.old → OnOk result.1 (Has H.view journal.new
        ((H.view journal.old.file).text ++ renewal_line day party (digest_of token.now))) }
    ensures back { IsSettled H.view journal.old
        → OnErr result.1 (HasUnlessShut H.view journal.new journal.new.is_shut (H.view journal.old.file).text) }

    // A crash leaves the text as it was, with a part of the line or all of it after it, and the database as it was or, once the line
    // is on the disk, renewed.
    ensures crash { CrashesBehind S.Store H.view H.leaves (renewal_line day party (digest_of token.now))
        (λ trees. KeepsSound (state S.Store conn).now × IsRenewed party (digest_of token.now) (state S.Store conn).now trees)
        journal.old journal.new conn result.0 }
    ensures fails { IfErr result.1 (λ why. IsUnrenewed why ⊎ IsOfText why) }
{
    let before = journal.length();
    if let Err(why) = enter_renewal(alloc, journal, day, party, token) {
        return (conn, Err(why));
    }
    let mut conn = conn;
    match SqlStore::renew_token(alloc, &mut conn, party.get(), token) {
        Ok(()) => (conn, Ok(())),
        Err(error) => {
            take_back_refused(journal, before, &error);
            (conn, Err(of_renewing(error)))
        }
    }
}

/// The last day of an office over a store, whose connection comes back.
fn last_of<S: Alter + Drop>(store: SqlStore<S>) -> (Connection<S>, Got<Day>)
    ensures last { HasCleanDisk (state S.Store result.0) → (t : Tables) → (⟦<SqlStore<S> as Store>⟧.view store).holds t
        → IfOk result.1 (λ day. day ≡ t.desk.last) }
    ensures kept { HasCleanDisk (state S.Store result.0) → (t : Tables) → (⟦<SqlStore<S> as Store>⟧.view store).holds t → Shows t (state S.Store result.0) }
    ensures clean { HasCleanDisk (state S.Store result.0) → HasCleanDisk (state S.Store store.conn) }
{
    let mut store = store;
    let desk = store.desk();
    let conn = store.into_connection();
    match desk {
        Ok(desk) => (conn, Ok(desk.last)),
        Err(error) => (conn, Err(error)),
    }
}

/// Opens the office in a database with its history, and gives a party of it a new token. The line of that has the office's last
/// day, and is in the history and on the disk before the token is changed. How many lines were redone is said on `err`, if any were.
/// The history's file comes back with the connection.
pub fn renew_recorded<S: Alter + Drop, H: HistoryFile + Drop, E: Write>(
    alloc: Global,
    conn: Connection<S>,
    history: Recording<H>,
    party: PartyId,
    token: &Token,
    err: &mut E,
) -> (Connection<S>, H, Result<(), Failure>)
    ensures renewed { OnOk result.2 (RenewsWith S.Store (IsBeginning ⟦<PlainStore as Store>⟧.view history.beginning) H.view conn result.0
        (H.view history.file).text result.1 party (digest_of token.now) (E.contents err.old) (E.contents err.new)) }
    ensures unrenewed { IfErr result.2 (λ why. IsNotOpenedWith S.Store (IsBeginning ⟦<PlainStore as Store>⟧.view history.beginning) H.view H.leaves conn result.0
        history.file result.1 why (E.contents err.old) (E.contents err.new)
        ⊎ IsNotRenewed S.Store (IsBeginning ⟦<PlainStore as Store>⟧.view history.beginning) H.view conn result.0 (H.view history.file).text result.1
        (E.contents err.old) (E.contents err.new)) }
    ensures fails { IfErr result.2 (λ why. IsUnrenewed why ⊎ IsOfText why) }
    ensures says { SaysOpening (Some history) (E.contents err.old) (E.contents err.new) }
{
    match settled_in(alloc, conn, history, None, err) {
        Ok(settled) => {
            let Settled {
                store,
                mut journal,
                redone: _,
            } = settled;
            let (conn, last) = last_of(store.store);
            match last {
                Ok(day) => {
                    let (conn, renewed) = renew_with(alloc, conn, &mut journal, day, party, token);
                    (conn, journal.into_file(), renewed)
                }
                Err(_) => (
                    conn,
                    journal.into_file(),
                    Err(Failure::Database(OpenError::Store)),
                ),
            }
        }
        Err((conn, file, why)) => (conn, file, Err(why)),
    }
}
