//! Founding an office in a database, and its history with it.

ghost use Rattle.std.specs.Prelude.{◌≡◌, ◌≢◌, ◌⊎◌, [], false, Err, IfErr, IfOk, OnErr, OnOk};
ghost use Rattle.sqlite.specs.State.{HasCleanDisk};
ghost use Rattle.sqlite.specs.Held.{state};
ghost use Rattle.permit_journal.specs.Files.{LeavesGrown};
ghost use Rattle.permit_journal.specs.Journals.{Has, HasUnlessShut, IsSettled};
ghost use Rattle.permit_history.specs.LineData.{text_of};
ghost use Rattle.permit_model.specs.Tables.{tables};
ghost use Rattle.permit_store.specs.Founding.{founding};
ghost use Rattle.permit_sql_rows.specs.Kept.{IsFine, Keeps};
ghost use Rattle.permit_sql_rows.specs.Schema.{empty_schema};
ghost use Rattle.permit_sql.specs.Seen.{IsLeft};
ghost use Rattle.permit_store.specs.declared.store.OpenError.TheVariants as opening;
ghost use Rattle.permit_subcommands.specs.declared.failure.Failure.TheVariants.{Database, History};
ghost use Rattle.permit_subcommands.specs.declared.failure.HistoryFailure.TheVariants.{Exists};
ghost use Rattle.permit_database.specs.Crashing.{CrashesBehind};
ghost use Rattle.permit_database.specs.Failing.{IsOfStore, IsUnfounded, IsUnstarted};
ghost use Rattle.permit_database.specs.Founded.{IsFoundedAs};
ghost use Rattle.permit_database.specs.Founding.{first_entries};

use crate::line::whole_line;
use crate::outcome::Outcome;
use permit_history::entry::Deed;
use permit_journal::file::HistoryFile;
use permit_journal::journal::Journal;
use permit_sql::store::SqlStore;
use permit_store::founder::Founder;
use permit_subcommands::failure::{Failure, HistoryFailure};
use sqlite::{Alter, Connection};
use std::alloc::{AllocError, Global};

/// The lines with which the history of an office begins: that of its founding, and that of the upgrade.
fn first_lines(alloc: Global, founder: &Founder) -> Result<Vec<u8>, AllocError>
    ensures { IfOk result (λ text. text.items ≡ text_of (first_entries founder.now)) }
{
    let name = founder.name.clone()?;
    let digest = founder.digest;
    let mut text = whole_line(alloc, founder.day, Deed::Found { name, digest })?;
    let upgrade = whole_line(alloc, founder.day, Deed::Upgrade)?;
    text.extend_from_slice(upgrade.as_slice())?;
    Ok(text)
}

/// Begins the text of a history that has none.
fn begin<H: HistoryFile + Drop>(
    alloc: Global,
    journal: &mut Journal<H>,
    founder: &Founder,
) -> Result<(), Failure>
    ensures begun { IsSettled H.view journal.old
        → OnOk result (((H.view journal.old.file).text ≡ []) × Has H.view journal.new (text_of (first_entries founder.now))) }
    ensures back { IsSettled H.view journal.old
        → OnErr result (HasUnlessShut H.view journal.new journal.new.is_shut (H.view journal.old.file).text) }
    ensures exists { IsSettled H.view journal.old → result ≡ Err (History Exists) → (H.view journal.old.file).text ≢ [] }
    ensures there { IsSettled H.view journal.old → (H.view journal.old.file).text ≢ [] → result ≡ Err (History Exists) }
    ensures crash { IsSettled H.view journal.old
        → LeavesGrown H.leaves (text_of (first_entries founder.now)) (H.view journal.old.file).text (H.view journal.new.file).may_leave }
    ensures fails { IfErr result (λ why. IsOfStore why ⊎ IsUnstarted why) }
{
    if journal.length() != 0 {
        return Err(Failure::History(HistoryFailure::Exists));
    }
    let lines = first_lines(alloc, founder)?;
    match journal.enter(lines.as_slice()) {
        Ok(()) => Ok(()),
        Err(_) => Err(Failure::History(HistoryFailure::Store)),
    }
}

/// Founds an office in a database.
pub fn found_in<S: Alter + Drop>(
    alloc: Global,
    conn: Connection<S>,
    founder: &Founder,
) -> (Connection<S>, Result<Outcome, Failure>)
    ensures founded { OnOk result.1 (HasCleanDisk (state S.Store result.0)
        → Keeps (tables (founding founder.now.name founder.now.digest founder.now.day)) (state S.Store result.0).now) }
    ensures told { IsFoundedAs (state S.Store conn).now result.1 }
    ensures kind { IfOk result.1 (λ done. done ≡ Outcome.Founded) }
    ensures fails { IfErr result.1 IsUnfounded }
    ensures exists { conn.in_transaction ≡ false → (state S.Store conn).now.schema ≢ empty_schema → result.1 ≡ Err (Database opening.Exists) }
    ensures same { OnErr result.1 (IsFine (state S.Store result.0) → (state S.Store result.0).now ≡ (state S.Store conn).now) }
{
    match SqlStore::create(alloc, conn, founder) {
        Ok(store) => (store.into_connection(), Ok(Outcome::Founded)),
        Err((conn, why)) => (conn, Err(Failure::Database(why))),
    }
}

/// Founds an office in a database, and begins its history, whose lines are on the disk before the tables are made. A journal with
/// a text is refused, and so is a database with a table, as `exists`. With a refusal the database is as it was, and so is the
/// text, unless the journal is shut.
///
/// # Examples
///
/// ```
/// let (conn, founded) = found_with(alloc, conn, &mut journal, &founder);
/// assert!(rt; founded.is_ok() && journal.length() != 0);
/// let (_, again) = found_with(alloc, conn, &mut journal, &founder);
/// assert!(rt; matches!(again, Err(Failure::History(HistoryFailure::Exists))));
/// ```
pub fn found_with<S: Alter + Drop, H: HistoryFile + Drop>(
    alloc: Global,
    conn: Connection<S>,
    journal: &mut Journal<H>,
    founder: &Founder,
) -> (Connection<S>, Result<(), Failure>)
    ensures founded { OnOk result.1 (HasCleanDisk (state S.Store result.0)
        → Keeps (tables (founding founder.now.name founder.now.digest founder.now.day)) (state S.Store result.0).now) }
    ensures begun { IsSettled H.view journal.old
        → OnOk result.1 (Has H.view journal.new (text_of (first_entries founder.now))) }
    ensures same { OnErr result.1 (IsFine (state S.Store result.0) → (state S.Store result.0).now ≡ (state S.Store conn).now) }
    ensures back { IsSettled H.view journal.old
        → OnErr result.1 (HasUnlessShut H.view journal.new journal.new.is_shut (H.view journal.old.file).text) }
    ensures exists { IsSettled H.view journal.old → result.1 ≡ Err (History Exists) → (H.view journal.old.file).text ≢ [] }
    ensures there { IsSettled H.view journal.old → (H.view journal.old.file).text ≢ [] → result.1 ≡ Err (History Exists) }

    // A crash leaves the text as it was, with a part of the two lines or both after it, and the database as it was or, once both
    // lines are on the disk, founded.
    ensures crash { CrashesBehind S.Store H.view H.leaves (text_of (first_entries founder.now))
        (λ trees. IsLeft trees (tables (founding founder.now.name founder.now.digest founder.now.day))) journal.old journal.new conn result.0 }
    ensures fails { IfErr result.1 (λ why. (why ≡ Database opening.Exists) ⊎ (IsOfStore why ⊎ IsUnstarted why)) }
{
    if let Err(why) = begin(alloc, journal, founder) {
        return (conn, Err(why));
    }
    match SqlStore::create(alloc, conn, founder) {
        Ok(store) => (store.into_connection(), Ok(())),
        Err((conn, why)) => {
            journal.take_back(0);
            (conn, Err(Failure::Database(why)))
        }
    }
}
