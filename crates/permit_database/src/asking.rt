//! An office in a database, and what it makes of a question.

ghost use Rattle.std.specs.Prelude.{◌≡◌, ◌⊎◌, ℕ, List, Option, Err, IfErr, IfOk, None, Some};
ghost use Rattle.permit_office.specs.Office.{OfficeView};
ghost use Rattle.permit_replay.specs.Holding.{IsBeginning};
ghost use Rattle.permit_subcommands.specs.declared.failure.Failure.{Failure as TheFailure};
ghost use Rattle.permit_database.specs.Doing.{IsToldOf, SaysIn, SaysOf, SaysRedone};
ghost use Rattle.permit_database.specs.Failing.{FailsIn, FailsOf};
ghost use Rattle.permit_database.specs.Opening.{IsNotOpenedWith, IsUnopened, Opens, OpensWith, Refuses};
ghost use Rattle.permit_database.specs.Questions.{IsAnswered, IsAsked};

use crate::opening::{Recording, settled_in, store_in};
use crate::outcome::Outcome;
use crate::question::Question;
use permit_base::values::Day;
use permit_import::importing::import;
use permit_journal::file::HistoryFile;
use permit_office::log::{Log, NoLog};
use permit_office::office::Office;
use permit_policy::Policy;
use permit_recorded::log::HistoryLog;
use permit_replay::alike::unordered::Unordered;
use permit_sql::store::SqlStore;
use permit_store::plain::PlainStore;
use permit_store::store::{OpenError, Store};
use permit_subcommands::answering::ask;
use permit_subcommands::failure::Failure;
use permit_subcommands::listing::{list, write_register};
use sqlite::{Alter, Connection};
use std::alloc::Global;
use std::io::{Read, Write};

/// Asks an office. What can't be known before the last row or record is written to `out` on the way, and why records are refused to
/// `err`.
fn ask_of<S: Store + Drop, L: Log + Drop, R: Read + Drop, O: Write, E: Write>(
    alloc: Global,
    office: &mut Office<S, L>,
    day: Day,
    question: Question<'_, R>,
    out: &mut O,
    err: &mut E,
) -> Result<Outcome, Failure>
    ensures { IsAnswered S.view L.Log R.remaining day question.entry office.old office.new (O.contents out.old) (O.contents out.new)
        (E.contents err.old) (E.contents err.new) result }
{
    match question {
        Question::Serve { request } => {
            let answer = ask(alloc, office, request.as_str(), day)?;
            Ok(Outcome::Answered(answer))
        }
        Question::List { token, filter } => Ok(Outcome::Listed(list(office, token, filter, day)?)),
        Question::Register { token, kind } => {
            write_register(office, token, kind, day, out)?;
            Ok(Outcome::Registered)
        }
        Question::Import {
            token,
            path,
            records,
            why,
        } => match import(alloc, office, &token, day, why, records, out, err) {
            Ok(tally) => Ok(Outcome::Imported(tally)),
            Err(fault) => Err(Failure::of_import(alloc, path, fault)),
        },
    }
}

/// Asks an office, and gives back its store and its log.
fn ask_once<S: Store + Drop, L: Log + Drop, R: Read + Drop, O: Write, E: Write>(
    alloc: Global,
    office: Office<S, L>,
    day: Day,
    question: Question<'_, R>,
    out: &mut O,
    err: &mut E,
) -> (S, L, Result<Outcome, Failure>)
    ensures asked { (left : OfficeView S L) × IsAnswered S.view L.Log R.remaining day question.entry office left (O.contents out.old) (O.contents out.new)
        (E.contents err.old) (E.contents err.new) result.2 × (result.0 ≡ left.store) × (result.1 ≡ left.log) }
    ensures told { IfOk result.2 (IsToldOf day question.entry (O.contents out.old) (O.contents out.new)) }
    ensures fails { IfErr result.2 (FailsOf day question.entry (O.contents out.old) (O.contents out.new)) }
    ensures says { SaysOf question.entry (E.contents err.old) (E.contents err.new) }
{
    let mut office = office;
    let done = ask_of(alloc, &mut office, day, question, out, err);
    let (store, log) = office.into_parts();
    (store, log, done)
}

/// The office in a database, under the policy; else the connection comes back.
fn office_in<S: Alter + Drop>(
    alloc: Global,
    conn: Connection<S>,
    policy: Policy,
) -> Result<Office<SqlStore<S>>, (Connection<S>, OpenError)>
    ensures opened { IfOk result (λ office. Opens S.Store conn office.store.conn (⟦<SqlStore<S> as Store>⟧.view office.store)) }
    ensures policy { IfOk result (λ office. office.policy ≡ policy) }
    ensures refused { IfErr result (λ back. Refuses S.Store conn back.0 back.1) }
{
    match store_in(alloc, conn, None) {
        Ok(store) => match Office::open(store, policy, NoLog) {
            Ok(office) => Ok(office),
            Err((store, _, why)) => Err((store.into_connection(), why)),
        },
        Err(refused) => Err(refused),
    }
}

/// Asks the office in a database, without a history.
pub fn ask_alone<S: Alter + Drop, R: Read + Drop, O: Write, E: Write>(
    alloc: Global,
    conn: Connection<S>,
    policy: Policy,
    day: Day,
    question: Question<'_, R>,
    out: &mut O,
    err: &mut E,
) -> (Connection<S>, Result<Outcome, Failure>)
    ensures asked { IsAsked ⟦<SqlStore<S> as Store>⟧.view ⟦<NoLog as Log>⟧
        (λ office. Opens S.Store conn office.store.conn (⟦<SqlStore<S> as Store>⟧.view office.store)) (λ left. result.0 ≡ left.store.conn)
        R.remaining policy day question.entry (O.contents out.old) (O.contents out.new) (E.contents err.old) (E.contents err.new) result.1
        ⊎ (IsUnopened S.Store conn result.0 result.1 × (O.contents out.new ≡ O.contents out.old) × (E.contents err.new ≡ E.contents err.old)) }
    ensures told { IfOk result.1 (IsToldOf day question.entry (O.contents out.old) (O.contents out.new)) }
    ensures fails { IfErr result.1 (FailsIn {H = Unit {0}} None day question.entry (O.contents out.old) (O.contents out.new)) }
    ensures says { SaysOf question.entry (E.contents err.old) (E.contents err.new) }
{
    match office_in(alloc, conn, policy) {
        Ok(office) => {
            let (store, _log, done) = ask_once(alloc, office, day, question, out, err);
            (store.into_connection(), done)
        }
        Err((conn, why)) => (conn, Err(Failure::Database(why))),
    }
}

/// Opens the office in a database with its history, asks it, and enters what is done into the history. The history's file comes
/// back with the connection, as the office left it, or as its opening did where that failed.
pub fn ask_recorded<S, H, R, O, E>(
    alloc: Global,
    conn: Connection<S>,
    policy: Policy,
    day: Day,
    question: Question<'_, R>,
    history: Recording<H>,
    out: &mut O,
    err: &mut E,
) -> (Connection<S>, H, Result<Outcome, Failure>)
where
    S: Alter + Drop,
    H: HistoryFile + Drop,
    R: Read + Drop,
    O: Write,
    E: Write,
    // The line of what was redone is said before the office is asked.
    ensures asked { ((redone : ℕ) × (opened : Option (List ℕ)) × SaysRedone redone (E.contents err.old) opened
        × IsAsked ⟦<Unordered<SqlStore<S>> as Store>⟧.view ⟦<HistoryLog<H> as Log>⟧
        (λ office. OpensWith S.Store (IsBeginning ⟦<PlainStore as Store>⟧.view history.beginning) H.view conn office.store.store.conn
        (H.view history.file).text (⟦<Unordered<SqlStore<S>> as Store>⟧.view office.store) office.log.journal redone)
        (λ left. (result.0 ≡ left.store.store.conn) × (result.1 ≡ left.log.journal.file))
        R.remaining policy day question.entry (O.contents out.old) (O.contents out.new) opened (E.contents err.new) result.2)
        ⊎ ((why : TheFailure) × (result.2 ≡ Err why) × IsNotOpenedWith S.Store (IsBeginning ⟦<PlainStore as Store>⟧.view history.beginning) H.view H.leaves
        conn result.0 history.file result.1 why (E.contents err.old) (E.contents err.new) × (O.contents out.new ≡ O.contents out.old)) }
    ensures told { IfOk result.2 (IsToldOf day question.entry (O.contents out.old) (O.contents out.new)) }
    ensures fails { IfErr result.2 (FailsIn (Some history) day question.entry (O.contents out.old) (O.contents out.new)) }
    ensures says { SaysIn (Some history) question.entry (E.contents err.old) (E.contents err.new) }
{
    match settled_in(alloc, conn, history, None, err) {
        Ok(settled) => {
            let log = HistoryLog::new(alloc, settled.journal, None);
            match Office::open(settled.store, policy, log) {
                Ok(office) => {
                    let (store, log, done) = ask_once(alloc, office, day, question, out, err);
                    let file = log.into_journal().into_file();
                    (store.store.into_connection(), file, done)
                }
                Err((store, log, why)) => {
                    let file = log.into_journal().into_file();
                    (
                        store.store.into_connection(),
                        file,
                        Err(Failure::Database(why)),
                    )
                }
            }
        }
        Err((conn, file, why)) => (conn, file, Err(why)),
    }
}

/// Asks the office in a database, which is opened with its history where one comes with it.
pub fn ask_in<S, H, R, O, E>(
    alloc: Global,
    conn: Connection<S>,
    policy: Policy,
    day: Day,
    question: Question<'_, R>,
    history: Option<Recording<H>>,
    out: &mut O,
    err: &mut E,
) -> (Connection<S>, Result<Outcome, Failure>)
where
    S: Alter + Drop,
    H: HistoryFile + Drop,
    R: Read + Drop,
    O: Write,
    E: Write,
    ensures told { IfOk result.1 (IsToldOf day question.entry (O.contents out.old) (O.contents out.new)) }
    ensures fails { IfErr result.1 (FailsIn history day question.entry (O.contents out.old) (O.contents out.new)) }
    ensures says { SaysIn history question.entry (E.contents err.old) (E.contents err.new) }
{
    match history {
        None => ask_alone(alloc, conn, policy, day, question, out, err),
        Some(history) => {
            let (conn, file, done) = ask_recorded(
                alloc, conn, policy, day, question, history, out, err,
            );
            drop(file);
            (conn, done)
        }
    }
}
