//! An office in a database that is served over TCP, with its tables in memory, and with its history where it has one.

ghost use Rattle.std.specs.Prelude.{◌≡◌, ◌⊎◌, ℕ, Err, IfErr, IfOk, List, Some};
ghost use Rattle.permit_base.specs.declared.request.Asked.{Asked};
ghost use Rattle.permit_replay.specs.Holding.{IsBeginning};
ghost use Rattle.permit_wire.specs.Serving.{StepsOn};
ghost use Rattle.permit_wire.specs.declared.service.Dated.{Dated};
ghost use Rattle.permit_hall.specs.OneHistory.{OneHistory};
ghost use Rattle.permit_hall.specs.Runs.{Entry, Runs};
ghost use Rattle.permit_import.specs.declared.refused.RefusalWord.TheVariants.{Store as StoreWord};
ghost use Rattle.permit_subcommands.specs.Failures.{plain};
ghost use Rattle.permit_subcommands.specs.declared.failure.Failure.{Failure as TheFailure};
ghost use Rattle.permit_database.specs.Doing.{SaysOpening, SaysRedone};
ghost use Rattle.permit_database.specs.Failing.{FailsToListen, IsOfStore, IsUnusable, OrOfText};
ghost use Rattle.permit_database.specs.Opening.{IsNotOpenedWith, IsUnopened, IsWithoutMemory, OpensInMemory, OpensWith};
ghost use Rattle.permit_database.specs.Served.{HasEndedAs, IsDayOfRun, IsLoaded, IsServed, IsUnloaded, IsUnserved, SaysWhere};

use crate::opening::{Recording, settled_in, store_in};
use crate::shut::flag;
use permit_args::plan::ServeWords;
use permit_base::values::Day;
use permit_hall::doors::Door;
use permit_journal::file::HistoryFile;
use permit_mirror::indexed::Indexed;
use permit_mirror::mirrored::Mirrored;
use permit_office::log::{Log, NoLog};
use permit_office::office::Office;
use permit_policy::Policy;
use permit_recorded::log::HistoryLog;
use permit_replay::alike::unordered::Unordered;
use permit_sockets::connections::{Connections, Flag};
use permit_sockets::pace::{AnswerWriter, RequestReader};
use permit_sockets::serving::{any_stopped, serve};
use permit_sql::store::SqlStore;
use permit_store::plain::PlainStore;
use permit_store::store::Store;
use permit_subcommands::days::RunDays;
use permit_subcommands::failure::Failure;
use sqlite::{Alter, Connection};
use std::alloc::Global;
use std::io::{Read, Write};
use std::sync::Wait;
use std::thread::Threads;

/// The tables that a store keeps, and in memory beside it.
type InMemory<K> = Mirrored<K, Indexed<PlainStore>>;

/// The office over a store, with its tables in memory beside it, under the policy and with the log. Where there is no memory for
/// them, or a call of the store failed, the store and the log come back.
fn beside_memory<K: Store + Drop, L: Log + Drop>(
    alloc: Global,
    store: K,
    policy: Policy,
    log: L,
) -> Result<Office<InMemory<K>, L>, (K, L)>
    ensures loaded { IfOk result (λ office. IsLoaded (K.view store) (⟦<InMemory<K> as Store>⟧.view office.store)) }
    ensures policy { IfOk result (λ office. office.policy ≡ policy) }
    ensures log { IfOk result (λ office. office.log ≡ log) }
    ensures back { IfErr result (λ back. IsUnloaded (K.view store) (K.view back.0) × (back.1 ≡ log)) }
{
    match Mirrored::load(alloc, store) {
        Ok(store) => match Office::open(store, policy, log) {
            Ok(office) => Ok(office),
            Err((store, log, _)) => Err((store.into_kept(), log)),
        },
        Err((store, _)) => Err((store, log)),
    }
}

/// Serves an office over TCP, until its workers have ended. Where one of them found the flag set, a fault of the disk has shut the
/// office's database or its history, and the failure is the store's: only an opening of the file mends that.
fn serve_over<S, L, R, T, O>(
    rt: &HostRuntime,
    workers: R,
    office: Office<S, L>,
    today: &mut T,
    words: &ServeWords<'_>,
    shut: &Flag,
    out: &mut O,
) -> (Office<S, L>, Result<(), Failure>)
where
    S: Store + Drop,
    L: Log + Drop,
    T: FnMut() -> Day,
    R: Threads + Wait + Copy + Drop + Send + 'static,
    O: Write,
    requires { T.IsAlwaysCallable today.old }
    ensures history { (served : List (Entry Asked Dated)) × OneHistory S.view L.Log T.step words.now.workers office result.0 today.old today.new served
        × Runs (StepsOn S.view L.Log) office served result.0
        × (HasEndedAs (⟦<RequestReader<HostRuntime> as Read>⟧.remaining) (⟦<AnswerWriter<HostRuntime> as Write>⟧.contents)
        (⟦<Connections<HostRuntime, R> as Door>⟧.gave) (⟦<Connections<HostRuntime, R> as Door>⟧.spent) words.now.workers words.now.connections
        (O.contents out.old) (O.contents out.new) served result.1 ⊎ (IsUnserved office result.0 result.1 × (today.new ≡ today.old))) }
    ensures fails { IfErr result.1 (λ why. IsOfStore why ⊎ FailsToListen words.now.listen.now why) }
    ensures says { SaysWhere (O.contents out.old) (O.contents out.new) result.1 }
{
    let (office, served) = serve(rt, workers, office, words, today, shut, out);
    match served {
        Ok(ends) => {
            if any_stopped(&ends) {
                (office, Err(Failure::memory()))
            } else {
                (office, Ok(()))
            }
        }
        Err(failure) => (office, Err(failure)),
    }
}

/// Serves the office over a store over TCP, with its tables in memory and with the log, on the days of a run, until its workers have
/// ended. The store and the log come back.
fn serve_beside_memory<K, L, R, O>(
    rt: &HostRuntime,
    workers: R,
    store: K,
    policy: Policy,
    log: L,
    days: &RunDays,
    words: &ServeWords<'_>,
    shut: &Flag,
    out: &mut O,
) -> (K, L, Result<(), Failure>)
where
    K: Store + Drop,
    L: Log + Drop,
    R: Threads + Wait + Copy + Drop + Send + 'static,
    O: Write,
    ensures served { IsServed ⟦<InMemory<K> as Store>⟧.view L.Log (λ office. IsLoaded (K.view store) (⟦<InMemory<K> as Store>⟧.view office.store) × (office.log ≡ log))
        (λ left. (result.0 ≡ left.store.kept) × (result.1 ≡ left.log)) days.now
        (HasEndedAs (⟦<RequestReader<HostRuntime> as Read>⟧.remaining) (⟦<AnswerWriter<HostRuntime> as Write>⟧.contents)
        (⟦<Connections<HostRuntime, R> as Door>⟧.gave) (⟦<Connections<HostRuntime, R> as Door>⟧.spent) words.now.workers words.now.connections
        (O.contents out.old) (O.contents out.new)) policy words.now.workers (O.contents out.old) (O.contents out.new) result.2
        ⊎ (IsUnloaded (K.view store) (K.view result.0) × (result.1 ≡ log) × (result.2 ≡ Err (plain StoreWord))
        × (O.contents out.new ≡ O.contents out.old)) }
    ensures fails { IfErr result.2 (λ why. IsOfStore why ⊎ FailsToListen words.now.listen.now why) }
    ensures says { SaysWhere (O.contents out.old) (O.contents out.new) result.2 }
{
    match beside_memory(rt.alloc(), store, policy, log) {
        Ok(office) => {
            let mut today = ||
                ensures { IsDayOfRun days.entry.now result }
            { days.today(rt) };
            let (office, served) = serve_over(rt, workers, office, &mut today, words, shut, out);
            let (store, log) = office.into_parts();
            (store.into_kept(), log, served)
        }
        Err((store, log)) => (store, log, Err(Failure::memory())),
    }
}

/// Serves the office in a database over TCP, with its tables in memory, on the days of a run, until its workers have ended.
pub fn serve_alone<S, R, O>(
    rt: &HostRuntime,
    workers: R,
    conn: Connection<S>,
    policy: Policy,
    days: &RunDays,
    words: &ServeWords<'_>,
    out: &mut O,
) -> (Connection<S>, Result<(), Failure>)
where
    S: Alter + Drop,
    R: Threads + Wait + Copy + Drop + Send + 'static,
    O: Write,
    ensures served { IsServed ⟦<InMemory<SqlStore<S>> as Store>⟧.view ⟦<NoLog as Log>⟧
        (λ office. OpensInMemory S.Store conn office.store.kept.conn (⟦<InMemory<SqlStore<S>> as Store>⟧.view office.store))
        (λ left. result.0 ≡ left.store.kept.conn) days.now
        (HasEndedAs (⟦<RequestReader<HostRuntime> as Read>⟧.remaining) (⟦<AnswerWriter<HostRuntime> as Write>⟧.contents)
        (⟦<Connections<HostRuntime, R> as Door>⟧.gave) (⟦<Connections<HostRuntime, R> as Door>⟧.spent) words.now.workers words.now.connections
        (O.contents out.old) (O.contents out.new)) policy words.now.workers (O.contents out.old) (O.contents out.new) result.1
        ⊎ ((IsUnopened S.Store conn result.0 result.1 ⊎ IsWithoutMemory S.Store conn result.0 result.1)
        × (O.contents out.new ≡ O.contents out.old)) }
    ensures fails { IfErr result.1 (λ why. IsUnusable why ⊎ FailsToListen words.now.listen.now why) }
    ensures says { SaysWhere (O.contents out.old) (O.contents out.new) result.1 }
{
    let Ok((set, shut)) = flag(rt.alloc()) else {
        return (conn, Err(Failure::memory()));
    };
    match store_in(rt.alloc(), conn, Some(set)) {
        Ok(store) => {
            let (store, _log, served) = serve_beside_memory(
                rt, workers, store, policy, NoLog, days, words, &shut, out,
            );
            (store.into_connection(), served)
        }
        Err((conn, why)) => (conn, Err(Failure::Database(why))),
    }
}

/// Opens the office in a database with its history, and serves it so. Each command that is done is in the history's file, and on
/// the disk, before its answer goes out. The workers end once a fault of the disk has shut the database or the history. The history's
/// file comes back with the connection, as the office left it, or as its opening did where that failed.
pub fn serve_recorded<S, H, R, O, E>(
    rt: &HostRuntime,
    workers: R,
    conn: Connection<S>,
    policy: Policy,
    days: &RunDays,
    words: &ServeWords<'_>,
    history: Recording<H>,
    out: &mut O,
    err: &mut E,
) -> (Connection<S>, H, Result<(), Failure>)
where
    S: Alter + Drop,
    H: HistoryFile + Drop,
    R: Threads + Wait + Copy + Drop + Send + 'static,
    O: Write,
    E: Write,
    // The line of what was redone is said before anything is served.
    ensures served { ((redone : ℕ) × SaysRedone redone (E.contents err.old) (E.contents err.new)
        × IsServed ⟦<InMemory<Unordered<SqlStore<S>>> as Store>⟧.view ⟦<HistoryLog<H> as Log>⟧
        (λ office. OpensWith S.Store (IsBeginning ⟦<PlainStore as Store>⟧.view history.beginning) H.view conn office.store.kept.store.conn
        (H.view history.file).text (⟦<InMemory<Unordered<SqlStore<S>>> as Store>⟧.view office.store) office.log.journal redone)
        (λ left. (result.0 ≡ left.store.kept.store.conn) × (result.1 ≡ left.log.journal.file)) days.now
        (HasEndedAs (⟦<RequestReader<HostRuntime> as Read>⟧.remaining) (⟦<AnswerWriter<HostRuntime> as Write>⟧.contents)
        (⟦<Connections<HostRuntime, R> as Door>⟧.gave) (⟦<Connections<HostRuntime, R> as Door>⟧.spent) words.now.workers words.now.connections
        (O.contents out.old) (O.contents out.new)) policy words.now.workers (O.contents out.old) (O.contents out.new) result.2)
        ⊎ ((why : TheFailure) × (result.2 ≡ Err why) × IsNotOpenedWith S.Store (IsBeginning ⟦<PlainStore as Store>⟧.view history.beginning) H.view H.leaves
        conn result.0 history.file result.1 why (E.contents err.old) (E.contents err.new) × (O.contents out.new ≡ O.contents out.old)) }
    ensures fails { IfErr result.2 (λ why. OrOfText (Some history) (IsUnusable why) why ⊎ FailsToListen words.now.listen.now why) }
    ensures says { SaysWhere (O.contents out.old) (O.contents out.new) result.2 }
    ensures says_on_err { SaysOpening (Some history) (E.contents err.old) (E.contents err.new) }
{
    let Ok((set, shut)) = flag(rt.alloc()) else {
        let Recording { beginning, file } = history;
        drop(beginning);
        return (conn, file, Err(Failure::memory()));
    };
    match settled_in(rt.alloc(), conn, history, Some(set), err) {
        Ok(settled) => {
            let log = HistoryLog::new(rt.alloc(), settled.journal, Some(&shut));
            let (store, log, served) = serve_beside_memory(
                rt,
                workers,
                settled.store,
                policy,
                log,
                days,
                words,
                &shut,
                out,
            );
            let file = log.into_journal().into_file();
            (store.store.into_connection(), file, served)
        }
        Err((conn, file, why)) => (conn, file, Err(why)),
    }
}

/// Serves the office in a database on the days of a run, with its history where one comes with it.
pub fn served_in<S, H, R, O, E>(
    rt: &HostRuntime,
    workers: R,
    conn: Connection<S>,
    policy: Policy,
    days: &RunDays,
    words: &ServeWords<'_>,
    history: Option<Recording<H>>,
    out: &mut O,
    err: &mut E,
) -> (Connection<S>, Result<(), Failure>)
where
    S: Alter + Drop,
    H: HistoryFile + Drop,
    R: Threads + Wait + Copy + Drop + Send + 'static,
    O: Write,
    E: Write,
    ensures fails { IfErr result.1 (λ why. OrOfText history (IsUnusable why) why ⊎ FailsToListen words.now.listen.now why) }
    ensures says { SaysWhere (O.contents out.old) (O.contents out.new) result.1 }
    ensures says_on_err { SaysOpening history (E.contents err.old) (E.contents err.new) }
{
    match history {
        None => serve_alone(rt, workers, conn, policy, days, words, out),
        Some(history) => {
            let (conn, file, served) = serve_recorded(
                rt, workers, conn, policy, days, words, history, out, err,
            );
            drop(file);
            (conn, served)
        }
    }
}
