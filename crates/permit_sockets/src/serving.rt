//! Serving over TCP: each worker takes connections for itself.

ghost use Rattle.std.specs.Prelude.{◌≡◌, ◌⊎◌, All, IfOk, IfErr, length, List, OnErr, OnOk, is_some};
ghost use Rattle.std.specs.List.{list_any};
ghost use Rattle.std.specs.Io.KnownBytes.{Appends};
ghost use Rattle.permit_base.specs.declared.request.Asked.{Asked};
ghost use Rattle.permit_wire.specs.Serving.{StepsOn};
ghost use Rattle.permit_wire.specs.declared.service.Dated.{Dated};
ghost use Rattle.permit_hall.specs.Runs.{Entry, Runs};
ghost use Rattle.permit_hall.specs.OneHistory.{OneHistory};
ghost use Rattle.permit_hall.specs.OneRun.{OneRun};
ghost use Rattle.permit_subcommands.specs.Failures.{IsUnheard};
ghost use Rattle.permit_subcommands.specs.declared.failure.Failure.TheVariants.{Output};
ghost use Rattle.permit_sockets.specs.Ending.{HaveEnded, is_stopped};
ghost use Rattle.permit_sockets.specs.Taking.{IsNew};
ghost use Rattle.permit_sockets.specs.Listening.{AreOpen, SaysListening, listening_line};

use crate::connections::{Connections, Flag, doors};
use crate::pace::{AnswerWriter, RequestReader};
use permit_args::plan::ServeWords;
use permit_base::values::Day;
use permit_hall::doors::{Door, DoorEnd, DoorsEnd, run_doors};
use permit_office::log::Log;
use permit_office::office::Office;
use permit_store::store::Store;
use permit_subcommands::failure::Failure;
use permit_wire::Service;
use std::io::{self, Read, Write};
use std::net::{SocketAddr, TcpListener};
use std::sync::Wait;
use std::thread::Threads;

/// A door for each worker on a listener at an address, and the address.
fn doors_at<R: Copy + Drop>(
    rt: &HostRuntime,
    workers: R,
    words: &ServeWords<'_>,
    shut: &Flag,
) -> io::Result<(Vec<Connections<HostRuntime, R>>, SocketAddr)>
    ensures count { IfOk result (λ taken. length taken.0.items ≡ words.now.workers) }
    ensures fresh { IfOk result (λ taken. All (λ d. IsNew words.now.connections taken.1 d) taken.0.items) }
{
    let listener = TcpListener::bind(rt, words.listen)?;
    let address = listener.local_addr()?;
    let doors = doors(
        rt.alloc(),
        *rt,
        workers,
        &listener,
        address,
        shut,
        words.workers,
        words.connections,
    )?;
    Ok((doors, address))
}

/// Says on which address connections are taken.
fn say<O: Write>(out: &mut O, address: SocketAddr) -> Result<(), Failure>
    ensures told { OnOk result (Appends (O.contents out.old) (O.contents out.new) (listening_line address)) }
    ensures fault { IfErr result (λ why. why ≡ Output) }
{
    match writeln!(out, "listening {address}") {
        Ok(()) => match out.flush() {
            Ok(()) => Ok(()),
            Err(_) => Err(Failure::Output),
        },
        Err(_) => Err(Failure::Output),
    }
}

/// Takes connections on an address, and says on which one.
fn listen<R: Copy + Drop, O: Write>(
    rt: &HostRuntime,
    workers: R,
    words: &ServeWords<'_>,
    shut: &Flag,
    out: &mut O,
) -> Result<Vec<Connections<HostRuntime, R>>, Failure>
    ensures open { IfOk result (λ doors. AreOpen words.now.workers words.now.connections (O.contents out.old) (O.contents out.new) doors.items) }
    ensures fault { IfErr result (λ why. (IsUnheard words.now.listen.now why × (out.new ≡ out.old)) ⊎ (why ≡ Output)) }
{
    let Ok((doors, address)) = doors_at(rt, workers, words, shut) else {
        return Err(Failure::unheard(rt.alloc(), words.listen));
    };
    say(out, address)?;
    Ok(doors)
}

/// How each worker's door ended, with the count of its answers: by its count of connections or by the flag, as it says. `None`
/// where the worker could not be started.
pub type Ends<R> = Vec<Option<DoorEnd<Connections<HostRuntime, R>>>>;

/// Whether a worker was started for one door at least.
fn any_served<R: Drop>(ends: &Ends<R>) -> bool
    ensures { result ≡ list_any is_some ends.now.items }
{
    ends.iter().any(|end| end.is_some())
}

/// Whether the door of a worker ended because the flag was found set.
fn is_stopped<C: Drop, W: Drop>(end: &Option<DoorEnd<Connections<C, W>>>) -> bool
    ensures { result ≡ is_stopped end.now }
{
    match end {
        Some(end) => end.door.stop.is_some(),
        None => false,
    }
}

/// Whether one door at least ended because the flag was found set.
///
/// # Examples
///
/// ```
/// let mut ends: Ends<HostRuntime> = Vec::new(alloc);
/// ends.push(None)?;
/// assert!(rt; !any_stopped(&ends));
/// ```
pub fn any_stopped<R: Drop>(ends: &Ends<R>) -> bool
    ensures { result ≡ list_any is_stopped ends.now.items }
{
    ends.iter().any(|end| is_stopped(end))
}

/// Serves a service until its workers have ended, each by its count of connections or with the connection after which it
/// finds the flag set, on the days of a clock that is asked once for each request as it is taken, and gives it back: what
/// its clients asked is one run of it. Says how each worker's door ended. With a failure the service is as it was, and the
/// clock was not asked; that no worker could be started is one.
pub fn serve_service<M, T, R, O>(
    rt: &HostRuntime,
    workers: R,
    service: M,
    words: &ServeWords<'_>,
    today: &mut T,
    shut: &Flag,
    out: &mut O,
) -> (M, Result<Ends<R>, Failure>)
where
    M: Service<Day> + Drop,
    T: FnMut() -> Day,
    R: Threads + Wait + Copy + Drop + Send + 'static,
    O: Write,
    requires ready { M.ready service }
    requires clock { T.IsAlwaysCallable today.old }
    ensures run { IfOk result.1 (λ ends. (served : List (Entry Asked Dated))
        × OneRun M.did T.step words.now.workers service result.0 today.old today.new served
        × HaveEnded (⟦<RequestReader<HostRuntime> as Read>⟧.remaining) (⟦<AnswerWriter<HostRuntime> as Write>⟧.contents)
        (⟦<Connections<HostRuntime, R> as Door>⟧.gave) (⟦<Connections<HostRuntime, R> as Door>⟧.spent) words.now.workers words.now.connections
        (O.contents out.old) (O.contents out.new) ends.items served) }
    ensures ready { M.ready result.0 }
    ensures same { OnErr result.1 ((result.0 ≡ service) × (today.new ≡ today.old)) }
    ensures told { OnOk result.1 (SaysListening (O.contents out.old) (O.contents out.new)) }
    ensures untold { IfErr result.1 (λ why. (why ≡ Output) ⊎ ((out.new ≡ out.old) ⊎ SaysListening (O.contents out.old) (O.contents out.new))) }
    ensures fault { IfErr result.1 (λ why. IsUnheard words.now.listen.now why ⊎ (why ≡ Output)) }
{
    let doors = match listen(rt, workers, words, shut, out) {
        Ok(doors) => doors,
        Err(failure) => return (service, Err(failure)),
    };
    match run_doors(workers, rt.alloc(), service, doors, today) {
        Ok(end) => {
            let DoorsEnd { service, doors } = end;
            if any_served(&doors) {
                (service, Ok(doors))
            } else {
                (service, Err(Failure::memory()))
            }
        }
        Err((service, _)) => (service, Err(Failure::memory())),
    }
}

/// Serves an office so, with or without a history, as `serve_service` does any service: what its clients asked is one
/// history of it, and each request was one step of it, with the machine's reply at its place and that step's day.
pub fn serve<S, L, T, R, O>(
    rt: &HostRuntime,
    workers: R,
    office: Office<S, L>,
    words: &ServeWords<'_>,
    today: &mut T,
    shut: &Flag,
    out: &mut O,
) -> (Office<S, L>, Result<Ends<R>, Failure>)
where
    S: Store + Drop,
    L: Log + Drop,
    T: FnMut() -> Day,
    R: Threads + Wait + Copy + Drop + Send + 'static,
    O: Write,
    requires { T.IsAlwaysCallable today.old }
    ensures run { IfOk result.1 (λ ends. (served : List (Entry Asked Dated))
        × OneHistory S.view L.Log T.step words.now.workers office result.0 today.old today.new served
        × Runs (StepsOn S.view L.Log) office served result.0
        × HaveEnded (⟦<RequestReader<HostRuntime> as Read>⟧.remaining) (⟦<AnswerWriter<HostRuntime> as Write>⟧.contents)
        (⟦<Connections<HostRuntime, R> as Door>⟧.gave) (⟦<Connections<HostRuntime, R> as Door>⟧.spent) words.now.workers words.now.connections
        (O.contents out.old) (O.contents out.new) ends.items served) }
    ensures same { OnErr result.1 ((result.0 ≡ office) × (today.new ≡ today.old)) }
    ensures told { OnOk result.1 (SaysListening (O.contents out.old) (O.contents out.new)) }
    ensures untold { IfErr result.1 (λ why. (why ≡ Output) ⊎ ((out.new ≡ out.old) ⊎ SaysListening (O.contents out.old) (O.contents out.new))) }
    ensures fault { IfErr result.1 (λ why. IsUnheard words.now.listen.now why ⊎ (why ≡ Output)) }
{
    serve_service(rt, workers, office, words, today, shut, out)
}
