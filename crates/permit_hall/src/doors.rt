//! One worker a door, which yields connections.

ghost use Rattle.std.specs.Prelude.{◌≡◌, ℕ, List, Option, length, map, true, IfNone, IfOk, IfErr, OnErr};
ghost use Rattle.permit_base.specs.declared.request.Asked.{Asked};
ghost use Rattle.permit_wire.specs.declared.service.Dated.{Dated};
ghost use Rattle.permit_hall.specs.Runs.{Entry};
ghost use Rattle.permit_hall.specs.Errors.{may_open as is_count, FitsCount};
ghost use Rattle.permit_hall.specs.OneHistory.{OneHistory};
ghost use Rattle.permit_hall.specs.OneRun.{OneRun};
ghost use Rattle.permit_hall.specs.Doors.{HasEnded, AreDoorsServed, Holds, capped};
ghost use Rattle.permit_hall.specs.Session.{Has, IsSession, IsSamePlace, put_by, got_by};

use crate::error::{HallError, may_open};
use crate::session::Session;
use crate::tasks::run_tasks;
use crate::worker::Task;
use permit_base::request::Asked;
use permit_base::values::Day;
use permit_office::log::{Log, NoLog};
use permit_office::office::Office;
use permit_store::store::Store;
use permit_wire::{Dated, Inbox, Routes, Service, serve_by};
use std::alloc::{AllocError, Global};
use std::io::{Read, Write};
use std::sync::Wait;
use std::thread::Threads;

/// Where the connections of a session come from, one after the other.
pub trait Door: Send {
    /// What a connection's requests are read from.
    type In: Read;

    /// What its answers are written to.
    type Out: Write;

    /// When no more connections come.
    ghost spent: { Self → Type 0 };

    /// What the door gives next, with the door before it and after it.
    ghost gave: { Self → Option (Self.In × Self.Out) → Self → Type 0 };

    /// The next connection's reader and writer, or `None` where no more comes.
    fn next(&mut self) -> Option<(Self::In, Self::Out)>
        ensures spent { IfNone result (spent self.new) }
        ensures gave { gave self.old result self.new };
}

/// A door that is spent, and how many answers its session has collected: the greatest count where it would pass that.
#[derive(Drop)]
pub struct DoorEnd<D: Drop> {
    pub door: D,
    pub collected: u64,
}

impl<R: Wait> Service<R> for Session<Asked, Dated> {
    ghost use Rattle.permit_hall.specs.Session.{Asks};

    ghost ready = { λ session. IsSession session };

    ghost did = { λ old asked _ dated new. Asks old asked dated new };

    fn serve(&mut self, rt: &R, asked: Asked) -> Dated {
        self.ask(rt, asked)
    }
}

/// Serves a connection to its end, which comes with the end of its input, with a reader or a writer that fails, or with
/// an answer that closes. Faults are answered without the service. Returns how many answers the session has collected in
/// all, given how many it had before; at the greatest count the number stays.
fn serve_connection<I: Read, O: Write, R: Wait>(
    rt: &R,
    routes: &mut Routes,
    session: &mut Session<Asked, Dated>,
    reader: &mut I,
    writer: &mut O,
    count: u64,
) -> u64
    requires session { IsSession session.old }
    requires even { length (put_by session.old) ≡ length (got_by session.old) }
    requires count { count ≡ capped (length (put_by session.old)) }
    ensures session { IsSession session.new × IsSamePlace session.old session.new }
    ensures even { length (put_by session.new) ≡ length (got_by session.new) }
    ensures count { result ≡ capped (length (put_by session.new)) }
    ensures holds { Holds I.remaining O.contents session.old session.new reader.old writer.old writer.new }
{
    let mut inbox = Inbox::new();
    let mut count = count;
    for _ in rt.forever() {
        let turn = serve_by(routes, session, rt, &mut inbox, reader, writer);
        count = count.saturating_add(u64::from(turn.asked));
        if turn.served.is_shut() {
            return count;
        }
    }
    unreachable!()
}

/// A door, and what reading and writing take memory from. It gives back the door, and the count of answers.
#[derive(Drop)]
pub struct DoorTask<D: Drop> {
    door: D,
    alloc: Global,
}

impl<D: Door + Drop> Task<Asked, Dated, DoorEnd<D>> for DoorTask<D>
where
    D::In: Drop,
    D::Out: Drop,
{
    ghost did = { λ t put got end. HasEnded D.In.remaining D.Out.contents D.gave D.spent t.door put got end };

    fn run<R: Wait>(self, rt: &R, session: &mut Session<Asked, Dated>) -> DoorEnd<D> {
        let DoorTask { mut door, alloc } = self;
        let mut routes = Routes::new(alloc);
        let mut collected = 0u64;
        for _ in rt.forever() {
            let Some((mut reader, mut writer)) = door.next() else {
                return DoorEnd { door, collected };
            };
            collected = serve_connection(
                rt,
                &mut routes,
                session,
                &mut reader,
                &mut writer,
                collected,
            );
        }
        unreachable!()
    }
}

fn door_tasks<D: Drop>(alloc: Global, doors: Vec<D>) -> Result<Vec<DoorTask<D>>, AllocError>
    ensures { IfOk result (λ ts. map (λ t. t.door) ts.items ≡ doors.items) }
{
    let mut all = Vec::new(alloc);
    for door in doors {
        all.push(DoorTask { door, alloc })?;
    }
    Ok(all)
}

/// What a hall over doors leaves: the service, and for each session its door, spent, and how many answers it has collected,
/// or `None` where its worker could not be started. Then none of its requests was served.
#[derive(Drop)]
pub struct DoorsEnd<M: Drop, D: Drop> {
    pub service: M,
    pub doors: Vec<Option<DoorEnd<D>>>,
}

/// Serves the connections of doors, one worker a door, 1 to 8 of them, while the calling thread owns the service.
///
/// A worker serves its door's connections one after the other: it reads a request, puts it into the intake, collects
/// its answer and writes it. Faults in reading are answered without the service. The service serves the requests of all
/// sessions one at a time, in one order, each on a day that the clock gives as it is taken. A connection that fails is
/// left, and the next one of its door is served. With an error the service comes back as it was, no clock was asked, and
/// the doors are dropped.
pub fn run_doors<M, D, C: FnMut() -> Day, R: Threads + Wait + Copy + Drop + Send + 'static>(
    rt: R,
    alloc: Global,
    service: M,
    doors: Vec<D>,
    clock: &mut C,
) -> Result<DoorsEnd<M, D>, (M, HallError)>
where
    M: Service<Day> + Drop,
    D: Door + Drop + Send + 'static,
    D::In: Drop + Send + 'static,
    D::Out: Drop + Send + 'static,
    requires ready { M.ready service }
    requires clock { C.IsAlwaysCallable clock.old }
    ensures history { IfOk result (λ end. (served : List (Entry Asked Dated))
        × OneRun M.did C.step (length doors.items) service end.service clock.old clock.new served
        × AreDoorsServed D.In.remaining D.Out.contents D.gave D.spent doors.items end.doors.items served) }
    ensures ready { IfOk result (λ end. M.ready end.service) }
    ensures opens { IfOk result (λ end. is_count (length doors.items) ≡ true) }
    ensures back { IfErr result (λ back. back.0 ≡ service) }
    ensures error { IfErr result (λ back. FitsCount back.1 (is_count (length doors.items))) }
    ensures unasked { OnErr result (clock.new ≡ clock.old) }
{
    if !may_open(doors.len()) {
        return Err((service, HallError::Count));
    }
    let Ok(tasks) = door_tasks(alloc, doors) else {
        return Err((service, HallError::Memory));
    };
    match run_tasks(rt, alloc, service, tasks, clock) {
        Ok(end) => Ok(DoorsEnd {
            service: end.service,
            doors: end.outs,
        }),
        Err(error) => Err(error),
    }
}

/// What a hall over doors leaves of an office, with or without a history: the office, and of each session what `DoorsEnd` has.
#[derive(Drop)]
pub struct HallEnd<S: Store + Drop, D: Drop, L: Log + Drop = NoLog> {
    pub office: Office<S, L>,
    pub doors: Vec<Option<DoorEnd<D>>>,
}

/// Serves the connections of doors for an office, with or without a history, as `run_doors` does for any service. A
/// request that is refused for the store has its refusal at its place, and has changed nothing. With an error the office
/// comes back as it was, no clock was asked, and the doors are dropped.
///
/// # Examples
///
/// ```
/// let Ok(end) = run_hall(rt, alloc, office, doors, &mut || day) else {
///     return Err(Fail::new("no hall"));
/// };
/// assert!(rt; matches!(end.doors.as_slice(), [Some(door)] if door.collected == 0));
/// ```
pub fn run_hall<
    S: Store + Drop,
    L: Log + Drop,
    D,
    C: FnMut() -> Day,
    R: Threads + Wait + Copy + Drop + Send + 'static,
>(
    rt: R,
    alloc: Global,
    office: Office<S, L>,
    doors: Vec<D>,
    clock: &mut C,
) -> Result<HallEnd<S, D, L>, (Office<S, L>, HallError)>
where
    D: Door + Drop + Send + 'static,
    D::In: Drop + Send + 'static,
    D::Out: Drop + Send + 'static,
    requires { C.IsAlwaysCallable clock.old }
    ensures history { IfOk result (λ end. (served : List (Entry Asked Dated))
        × OneHistory S.view L.Log C.step (length doors.items) office end.office clock.old clock.new served
        × AreDoorsServed D.In.remaining D.Out.contents D.gave D.spent doors.items end.doors.items served) }
    ensures opens { IfOk result (λ end. is_count (length doors.items) ≡ true) }
    ensures back { IfErr result (λ back. back.0 ≡ office) }
    ensures error { IfErr result (λ back. FitsCount back.1 (is_count (length doors.items))) }
    ensures unasked { OnErr result (clock.new ≡ clock.old) }
{
    match run_doors(rt, alloc, office, doors, clock) {
        Ok(end) => Ok(HallEnd {
            office: end.service,
            doors: end.doors,
        }),
        Err(error) => Err(error),
    }
}
