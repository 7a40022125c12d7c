//! One worker a task, and the owner on the calling thread.
ghost use Rattle.std.specs.Prelude.{◌≡◌, ◌≤◌, ◌∷◌, ◌++◌, [], List, ℕ, ◌<◌, length, map, slice_index_or, vec_capacity, true, IfOk, IfErr, OnErr, All};
ghost use Rattle.crossbeam_channel.specs.Claims.{view, IsSeatAt};
ghost use Rattle.crossbeam_channel.specs.Ends.{sends_on, receives_on};
ghost use Rattle.permit_hall.specs.Intake.{owner, session};
ghost use Rattle.permit_hall.specs.Lane.{lane_note};
ghost use Rattle.permit_hall.specs.Owner.{HasSent};
ghost use Rattle.permit_hall.specs.Closing.{IsPlaced, AreClosed};
ghost use Rattle.permit_base.specs.declared.request.Asked.{Asked};
ghost use Rattle.permit_wire.specs.declared.service.Dated.{Dated};
ghost use Rattle.permit_hall.specs.Runs.{Entry};
ghost use Rattle.permit_hall.specs.Answers.{AreServed};
ghost use Rattle.permit_hall.specs.Errors.{FitsCount};
ghost use Rattle.permit_hall.specs.Hall.{IsNew};
ghost use Rattle.permit_hall.specs.Worker.{WillBe};
ghost use Rattle.permit_hall.specs.Session.{Has, IsSession, put_by, got_by};

use crate::error::HallError;
use crate::hall::{Hall, open};
use crate::intake::{Compared, IntakePass, IntakeSender, Sessions};
use crate::lane::{Ends, Total};
use crate::owner::{Outlet, serve_all};
use crate::session::Session;
use crate::worker::{Prepared, State, Task, Worker, join, prepare, start};
use permit_base::request::Asked;
use permit_base::values::Day;
use permit_wire::{Dated, Service};
use std::alloc::{AllocError, Global};
use std::sync::Wait;
use std::thread::Threads;

// Takes a session back. What it had put is known from then on, and its answers are known to be the first that were sent.
fn take_back<A: Drop, Y: Drop>(
    sender: &IntakeSender<A>,
    pass: &mut IntakePass<A>,
    outlet: &mut Outlet<Y>,
    session: Session<A, Y>,
)
    requires pass { IsSeatAt (sends_on sender.now) pass.old
        × (view pass.old ≡ owner (view pass.old).made (view pass.old).got (view pass.old).known) }
    requires outlet { HasSent (view outlet.old.lane_pass).sent outlet.old }
    requires session { IsSession session × (session.number ≡ length (view pass.old).known)
        × (sends_on session.intake ≡ sends_on sender.now) × (receives_on session.lane ≡ sends_on outlet.old.lane) }
    ensures pass { IsSeatAt (sends_on sender.now) pass.new
        × (view pass.new ≡ owner (view pass.old).made (view pass.old).got ((view pass.old).known ++ put_by session ∷ [])) }
    ensures sent { (rest : List Y) × ((view outlet.old.lane_pass).sent ≡ got_by session ++ rest) }
{
    let Session {
        number: _,
        intake: _,
        pass: theirs,
        lane: _,
        lane_pass,
    } = session;
    sender.absorb::<Sessions>(pass, theirs);
    outlet.lane.absorb::<Ends>(&mut outlet.lane_pass, lane_pass);
    outlet.lane.learn_as::<Total>(&mut outlet.lane_pass);
}

// Each task, prepared.
fn prepare_all<T: Drop>(alloc: Global, tasks: Vec<T>) -> Result<Vec<Prepared<T>>, AllocError>
    ensures { IfOk result (λ ls. map (λ l. l.task) ls.items ≡ tasks.items) }
{
    let mut all = Vec::new(alloc);
    for task in tasks {
        all.push(prepare(alloc, task)?)?;
    }
    Ok(all)
}

// A worker for each job.
fn start_all<
    A: Drop + Send + 'static,
    Y: Drop + Send + 'static,
    O: Drop + Send + 'static,
    T: Task<A, Y, O> + Send + 'static,
    R: Threads + Wait + Copy + Drop + Send + 'static,
>(
    rt: R,
    jobs: Vec<(Session<A, Y>, Prepared<T>)>,
    room: Vec<Worker<A, Y, O, T>>,
) -> Vec<Worker<A, Y, O, T>>
    requires new { All (λ j. Has j.0 [] []) jobs.items }
    requires room { (room.items ≡ []) × (length jobs.items ≤ vec_capacity room) }
    ensures places { map (λ w. w.place.value) result.items ≡ map (λ j. j.0) jobs.items }
    ensures tasks { map (λ w. w.task.value) result.items ≡ map (λ j. j.1.task) jobs.items }
    ensures right { All (λ w. WillBe T.did w.place.value w.task.value w.state) result.items }
{
    let mut workers = room;
    for (session, prepared) in jobs {
        workers.push_reserved(start(rt, session, prepared));
    }
    workers
}

// Joins each worker in order, and takes its session back.
fn close<A: Drop, Y: Drop, O: Drop, T: Task<A, Y, O>, R: Threads>(
    rt: &R,
    sender: &IntakeSender<A>,
    pass: &mut IntakePass<A>,
    outlets: &mut Vec<Outlet<Y>>,
    workers: Vec<Worker<A, Y, O, T>>,
    room: Vec<Option<O>>,
) -> Vec<Option<O>>
    requires room { (room.items ≡ []) × (length workers.items ≤ vec_capacity room) }
    requires pass { IsSeatAt (sends_on sender.now) pass.old × (view pass.old ≡ owner (view pass.old).made (view pass.old).got []) }
    requires right { All (λ w. WillBe T.did w.place.value w.task.value w.state) workers.items }
    requires lanes { length outlets.old.items ≡ length workers.items }
    requires places { (k : ℕ) (o : Outlet Y) (w : Worker A Y O T) → k < length workers.items
        → IsPlaced (λ s. sends_on s.intake ≡ sends_on sender.now) k (slice_index_or outlets.old.items k o) (slice_index_or workers.items k w).place.value }
    ensures pass { IsSeatAt (sends_on sender.now) pass.new
        × (view pass.new ≡ owner (view pass.old).made (view pass.old).got (view pass.new).known) }
    ensures count { length result.items ≡ length workers.items }
    ensures closed { AreClosed T.did (view pass.new).known outlets.old.items workers.items result.items }
{
    let mut answers = room;
    for worker in workers {
        let number = answers.len();
        let done = join(rt, worker);
        take_back(sender, pass, &mut outlets[number], done.session);
        answers.push_reserved(done.out);
    }
    answers
}

// A hall for the tasks, its jobs, and room for its workers and for what they give back.
#[derive(Drop)]
struct Setup<A: Drop, Y: Drop, O: Drop, T: Task<A, Y, O>> {
    hall: Hall<A, Y>,
    jobs: Vec<(Session<A, Y>, Prepared<T>)>,
    workers: Vec<Worker<A, Y, O, T>>,
    outs: Vec<Option<O>>,
}

fn set_up<A: Drop, Y: Drop, O: Drop, T: Task<A, Y, O>>(
    alloc: Global,
    tasks: Vec<T>,
) -> Result<Setup<A, Y, O, T>, AllocError>
    ensures new { IfOk result (λ r. IsNew r.hall (map (λ j. j.0) r.jobs.items)) }
    ensures tasks { IfOk result (λ r. map (λ j. j.1.task) r.jobs.items ≡ tasks.items) }
    ensures workers { IfOk result (λ r. (r.workers.items ≡ []) × (length r.jobs.items ≤ vec_capacity r.workers)) }
    ensures outs { IfOk result (λ r. (r.outs.items ≡ []) × (length r.jobs.items ≤ vec_capacity r.outs)) }
{
    let (hall, jobs) = open(alloc, prepare_all(alloc, tasks)?)?;
    let workers = Vec::with_capacity(alloc, jobs.len())?;
    let outs = Vec::with_capacity(alloc, jobs.len())?;
    Ok(Setup {
        hall,
        jobs,
        workers,
        outs,
    })
}

// How many have a thread.
fn running<A: Drop, Y: Drop, O: Drop, T: Task<A, Y, O>>(
    workers: &Vec<Worker<A, Y, O, T>>,
) -> usize {
    let mut count = 0usize;
    for worker in workers {
        if let State::Running(_) = worker.state {
            count = count.wrapping_add(1);
        }
    }
    count
}

/// What the tasks leave: the service, and what each task gave back, or `None` where its worker could not be started.
#[derive(Drop)]
pub struct TasksEnd<M: Drop, O: Drop> {
    pub service: M,
    pub outs: Vec<Option<O>>,
}

/// Runs the tasks, one worker a task, while the calling thread owns the service. All memory is made before the first
/// worker starts. The owner serves until it has the end mark of each worker that was started.
pub fn run_tasks<
    M,
    O: Drop + Send + 'static,
    T,
    C: FnMut() -> Day,
    R: Threads + Wait + Copy + Drop + Send + 'static,
>(
    rt: R,
    alloc: Global,
    service: M,
    tasks: Vec<T>,
    clock: &mut C,
) -> Result<TasksEnd<M, O>, (M, HallError)>
where
    M: Service<Day> + Drop,
    T: Task<Asked, Dated, O> + Send + 'static,
    requires ready { M.ready service }
    requires clock { C.IsAlwaysCallable clock.old }
    ensures served { IfOk result (λ end. (served : List (Entry Asked Dated))
        × AreServed M.did C.step T.did tasks.items end.outs.items service end.service clock.old clock.new served) }
    ensures ready { IfOk result (λ end. M.ready end.service) }
    ensures back { IfErr result (λ back. back.0 ≡ service) }
    ensures error { IfErr result (λ back. FitsCount back.1 true) }
    ensures unasked { OnErr result (clock.new ≡ clock.old) }
{
    let Ok(setup) = set_up(alloc, tasks) else {
        return Err((service, HallError::Memory));
    };
    let Setup {
        hall,
        jobs,
        workers,
        outs,
    } = setup;
    let Hall {
        sender,
        intake,
        mut pass,
        mut outlets,
    } = hall;
    let workers = start_all(rt, jobs, workers);
    let marks = running(&workers);
    if marks == 0 {
        return Err((service, HallError::NoWorker));
    }
    let mut service = service;
    serve_all(
        &rt,
        &mut service,
        &intake,
        &mut pass,
        &mut outlets,
        clock,
        marks,
    );
    let outs = close(&rt, &sender, &mut pass, &mut outlets, workers, outs);
    sender.learn_as::<Compared>(&mut pass);
    Ok(TasksEnd { service, outs })
}
