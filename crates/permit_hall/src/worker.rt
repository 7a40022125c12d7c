//! A worker of one session.
ghost use Rattle.std.specs.Prelude.{◌≡◌, List, [], length, IfOk};
ghost use Rattle.permit_hall.specs.Session.{Has, IsSession, IsSamePlace, put_by, got_by};
ghost use Rattle.permit_hall.specs.Worker.{IsDone, WillBe};

use crate::session::Session;
use std::alloc::{AllocError, Global};
use std::snapshot::Snapshot;
use std::sync::atomic::{AtomicBool, Ordering};
use std::sync::{Arc, Wait};
use std::thread;
use std::thread::{Promise, PromisedHandle, Threads};

/// What a worker does in its session, and gives back.
pub trait Task<A: Drop, Y: Drop, O>: Drop {
    /// With what was put and what was got, and what is given back.
    ghost did: { Self → List A → List Y → O → Type 0 };

    /// Works in a session that has put nothing yet. It puts no end mark: that comes after it.
    fn run<R: Wait>(self, rt: &R, session: &mut Session<A, Y>) -> O
        requires { Has session.old [] [] }
        ensures session { IsSession session.new × IsSamePlace session.old session.new
            × (length (put_by session.new) ≡ length (got_by session.new)) }
        ensures did { did self (put_by session.new) (got_by session.new) result };
}

/// A task, and a flag that its worker and its starter share. The flag is false where no thread could be made. Then the
/// worker's closure comes back to the starter, who calls it. It sees the flag, and gives its session back without a start.
#[derive(Drop)]
pub struct Prepared<T: Drop> {
    pub task: T,
    pub go: Arc<AtomicBool, Global>,
    pub starter: Arc<AtomicBool, Global>,
}

/// What a worker gives back.
#[derive(Drop)]
pub struct Done<A: Drop, Y: Drop, O: Drop> {
    pub session: Session<A, Y>,
    pub out: Option<O>,
}

/// What a worker is to do.
#[derive(Drop)]
pub struct Assignment<A: Drop, Y: Drop, T> {
    pub place: Snapshot<Session<A, Y>>,
    pub task: Snapshot<T>,
}

impl<A: Drop, Y: Drop, O: Drop, T: Task<A, Y, O>> Promise<Done<A, Y, O>> for Assignment<A, Y, T> {
    ghost kept_by = { λ p d. IsDone T.did p.place.value p.task.value d };
}

/// A worker's thread, or what came back where none could be made.
#[derive(Drop)]
pub enum State<A: Drop, Y: Drop, O: Drop, T: Task<A, Y, O>> {
    Running(PromisedHandle<Done<A, Y, O>, Assignment<A, Y, T>>),
    Left(Done<A, Y, O>),
}

/// A worker that was started or left out, with what it was to do, by which the answer to `join` is judged.
#[derive(Drop)]
pub struct Worker<A: Drop, Y: Drop, O: Drop, T: Task<A, Y, O>> {
    pub place: Snapshot<Session<A, Y>>,
    pub task: Snapshot<T>,
    pub state: State<A, Y, O, T>,
}

/// Makes the flag that a task's worker and its starter share, so that a start takes no memory of ours.
pub fn prepare<T: Drop>(alloc: Global, task: T) -> Result<Prepared<T>, AllocError>
    ensures { IfOk result (λ t. t.task ≡ task) }
{
    let go = Arc::new(alloc, AtomicBool::new(true))?;
    let starter = Arc::try_clone(&go)?;
    Ok(Prepared { task, go, starter })
}

/// Runs the task, and then puts the end mark.
fn work<A: Drop, Y: Drop, O: Drop, T: Task<A, Y, O>, R: Wait + Drop>(
    rt: R,
    session: Session<A, Y>,
    task: T,
    go: Arc<AtomicBool, Global>,
) -> Done<A, Y, O>
    requires { Has session [] [] }
    ensures { IsDone T.did session task result }
{
    let mut session = session;
    if !go.load(Ordering::SeqCst) {
        return Done { session, out: None };
    }
    let out = task.run(&rt, &mut session);
    session.end(&rt);
    Done {
        session,
        out: Some(out),
    }
}

/// Starts a worker, which is left out where no thread can be made.
pub fn start<
    A: Drop + Send + 'static,
    Y: Drop + Send + 'static,
    O: Drop + Send + 'static,
    T: Task<A, Y, O> + Send + 'static,
    R: Threads + Wait + Copy + Drop + Send + 'static,
>(rt: R, session: Session<A, Y>, prepared: Prepared<T>) -> Worker<A, Y, O, T>
    requires { Has session [] [] }
    ensures told { (result.place.value ≡ session) × (result.task.value ≡ prepared.task) }
    ensures right { WillBe T.did result.place.value result.task.value result.state }
{
    let Prepared { task, go, starter } = prepared;
    let place = Snapshot::of(&session);
    let kept = Snapshot::of(&task);
    let told = Assignment {
        place: Snapshot::of(&session),
        task: Snapshot::of(&task),
    };
    let state = match thread::spawn_with(&rt, told, move || work(rt, session, task, go)) {
        Ok(handle) => State::Running(handle),
        Err(refused) => {
            starter.store(false, Ordering::SeqCst);
            State::Left((refused.value)())
        }
    };
    Worker {
        place,
        task: kept,
        state,
    }
}

/// What the worker gave back, once it has returned.
pub fn join<A: Drop, Y: Drop, O: Drop, T: Task<A, Y, O>, R: Threads>(
    rt: &R,
    worker: Worker<A, Y, O, T>,
) -> Done<A, Y, O>
    requires { WillBe T.did worker.place.value worker.task.value worker.state }
    ensures { IsDone T.did worker.place.value worker.task.value result }
{
    let Worker {
        place: _,
        task: _,
        state,
    } = worker;
    match state {
        State::Running(handle) => handle.join(rt),
        State::Left(done) => done,
    }
}
