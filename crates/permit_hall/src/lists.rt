//! One worker a list of requests.

ghost use Rattle.std.specs.Prelude.{◌≡◌, ◌≤◌, [], ℕ, List, length, map, true, vec_capacity, IfOk, IfErr, OnErr};
ghost use Rattle.permit_base.specs.declared.request.Asked.{Asked};
ghost use Rattle.permit_wire.specs.declared.service.Dated.{Dated};
ghost use Rattle.permit_hall.specs.Runs.{Entry};
ghost use Rattle.permit_hall.specs.Errors.{may_open as is_count, FitsCount};
ghost use Rattle.permit_hall.specs.OneHistory.{OneHistory, AreListsServed};
ghost use Rattle.permit_hall.specs.Session.{Has, IsSession, IsSamePlace, put_by, got_by};

use crate::error::{HallError, may_open};
use crate::session::Session;
use crate::tasks::run_tasks;
use crate::worker::Task;
use permit_base::request::Asked;
use permit_base::values::Day;
use permit_office::log::{Log, NoLog};
use permit_office::office::Office;
use permit_office::reply::Reply;
use permit_store::store::Store;
use permit_wire::Dated;
use std::alloc::{AllocError, Global};
use std::sync::Wait;
use std::thread::Threads;

/// A list, with room for all its answers.
#[derive(Drop)]
pub struct ListTask {
    list: Vec<Asked>,
    answers: Vec<Reply>,
    ghost new: { answers.items ≡ [] },
    ghost room: { length list.items ≤ vec_capacity answers },
}

impl Task<Asked, Dated, Vec<Reply>> for ListTask {
    ghost did = { λ t put got answers. (put ≡ t.list.items) × (map (λ d. d.reply) got ≡ answers.items) };

    fn run<R: Wait>(self, rt: &R, session: &mut Session<Asked, Dated>) -> Vec<Reply> {
        let ListTask { list, mut answers } = self;
        for asked in list {
            let Dated { day: _day, reply } = session.ask(rt, asked);
            answers.push_reserved(reply);
        }
        answers
    }
}

fn list_task(alloc: Global, list: Vec<Asked>) -> Result<ListTask, AllocError>
    ensures { IfOk result (λ t. t.list ≡ list) }
{
    let answers = Vec::with_capacity(alloc, list.len())?;
    Ok(ListTask { list, answers })
}

fn list_tasks(alloc: Global, lists: Vec<Vec<Asked>>) -> Result<Vec<ListTask>, AllocError>
    ensures { IfOk result (λ ts. map (λ t. t.list) ts.items ≡ lists.items) }
{
    let mut all = Vec::new(alloc);
    for list in lists {
        all.push(list_task(alloc, list)?)?;
    }
    Ok(all)
}

/// What a hall over lists leaves: the office, with or without a history, and for each list the replies to its requests
/// in their order, or `None` where its worker could not be started. Then none of its requests was served.
#[derive(Drop)]
pub struct ListsEnd<S: Store + Drop, L: Log + Drop = NoLog> {
    pub office: Office<S, L>,
    pub answers: Vec<Option<Vec<Reply>>>,
}

/// Serves lists of requests, one worker a list, 1 to 8 of them, while the calling thread owns the office, with or without a
/// history.
///
/// Each worker puts its list's requests into the intake, in order, each once it has the answer to the one before. The
/// office serves them one at a time, in one order for all lists, each on a day that the clock gives as it is taken. A
/// request that is refused for the store has its refusal at its place, and has changed nothing. With an error the
/// office comes back as it was, and no clock was asked.
///
/// # Examples
///
/// ```
/// let Ok(end) = run_lists(rt, alloc, office, lists, &mut || day) else {
///     return Err(Fail::new("no hall"));
/// };
/// assert!(rt; matches!(end.answers.as_slice(), [Some(_), Some(_)]));
/// ```
pub fn run_lists<
    S: Store + Drop,
    L: Log + Drop,
    C: FnMut() -> Day,
    R: Threads + Wait + Copy + Drop + Send + 'static,
>(
    rt: R,
    alloc: Global,
    office: Office<S, L>,
    lists: Vec<Vec<Asked>>,
    clock: &mut C,
) -> Result<ListsEnd<S, L>, (Office<S, L>, HallError)>
    requires { C.IsAlwaysCallable clock.old }
    ensures history { IfOk result (λ end. (served : List (Entry Asked Dated))
        × OneHistory S.view L.Log C.step (length lists.items) office end.office clock.old clock.new served
        × AreListsServed lists.items end.answers.items served) }
    ensures opens { IfOk result (λ end. is_count (length lists.items) ≡ true) }
    ensures back { IfErr result (λ back. back.0 ≡ office) }
    ensures error { IfErr result (λ back. FitsCount back.1 (is_count (length lists.items))) }
    ensures unasked { OnErr result (clock.new ≡ clock.old) }
{
    if !may_open(lists.len()) {
        return Err((office, HallError::Count));
    }
    let Ok(tasks) = list_tasks(alloc, lists) else {
        return Err((office, HallError::Memory));
    };
    match run_tasks(rt, alloc, office, tasks, clock) {
        Ok(end) => Ok(ListsEnd {
            office: end.service,
            answers: end.outs,
        }),
        Err(error) => Err(error),
    }
}
