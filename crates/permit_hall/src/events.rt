//! A run of the hall over a list of events, without threads.

ghost use Rattle.std.specs.Prelude.{◌≡◌, ◌<◌, ◌≤◌, ℕ, List, length, map, IfOk, OnErr, vec_capacity};
ghost use Rattle.permit_base.specs.declared.request.Asked.{Asked};
ghost use Rattle.permit_office.specs.declared.reply.Reply.{Reply};
ghost use Rattle.permit_office.specs.Office.{OfficeView};
ghost use Rattle.permit_hall.specs.Counts.{Acted, after};
ghost use Rattle.permit_hall.specs.Queues.{IsAt, GrowsByOneAtMost};
ghost use Rattle.permit_hall.specs.OfficeSteps.{StepFor};
ghost use Rattle.permit_hall.specs.Events.{event_of, HallRuns};

use crate::queues::{ROOM, collect, put, take_one};
use permit_base::request::Asked;
use permit_base::values::Day;
use permit_office::log::Log;
use permit_office::office::Office;
use permit_office::reply::Reply;
use permit_store::store::Store;
use std::alloc::{AllocError, Global};

/// An event of the hall, with its session's number.
#[derive(Drop)]
pub enum Event {
    /// The session puts a request into the intake. It does nothing where the session has a request out, or an answer
    /// to collect, or where 64 requests wait.
    Put(u8, Asked),
    /// The office takes the oldest request, and serves it on the day. It does nothing where none waits.
    Take(Day),
    /// The session collects its answer. It does nothing where none is there.
    Collect(u8),
}

/// One event.
fn act<'a, S: Store + Drop, L: Log + Drop>(
    office: &mut Office<S, L>,
    queue: &mut Vec<(u8, &'a Asked)>,
    ready: &mut Vec<(u8, Reply)>,
    answers: &mut Vec<(u8, Reply)>,
    event: &'a Event,
)
    requires queue { 64 ≤ vec_capacity queue.old }
    requires ready { length ready.old.items < vec_capacity ready.old }
    requires answers { length answers.old.items < vec_capacity answers.old }
    ensures queue { vec_capacity queue.new ≡ vec_capacity queue.old }
    ensures ready { GrowsByOneAtMost ready.old ready.new }
    ensures answers { GrowsByOneAtMost answers.old answers.new }
    ensures at { (start : OfficeView S L) (h : Acted Asked)
        → IsAt (StepFor S.view L.Log) start office.old h (map (λ q. (q.0, q.1.now)) queue.old.items) ready.old.items answers.old.items
        → IsAt (StepFor S.view L.Log) start office.new (after h (event_of event.now))
        (map (λ q. (q.0, q.1.now)) queue.new.items) ready.new.items answers.new.items }
{
    match event {
        Event::Put(session, asked) => put::<S, L>(queue, ready, *session, asked),
        Event::Take(day) => take_one(office, queue, ready, *day),
        Event::Collect(session) => collect::<S, L>(ready, answers, *session),
    }
}

/// Runs the events on an office, with or without a history, and gives the answers collected, in order, each with its
/// session.
///
/// Room for all is made first, so an error means that nothing was done. A request that is refused for the store has its
/// refusal at its place, and has changed nothing.
///
/// # Examples
///
/// ```
/// let events = [Event::Put(0, asked), Event::Take(day), Event::Collect(0)];
/// let answers = hall_run(alloc, office, &events)?;
/// let [(session, reply)] = answers.as_slice() else {
///     return Err(Fail::new("one answer"));
/// };
/// assert!(rt; *session == 0 && matches!(reply, Reply::Listed(_)));
/// ```
pub fn hall_run<S: Store + Drop, L: Log + Drop>(
    alloc: Global,
    office: &mut Office<S, L>,
    events: &[Event],
) -> Result<Vec<(u8, Reply)>, AllocError>
    ensures run { IfOk result (λ answers. (replies : List Reply)
        × HallRuns S.view L.Log (map event_of events.now) answers.items office.old office.new replies) }
    ensures err { OnErr result (office.new ≡ office.old) }
{
    let mut queue = Vec::with_capacity(alloc, ROOM)?;
    let mut ready = Vec::with_capacity(alloc, events.len())?;
    let mut answers = Vec::with_capacity(alloc, events.len())?;
    for event in events {
        act(office, &mut queue, &mut ready, &mut answers, event);
    }
    Ok(answers)
}
