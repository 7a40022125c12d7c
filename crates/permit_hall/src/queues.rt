//! The queues of a hall, and one event after the other.

ghost use Rattle.std.specs.Prelude.{◌≡◌, ◌<◌, ◌≤◌, ◌+◌, ◌∷◌, ◌++◌, [], ℕ, List, length, map, take, ⊤, MatchOption, slice_index_or, vec_capacity};
ghost use Rattle.permit_base.specs.declared.request.Asked.{Asked};
ghost use Rattle.permit_model.specs.HallRun.{Put, Take, Collect, count_of};
ghost use Rattle.permit_office.specs.declared.reply.Reply.{Reply};
ghost use Rattle.permit_office.specs.Office.{OfficeView};
ghost use Rattle.permit_hall.specs.Counts.{Acted, after};
ghost use Rattle.permit_hall.specs.Queues.{IsAt, GrowsByOneAtMost};
ghost use Rattle.permit_hall.specs.OfficeSteps.{StepFor};

use permit_base::request::Asked;
use permit_base::values::Day;
use permit_office::log::Log;
use permit_office::office::Office;
use permit_office::reply::Reply;
use permit_store::store::Store;

/// As many requests may wait in the intake.
pub const ROOM: usize = 64;

/// The place of the first pair of this number.
fn place<Y>(pairs: &[(u8, Y)], number: u8) -> Option<usize>
    ensures none { MatchOption result (count_of number (map (λ p. p.0) pairs.now) ≡ 0) (λ i.
        0 < count_of number (map (λ p. p.0) pairs.now)) }
    ensures first { MatchOption result ⊤ (λ i.
        (i < length pairs.now)
        × (count_of number (map (λ p. p.0) (take i pairs.now)) ≡ 0)
        × ((d : ℕ × Y) → (slice_index_or pairs.now i d).0 ≡ number)) }
{
    for (i, pair) in pairs.iter().enumerate() {
        if pair.0 == number {
            return Some(i);
        }
    }
    None
}

/// A request is put where its session has nothing out and there is room.
pub fn put<'a, S: Store + Drop, L: Log + Drop>(
    queue: &mut Vec<(u8, &'a Asked)>,
    ready: &Vec<(u8, Reply)>,
    session: u8,
    asked: &'a Asked,
)
    requires room { 64 ≤ vec_capacity queue.old }
    ensures room { vec_capacity queue.new ≡ vec_capacity queue.old }
    ensures at { (start end : OfficeView S L) (h : Acted Asked) (given : List (ℕ × Reply))
        → IsAt (StepFor S.view L.Log) start end h (map (λ q. (q.0, q.1.now)) queue.old.items) ready.now.items given
        → IsAt (StepFor S.view L.Log) start end (after h (Put session asked.now)) (map (λ q. (q.0, q.1.now)) queue.new.items) ready.now.items given }
{
    if queue.len() >= ROOM {
        return;
    }
    if place(queue.as_slice(), session).is_some() {
        return;
    }
    if place(ready.as_slice(), session).is_some() {
        return;
    }
    queue.push_reserved((session, asked));
}

/// The oldest request is served, where one waits.
pub fn take_one<'a, S: Store + Drop, L: Log + Drop>(
    office: &mut Office<S, L>,
    queue: &mut Vec<(u8, &'a Asked)>,
    ready: &mut Vec<(u8, Reply)>,
    day: Day,
)
    requires room { length ready.old.items < vec_capacity ready.old }
    ensures queue { vec_capacity queue.new ≡ vec_capacity queue.old }
    ensures ready { GrowsByOneAtMost ready.old ready.new }
    ensures at { (start : OfficeView S L) (h : Acted Asked) (given : List (ℕ × Reply))
        → IsAt (StepFor S.view L.Log) start office.old h (map (λ q. (q.0, q.1.now)) queue.old.items) ready.old.items given
        → IsAt (StepFor S.view L.Log) start office.new (after h (Take day)) (map (λ q. (q.0, q.1.now)) queue.new.items) ready.new.items given }
{
    if queue.is_empty() {
        return;
    }
    let (session, asked) = queue.remove(0);
    let reply = office.step(asked, day);
    ready.push_reserved((session, reply));
}

/// The session's answer is collected, where one is ready.
pub fn collect<S: Store + Drop, L: Log + Drop>(
    ready: &mut Vec<(u8, Reply)>,
    answers: &mut Vec<(u8, Reply)>,
    session: u8,
)
    requires room { length answers.old.items < vec_capacity answers.old }
    ensures ready { (vec_capacity ready.new ≡ vec_capacity ready.old) × (length ready.new.items ≤ length ready.old.items) }
    ensures answers { GrowsByOneAtMost answers.old answers.new }
    ensures at { (start end : OfficeView S L) (h : Acted Asked) (queue : List (ℕ × Asked))
        → IsAt (StepFor S.view L.Log) start end h queue ready.old.items answers.old.items
        → IsAt (StepFor S.view L.Log) start end (after h (Collect session)) queue ready.new.items answers.new.items }
{
    let Some(at) = place(ready.as_slice(), session) else {
        return;
    };
    let answer = ready.remove(at);
    answers.push_reserved(answer);
}
