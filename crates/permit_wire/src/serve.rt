//! Serving one request of a connection.

ghost use Rattle.std.specs.Prelude.{◌≡◌, ◌≢◌, ◌≤◌, ◌++◌, ℕ, List, Some, true};
ghost use Rattle.std.specs.Io.KnownBytes.{Keeps};
ghost use Rattle.permit_http.specs.Message.{IsUnfinished};
ghost use Rattle.permit_http.specs.Needed.{ReadsNeeded};
ghost use Rattle.permit_http.specs.Stream.{stream};
ghost use Rattle.permit_answer.specs.AnswerText.{answer_data};
ghost use Rattle.permit_wire.specs.Serving.{AsksOnce, GoesOutAs, Moves, Serves, ServesBy, is_shut, is_silent};

use crate::read::read_by;
use crate::service::{Dated, Service};
use permit_answer::answer::Answer;
use permit_answer::write_reply;
use permit_base::request::action;
use permit_base::values::Day;
use permit_http::error::WireError;
use permit_http::inbox::Inbox;
use permit_http::source::Source;
use permit_office::log::Log;
use permit_office::office::Office;
use permit_routes::routing::Routes;
use permit_store::store::Store;
use std::alloc::Global;
use std::io::Write;

/// How serving one request ended.
#[derive(Clone, Copy, PartialEq, Eq)]
pub enum Served {
    /// An answer went out whole, and the connection stays open.
    Kept,
    /// An answer went out whole, and the connection closes.
    Closed,
    /// The input ended before a request, or the connection was closed.
    Ended,
    /// The reader failed, or the input ended inside a request. Nothing was answered.
    ReadFailed,
    /// The writer failed. A prefix of the answer is out; what the office accepted remains in effect.
    WriteFailed,
}

impl Served {
    /// Whether nothing more is served of the connection.
    ///
    /// # Examples
    ///
    /// ```
    /// assert!(rt; Served::Ended.is_shut() && !Served::Kept.is_shut());
    /// ```
    pub fn is_shut(self) -> bool
        ensures { result ≡ is_shut self }
    {
        !matches!(self, Served::Kept)
    }
}

/// How serving one request ended, and whether the service was asked.
#[derive(Clone, Copy, PartialEq, Eq)]
pub struct Turn {
    pub served: Served,
    pub asked: bool,
}

/// Writes the answer to the request that was read last from the connection, or to its fault. It closes the connection
/// where that answer says so, and where the answer didn't go out whole.
pub fn answer_with<W: Write>(
    alloc: Global,
    inbox: &mut Inbox,
    answer: &Answer,
    writer: &mut W,
) -> Served
    ensures goes_out { GoesOutAs (answer_data answer.now) inbox.old.closed (W.contents writer.old) (W.contents writer.new) result }
    ensures shut { inbox.new ≡ record inbox.old { closed = is_shut result } }
{
    match write_reply(alloc, answer, inbox.is_closed(), writer) {
        Ok(false) => Served::Kept,
        Ok(true) => {
            inbox.close();
            Served::Closed
        }
        Err(_) => {
            inbox.close();
            Served::WriteFailed
        }
    }
}

/// Reads one request of a connection, has the service serve it, and writes the answer. Where a fault was read, its answer
/// is written.
///
/// The routes stay for the next request, and the bytes after this one stay in the inbox. A fault leaves the service as it
/// was. A request is answered by the one reply that the service gave to it. After `Closed`, `ReadFailed` and `WriteFailed`
/// the connection is closed: a further call reads nothing and answers `Ended`.
pub fn serve_by<C, T: Service<C>, R: Source, W: Write>(
    routes: &mut Routes,
    service: &mut T,
    by: &C,
    inbox: &mut Inbox,
    reader: &mut R,
    writer: &mut W,
) -> Turn
    requires { T.ready service.old }
    ensures ready { T.ready service.new }
    ensures serves { (bytes : List ℕ) → stream inbox.old (R.remaining reader.old) ≡ Some bytes
        → ServesBy (λ s asked reply t. T.did s asked by.now reply t) service.old service.new bytes inbox.old inbox.new (R.remaining reader.new) (W.contents writer.old) (W.contents writer.new) result.served }
    ensures asks { AsksOnce (λ s asked reply t. T.did s asked by.now reply t) service.old service.new result.asked }
    ensures silent { is_silent result.served ≡ true → (service.new ≡ service.old) × (W.contents writer.new ≡ W.contents writer.old) }
    ensures unread { result.served ≡ Served.ReadFailed
        → IsUnfinished inbox.new.bytes × Keeps (stream inbox.old (R.remaining reader.old)) (stream inbox.new (R.remaining reader.new)) }
    ensures grown { result.served ≡ Served.ReadFailed → (more : List ℕ) × (inbox.new.bytes ≡ inbox.old.bytes ++ more) }
    ensures ended { result.served ≡ Served.Ended → inbox.new ≡ inbox.old }
    ensures shut { result.served ≢ Served.Ended → inbox.new.closed ≡ is_shut result.served }
    ensures needed { (last : List ℕ) × ReadsNeeded R.gave inbox.old reader.old last reader.new }
{
    let alloc = routes.allocator();
    match read_by(routes, inbox, reader) {
        Ok(Some(asked)) => {
            let action = action(&asked.request);
            let Dated { day, reply } = service.serve(by, asked);
            let answer = Answer::Replied { reply, action, day };
            let served = answer_with(alloc, inbox, &answer, writer);
            // Dropped by a call, so that the proof does not go through what each variant owns.
            drop(answer);
            Turn {
                served,
                asked: true,
            }
        }
        Ok(None) => Turn {
            served: Served::Ended,
            asked: false,
        },
        Err(WireError::Fault(fault)) => {
            let served = answer_with(alloc, inbox, &Answer::Fault(fault), writer);
            Turn {
                served,
                asked: false,
            }
        }
        Err(WireError::ReadFailed | WireError::Ended) => Turn {
            served: Served::ReadFailed,
            asked: false,
        },
    }
}

/// Reads one request of a connection, has an office, with or without a history, serve it on the day, and writes the answer.
/// Where a fault was read, its answer is written.
///
/// The bytes after the request stay in the inbox. A fault leaves the office as it was. A request is answered by the one
/// step that the office made for it. After `Closed`, `ReadFailed` and `WriteFailed` the connection is closed: a further
/// call reads nothing and answers `Ended`.
///
/// # Examples
///
/// ```
/// let mut inbox = Inbox::new();
/// let mut reader: &[u8] = b"GET /files HTTP/1.1\r\nHost: office\r\n\r\n";
/// let mut written = Vec::new(alloc);
/// let served = serve_one(alloc, office, &mut inbox, &mut reader, &mut written, day);
/// assert!(rt; served == Served::Kept);
/// assert!(rt; written.as_slice().starts_with(b"HTTP/1.1 401 Unauthorized"));
/// ```
pub fn serve_one<S: Store + Drop, L: Log + Drop, R: Source, W: Write>(
    alloc: Global,
    office: &mut Office<S, L>,
    inbox: &mut Inbox,
    reader: &mut R,
    writer: &mut W,
    day: Day,
) -> Served
    ensures serves { (bytes : List ℕ) → stream inbox.old (R.remaining reader.old) ≡ Some bytes
        → Serves S.view L.Log day office.old office.new bytes inbox.old inbox.new (R.remaining reader.new) (W.contents writer.old) (W.contents writer.new) result }
    ensures moves { Moves S.view L.Log day office.old office.new }
    ensures policy { office.new.policy ≡ office.old.policy }
    ensures doubt { (S.view office.old.store).doubt ≤ (S.view office.new.store).doubt }
    ensures silent { is_silent result ≡ true → (office.new ≡ office.old) × (W.contents writer.new ≡ W.contents writer.old) }
    ensures unread { result ≡ Served.ReadFailed
        → IsUnfinished inbox.new.bytes × Keeps (stream inbox.old (R.remaining reader.old)) (stream inbox.new (R.remaining reader.new)) }
    ensures grown { result ≡ Served.ReadFailed → (more : List ℕ) × (inbox.new.bytes ≡ inbox.old.bytes ++ more) }
    ensures ended { result ≡ Served.Ended → inbox.new ≡ inbox.old }
    ensures shut { result ≢ Served.Ended → inbox.new.closed ≡ is_shut result }
    ensures needed { (last : List ℕ) × ReadsNeeded R.gave inbox.old reader.old last reader.new }
{
    serve_by(&mut Routes::new(alloc), office, &day, inbox, reader, writer).served
}
