//! Reading a request.

ghost use Rattle.std.specs.Prelude.{◌≡◌, ℕ, List, ◌++◌, true, false, Ok, None, IfErr, IfOk, option_and_then};
ghost use Rattle.std.specs.Io.KnownBytes.{Keeps};
ghost use Rattle.permit_http.specs.Errors.{StopsAt, fault_of};
ghost use Rattle.permit_http.specs.Needed.{ReadsNeeded};
ghost use Rattle.permit_http.specs.Stream.{stream};
ghost use Rattle.permit_http.specs.Spans.{Holds, message_at, view_of};
ghost use Rattle.permit_routes.specs.Bearer.{token_of};
ghost use Rattle.permit_wire.specs.Asked.{asked_in};
ghost use Rattle.permit_wire.specs.Reading.{MeansAsked, ReadsOut, ReadsRequest, stays_open};

use permit_base::request::Asked;
use permit_base::values::Token;
use permit_http::error::WireError;
use permit_http::fault::Fault;
use permit_http::inbox::Inbox;
use permit_http::message::{Message, MessageSpans};
use permit_http::source::Source;
use permit_routes::bearer::read_token;
use permit_routes::fault::RequestFault;
use permit_routes::routing::Routes;
use std::alloc::{AllocError, Global};

/// The token of a message, where it has one field for it and that is of its form.
fn token_in(alloc: Global, message: &Message<'_>) -> Result<Option<Token>, AllocError>
    ensures { IfOk result (λ token. token ≡ option_and_then token_of (view_of message.now).authorization) }
{
    match message.authorization {
        Some(value) => read_token(alloc, value),
        None => Ok(None),
    }
}

/// What a whole message asks. Of its faults the first is reported: its route, then its token, then its body.
fn asked_by(routes: &mut Routes, message: &Message<'_>) -> Result<Asked, Fault>
    ensures { MeansAsked result (asked_in (view_of message.now)) }
{
    let token = token_in(routes.allocator(), message)?;
    let request = routes.request(message.method, message.path, message.body);
    match (request, token) {
        (Err(RequestFault::Memory), _) => Err(Fault::Memory),
        (Err(RequestFault::Route), _) => Err(Fault::Route),
        (_, None) => Err(Fault::Caller),
        (Err(RequestFault::Body), Some(_)) => Err(Fault::Body),
        (Ok(request), Some(token)) => Ok(Asked { token, request }),
    }
}

/// What the message that is in the inbox asks. Its bytes are dropped; where memory ran out the connection closes.
fn read_out(routes: &mut Routes, inbox: &mut Inbox, spans: &MessageSpans) -> Result<Asked, Fault>
    requires { Holds inbox.old spans.now }
    ensures asked { MeansAsked result (asked_in (message_at inbox.old.bytes spans.now)) }
    ensures out { ReadsOut inbox.old inbox.new spans.now result }
{
    let asked = asked_by(routes, &inbox.message(spans));
    inbox.let_go(spans);
    if let Err(Fault::Memory) = asked {
        inbox.close();
    }
    asked
}

/// Reads the next request of a connection. It is `None` where the input ends with no byte after the last request, and
/// where the connection is closed.
///
/// The faults are tested in the order of `Fault`: those of the head once the head is there, the others once the body is.
/// The bytes of a request that was read whole are dropped, also where it has a fault of the second sort. It counts
/// among the 100 answers of the connection, which closes with the 100th or where the head asks for it. After a fault of
/// the head the connection is closed. Memory is taken for the request's texts, and for the routes of its method
/// where they aren't made yet. Where the bytes hold a whole request, or a head with a fault, nothing more is read.
pub fn read_by<R: Source>(
    routes: &mut Routes,
    inbox: &mut Inbox,
    reader: &mut R,
) -> Result<Option<Asked>, WireError>
    ensures reads { ReadsRequest inbox.old inbox.new (R.remaining reader.old) (R.remaining reader.new) result }
    ensures unread { IfErr result (λ error. fault_of error ≡ None
        → Keeps (stream inbox.old (R.remaining reader.old)) (stream inbox.new (R.remaining reader.new))) }
    ensures grown { IfErr result (λ error. fault_of error ≡ None → (more : List ℕ) × (inbox.new.bytes ≡ inbox.old.bytes ++ more)) }
    ensures unfinished { IfErr result (StopsAt inbox.new.bytes) }
    ensures shut { inbox.old.closed ≡ true → (result ≡ Ok None) × Keeps (R.remaining reader.old) (R.remaining reader.new) }
    ensures nothing { result ≡ Ok None → inbox.new ≡ inbox.old }
    ensures closes { IfErr result (λ error. stays_open error ≡ false → inbox.new.closed ≡ true) }
    ensures needed { (last : List ℕ) × ReadsNeeded R.gave inbox.old reader.old last reader.new }
{
    match inbox.read_message(reader) {
        Ok(Some(spans)) => match read_out(routes, inbox, &spans) {
            Ok(asked) => Ok(Some(asked)),
            Err(fault) => Err(WireError::Fault(fault)),
        },
        Ok(None) => Ok(None),
        Err(error) => Err(error),
    }
}

/// Reads the next request of a connection as `read_by` does, by routes that are made for it alone.
///
/// # Examples
///
/// ```
/// let mut inbox = Inbox::new();
/// let mut reader: &[u8] = b"";
/// let read = read_request(alloc, &mut inbox, &mut reader);
/// assert!(rt; matches!(read, Ok(None)));
/// ```
pub fn read_request<R: Source>(
    alloc: Global,
    inbox: &mut Inbox,
    reader: &mut R,
) -> Result<Option<Asked>, WireError>
    ensures reads { ReadsRequest inbox.old inbox.new (R.remaining reader.old) (R.remaining reader.new) result }
    ensures unread { IfErr result (λ error. fault_of error ≡ None
        → Keeps (stream inbox.old (R.remaining reader.old)) (stream inbox.new (R.remaining reader.new))) }
    ensures grown { IfErr result (λ error. fault_of error ≡ None → (more : List ℕ) × (inbox.new.bytes ≡ inbox.old.bytes ++ more)) }
    ensures unfinished { IfErr result (StopsAt inbox.new.bytes) }
    ensures shut { inbox.old.closed ≡ true → (result ≡ Ok None) × Keeps (R.remaining reader.old) (R.remaining reader.new) }
    ensures nothing { result ≡ Ok None → inbox.new ≡ inbox.old }
    ensures closes { IfErr result (λ error. stays_open error ≡ false → inbox.new.closed ≡ true) }
    ensures needed { (last : List ℕ) × ReadsNeeded R.gave inbox.old reader.old last reader.new }
{
    read_by(&mut Routes::new(alloc), inbox, reader)
}
