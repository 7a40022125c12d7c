//! One message of a connection: its parts, lent from the inbox.

ghost use Rattle.std.specs.Prelude.{◌≡◌, ℕ, ◌+◌, ◌||◌, List, ◌++◌, drop, min, nat_le, true, false, ⊤, Ok, Err, None, OnErr, OnOk, IfOk, IfErr, IfSome};
ghost use Rattle.std.specs.Io.KnownBytes.{Keeps};
ghost use Rattle.permit_http.specs.Stream.{Filled, stream};
ghost use Rattle.permit_http.specs.Spans.{GivesHead, GivesMessage, Holds, ReadsMessage, message_at, view_of, IsFound};
ghost use Rattle.permit_http.specs.Errors.{IsOfMessage, StopsAt};
ghost use Rattle.permit_http.specs.Head.{IsOpen};
ghost use Rattle.permit_http.specs.Message.{ShowsFault};
ghost use Rattle.permit_http.specs.Needed.{IsWaiting, ReadsNeeded, ReadsWhile};
ghost use Rattle.httparse.specs.Grammar.{RequestHead};

use crate::error::WireError;
use crate::fault::Fault;
use crate::head::{Look, look_at, parts_of};
use crate::inbox::Inbox;
use crate::source::Source;
use httparse::spans::{EMPTY_HEADER_SPAN, HeaderSpan, RequestSpans, Span};

/// Where the parts of a message are among the bytes of an inbox.
#[derive(Clone, Copy)]
pub struct MessageSpans {
    pub method: Span,
    pub path: Span,
    /// The value of the field `Authorization`, where there is exactly one.
    pub authorization: Option<Span>,
    /// Whether the head asks to close the connection.
    pub closes: bool,
    pub body: Span,
}

/// The parts of a message.
#[derive(Clone, Copy)]
pub struct Message<'a> {
    pub method: &'a [u8],
    pub path: &'a [u8],
    /// The value of the field `Authorization`, where there is exactly one.
    pub authorization: Option<&'a [u8]>,
    /// Whether the head asks to close the connection.
    pub closes: bool,
    pub body: &'a [u8],
}

/// What reading for a head gave.
#[derive(Clone, Copy)]
pub enum Sought {
    Head(RequestSpans),
    /// No head within the limits can come.
    Refused,
    Ended,
    Failed,
}

impl Inbox {
    /// Reads until a head is at the front, or none can.
    fn head<R: Source>(&mut self, reader: &mut R, headers: &mut [HeaderSpan; 32]) -> Sought
        ensures filled { Filled self.old self.new (R.remaining reader.old) (R.remaining reader.new) }
        ensures sought { GivesHead self.new.bytes (R.remaining reader.new) headers.new result }
        ensures there { (IsOpen self.old.bytes → ⊥) → (self.new ≡ self.old) × (reader.new ≡ reader.old) }
        ensures needed { ReadsWhile IsWaiting R.gave self.old.bytes reader.old self.new.bytes reader.new }
    {
        loop {
            match look_at(self.as_slice(), headers) {
                Look::Found(spans) => return Sought::Head(spans),
                Look::Never => return Sought::Refused,
                Look::Open => {}
            }
            match self.fill(reader) {
                Ok(0) => return Sought::Ended,
                Ok(_) => {}
                Err(_) => return Sought::Failed,
            }
        }
    }

    /// Judges the head at the front, and then reads the body after it.
    fn read_found<R: Source>(
        &mut self,
        reader: &mut R,
        headers: &[HeaderSpan; 32],
        found: RequestSpans,
    ) -> Result<Option<MessageSpans>, WireError>
        requires found { (h : RequestHead) × IsFound self.old.bytes headers.now found h }
        ensures filled { Filled self.old self.new (R.remaining reader.old) (R.remaining reader.new) }
        ensures gives { ReadsMessage self.old self.new (R.remaining reader.old) (R.remaining reader.new) result }
        ensures unfinished { IfErr result (StopsAt self.new.bytes) }
        ensures kind { IfErr result IsOfMessage }
        ensures held { IfOk result (λ o. IfSome o (λ s. Holds self.new s)) }
        ensures some { result ≡ Ok None → ⊥ }
        ensures refuses { (fault : Fault) → ShowsFault self.old.bytes fault → result ≡ Err (WireError.Fault fault) }
        ensures at_once { (fault : Fault) → ShowsFault self.old.bytes fault → (self.new ≡ self.old) × (reader.new ≡ reader.old) }
        ensures needed { ReadsWhile IsWaiting R.gave self.old.bytes reader.old self.new.bytes reader.new }
    {
        let parts = match parts_of(self.as_slice(), headers, found) {
            Ok(parts) => parts,
            Err(fault) => return Err(WireError::Fault(fault)),
        };
        match self.fill_to(reader, parts.body.end) {
            Ok(true) => Ok(Some(parts)),
            Ok(false) => Err(WireError::Ended),
            Err(_) => Err(WireError::ReadFailed),
        }
    }

    /// Reads the next message of a connection that is not closed.
    fn read_open<R: Source>(&mut self, reader: &mut R) -> Result<Option<MessageSpans>, WireError>
        ensures filled { Filled self.old self.new (R.remaining reader.old) (R.remaining reader.new) }
        ensures gives { ReadsMessage self.old self.new (R.remaining reader.old) (R.remaining reader.new) result }
        ensures unfinished { IfErr result (StopsAt self.new.bytes) }
        ensures kind { IfErr result IsOfMessage }
        ensures held { IfOk result (λ o. IfSome o (λ s. Holds self.new s)) }
        ensures ended { result ≡ Ok None → self.new ≡ self.old }
        ensures refuses { (fault : Fault) → ShowsFault self.old.bytes fault → result ≡ Err (WireError.Fault fault) }
        ensures at_once { (fault : Fault) → ShowsFault self.old.bytes fault → (self.new ≡ self.old) × (reader.new ≡ reader.old) }
        ensures needed { ReadsWhile IsWaiting R.gave self.old.bytes reader.old self.new.bytes reader.new }
    {
        let mut headers = [EMPTY_HEADER_SPAN; 32];
        match self.head(reader, &mut headers) {
            Sought::Head(found) => self.read_found(reader, &headers, found),
            Sought::Refused => Err(WireError::Fault(Fault::Head)),
            Sought::Ended => {
                if self.as_slice().is_empty() {
                    Ok(None)
                } else {
                    Err(WireError::Ended)
                }
            }
            Sought::Failed => Err(WireError::ReadFailed),
        }
    }

    /// Reads until a whole message is at the front of the inbox, and says where its parts are; `None` where the
    /// input ends before any byte of it, or the connection is closed. The first fault of a head is reported without
    /// another read: nothing is waited for after it; after any fault the connection is closed. It takes no memory.
    ///
    /// # Examples
    ///
    /// ```
    /// let mut reader: &[u8] = b"GET /files HTTP/1.1\r\nHost: office\r\n\r\n";
    /// let Ok(Some(spans)) = inbox.read_message(&mut reader) else {
    ///     return Err(Fail::new("no message"));
    /// };
    /// assert!(rt; inbox.message(&spans).path == b"/files".as_slice());
    /// ```
    pub fn read_message<R: Source>(
        &mut self,
        reader: &mut R,
    ) -> Result<Option<MessageSpans>, WireError>
        ensures shut { self.old.closed ≡ true → (result ≡ Ok None) × Keeps (R.remaining reader.old) (R.remaining reader.new) }
        ensures gives { self.old.closed ≡ false → ReadsMessage self.old self.new (R.remaining reader.old) (R.remaining reader.new) result }
        ensures stream { Keeps (stream self.old (R.remaining reader.old)) (stream self.new (R.remaining reader.new)) }
        ensures grown { (more : List ℕ) × (self.new.bytes ≡ self.old.bytes ++ more) }
        ensures unfinished { IfErr result (StopsAt self.new.bytes) }
        ensures kind { IfErr result IsOfMessage }
        ensures held { IfOk result (λ o. IfSome o (λ s. Holds self.new s)) }
        ensures ended { result ≡ Ok None → self.new ≡ self.old }
        ensures refuses { self.old.closed ≡ false → (fault : Fault) → ShowsFault self.old.bytes fault → result ≡ Err (WireError.Fault fault) }
        ensures at_once { self.old.closed ≡ false → (fault : Fault) → ShowsFault self.old.bytes fault
            → (self.new.bytes ≡ self.old.bytes) × (reader.new ≡ reader.old) }
        ensures needed { ReadsNeeded R.gave self.old reader.old self.new.bytes reader.new }
        ensures stays { OnOk result (self.new.closed ≡ self.old.closed) }
        ensures closes { OnErr result (self.new.closed ≡ true) }
        ensures count { self.new.count ≡ self.old.count }
    {
        if self.is_closed() {
            return Ok(None);
        }
        let read = self.read_open(reader);
        if read.is_err() {
            self.close();
        }
        read
    }

    /// The parts of a message that is in the inbox.
    pub fn message(&self, spans: &MessageSpans) -> Message<'_>
        requires { Holds self.now spans.now }
        ensures { view_of result ≡ message_at self.now.bytes spans.now }
    {
        let bytes = self.as_slice();
        Message {
            method: spans.method.of(bytes),
            path: spans.path.of(bytes),
            authorization: match spans.authorization {
                None => None,
                Some(value) => Some(value.of(bytes)),
            },
            closes: spans.closes,
            body: spans.body.of(bytes),
        }
    }

    /// Lets the bytes of a message go, those after it stay. The request counts among the 100 answers of its
    /// connection, which closes with the 100th, and where the head asks for it.
    ///
    /// # Examples
    ///
    /// ```
    /// let mut reader: &[u8] = b"GET /files HTTP/1.1\r\nHost: office\r\nConnection: close\r\n\r\n";
    /// let Ok(Some(spans)) = inbox.read_message(&mut reader) else {
    ///     return Err(Fail::new("no message"));
    /// };
    /// inbox.let_go(&spans);
    /// assert!(rt; inbox.as_slice().is_empty() && inbox.is_closed());
    /// ```
    pub fn let_go(&mut self, spans: &MessageSpans)
        requires { Holds self.old spans.now }
        ensures bytes { self.new.bytes ≡ drop spans.now.body.end self.old.bytes }
        ensures count { self.new.count ≡ min 100 (self.old.count + 1) }
        ensures closed { self.new.closed ≡ (self.old.closed || spans.now.closes || nat_le 100 (self.old.count + 1)) }
    {
        self.consume(spans.body.end);
        self.count_answer(spans.closes);
    }
}
