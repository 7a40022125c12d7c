//! Writing an answer.

ghost use Rattle.std.specs.Prelude.{◌≡◌, ◌≤◌, ◌++◌, length, true, IfOk, OnErr, IsTrue};
ghost use Rattle.permit_answer.specs.AnswerText.{answer_data, answer_text, body_text, head_text, Faulted};
ghost use Rattle.permit_model.specs.Register.{register_text};
ghost use Rattle.permit_answer.specs.Outgoing.{is_read_out, GoesOut, WroteAnswer, WroteFrontOfAnswer};
ghost use Rattle.permit_answer.specs.Made.{made_bytes, IsPlacedFor};

use crate::answer::Answer;
use crate::buffer::Buffer;
use crate::in_place::{done_body, fault_body, head, in_place, refusal_body};
use crate::rows::{file_text, listing_text, parcel_text};
use crate::status::{answer_status, content_type, fault_status};
use http::StatusCode;
use permit_base::values::Day;
use permit_base::words::RegisterKind;
use permit_core::row::FileView;
use permit_http::fault::Fault;
use permit_office::reply::Reply;
use permit_report::{register, write_whole};
use std::alloc::{AllocError, Global};
use std::io::Write;

/// A write that failed, or that took no byte.
#[derive(Clone, Copy, PartialEq, Drop)]
pub struct WriteFault;

/// The text of an answer or its body: in place, or for a read in memory.
#[derive(Drop)]
pub enum Made {
    InPlace(Buffer),
    InMemory(Vec<u8>),
}

impl Made {
    /// Its bytes.
    pub fn as_slice(&self) -> &[u8]
        ensures { result.now ≡ made_bytes self.now }
    {
        match self {
            Made::InPlace(text) => text.as_slice(),
            Made::InMemory(bytes) => bytes.as_slice(),
        }
    }
}

/// The whole text of the answer to a read, with a body of this type. It is made where the body is, which may have tens of
/// megabytes, so that these are not copied into a second place.
fn in_memory(content_type: &str, body: Vec<u8>, close: bool) -> Result<Made, AllocError>
    requires { length content_type.now ≤ 32 }
    ensures { IfOk result (λ made. made_bytes made ≡ head_text 200 content_type.now (length body.items) close ++ body.items) }
{
    let mut text = body;
    let head = head(StatusCode::OK, content_type, text.len(), close);
    text.extend_from_slice(head.as_slice())?;
    text.rotate_right(head.len());
    Ok(Made::InMemory(text))
}

/// The text of a register.
fn register_bytes(
    alloc: Global,
    kind: RegisterKind,
    day: Day,
    files: &[FileView],
) -> Result<Vec<u8>, AllocError>
    ensures { IfOk result (λ bytes. bytes.items ≡ register_text kind day files.now) }
{
    let mut bytes = Vec::new(alloc);
    match register(kind, day, files, &mut bytes) {
        Ok(()) => Ok(bytes),
        Err(_) => Err(AllocError),
    }
}

/// The body of an answer, without its head. Only a read takes memory.
///
/// # Examples
///
/// ```
/// let large = body(alloc, &Answer::Fault(Fault::Large))?;
/// assert!(rt; large.as_slice() == b"{\"refused\":\"large\"}".as_slice());
/// ```
pub fn body(alloc: Global, answer: &Answer) -> Result<Made, AllocError>
    ensures text { IfOk result (λ made. made_bytes made ≡ body_text (answer_data answer.now)) }
    ensures place { IfOk result (IsPlacedFor (answer_data answer.now)) }
    ensures memory { OnErr result (IsTrue (is_read_out (answer_data answer.now))) }
{
    match answer {
        Answer::Fault(fault) => Ok(Made::InPlace(fault_body(*fault))),
        Answer::Replied { reply, action, day } => match reply {
            Reply::Done { number } => Ok(Made::InPlace(done_body(*day, *action, *number))),
            Reply::Refused(why) => Ok(Made::InPlace(refusal_body(why))),
            Reply::Parcel(parcel) => Ok(Made::InMemory(parcel_text(alloc, parcel)?)),
            Reply::File(file, papers) => Ok(Made::InMemory(file_text(
                alloc,
                file,
                papers.as_slice(),
            )?)),
            Reply::Listed(listing) => Ok(Made::InMemory(listing_text(
                alloc,
                listing.files.as_slice(),
            )?)),
            Reply::Register { kind, listing } => Ok(Made::InMemory(register_bytes(
                alloc,
                *kind,
                *day,
                listing.files.as_slice(),
            )?)),
        },
    }
}

/// The text of an answer. Only a read takes memory.
fn make(alloc: Global, answer: &Answer, close: bool) -> Result<Made, AllocError>
    ensures text { IfOk result (λ made. made_bytes made ≡ answer_text (answer_data answer.now) close) }
    ensures memory { OnErr result (IsTrue (is_read_out (answer_data answer.now))) }
{
    match body(alloc, answer)? {
        Made::InPlace(body) => Ok(Made::InPlace(in_place(answer_status(answer), &body, close))),
        Made::InMemory(body) => in_memory(content_type(answer), body, close),
    }
}

/// The answer where a read finds no memory: the store's refusal, which closes the connection.
fn store_refusal() -> Buffer
    ensures { result ≡ answer_text (Faulted Fault.Memory) true }
{
    let body = fault_body(Fault::Memory);
    in_place(fault_status(Fault::Memory), &body, true)
}

/// The text that goes out for an answer, made whole before a byte is written.
#[derive(Drop)]
pub struct Outgoing {
    text: Made,
    closes: bool,
}

impl Outgoing {
    /// The text of an answer. Where a read finds no memory for its own, it is that of the store's refusal, which closes.
    ///
    /// # Examples
    ///
    /// ```
    /// let outgoing = Outgoing::new(alloc, &Answer::Fault(Fault::Caller), true);
    /// assert!(rt; outgoing.closes());
    /// assert!(rt; outgoing.as_bytes().starts_with(b"HTTP/1.1 401 "));
    /// ```
    pub fn new(alloc: Global, answer: &Answer, close: bool) -> Outgoing
        ensures { GoesOut (answer_data answer.now) close (made_bytes result.text) result.closes }
    {
        match make(alloc, answer, close) {
            Ok(text) => Outgoing {
                text,
                closes: close,
            },
            Err(AllocError) => Outgoing {
                text: Made::InPlace(store_refusal()),
                closes: true,
            },
        }
    }

    /// Its bytes.
    pub fn as_bytes(&self) -> &[u8]
        ensures { result.now ≡ made_bytes self.now.text }
    {
        self.text.as_slice()
    }

    /// Whether it closes the connection.
    pub fn closes(&self) -> bool
        ensures { result ≡ self.now.closes }
    {
        self.closes
    }
}

/// Writes the text of an answer by its own loop over `write`, and says whether the text that went out closes the connection.
///
/// The answer to a command, a refusal and the answer for a fault are made in an array of 512 bytes and take no memory. An
/// answer to a read is made whole first; where memory is refused, the store's refusal with `Connection: close` goes out
/// instead. A write that fails, also one that was interrupted, and a write that takes no byte are a fault; a prefix of
/// the text is then out.
///
/// # Examples
///
/// ```
/// let mut written = Vec::new(alloc);
/// let closes = write_reply(alloc, &Answer::Fault(Fault::Route), false, &mut written);
/// assert!(rt; matches!(closes, Ok(false)));
/// assert!(rt; written.as_slice().ends_with(b"{\"refused\":\"route\"}"));
/// ```
pub fn write_reply<W: Write>(
    alloc: Global,
    answer: &Answer,
    close: bool,
    writer: &mut W,
) -> Result<bool, WriteFault>
    ensures whole { IfOk result (WroteAnswer (answer_data answer.now) close (W.contents writer.old) (W.contents writer.new)) }
    ensures front { OnErr result (WroteFrontOfAnswer (answer_data answer.now) close (W.contents writer.old) (W.contents writer.new)) }
{
    let outgoing = Outgoing::new(alloc, answer, close);
    match write_whole(writer, outgoing.as_bytes()) {
        Ok(()) => Ok(outgoing.closes()),
        Err(_) => Err(WriteFault),
    }
}
