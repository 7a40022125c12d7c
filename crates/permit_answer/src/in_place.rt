//! Answers that take no memory: those to commands, refusals, and those for faults.

ghost use Rattle.std.specs.Prelude.{◌≡◌, ◌≤◌, ◌++◌, length, codes, take, decimal};
ghost use Rattle.permit_base.specs.Words.{reason_word};
ghost use Rattle.permit_answer.specs.Buffer.{room};
ghost use Rattle.permit_answer.specs.AnswerText.{done_text, refusal_text, fault_text, refused_text, denied_text, not_admitted_text, number_text, challenge, closing, head_text, line};

use crate::buffer::Buffer;
use crate::status::phrase;
use http::StatusCode;
use permit_base::refusal::{Reason, Refusal};
use permit_base::values::{Day, RuleName};
use permit_base::words::{Action, Word};
use permit_http::fault::Fault;

impl Buffer {
    fn push_number(&mut self, number: Option<u32>)
        ensures text { self.new ≡ take room (self.old ++ number_text number) }
        ensures short { length (number_text number) ≤ 10 }
    {
        match number {
            None => self.push_bytes(b"null"),
            Some(n) => self.push_decimal(u64::from(n)),
        }
    }

    fn push_challenge(&mut self, status: StatusCode)
        ensures { self.new ≡ take room (self.old ++ challenge status) }
    {
        if status.as_u16() == 401 {
            self.push_bytes(b"WWW-Authenticate: Bearer\r\n");
        } else {
            self.push_bytes(b"");
        }
    }

    fn push_closing(&mut self, close: bool)
        ensures { self.new ≡ take room (self.old ++ closing close) }
    {
        if close {
            self.push_bytes(b"Connection: close\r\n");
        } else {
            self.push_bytes(b"");
        }
    }
}

/// The body of the answer to an accepted command.
pub fn done_body(day: Day, action: Action, number: Option<u32>) -> Buffer
    ensures text { result ≡ done_text day action number }
    ensures short { length result ≤ 128 }
{
    let mut text = Buffer::new();
    text.push_bytes(b"{\"day\":");
    text.push_decimal(u64::from(day.get()));
    text.push_bytes(b",\"done\":\"");
    text.push_bytes(action.word().as_bytes());
    text.push_bytes(b"\",\"number\":");
    text.push_number(number);
    text.push_bytes(b"}");
    text
}

/// The body of a refusal that has its word alone.
fn refused_body(word: &str) -> Buffer
    requires { length word.now ≤ 32 }
    ensures text { result ≡ refused_text word.now }
    ensures short { length result ≤ 128 }
{
    let mut text = Buffer::new();
    text.push_bytes(b"{\"refused\":\"");
    text.push_bytes(word.as_bytes());
    text.push_bytes(b"\"}");
    text
}

/// The body of a denial.
fn denied_body(rule: &RuleName) -> Buffer
    ensures text { result ≡ denied_text rule.now }
    ensures short { length result ≤ 128 }
{
    let mut text = Buffer::new();
    text.push_bytes(b"{\"refused\":\"denied\",\"rule\":\"");
    text.push_bytes(rule.as_str().as_bytes());
    text.push_bytes(b"\"}");
    text
}

/// The body of a refusal of a command that isn't admitted.
fn not_admitted_body(reason: Reason) -> Buffer
    ensures text { result ≡ not_admitted_text (reason_word reason) }
    ensures short { length result ≤ 128 }
{
    let mut text = Buffer::new();
    text.push_bytes(b"{\"reason\":\"");
    text.push_bytes(reason.word().as_bytes());
    text.push_bytes(b"\",\"refused\":\"not-admitted\"}");
    text
}

/// The body of a refusal.
pub fn refusal_body(why: &Refusal) -> Buffer
    ensures text { result ≡ refusal_text why.now }
    ensures short { length result ≤ 128 }
{
    match why {
        Refusal::Syntax => refused_body("syntax"),
        Refusal::Caller => refused_body("caller"),
        Refusal::Clock => refused_body("clock"),
        Refusal::Record => refused_body("record"),
        Refusal::Denied(rule) => denied_body(rule),
        Refusal::NotAdmitted(reason) => not_admitted_body(*reason),
        Refusal::Store => refused_body("store"),
    }
}

/// The body for a fault.
pub fn fault_body(fault: Fault) -> Buffer
    ensures text { result ≡ fault_text fault }
    ensures short { length result ≤ 128 }
{
    match fault {
        Fault::Head | Fault::Version | Fault::Length | Fault::Body => refused_body("syntax"),
        Fault::Large => refused_body("large"),
        Fault::Route => refused_body("route"),
        Fault::Caller => refused_body("caller"),
        Fault::Memory => refused_body("store"),
    }
}

/// The lines before the body: its status, the type of the body, and its length in bytes.
pub fn head(status: StatusCode, content_type: &str, size: usize, close: bool) -> Buffer
    requires { length content_type.now ≤ 32 }
    ensures text { result ≡ head_text status content_type.now size close }
    ensures short { length result ≤ 256 }
{
    let mut text = Buffer::new();
    text.push_bytes(b"HTTP/1.1 ");
    text.push_decimal(u64::from(status.as_u16()));
    text.push_bytes(b" ");
    text.push_bytes(phrase(status).as_bytes());
    text.push_bytes(b"\r\nContent-Type: ");
    text.push_bytes(content_type.as_bytes());
    text.push_bytes(b"\r\nContent-Length: ");
    text.push_decimal(size as u64);
    text.push_bytes(b"\r\n");
    text.push_challenge(status);
    text.push_closing(close);
    text.push_bytes(b"\r\n");
    text
}

/// A whole answer in place.
pub fn in_place(status: StatusCode, body: &Buffer, close: bool) -> Buffer
    requires { length body.now ≤ 128 }
    ensures { result ≡ head_text status (codes "application/json") (length body.now) close ++ body.now }
{
    let mut text = head(status, "application/json", body.len(), close);
    text.push_bytes(body.as_slice());
    text
}
