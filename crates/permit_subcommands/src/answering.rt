//! One request through an office, with or without a history, and what is printed of its answer.

ghost use Rattle.std.specs.Prelude.{◌≡◌, ◌≤◌, IfOk, OnErr};
ghost use Rattle.permit_answer.specs.AnswerText.{answer_data};
ghost use Rattle.permit_wire.specs.Serving.{Moves};
ghost use Rattle.permit_subcommands.specs.Answering.{refusal_of, word_of, Asks, Shows, Tells};

use crate::failure::Failure;
use crate::printing::print_line;
use crate::refused::{RefusalWord, Refused};
use permit_answer::answer::Answer;
use permit_answer::body;
use permit_base::request::action;
use permit_base::values::Day;
use permit_http::error::WireError;
use permit_http::fault::Fault;
use permit_http::inbox::Inbox;
use permit_office::log::Log;
use permit_office::office::Office;
use permit_office::reply::Reply;
use permit_store::store::Store;
use permit_wire::read_request;
use std::alloc::{AllocError, Global};
use std::io::Write;

/// Has the office serve the request of these bytes on the day, as on a connection of its own, and returns the answer.
///
/// Once the office has replied, nothing is left that can fail, so no answer is lost: with an error the office is as it was.
///
/// # Examples
///
/// ```
/// let request = "GET /files HTTP/1.1\r\nHost: office\r\n\r\n";
/// let answer = ask(alloc, office, request, day)?;
/// let mut out = Vec::new(alloc);
/// assert!(rt; show(alloc, &answer, &mut out).is_err());
/// assert!(rt; out.as_slice() == b"{\"refused\":\"caller\"}\n".as_slice());
/// ```
pub fn ask<S: Store + Drop, L: Log + Drop>(
    alloc: Global,
    office: &mut Office<S, L>,
    request: &str,
    day: Day,
) -> Result<Answer, AllocError>
    ensures answers { IfOk result (Asks S.view L.Log day office.old office.new request.now) }
    ensures unserved { OnErr result (office.new ≡ office.old) }
    ensures moves { Moves S.view L.Log day office.old office.new }
    ensures policy { office.new.policy ≡ office.old.policy }
    ensures doubt { (S.view office.old.store).doubt ≤ (S.view office.new.store).doubt }
{
    let mut inbox = Inbox::new();
    let mut reader = request.as_bytes();
    match read_request(alloc, &mut inbox, &mut reader) {
        Ok(Some(asked)) => {
            let action = action(&asked.request);
            let reply = office.step(&asked, day);
            Ok(Answer::Replied { reply, action, day })
        }
        Err(WireError::Fault(fault)) => Ok(Answer::Fault(fault)),
        // A request that is made of words has no other end.
        Ok(None) | Err(WireError::ReadFailed | WireError::Ended) => Err(AllocError),
    }
}

/// The word of the refusal for a fault.
fn word_of(fault: Fault) -> RefusalWord
    ensures { result ≡ word_of fault }
{
    match fault {
        Fault::Head | Fault::Version | Fault::Length | Fault::Body => RefusalWord::Syntax,
        Fault::Large => RefusalWord::Large,
        Fault::Route => RefusalWord::Route,
        Fault::Caller => RefusalWord::Caller,
        Fault::Memory => RefusalWord::Store,
    }
}

/// The refusal that an answer is.
fn refusal_of(answer: &Answer) -> Option<Refused>
    ensures { result ≡ refusal_of (answer_data answer.now) }
{
    match answer {
        Answer::Fault(fault) => Some(Refused::Plain(word_of(*fault))),
        Answer::Replied {
            reply: Reply::Refused(why),
            ..
        } => Some(Refused::from(*why)),
        Answer::Replied { .. } => None,
    }
}

/// Prints a body and a line end. A refusal that is given is the failure then.
fn tell<O: Write>(body: &[u8], refusal: Option<Refused>, out: &mut O) -> Result<(), Failure>
    ensures { Tells body.now refusal (O.contents out.old) (O.contents out.new) result }
{
    print_line(out, body)?;
    match refusal {
        Some(why) => Err(Failure::Refused(why)),
        None => Ok(()),
    }
}

/// Prints an answer's body and a line end. Where the answer is a refusal, that is the failure then. Where there is no memory
/// for the body, the store's refusal is printed in its place.
pub fn show<O: Write>(alloc: Global, answer: &Answer, out: &mut O) -> Result<(), Failure>
    ensures { Shows (answer_data answer.now) (O.contents out.old) (O.contents out.new) result }
{
    match body(alloc, answer) {
        Ok(made) => tell(made.as_slice(), refusal_of(answer), out),
        Err(AllocError) => {
            let refusal = Refused::Plain(RefusalWord::Store);
            tell(b"{\"refused\":\"store\"}", Some(refusal), out)
        }
    }
}
