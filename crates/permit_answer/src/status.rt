//! Statuses and their phrases.

ghost use Rattle.std.specs.Prelude.{◌≡◌, ◌≤◌, length};
ghost use Rattle.permit_answer.specs.AnswerText as text;

use crate::answer::Answer;
use http::StatusCode;
use permit_base::refusal::Refusal;
use permit_http::fault::Fault;
use permit_office::reply::Reply;

/// The status of a refusal.
pub fn refusal_status(why: &Refusal) -> StatusCode
    ensures { result ≡ text.refusal_code why.now }
{
    match why {
        Refusal::Syntax => StatusCode::BAD_REQUEST,
        Refusal::Caller => StatusCode::UNAUTHORIZED,
        Refusal::Clock => StatusCode::SERVICE_UNAVAILABLE,
        Refusal::Record => StatusCode::NOT_FOUND,
        Refusal::Denied(_) => StatusCode::FORBIDDEN,
        Refusal::NotAdmitted(_) => StatusCode::CONFLICT,
        Refusal::Store => StatusCode::INTERNAL_SERVER_ERROR,
    }
}

/// The status of a fault.
pub fn fault_status(fault: Fault) -> StatusCode
    ensures { result ≡ text.fault_code fault }
{
    match fault {
        Fault::Head | Fault::Version | Fault::Length | Fault::Body => StatusCode::BAD_REQUEST,
        Fault::Large => StatusCode::PAYLOAD_TOO_LARGE,
        Fault::Route => StatusCode::NOT_FOUND,
        Fault::Caller => StatusCode::UNAUTHORIZED,
        Fault::Memory => StatusCode::INTERNAL_SERVER_ERROR,
    }
}

/// The status of an answer.
pub fn answer_status(answer: &Answer) -> StatusCode
    ensures { result ≡ text.status_code (text.answer_data answer.now) }
{
    match answer {
        Answer::Fault(fault) => fault_status(*fault),
        Answer::Replied {
            reply: Reply::Refused(why),
            ..
        } => refusal_status(why),
        Answer::Replied { .. } => StatusCode::OK,
    }
}

/// The type of an answer's body.
pub fn content_type(answer: &Answer) -> &'static str
    ensures text { result.now ≡ text.content_type (text.answer_data answer.now) }
    ensures short { length result.now ≤ 32 }
{
    match answer {
        Answer::Replied {
            reply: Reply::Register { .. },
            ..
        } => "text/plain; charset=utf-8",
        _ => "application/json",
    }
}

/// The phrase of a status, after RFC 9110. The crate `http` still gives 413 its older phrase.
pub fn phrase(status: StatusCode) -> &'static str
    ensures text { result.now ≡ text.phrase status }
    ensures short { length result.now ≤ 21 }
{
    match status.as_u16() {
        200 => "OK",
        400 => "Bad Request",
        401 => "Unauthorized",
        403 => "Forbidden",
        404 => "Not Found",
        409 => "Conflict",
        413 => "Content Too Large",
        503 => "Service Unavailable",
        _ => "Internal Server Error",
    }
}
