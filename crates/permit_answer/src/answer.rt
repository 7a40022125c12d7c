//! What is answered.

use permit_base::values::Day;
use permit_base::words::Action;
use permit_http::fault::Fault;
use permit_office::reply::Reply;

/// The reply to a request, with its action and the day on which it was served, or a fault.
#[derive(Drop)]
pub enum Answer {
    Replied {
        reply: Reply,
        action: Action,
        day: Day,
    },
    Fault(Fault),
}
