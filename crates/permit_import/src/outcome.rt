//! What became of a record.

ghost use Rattle.std.specs.Prelude.{◌≡◌, Some};
ghost use Rattle.permit_import.specs.Lines.{outcome_text};
ghost use Rattle.permit_import.specs.Outcomes.{outcome_of, why_of};

use crate::refused::{RefusalWord, Refused};
use crate::why::{RecordFault, Why};
use permit_base::refusal::{Reason, Refusal};
use permit_office::reply::Reply;
use std::fmt;

/// What became of a record. Printed, it follows the record's number.
#[derive(Clone, Copy, PartialEq, Eq)]
pub enum Outcome {
    /// Its parcel was added, with this number.
    Added { number: u32 },
    /// A parcel of its lot is there already.
    Kept,
    /// It is no request for a parcel, and so refused.
    Malformed(RecordFault),
    /// The office refuses its request.
    Refused(Refused),
}

impl Outcome {
    /// What the office's reply to a record's request makes of the record.
    pub fn of(reply: &Reply) -> Outcome
        ensures { result ≡ outcome_of reply.now }
    {
        match reply {
            Reply::Done {
                number: Some(number),
            } => Outcome::Added { number: *number },
            Reply::Refused(Refusal::NotAdmitted(Reason::Taken)) => Outcome::Kept,
            Reply::Refused(why) => Outcome::Refused(Refused::from(*why)),
            // The office gives no other reply to a request for a parcel.
            _ => Outcome::Refused(Refused::Plain(RefusalWord::Store)),
        }
    }

    /// Why the record is refused, or none where it isn't.
    pub fn why(self) -> Option<Why>
        ensures { result ≡ why_of self }
    {
        match self {
            Outcome::Added { .. } | Outcome::Kept => None,
            Outcome::Malformed(fault) => Some(Why::Record(fault)),
            Outcome::Refused(refused) => Some(Why::Office(refused)),
        }
    }
}

impl fmt::Display for Outcome {
    ghost output = { λ outcome. Some (outcome_text outcome) };

    fn fmt<W: fmt::Write>(&self, f: &mut fmt::Formatter<W>) -> fmt::Result {
        match self {
            Outcome::Added { number } => write!(f, "added {number}"),
            Outcome::Kept => f.write_str("kept"),
            Outcome::Malformed(_) => f.write_str("refused: syntax"),
            Outcome::Refused(why) => write!(f, "{why}"),
        }
    }
}
