//! The line that is printed for a refusal.

ghost use Rattle.std.specs.Prelude.{◌≡◌, Some};
ghost use Rattle.permit_import.specs.Refusals.{refused_line, refused_by};

use permit_base::refusal::{Reason, Refusal};
use permit_base::values::RuleName;
use permit_base::words::Word;
use std::fmt;

/// The refusals that have nothing but their word.
#[derive(Clone, Copy, PartialEq, Eq)]
pub enum RefusalWord {
    /// The request is not in its form or its limits.
    Syntax,
    /// No party has the token.
    Caller,
    /// The day is before that of the last accepted command.
    Clock,
    /// The parcel or file that is asked for is not there.
    Record,
    /// Memory ran out, or a call of the store failed.
    Store,
    /// No route has the method and the path.
    Route,
    /// The body is above its limit.
    Large,
}

impl Word for RefusalWord {
    ghost use Rattle.std.proofs.Common.{rules};
    ghost use Rattle.permit_import.specs.Refusals.{refusal_word, all_refusal_words};

    ghost spelling = { refusal_word };

    ghost every = { all_refusal_words };

    fn word(self) -> &'static str {
        match self {
            RefusalWord::Syntax => "syntax",
            RefusalWord::Caller => "caller",
            RefusalWord::Clock => "clock",
            RefusalWord::Record => "record",
            RefusalWord::Store => "store",
            RefusalWord::Route => "route",
            RefusalWord::Large => "large",
        }
    }

    fn all() -> &'static [RefusalWord] {
        &[
            RefusalWord::Syntax,
            RefusalWord::Caller,
            RefusalWord::Clock,
            RefusalWord::Record,
            RefusalWord::Store,
            RefusalWord::Route,
            RefusalWord::Large,
        ]
    }

    ghost is_read = { Prim.search rules };
}

/// Why a request was refused, as its answer reports it.
#[derive(Clone, Copy, PartialEq, Eq)]
pub enum Refused {
    /// The word says all.
    Plain(RefusalWord),
    /// The policy denies it, by the rule of this name.
    Denied(RuleName),
    /// The state of the office does not admit it.
    NotAdmitted(Reason),
}

impl From<Refusal> for Refused {
    ghost from_gives = { λ why refused. refused ≡ refused_by why };

    fn from(why: Refusal) -> Refused {
        match why {
            Refusal::Syntax => Refused::Plain(RefusalWord::Syntax),
            Refusal::Caller => Refused::Plain(RefusalWord::Caller),
            Refusal::Clock => Refused::Plain(RefusalWord::Clock),
            Refusal::Record => Refused::Plain(RefusalWord::Record),
            Refusal::Denied(rule) => Refused::Denied(rule),
            Refusal::NotAdmitted(reason) => Refused::NotAdmitted(reason),
            Refusal::Store => Refused::Plain(RefusalWord::Store),
        }
    }
}

impl fmt::Display for Refused {
    ghost output = { λ why. Some (refused_line why) };

    fn fmt<W: fmt::Write>(&self, f: &mut fmt::Formatter<W>) -> fmt::Result {
        match self {
            Refused::Plain(word) => {
                let word = word.word();
                write!(f, "refused: {word}")
            }
            Refused::Denied(rule) => {
                let rule = rule.as_str();
                write!(f, "refused: denied by {rule}")
            }
            Refused::NotAdmitted(reason) => {
                let reason = reason.word();
                write!(f, "refused: not admitted, {reason}")
            }
        }
    }
}
