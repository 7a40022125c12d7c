//! How many records came to what.

ghost use Rattle.std.specs.Prelude.{◌≡◌, ◌<◌, ◌-◌, ◌^◌, Some};
ghost use Rattle.permit_import.specs.Lines.{count_text};
ghost use Rattle.permit_import.specs.Outcomes.{counted};

use crate::outcome::Outcome;
use std::fmt;

/// How many of a list's records were added, kept and refused.
#[derive(Clone, Copy, PartialEq, Eq)]
pub struct Tally {
    pub added: u32,
    pub kept: u32,
    pub refused: u32,
}

impl Tally {
    /// The counts of no record.
    pub fn new() -> Tally
        ensures { result ≡ record { added = 0; kept = 0; refused = 0 } }
    {
        Tally {
            added: 0,
            kept: 0,
            refused: 0,
        }
    }

    /// Counts one record more.
    pub fn count(&mut self, outcome: Outcome)
        requires added { self.old.added < 2 ^ 32 - 1 }
        requires kept { self.old.kept < 2 ^ 32 - 1 }
        requires refused { self.old.refused < 2 ^ 32 - 1 }
        ensures { self.new ≡ counted self.old outcome }
    {
        match outcome {
            Outcome::Added { .. } => self.added += 1,
            Outcome::Kept => self.kept += 1,
            Outcome::Malformed(_) | Outcome::Refused(_) => self.refused += 1,
        }
    }
}

impl fmt::Display for Tally {
    ghost output = { λ tally. Some (count_text tally) };

    fn fmt<W: fmt::Write>(&self, f: &mut fmt::Formatter<W>) -> fmt::Result {
        let Tally {
            added,
            kept,
            refused,
        } = *self;
        write!(f, "added {added} kept {kept} refused {refused}")
    }
}
