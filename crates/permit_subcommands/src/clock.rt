//! A clock with a specification of each reading.

ghost use Rattle.std.specs.Prelude.{Option, ⊤};
ghost use Rattle.jiff_core.specs.declared.timestamp.Timestamp.{Timestamp as Instant};

use jiff::Timestamp;
use std::time::Clock;

/// A clock with a specification of each reading, so that a contract can say that a day is that of a reading.
pub trait Readings {
    /// What a reading gave: an instant, or none where the clock couldn't be read.
    ghost gave: { Self → Option Instant → Type 0 };

    /// Reads once.
    fn reading(&self) -> Option<Timestamp>
        ensures { gave self.now result };
}

/// The system's clock, whose readings have no value that a contract could name.
impl<R: Clock> Readings for R {
    ghost gave = { λ clock now. ⊤ };

    fn reading(&self) -> Option<Timestamp> {
        Timestamp::now(self).ok()
    }
}
