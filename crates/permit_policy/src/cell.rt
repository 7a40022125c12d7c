//! What of a file the rules of a policy read, but for the caller's relations to it.

ghost use Rattle.std.specs.Prelude.{◌≡◌, ◌<◌};
ghost use Rattle.permit_model.specs.Codes.{stage_code, timing_code};
ghost use Rattle.permit_model.specs.Opened.{Cell as TheCell};
ghost use Rattle.permit_model.specs.Routes.{stage_by_timing, cell_on_day, cell_meets};
ghost use Rattle.permit_model.specs.SoundState.{is_stored, is_timed};
ghost use Rattle.permit_policy.specs.Masks.{cell_number};
ghost use Rattle.permit_policy.specs.Kept.{is_kept};

use permit_base::request::Filter;
use permit_base::words::{Stage, Timing, Word};
use std::marker::Model;

/// How many cells there are: 14 stages, stopped or not, and four timings.
pub const CELLS: usize = 112;

/// A stage, whether a stop work order is in force, and a timing.
#[derive(Clone, Copy)]
pub struct Cell {
    /// The stage on the day, or the stage that is kept.
    pub stage: Stage,
    /// Whether a stop work order is in force (IBC 2018, section 115).
    pub stopped: bool,
    /// How near the deadline is on the day.
    pub timing: Timing,
}

impl Model for Cell {
    ghost use Rattle.permit_model.specs.Opened.{Cell as TheCell};

    ghost Value = { TheCell };

    ghost view = { λ c. record { stage = c.stage; stopped = c.stopped; timing = c.timing } };

    ghost inverse = { λ c. record { stage = c.stage; stopped = c.stopped; timing = c.timing } };
}

impl Cell {
    /// The cell of a number, by the codes of stage, stopped and timing.
    pub(crate) fn numbered(number: usize) -> Cell
        requires { number < 112 }
        ensures { (cell : TheCell) → cell_number cell ≡ number → result ≡ cell }
    {
        Cell {
            stage: Stage::all()[number / 8],
            stopped: number / 4 % 2 == 1,
            timing: Timing::all()[number % 4],
        }
    }

    /// The cell's number, below 112.
    pub(crate) fn number(self) -> usize
        ensures same { result ≡ cell_number self }
        ensures within { result < 112 }
    {
        8 * self.stage as usize + if self.stopped { 4 } else { 0 } + self.timing as usize
    }

    /// Whether a file's row can be kept in the cell: there is a deadline in six of the ten stages that are kept.
    pub(crate) fn is_kept(self) -> bool
        ensures { result ≡ is_kept self }
    {
        let facts = self.stage.facts();
        facts.stored && facts.expiry.is_timed() == (self.timing != Timing::Untimed)
    }

    /// The cell on the day for rows that are kept in this one. Past the deadline it has another stage: an application is
    /// abandoned then, and a permit lapsed.
    pub(crate) fn on_day(self) -> Cell
        ensures { result ≡ cell_on_day self }
    {
        let stage = match self.timing {
            Timing::Past => self.stage.expired(),
            Timing::Untimed | Timing::Near | Timing::Ahead => self.stage,
        };
        Cell { stage, ..self }
    }

    /// Whether the files of this kept cell meet the filter on the day.
    pub(crate) fn meets(self, filter: Filter) -> bool
        ensures { result ≡ cell_meets filter self }
    {
        match filter {
            Filter::All => true,
            Filter::InStage(stage) => self.on_day().stage == stage.get(),
            Filter::Due => self.timing == Timing::Past || self.timing == Timing::Near,
        }
    }
}
