//! The selections of a listing.

use crate::words::{Relation, Stage, Timing};

/// Which files of a cell are selected, by what the caller is to them.
#[derive(Clone, Copy, PartialEq, Eq)]
pub enum By {
    /// Each.
    Whole,
    /// Those to which the caller has the relation.
    One(Relation),
    /// Those to which the caller has both relations.
    Two(Relation, Relation),
}

/// The file rows that a store is asked for at once.
#[derive(Clone, Copy, PartialEq, Eq)]
pub enum Route {
    /// Each row.
    Every,
    /// Rows of one cell.
    Cell {
        by: By,
        /// The stage that is kept, which no deadline changes.
        stage: Stage,
        /// Whether a stop work order is in force (IBC 2018 section 115).
        stopped: bool,
        /// How near the deadline is on the day.
        timing: Timing,
    },
}
