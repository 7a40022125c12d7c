//! Regions: boxes of the facts of one role and one action.

ghost use Rattle.std.specs.Prelude.{◌≡◌, ◌≤◌, ◌<◌};
ghost use Rattle.permit_policy.specs.Masks.{has_bit};
ghost use Rattle.permit_policy.specs.Regions.{is_within, joins, joined, region_of, sets_in, size_of, stages_in, timings_in, truths_in};

use crate::cell::Cell;
use crate::sets::has_set;
use permit_base::words::{Relations, Stage, Timing, Word};

/// Facts of one role and one action: each set of relations of `relations` in each cell of a stage of `stages`, a truth value of
/// `stopped` and a timing of `timings`.
#[derive(Clone, Copy)]
pub struct Region {
    /// Bit k says whether the set of relations of number k is in the region: the set's own bit r says whether it has the
    /// relation of code r.
    pub relations: u64,
    /// Bit k says whether the stage of code k is.
    pub stages: u64,
    /// Bit 0 says whether no stop order is, bit 1 whether one is.
    pub stopped: u64,
    /// Bit k says whether the timing of code k is.
    pub timings: u64,
}

/// Whether the bit of a mask is set.
pub(crate) fn has_bit(mask: u64, bit: u32) -> bool
    requires { bit < 64 }
    ensures { result ≡ has_bit mask bit }
{
    mask >> bit & 1 == 1
}

/// How many sets of relations the mask has.
fn sets_in(mask: u64) -> usize
    ensures same { result ≡ sets_in mask }
    ensures within { result ≤ 64 }
{
    (0..64).filter(|number| has_bit(mask, *number)).count()
}

/// How many stages the mask has.
fn stages_in(mask: u64) -> usize
    ensures same { result ≡ stages_in mask }
    ensures within { result ≤ 14 }
{
    Stage::all()
        .iter()
        .filter(|stage| has_bit(mask, **stage as u32))
        .count()
}

/// How many truth values the mask has.
fn truths_in(mask: u64) -> usize
    ensures same { result ≡ truths_in mask }
    ensures within { result ≤ 2 }
{
    let none = if has_bit(mask, 0) { 1 } else { 0 };
    let one = if has_bit(mask, 1) { 1 } else { 0 };
    none + one
}

/// How many timings the mask has.
fn timings_in(mask: u64) -> usize
    ensures same { result ≡ timings_in mask }
    ensures within { result ≤ 4 }
{
    Timing::all()
        .iter()
        .filter(|timing| has_bit(mask, **timing as u32))
        .count()
}

impl Region {
    /// These sets of relations in one cell.
    pub(crate) fn of_cell(sets: u64, cell: Cell) -> Region
        ensures { result ≡ region_of sets cell }
    {
        Region {
            relations: sets,
            stages: 1 << cell.stage as u32,
            stopped: if cell.stopped { 2 } else { 1 },
            timings: 1 << cell.timing as u32,
        }
    }

    /// Whether the region has the relations in the cell.
    pub fn has(&self, cell: Cell, relations: Relations) -> bool
        ensures { result ≡ is_within self.now cell relations }
    {
        has_set(self.relations, relations)
            && has_bit(self.stages, cell.stage as u32)
            && has_bit(self.stopped, if cell.stopped { 1 } else { 0 })
            && has_bit(self.timings, cell.timing as u32)
    }

    /// How many combinations of facts the region has: at most 7168.
    pub fn size(&self) -> usize
        ensures same { result ≡ size_of self.now }
        ensures within { result ≤ 7168 }
    {
        let sets = sets_in(self.relations) * stages_in(self.stages);
        sets * (truths_in(self.stopped) * timings_in(self.timings))
    }

    /// Whether the two differ in one of the four sets alone, or in none: then they are one region together.
    pub(crate) fn joins(&self, other: &Region) -> bool
        ensures { result ≡ joins self.now other.now }
    {
        let relations = self.relations == other.relations;
        let stages = self.stages == other.stages;
        let stopped = self.stopped == other.stopped;
        let timings = self.timings == other.timings;
        relations && stages && (stopped || timings) || stopped && timings && (relations || stages)
    }

    /// The facts of both, where they are one region together.
    pub(crate) fn joined(&self, other: &Region) -> Region
        ensures { result ≡ joined self.now other.now }
    {
        Region {
            relations: self.relations | other.relations,
            stages: self.stages | other.stages,
            stopped: self.stopped | other.stopped,
            timings: self.timings | other.timings,
        }
    }
}
