//! Why a hall did not open.

ghost use Rattle.std.specs.Prelude.{◌≡◌};
ghost use Rattle.permit_hall.specs.Errors.{may_open as is_count};

/// Why a hall did not open. The office is then as it was.
#[derive(Clone, Copy, Debug, PartialEq, Eq)]
pub enum HallError {
    /// There are not 1 to 8 doors or lists.
    Count,
    /// Out of memory.
    Memory,
    /// Not one worker could be started.
    NoWorker,
}

/// Whether a hall may have as many sessions: 1 to 8.
pub(crate) fn may_open(sessions: usize) -> bool
    ensures { result ≡ is_count sessions }
{
    sessions >= 1 && sessions <= 8
}
