//! Why a line is no entry's.

use std::alloc::AllocError;

/// What is wrong with a line. Where several apply, the first in this order is reported.
#[derive(Clone, Copy, PartialEq, Eq)]
pub enum LineFault {
    /// It has more than 20000 bytes.
    Long,
    /// It is not UTF-8, or no JSON value.
    Syntax,
    /// It is JSON, but a member that its entry needs is missing or out of its limits.
    Fields,
    /// It says an entry, but not as that entry's line does: with a space, a member more, in another order or spelling.
    Form,
    /// Memory was refused while the line was read, which says nothing of the line.
    Memory,
}

impl From<AllocError> for LineFault {
    ghost use Rattle.std.specs.Prelude.{◌≡◌};
    ghost use Rattle.permit_history.specs.declared.fault.LineFault.TheVariants.{Memory};

    ghost from_gives = { λ _ fault. fault ≡ Memory };

    fn from(_error: AllocError) -> LineFault {
        LineFault::Memory
    }
}
