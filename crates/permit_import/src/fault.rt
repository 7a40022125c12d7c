//! Why an import stops.

ghost use Rattle.std.specs.Prelude.{◌≡◌};
ghost use Rattle.permit_import.specs.declared.fault.ImportFault.TheVariants.{Memory};

use std::alloc::AllocError;

/// Why an import stops before the end of its list. What was tried before remains in effect.
#[derive(Clone, Copy, PartialEq, Eq)]
pub enum ImportFault {
    /// The first record is not exactly `lot`, `address`, `owner`, or is not there.
    FirstRecord,
    /// The reader failed or found no memory, or more than 999999 records follow the first.
    Reading,
    /// Memory ran out for a record's values or its line.
    Memory,
    /// The writer failed, or took no byte.
    Writing,
}

impl From<AllocError> for ImportFault {
    ghost from_gives = { λ _ fault. fault ≡ Memory };

    fn from(_error: AllocError) -> ImportFault {
        ImportFault::Memory
    }
}
