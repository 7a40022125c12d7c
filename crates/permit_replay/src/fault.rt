//! Why a text is not replayed.

use permit_base::refusal::Refusal;
use permit_history::fault::LineFault;
use std::io;

/// Why an entry is not the next one.
#[derive(Clone, Copy, PartialEq, Eq)]
pub enum Why {
    /// It is the first, and neither founds an office nor begins with one that was there, or founds one on day 0.
    NoFounding,
    /// It begins with an office that was there, and no copy of its tables was given.
    NoCopy,
    /// It begins with an office that was there, of other tables than the copy.
    OtherCopy,
    /// It begins with an office that was there, on another day than the last one of the copy.
    CopyDay,
    /// It begins with an office that was there, after the first entry.
    SecondBeginning,
    /// It founds an office after the first entry.
    SecondFounding,
    /// It is between the founding and the upgrade. Such a history is one, but its tables are of the first edition, and these
    /// are not held here.
    FirstEdition,
    /// It is the upgrade, on another day than the entry before it.
    UpgradeDay,
    /// It is the upgrade after the upgrade.
    SecondUpgrade,
    /// It is a command that the office refuses, whatever a policy says. Or it gives another token to a party that isn't there,
    /// as `Record`, or one of a digest that a party has, as `NotAdmitted` for `Taken`.
    Refused(Refusal),
    /// It is a command that is admitted, and its number isn't that of what it makes.
    Number,
    /// Memory was refused, which says nothing of the entry.
    Memory,
}

/// Why a text is not replayed. Lines are counted from 1 on.
#[derive(Drop)]
pub enum ReplayFault {
    /// This line is no entry's, or memory was refused while it was read.
    Line { line: u64, fault: LineFault },
    /// The entry of this line is not the next one.
    Entry { line: u64, why: Why },
    /// The text ends before its second line, so that it has no office, or one of the first edition.
    Short,
    /// The text has 18446744073709551614 lines or more.
    Endless,
    /// The source failed, or memory was refused for the bytes of a line.
    Source(io::Error),
}
