//! What the clauses of a register's writer come to, over any list of files, and that its dates are civil dates.

ghost use Rattle.permit_report.specs.CivilDates.{AgreesOnDates};
ghost use Rattle.permit_report.specs.Whole.{KeepsOutput, MakesText, CutsEnding, CutsLine, LacksEnding};

use std::io::Write;

/// The date of a day in a register is the text that `permit_days` gives of it, from the first day to the last deadline.
pub fn civil_dates()
    ensures { AgreesOnDates }
{}

/// What a writer of a register that had begun has written, over any list of files that it took one at a time: with
/// every answer true and then the ending the whole text, and else a prefix of it.
pub fn written_registers<W: Write>()
    ensures output { KeepsOutput W.contents }
    ensures whole { MakesText W.contents }
    ensures ending_cut { CutsEnding W.contents }
    ensures line_cut { CutsLine W.contents }
    ensures no_ending { LacksEnding W.contents }
{}
