//! Writing lines.

ghost use Rattle.std.specs.Prelude.{◌≡◌, ◌++◌, OnOk, OnErr, IfErr, string_bytes};
ghost use Rattle.std.specs.Io.KnownBytes.{Appends};
ghost use Rattle.permit_import.specs.Lines.{record_line, cause_line, count_line};
ghost use Rattle.permit_import.specs.Outcomes.{why_of};
ghost use Rattle.permit_import.specs.Written.{WritesIf, WroteFront, StopsShort};

use crate::fault::ImportFault;
use crate::outcome::Outcome;
use crate::tally::Tally;
use crate::why::Why;
use std::io::Write;

/// Writes all the bytes, as `write_whole` of permit_report does. Where a write fails or takes no byte, a prefix of them is
/// out.
pub(crate) fn write_whole<W: Write>(out: &mut W, bytes: &[u8]) -> Result<(), ImportFault>
    ensures whole { OnOk result (Appends (W.contents out.old) (W.contents out.new) bytes.now) }
    ensures front { OnErr result (WroteFront (W.contents out.old) (W.contents out.new) bytes.now) }
    ensures fault { IfErr result (λ fault. fault ≡ ImportFault.Writing) }
{
    match permit_report::write_whole(out, bytes) {
        Ok(()) => Ok(()),
        Err(_) => Err(ImportFault::Writing),
    }
}

/// Writes the line that says why the record of a number is refused. It is made whole first, in `line`; without memory for it none
/// of it is out.
fn write_why<E: Write>(
    causes: &mut E,
    line: &mut String,
    number: u32,
    why: Why,
) -> Result<(), ImportFault>
    ensures whole { OnOk result (Appends (E.contents causes.old) (E.contents causes.new) (cause_line number (Some why))) }
    ensures front { OnErr result (WroteFront (E.contents causes.old) (E.contents causes.new) (cause_line number (Some why))) }
{
    line.clear();
    writeln!(line, "{number} why: {why}")?;
    write_whole(causes, line.as_bytes())
}

/// Writes, where it is asked for, the line that says why the record of a number is refused, if it is. Returns whether the next one
/// is asked for: it isn't from the first one on that can't be written whole.
pub(crate) fn write_cause<E: Write>(
    causes: &mut E,
    line: &mut String,
    asked: bool,
    number: u32,
    outcome: Outcome,
) -> bool
    ensures { WritesIf asked result (E.contents causes.old) (E.contents causes.new) (cause_line number (why_of outcome)) }
{
    if !asked {
        return false;
    }
    match outcome.why() {
        Some(why) => write_why(causes, line, number, why).is_ok(),
        None => true,
    }
}

/// Writes the line of a record by its number. It is made whole first, in `line`.
pub(crate) fn write_outcome<W: Write>(
    out: &mut W,
    line: &mut String,
    number: u32,
    outcome: Outcome,
) -> Result<(), ImportFault>
    ensures whole { OnOk result (Appends (W.contents out.old) (W.contents out.new) (record_line number outcome)) }
    ensures short { IfErr result (StopsShort (W.contents out.old) (W.contents out.new) (record_line number outcome)) }
{
    line.clear();
    writeln!(line, "{number} {outcome}")?;
    write_whole(out, line.as_bytes())
}

/// Writes the line of the counts. The line is made whole first, in `line`.
pub(crate) fn write_counts<W: Write>(
    out: &mut W,
    line: &mut String,
    tally: Tally,
) -> Result<(), ImportFault>
    ensures whole { OnOk result (Appends (W.contents out.old) (W.contents out.new) (count_line tally)) }
    ensures short { IfErr result (StopsShort (W.contents out.old) (W.contents out.new) (count_line tally)) }
{
    line.clear();
    writeln!(line, "{tally}")?;
    write_whole(out, line.as_bytes())
}
