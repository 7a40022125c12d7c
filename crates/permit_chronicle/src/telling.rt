//! Printing a text.

ghost use Rattle.std.specs.Prelude.{◌≡◌, ◌⊎◌, IfErr, IfSome, OnErr, OnOk};
ghost use Rattle.std.specs.Io.KnownBytes.{Appends};
ghost use Rattle.permit_report.specs.Outgoing.{WroteFront};
ghost use Rattle.permit_chronicle.specs.Lines.{line};
ghost use Rattle.permit_chronicle.specs.Telling.{IsTold, StopsAt, WritesLines, WritesSome, no_roles, part, roles_with};
ghost use Rattle.permit_chronicle.specs.declared.fault.ChronicleFault.TheVariants.{Memory, Output};

use crate::fault::ChronicleFault;
use crate::line::line;
use crate::roles::{keep_role, no_roles, role_of};
use crate::wanted::Wanted;
use permit_base::words::Role;
use permit_history::entry::Entry;
use permit_history::next_entry;
use permit_history::text::TextFault;
use permit_report::{ReportError, write_whole};
use std::alloc::Global;
use std::io::{BufRead, Write};

/// Writes the line of an entry by a caller of this role.
fn write_line<W: Write>(
    alloc: Global,
    role: Option<Role>,
    entry: &Entry,
    out: &mut W,
) -> Result<(), ChronicleFault>
    ensures whole { OnOk result (Appends (W.contents out.old) (W.contents out.new) (line role entry.now)) }
    ensures front { OnErr result (WroteFront (W.contents out.old) (W.contents out.new) (line role entry.now)) }
    ensures fails { IfErr result (λ why. (why ≡ Output) ⊎ ((why ≡ Memory) × (out.new ≡ out.old))) }
{
    let Ok(text) = line(alloc, role, entry) else {
        return Err(ChronicleFault::Memory);
    };
    match write_whole(out, text.as_bytes()) {
        Ok(()) => Ok(()),
        Err(ReportError::Write) => Err(ChronicleFault::Output),
    }
}

/// Writes what an entry adds.
fn write_part<W: Write>(
    alloc: Global,
    wanted: &Wanted,
    roles: &[Option<Role>],
    entry: &Entry,
    out: &mut W,
) -> Result<(), ChronicleFault>
    ensures whole { OnOk result (Appends (W.contents out.old) (W.contents out.new) (part wanted.now roles.now entry.now)) }
    ensures front { OnErr result (WroteFront (W.contents out.old) (W.contents out.new) (part wanted.now roles.now entry.now)) }
    ensures fails { IfErr result (λ why. (why ≡ Output) ⊎ ((why ≡ Memory) × (out.new ≡ out.old))) }
{
    if wanted.is_wanted(entry) {
        write_line(alloc, role_of(roles, entry.deed.caller()), entry, out)
    } else {
        Ok(())
    }
}

/// Writes what an entry adds, and keeps the role that it gives.
fn tell_entry<W: Write>(
    alloc: Global,
    wanted: &Wanted,
    roles: &mut [Option<Role>],
    entry: &Entry,
    out: &mut W,
) -> Result<(), ChronicleFault>
    ensures told { OnOk result (Appends (W.contents out.old) (W.contents out.new) (part wanted.now roles.old entry.now)) }
    ensures roles { OnOk result (roles.new ≡ roles_with roles.old entry.now.deed) }
    ensures front { OnErr result (WroteFront (W.contents out.old) (W.contents out.new) (part wanted.now roles.old entry.now)) }
    ensures fails { IfErr result (λ why. (why ≡ Output) ⊎ ((why ≡ Memory) × (out.new ≡ out.old))) }
{
    write_part(alloc, wanted, roles, entry, out)?;
    keep_role(roles, &entry.deed);
    Ok(())
}

/// Prints a text, with room for its lines and for the roles.
fn tell_in<R: BufRead, W: Write>(
    alloc: Global,
    source: &mut R,
    room: &mut Vec<u8>,
    roles: &mut [Option<Role>],
    wanted: &Wanted,
    out: &mut W,
) -> Result<(), ChronicleFault>
    ensures told { IfSome (R.remaining source.old) (λ bytes. OnOk result (IsTold wanted.now roles.old bytes (W.contents out.old) (W.contents out.new))) }
    ensures stopped { IfSome (R.remaining source.old) (λ bytes. IfErr result (StopsAt wanted.now roles.old bytes (W.contents out.old) (W.contents out.new))) }
    ensures lines { OnOk result (WritesLines wanted.now roles.old (W.contents out.old) (W.contents out.new)) }
    ensures some { OnErr result (WritesSome wanted.now roles.old (W.contents out.old) (W.contents out.new)) }
{
    for line in 1..u64::MAX {
        match next_entry(alloc, source, room) {
            Ok(Some(entry)) => match tell_entry(alloc, wanted, roles, &entry, out) {
                Ok(()) => {}
                Err(fault) => return Err(fault),
            },
            Ok(None) => return Ok(()),
            Err(TextFault::Line(fault)) => return Err(ChronicleFault::Line { line, fault }),
            Err(TextFault::Source(error)) => return Err(ChronicleFault::Source(error)),
        }
    }
    Err(ChronicleFault::Endless)
}

/// Writes the lines of the wanted entries of a text, the oldest first: the day, who it was by role and number, what was done, and
/// about what. A role is that of the entry that added the party; where no entry before did, it is printed as `party`.
///
/// It stops at the lowest line that is no entry's, and where a call of the source or the output fails or memory is refused; what
/// comes before is written then. What is after the last LF is no line. It keeps the parties' roles and one line, never the
/// entries.
///
/// # Examples
///
/// ```
/// let line = r#"{"body":{},"caller":0,"day":19700,"done":"upgrade","id":null,"number":null}"#;
/// let text = format!(in alloc; "{line}\n")?;
/// let (mut source, mut out) = (text.as_bytes(), Vec::new(alloc));
/// let ended = tell(alloc, &mut source, wanted, &mut out);
/// assert!(rt; ended.is_ok());
/// assert!(rt; out.as_slice() == b"2023-12-09 - upgrade\n".as_slice());
/// ```
pub fn tell<R: BufRead, W: Write>(
    alloc: Global,
    source: &mut R,
    wanted: &Wanted,
    out: &mut W,
) -> Result<(), ChronicleFault>
    ensures told { IfSome (R.remaining source.old) (λ bytes. OnOk result (IsTold wanted.now no_roles bytes (W.contents out.old) (W.contents out.new))) }
    ensures stopped { IfSome (R.remaining source.old) (λ bytes. IfErr result (StopsAt wanted.now no_roles bytes (W.contents out.old) (W.contents out.new))) }

    // Whatever the source gives, nothing but lines of wanted entries is written.
    ensures lines { OnOk result (WritesLines wanted.now no_roles (W.contents out.old) (W.contents out.new)) }
    ensures some { OnErr result (WritesSome wanted.now no_roles (W.contents out.old) (W.contents out.new)) }
{
    let Ok(mut roles) = no_roles(alloc) else {
        return Err(ChronicleFault::Memory);
    };
    let mut room = Vec::new(alloc);
    tell_in(alloc, source, &mut room, &mut roles, wanted, out)
}
