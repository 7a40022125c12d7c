//! Writing a register.

ghost use Rattle.std.specs.Prelude.{◌≡◌, ◌++◌, OnOk, OnErr};
ghost use Rattle.std.specs.Io.KnownBytes.{Appends};
ghost use Rattle.permit_model.specs.Register.{register_text};
ghost use Rattle.permit_report.specs.Outgoing.{WroteFront};
ghost use Rattle.permit_report.specs.Progress;
ghost use Rattle.permit_report.specs.Progress.{ending};
ghost use Rattle.permit_report.specs.Taken.{progress, TakesFile};

use crate::error::ReportError;
use crate::lines::{file_line, foot, opening};
use permit_base::values::Day;
use permit_base::words::RegisterKind;
use permit_core::row::FileView;
use permit_core::taker::Taker;
use std::io::Write;

/// Writes all the bytes by a loop over `write`. A write that fails, also one that was interrupted, and a write that takes no
/// byte are an error; a prefix of the bytes is then out.
///
/// # Examples
///
/// ```
/// let mut out = Vec::new(alloc);
/// assert!(rt; write_whole(&mut out, b"files 0\n").is_ok());
/// assert!(rt; out.as_slice() == b"files 0\n".as_slice());
/// ```
pub fn write_whole<W: Write>(writer: &mut W, bytes: &[u8]) -> Result<(), ReportError>
    ensures whole { OnOk result (Appends (W.contents writer.old) (W.contents writer.new) bytes.now) }
    ensures front { OnErr result (WroteFront (W.contents writer.old) (W.contents writer.new) bytes.now) }
{
    let mut at = 0;
    while at < bytes.len() {
        match writer.write(&bytes[at..]) {
            Ok(0) => return Err(ReportError::Write),
            Ok(n) => at += n,
            Err(_) => return Err(ReportError::Write),
        }
    }
    Ok(())
}

/// Writes a line or the foot, which follows so many lines: after the header where it follows none.
#[tactic(auto, using(crate::proofs::Writes::appends_both, crate::proofs::Writes::front_of_first, crate::proofs::Writes::front_of_both))]
fn write_part<W: Write>(
    writer: &mut W,
    kind: RegisterKind,
    lines: u64,
    bytes: &[u8],
) -> Result<(), ReportError>
    ensures whole { OnOk result (Appends (W.contents writer.old) (W.contents writer.new) (Progress.opening kind lines ++ bytes.now)) }
    ensures front { OnErr result (WroteFront (W.contents writer.old) (W.contents writer.new) (Progress.opening kind lines ++ bytes.now)) }
{
    write_whole(writer, opening(kind, lines).as_bytes())?;
    write_whole(writer, bytes)
}

/// Writes a register one line at a time: the header before the first line, and the foot at the end.
///
/// It takes no memory. After a write that failed its state is what it was, with a prefix of what it was to write
/// after the known bytes.
#[derive(Drop)]
pub struct RegisterWriter<'w, W> {
    writer: &'w mut W,
    kind: RegisterKind,
    day: Day,
    lines: u64,
}

impl<'w, W: Write> RegisterWriter<'w, W> {
    /// A register of the kind on the day, nothing of which is written yet.
    ///
    /// # Examples
    ///
    /// ```
    /// let mut out = Vec::new(alloc);
    /// let writer = RegisterWriter::new(RegisterKind::Files, day, &mut out);
    /// assert!(rt; writer.finish().is_ok());
    /// assert!(rt; out.as_slice().ends_with(b"CENTS\nfiles 0\n"));
    /// ```
    pub fn new(kind: RegisterKind, day: Day, writer: &'w mut W) -> RegisterWriter<'w, W>
        ensures begun { progress result ≡ record { kind = kind; day = day; lines = 0 } }
        ensures nothing_out { result.writer.now ≡ writer.old }
        ensures same_reference { result.writer.ghost_name ≡ writer.entry.ghost_name }
    {
        RegisterWriter {
            writer,
            kind,
            day,
            lines: 0,
        }
    }

    /// Writes a file's line, after the header where it is the first. False where a write failed or took no byte, or
    /// where the lines would be more than the greatest u64.
    fn write_line(&mut self, file: &FileView) -> bool
        ensures { TakesFile W.contents self.old file.now self.new result }
    {
        let Some(lines) = self.lines.checked_add(1) else {
            return false;
        };
        let line = file_line(self.kind, self.day, file);
        match write_part(self.writer, self.kind, self.lines, line.as_bytes()) {
            Ok(()) => {
                self.lines = lines;
                true
            }
            Err(_) => false,
        }
    }

    /// Writes the foot, after the header where no line came.
    ///
    /// On an error a prefix of that is out, and not the whole.
    pub fn finish(self) -> Result<(), ReportError>
        // `self.exit.0` is the writer that is given back.
        ensures whole { OnOk result (Appends (W.contents self.entry.writer.now) (W.contents self.exit.0.now) (ending (progress self.entry))) }
        ensures front { OnErr result (WroteFront (W.contents self.entry.writer.now) (W.contents self.exit.0.now) (ending (progress self.entry))) }
    {
        let RegisterWriter {
            writer,
            kind,
            day: _,
            lines,
        } = self;
        write_part(writer, kind, lines, foot(lines).as_bytes())
    }
}

impl<W: Write> Taker<FileView> for RegisterWriter<'_, W> {
    ghost took = { TakesFile W.contents };

    /// Writes the file's line, as `register` does. False where a write failed or took no byte, or where the lines would be
    /// more than the greatest u64.
    fn take(&mut self, file: FileView) -> bool {
        self.write_line(&file)
    }
}

/// Writes the register of the files on a day.
///
/// A write that fails, also one that was interrupted, and a write that takes no byte are an error; a prefix of the
/// text is then out, and not the whole. It takes no memory.
///
/// # Examples
///
/// ```
/// let mut out = Vec::new(alloc);
/// let written = register(RegisterKind::Files, day, &[], &mut out);
/// assert!(rt; written.is_ok());
/// assert!(rt; out.as_slice().ends_with(b"CENTS\nfiles 0\n"));
/// ```
pub fn register<W: Write>(
    kind: RegisterKind,
    day: Day,
    files: &[FileView],
    out: &mut W,
) -> Result<(), ReportError>
    ensures whole { OnOk result (Appends (W.contents out.old) (W.contents out.new) (register_text kind day files.now)) }
    ensures front { OnErr result (WroteFront (W.contents out.old) (W.contents out.new) (register_text kind day files.now)) }
{
    let mut writer = RegisterWriter::new(kind, day, out);
    for file in files {
        if !writer.write_line(file) {
            return Err(ReportError::Write);
        }
    }
    writer.finish()
}
