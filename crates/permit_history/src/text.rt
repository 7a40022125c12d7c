//! Reading a text, a line at a time.

ghost use Rattle.std.specs.Prelude.{◌≡◌, OnOk, IfSome, option_map};
ghost use Rattle.std.specs.Io.BufRead.{DropsThrough};
ghost use Rattle.permit_history.specs.Text.{whole_line, next_line, Answers, OnBadLine};

use crate::entry::Entry;
use crate::fault::LineFault;
use crate::read::read_line;
use std::alloc::Global;
use std::io::{self, BufRead};

/// Why there is no next entry.
#[derive(Drop)]
pub enum TextFault {
    /// The next line is no entry's, or memory was refused while it was read.
    Line(LineFault),
    /// The source failed, or memory was refused for the bytes of the line.
    Source(io::Error),
}

/// Bytes up to an LF, without the LF, or none where they end otherwise.
fn whole_line(bytes: &[u8]) -> Option<&[u8]>
    ensures { option_map (λ line. line.now) result ≡ whole_line bytes.now }
{
    let size = bytes.len();
    if 0 < size && bytes[size - 1] == b'\n' {
        Some(&bytes[..size - 1])
    } else {
        None
    }
}

/// The entry of bytes up to an LF, or none where they end otherwise.
fn entry_in(alloc: Global, bytes: &[u8]) -> Result<Option<Entry>, TextFault>
    ensures { Answers result (whole_line bytes.now) }
{
    match whole_line(bytes) {
        Some(line) => match read_line(alloc, line) {
            Ok(entry) => Ok(Some(entry)),
            Err(fault) => Err(TextFault::Line(fault)),
        },
        None => Ok(None),
    }
}

/// The next entry of a text, or none at its end. What is after the last LF is no line, and is passed over at the end.
///
/// `line` is room for the bytes of a line, and what it holds is dropped. A line is read whole before it is judged, so it takes
/// as much memory as it has bytes. After the fault of a line the source is past that line. After a failure of its own the
/// source is not to be read further.
///
/// # Examples
///
/// ```
/// let line = r#"{"body":{},"caller":0,"day":19700,"done":"upgrade","id":null,"number":null}"#;
/// let lines = format!(in alloc; "{line}\n")?;
/// let (mut text, mut room) = (lines.as_bytes(), Vec::new(alloc));
/// let entry = next_entry(alloc, &mut text, &mut room);
/// assert!(rt; matches!(entry, Ok(Some(_))));
/// let entry = next_entry(alloc, &mut text, &mut room);
/// assert!(rt; matches!(entry, Ok(None)));
/// ```
pub fn next_entry<R: BufRead>(
    alloc: Global,
    source: &mut R,
    line: &mut Vec<u8>,
) -> Result<Option<Entry>, TextFault>
    ensures exact { IfSome (R.remaining source.old) (λ bytes. Answers result (next_line bytes)) }
    ensures rest { OnOk result (DropsThrough (R.remaining source.old) (R.remaining source.new) 10) }
    ensures behind { OnBadLine result (DropsThrough (R.remaining source.old) (R.remaining source.new) 10) }
{
    line.clear();
    match source.read_until(b'\n', line) {
        Ok(_) => entry_in(alloc, line.as_slice()),
        Err(error) => Err(TextFault::Source(error)),
    }
}
