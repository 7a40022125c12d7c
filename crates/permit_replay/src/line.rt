//! The lines of a text, with what they take.

ghost use Rattle.std.specs.Prelude.{◌≡◌, ◌+◌, ℕ, List, Some, IfOk, IfSome, IsTrue, OnOk, option_map, vec_len, length};
ghost use Rattle.std.specs.Io.BufRead.{drop_through};
ghost use Rattle.permit_history.specs.LineData.{line_of};
ghost use Rattle.permit_history.specs.Text.{whole_line, next_line, Answers};
ghost use Rattle.permit_history.specs.Within.{is_within};

use permit_history::entry::Entry;
use permit_history::read_line;
use permit_history::text::TextFault;
use std::alloc::Global;
use std::io::BufRead;

/// Bytes up to an LF, without the LF, or none where they end otherwise.
fn whole_line(bytes: &[u8]) -> Option<&[u8]>
    ensures line { option_map (λ line. line.now) result ≡ whole_line bytes.now }
    ensures size { IfSome result (λ line. length bytes.now ≡ length line.now + 1) }
{
    let size = bytes.len();
    if 0 < size && bytes[size - 1] == b'\n' {
        Some(&bytes[..size - 1])
    } else {
        None
    }
}

/// The entry of bytes up to an LF, or none where they end otherwise.
fn entry_in(alloc: Global, bytes: &[u8]) -> Result<Option<Entry>, TextFault>
    ensures exact { Answers result (whole_line bytes.now) }
    ensures size { IfOk result (λ next. IfSome next (λ entry. length bytes.now ≡ length (line_of entry) + 1)) }
    ensures within { IfOk result (λ next. IfSome next (λ entry. IsTrue (is_within entry))) }
{
    match whole_line(bytes) {
        Some(line) => match read_line(alloc, line) {
            Ok(entry) => Ok(Some(entry)),
            Err(fault) => Err(TextFault::Line(fault)),
        },
        None => Ok(None),
    }
}

/// The next entry of a text, or none at its end. After an entry `line` has the bytes of its line, with the LF. What is
/// after the last LF is no line.
pub(crate) fn next_entry<R: BufRead>(
    alloc: Global,
    source: &mut R,
    line: &mut Vec<u8>,
) -> Result<Option<Entry>, TextFault>
    ensures exact { (bytes : List ℕ) → R.remaining source.old ≡ Some bytes → Answers result (next_line bytes) }
    ensures rest { (bytes : List ℕ) → R.remaining source.old ≡ Some bytes → OnOk result (R.remaining source.new ≡ Some (drop_through 10 bytes)) }
    ensures size { IfOk result (λ next. IfSome next (λ entry. vec_len line.new ≡ length (line_of entry) + 1)) }
    ensures within { IfOk result (λ next. IfSome next (λ entry. IsTrue (is_within entry))) }
{
    line.clear();
    match source.read_until(b'\n', line) {
        Ok(_) => entry_in(alloc, line.as_slice()),
        Err(error) => Err(TextFault::Source(error)),
    }
}
