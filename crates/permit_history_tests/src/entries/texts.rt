//! Texts of several lines, whole and damaged.

use crate::entries::deeds::LINES;
use permit_history::fault::LineFault;
use permit_history::next_entry;
use permit_history::text::TextFault;
use std::alloc::Global;
use std::test::*;

/// How a text ended.
#[derive(Clone, Copy, PartialEq, Eq)]
enum End {
    /// No line was left.
    AtEnd,
    /// A line was none, for this reason.
    Fault(LineFault),
    /// The source failed.
    Source,
}

/// How many entries a text gives, and how it ends.
fn entries_of(alloc: Global, text: &[u8]) -> (usize, End) {
    let mut source = text;
    let mut line = Vec::new(alloc);
    for count in 0..100 {
        match next_entry(alloc, &mut source, &mut line) {
            Ok(Some(_)) => {}
            Ok(None) => return (count, End::AtEnd),
            Err(TextFault::Line(fault)) => return (count, End::Fault(fault)),
            Err(TextFault::Source(_)) => return (count, End::Source),
        }
    }
    (100, End::Source)
}

/// The text of the deeds' lines, each with this end.
fn text(alloc: Global, end: &str) -> Result<Vec<u8>, Fail> {
    let mut text = Vec::new(alloc);
    for line in LINES {
        text.extend_from_slice(line.as_bytes())?;
        text.extend_from_slice(end.as_bytes())?;
    }
    Ok(text)
}

#[test]
fn a_text_cut_at_each_byte_gives_its_whole_lines(rt: HostRuntime) -> Result<(), Fail> {
    let whole = text(rt.alloc(), "\n")?;
    for cut in 0..=whole.len() {
        let front = &whole.as_slice()[..cut];
        let lines = front.iter().filter(|byte| **byte == b'\n').count();
        assert!(rt;
            entries_of(rt.alloc(), front) == (lines, End::AtEnd),
            "{cut}"
        );
    }
    assert!(rt; entries_of(rt.alloc(), whole.as_slice()) == (LINES.len(), End::AtEnd));
    Ok(())
}

#[test]
fn the_lowest_line_at_fault_ends_a_text(rt: HostRuntime) -> Result<(), Fail> {
    let alloc = rt.alloc();
    let carriage = text(alloc, "\r\n")?;
    assert!(rt; entries_of(alloc, carriage.as_slice()) == (0, End::Fault(LineFault::Form)));
    let empty_lines = text(alloc, "\n\n")?;
    assert!(rt; entries_of(alloc, empty_lines.as_slice()) == (1, End::Fault(LineFault::Syntax)));
    let mut joined = text(alloc, "\n")?;
    joined.extend_from_slice(b"{}\n{\n")?;
    assert!(rt;
        entries_of(alloc, joined.as_slice()) == (LINES.len(), End::Fault(LineFault::Fields))
    );
    assert!(rt; entries_of(alloc, b"") == (0, End::AtEnd));
    assert!(rt; entries_of(alloc, b"\n") == (0, End::Fault(LineFault::Syntax)));
    Ok(())
}
