//! Each entry has the line that is written here by hand, and that line is read as the entry.

use crate::entries::commands::{self, command};
use crate::entries::deeds::{self, deed};
use crate::entries::makers::{accepted, on_file};
use permit_base::request::Command;
use permit_history::entry::{Act, Entry};
use permit_history::{read_line, write_line};
use permit_samples::makers::{file, text};
use std::alloc::Global;
use std::test::*;

/// Whether the entry has this line, and the line is read as an entry that has it too.
fn has_line(alloc: Global, entry: &Entry, line: &str) -> Result<bool, Fail> {
    let written = write_line(alloc, entry)?;
    let Ok(read) = read_line(alloc, line.as_bytes()) else {
        return Ok(false);
    };
    let again = write_line(alloc, &read)?;
    Ok(written.as_slice() == line.as_bytes() && again.as_slice() == line.as_bytes())
}

#[test]
fn each_deed_has_its_line(rt: HostRuntime) -> Result<(), Fail> {
    for (place, line) in deeds::LINES.iter().enumerate() {
        assert!(rt;
            has_line(rt.alloc(), &deed(rt.alloc(), place)?, line)?,
            "{line}"
        );
    }
    Ok(())
}

#[test]
fn each_command_on_a_file_has_its_line(rt: HostRuntime) -> Result<(), Fail> {
    for (place, line) in commands::LINES.iter().enumerate() {
        assert!(rt;
            has_line(rt.alloc(), &command(rt.alloc(), place)?, line)?,
            "{line}"
        );
    }
    Ok(())
}

#[test]
fn the_longest_line_is_taken(rt: HostRuntime) -> Result<(), Fail> {
    let alloc = rt.alloc();
    let mut letters = String::new(alloc);
    for _ in 0..2000 {
        letters.push('"')?;
    }
    let reason = text(alloc, letters.as_str())?;
    let conditions = text(alloc, letters.as_str())?;
    let stop = on_file(
        Command::Stop {
            text: reason,
            conditions,
        },
        9999,
    )?;
    let line = write_line(alloc, &stop)?;
    assert!(rt; line.len() == 8094, "{}", line.len());
    assert!(rt; read_line(alloc, line.as_slice()).is_ok());
    Ok(())
}
