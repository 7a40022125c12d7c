//! A journal over a file in memory, which stops.

use crate::recorded::memory::MemoryFile;
use crate::recorded::stopping::Stopping;
use permit_journal::file::HistoryFile;
use permit_journal::journal::Journal;
use std::alloc::Global;
use std::test::*;

/// What is read of a file that has stopped after so many calls, two lines of which were to be entered.
fn left_behind(alloc: Global, calls: u64) -> Result<Vec<u8>, Fail> {
    let file = Stopping::new(MemoryFile::new(Vec::new(alloc)), calls);
    let Ok(mut journal) = Journal::open(file) else {
        return Err("a journal".into());
    };
    let _ = journal.enter(b"a\n");
    let _ = journal.enter(b"b\n");
    let mut file = journal.into_file().into_inner();
    let mut room = [0; 8];
    let Ok(count) = file.read_at(0, &mut room[..]) else {
        return Err("a reading".into());
    };
    Ok(room[..count].to_vec(alloc)?)
}

/// Fails where another text is left.
fn leaves(alloc: Global, calls: u64, text: &[u8]) -> Result<(), Fail> {
    let left = left_behind(alloc, calls)?;
    if left.as_slice() == text {
        Ok(())
    } else {
        Err("the text".into())
    }
}

#[test]
fn a_file_that_stops_has_what_was_written(rt: HostRuntime) -> Result<(), Fail> {
    let alloc = rt.alloc();
    leaves(alloc, 2, b"")?;
    leaves(alloc, 3, b"")?;
    leaves(alloc, 4, b"a\n")?;
    leaves(alloc, 5, b"a\n")?;
    leaves(alloc, 6, b"a\n")?;
    leaves(alloc, 7, b"a\nb\n")?;
    leaves(alloc, 8, b"a\nb\n")
}
