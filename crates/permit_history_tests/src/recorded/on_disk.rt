//! A journal over a file on a disk, which stops and crashes.

use permit_journal::disk_file::DiskFile;
use permit_journal::file::HistoryFile;
use permit_journal::journal::Journal;
use sqlite_disk::{Crash, Disk, Fuse, Memory};
use std::alloc::Global;
use std::test::*;

/// The disk of these tests.
type Stops = Fuse<Memory>;

/// Fails where it isn't so.
fn want(is_so: bool, what: &'static str) -> Result<(), Fail> {
    if is_so { Ok(()) } else { Err(what.into()) }
}

/// The file on the disk.
fn file_on(disk: Stops) -> Result<DiskFile<Stops>, Fail> {
    match DiskFile::open(disk) {
        Ok(file) => Ok(file),
        Err(_) => Err("a file".into()),
    }
}

/// The journal over the file.
fn journal_over(file: DiskFile<Stops>) -> Result<Journal<DiskFile<Stops>>, Fail> {
    match Journal::open(file) {
        Ok(journal) => Ok(journal),
        Err(_) => Err("a journal".into()),
    }
}

/// Fails where a crash after so many calls of the disk leaves another text than the lines that were entered, which are so many.
fn leaves(alloc: Global, calls: u64, lines: u8) -> Result<(), Fail> {
    let file = file_on(Fuse::new(Memory::new(alloc), calls))?;
    let mut journal = journal_over(file)?;
    let first = journal.enter(b"a\n").is_ok();
    let second = journal.enter(b"b\n").is_ok();
    want(first == (lines >= 1), "the first line")?;
    want(second == (lines >= 2), "the second line")?;
    want(journal.is_shut() == !second, "whether it is shut")?;
    let mut disk = journal.into_file().into_disk();
    disk.crash();
    let text: &[u8] = match lines {
        0 => b"",
        1 => b"a\n",
        _ => b"a\nb\n",
    };
    want(disk.inner().bytes() == text, "the text")
}

#[test]
fn what_is_entered_outlives_a_crash(rt: HostRuntime) -> Result<(), Fail> {
    let alloc = rt.alloc();
    for calls in 3..6 {
        leaves(alloc, calls, 0)?;
    }
    for calls in 6..9 {
        leaves(alloc, calls, 1)?;
    }
    leaves(alloc, 9, 2)
}

#[test]
fn what_a_crash_left_is_cut_off(rt: HostRuntime) -> Result<(), Fail> {
    let mut disk = Memory::new(rt.alloc());
    disk.write_at(0, b"a\n#")?;
    let mut file = file_on(Fuse::new(disk, 100))?;
    want(file.cut(2).is_ok(), "a cut")?;
    let mut journal = journal_over(file)?;
    want(journal.length() == 2, "the length")?;
    want(journal.enter(b"b\n").is_ok(), "a line")?;
    let disk = journal.into_file().into_disk();
    want(disk.inner().bytes() == b"a\nb\n".as_slice(), "the text")
}
