//! Disks in memory of which one fails at one of its calls.

ghost use Rattle.std.specs.Prelude.{◌≡◌, ◌+◌, ◌&&◌, not, false};
ghost use Rattle.sqlite_disk.specs.Disk.{CountsFault};
ghost use Rattle.sqlite_disk.specs.Refusal.{finds_no_room};

use permit_samples::held::Held;
use sqlite_disk::{Crash, Disk, Files, Fuse, Memory, Tally};
use std::alloc::Global;
use std::io;
use std::sync::Arc;
use std::sync::atomic::{AtomicBool, Ordering};
use std::test::Fail;

/// How a disk fails at its call.
#[derive(Clone, Copy, Debug)]
pub(crate) enum Fault {
    /// It fails at each later call too.
    Lasting,
    /// It answers again at the next one.
    Single,
    /// It fails at each later call too, and what was written since the last sync is lost.
    Cut,
}

/// Which of two files fails, how, and after how many calls.
#[derive(Clone, Copy, Debug)]
pub(crate) struct Trouble {
    pub(crate) fault: Fault,
    pub(crate) is_in_log: bool,
    pub(crate) before: u64,
}

/// What is set once a disk has failed.
pub(crate) type Told = Arc<AtomicBool, Global>;

/// A disk that reports when the call comes at which it fails. Where it fails at that call alone, it does so itself; else
/// the disk that it passes calls on to does.
pub(crate) struct Telling<D: Disk> {
    inner: D,
    /// How many calls come before the one that fails; None once it came, and for a disk that never fails.
    before: Option<u64>,
    fails_itself: bool,
    refused: u64,
    sync_refused: bool,
    told: Told,
}

// It is written out, so that who owns one doesn't prove again how each part ends.
impl<D: Disk + Drop> Drop for Telling<D> {
    fn drop(self) {
        let Telling {
            inner: _,
            before: _,
            fails_itself: _,
            refused: _,
            sync_refused: _,
            told: _,
        } = self;
    }
}

/// A file in memory under its fuse.
pub(crate) type Trial = Telling<Fuse<Memory>>;

/// Counts a call down, and fails where it is the one to refuse.
fn count(
    before: &mut Option<u64>,
    fails_itself: bool,
    refused: &mut u64,
    told: &Told,
) -> io::Result<()>
    ensures faults { CountsFault result refused.old refused.new }
    ensures kind { finds_no_room result ≡ false }
{
    match *before {
        Some(0) => {
            *before = None;
            told.store(true, Ordering::SeqCst);
            if fails_itself {
                *refused = refused.saturating_add(1);
                return Err(io::Error::other("the call that fails"));
            }
            Ok(())
        }
        Some(more) => {
            *before = Some(more - 1);
            Ok(())
        }
        None => Ok(()),
    }
}

impl<D: Disk> Disk for Telling<D> {
    ghost seen = { λ t. D.Disk.seen t.inner };

    ghost may_leave = { λ t. D.Disk.may_leave t.inner };

    ghost is_usable = { λ t. D.Disk.is_usable t.inner && not t.sync_refused };

    ghost faults = { λ t. D.Disk.faults t.inner + t.refused };

    ghost tally_of = { λ t. D.Disk.tally_of t.inner };

    ghost is_rotten = { λ t. D.Disk.is_rotten t.inner };

    ghost key_of = { λ t. D.Disk.key_of t.inner };

    ghost is_clean = { λ t. D.Disk.is_clean t.inner };

    ghost is_fair = { λ t. D.Disk.is_fair t.inner };

    ghost fair_if_clean = { λ t. D.Disk.fair_if_clean t.inner };

    ghost seen_may_stay = { λ t. D.Disk.seen_may_stay t.inner };

    ghost is_mixing = { λ t. D.Disk.is_mixing t.inner };

    fn mixes(&self) -> bool {
        self.inner.mixes()
    }

    fn key(&self) -> u64 {
        self.inner.key()
    }

    fn tally(&self) -> Tally {
        self.inner.tally()
    }

    fn may_be_used(&self) -> bool {
        self.inner.may_be_used() && !self.sync_refused
    }

    fn len(&mut self) -> io::Result<usize> {
        count(
            &mut self.before,
            self.fails_itself,
            &mut self.refused,
            &self.told,
        )?;
        self.inner.len()
    }

    fn read_at(&mut self, at: usize, buf: &mut [u8]) -> io::Result<()> {
        count(
            &mut self.before,
            self.fails_itself,
            &mut self.refused,
            &self.told,
        )?;
        self.inner.read_at(at, buf)
    }

    fn read_checked(&mut self, key: u64, want: u64, at: usize, buf: &mut [u8]) -> io::Result<()> {
        count(
            &mut self.before,
            self.fails_itself,
            &mut self.refused,
            &self.told,
        )?;
        self.inner.read_checked(key, want, at, buf)
    }

    fn write_at(&mut self, at: usize, bytes: &[u8]) -> io::Result<()> {
        count(
            &mut self.before,
            self.fails_itself,
            &mut self.refused,
            &self.told,
        )?;
        self.inner.write_at(at, bytes)
    }

    fn set_len(&mut self, len: usize) -> io::Result<()> {
        count(
            &mut self.before,
            self.fails_itself,
            &mut self.refused,
            &self.told,
        )?;
        self.inner.set_len(len)
    }

    fn sync(&mut self) -> io::Result<()> {
        if let Err(error) = count(
            &mut self.before,
            self.fails_itself,
            &mut self.refused,
            &self.told,
        ) {
            self.sync_refused = true;
            return Err(error);
        }
        self.inner.sync()
    }
}

/// The bytes of a database's two files.
#[derive(Drop)]
pub(crate) struct Bytes {
    log: Vec<u8>,
    db: Vec<u8>,
}

impl Bytes {
    /// Of files that are not there yet.
    pub(crate) fn none(alloc: Global) -> Bytes {
        Bytes {
            log: Vec::new(alloc),
            db: Vec::new(alloc),
        }
    }

    /// Of files as a read sees them.
    pub(crate) fn of(alloc: Global, files: &Files<Trial>) -> Result<Bytes, Fail> {
        Ok(Bytes {
            log: Vec::from_slice(alloc, files.log.inner.inner().bytes())?,
            db: Vec::from_slice(alloc, files.db.inner.inner().bytes())?,
        })
    }
}

/// What is not set yet.
pub(crate) fn untold(alloc: Global) -> Result<Told, Fail> {
    Ok(Arc::new(alloc, AtomicBool::new(false))?)
}

/// A file in memory that holds the bytes, also over a crash.
fn memory(alloc: Global, bytes: &[u8]) -> Result<Memory, Fail> {
    let mut memory = Memory::new(alloc);
    memory.write_at(0, bytes)?;
    memory.sync()?;
    Ok(memory)
}

/// A file with the bytes that never fails.
fn sound(alloc: Global, bytes: &[u8], told: &Told) -> Result<Trial, Fail> {
    let told = Arc::try_clone(told)?;
    let memory = memory(alloc, bytes)?;
    Ok(Telling {
        inner: Fuse::new(memory, u64::MAX),
        before: None,
        fails_itself: false,
        refused: 0,
        sync_refused: false,
        told,
    })
}

/// A file with the bytes that fails after so many calls.
fn failing(
    alloc: Global,
    bytes: &[u8],
    fault: Fault,
    before: u64,
    told: &Told,
) -> Result<Trial, Fail> {
    let (fails_itself, passed) = match fault {
        Fault::Single => (true, u64::MAX),
        Fault::Lasting | Fault::Cut => (false, before),
    };
    let told = Arc::try_clone(told)?;
    let memory = memory(alloc, bytes)?;
    Ok(Telling {
        inner: Fuse::new(memory, passed),
        before: Some(before),
        fails_itself,
        refused: 0,
        sync_refused: false,
        told,
    })
}

/// Fresh files with the bytes.
pub(crate) fn sound_files(alloc: Global, bytes: &Bytes) -> Result<Files<Trial>, Fail> {
    let told = untold(alloc)?;
    let log = sound(alloc, bytes.log.as_slice(), &told)?;
    let db = sound(alloc, bytes.db.as_slice(), &told)?;
    Ok(Files { log, db })
}

/// A file with the bytes that fails with the trouble, if it is the one that does.
fn troubled(
    alloc: Global,
    bytes: &[u8],
    trouble: Trouble,
    fails: bool,
    told: &Told,
) -> Result<Trial, Fail> {
    if fails {
        failing(alloc, bytes, trouble.fault, trouble.before, told)
    } else {
        sound(alloc, bytes, told)
    }
}

/// Fresh files with the bytes of which one fails.
pub(crate) fn failing_files(
    alloc: Global,
    bytes: &Bytes,
    trouble: Trouble,
    told: &Told,
) -> Result<Files<Trial>, Fail> {
    let is_in_log = trouble.is_in_log;
    let log = troubled(alloc, bytes.log.as_slice(), trouble, is_in_log, told)?;
    let db = troubled(alloc, bytes.db.as_slice(), trouble, !is_in_log, told)?;
    Ok(Files { log, db })
}

/// The power is cut at one of the files, at the other one, or at both: it loses what it had not synced.
fn cut(files: &mut Files<Trial>, is_at_log: bool, is_at_db: bool) {
    if is_at_log {
        files.log.inner.crash();
    }
    if is_at_db {
        files.db.inner.crash();
    }
}

/// Adds the bytes of files.
fn push_found(alloc: Global, found: &mut Vec<Bytes>, files: &Files<Trial>) -> Result<(), Fail> {
    found.push(Bytes::of(alloc, files)?)?;
    Ok(())
}

/// What may be found in the files after a trouble. Where the power was cut, the file that failed has lost what it had not
/// synced, and the other one its own too or not.
pub(crate) fn left_by(
    alloc: Global,
    files: Files<Trial>,
    trouble: Trouble,
) -> Result<Vec<Bytes>, Fail> {
    let mut files = Held::new(files);
    let mut found = Vec::new(alloc);
    if let Fault::Cut = trouble.fault {
        cut(&mut files.value, trouble.is_in_log, !trouble.is_in_log);
        push_found(alloc, &mut found, &files.value)?;
        cut(&mut files.value, true, true);
    }
    push_found(alloc, &mut found, &files.value)?;
    Ok(found)
}
