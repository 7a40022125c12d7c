//! Doors whose connections are in memory, and the hall over them.

ghost use Rattle.std.specs.Prelude.{◌≡◌, [], ◌∷◌, ◌++◌, MatchOption};

use crate::calendar::Calendar;
use permit_hall::doors::{Door, DoorEnd, HallEnd, run_hall};
use permit_hall::error::HallError;
use permit_office::office::Office;
use permit_samples::held::Held;
use permit_store::plain::PlainStore;
use std::alloc::Global;
use std::io::{self, ErrorKind, Read, Write};
use std::sync::atomic::{AtomicBool, Ordering};
use std::sync::{Arc, Mutex, Wait};
use std::test::*;
use std::thread::{self, Threads};

/// What connections wrote, one after the other, and whether one wrote anything yet.
#[derive(Drop)]
pub struct Record {
    text: Mutex<String>,
    begun: AtomicBool,
}

pub type Shared = Arc<Record, Global>;

/// A record of nothing yet.
pub fn new_record(alloc: Global) -> Result<Shared, Fail> {
    Ok(Arc::new(
        alloc,
        Record {
            text: Mutex::new(String::new(alloc)),
            begun: AtomicBool::new(false),
        },
    )?)
}

/// What was written.
pub fn written<R: Wait>(rt: &R, alloc: Global, record: &Shared) -> Result<String, Fail> {
    Ok(String::from_str(alloc, record.text.lock(rt).as_str())?)
}

/// Whether something is written before a million looks.
fn has_begun(record: &Shared) -> bool {
    for _ in 0..1000000 {
        if record.begun.load(Ordering::SeqCst) {
            return true;
        }
        thread::yield_now();
    }
    false
}

/// How the streams of a connection go wrong.
#[derive(Clone, Copy)]
pub struct Trouble {
    /// Whether the reader fails, and doesn't end, after the requests.
    pub reader_fails: bool,
    /// How many bytes the writer takes at most in one write.
    pub at_once: usize,
    /// How many bytes the writer takes before it fails.
    pub fails_at: usize,
    /// Whether it then takes no byte, and doesn't fail.
    pub stalls: bool,
}

/// Streams that do as memory does.
pub const NO_TROUBLE: Trouble = Trouble {
    reader_fails: false,
    at_once: usize::MAX,
    fails_at: usize::MAX,
    stalls: false,
};

/// The requests of a connection, after which its input ends, or fails.
#[derive(Drop)]
pub struct Requests {
    bytes: Vec<u8>,
    at: usize,
    fails: bool,
}

impl Read for Requests {
    fn read(&mut self, buf: &mut [u8]) -> io::Result<usize> {
        let mut rest = self.bytes.get(self.at..).unwrap_or(&[]);
        if rest.is_empty() && self.fails {
            return Err(io::Error::from(ErrorKind::ConnectionReset));
        }
        let count = rest.read(buf)?;
        self.at = self.at.saturating_add(count);
        Ok(count)
    }
}

/// Where a connection writes its answers, until no byte more is free.
#[derive(Drop)]
pub struct Answers<R: Wait + Drop> {
    rt: R,
    record: Shared,
    at_once: usize,
    free: usize,
    stalls: bool,
}

impl<R: Wait + Drop> Write for Answers<R> {
    fn write(&mut self, bytes: &[u8]) -> io::Result<usize> {
        if self.free == 0 && !self.stalls {
            return Err(io::Error::from(ErrorKind::BrokenPipe));
        }
        let count = bytes.len().min(self.at_once).min(self.free);
        let taken = str::from_utf8(&bytes[..count]).unwrap_or("?");
        let mut text = self.record.text.lock(&self.rt);
        if text.push_str(taken).is_err() {
            return Err(io::Error::from(ErrorKind::OutOfMemory));
        }
        self.free = self.free.saturating_sub(count);
        self.record.begun.store(true, Ordering::SeqCst);
        Ok(count)
    }

    fn flush(&mut self) -> io::Result<()> {
        Ok(())
    }
}

/// A connection with these requests, whose answers go into the record.
pub fn connection<R: Wait + Drop>(
    rt: R,
    record: &Shared,
    bytes: Vec<u8>,
    trouble: Trouble,
) -> Result<(Requests, Answers<R>), Fail> {
    let requests = Requests {
        bytes,
        at: 0,
        fails: trouble.reader_fails,
    };
    let answers = Answers {
        rt,
        record: Arc::try_clone(record)?,
        at_once: trouble.at_once,
        free: trouble.fails_at,
        stalls: trouble.stalls,
    };
    Ok((requests, answers))
}

/// A door whose connections are in memory, the last one first. It may wait, before it gives one, until another has
/// written.
#[derive(Drop)]
pub struct MemoryDoor<R: Wait + Drop> {
    pub connections: Vec<(Requests, Answers<R>)>,
    pub waits_for: Option<Shared>,
}

impl<R: Wait + Drop + Send> Door for MemoryDoor<R> {
    type In = Requests;

    type Out = Answers<R>;

    ghost spent = { λ d. d.connections.items ≡ [] };

    ghost gave = { λ d given e. MatchOption given (e.connections.items ≡ []) (λ c. d.connections.items ≡ e.connections.items ++ c ∷ []) };

    fn next(&mut self) -> Option<(Requests, Answers<R>)> {
        if let Some(record) = &self.waits_for {
            if !has_begun(record) {
                self.connections.clear();
            }
        }
        self.connections.pop()
    }
}

/// How the hall over the doors ends, each request served on its day of the calendar. The tests share this one call of
/// `run_hall`, since each further one, with a closure of its own type, takes long to prove.
pub fn hall<R: Threads + Wait + Copy + Drop + Send + 'static>(
    rt: R,
    alloc: Global,
    office: Office<PlainStore>,
    doors: Vec<MemoryDoor<R>>,
    calendar: Calendar,
) -> Result<HallEnd<PlainStore, MemoryDoor<R>>, HallError> {
    let mut calendar = calendar;
    match run_hall(rt, alloc, office, doors, &mut || calendar.next()) {
        Ok(end) => Ok(end),
        Err((office, error)) => {
            drop(office);
            Err(error)
        }
    }
}

/// How many answers the session of each door has collected. Fails where a connection is left.
fn counts_of<R: Wait + Drop>(
    alloc: Global,
    doors: &[Option<DoorEnd<MemoryDoor<R>>>],
) -> Result<Vec<u64>, Fail> {
    let mut counts = Vec::new(alloc);
    for door in doors {
        let Some(door) = door else {
            return Err(Fail::new("a session"));
        };
        if !door.door.connections.is_empty() {
            return Err(Fail::new("a door that is spent"));
        }
        counts.push(door.collected)?;
    }
    Ok(counts)
}

/// The office, and how many answers the session of each door has collected. Fails where a connection is left.
pub fn closed<R: Threads + Wait + Copy + Drop + Send + 'static>(
    rt: R,
    alloc: Global,
    office: Office<PlainStore>,
    doors: Vec<MemoryDoor<R>>,
    calendar: Calendar,
) -> Result<(Office<PlainStore>, Vec<u64>), Fail> {
    let HallEnd { office, doors } = hall(rt, alloc, office, doors, calendar)?;
    let office = Held::new(office);
    let counts = counts_of(alloc, doors.as_slice())?;
    Ok((office.into_inner(), counts))
}

/// How many answers the session of each door has collected. Fails where a connection is left.
pub fn collected<R: Threads + Wait + Copy + Drop + Send + 'static>(
    rt: R,
    alloc: Global,
    office: Office<PlainStore>,
    doors: Vec<MemoryDoor<R>>,
    calendar: Calendar,
) -> Result<Vec<u64>, Fail> {
    let (office, counts) = closed(rt, alloc, office, doors, calendar)?;
    drop(office);
    Ok(counts)
}
