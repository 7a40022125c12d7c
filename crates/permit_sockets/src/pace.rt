//! How long a connection may hold a worker: its reader and its writer count the clock.

ghost use Rattle.std.specs.Prelude.{◌≡◌, ◌-◌, ◌<◌, ◌≤◌, IfNone, IfOk, IfSome, IsOk, None, OnErr, OnOk, Some, length, unwrap_or};
ghost use Rattle.std.specs.Duration.{as_nanos};
ghost use Rattle.std.specs.Io.{ReadsAtMost, WritesAtMost};
ghost use Rattle.std.specs.Time.{instant_nanos};
ghost use Rattle.permit_sockets.specs.Pace.{IsLeft, IsOver, MayWait, answer_time, begun, in_nanos};

use crate::limits::{ANSWER, IDLE_TIMEOUT, LINGER, REQUEST};
use std::alloc::Global;
use std::io::{self, ErrorKind, Read, Write};
use std::net::{Shutdown, TcpStream};
use std::sync::Arc;
use std::sync::atomic::{AtomicBool, Ordering};
use std::time::{Clock, Duration, Instant};

/// What is left of a span of time; `None` once it is over.
fn left(since: Instant, now: Instant, span: Duration) -> Option<Duration>
    ensures some { IfSome result (λ d. (0 < as_nanos d) × (as_nanos d ≡ as_nanos span - (instant_nanos now - instant_nanos since))) }
    ensures none { IfNone result (as_nanos span ≤ instant_nanos now - instant_nanos since) }
{
    let rest = span.saturating_sub(now.duration_since(since));
    if rest.is_zero() { None } else { Some(rest) }
}

/// How long a read or a write may still wait, of so many seconds.
fn wait_within(since: Instant, now: Instant, seconds: u64) -> io::Result<Duration>
    ensures some { IfOk result (λ wait. IsLeft seconds since now wait) }
    ensures none { OnErr result (in_nanos seconds ≤ instant_nanos now - instant_nanos since) }
{
    match left(since, now, Duration::from_secs(seconds)) {
        Some(rest) => Ok(rest),
        None => Err(io::Error::from(ErrorKind::TimedOut)),
    }
}

/// How long a read may wait, by when the first byte of the request came.
fn wait_to_read(since: Option<Instant>, now: Instant) -> io::Result<Duration>
    ensures wait { IfOk result (λ wait. MayWait since now wait) }
    ensures over { OnErr result (IsOver since now) }
{
    match since {
        Some(since) => wait_within(since, now, REQUEST),
        None => Ok(Duration::from_secs(IDLE_TIMEOUT)),
    }
}

/// Reads requests from a connection. A read fails where nothing comes in 2 seconds before a request, or where a request
/// takes more than 10 seconds, however its bytes are spread over them.
pub struct RequestReader<C: Clock + Drop> {
    stream: TcpStream,
    clock: C,
    /// Whether an answer was written since the last read.
    answered: Arc<AtomicBool, Global>,
    /// When the first byte of the request came.
    since: Option<Instant>,
    /// What the socket's time for a read was last set to.
    wait: Option<Duration>,
}

impl<C: Clock + Drop> RequestReader<C> {
    /// Reads once, at this time of the clock. Where an answer was written since the last read, a request begins.
    fn read_at(&mut self, answered: bool, now: Instant, buf: &mut [u8]) -> io::Result<usize>
        ensures bound { ReadsAtMost result buf.new }
        ensures wait { OnOk result (IfSome self.new.wait (MayWait (begun answered self.old.since) now)) }
        ensures set { OnOk result (self.new.wait ≡ None → ⊥) }
        ensures begins { OnOk result (self.new.since ≡ None → ⊥) }
        ensures since { IfSome (begun answered self.old.since) (λ since. self.new.since ≡ Some since) }
        ensures answered { self.new.answered ≡ self.old.answered }
    {
        if answered {
            self.since = None;
        }
        let wait = wait_to_read(self.since, now)?;
        if self.wait != Some(wait) {
            self.stream.set_read_timeout(Some(wait))?;
            self.wait = Some(wait);
        }
        let count = self.stream.read(buf)?;
        if self.since.is_none() {
            self.since = Some(Instant::now(&self.clock)?);
        }
        Ok(count)
    }
}

impl<C: Clock + Drop> Read for RequestReader<C> {
    fn read(&mut self, buf: &mut [u8]) -> io::Result<usize> {
        let answered = self.answered.swap(false, Ordering::SeqCst);
        let now = Instant::now(&self.clock)?;
        self.read_at(answered, now, buf)
    }
}

impl<C: Clock + Drop> Drop for RequestReader<C> {
    fn drop(self) {
        if self.answered.load(Ordering::SeqCst) {
            let _ = linger_close(&self.stream, &self.clock);
        }
        let RequestReader {
            stream: _,
            clock: _,
            answered: _,
            since: _,
            wait: _,
        } = self;
    }
}

/// Says that no more answers come, and reads away what the other end still sends, until it ends too.
fn linger_close<C: Clock>(stream: &TcpStream, clock: &C) -> io::Result<()> {
    stream.shutdown(Shutdown::Write)?;
    let since = Instant::now(clock)?;
    let mut bytes = [0u8; 4096];
    for _ in 0..u64::MAX {
        let wait = wait_within(since, Instant::now(clock)?, LINGER)?;
        stream.set_read_timeout(Some(wait))?;
        let mut reader = stream;
        if reader.read(&mut bytes)? == 0 {
            return Ok(());
        }
    }
    Ok(())
}

/// Writes answers to a connection. A write fails where an answer takes more than 10 seconds.
#[derive(Drop)]
pub struct AnswerWriter<C: Clock + Drop> {
    stream: TcpStream,
    clock: C,
    /// Whether an answer was written since the last read.
    answered: Arc<AtomicBool, Global>,
    /// When the first byte of an answer was written that is not yet written whole.
    since: Option<Instant>,
    /// What the socket's time for a write was last set to.
    wait: Option<Duration>,
}

impl<C: Clock + Drop> AnswerWriter<C> {
    /// Writes once, at this time of the clock.
    fn write_at(&mut self, now: Instant, buf: &[u8]) -> io::Result<usize>
        ensures bound { WritesAtMost result buf.now }
        ensures wait { OnOk result (IfSome self.new.wait (IsLeft answer_time (unwrap_or self.old.since now) now)) }
        ensures set { OnOk result (self.new.wait ≡ None → ⊥) }
        ensures more { IfOk result (λ count. count < length buf.now → self.new.since ≡ Some (unwrap_or self.old.since now)) }
        ensures whole { IfOk result (λ count. length buf.now ≤ count → self.new.since ≡ None) }
    {
        let since = self.since.unwrap_or(now);
        let wait = wait_within(since, now, ANSWER)?;
        if self.wait != Some(wait) {
            self.stream.set_write_timeout(Some(wait))?;
            self.wait = Some(wait);
        }
        let count = self.stream.write(buf)?;
        self.since = if count < buf.len() { Some(since) } else { None };
        Ok(count)
    }
}

impl<C: Clock + Drop> Write for AnswerWriter<C> {
    /// An answer is handed in whole, and what is left of it again, so that it ends with a write that takes all.
    fn write(&mut self, buf: &[u8]) -> io::Result<usize> {
        self.answered.store(true, Ordering::SeqCst);
        let now = Instant::now(&self.clock)?;
        self.write_at(now, buf)
    }

    /// Each write goes to the socket at once, so nothing is kept back.
    fn flush(&mut self) -> io::Result<()>
        ensures ok { IsOk result }
        ensures unchanged { self.new ≡ self.old }
    {
        Ok(())
    }
}

/// A connection's reader and writer.
pub fn with_timeouts<C: Clock + Copy + Drop>(
    alloc: Global,
    clock: C,
    stream: TcpStream,
) -> io::Result<(RequestReader<C>, AnswerWriter<C>)>
    ensures reader { IfOk result (λ ends. (ends.0.since ≡ None) × (ends.0.wait ≡ None)) }
    ensures writer { IfOk result (λ ends. (ends.1.since ≡ None) × (ends.1.wait ≡ None)) }
{
    stream.set_nodelay(true)?;
    let answered = Arc::new(alloc, AtomicBool::new(true))?;
    let writer = AnswerWriter {
        stream: stream.try_clone()?,
        clock,
        answered: Arc::try_clone(&answered)?,
        since: None,
        wait: None,
    };
    let reader = RequestReader {
        stream,
        clock,
        answered,
        since: None,
        wait: None,
    };
    Ok((reader, writer))
}
