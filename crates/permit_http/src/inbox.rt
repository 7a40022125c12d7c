//! The bytes of a connection that were read and not used yet.

ghost use Rattle.std.specs.Prelude.{◌≡◌, ◌≤◌, ◌<◌, ◌+◌, ◌||◌, ◌++◌, ℕ, List, drop, length, min, nat_le, true, false, IfOk, OnErr, Ok};
ghost use Rattle.std.specs.Io.KnownBytes.{IsAtEnd};
ghost use Rattle.permit_http.specs.Stream.{fresh, Filled};
ghost use Rattle.permit_http.specs.Needed.{ReadsWhile};
ghost use Rattle.permit_http.specs.Spans.{GetsTo};

use crate::source::Source;
use std::io;
use std::marker::Model;

/// The bytes of a connection that were read and not used yet, at most 24576 of them held in place; how many of its
/// requests are answered, at most 100; and whether it closes.
///
/// A message has at most 8192 bytes of head and 16384 of body, so one always finds room.
#[derive(Drop)]
pub struct Inbox {
    bytes: [u8; 24576],
    len: usize,
    count: u8,
    closed: bool,
}

impl Model for Inbox {
    ghost use Rattle.std.specs.Prelude.{take, ◌≤◌};
    ghost use Rattle.permit_http.specs.Stream.{InboxData};

    ghost Value = { InboxData };

    ghost view = { λ a. record { bytes = take a.len a.bytes; count = a.count; closed = a.closed } };

    ghost invariant = { λ a. (a.len ≤ 24576) × (a.count ≤ 100) };
}

impl Inbox {
    /// An inbox at the start of a connection: no bytes, no answers, not closed. It takes no memory.
    ///
    /// # Examples
    ///
    /// ```
    /// let mut inbox = Inbox::new();
    /// assert!(rt; !inbox.is_closed());
    /// ```
    pub fn new() -> Inbox
        ensures { result ≡ fresh }
    {
        Inbox {
            bytes: [0; 24576],
            len: 0,
            count: 0,
            closed: false,
        }
    }

    /// The bytes that were read and not used.
    pub fn as_slice(&self) -> &[u8]
        ensures { result.now ≡ self.now.bytes }
    {
        &self.bytes[..self.len]
    }

    /// Whether the connection closes: nothing more is read from it.
    pub fn is_closed(&self) -> bool
        ensures { result ≡ self.now.closed }
    {
        self.closed
    }

    /// Closes the connection: nothing more is read from it.
    pub fn close(&mut self)
        ensures { self.new ≡ record self.old { closed = true } }
    {
        self.closed = true;
    }

    /// Counts one answer more, and closes the connection with it where its head asks so or it is the 100th.
    pub(crate) fn count_answer(&mut self, closes: bool)
        ensures bytes { self.new.bytes ≡ self.old.bytes }
        ensures count { self.new.count ≡ min 100 (self.old.count + 1) }
        ensures closed { self.new.closed ≡ (self.old.closed || closes || nat_le 100 (self.old.count + 1)) }
    {
        if closes || 99 <= self.count {
            self.close();
        }
        self.count = (self.count + 1).min(100);
    }

    /// Lets the first bytes go.
    pub(crate) fn consume(&mut self, n: usize)
        requires { n ≤ length self.old.bytes }
        ensures { self.new ≡ record self.old { bytes = drop n self.old.bytes } }
    {
        let len = self.len;
        self.bytes[..len].rotate_left(n);
        self.len = len - n;
    }

    /// Reads once, to the end of the bytes, and says how many came.
    pub(crate) fn fill<R: Source>(&mut self, reader: &mut R) -> io::Result<usize>
        requires room { length self.old.bytes < 24576 }
        ensures filled { Filled self.old self.new (R.remaining reader.old) (R.remaining reader.new) }
        ensures grows { IfOk result (λ n. length self.new.bytes ≡ length self.old.bytes + n) }
        ensures end { result ≡ Ok 0 → IsAtEnd (R.remaining reader.new) }
        ensures failed { OnErr result (self.new ≡ self.old) }
        ensures once { (more : List ℕ) × (self.new.bytes ≡ self.old.bytes ++ more) × R.gave reader.old more reader.new }
    {
        let len = self.len;
        let read = reader.read_once(&mut self.bytes[len..])?;
        self.len = len + read;
        Ok(read)
    }

    /// Reads until so many bytes are there, and says whether they are; `Ok(false)` is the end of the input.
    pub(crate) fn fill_to<R: Source>(&mut self, reader: &mut R, n: usize) -> io::Result<bool>
        requires { n ≤ 24576 }
        ensures filled { Filled self.old self.new (R.remaining reader.old) (R.remaining reader.new) }
        ensures there { IfOk result (λ there. GetsTo n there self.new.bytes (R.remaining reader.new)) }
        ensures failed { OnErr result (length self.new.bytes < n) }
        ensures needed { ReadsWhile (λ bytes. length bytes < n) R.gave self.old.bytes reader.old self.new.bytes reader.new }
    {
        loop {
            if n <= self.as_slice().len() {
                return Ok(true);
            }
            if self.fill(reader)? == 0 {
                return Ok(false);
            }
        }
    }
}
