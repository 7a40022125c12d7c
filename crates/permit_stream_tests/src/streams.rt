//! Readers and writers that do what files and memory don't. They take no memory.

ghost use Rattle.std.specs.Prelude.{◌≤◌};

use std::io::{self, ErrorKind, Read, Write};

/// A reader that gives one byte a call, and then ends or fails.
#[derive(Drop)]
pub struct Trickle<'a> {
    pub rest: &'a [u8],
    pub fails: bool,
}

impl<'a> Read for Trickle<'a> {
    fn read(&mut self, buf: &mut [u8]) -> io::Result<usize> {
        if buf.is_empty() {
            return Ok(0);
        }
        match self.rest.split_first() {
            None if self.fails => Err(io::Error::from(ErrorKind::ConnectionReset)),
            None => Ok(0),
            Some((first, rest)) => {
                buf[0] = *first;
                self.rest = rest;
                Ok(1)
            }
        }
    }
}

/// A reader that gives its bytes in two pieces.
#[derive(Drop)]
pub struct Pieces<'a> {
    pub first: &'a [u8],
    pub second: &'a [u8],
}

impl<'a> Read for Pieces<'a> {
    fn read(&mut self, buf: &mut [u8]) -> io::Result<usize> {
        if self.first.is_empty() {
            self.second.read(buf)
        } else {
            self.first.read(buf)
        }
    }
}

/// A writer that takes at most so many bytes in one write, and fails, or takes no more, once it holds so many.
#[derive(Drop)]
pub struct Narrow {
    bytes: [u8; 1024],
    len: usize,
    at_once: usize,
    room: usize,
    stalls: bool,
    ghost within: { len ≤ 1024 },
}

impl Narrow {
    /// It fails after so many bytes.
    pub fn new(at_once: usize, room: usize) -> Narrow {
        Narrow {
            bytes: [0; 1024],
            len: 0,
            at_once,
            room,
            stalls: false,
        }
    }

    /// It takes no byte after so many.
    pub fn stalling(at_once: usize, room: usize) -> Narrow {
        let mut narrow = Narrow::new(at_once, room);
        narrow.stalls = true;
        narrow
    }

    /// What was written.
    pub fn taken(&self) -> &[u8] {
        &self.bytes[..self.len]
    }
}

impl Write for Narrow {
    fn write(&mut self, bytes: &[u8]) -> io::Result<usize> {
        let free = self.bytes.len().min(self.room).saturating_sub(self.len);
        if free == 0 && !self.stalls {
            return Err(io::Error::from(ErrorKind::BrokenPipe));
        }
        let count = bytes.len().min(self.at_once).min(free);
        self.bytes[self.len..self.len + count].copy_from_slice(&bytes[..count]);
        self.len += count;
        Ok(count)
    }

    fn flush(&mut self) -> io::Result<()> {
        Ok(())
    }
}
