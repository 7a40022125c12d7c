//! Where the program prints.

use std::io::{Result, Stderr, Stdout, Write};

/// What the program prints to. It is one type, so that what prints is proved and compiled once.
#[derive(Drop)]
pub enum Stream {
    /// The process's standard output.
    Output(Stdout),
    /// The process's standard error.
    Errors(Stderr),
    /// Bytes in memory, for those who run the program within another.
    Memory(Vec<u8>),
    /// Nothing keeps what is printed.
    Sink,
}

impl Write for Stream {
    ghost use Rattle.permit_cli.specs.Streams.{printed};

    ghost contents = { printed };

    fn write(&mut self, buf: &[u8]) -> Result<usize> {
        match self {
            Stream::Output(stream) => stream.write(buf),
            Stream::Errors(stream) => stream.write(buf),
            Stream::Memory(bytes) => bytes.write(buf),
            Stream::Sink => Ok(buf.len()),
        }
    }

    fn flush(&mut self) -> Result<()> {
        match self {
            Stream::Output(stream) => stream.flush(),
            Stream::Errors(stream) => stream.flush(),
            Stream::Memory(bytes) => bytes.flush(),
            Stream::Sink => Ok(()),
        }
    }
}
