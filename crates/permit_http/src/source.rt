//! A reader with a specification of each read.

ghost use Rattle.std.specs.Prelude.{ℕ, List, [], take, MatchResult};
ghost use Rattle.std.specs.Io.{ReadsAtMost};
ghost use Rattle.std.specs.Io.KnownBytes.{Consumes, ReadConsumes};

use std::io::{self, Read};

/// A reader with a specification of each read, so that a contract can say how often it was read.
pub trait Source: Read {
    /// What one read gave, with the reader before it and after it. A read that failed gave no bytes.
    ghost gave: { Self → List ℕ → Self → Type 0 };

    /// Reads once.
    fn read_once(&mut self, buf: &mut [u8]) -> io::Result<usize>
        ensures bound { ReadsAtMost result buf.new }
        ensures bytes { ReadConsumes (Self.remaining self.old) (Self.remaining self.new) result buf.new }
        ensures gave { MatchResult result (λ n. gave self.old (take n buf.new) self.new) (λ _. gave self.old [] self.new) };
}

impl<R: Read> Source for R {
    ghost gave = { λ before bytes after. Consumes (R.remaining before) (R.remaining after) bytes };

    fn read_once(&mut self, buf: &mut [u8]) -> io::Result<usize> {
        self.read(buf)
    }
}
