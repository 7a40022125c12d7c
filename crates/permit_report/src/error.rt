//! Why a register isn't written.

ghost use Rattle.std.specs.Prelude.{codes, Some};

use std::fmt;

/// Why a register isn't written whole.
#[derive(Clone, Copy, PartialEq, Eq, Debug)]
pub enum ReportError {
    /// A write failed, or took no byte.
    Write,
}

impl fmt::Display for ReportError {
    ghost output = { λ _. Some (codes "cannot write") };

    fn fmt<W: fmt::Write>(&self, f: &mut fmt::Formatter<W>) -> fmt::Result {
        match self {
            ReportError::Write => f.write_str("cannot write"),
        }
    }
}
