//! Why a history isn't printed.

use permit_history::fault::LineFault;
use std::io;

/// Why a text isn't printed to its end. Lines are counted from 1 on.
#[derive(Drop)]
pub enum ChronicleFault {
    /// This line is no entry's, or memory was refused while it was read.
    Line { line: u64, fault: LineFault },
    /// The source failed, or memory was refused for the bytes of a line.
    Source(io::Error),
    /// A write failed, or took no byte.
    Output,
    /// Memory was refused.
    Memory,
    /// The text has 18446744073709551614 lines or more.
    Endless,
}
