//! How much of a text is settled: its whole lines without the last one, which alone may still be taken back.
//!
//! A text is read to its end, piece by piece as the source has it, and no memory is taken for it.

ghost use Rattle.std.specs.Prelude.{◌++◌, ℕ, List, [], IfOk, IfSome};
ghost use Rattle.permit_history.specs.LineEnds.{AddsPiece, AreLineEndsOf};
ghost use Rattle.permit_history.specs.Settled.{IsSettledLength};

use std::io::{self, BufRead};

/// Where the last two whole lines of a text end, as far as it is read, in bytes from its start.
#[derive(Clone, Copy)]
struct LineEnds {
    /// How many bytes are read.
    read: u64,
    /// Where the last line ends: 0 where there is none.
    last: u64,
    /// Where the one before it ends: 0 where there is none.
    settled: u64,
}

impl LineEnds {
    /// Nothing is read.
    fn new() -> LineEnds
        ensures { AreLineEndsOf [] result }
    {
        LineEnds {
            read: 0,
            last: 0,
            settled: 0,
        }
    }

    /// With the piece that follows what is read: none where there are 2^64 bytes or more.
    fn with(self, piece: &[u8]) -> Option<LineEnds>
        ensures { IfSome result (λ ends. (bytes : List ℕ) → AreLineEndsOf bytes self → AreLineEndsOf (bytes ++ piece.now) ends) }
    {
        let read = self.read.checked_add(piece.len() as u64)?;
        let (mut last, mut settled) = (self.last, self.settled);
        for (i, byte) in piece.iter().enumerate() {
            if *byte == b'\n' {
                settled = last;
                last = self.read + i as u64 + 1;
            }
        }
        Some(LineEnds {
            read,
            last,
            settled,
        })
    }
}

/// Adds the piece that the source has at hand, and says whether more may follow.
fn take_piece<R: BufRead>(source: &mut R, ends: &mut LineEnds) -> io::Result<bool>
    ensures { IfOk result (AddsPiece (R.remaining source.old) (R.remaining source.new) ends.old ends.new) }
{
    let piece = match source.fill_buf() {
        Ok(piece) => piece,
        Err(error) if error.kind() == io::ErrorKind::Interrupted => return Ok(true),
        Err(error) => return Err(error),
    };
    let Some(more) = ends.with(piece) else {
        return Err(io::ErrorKind::FileTooLarge.into());
    };
    *ends = more;
    let size = piece.len();
    source.consume(size);
    Ok(0 < size)
}

/// How many bytes the whole lines of a text have without the last one, which alone may still be taken back: 0 where it has no
/// line or one.
///
/// It fails where the source does, and for a text of 18446744073709551616 bytes or more. It takes no memory.
///
/// # Examples
///
/// ```
/// assert!(rt; settled_length(&mut b"one\ntwo\nthr".as_slice())? == 4);
/// assert!(rt; settled_length(&mut b"one\n".as_slice())? == 0);
/// ```
pub fn settled_length<R: BufRead>(source: &mut R) -> io::Result<u64>
    ensures { IfSome (R.remaining source.old) (λ bytes. IfOk result (IsSettledLength bytes)) }
{
    let mut ends = LineEnds::new();
    for _ in 0..u64::MAX {
        if !take_piece(source, &mut ends)? {
            return Ok(ends.settled);
        }
    }
    Err(io::ErrorKind::TimedOut.into())
}
