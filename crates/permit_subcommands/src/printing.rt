//! Printing texts.

ghost use Rattle.std.specs.Prelude.{◌∷◌, ◌++◌, [], codes};
ghost use Rattle.permit_subcommands.specs.Printing.{Prints};

use crate::failure::Failure;
use permit_report::write_whole;
use std::io::Write;

/// Prints bytes. A writer that fails is a failure of the output, and a prefix of the bytes is then out.
pub(crate) fn print_bytes<O: Write>(out: &mut O, bytes: &[u8]) -> Result<(), Failure>
    ensures { Prints bytes.now (O.contents out.old) (O.contents out.new) result }
{
    match write_whole(out, bytes) {
        Ok(()) => Ok(()),
        Err(_) => Err(Failure::Output),
    }
}

/// Prints a text as it is. A writer that fails is a failure of the output, and a prefix of the text is then out.
pub fn print_text<O: Write>(out: &mut O, text: &str) -> Result<(), Failure>
    ensures { Prints text.now (O.contents out.old) (O.contents out.new) result }
{
    print_bytes(out, text.as_bytes())
}

/// Prints bytes and a line end.
pub(crate) fn print_line<O: Write>(out: &mut O, bytes: &[u8]) -> Result<(), Failure>
    ensures { Prints (bytes.now ++ 10 ∷ []) (O.contents out.old) (O.contents out.new) result }
{
    print_bytes(out, bytes)?;
    print_bytes(out, b"\n")
}

/// Prints a text and a line end.
pub fn print_line_of<E: Write>(err: &mut E, line: &str) -> Result<(), Failure>
    ensures { Prints (line.now ++ codes "\n") (E.contents err.old) (E.contents err.new) result }
{
    print_line(err, line.as_bytes())
}

/// Prints a colon and a space, and a line after them.
fn print_after_colon<E: Write>(err: &mut E, line: &str) -> Result<(), Failure>
    ensures { Prints (codes ": " ++ (line.now ++ codes "\n")) (E.contents err.old) (E.contents err.new) result }
{
    print_text(err, ": ")?;
    print_line_of(err, line)
}

/// Prints a path, a colon, and a line that says something about the path.
///
/// # Examples
///
/// ```
/// let mut err = Vec::new(alloc);
/// assert!(rt; print_about(&mut err, "office.db", "no such file or folder").is_ok());
/// assert!(rt; err.as_slice() == b"office.db: no such file or folder\n".as_slice());
/// ```
pub fn print_about<E: Write>(err: &mut E, path: &str, line: &str) -> Result<(), Failure>
    ensures { Prints (path.now ++ (codes ": " ++ (line.now ++ codes "\n"))) (E.contents err.old) (E.contents err.new) result }
{
    print_text(err, path)?;
    print_after_colon(err, line)
}
