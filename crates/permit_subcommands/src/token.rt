//! The text of a token that words name: the token itself, or the first line of a file.

ghost use Rattle.std.specs.Prelude.{◌≡◌, ℕ, List, IfErr, IfOk, IfSome, string_bytes};
ghost use Rattle.std.specs.Io.BufRead.{strip_last};
ghost use Rattle.permit_subcommands.specs.Tokens.{line_read, IsTextOfLine, IsTokenFailure, IsTokenOf};

use crate::failure::Failure;
use permit_args::plan::TokenWords;
use std::alloc::{AllocError, Global};
use std::fs::File;
use std::io::{self, BufRead, BufReader, Input};
use std::str;

/// How many bytes of a token's file are read: one more than a token can have.
const MOST_READ: usize = 65;

/// Bytes without their last one, where that is this byte.
fn without_last(bytes: &[u8], byte: u8) -> &[u8]
    ensures { result.now ≡ strip_last byte bytes.now }
{
    let size = bytes.len();
    if 0 < size && bytes[size - 1] == byte {
        &bytes[..size - 1]
    } else {
        bytes
    }
}

/// The text of a line without its end, which is LF or CR LF; an empty text where it isn't UTF-8.
fn text_of(alloc: Global, line: &[u8]) -> Result<String, AllocError>
    ensures { IfOk result (λ text. IsTextOfLine line.now (string_bytes text)) }
{
    let bytes = without_last(without_last(line, b'\n'), b'\r');
    match str::from_utf8(bytes) {
        Ok(text) => String::from_str(alloc, text),
        Err(_) => Ok(String::new(alloc)),
    }
}

/// The first line of a reader without its end, which is LF or CR LF. At most 65 bytes are read, so a longer line is cut and is no
/// token. A line that isn't UTF-8 is no token either, and makes an empty text. An error is the reader's, or out of memory.
pub fn first_line<R: BufRead + Drop>(alloc: Global, reader: R) -> io::Result<String>
    ensures { IfOk result (λ text. (line : List ℕ) × IfSome (R.remaining reader) (λ bytes. line ≡ line_read bytes) × IsTextOfLine line (string_bytes text)) }
{
    let mut line = Vec::new(alloc);
    let mut first = reader.take(MOST_READ as u64);
    first.read_until(b'\n', &mut line)?;
    Ok(text_of(alloc, line.as_slice())?)
}

/// The first line of the file at a path; `-` is standard input.
fn line_at(rt: &HostRuntime, path: &str) -> io::Result<String>
    ensures { IfOk result (λ text. (line : List ℕ) × IsTextOfLine line (string_bytes text)) }
{
    let alloc = rt.alloc();
    if path == "-" {
        return first_line(alloc, rt.reader());
    }
    let file = File::open(rt, path)?;
    first_line(alloc, BufReader::with_capacity(alloc, MOST_READ, file)?)
}

/// The text of the token that the words name, which is still to be judged: the token itself, or the first line of the file without
/// its end, of which at most 65 bytes are read. A line that isn't UTF-8 makes an empty text, which is no token. A file that can't
/// be read is the failure.
pub fn token_of(rt: &HostRuntime, words: &TokenWords<'_>) -> Result<String, Failure>
    ensures named { IfOk result (λ text. IsTokenOf words.now (string_bytes text)) }
    ensures refused { IfErr result (IsTokenFailure words.now) }
{
    let alloc = rt.alloc();
    match *words {
        TokenWords::Given(token) => Ok(String::from_str(alloc, token)?),
        TokenWords::File(path) => match line_at(rt, path) {
            Ok(text) => Ok(text),
            Err(error) => Err(Failure::of_reading(alloc, path, &error)),
        },
    }
}
