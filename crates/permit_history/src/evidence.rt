//! The evidence of a text: how many lines it has, and the SHA-256 of them.
//!
//! A text is read to its end or to a line, piece by piece as the source has it, and no memory is taken for it.

ghost use Rattle.std.specs.Prelude.{◌≡◌, ◌≤◌, ◌++◌, ◌↔◌, IsTrue, ℕ, List, [], length, min, take, option_map, IfOk, IfSome, OnOk, Some};
ghost use Rattle.sha2.specs.Hashers.{Holds256};
ghost use Rattle.permit_base.specs.Digests.{digest_of};
ghost use Rattle.permit_history.specs.Evidence.{line_count, lines_of, IsEvidenceOf, IsOfPrefix};
ghost use Rattle.permit_history.specs.Prefixes.{IsEvidenceWithin, IsPrefixOf, TakesPiece};

use permit_base::values::Digest;
use sha2::{Digest as _, Sha256};
use std::alloc::AllocError;
use std::io::{self, BufRead};

/// How many lines a text has, and the SHA-256 of them. Who keeps it apart from the text can see later whether these lines are
/// still the first ones.
#[derive(Clone, Copy, PartialEq, Eq)]
pub struct Evidence {
    /// How many whole lines: what is after the last LF is none.
    pub lines: u64,
    /// The SHA-256 (FIPS 180-4) of these lines with their LFs, in lower-case hexadecimal.
    pub sha256: Digest,
}

/// The first lines of a text, as far as it is read.
#[derive(Drop)]
struct Prefix {
    lines: u64,
    /// The hash of these lines.
    whole: Sha256,
    /// The hash of all that is read.
    read: Sha256,
}

/// How many lines end in a piece, at most `most`, and where the last of them ends.
fn lines_in(piece: &[u8], most: u64) -> (u64, usize)
    ensures count { result.0 ≡ min most (line_count piece.now) }
    ensures lines { lines_of result.0 piece.now ≡ Some (take result.1 piece.now) }
    ensures within { result.1 ≤ length piece.now }
{
    let mut lines: u64 = 0;
    let mut end: usize = 0;
    for (i, byte) in piece.iter().enumerate() {
        if *byte == b'\n' && lines < most {
            lines += 1;
            end = i + 1;
        }
    }
    (lines, end)
}

/// The digest of what a hash is of.
///
/// # Examples
///
/// ```
/// let digest = digest_of_hash(Sha256::new().chain_update(b"one\ntwo\n".as_slice()));
/// assert!(rt; digest.as_str().starts_with("c3f9c8c2"));
/// ```
pub fn digest_of_hash(hash: Sha256) -> Digest
    ensures { (message : List ℕ) → Holds256 hash message → result ≡ digest_of message }
{
    let bytes = hash.finalize();
    let mut letters = [0u8; 64];
    let Ok(()) = hex::encode_to_slice(bytes, &mut letters) else {
        unreachable!()
    };
    let Ok(text) = str::from_utf8(&letters) else {
        unreachable!()
    };
    match Digest::read(text) {
        Some(digest) => digest,
        None => unreachable!(),
    }
}

impl Prefix {
    /// Nothing is read.
    fn new() -> Prefix
        ensures { (most : ℕ) → IsPrefixOf most [] result }
    {
        Prefix {
            lines: 0,
            whole: Sha256::new(),
            read: Sha256::new(),
        }
    }

    /// Adds the piece that follows what is read. It has at most `most` lines afterwards.
    fn add(&mut self, piece: &[u8], most: u64) -> Result<(), AllocError>
        ensures { OnOk result ((read : List ℕ) → IsPrefixOf most read self.old → IsPrefixOf most (read ++ piece.now) self.new) }
    {
        let (lines, end) = lines_in(piece, most.saturating_sub(self.lines));
        self.read.update(&piece[..end]);
        if 0 < lines {
            self.whole = self.read.clone()?;
            self.lines += lines;
        }
        self.read.update(&piece[end..]);
        Ok(())
    }

    /// The evidence of its lines.
    fn evidence(self) -> Evidence
        ensures { (most : ℕ) (read : List ℕ) → IsPrefixOf most read self → IsEvidenceWithin most read result }
    {
        Evidence {
            lines: self.lines,
            sha256: digest_of_hash(self.whole),
        }
    }
}

/// Adds the piece that the source has at hand, and says whether more may follow: no more does after the text or the last of the
/// lines.
fn take_piece<R: BufRead>(source: &mut R, prefix: &mut Prefix, most: u64) -> io::Result<bool>
    ensures { IfOk result (TakesPiece most (R.remaining source.old) (R.remaining source.new) prefix.old prefix.new) }
{
    if prefix.lines == most {
        return Ok(false);
    }
    let piece = match source.fill_buf() {
        Ok(piece) => piece,
        Err(error) if error.kind() == io::ErrorKind::Interrupted => return Ok(true),
        Err(error) => return Err(error),
    };
    prefix.add(piece, most)?;
    let size = piece.len();
    source.consume(size);
    Ok(0 < size)
}

/// The evidence of the first lines of a text, of at most so many.
fn evidence_within<R: BufRead>(source: &mut R, most: u64) -> io::Result<Evidence>
    ensures { IfSome (R.remaining source.old) (λ bytes. IfOk result (IsEvidenceWithin most bytes)) }
{
    let mut prefix = Prefix::new();
    for _ in 0..u64::MAX {
        if !take_piece(source, &mut prefix, most)? {
            return Ok(prefix.evidence());
        }
    }
    Err(io::ErrorKind::TimedOut.into())
}

/// How many whole lines a text has, and their SHA-256.
///
/// It fails where the source does, and for a text of 18446744073709551615 lines or more. It takes no memory.
///
/// # Examples
///
/// ```
/// let evidence = evidence_of(&mut b"one\ntwo\nthr".as_slice())?;
/// assert!(rt; evidence.lines == 2);
/// assert!(rt; evidence.sha256.as_str().starts_with("c3f9c8c2"));
/// ```
pub fn evidence_of<R: BufRead>(source: &mut R) -> io::Result<Evidence>
    ensures { IfSome (R.remaining source.old) (λ bytes. IfOk result (IsEvidenceOf bytes)) }
{
    let evidence = evidence_within(source, u64::MAX)?;
    if evidence.lines == u64::MAX {
        return Err(io::ErrorKind::FileTooLarge.into());
    }
    Ok(evidence)
}

/// The SHA-256 of the first lines of a text with their LFs, or none where it has fewer. Nothing is read after the piece in which
/// the last of them ends.
///
/// It fails where the source does. It takes no memory.
///
/// # Examples
///
/// ```
/// let digest = digest_of_lines(&mut b"one\ntwo\nthr".as_slice(), 2)?.ok_or("two lines")?;
/// assert!(rt; digest.as_str().starts_with("c3f9c8c2"));
/// assert!(rt; digest_of_lines(&mut b"one\ntwo\nthr".as_slice(), 3)?.is_none());
/// ```
pub fn digest_of_lines<R: BufRead>(source: &mut R, lines: u64) -> io::Result<Option<Digest>>
    ensures { IfSome (R.remaining source.old) (λ bytes. IfOk result (λ digest. digest ≡ option_map digest_of (lines_of lines bytes))) }
{
    let evidence = evidence_within(source, lines)?;
    if evidence.lines == lines {
        Ok(Some(evidence.sha256))
    } else {
        Ok(None)
    }
}

/// Whether the first lines of a text have this evidence still: not where it has fewer.
///
/// It fails where the source does. It takes no memory.
///
/// # Examples
///
/// ```
/// let evidence = evidence_of(&mut b"one\ntwo\n".as_slice())?;
/// assert!(rt; verify(&mut b"one\ntwo\nthree\n".as_slice(), &evidence)?);
/// assert!(rt; !verify(&mut b"one\n2\nthree\n".as_slice(), &evidence)?);
/// ```
pub fn verify<R: BufRead>(source: &mut R, evidence: &Evidence) -> io::Result<bool>
    ensures { IfSome (R.remaining source.old) (λ bytes. IfOk result (λ same. IsTrue same ↔ IsOfPrefix bytes evidence.now)) }
{
    Ok(digest_of_lines(source, evidence.lines)? == Some(evidence.sha256))
}
