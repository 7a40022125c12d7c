//! The text of a history, which is only read.

ghost use Rattle.std.specs.Prelude.{◌≡◌, ◌⊎◌, Err, IfErr, IfOk, IfSome, OnOk};
ghost use Rattle.permit_history.specs.Evidence.{IsOfPrefix};
ghost use Rattle.permit_subcommands.specs.Failures.{IsUnread};
ghost use Rattle.permit_subcommands.specs.declared.failure.Failure.TheVariants.{History};
ghost use Rattle.permit_subcommands.specs.declared.failure.HistoryFailure.TheVariants.{Changed};
ghost use Rattle.permit_database.specs.Failing.{IsOfHistory};

use permit_args::plan::VerifyWords;
use permit_database::outcome::Outcome;
use permit_history::{Evidence, digest_of_lines, settled_length, verify};
use permit_subcommands::failure::{Failure, HistoryFailure};
use std::fs::{self, File};
use std::io::{self, BufRead, BufReader, ErrorKind, Read, Take};
use std::os::unix::fs::MetadataExt;

/// A reading of a text, or of its first bytes.
pub(crate) type Reading = Take<BufReader<File>>;

/// Opens the file of a history at a path to be read. As where it is kept, it has to be a file with one name: one that waits, as a pipe,
/// isn't opened.
fn opened(rt: &HostRuntime, path: &str) -> io::Result<File> {
    let found = fs::metadata(rt, path)?;
    if !found.is_file() || found.nlink() != 1 {
        return Err(ErrorKind::Unsupported.into());
    }
    File::open(rt, path)
}

/// A reading of the first bytes of the history at a path.
pub(crate) fn reading_of(rt: &HostRuntime, path: &str, length: u64) -> Result<Reading, Failure>
    ensures { IfErr result (IsUnread path.now) }
{
    match opened(rt, path) {
        Ok(file) => match BufReader::new(rt.alloc(), file) {
            Ok(source) => Ok(source.take(length)),
            Err(_) => Err(Failure::memory()),
        },
        Err(error) => Err(Failure::of_reading(rt.alloc(), path, &error)),
    }
}

/// A reading of the history at a path.
pub(crate) fn reading_at(rt: &HostRuntime, path: &str) -> Result<Reading, Failure>
    ensures { IfErr result (IsUnread path.now) }
{
    reading_of(rt, path, u64::MAX)
}

/// How many bytes the lines of the history at a path have without the last one, which alone may still be taken back.
pub(crate) fn settled_at(rt: &HostRuntime, path: &str) -> Result<u64, Failure>
    ensures { IfErr result (λ why. IsOfHistory why ⊎ IsUnread path.now why) }
{
    match reading_at(rt, path) {
        Ok(mut source) => match settled_length(&mut source) {
            Ok(length) => Ok(length),
            Err(_) => Err(Failure::History(HistoryFailure::Store)),
        },
        Err(why) => Err(why),
    }
}

/// The evidence of the first lines of a text, whose tables an office has. A text that has fewer by now isn't the office's.
pub(crate) fn evidence_in<R: BufRead>(source: &mut R, lines: u64) -> Result<Evidence, Failure>
    ensures lines { IfOk result (λ evidence. evidence.lines ≡ lines) }
    ensures sha256 { IfSome (R.remaining source.old) (λ bytes. IfOk result (IsOfPrefix bytes)) }
    ensures fails { IfErr result IsOfHistory }
{
    match digest_of_lines(source, lines) {
        Ok(Some(sha256)) => Ok(Evidence { lines, sha256 }),
        Ok(None) => Err(Failure::History(HistoryFailure::Differs)),
        Err(_) => Err(Failure::History(HistoryFailure::Store)),
    }
}

/// The same of the history at a path.
pub(crate) fn evidence_at(rt: &HostRuntime, path: &str, lines: u64) -> Result<Evidence, Failure>
    ensures { IfErr result (λ why. IsOfHistory why ⊎ IsUnread path.now why) }
{
    match reading_at(rt, path) {
        Ok(mut source) => match evidence_in(&mut source, lines) {
            Ok(evidence) => Ok(evidence),
            Err(why) => Err(why),
        },
        Err(why) => Err(why),
    }
}

/// That the first lines of a text have their evidence still.
fn verified_in<R: BufRead>(source: &mut R, evidence: &Evidence) -> Result<Outcome, Failure>
    ensures verified { IfOk result (λ done. done ≡ Outcome.Verified evidence.now.lines) }
    ensures same { IfSome (R.remaining source.old) (λ bytes. OnOk result (IsOfPrefix bytes evidence.now)) }
    ensures changed { IfSome (R.remaining source.old) (λ bytes. result ≡ Err (History Changed) → ¬ IsOfPrefix bytes evidence.now) }
    ensures fails { IfErr result IsOfHistory }
{
    match verify(source, evidence) {
        Ok(true) => Ok(Outcome::Verified(evidence.lines)),
        Ok(false) => Err(Failure::History(HistoryFailure::Changed)),
        Err(_) => Err(Failure::History(HistoryFailure::Store)),
    }
}

/// That the first lines of the history at a path are as they were.
pub(crate) fn verified_at(
    rt: &HostRuntime,
    path: &str,
    words: VerifyWords,
) -> Result<Outcome, Failure>
    ensures verified { IfOk result (λ done. done ≡ Outcome.Verified words.lines) }
    ensures fails { IfErr result (λ why. IsOfHistory why ⊎ IsUnread path.now why) }
{
    let VerifyWords { lines, sha256 } = words;
    match reading_at(rt, path) {
        Ok(mut source) => match verified_in(&mut source, &Evidence { lines, sha256 }) {
            Ok(verified) => Ok(verified),
            Err(why) => Err(why),
        },
        Err(why) => Err(why),
    }
}
