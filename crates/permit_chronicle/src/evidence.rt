//! What is said of a text beside its entries: its evidence, and what a database's tables lack of it.

ghost use Rattle.std.specs.Prelude.{◌≡◌, IfOk, string_bytes};
ghost use Rattle.permit_chronicle.specs.Evidence.{evidence_line, lacks_line, verified_line};

use permit_history::Evidence;
use std::alloc::{AllocError, Global};

/// The line of the evidence of a text, with its LF: how many lines it has, and their SHA-256.
///
/// # Examples
///
/// ```
/// let evidence = evidence_of(&mut b"one\ntwo\n".as_slice())?;
/// let text = evidence_text(alloc, &evidence)?;
/// assert!(rt; text.as_str().starts_with("history lines 2 sha256 c3f9c8c2"));
/// ```
pub fn evidence_text(alloc: Global, evidence: &Evidence) -> Result<String, AllocError>
    ensures { IfOk result (λ text. string_bytes text ≡ evidence_line evidence.now) }
{
    let lines = evidence.lines;
    let sha256 = evidence.sha256.as_str();
    format!(in alloc; "history lines {lines} sha256 {sha256}\n")
}

/// The line that so many lines of a text are those that they were, with its LF.
///
/// # Examples
///
/// ```
/// assert!(rt; verified_text(alloc, 2)?.as_str() == "verified lines 2\n");
/// ```
pub fn verified_text(alloc: Global, lines: u64) -> Result<String, AllocError>
    ensures { IfOk result (λ text. string_bytes text ≡ verified_line lines) }
{
    format!(in alloc; "verified lines {lines}\n")
}

/// What is said where a database's tables lack the last commands of a text, so many, with its LF.
///
/// # Examples
///
/// ```
/// assert!(rt; lacks_text(alloc, 2)?.as_str() == "history: the tables lack 2 commands\n");
/// ```
pub fn lacks_text(alloc: Global, commands: u64) -> Result<String, AllocError>
    ensures { IfOk result (λ text. string_bytes text ≡ lacks_line commands) }
{
    format!(in alloc; "history: the tables lack {commands} commands\n")
}
