//! The history that an office is to keep, and one that lies beside its database and isn't named.

ghost use Rattle.std.specs.Prelude.{◌≡◌, ◌↔◌, ℕ, List, IfErr, IfNone, IfOk, IfSome, IsSome, string_bytes};
ghost use Rattle.permit_args.specs.Keepings.{named_history};
ghost use Rattle.permit_cli.specs.Failing.{IsUnfinished, IsUnkeptBy, IsUnused};
ghost use Rattle.permit_cli.specs.Keeping.{IsBeside};

use crate::history::{HistoryOnDisk, recording_at};
use permit_args::plan::{HistoryPaths, Keeping};
use permit_database::opening::Recording;
use permit_subcommands::failure::{Failure, HistoryFailure};
use std::alloc::{AllocError, Global};
use std::fs;

/// The path at which a history lies beside a database, as `office.history` beside `office.db`; none where the database's name has
/// another form.
pub(crate) fn beside(alloc: Global, db: &str) -> Result<Option<String>, AllocError>
    ensures beside { IfOk result (λ found. IfSome found (λ path. IsBeside db.now (string_bytes path))) }
    ensures none { IfOk result (λ found. IfNone found ((path : List ℕ) → ¬ IsBeside db.now path)) }
{
    match db.strip_suffix(".db") {
        Some(stem) if !stem.is_empty() && !stem.ends_with('/') => {
            Ok(Some(format!(in alloc; "{stem}.history")?))
        }
        _ => Ok(None),
    }
}

/// Whether something is at a path.
fn is_there(rt: &HostRuntime, path: &str) -> bool {
    fs::symlink_metadata(rt, path).is_ok()
}

/// The path of the copy of the database with which the history at a path begins, as `office.begun` beside `office.history`, if one is
/// there.
fn copy_beside(rt: &HostRuntime, text: &str) -> Result<Option<String>, AllocError> {
    let Some(stem) = text.strip_suffix(".history") else {
        return Ok(None);
    };
    let path = format!(in rt.alloc(); "{stem}.begun")?;
    Ok(Some(path).filter(|path| is_there(rt, path.as_str())))
}

/// The paths of a history that lies beside a database, and of the copy of the database with which it begins.
#[derive(Drop)]
struct OlderHistory {
    text: String,
    copy: Option<String>,
}

impl OlderHistory {
    fn paths(&self) -> HistoryPaths<'_> {
        HistoryPaths {
            text: self.text.as_str(),
            copy: match &self.copy {
                Some(copy) => Some(copy.as_str()),
                None => None,
            },
        }
    }
}

/// The history that lies beside a database; none where none lies there, and where that is the new one.
fn older_than(rt: &HostRuntime, db: &str, new: &str) -> Result<Option<OlderHistory>, AllocError> {
    let Some(text) = beside(rt.alloc(), db)? else {
        return Ok(None);
    };
    if text.as_str() == new || !is_there(rt, text.as_str()) {
        return Ok(None);
    }
    let copy = copy_beside(rt, text.as_str())?;
    Ok(Some(OlderHistory { text, copy }))
}

/// The file of the history that lies beside a database, and what its text may begin with, as by `recording_at`; none where none lies
/// there, and where that is the new one.
pub(crate) fn old_at(
    rt: &HostRuntime,
    db: &str,
    new: &str,
) -> Result<Option<Recording<HistoryOnDisk>>, Failure>
    ensures { IfErr result IsUnfinished }
{
    match older_than(rt, db, new) {
        Ok(Some(found)) => recording_at(rt, db, Some(found.paths())),
        Ok(None) => Ok(None),
        Err(_) => Err(Failure::memory()),
    }
}

/// The history that is named. Where nothing is said of one, none may lie beside the database.
pub(crate) fn keeping_at<H>(
    rt: &HostRuntime,
    db: &str,
    keeping: Keeping<H>,
) -> Result<Option<H>, Failure>
    ensures named { IfOk result (λ history. history ≡ named_history keeping) }
    ensures fails { IfErr result (IsUnused keeping) }
{
    match keeping {
        Keeping::With(history) => Ok(Some(history)),
        Keeping::Without => Ok(None),
        Keeping::Unsaid => match beside(rt.alloc(), db) {
            Ok(Some(path)) if is_there(rt, path.as_str()) => {
                Err(Failure::History(HistoryFailure::Unused))
            }
            Ok(_) => Ok(None),
            Err(_) => Err(Failure::memory()),
        },
    }
}

/// The file of the history that is named, and what its text may begin with, as by `recording_at`; none where none is to be kept.
pub(crate) fn kept_at(
    rt: &HostRuntime,
    db: &str,
    keeping: Keeping<HistoryPaths<'_>>,
) -> Result<Option<Recording<HistoryOnDisk>>, Failure>
    ensures named { IfOk result (λ recording. IsSome recording ↔ IsSome (named_history keeping.entry)) }
    ensures fails { IfErr result (IsUnkeptBy keeping.entry) }
{
    match keeping_at(rt, db, keeping) {
        Ok(history) => match recording_at(rt, db, history) {
            Ok(recording) => Ok(recording),
            Err(why) => Err(why),
        },
        Err(why) => Err(why),
    }
}
