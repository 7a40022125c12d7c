//! Testing the tables of a database, and comparing them with those of a history.

ghost use Rattle.std.specs.Prelude.{◌≡◌, ◌⊎◌, IfErr, IfOk, Some};
ghost use Rattle.permit_history.specs.declared.evidence.Evidence.{Evidence as TheEvidence};
ghost use Rattle.permit_database.specs.Doing.{IsCheck, IsPlaced};
ghost use Rattle.permit_database.specs.Failing.{IsOfHistory, IsUnusable};
ghost use Rattle.permit_replay.specs.declared.alike.differing.Difference.{Difference as TheDifference};
ghost use Rattle.permit_cli.specs.Doing.{ChecksAs, ChecksBy};
ghost use Rattle.permit_cli.specs.Failing.{AreUnread, IsUnkept};

use crate::database::{done_at, has_database};
use crate::history::beginning_at;
use crate::reading::{evidence_at, reading_at};
use crate::stream::Stream;
use permit_args::plan::{CheckDbWords, HistoryPaths};
use permit_database::outcome::Outcome;
use permit_database::work::Work;
use permit_replay::opening::placing::Place;
use permit_store::rows::Desk;
use permit_subcommands::failure::{Failure, HistoryFailure};

/// Tests the tables of a database by its rules. None is made where there is none.
fn check_alone(rt: &HostRuntime, words: &CheckDbWords<'_>) -> Result<Outcome, Failure>
    ensures checks { IfOk result (IsCheck words.now.why) }
    ensures fails { IfErr result IsUnusable }
{
    has_database(rt, words.db)?;
    let work = Work::Check { why: words.why };
    done_at(rt, words.db, work, &mut Stream::Sink, &mut Stream::Sink)
}

/// The place of the tables of the database at a path in the text of its history: they may be those of a first part of it, since an
/// opening redoes the rest. Both are only read.
pub(crate) fn place_at(
    rt: &HostRuntime,
    db: &str,
    history: HistoryPaths<'_>,
) -> Result<Place, Failure>
    ensures placed { IfOk result IsPlaced }
    ensures fails { IfErr result (λ why. IsUnusable why ⊎ (IsOfHistory why ⊎ AreUnread history.entry why)) }
{
    let beginning = match beginning_at(rt, db, history) {
        Ok(beginning) => beginning,
        Err(why) => return Err(why),
    };
    let source = reading_at(rt, history.text)?;
    let work = Work::Compare { beginning, source };
    match done_at(rt, db, work, &mut Stream::Sink, &mut Stream::Sink) {
        Ok(Outcome::Standing(place)) => Ok(place),
        Ok(_) => unreachable!(),
        Err(why) => Err(why),
    }
}

/// The evidence of the lines of a history whose tables the database at a path has, which are sound and count so.
fn compare(
    rt: &HostRuntime,
    db: &str,
    desk: Desk,
    history: HistoryPaths<'_>,
) -> Result<Outcome, Failure>
    ensures sound { IfOk result (λ done. (evidence : TheEvidence) × (done ≡ Outcome.SoundBeside desk evidence)) }
    ensures fails { IfErr result (λ why. IsUnusable why ⊎ (IsOfHistory why ⊎ AreUnread history.entry why)) }
{
    let place = match place_at(rt, db, history) {
        Ok(place) => place,
        Err(why) => return Err(why),
    };
    let Some(stood) = place.stood else {
        unreachable!()
    };
    match evidence_at(rt, history.text, stood) {
        Ok(evidence) => Ok(Outcome::SoundBeside(desk, evidence)),
        Err(why) => Err(why),
    }
}

/// The first place at which the tables of the database at a path differ from those of a history.
fn difference(rt: &HostRuntime, db: &str, history: HistoryPaths<'_>) -> Result<Outcome, Failure>
    ensures names { IfOk result (λ done. (place : TheDifference) × (done ≡ Outcome.Differing place)) }
    ensures fails { IfErr result (λ why. IsUnusable why ⊎ (IsOfHistory why ⊎ AreUnread history.entry why)) }
{
    let beginning = match beginning_at(rt, db, history) {
        Ok(beginning) => beginning,
        Err(why) => return Err(why),
    };
    let source = reading_at(rt, history.text)?;
    let work = Work::Difference { beginning, source };
    match done_at(rt, db, work, &mut Stream::Sink, &mut Stream::Sink) {
        Ok(Outcome::Differing(place)) => Ok(Outcome::Differing(place)),
        Ok(_) => Err(Failure::History(HistoryFailure::Differs)),
        Err(why) => Err(why),
    }
}

/// Compares the tables of a database, which are sound and count so, with those of a history. Where they differ, the first place is
/// named if that is asked for.
fn compare_or_name(
    rt: &HostRuntime,
    words: &CheckDbWords<'_>,
    history: HistoryPaths<'_>,
    desk: Desk,
) -> Result<Outcome, Failure>
    ensures checks { IfOk result (ChecksBy (Some history.entry) words.now.why) }
    ensures fails { IfErr result (λ why. IsUnusable why ⊎ (IsOfHistory why ⊎ AreUnread history.entry why)) }
{
    match compare(rt, words.db, desk, history) {
        Err(Failure::History(HistoryFailure::Differs)) if words.why => difference(
            rt, words.db, history,
        ),
        compared => compared,
    }
}

/// Tests the tables of a database, and where a history is named whether they are its own. Where they aren't, it names the first
/// place if that is asked for.
pub(crate) fn check_db(rt: &HostRuntime, words: &CheckDbWords<'_>) -> Result<Outcome, Failure>
    ensures checks { IfOk result (ChecksAs words.now) }
    ensures fails { IfErr result (λ why. IsUnusable why ⊎ IsUnkept words.now.history why) }
{
    let checked = match check_alone(rt, words) {
        Ok(checked) => checked,
        Err(why) => return Err(why),
    };
    let Some(history) = words.history else {
        return Ok(checked);
    };
    match &checked {
        Outcome::Sound(desk) => compare_or_name(rt, words, history, *desk),
        _ => Ok(checked),
    }
}
