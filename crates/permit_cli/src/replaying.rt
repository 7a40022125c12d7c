//! Making an office of a history, or bringing one further to it.

ghost use Rattle.std.specs.Prelude.{◌≡◌, ◌⊎◌, IfErr, IfOk};
ghost use Rattle.permit_database.specs.Doing.{IsReplay};
ghost use Rattle.permit_database.specs.Failing.{IsOfHistory, IsUnusable};
ghost use Rattle.permit_cli.specs.Failing.{AreUnread};

use crate::checks::place_at;
use crate::database::done_at;
use crate::history::beginning_at;
use crate::reading::{reading_of, settled_at};
use crate::stream::Stream;
use permit_args::plan::{HistoryPaths, ReplayWords};
use permit_database::outcome::Outcome;
use permit_database::replaying::founder_told;
use permit_database::work::Work;
use permit_replay::opening::bringing::Brought;
use permit_store::founder::Founder;
use permit_subcommands::failure::{Failure, HistoryFailure};

/// How many bytes of a history are replayed: without its last line, unless that is settled.
fn length_of(rt: &HostRuntime, words: &ReplayWords<'_>) -> Result<u64, Failure>
    ensures { IfErr result (λ why. IsOfHistory why ⊎ AreUnread words.now.history why) }
{
    if words.settled {
        return Ok(u64::MAX);
    }
    settled_at(rt, words.history.text)
}

/// The founder that the first bytes of a history name; none where it begins with a copy of the database at a path. They are replayed
/// in memory.
fn founder_at(
    rt: &HostRuntime,
    db: &str,
    history: HistoryPaths<'_>,
    length: u64,
) -> Result<Option<Founder>, Failure>
    ensures { IfErr result (λ why. IsUnusable why ⊎ (IsOfHistory why ⊎ AreUnread history.entry why)) }
{
    let beginning = match beginning_at(rt, db, history) {
        Ok(beginning) => beginning,
        Err(why) => return Err(why),
    };
    let mut whole = reading_of(rt, history.text, length)?;
    let mut first = reading_of(rt, history.text, length)?;
    match founder_told(rt.alloc(), beginning, &mut whole, &mut first) {
        Ok(founder) => Ok(founder),
        Err(why) => Err(why),
    }
}

/// Makes an office with this founder in the database at a path of the first bytes of a history, or brings one further to them.
fn bring_at(
    rt: &HostRuntime,
    db: &str,
    history: HistoryPaths<'_>,
    length: u64,
    founder: Option<Founder>,
) -> Result<Outcome, Failure>
    ensures replays { IfOk result IsReplay }
    ensures fails { IfErr result (λ why. IsUnusable why ⊎ (IsOfHistory why ⊎ AreUnread history.entry why)) }
{
    let beginning = match beginning_at(rt, db, history) {
        Ok(beginning) => beginning,
        Err(why) => return Err(why),
    };
    let source = reading_of(rt, history.text, length)?;
    let again = reading_of(rt, history.text, length)?;
    let work = Work::Replay {
        beginning,
        founder,
        source,
        again,
    };
    match done_at(rt, db, work, &mut Stream::Sink, &mut Stream::Sink) {
        Ok(replayed) => Ok(replayed),
        Err(why) => Err(why),
    }
}

/// The same, with the founder that they name. They are replayed in memory before the database is opened.
fn replay_to(
    rt: &HostRuntime,
    db: &str,
    history: HistoryPaths<'_>,
    length: u64,
) -> Result<Outcome, Failure>
    ensures replays { IfOk result IsReplay }
    ensures fails { IfErr result (λ why. IsUnusable why ⊎ (IsOfHistory why ⊎ AreUnread history.entry why)) }
{
    match founder_at(rt, db, history, length) {
        Ok(founder) => bring_at(rt, db, history, length, founder),
        Err(why) => Err(why),
    }
}

/// Nothing is new in an office that has the tables of the whole history, with the line that isn't settled. Any other differs.
fn stands_at(rt: &HostRuntime, db: &str, history: HistoryPaths<'_>) -> Result<Outcome, Failure>
    ensures stands { IfOk result IsReplay }
    ensures fails { IfErr result IsOfHistory }
{
    if let Ok(place) = place_at(rt, db, history)
        && let Some(stood) = place.stood
    {
        return Ok(Outcome::Replayed(Brought {
            stood,
            lines: stood,
            length: place.length,
        }));
    }
    Err(Failure::History(HistoryFailure::Differs))
}

/// Makes an office of a history, or brings one further to it. Its last line is left out, unless that is settled.
pub(crate) fn replay(rt: &HostRuntime, words: &ReplayWords<'_>) -> Result<Outcome, Failure>
    ensures replays { IfOk result IsReplay }
    ensures fails { IfErr result (λ why. IsUnusable why ⊎ (IsOfHistory why ⊎ AreUnread words.now.history why)) }
{
    let length = match length_of(rt, words) {
        Ok(length) => length,
        Err(why) => return Err(why),
    };
    match replay_to(rt, words.db, words.history, length) {
        Err(Failure::History(HistoryFailure::Differs)) if !words.settled => {
            stands_at(rt, words.db, words.history)
        }
        replayed => replayed,
    }
}
