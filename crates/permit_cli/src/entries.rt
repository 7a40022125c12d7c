//! The entries of a history, printed, and how many of its commands a database lacks.

ghost use Rattle.std.specs.Prelude.{◌≡◌, ◌⊎◌, IfErr, IfOk, OnOk};
ghost use Rattle.permit_chronicle.specs.Telling.{WritesLines, WritesSome, no_roles};
ghost use Rattle.permit_chronicle.specs.declared.wanted.Wanted.{Wanted as TheWanted};
ghost use Rattle.permit_subcommands.specs.Failures.{IsUnread};
ghost use Rattle.permit_subcommands.specs.declared.failure.Failure.TheVariants as failure;
ghost use Rattle.permit_database.specs.Failing.{IsOfHistory, IsUnusable};
ghost use Rattle.permit_cli.specs.Doing.{ComesTo, IsTelling};
ghost use Rattle.permit_cli.specs.Failing.{FailsAs, FailsToTell};
ghost use Rattle.permit_cli.specs.Streams.{printed};
ghost use Rattle.permit_cli.specs.Wanting.{lacking_by, Wants};

use crate::checks::place_at;
use crate::database::has_database;
use crate::reading::{reading_at, verified_at};
use crate::stream::Stream;
use permit_args::plan::{HistoryPaths, HistoryWords, Plan};
use permit_base::values::{FileId, ParcelId, PartyId};
use permit_chronicle::tell;
use permit_chronicle::wanted::Wanted;
use permit_database::failing::of_telling;
use permit_database::outcome::Outcome;
use permit_replay::opening::placing::Place;
use permit_subcommands::days::dated;
use permit_subcommands::failure::Failure;

/// Which entries the words want.
fn wanted(words: &HistoryWords<'_>) -> Result<Wanted, Failure>
    ensures wants { IfOk result (Wants words.now) }
    ensures fails { IfErr result (λ why. why ≡ failure.Day) }
{
    let since = match words.since {
        Some(date) => Some(dated(date)?),
        None => None,
    };
    Ok(Wanted {
        since,
        file: words.file.and_then(FileId::new),
        parcel: words.parcel.and_then(ParcelId::new),
        party: words.party.and_then(PartyId::new),
    })
}

/// How many lines of a text are beyond the tables that have this place in it.
fn lacking_by(place: &Place) -> u64
    ensures { result ≡ lacking_by place.now }
{
    match place.stood {
        Some(stood) => place.lines.saturating_sub(stood),
        None => place.lines,
    }
}

/// How many of the last commands of the history at a path the tables of a database lack, which both are only read. No database is made
/// where there is none.
fn lacking_at(rt: &HostRuntime, db: &str, path: &str) -> Result<u64, Failure>
    ensures { IfErr result (λ why. IsUnusable why ⊎ (IsOfHistory why ⊎ IsUnread path.now why)) }
{
    if let Err(why) = has_database(rt, db) {
        return Err(why);
    }
    let history = HistoryPaths {
        text: path,
        copy: None,
    };
    match place_at(rt, db, history) {
        Ok(place) => Ok(lacking_by(&place)),
        Err(why) => Err(why),
    }
}

/// What is reported of the entries that are printed, once a database that is named is looked into.
fn telling_at(rt: &HostRuntime, words: &HistoryWords<'_>) -> Result<Outcome, Failure>
    ensures tells { IfOk result (IsTelling words.now.db) }
    ensures fails { IfErr result (FailsToTell words.now) }
{
    match words.db {
        Some(db) => match lacking_at(rt, db, words.history) {
            Ok(lacking) => Ok(Outcome::ToldBeside(lacking)),
            Err(why) => Err(why),
        },
        None => Ok(Outcome::Told),
    }
}

/// Writes the lines of the wanted entries of the history at a path.
fn write_entries(
    rt: &HostRuntime,
    path: &str,
    wanted: &Wanted,
    out: &mut Stream,
) -> Result<(), Failure>
    ensures writes { OnOk result (WritesLines wanted.now no_roles (printed out.old) (printed out.new)) }
    ensures fails { IfErr result (λ why. ((IsOfHistory why ⊎ IsUnread path.now why) ⊎ (why ≡ failure.Output))
        × ((printed out.new ≡ printed out.old) ⊎ WritesSome wanted.now no_roles (printed out.old) (printed out.new))) }
{
    let mut source = reading_at(rt, path)?;
    match tell(rt.alloc(), &mut source, wanted, out) {
        Ok(()) => Ok(()),
        Err(fault) => Err(of_telling(&fault)),
    }
}

/// Prints the wanted entries of a history, a line each.
fn tell_entries(
    rt: &HostRuntime,
    words: &HistoryWords<'_>,
    out: &mut Stream,
) -> Result<Outcome, Failure>
    ensures tells { IfOk result (λ done. IsTelling words.now.db done
        × ((wanted : TheWanted) × Wants words.now wanted × WritesLines wanted no_roles (printed out.old) (printed out.new))) }
    ensures fails { IfErr result (FailsAs (Plan.History words.now) (printed out.old) (printed out.new)) }
{
    let wanted = match wanted(words) {
        Ok(wanted) => wanted,
        Err(why) => return Err(why),
    };
    let told = match telling_at(rt, words) {
        Ok(told) => told,
        Err(why) => return Err(why),
    };
    match write_entries(rt, words.history, &wanted, out) {
        Ok(()) => Ok(told),
        Err(why) => Err(why),
    }
}

/// Prints the entries of a history, or tests whether its first lines are as they were.
pub(crate) fn tell_history(
    rt: &HostRuntime,
    words: &HistoryWords<'_>,
    out: &mut Stream,
) -> Result<Outcome, Failure>
    ensures tells { IfOk result (ComesTo (Plan.History words.now) (printed out.old) (printed out.new)) }
    ensures fails { IfErr result (FailsAs (Plan.History words.now) (printed out.old) (printed out.new)) }
{
    match words.verify {
        Some(verify) => verified_at(rt, words.history, verify),
        None => tell_entries(rt, words, out),
    }
}
