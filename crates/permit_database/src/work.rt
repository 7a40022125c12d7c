//! What is to be done on a database, as one value.
//!
//! A call of a function that is generic over the store, with the store of a file, costs the prover half a minute. So the program
//! calls `done_in` there once, for all of this.

ghost use Rattle.std.specs.Prelude.{◌≡◌, ◌⊎◌, true, IfErr, IfOk};
ghost use Rattle.permit_database.specs.Doing.{IsBegin, IsCheck, IsReplay, IsStood, SaysOpening};
ghost use Rattle.permit_database.specs.Failing.{IsUnfounded, IsUnrenewed, IsUnsettled, IsUnstarted, IsUnusable, OrOfHistory, OrOfText};
ghost use Rattle.permit_database.specs.Working.{ComesOf, FailsAt, SaysAt};

use crate::asking::ask_in;
use crate::comparing::{compare_in, difference_in};
use crate::copying::begin_in;
use crate::founding::{found_in, found_with};
use crate::maintenance::{check_in, renew_in, upgrade_in};
use crate::opening::{Recording, complete_in};
use crate::outcome::Outcome;
use crate::question::Question;
use crate::renewing::renew_recorded;
use crate::replaying::replay_in;
use permit_base::values::{Day, PartyId, Token};
use permit_journal::file::HistoryFile;
use permit_journal::journal::Journal;
use permit_policy::Policy;
use permit_replay::beginning::Beginning;
use permit_store::founder::Founder;
use permit_subcommands::failure::{Failure, HistoryFailure};
use permit_subcommands::refused::RefusalWord;
use sqlite::{Alter, Connection};
use std::alloc::Global;
use std::io::{BufRead, Read, Write};

/// What is to be done on a database. Where a history is kept, its file comes with it, or its journal, or readings of its text.
#[derive(Drop)]
pub enum Work<'a, H: HistoryFile + Drop, R: Drop, B: Drop> {
    /// To found an office, and to begin its history where a journal comes with it.
    Found {
        founder: &'a Founder,
        journal: Option<Journal<H>>,
    },
    /// To make of a database of the version before one of this version.
    Upgrade,
    /// To begin the history of the office. An older history that comes with it is redone first.
    Begin {
        journal: Journal<H>,
        old: Option<Recording<H>>,
    },
    /// To test the tables, and to name the first place that is wrong if that is asked for.
    Check {
        why: bool,
    },
    /// To look for the tables in the text of a history.
    Compare {
        beginning: Beginning,
        source: B,
    },
    /// To name the first place at which they differ from those of the whole text.
    Difference {
        beginning: Beginning,
        source: B,
    },
    /// To give a party a new token, and to enter that into the history where one comes with it.
    Renew {
        party: u32,
        token: &'a Token,
        history: Option<Recording<H>>,
    },
    /// To make an office of a history with this founder, or to bring the one that is there further. Of the text there are two
    /// readings.
    Replay {
        beginning: Beginning,
        founder: Option<Founder>,
        source: B,
        again: B,
    },
    /// To ask the office on the day, and to enter what is done into the history where one comes with it.
    Ask {
        policy: Policy,
        day: Day,
        question: Question<'a, R>,
        history: Option<Recording<H>>,
    },
}

impl<H: HistoryFile + Drop, R: Drop, B: Drop> Work<'_, H, R, B> {
    /// Whether it reads the database alone.
    pub fn only_reads(&self) -> bool {
        matches!(
            self,
            Work::Check { .. } | Work::Compare { .. } | Work::Difference { .. }
        )
    }
}

/// Founds an office in a database, and begins its history where a journal comes with it.
fn founded_in<S: Alter + Drop, H: HistoryFile + Drop>(
    alloc: Global,
    conn: Connection<S>,
    founder: &Founder,
    journal: Option<Journal<H>>,
) -> (Connection<S>, Result<Outcome, Failure>)
    ensures founds { IfOk result.1 (λ done. done ≡ Outcome.Founded) }
    ensures fails { IfErr result.1 (λ why. OrOfHistory journal (IsUnfounded why) why) }
{
    let Some(mut journal) = journal else {
        return found_in(alloc, conn, founder);
    };
    let (conn, founded) = found_with(alloc, conn, &mut journal, founder);
    match founded {
        Ok(()) => (conn, Ok(Outcome::Founded)),
        Err(why) => (conn, Err(why)),
    }
}

/// Gives a party of the office in a database a new token, and enters that into its history where one comes with it. A number that no
/// party can have is refused as one that no party has.
fn renewed_in<S: Alter + Drop, H: HistoryFile + Drop, E: Write>(
    alloc: Global,
    conn: Connection<S>,
    party: u32,
    token: &Token,
    history: Option<Recording<H>>,
    err: &mut E,
) -> (Connection<S>, Result<Outcome, Failure>)
    ensures renews { IfOk result.1 (λ done. done ≡ Outcome.Renewed party) }
    ensures fails { IfErr result.1 (λ why. OrOfText history (IsUnrenewed why) why) }
    ensures says { SaysOpening history (E.contents err.old) (E.contents err.new) }
{
    let Some(history) = history else {
        return renew_in(alloc, conn, party, token);
    };
    let Some(party) = PartyId::new(party) else {
        drop(history);
        return (conn, Err(Failure::plain(RefusalWord::Record)));
    };
    let (conn, file, renewed) = renew_recorded(alloc, conn, history, party, token, err);
    drop(file);
    match renewed {
        Ok(()) => (conn, Ok(Outcome::Renewed(party.get()))),
        Err(why) => (conn, Err(why)),
    }
}

/// Brings the office in a database to the end of an older history, where one comes with it.
fn completed_in<S: Alter + Drop, H: HistoryFile + Drop, E: Write>(
    alloc: Global,
    conn: Connection<S>,
    old: Option<Recording<H>>,
    err: &mut E,
) -> (Connection<S>, Result<(), Failure>)
    ensures fails { IfErr result.1 IsUnsettled }
    ensures says { SaysOpening old (E.contents err.old) (E.contents err.new) }
{
    match old {
        None => (conn, Ok(())),
        Some(history) => {
            let (conn, file, completed) = complete_in(alloc, conn, history, err);
            drop(file);
            (conn, completed)
        }
    }
}

/// Begins the history of the office in a database, which is brought to the end of an older history first, where one comes with it.
fn begun_in<S: Alter + Drop, H: HistoryFile + Drop, E: Write>(
    alloc: Global,
    conn: Connection<S>,
    journal: Journal<H>,
    old: Option<Recording<H>>,
    err: &mut E,
) -> (Connection<S>, Result<Outcome, Failure>)
    ensures begins { IfOk result.1 IsBegin }
    ensures fails { IfErr result.1 (λ why. IsUnsettled why ⊎ IsUnstarted why) }
    ensures says { SaysOpening old (E.contents err.old) (E.contents err.new) }
{
    let (conn, completed) = completed_in(alloc, conn, old, err);
    if let Err(why) = completed {
        return (conn, Err(why));
    }
    let mut journal = journal;
    let (conn, begun) = begin_in(alloc, conn, &mut journal);
    (conn, begun.map(Outcome::Begun))
}

/// Looks for the tables of a database in the text of a history.
fn compared_in<S: Alter + Drop, B: BufRead + Drop>(
    alloc: Global,
    conn: Connection<S>,
    beginning: Beginning,
    source: B,
) -> (Connection<S>, Result<Outcome, Failure>)
    ensures standing { IfOk result.1 IsStood }
    ensures fails { IfErr result.1 IsUnsettled }
{
    let (conn, compared) = compare_in(alloc, conn, beginning, source);
    (conn, compared.map(Outcome::Standing))
}

/// Names the first place at which the tables of a database differ from those of a history.
fn differing_in<S: Alter + Drop, B: BufRead + Drop>(
    alloc: Global,
    conn: Connection<S>,
    beginning: Beginning,
    source: B,
) -> (Connection<S>, Result<Outcome, Failure>)
    ensures names { IfOk result.1 (IsCheck true) }
    ensures fails { IfErr result.1 IsUnsettled }
{
    let (conn, found) = difference_in(alloc, conn, beginning, source);
    match found {
        Ok(Some(place)) => (conn, Ok(Outcome::Differing(place))),
        Ok(None) => (conn, Err(Failure::History(HistoryFailure::Differs))),
        Err(why) => (conn, Err(why)),
    }
}

/// Makes an office in a database of a history with this founder, or brings the one that is there further.
fn replayed_in<S: Alter + Drop, B: BufRead + Drop>(
    alloc: Global,
    conn: Connection<S>,
    founder: Option<Founder>,
    beginning: Beginning,
    source: B,
    again: B,
) -> (Connection<S>, Result<Outcome, Failure>)
    ensures replays { IfOk result.1 IsReplay }
    ensures fails { IfErr result.1 IsUnsettled }
{
    let (conn, brought) = replay_in(alloc, conn, &founder, beginning, source, again);
    (conn, brought.map(Outcome::Replayed))
}

/// Does the work on a database. A register and the lines of an import are written to `out` on the way, and to `err` how many lines of a
/// history were redone, and why records are refused, where that is asked for.
pub fn done_in<S, H, R, B, O, E>(
    alloc: Global,
    conn: Connection<S>,
    work: Work<'_, H, R, B>,
    out: &mut O,
    err: &mut E,
) -> (Connection<S>, Result<Outcome, Failure>)
where
    S: Alter + Drop,
    H: HistoryFile + Drop,
    R: Read + Drop,
    B: BufRead + Drop,
    O: Write,
    E: Write,
    ensures comes { IfOk result.1 (ComesOf work.entry (O.contents out.old) (O.contents out.new)) }
    ensures fails { IfErr result.1 (FailsAt work.entry (O.contents out.old) (O.contents out.new)) }
    ensures says { SaysAt work.entry (E.contents err.old) (E.contents err.new) }
{
    match work {
        Work::Found { founder, journal } => founded_in(alloc, conn, founder, journal),
        Work::Upgrade => upgrade_in(alloc, conn),
        Work::Begin { journal, old } => begun_in(alloc, conn, journal, old, err),
        Work::Check { why } => check_in(alloc, conn, why),
        Work::Compare { beginning, source } => compared_in(alloc, conn, beginning, source),
        Work::Difference { beginning, source } => differing_in(alloc, conn, beginning, source),
        Work::Renew {
            party,
            token,
            history,
        } => renewed_in(alloc, conn, party, token, history, err),
        Work::Replay {
            beginning,
            founder,
            source,
            again,
        } => replayed_in(alloc, conn, founder, beginning, source, again),
        Work::Ask {
            policy,
            day,
            question,
            history,
        } => ask_in(alloc, conn, policy, day, question, history, out, err),
    }
}
