//! What is printed of an outcome or a failure, and the program's status.

ghost use Rattle.std.specs.Prelude.{◌≡◌, ◌≤◌, ◌++◌, IfOk, Ok, string_bytes};
ghost use Rattle.permit_chronicle.specs.Evidence.{evidence_line};
ghost use Rattle.permit_subcommands.specs.Lines.{sound_line};
ghost use Rattle.permit_subcommands.specs.Printing.{TellsNoPlan};
ghost use Rattle.permit_cli.specs.Telling.{begun_line, difference_text, party_line, replayed_line, IsTold, MakesAndPrints, NamesPlace, PrintsThen, SaysLacking, SaysNoPlan, TellsBegun};

use crate::complaining::{complain, print_number, print_three, print_two};
use permit_args::plan::PlanFault;
use permit_base::values::Day;
use permit_chronicle::{evidence_text, lacks_text, verified_text};
use permit_database::outcome::Outcome;
use permit_days::dates::date_text;
use permit_history::Evidence;
use permit_replay::alike::differing::Difference;
use permit_replay::opening::bringing::Brought;
use permit_sql::fault::Fault;
use permit_store::rows::Desk;
use permit_store::store::OpenError;
use permit_subcommands::answering::show;
use permit_subcommands::failure::{Failure, HistoryFailure, status_after};
use permit_subcommands::lines::{sound_text, upgraded_text};
use permit_subcommands::listing::listing_text;
use permit_subcommands::printing::{print_about, print_text};
use std::alloc::{AllocError, Global};
use std::io::Write;

/// Says why the words give no plan, or the help that they ask for.
pub(crate) fn without_plan<O: Write, E: Write>(fault: &PlanFault, out: &mut O, err: &mut E) -> u8
    ensures tells { TellsNoPlan fault.now (O.contents out.old) (O.contents out.new) result }
    ensures says { SaysNoPlan fault.now (E.contents err.old) (E.contents err.new) result }
{
    match fault {
        PlanFault::Help(text) => match print_text(out, text.as_str()) {
            Ok(()) => 0,
            Err(failure) => complain(&failure, err),
        },
        PlanFault::Words(text) => {
            let _ = print_text(err, text.as_str());
            2
        }
        PlanFault::Memory => complain(&Failure::memory(), err),
    }
}

/// Prints a text, after which the run ends with status 0.
fn tell_text<O: Write>(out: &mut O, text: &str) -> Result<u8, Failure>
    ensures { PrintsThen text.now (Ok 0) (O.contents out.old) (O.contents out.new) result }
{
    print_text(out, text)?;
    Ok(0)
}

/// Prints that tables are sound, and the evidence of the lines of a history whose tables they are. Both lines are made before the first
/// is printed.
fn tell_beside<O: Write>(
    alloc: Global,
    desk: &Desk,
    evidence: &Evidence,
    out: &mut O,
) -> Result<u8, Failure>
    ensures { MakesAndPrints (sound_line desk.now ++ evidence_line evidence.now) (Ok 0) (O.contents out.old) (O.contents out.new) result }
{
    let sound = sound_text(alloc, desk)?;
    let lines = evidence_text(alloc, evidence)?;
    print_two(out, sound.as_str(), lines.as_str())?;
    Ok(0)
}

/// Prints the number of a party, after which the run ends with status 0. No memory is taken for it.
fn tell_party<O: Write>(out: &mut O, party: u32) -> Result<u8, Failure>
    ensures { PrintsThen (party_line party) (Ok 0) (O.contents out.old) (O.contents out.new) result }
{
    print_number(out, "party ", u64::from(party), "\n")?;
    Ok(0)
}

/// Says the first place at which the database at a path is damaged. Without memory for its text nothing is said.
fn say_unsound<E: Write>(alloc: Global, path: &str, fault: Fault, err: &mut E)
    ensures { NamesPlace path.now (Outcome.Unsound fault) (E.contents err.old) (E.contents err.new) }
{
    if let Ok(text) = format!(in alloc; "{fault}") {
        let _ = print_about(err, path, text.as_str());
    }
}

/// The line on an office that has the tables of a history: how many lines that has, and how many of them are new.
fn replayed_text(alloc: Global, brought: &Brought) -> Result<String, AllocError>
    ensures { IfOk result (λ text. string_bytes text ≡ replayed_line brought.now) }
{
    let lines = brought.lines;
    let new = lines.saturating_sub(brought.stood);
    format!(in alloc; "replayed lines {lines} new {new}\n")
}

/// Prints that a history is begun on the day of a date.
fn tell_dated<O: Write>(out: &mut O, date: &str) -> Result<u8, Failure>
    ensures { PrintsThen (begun_line date.now) (Ok 0) (O.contents out.old) (O.contents out.new) result }
{
    print_three(out, "history begun ", date, "\n")?;
    Ok(0)
}

/// Prints that a history is begun on a day.
fn tell_begun<O: Write>(alloc: Global, day: Day, out: &mut O) -> Result<u8, Failure>
    ensures { TellsBegun day (O.contents out.old) (O.contents out.new) result }
{
    match date_text(alloc, day.get()) {
        Ok(date) => tell_dated(out, date.as_str()),
        Err(_) => Err(Failure::memory()),
    }
}

/// The first place at which tables differ from those of a history, in words.
fn difference_text(alloc: Global, place: Difference) -> Result<String, AllocError>
    ensures { IfOk result (λ text. string_bytes text ≡ difference_text place) }
{
    match place {
        Difference::Desk => format!(in alloc; "differs first in the last day or a count"),
        Difference::Party(number) => format!(in alloc; "differs first in party {number}"),
        Difference::Parcel(number) => format!(in alloc; "differs first in parcel {number}"),
        Difference::Interests => format!(in alloc; "differs first in the declared interests"),
        Difference::File(number) => format!(in alloc; "differs first in file {number}"),
    }
}

/// Says the first place at which the tables of the database at a path differ from those of a history. Without memory for its text
/// nothing is said.
fn say_differing<E: Write>(alloc: Global, path: &str, place: Difference, err: &mut E)
    ensures { NamesPlace path.now (Outcome.Differing place) (E.contents err.old) (E.contents err.new) }
{
    if let Ok(text) = difference_text(alloc, place) {
        let _ = print_about(err, path, text.as_str());
    }
}

/// Says how many of a history's commands the tables of a database lack, where they lack any. Without memory for its text nothing is
/// said.
fn say_lacking<E: Write>(alloc: Global, lacking: u64, err: &mut E)
    ensures { SaysLacking lacking (E.contents err.old) (E.contents err.new) }
{
    if lacking != 0
        && let Ok(text) = lacks_text(alloc, lacking)
    {
        let _ = print_text(err, text.as_str());
    }
}

/// Prints what a plan came to on the database at a path, and gives the status. The refusal that an answer has is the failure then,
/// and damage is once its place is said on `err`.
pub(crate) fn tell<O: Write, E: Write>(
    alloc: Global,
    path: &str,
    outcome: &Outcome,
    out: &mut O,
    err: &mut E,
) -> Result<u8, Failure>
    ensures told { IsTold outcome.now (O.contents out.old) (O.contents out.new) result }
    ensures named { NamesPlace path.now outcome.now (E.contents err.old) (E.contents err.new) }
    ensures within { IfOk result (λ status. status ≤ 1) }
{
    match outcome {
        Outcome::Name => tell_text(out, "permit\n"),
        Outcome::Checked(text) => tell_text(out, text.as_str()),
        Outcome::Founded => tell_text(out, "party 1\n"),
        Outcome::Upgraded(files) => tell_text(out, upgraded_text(alloc, *files)?.as_str()),
        Outcome::Sound(desk) => tell_text(out, sound_text(alloc, desk)?.as_str()),
        Outcome::SoundBeside(desk, evidence) => tell_beside(alloc, desk, evidence, out),
        Outcome::Unsound(fault) => {
            say_unsound(alloc, path, *fault, err);
            Err(Failure::Database(OpenError::Damaged))
        }
        Outcome::Differing(place) => {
            say_differing(alloc, path, *place, err);
            Err(Failure::History(HistoryFailure::Differs))
        }
        Outcome::Answered(answer) => {
            show(alloc, answer, out)?;
            Ok(0)
        }
        Outcome::Listed(listing) => tell_text(out, listing_text(alloc, listing)?.as_str()),
        Outcome::Registered | Outcome::Ended | Outcome::Told | Outcome::Standing(_) => Ok(0),
        Outcome::ToldBeside(lacking) => {
            say_lacking(alloc, *lacking, err);
            Ok(0)
        }
        Outcome::Verified(lines) => tell_text(out, verified_text(alloc, *lines)?.as_str()),
        Outcome::Imported(tally) => Ok(status_after(tally)),
        Outcome::Renewed(party) => tell_party(out, *party),
        Outcome::Begun(day) => tell_begun(alloc, *day, out),
        Outcome::Replayed(brought) => tell_text(out, replayed_text(alloc, brought)?.as_str()),
    }
}
