//! What is said of a failure on standard error, piece by piece, so that no memory is taken for its line.

ghost use Rattle.std.specs.Prelude.{◌≡◌, ◌++◌, codes, decimal};
ghost use Rattle.permit_import.specs.Refusals.{refused_line};
ghost use Rattle.permit_policy.specs.Fault.{fault_number};
ghost use Rattle.permit_subcommands.specs.Failures.{failure_line, failure_status, open_word};
ghost use Rattle.permit_subcommands.specs.Printing.{Prints};
ghost use Rattle.permit_subcommands.specs.declared.failure.Failure.TheVariants as failure;
ghost use Rattle.permit_cli.specs.Telling.{Complains};

use itoa::Buffer;
use permit_base::words::Word;
use permit_policy::fault::PolicyError;
use permit_store::store::OpenError;
use permit_subcommands::failure::{Failure, HistoryFailure};
use permit_subcommands::printing::print_text;
use permit_subcommands::refused::Refused;
use std::io::Write;

/// Prints two texts, one after the other.
pub(crate) fn print_two<E: Write>(err: &mut E, first: &str, second: &str) -> Result<(), Failure>
    ensures { Prints (first.now ++ second.now) (E.contents err.old) (E.contents err.new) result }
{
    print_text(err, first)?;
    print_text(err, second)
}

/// Prints three texts, one after the other.
pub(crate) fn print_three<E: Write>(
    err: &mut E,
    first: &str,
    second: &str,
    third: &str,
) -> Result<(), Failure>
    ensures { Prints (first.now ++ (second.now ++ third.now)) (E.contents err.old) (E.contents err.new) result }
{
    print_text(err, first)?;
    print_two(err, second, third)
}

/// Prints a number between two texts.
pub(crate) fn print_number<E: Write>(
    err: &mut E,
    before: &str,
    number: u64,
    after: &str,
) -> Result<(), Failure>
    ensures { Prints (before.now ++ (decimal number ++ after.now)) (E.contents err.old) (E.contents err.new) result }
{
    let mut digits = Buffer::new();
    print_three(err, before, digits.format(number), after)
}

/// Says a refusal on a line.
fn say_refused<E: Write>(why: &Refused, err: &mut E) -> Result<(), Failure>
    ensures { Prints (refused_line why.now ++ codes "\n") (E.contents err.old) (E.contents err.new) result }
{
    match why {
        Refused::Plain(word) => print_three(err, "refused: ", word.word(), "\n"),
        Refused::Denied(rule) => print_three(err, "refused: denied by ", rule.as_str(), "\n"),
        Refused::NotAdmitted(reason) => print_three(
            err,
            "refused: not admitted, ",
            reason.word(),
            "\n",
        ),
    }
}

/// Says on a line where a policy is refused, after the text that says which policy it is.
fn say_place<E: Write>(front: &str, error: &PolicyError, err: &mut E) -> Result<(), Failure>
    ensures { Prints (front.now ++ decimal (fault_number error.now.code) ++ codes " at rule " ++ decimal error.now.rule ++ codes "\n")
        (E.contents err.old) (E.contents err.new) result }
{
    match print_number(err, front, u64::from(error.code.number()), " at rule ") {
        Ok(()) => print_number(err, "", error.rule as u64, "\n"),
        Err(failure) => Err(failure),
    }
}

/// The word of why a database isn't opened.
fn open_word(why: &OpenError) -> &'static str
    ensures { result.now ≡ open_word why.now }
{
    match why {
        OpenError::Damaged => "damaged",
        OpenError::Version => "version",
        OpenError::Store => "store",
        OpenError::Exists => "exists",
    }
}

/// Says on a line why a history can't be used.
fn say_history<E: Write>(why: HistoryFailure, err: &mut E) -> Result<(), Failure>
    ensures { Prints (failure_line (failure.History why) ++ codes "\n") (E.contents err.old) (E.contents err.new) result }
{
    match why {
        HistoryFailure::Differs => print_text(err, "history: differs\n"),
        HistoryFailure::Changed => print_text(err, "history: differs\n"),
        HistoryFailure::Line(line, _) => print_number(err, "history: line ", line, "\n"),
        HistoryFailure::Short => print_text(err, "history: short\n"),
        HistoryFailure::Exists => print_text(err, "history: exists\n"),
        HistoryFailure::Copy => print_text(err, "history: copy\n"),
        HistoryFailure::Itself => print_text(err, "history: copy\n"),
        HistoryFailure::Unused => print_text(err, "history: unused\n"),
        HistoryFailure::Store => print_text(err, "history: store\n"),
    }
}

/// Says a failure on a line.
fn say<E: Write>(failure: &Failure, err: &mut E) -> Result<(), Failure>
    ensures { Prints (failure_line failure.now ++ codes "\n") (E.contents err.old) (E.contents err.new) result }
{
    match failure {
        Failure::Refused(why) => say_refused(why, err),
        Failure::File(path) => print_three(err, "cannot read ", path.as_str(), "\n"),
        Failure::Policy(error) => say_place("policy: fault ", error, err),
        Failure::Against(error) => say_place("against: fault ", error, err),
        Failure::Facts => print_text(err, "facts: unreadable\n"),
        Failure::Database(why) => print_three(err, "database: ", open_word(why), "\n"),
        Failure::History(why) => say_history(*why, err),
        Failure::Day => print_text(err, "day: unreadable\n"),
        Failure::Zone => print_text(err, "zone: unreadable\n"),
        Failure::Listen(address) => print_three(err, "cannot listen ", address.as_str(), "\n"),
        Failure::Output => print_text(err, "cannot write\n"),
    }
}

/// Says a failure on standard error, whose own failure can't be reported, and gives its status.
pub(crate) fn complain<E: Write>(failure: &Failure, err: &mut E) -> u8
    ensures status { result ≡ failure_status failure.now }
    ensures says { Complains failure.now (E.contents err.old) (E.contents err.new) }
{
    let _ = say(failure, err);
    failure.status()
}
