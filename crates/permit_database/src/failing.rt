//! The failures that are reported of faults.

ghost use Rattle.std.specs.Prelude.{◌≡◌};
ghost use Rattle.permit_database.specs.Failing.{bringing_failure, comparing_failure, entry_failure, line_failure, refusal_reason, renewal_failure};
ghost use Rattle.permit_database.specs.Failing.{replaying_failure, resuming_failure, telling_failure, wrong_line};

use permit_base::refusal::Refusal;
use permit_chronicle::ChronicleFault;
use permit_history::fault::LineFault;
use permit_recorded::resuming::fault::ResumeFault;
use permit_replay::fault::{ReplayFault, Why};
use permit_replay::opening::fault::{BringFault, CompareFault};
use permit_sql::renew::RenewError;
use permit_store::store::OpenError;
use permit_subcommands::failure::{Failure, HistoryFailure, LineReason};
use permit_subcommands::refused::Refused;

/// The failure for a line that is wrong so.
fn wrong_line(line: u64, reason: LineReason) -> Failure
    ensures { result ≡ wrong_line line reason }
{
    Failure::History(HistoryFailure::Line(line, reason))
}

/// The failure for a line that is no entry's, or that isn't read.
fn of_line(line: u64, fault: LineFault) -> Failure
    ensures { result ≡ line_failure line fault }
{
    match fault {
        LineFault::Long => wrong_line(line, LineReason::Long),
        LineFault::Syntax => wrong_line(line, LineReason::Syntax),
        LineFault::Fields => wrong_line(line, LineReason::Fields),
        LineFault::Form => wrong_line(line, LineReason::Form),
        LineFault::Memory => Failure::memory(),
    }
}

/// What is wrong with a line whose command the office refuses.
fn reason_of(refusal: Refusal) -> LineReason
    ensures { result ≡ refusal_reason refusal }
{
    match refusal {
        Refusal::Caller => LineReason::Caller,
        Refusal::Clock => LineReason::Clock,
        Refusal::Record => LineReason::Record,
        _ => LineReason::NotAdmitted,
    }
}

/// The failure for a line whose entry isn't the next one.
fn of_entry(line: u64, why: Why) -> Failure
    ensures { result ≡ entry_failure line why }
{
    match why {
        Why::NoCopy | Why::OtherCopy | Why::CopyDay => Failure::History(HistoryFailure::Copy),
        Why::NoFounding => wrong_line(line, LineReason::NoFounding),
        Why::SecondBeginning => wrong_line(line, LineReason::SecondBeginning),
        Why::SecondFounding => wrong_line(line, LineReason::SecondFounding),
        Why::FirstEdition => wrong_line(line, LineReason::FirstEdition),
        Why::UpgradeDay => wrong_line(line, LineReason::UpgradeDay),
        Why::SecondUpgrade => wrong_line(line, LineReason::SecondUpgrade),
        Why::Refused(refusal) => wrong_line(line, reason_of(refusal)),
        Why::Number => wrong_line(line, LineReason::Number),
        Why::Memory => Failure::memory(),
    }
}

/// The failure for a text that isn't replayed.
pub fn of_replaying(fault: &ReplayFault) -> Failure
    ensures { result ≡ replaying_failure fault.now }
{
    match fault {
        ReplayFault::Line { line, fault } => of_line(*line, *fault),
        ReplayFault::Entry { line, why } => of_entry(*line, *why),
        ReplayFault::Short => Failure::History(HistoryFailure::Short),
        ReplayFault::Endless | ReplayFault::Source(_) => Failure::History(HistoryFailure::Store),
    }
}

/// The failure for a text that isn't compared with the tables of a database.
pub fn of_comparing(fault: &CompareFault) -> Failure
    ensures { result ≡ comparing_failure fault.now }
{
    match fault {
        CompareFault::Store => Failure::Database(OpenError::Store),
        CompareFault::Text(fault) => of_replaying(fault),
        CompareFault::Long => Failure::History(HistoryFailure::Store),
    }
}

/// The failure for tables that aren't brought to the history of a text.
pub fn of_bringing(fault: &BringFault) -> Failure
    ensures { result ≡ bringing_failure fault.now }
{
    match fault {
        BringFault::Differs => Failure::History(HistoryFailure::Differs),
        BringFault::Stopped(fault) => of_comparing(fault),
        BringFault::Again => Failure::History(HistoryFailure::Store),
    }
}

/// The failure for an office that isn't opened with its history.
pub fn of_resuming(fault: &ResumeFault) -> Failure
    ensures { result ≡ resuming_failure fault.now }
{
    match fault {
        ResumeFault::Bring(fault) => of_bringing(fault),
        ResumeFault::File => Failure::History(HistoryFailure::Store),
    }
}

/// The failure for a text that isn't printed to its end.
pub fn of_telling(fault: &ChronicleFault) -> Failure
    ensures { result ≡ telling_failure fault.now }
{
    match fault {
        ChronicleFault::Line { line, fault } => of_line(*line, *fault),
        ChronicleFault::Memory => Failure::memory(),
        ChronicleFault::Source(_) | ChronicleFault::Endless => Failure::History(
            HistoryFailure::Store,
        ),
        ChronicleFault::Output => Failure::Output,
    }
}

/// The failure for a party that has no new token.
pub fn of_renewing(error: RenewError) -> Failure
    ensures { result ≡ renewal_failure error }
{
    match error {
        RenewError::Refused(why) => Failure::Refused(Refused::from(why)),
        RenewError::Open(why) => Failure::Database(why),
    }
}
