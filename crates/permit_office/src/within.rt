//! What the types of a request's values promise, said for contracts: functions with nothing to do.

ghost use Rattle.std.specs.Prelude.{◌≤◌, IsTrue};
ghost use Rattle.permit_base.specs.Limits.{is_cents, latest_day};
ghost use Rattle.permit_base.specs.Texts.{is_printable, is_lot, is_digest};
ghost use Rattle.permit_model.specs.SoundState.{IsSoundState};
ghost use Rattle.permit_model.specs.Within.{is_command_within};

use permit_base::request::Command;
use permit_base::values::{Cents, Digest, Lot, Text};
use permit_core::state::FileState;

/// A party's name and digest are within their limits.
pub(crate) fn party_within(name: &Text, digest: &Digest)
    ensures name { IsTrue (is_printable name.now) }
    ensures digest { IsTrue (is_digest digest.now) }
{
    let _ = name.as_str();
    let _ = digest.as_str();
}

/// A parcel's lot and address are within their limits.
pub(crate) fn parcel_within(lot: &Lot, address: &Text)
    ensures lot { IsTrue (is_lot lot.now) }
    ensures address { IsTrue (is_printable address.now) }
{
    let _ = lot.as_str();
    let _ = address.as_str();
}

/// A filing's amount and description are within their limits.
pub(crate) fn filing_within(valuation: Cents, description: &Text)
    ensures valuation { IsTrue (is_cents valuation) }
    ensures description { IsTrue (is_printable description.now) }
{
    let _ = valuation.get();
    let _ = description.as_str();
}

/// A command's texts and days are within their limits.
pub(crate) fn command_within(command: &Command)
    ensures { IsTrue (is_command_within command.now) }
{
    match command {
        Command::Return { text }
        | Command::Resubmit { text }
        | Command::Reject { text }
        | Command::RefuseExtension { text }
        | Command::Notice { text }
        | Command::Revoke { text } => {
            let _ = text.as_str();
        }
        Command::AskExtension { days, text } | Command::Temporary { days, text } => {
            let _ = days.get();
            let _ = text.as_str();
        }
        Command::Stop { text, conditions } => {
            let _ = text.as_str();
            let _ = conditions.as_str();
        }
        _ => {}
    }
}

/// A file's state is sound.
pub(crate) fn state_within(state: &FileState)
    ensures { IsSoundState state.now }
{
    let _ = state.fields();
}
