//! The line of an entry.

ghost use Rattle.std.specs.Prelude.{◌≡◌, [], ◌∷◌, ◌++◌, IfOk, OnOk, string_bytes};
ghost use Rattle.permit_report.specs.Dates.{shown_date};
ghost use Rattle.permit_chronicle.specs.Lines.{about, about_act, about_command, counted, line, paper_made, spaced, told, who};

use permit_base::request::Command;
use permit_base::values::{Day, PaperNumber};
use permit_base::words::{Role, Word};
use permit_days::dates::date_text;
use permit_history::entry::{Act, Deed, Entry};
use permit_report::laws::civil_dates;
use std::alloc::{AllocError, Global};

/// Adds a word after a space.
fn push_word(text: &mut String, word: &str) -> Result<(), AllocError>
    ensures { OnOk result (string_bytes text.new ≡ string_bytes text.old ++ spaced word.now) }
{
    write!(text, " {word}")
}

/// Adds a word and a number, each after a space.
fn push_counted(text: &mut String, name: &str, number: u32) -> Result<(), AllocError>
    ensures { OnOk result (string_bytes text.new ≡ string_bytes text.old ++ counted name.now number) }
{
    write!(text, " {name} {number}")
}

/// Adds the number of a paper that was made, if one was.
fn push_paper(text: &mut String, made: Option<PaperNumber>) -> Result<(), AllocError>
    ensures { OnOk result (string_bytes text.new ≡ string_bytes text.old ++ paper_made made) }
{
    match made {
        Some(paper) => push_counted(text, "paper", paper.get()),
        None => Ok(()),
    }
}

/// Adds what a command on a file names beside the file.
fn push_command(text: &mut String, command: &Command) -> Result<(), AllocError>
    ensures { OnOk result (string_bytes text.new ≡ string_bytes text.old ++ about_command command.now) }
{
    match command {
        Command::AssignReviewer { party }
        | Command::AssignInspector { party }
        | Command::NameContractor { party } => push_counted(text, "party", party.get()),
        Command::AskExtension { days, .. } | Command::Temporary { days, .. } => {
            push_counted(text, "days", days.get())
        }
        Command::RequestInspection { step } | Command::ApproveStep { step } => {
            push_word(text, step.word())
        }
        Command::ClearNotice { paper } => push_counted(text, "paper", paper.get()),
        Command::StartReview
        | Command::Return { .. }
        | Command::Resubmit { .. }
        | Command::ApprovePlans
        | Command::Reject { .. }
        | Command::Issue
        | Command::GrantExtension
        | Command::RefuseExtension { .. }
        | Command::BeginWork
        | Command::Notice { .. }
        | Command::Stop { .. }
        | Command::Lift
        | Command::Revoke { .. }
        | Command::Certify => Ok(()),
    }
}

/// Adds what an accepted command made, or was done to.
fn push_act(text: &mut String, act: &Act) -> Result<(), AllocError>
    ensures { OnOk result (string_bytes text.new ≡ string_bytes text.old ++ about_act act.now) }
{
    match act {
        Act::AddParty { role, number, .. } => {
            push_counted(text, "party", number.get())?;
            push_word(text, role.word())
        }
        Act::AddParcel { owner, number, .. } => {
            push_counted(text, "parcel", number.get())?;
            push_counted(text, "party", owner.get())
        }
        Act::Transfer { parcel, to } => {
            push_counted(text, "parcel", parcel.get())?;
            push_counted(text, "party", to.get())
        }
        Act::Declare { parcel } => push_counted(text, "parcel", parcel.get()),
        Act::File {
            parcel,
            kind,
            number,
            ..
        } => {
            push_counted(text, "file", number.get())?;
            push_counted(text, "parcel", parcel.get())?;
            push_word(text, kind.word())
        }
        Act::OnFile {
            file,
            command,
            number,
        } => {
            push_counted(text, "file", file.get())?;
            push_command(text, command)?;
            push_paper(text, *number)
        }
    }
}

/// Adds what an entry is about.
fn push_about(text: &mut String, deed: &Deed) -> Result<(), AllocError>
    ensures { OnOk result (string_bytes text.new ≡ string_bytes text.old ++ about deed.now) }
{
    match deed {
        Deed::Found { .. } => push_counted(text, "party", 1),
        Deed::Begin { .. } | Deed::Upgrade => Ok(()),
        Deed::RenewToken { party, .. } => push_counted(text, "party", party.get()),
        Deed::Accepted { act, .. } => push_act(text, act),
    }
}

/// Adds who it was, after a space.
fn push_who(text: &mut String, role: Option<Role>, caller: u32) -> Result<(), AllocError>
    ensures { OnOk result (string_bytes text.new ≡ string_bytes text.old ++ spaced (who role caller)) }
{
    if caller == 0 {
        return push_word(text, "-");
    }
    match role {
        Some(role) => push_counted(text, role.word(), caller),
        None => push_counted(text, "party", caller),
    }
}

/// Adds who it was, what was done and about what.
fn push_told(text: &mut String, role: Option<Role>, deed: &Deed) -> Result<(), AllocError>
    ensures { OnOk result (string_bytes text.new ≡ string_bytes text.old ++ told role deed.now) }
{
    push_who(text, role, deed.caller())?;
    push_word(text, deed.word())?;
    push_about(text, deed)
}

/// Ends a line.
fn end_line(text: &mut String) -> Result<(), AllocError>
    ensures { OnOk result (string_bytes text.new ≡ string_bytes text.old ++ 10 ∷ []) }
{
    text.push('\n')
}

/// The date of a day.
fn dated(alloc: Global, day: Day) -> Result<String, AllocError>
    ensures { IfOk result (λ text. string_bytes text ≡ shown_date day) }
{
    civil_dates();
    date_text(alloc, day.get())
}

/// The line of an entry by a caller of this role, with its LF.
pub(crate) fn line(alloc: Global, role: Option<Role>, entry: &Entry) -> Result<String, AllocError>
    ensures { IfOk result (λ text. string_bytes text ≡ line role entry.now) }
{
    let mut text = dated(alloc, entry.day)?;
    push_told(&mut text, role, &entry.deed)?;
    end_line(&mut text)?;
    Ok(text)
}
