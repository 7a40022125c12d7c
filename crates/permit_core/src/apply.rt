//! What an admitted command makes of a file's state.

ghost use Rattle.std.specs.Prelude.{◌≡◌, ◌≤◌, ◌<◌, ◌+◌, ◌^◌, ◌∷◌, ℕ, true, None, Some, unwrap_or, option_map, not, min, ◌||◌, ◌&&◌};
ghost use Rattle.permit_base.specs.declared.request.Request.TheVariants.{OnFile};
ghost use Rattle.std.specs.Option.{option_or};
ghost use Rattle.permit_model.specs.History.{History, last_day};
ghost use Rattle.permit_model.specs.Files.{CaseFile, case_numbered};
ghost use Rattle.permit_model.specs.Effects.{effects};
ghost use Rattle.permit_model.specs.Work.{makes_paper};
ghost use Rattle.permit_model.specs.Admission.{reason_against};
ghost use Rattle.permit_model.specs.Machine.{IsHistory, entry_of};
ghost use Rattle.permit_model.specs.Tables.{state_of};
ghost use Rattle.permit_core.specs.RowTests.{IsAdmitted};
ghost use Rattle.permit_core.specs.RowAfter;
ghost use Rattle.permit_core.specs.RowAfter.{row_after, with_most_notices, file_after, FitsGrant, FitsNotice};

use crate::paper::paper_sort;
use crate::restore::StateFields;
use crate::state::FileState;
use permit_base::limits::TERM;
use permit_base::request::Command;
use permit_base::values::{Day, Days, PartyId};
use permit_base::words::{Stage, Step};

/// The contractor after a command.
fn contractor_after(contractor: Option<PartyId>, command: &Command) -> Option<PartyId>
    ensures { result ≡ option_or (effects command.now).contractor contractor }
{
    match command {
        Command::NameContractor { party } => Some(*party),
        _ => contractor,
    }
}

/// The reviewer after a command.
fn reviewer_after(reviewer: Option<PartyId>, command: &Command) -> Option<PartyId>
    ensures { result ≡ option_or (effects command.now).reviewer reviewer }
{
    match command {
        Command::AssignReviewer { party } => Some(*party),
        _ => reviewer,
    }
}

/// The inspector after a command.
fn inspector_after(inspector: Option<PartyId>, command: &Command) -> Option<PartyId>
    ensures { result ≡ option_or (effects command.now).inspector inspector }
{
    match command {
        Command::AssignInspector { party } => Some(*party),
        _ => inspector,
    }
}

/// The stored stage after a command.
fn stage_after(stage: Stage, command: &Command) -> Stage
    ensures { result ≡ unwrap_or (effects command.now).stage stage }
{
    match command {
        Command::StartReview | Command::Resubmit { .. } => Stage::Review,
        Command::Return { .. } => Stage::Returned,
        Command::ApprovePlans => Stage::Approved,
        Command::Reject { .. } => Stage::Rejected,
        Command::Issue => Stage::Issued,
        Command::BeginWork => Stage::Working,
        Command::ApproveStep { step: Step::Final } => Stage::Finaled,
        Command::Revoke { .. } => Stage::Revoked,
        Command::Certify => Stage::Certified,
        _ => stage,
    }
}

/// The greater of the deadline and the day with the term.
fn moved_by_activity(day: Day, deadline: Option<u32>) -> u32
    ensures { Some result ≡ RowAfter.moved_by_activity day deadline }
{
    let reach = day.get() + TERM;
    match deadline {
        Some(deadline) if deadline > reach => deadline,
        _ => reach,
    }
}

/// The deadline after a command of the day, from the pending ask and the deadline before it.
fn deadline_after(
    command: &Command,
    day: Day,
    ask: Option<Days>,
    deadline: Option<u32>,
) -> Option<u32>
    ensures { FitsGrant (effects command.now).grants ask deadline → result ≡ RowAfter.deadline_after (effects command.now).grants (effects command.now).stage (effects command.now).anchor day ask deadline }
{
    match command {
        Command::Issue => Some(day.get() + TERM),
        Command::GrantExtension => extended(deadline, ask),
        Command::ApproveStep { step: Step::Final }
        | Command::Reject { .. }
        | Command::Revoke { .. }
        | Command::Certify => None,
        Command::BeginWork
        | Command::RequestInspection { .. }
        | Command::ApproveStep { .. }
        | Command::Notice { .. } => Some(moved_by_activity(day, deadline)),
        _ => deadline,
    }
}

/// The deadline with the days of the ask, which is a number of 32 bits where the grant is admitted.
fn extended(deadline: Option<u32>, ask: Option<Days>) -> Option<u32>
    ensures { unwrap_or deadline 0 + unwrap_or ask 0 < 2 ^ 32 → result ≡ option_map (λ d. d + unwrap_or ask 0) deadline }
{
    let days = match ask {
        Some(days) => days.get(),
        None => 0,
    };
    match deadline {
        Some(deadline) => Some(deadline.saturating_add(days)),
        None => None,
    }
}

/// How many steps are approved after a command: at most 6, since the command was admitted.
fn done_after(done: u8, command: &Command) -> u8
    ensures { done < 255 → result ≡ RowAfter.done_after (effects command.now).step done }
{
    match command {
        Command::ApproveStep { .. } => done.saturating_add(1),
        _ => done,
    }
}

/// The pending request after a command.
fn request_after(request: Option<Step>, command: &Command) -> Option<Step>
    ensures { result ≡ unwrap_or (effects command.now).request request }
{
    match command {
        Command::RequestInspection { step } => Some(*step),
        Command::ApproveStep { .. } | Command::Notice { .. } => None,
        _ => request,
    }
}

/// The day of the pending request after a command of the day.
fn requested_after(requested: Option<Day>, day: Day, command: &Command) -> Option<Day>
    ensures { result ≡ RowAfter.requested_after day (effects command.now).request requested }
{
    match command {
        Command::RequestInspection { .. } => Some(day),
        Command::ApproveStep { .. } | Command::Notice { .. } => None,
        _ => requested,
    }
}

/// The pending ask after a command.
fn ask_after(ask: Option<Days>, command: &Command) -> Option<Days>
    ensures { result ≡ unwrap_or (effects command.now).ask ask }
{
    match command {
        Command::AskExtension { days, .. } => Some(*days),
        Command::GrantExtension | Command::RefuseExtension { .. } | Command::Issue => None,
        _ => ask,
    }
}

/// Whether a stop work order is in force after a command.
fn stopped_after(stopped: bool, command: &Command) -> bool
    ensures { result ≡ ((effects command.now).stops || (not (effects command.now).lifts && stopped)) }
{
    match command {
        Command::Stop { .. } => true,
        Command::Lift => false,
        _ => stopped,
    }
}

/// How many notices are open after a command: no more than papers, and at most 65535 where there were more than these.
fn notices_after(notices: u16, command: &Command) -> u16
    ensures fits { FitsNotice (effects command.now).notice notices → result ≡ RowAfter.notices_after (effects command.now).notice (effects command.now).cleared notices }
    ensures most { result ≡ min 65535 (RowAfter.notices_after (effects command.now).notice (effects command.now).cleared notices) }
{
    match command {
        Command::Notice { .. } => notices.saturating_add(1),
        Command::ClearNotice { .. } => notices.saturating_sub(1),
        _ => notices,
    }
}

/// How many papers the file has after a command: at most 9999, since the command was admitted.
fn papers_after(papers: u16, command: &Command) -> u16
    ensures { (makes_paper command.now ≡ true → papers < 65535) → result ≡ RowAfter.papers_after command.now papers }
{
    match paper_sort(command) {
        Some(_) => papers.saturating_add(1),
        None => papers,
    }
}

/// The day until which the last temporary certificate runs, after a command of the day.
fn temporary_after(temporary: Option<u32>, day: Day, command: &Command) -> Option<u32>
    ensures { result ≡ option_or (option_map (λ days. day + days) (effects command.now).temporary) temporary }
{
    match command {
        Command::Temporary { days, .. } => Some(day.get() + days.get()),
        _ => temporary,
    }
}

impl FileState {
    /// The state after a command of the day.
    fn after(&self, day: Day, command: &Command) -> FileState
        requires admitted { IsAdmitted day self.now command.now }
        ensures row { self.now.notices ≤ self.now.papers → result ≡ row_after day command.now self.now }
        ensures most { result ≡ with_most_notices (row_after day command.now self.now) }
    {
        let before = self.0;
        FileState(StateFields {
            contractor: contractor_after(before.contractor, command),
            reviewer: reviewer_after(before.reviewer, command),
            inspector: inspector_after(before.inspector, command),
            stage: stage_after(before.stage, command),
            deadline: deadline_after(command, day, before.ask, before.deadline),
            done: done_after(before.done, command),
            request: request_after(before.request, command),
            requested: requested_after(before.requested, day, command),
            ask: ask_after(before.ask, command),
            stopped: stopped_after(before.stopped, command),
            notices: notices_after(before.notices, command),
            papers: papers_after(before.papers, command),
            temporary: temporary_after(before.temporary, day, command),
            ..before
        })
    }

    /// Makes the state what an admitted command of the caller on the day makes of it.
    pub fn apply(&mut self, day: Day, command: &Command, caller: PartyId)
        requires admitted { IsAdmitted day self.old command.now }

        // Every open notice is a paper, and a file has at most 9999 of these.
        ensures row { self.old.notices ≤ self.old.papers → self.new ≡ row_after day command.now self.old }

        // The count of notices stays at 65535 where it would pass that.
        ensures most { self.new ≡ with_most_notices (row_after day command.now self.old) }
        ensures model { (h : History) (id : ℕ) (file : CaseFile) → IsHistory h → case_numbered h id ≡ Some file → last_day h ≤ day
            → self.old ≡ state_of file → reason_against h day caller (OnFile id command.now) ≡ None
            → self.new ≡ state_of (file_after day command.now caller file) }
        ensures recorded { (h : History) (id : ℕ) (file after : CaseFile) → IsHistory h → case_numbered h id ≡ Some file → last_day h ≤ day
            → self.old ≡ state_of file → reason_against h day caller (OnFile id command.now) ≡ None
            → case_numbered (entry_of h day caller (OnFile id command.now) ∷ h) id ≡ Some after
            → self.new ≡ state_of after }
    {
        *self = self.after(day, command);
    }
}
