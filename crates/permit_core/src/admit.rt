//! What is admitted on a file: the department's table of commands, with the reasons in their numbered order.

ghost use Rattle.std.specs.Prelude.{◌≡◌, ℕ, Some, List, [], ◌∷◌};
ghost use Rattle.permit_model.specs.Steps;
ghost use Rattle.permit_model.specs.Admission;
ghost use Rattle.permit_base.specs.declared.request.Command.TheVariants.{NameContractor, AskExtension, GrantExtension, RefuseExtension, RequestInspection, ApproveStep, Notice, ClearNotice, Stop, Lift, Temporary, Certify};
ghost use Rattle.permit_base.specs.declared.request.Request.TheVariants.{OnFile};
ghost use Rattle.permit_model.specs.History.{History};
ghost use Rattle.permit_model.specs.Files.{CaseFile, case_numbered};
ghost use Rattle.permit_model.specs.Machine.{IsHistory};
ghost use Rattle.permit_model.specs.Tables.{state_of};
ghost use Rattle.permit_core.specs.Naming.{people_of};
ghost use Rattle.permit_core.specs.RowTests;
ghost use Rattle.permit_core.specs.RowTests.{row_tests, Admits};
ghost use Rattle.permit_core.specs.declared.people.People.{People};

use crate::people::{NamedParty, People};
use crate::state::FileState;
use crate::steps::has_certificates;
use permit_base::limits::{
    LATEST_DEADLINE, LONGEST_PERMIT_EXTENSION, LONGEST_REVIEW_EXTENSION, LONGEST_TEMPORARY,
    MOST_PAPERS,
};
use permit_base::refusal::Reason;
use permit_base::request::Command;
use permit_base::stages::{Expiry, StageFacts};
use permit_base::values::{Day, Days, PartyId};
use permit_base::words::{Kind, Role, Stage, Step};

/// A test of a command: whether it fails the command, and the reason that is then answered.
type Test = (bool, Reason);

/// The reason of the first test that fails.
fn first_failing(tests: &[Test]) -> Option<Reason>
    ensures { result ≡ Admission.first_failing tests.now }
{
    for (fails, reason) in tests {
        if *fails {
            return Some(*reason);
        }
    }
    None
}

/// The stage doesn't admit the command.
fn unless_stage(admitted: bool) -> Test
    ensures { result ≡ Admission.unless_stage admitted }
{
    (!admitted, Reason::Stage)
}

/// Whether the step is there and is this one.
fn is_the_step(step: Option<Step>, other: Step) -> bool
    ensures { result ≡ Admission.is_the_step step other }
{
    step == Some(other)
}

/// Whether there is a named party of the role.
fn is_of_role(role: Role, named: Option<NamedParty>) -> bool
    ensures { result ≡ RowTests.is_of_role role named }
{
    match named {
        Some(party) => party.role == role,
        None => false,
    }
}

/// The named party isn't there, or isn't of the role.
fn no_party_of_role(role: Role, people: &People) -> Test
    ensures { result ≡ RowTests.no_party_of_role role people.now }
{
    (!is_of_role(role, people.named), Reason::Person)
}

/// The most days that may be asked in a stage.
fn ask_limit(stage: Stage) -> u32
    ensures { result ≡ Admission.ask_limit stage }
{
    match stage.facts().expiry {
        Expiry::Permit => LONGEST_PERMIT_EXTENSION,
        Expiry::Application | Expiry::Never => LONGEST_REVIEW_EXTENSION,
    }
}

/// Whether the party is there and has an interest in the parcel.
fn is_with_interest(named: Option<NamedParty>) -> bool
    ensures { result ≡ RowTests.is_with_interest named }
{
    match named {
        Some(party) => party.has_interest,
        None => false,
    }
}

impl FileState {
    /// What is so of the file in its stage on the day.
    fn facts(&self, day: Day) -> StageFacts
        ensures { result ≡ RowTests.facts_on day self.now }
    {
        self.stage(day).facts()
    }

    /// The stage on the day is another.
    fn not_at(&self, day: Day, wanted: Stage) -> Test
        ensures { result ≡ RowTests.not_at day self.now wanted }
    {
        unless_stage(self.stage(day) == wanted)
    }

    /// There is no deadline in the stage on the day.
    fn not_timed(&self, day: Day) -> Test
        ensures { result ≡ RowTests.not_timed day self.now }
    {
        unless_stage(self.facts(day).expiry.is_timed())
    }

    /// A stop work order is in force.
    fn order_stands(&self) -> Test
        ensures { result ≡ RowTests.stopped self.now }
    {
        (self.is_stopped(), Reason::Stopped)
    }

    /// The party is the applicant, the contractor or the parcel's owner, or has an interest in the parcel.
    fn interested(&self, party: PartyId, people: &People) -> Test
        ensures { result ≡ RowTests.interested self.now party people.now }
    {
        let is_interested = self.applicant() == party
            || self.contractor() == Some(party)
            || people.owner == Some(party)
            || is_with_interest(people.named);
        (is_interested, Reason::Interested)
    }

    /// No certificates are given for the kind.
    fn no_certificates(&self) -> Test
        ensures { result ≡ RowTests.no_certificates self.now }
    {
        (!has_certificates(self.kind()), Reason::Kind)
    }

    /// A notice is open.
    fn notice_open(&self) -> Test
        ensures { result ≡ RowTests.notice_open self.now }
    {
        (self.notices() > 0, Reason::NoticeOpen)
    }

    /// The limit of papers is reached.
    fn papers_full(&self) -> Test
        ensures { result ≡ RowTests.papers_full self.now }
    {
        (self.papers() >= MOST_PAPERS, Reason::Full)
    }

    /// The deadline with the asked days is too far.
    fn too_far(&self) -> Test
        ensures { result ≡ RowTests.too_far self.now }
    {
        let asked = match self.ask() {
            Some(days) => days.get(),
            None => 0,
        };
        let deadline = self.deadline().unwrap_or(0);
        (
            deadline.saturating_add(asked) > LATEST_DEADLINE,
            Reason::Far,
        )
    }

    /// The reason against assigning a reviewer or an inspector.
    fn against_assignment(
        &self,
        admitted: bool,
        role: Role,
        party: PartyId,
        people: &People,
    ) -> Option<Reason>
        ensures { result ≡ Admission.first_failing (Admission.unless_stage admitted
            ∷ RowTests.no_party_of_role role people.now ∷ RowTests.interested self.now party people.now ∷ []) }
    {
        first_failing(&[
            unless_stage(admitted),
            no_party_of_role(role, people),
            self.interested(party, people),
        ])
    }

    /// The reason against naming a contractor.
    fn against_naming(&self, day: Day, people: &People) -> Option<Reason>
        ensures { (party : ℕ) → result ≡ Admission.first_failing (row_tests day self.now people.now (NameContractor party)) }
    {
        first_failing(&[
            self.not_timed(day),
            (people.named.is_none(), Reason::Person),
        ])
    }

    /// The reason against a command that makes a paper and asks nothing but its stage.
    fn against_decision(&self, admitted: bool) -> Option<Reason>
        ensures { result ≡ Admission.first_failing (Admission.unless_stage admitted ∷ RowTests.papers_full self.now ∷ []) }
    {
        first_failing(&[unless_stage(admitted), self.papers_full()])
    }

    /// The reason against asking for an extension.
    fn against_ask(&self, day: Day, days: Days) -> Option<Reason>
        ensures { (people : People) (text : List ℕ) → result ≡ Admission.first_failing (row_tests day self.now people (AskExtension days text)) }
    {
        first_failing(&[
            self.not_timed(day),
            (days.get() > ask_limit(self.stage(day)), Reason::Days),
            (self.ask().is_some(), Reason::Pending),
            self.papers_full(),
        ])
    }

    /// The reason against granting the pending ask.
    fn against_grant(&self, day: Day) -> Option<Reason>
        ensures { (people : People) → result ≡ Admission.first_failing (row_tests day self.now people GrantExtension) }
    {
        first_failing(&[
            self.not_timed(day),
            (self.ask().is_none(), Reason::NothingPending),
            self.papers_full(),
            self.too_far(),
        ])
    }

    /// The reason against refusing the pending ask.
    fn against_refusal(&self, day: Day) -> Option<Reason>
        ensures { (people : People) (text : List ℕ) → result ≡ Admission.first_failing (row_tests day self.now people (RefuseExtension text)) }
    {
        first_failing(&[
            self.not_timed(day),
            (self.ask().is_none(), Reason::NothingPending),
            self.papers_full(),
        ])
    }

    /// The reason against requesting an inspection of a step (IBC 2018, sections 110.5 and 110.6).
    fn against_request(&self, day: Day, step: Step) -> Option<Reason>
        ensures { (people : People) → result ≡ Admission.first_failing (row_tests day self.now people (RequestInspection step)) }
    {
        first_failing(&[
            self.not_at(day, Stage::Working),
            self.order_stands(),
            (self.request().is_some(), Reason::Pending),
            (!is_the_step(self.next_step(), step), Reason::Step),
        ])
    }

    /// The reason against approving a step (IBC 2018, section 110.6).
    fn against_approval(&self, day: Day, step: Step) -> Option<Reason>
        ensures { (people : People) → result ≡ Admission.first_failing (row_tests day self.now people (ApproveStep step)) }
    {
        first_failing(&[
            self.not_at(day, Stage::Working),
            self.order_stands(),
            (self.request().is_none(), Reason::NothingPending),
            (!is_the_step(self.request(), step), Reason::Step),
            self.notice_open(),
        ])
    }

    /// The reason against a correction notice.
    fn against_notice(&self, day: Day) -> Option<Reason>
        ensures { (people : People) (text : List ℕ) → result ≡ Admission.first_failing (row_tests day self.now people (Notice text)) }
    {
        first_failing(&[
            self.not_at(day, Stage::Working),
            (self.request().is_none(), Reason::NothingPending),
            self.papers_full(),
        ])
    }

    /// The reason against clearing a notice.
    fn against_clearing(&self, day: Day, people: &People) -> Option<Reason>
        ensures { (paper : ℕ) → result ≡ Admission.first_failing (row_tests day self.now people.now (ClearNotice paper)) }
    {
        first_failing(&[
            self.not_at(day, Stage::Working),
            (
                !(people.is_open_notice && self.notices() > 0),
                Reason::NoSuchNotice,
            ),
        ])
    }

    /// The reason against a stop work order (IBC 2018, section 115).
    fn against_stop(&self, day: Day) -> Option<Reason>
        ensures { (people : People) (text conditions : List ℕ) → result ≡ Admission.first_failing (row_tests day self.now people (Stop text conditions)) }
    {
        first_failing(&[
            unless_stage(self.facts(day).stoppable),
            self.order_stands(),
            self.papers_full(),
        ])
    }

    /// The reason against lifting a stop work order.
    fn against_lift(&self, day: Day) -> Option<Reason>
        ensures { (people : People) → result ≡ Admission.first_failing (row_tests day self.now people Lift) }
    {
        first_failing(&[
            unless_stage(self.facts(day).stoppable),
            (!self.is_stopped(), Reason::NothingPending),
            self.papers_full(),
        ])
    }

    /// The reason against a temporary certificate (IBC 2018, section 111).
    fn against_temporary(&self, day: Day, days: Days) -> Option<Reason>
        ensures { (people : People) (text : List ℕ) → result ≡ Admission.first_failing (row_tests day self.now people (Temporary days text)) }
    {
        first_failing(&[
            self.not_at(day, Stage::Working),
            self.order_stands(),
            (days.get() > LONGEST_TEMPORARY, Reason::Days),
            self.notice_open(),
            self.no_certificates(),
            self.papers_full(),
        ])
    }

    /// The reason against the certificate of occupancy (IBC 2018, section 111).
    fn against_certificate(&self, day: Day) -> Option<Reason>
        ensures { (people : People) → result ≡ Admission.first_failing (row_tests day self.now people Certify) }
    {
        first_failing(&[
            self.not_at(day, Stage::Finaled),
            self.order_stands(),
            self.no_certificates(),
            self.papers_full(),
        ])
    }

    /// The first reason, in their numbered order, against a command on the day.
    fn reason_against(&self, day: Day, command: &Command, people: &People) -> Option<Reason>
        ensures { result ≡ Admission.first_failing (row_tests day self.now people.now command.now) }
    {
        match command {
            Command::AssignReviewer { party } => self.against_assignment(
                self.facts(day).reviewing,
                Role::Reviewer,
                *party,
                people,
            ),
            Command::AssignInspector { party } => self.against_assignment(
                self.facts(day).inspecting,
                Role::Inspector,
                *party,
                people,
            ),
            Command::NameContractor { .. } => self.against_naming(day, people),
            Command::StartReview => first_failing(&[self.not_at(day, Stage::Filed)]),
            Command::Return { .. } => self.against_decision(self.stage(day) == Stage::Review),
            Command::Resubmit { .. } => self.against_decision(self.stage(day) == Stage::Returned),
            Command::ApprovePlans => first_failing(&[self.not_at(day, Stage::Review)]),
            Command::Reject { .. } => self.against_decision(self.stage(day) == Stage::Review),
            Command::Issue => self.against_decision(self.stage(day) == Stage::Approved),
            Command::AskExtension { days, .. } => self.against_ask(day, *days),
            Command::GrantExtension => self.against_grant(day),
            Command::RefuseExtension { .. } => self.against_refusal(day),
            Command::BeginWork => first_failing(&[
                self.not_at(day, Stage::Issued),
                self.order_stands(),
            ]),
            Command::RequestInspection { step } => self.against_request(day, *step),
            Command::ApproveStep { step } => self.against_approval(day, *step),
            Command::Notice { .. } => self.against_notice(day),
            Command::ClearNotice { .. } => self.against_clearing(day, people),
            Command::Stop { .. } => self.against_stop(day),
            Command::Lift => self.against_lift(day),
            Command::Revoke { .. } => self.against_decision(self.facts(day).revocable),
            Command::Temporary { days, .. } => self.against_temporary(day, *days),
            Command::Certify => self.against_certificate(day),
        }
    }

    /// Whether a command is admitted on a day: Ok, or the first reason, in their numbered order, against it.
    pub fn admit(&self, day: Day, command: &Command, people: &People) -> Result<(), Reason>
        ensures row { Admits result (Admission.first_failing (row_tests day self.now people.now command.now)) }
        ensures model { (h : History) (id caller : ℕ) (file : CaseFile) → IsHistory h → case_numbered h id ≡ Some file
            → self.now ≡ state_of file → people.now ≡ people_of h file command.now
            → Admits result (Admission.reason_against h day caller (OnFile id command.now)) }
    {
        match self.reason_against(day, command, people) {
            Some(reason) => Err(reason),
            None => Ok(()),
        }
    }
}
