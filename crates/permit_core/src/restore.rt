//! A file's state from the fields of its row.

ghost use Rattle.std.specs.Prelude.{◌≡◌, ◌↔◌, IsTrue, IsSome, IfSome, length};
ghost use Rattle.permit_model.specs.Steps;
ghost use Rattle.permit_model.specs.SoundState;
ghost use Rattle.permit_model.specs.SoundState.{IsSoundState};

use crate::state::FileState;
use crate::steps::{required_steps, step_at};
use permit_base::values::{Day, Days, ParcelId, PartyId};
use permit_base::words::{Edition, Kind, Stage, Step};
use std::marker::Model;

/// The fields of a file's row, whatever they say together.
#[derive(Clone, Copy)]
pub struct StateFields {
    /// The parcel that the application names.
    pub parcel: ParcelId,
    /// Who filed the application.
    pub applicant: PartyId,
    /// The contractor last named.
    pub contractor: Option<PartyId>,
    /// The reviewer last assigned.
    pub reviewer: Option<PartyId>,
    /// The inspector last assigned.
    pub inspector: Option<PartyId>,
    /// The kind of work.
    pub kind: Kind,
    /// The edition of the inspections that the file keeps to.
    pub edition: Edition,
    /// The day of the filing.
    pub filed: Day,
    /// The stored stage.
    pub stage: Stage,
    /// The last day on which the file is open, counted from 1970-01-01.
    pub deadline: Option<u32>,
    /// How many steps are approved.
    pub done: u8,
    /// The step whose inspection is requested.
    pub request: Option<Step>,
    /// The day of that request.
    pub requested: Option<Day>,
    /// The days of the pending ask for an extension.
    pub ask: Option<Days>,
    /// Whether a stop work order is in force.
    pub stopped: bool,
    /// How many correction notices are open.
    pub notices: u16,
    /// How many papers the file has.
    pub papers: u16,
    /// The day until which the last temporary certificate runs.
    pub temporary: Option<u32>,
}

impl Model for StateFields {
    ghost use Rattle.permit_model.specs.Tables.{State};

    ghost Value = { State };

    ghost view = { λ s. record { parcel = s.parcel; applicant = s.applicant; contractor = s.contractor; reviewer = s.reviewer; inspector = s.inspector; kind = s.kind; edition = s.edition; filed = s.filed; stage = s.stage; deadline = s.deadline; done = s.done; request = s.request; requested = s.requested; ask = s.ask; stopped = s.stopped; notices = s.notices; papers = s.papers; temporary = s.temporary } };

    ghost inverse = { λ s. record { parcel = s.parcel; applicant = s.applicant; contractor = s.contractor; reviewer = s.reviewer; inspector = s.inspector; kind = s.kind; edition = s.edition; filed = s.filed; stage = s.stage; deadline = s.deadline; done = s.done; request = s.request; requested = s.requested; ask = s.ask; stopped = s.stopped; notices = s.notices; papers = s.papers; temporary = s.temporary } };
}

/// Whether there is no request, or one for the next step.
fn is_for(request: Option<Step>, next: Option<Step>) -> bool
    ensures { result ≡ SoundState.is_for request next }
{
    match (request, next) {
        (None, _) => true,
        (Some(_), None) => false,
        (Some(step), Some(next)) => next == step,
    }
}

impl StateFields {
    /// Whether there is a deadline in the stages that have one, and in no other.
    fn deadline_stands(&self) -> bool
        ensures { result ≡ SoundState.deadline_stands self.now }
    {
        self.deadline.is_some() == self.stage.facts().expiry.is_timed()
    }

    /// Whether every required step is approved and no notice open.
    fn is_finished(&self) -> bool
        ensures { result ≡ SoundState.is_finished self.now }
    {
        self.done as usize == required_steps(self.edition, self.kind).len() && self.notices == 0
    }

    /// Whether the fields keep to the facts of [`FileState`].
    fn is_sound(&self) -> bool
        ensures { result ≡ SoundState.is_sound_state self.now }
    {
        let facts = self.stage.facts();
        facts.stored
            && self.done as usize <= required_steps(self.edition, self.kind).len()
            && self.deadline_stands()
            && is_for(self.request, step_at(self.edition, self.kind, self.done))
            && self.request.is_some() == self.requested.is_some()
            && (!facts.complete || self.is_finished())
            && (!facts.certified || !self.stopped)
    }
}

impl FileState {
    /// The state with the fields of a row, or None exactly where the facts of the type fail.
    ///
    /// # Examples
    ///
    /// ```
    /// let fields = state.fields();
    /// assert!(rt; FileState::restore(fields).is_some());
    /// let certified = StateFields {
    ///     stage: Stage::Certified,
    ///     ..fields
    /// };
    /// assert!(rt; FileState::restore(certified).is_none());
    /// ```
    pub fn restore(fields: StateFields) -> Option<FileState>
        ensures sound { IsSome result ↔ IsSoundState fields }
        ensures same { IfSome result (λ state. state ≡ fields) }
    {
        if fields.is_sound() {
            Some(FileState(fields))
        } else {
            None
        }
    }
}
