//! The state of a file.

ghost use Rattle.std.specs.Prelude.{◌≡◌, ◌+◌, ◌∷◌, ℕ, List, [], Option, Some, option_map, false, IsTrue, length};
ghost use Rattle.permit_model.specs.History.{History, edition as edition_in};
ghost use Rattle.permit_base.specs.declared.request.Request.TheVariants.{File};
ghost use Rattle.permit_model.specs.Machine.{IsHistory, entry_of};
ghost use Rattle.permit_model.specs.Files.{CaseFile, filings, case_numbered};
ghost use Rattle.permit_model.specs.Parcels;
ghost use Rattle.permit_model.specs.Parcels.{has_interest};
ghost use Rattle.permit_model.specs.Facts.{stage_on, timing_of, relations_to_file};
ghost use Rattle.permit_model.specs.Steps.{required_steps};
ghost use Rattle.permit_model.specs.Work.{approved_steps, next_of, open_notices, is_stopped};
ghost use Rattle.permit_model.specs.Deadline.{deadline};
ghost use Rattle.permit_model.specs.Tables.{state_of, next_in_row};
ghost use Rattle.permit_model.specs.SoundState;
ghost use Rattle.permit_model.specs.SoundState.{IsSoundState};
ghost use Rattle.permit_core.specs.Views.{filed_by, row_stage, row_timing, row_relations};

use crate::restore::StateFields;
use crate::steps::step_at;
use permit_base::limits::{NEAR_DAYS, TERM};
use permit_base::values::{Day, Days, ParcelId, PartyId};
use permit_base::words::{Edition, Kind, Relations, Stage, Step, Timing};
use std::marker::Model;

/// The row of a file without its number, valuation and description.
///
/// Each value keeps to these facts: its stage is a stored one; no more steps are approved than its kind requires; there
/// is a deadline exactly in the stages filed, review, returned, approved, issued and working; a pending request has
/// its day and is for the next step; a finaled or certified file has all steps approved and no open notice; a
/// certified file has no stop order in force.
#[derive(Clone, Copy)]
pub struct FileState(pub(crate) StateFields);

impl Model for FileState {
    ghost use Rattle.permit_model.specs.Tables.{State};
    ghost use Rattle.permit_model.specs.SoundState.{IsSoundState};

    ghost Value = { State };

    ghost view = { λ s. s.0 };

    ghost invariant = { λ s. IsSoundState s.0 };

    ghost inverse = { λ fields. record { 0 = fields } };
}

impl FileState {
    /// The state of an application filed on a day: its deadline is 180 days later (IBC 2018, section 105.3.2). It is
    /// that of the new file in the history with the filing added, where the edition is the one in force.
    ///
    /// # Examples
    ///
    /// ```
    /// let state = FileState::file(applicant, parcel, Kind::Repair, Edition::Second, day);
    /// assert!(rt; state.parcel() == parcel && state.papers() == 0);
    /// ```
    pub fn file(
        applicant: PartyId,
        parcel: ParcelId,
        kind: Kind,
        edition: Edition,
        day: Day,
    ) -> FileState
        ensures row { (id valuation : ℕ) (description : List ℕ) → result ≡ state_of (filed_by applicant parcel kind edition day id valuation description) }
        ensures recorded { (h : History) (valuation : ℕ) (description : List ℕ) → IsHistory h → edition_in h ≡ edition
            → option_map state_of (case_numbered (entry_of h day applicant (File parcel kind valuation description) ∷ h) (length (filings h) + 1)) ≡ Some result }
    {
        FileState(StateFields {
            parcel,
            applicant,
            contractor: None,
            reviewer: None,
            inspector: None,
            kind,
            edition,
            filed: day,
            stage: Stage::Filed,
            deadline: Some(day.get() + TERM),
            done: 0,
            request: None,
            requested: None,
            ask: None,
            stopped: false,
            notices: 0,
            papers: 0,
            temporary: None,
        })
    }

    /// The stage on a day: abandoned or lapsed from the day after the deadline on, else the stored one.
    pub fn stage(&self, day: Day) -> Stage
        ensures row { result ≡ row_stage day self.now }
        ensures model { (file : CaseFile) → self.now ≡ state_of file → result ≡ stage_on day file }
    {
        match self.0.deadline {
            Some(deadline) if deadline < day.get() => self.0.stage.expired(),
            _ => self.0.stage,
        }
    }

    /// The timing on a day: past from the day after the deadline on, near with at most [`NEAR_DAYS`] left, ahead with more.
    pub fn timing(&self, day: Day) -> Timing
        ensures row { result ≡ row_timing day self.now }
        ensures model { (file : CaseFile) → self.now ≡ state_of file → result ≡ timing_of day file }
    {
        match self.0.deadline {
            None => Timing::Untimed,
            Some(deadline) => {
                if deadline < day.get() {
                    Timing::Past
                } else if deadline <= day.get() + NEAR_DAYS {
                    Timing::Near
                } else {
                    Timing::Ahead
                }
            }
        }
    }

    /// The deadline, a count of days since 1970-01-01: the last day on which the file is open.
    ///
    /// # Examples
    ///
    /// ```
    /// let state = FileState::file(applicant, parcel, Kind::Repair, Edition::Second, day);
    /// assert!(rt; state.deadline() == Some(day.get() + TERM));
    /// ```
    pub fn deadline(&self) -> Option<u32>
        ensures row { result ≡ self.now.deadline }
        ensures model { (file : CaseFile) → self.now ≡ state_of file → result ≡ deadline file }
    {
        self.0.deadline
    }

    /// The first required step that isn't approved.
    pub fn next_step(&self) -> Option<Step>
        ensures row { result ≡ next_in_row self.now }
        ensures model { (h : History) (id : ℕ) (file : CaseFile) → IsHistory h → case_numbered h id ≡ Some file → self.now ≡ state_of file → result ≡ next_of file }
    {
        step_at(self.0.edition, self.0.kind, self.0.done)
    }

    /// Whether the certificate of occupancy was given (IBC 2018, section 111): then every required step is approved in
    /// order, no notice is open and no stop work order is in force.
    pub fn is_certified(&self) -> bool
        ensures stage { result ≡ SoundState.is_certified self.now.stage }
        ensures steps { IsTrue result → self.now.done ≡ length (required_steps self.now.edition self.now.kind) }
        ensures notices { IsTrue result → self.now.notices ≡ 0 }
        ensures stopped { IsTrue result → self.now.stopped ≡ false }
        ensures model { (h : History) (id : ℕ) (file : CaseFile) → IsHistory h → case_numbered h id ≡ Some file → self.now ≡ state_of file
            → IsTrue result → (approved_steps file.acts ≡ required_steps file.filing.edition file.filing.kind) × (open_notices file.acts ≡ []) × (is_stopped file.acts ≡ false) }
    {
        self.0.stage == Stage::Certified
    }

    /// What the caller is to the file, by the parcel's owner and whether the caller has an interest in it.
    pub fn relations(&self, caller: PartyId, owner: Option<PartyId>, conflict: bool) -> Relations
        ensures row { result ≡ row_relations self.now caller owner conflict }
        ensures model { (h : History) (file : CaseFile) → self.now ≡ state_of file
            → owner ≡ Parcels.owner h file.filing.parcel → conflict ≡ has_interest h file.filing.parcel caller
            → result ≡ relations_to_file h caller file }
    {
        Relations {
            applicant: self.0.applicant == caller,
            contractor: self.0.contractor == Some(caller),
            owner: owner == Some(caller),
            assigned_reviewer: self.0.reviewer == Some(caller),
            assigned_inspector: self.0.inspector == Some(caller),
            conflict,
        }
    }

    /// The parcel that the application names.
    pub fn parcel(&self) -> ParcelId
        ensures { result ≡ self.now.parcel }
    {
        self.0.parcel
    }

    /// Who filed the application.
    pub fn applicant(&self) -> PartyId
        ensures { result ≡ self.now.applicant }
    {
        self.0.applicant
    }

    /// The contractor last named.
    pub fn contractor(&self) -> Option<PartyId>
        ensures { result ≡ self.now.contractor }
    {
        self.0.contractor
    }

    /// The reviewer last assigned.
    pub fn reviewer(&self) -> Option<PartyId>
        ensures { result ≡ self.now.reviewer }
    {
        self.0.reviewer
    }

    /// The inspector last assigned.
    pub fn inspector(&self) -> Option<PartyId>
        ensures { result ≡ self.now.inspector }
    {
        self.0.inspector
    }

    /// The kind of work.
    pub fn kind(&self) -> Kind
        ensures { result ≡ self.now.kind }
    {
        self.0.kind
    }

    /// The edition of the inspections that the file keeps to.
    pub fn edition(&self) -> Edition
        ensures { result ≡ self.now.edition }
    {
        self.0.edition
    }

    /// The day of the filing.
    pub fn filed(&self) -> Day
        ensures { result ≡ self.now.filed }
    {
        self.0.filed
    }

    /// The stored stage, which no day moves: never abandoned or lapsed. [`FileState::stage`] gives the stage on a day.
    pub fn stored_stage(&self) -> Stage
        ensures { result ≡ self.now.stage }
    {
        self.0.stage
    }

    /// How many steps are approved: the first so many of those that the kind requires.
    pub fn done(&self) -> u8
        ensures { result ≡ self.now.done }
    {
        self.0.done
    }

    /// The step whose inspection is requested and neither approved nor answered by a notice.
    pub fn request(&self) -> Option<Step>
        ensures { result ≡ self.now.request }
    {
        self.0.request
    }

    /// The day of the pending request.
    pub fn requested(&self) -> Option<Day>
        ensures { result ≡ self.now.requested }
    {
        self.0.requested
    }

    /// The days of the pending ask for an extension.
    pub fn ask(&self) -> Option<Days>
        ensures { result ≡ self.now.ask }
    {
        self.0.ask
    }

    /// Whether a stop work order is in force (IBC 2018, section 115).
    pub fn is_stopped(&self) -> bool
        ensures { result ≡ self.now.stopped }
    {
        self.0.stopped
    }

    /// How many correction notices are open.
    pub fn notices(&self) -> u16
        ensures { result ≡ self.now.notices }
    {
        self.0.notices
    }

    /// How many papers the file has, which is the number of the last one.
    pub fn papers(&self) -> u16
        ensures { result ≡ self.now.papers }
    {
        self.0.papers
    }

    /// The day until which the last temporary certificate runs.
    pub fn temporary(&self) -> Option<u32>
        ensures { result ≡ self.now.temporary }
    {
        self.0.temporary
    }

    /// The fields of the row.
    pub fn fields(&self) -> StateFields
        ensures same { result ≡ self.now }
        ensures sound { IsSoundState result }
    {
        self.0
    }
}
