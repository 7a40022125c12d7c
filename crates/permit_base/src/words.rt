//! The word types. The codes of a type count from 0 in the order in which its variants are written.

ghost use Rattle.std.specs.Prelude.{◌≡◌, IfSome};
ghost use Rattle.permit_base.specs.Relations.{holds};
ghost use Rattle.permit_base.specs.Words.{named};

/// A type of words, each of which has one spelling.
///
/// `named` of the type's spelling and of all its words says what a text is read as.
pub trait Word: Copy + 'static {
    ghost use Rattle.std.specs.Prelude.{ℕ, List};
    ghost use Rattle.permit_base.specs.Words.{IsReadBack};

    // The bytes of a word's spelling.
    ghost spelling: { Self → List ℕ };

    // Each word once, in the order of their codes.
    ghost every: { List Self };

    /// The one spelling of the word.
    fn word(self) -> &'static str
        ensures { result.now ≡ spelling self };

    /// Each word once, in the order of their codes.
    fn all() -> &'static [Self]
        ensures { result.now ≡ every };

    /// The word with this spelling, or none where no word is spelled so.
    final fn read(text: &str) -> Option<Self>
        ensures exact { result ≡ named spelling every text.now }
        ensures spelled { IfSome result (λ w. spelling w ≡ text.now) }
        ensures reads { (w : Self) → spelling w ≡ text.now → result ≡ Some w }
    {
        first_spelled::<Self>(text)
    }

    // Reading the spelling of a word gives the word.
    ghost is_read: { IsReadBack spelling every };
}

/// The first word of the type that is spelled so.
fn first_spelled<W: Word>(text: &str) -> Option<W>
    ensures exact { result ≡ named W.spelling W.every text.now }
    ensures spelled { IfSome result (λ w. W.spelling w ≡ text.now) }
{
    W::all().iter().copied().find(|word| word.word() == text)
}

/// What a party is to the department; each party has one role for good.
#[derive(Clone, Copy, PartialEq, Eq)]
pub enum Role {
    /// An applicant, contractor or owner: anyone who is not staff.
    Public,
    /// Keeps parties and parcels, and assigns files.
    Clerk,
    /// Reviews the plans of the files that are assigned to them.
    Reviewer,
    /// Inspects the work of the files that are assigned to them.
    Inspector,
    /// The building official of IBC 2018 section 104.
    Official,
}

impl Word for Role {
    ghost use Rattle.std.proofs.Common.{rules};
    ghost use Rattle.permit_base.specs.Words.{role_word, all_roles};

    ghost spelling = { role_word };

    ghost every = { all_roles };

    fn word(self) -> &'static str {
        match self {
            Role::Public => "public",
            Role::Clerk => "clerk",
            Role::Reviewer => "reviewer",
            Role::Inspector => "inspector",
            Role::Official => "official",
        }
    }

    fn all() -> &'static [Role] {
        &[
            Role::Public,
            Role::Clerk,
            Role::Reviewer,
            Role::Inspector,
            Role::Official,
        ]
    }

    ghost is_read = { Prim.search rules };
}

/// The kind of work that an application is for, after IBC 2018 section 105.1.
///
/// The kind decides which inspections are required, and whether there is a certificate.
#[derive(Clone, Copy, PartialEq, Eq)]
pub enum Kind {
    Construct,
    Enlarge,
    Alter,
    Repair,
    Move,
    Demolish,
    /// A change of occupancy.
    Occupancy,
}

impl Word for Kind {
    ghost use Rattle.std.proofs.Common.{rules};
    ghost use Rattle.permit_base.specs.Words.{kind_word, all_kinds};

    ghost spelling = { kind_word };

    ghost every = { all_kinds };

    fn word(self) -> &'static str {
        match self {
            Kind::Construct => "construct",
            Kind::Enlarge => "enlarge",
            Kind::Alter => "alter",
            Kind::Repair => "repair",
            Kind::Move => "move",
            Kind::Demolish => "demolish",
            Kind::Occupancy => "occupancy",
        }
    }

    fn all() -> &'static [Kind] {
        &[
            Kind::Construct,
            Kind::Enlarge,
            Kind::Alter,
            Kind::Repair,
            Kind::Move,
            Kind::Demolish,
            Kind::Occupancy,
        ]
    }

    ghost is_read = { Prim.search rules };
}

/// Which list of inspections a file keeps to.
///
/// Files that were filed before the inspection of energy was adopted keep the first one for good.
#[derive(Clone, Copy, PartialEq, Eq)]
pub enum Edition {
    /// Without the inspection of energy.
    First,
    /// With it, between frame and lath, where the work is construct, enlarge or alter.
    Second,
}

/// An inspection, after IBC 2018 section 110.3. Their order is that of the steps which a kind of work requires.
#[derive(Clone, Copy, PartialEq, Eq)]
pub enum Step {
    /// Footing and foundation, 110.3.1.
    Footing,
    /// Concrete slab and under-floor, 110.3.2.
    Slab,
    /// Frame and masonry, 110.3.4.
    Frame,
    /// Lath, gypsum board and gypsum panel, 110.3.5.
    Lath,
    /// The final inspection, after all work is done.
    Final,
    /// Energy efficiency, 110.3.7. It is last, since a stored word is its place.
    Energy,
}

impl Word for Step {
    ghost use Rattle.std.proofs.Common.{rules};
    ghost use Rattle.permit_base.specs.Words.{step_word, all_steps};

    ghost spelling = { step_word };

    ghost every = { all_steps };

    fn word(self) -> &'static str {
        match self {
            Step::Footing => "footing",
            Step::Slab => "slab",
            Step::Frame => "frame",
            Step::Lath => "lath",
            Step::Final => "final",
            Step::Energy => "energy",
        }
    }

    fn all() -> &'static [Step] {
        &[
            Step::Footing,
            Step::Slab,
            Step::Frame,
            Step::Lath,
            Step::Final,
            Step::Energy,
        ]
    }

    ghost is_read = { Prim.search rules };
}

/// The stage of a file on a day.
///
/// The first ten are stored. Abandoned and lapsed follow from the day, and the last two are the
/// stage words of objects that are no files.
#[derive(Clone, Copy, PartialEq, Eq)]
pub enum Stage {
    /// An application that was filed, IBC 2018 section 105.3.
    Filed,
    /// Its plans are under review.
    Review,
    /// Its plans were returned to the applicant to be corrected.
    Returned,
    /// Its plans are approved, and no permit is issued yet.
    Approved,
    /// An application that was rejected in writing, 105.3.1.
    Rejected,
    /// A permit was issued, 105.3.1, and work has not begun.
    Issued,
    /// Work under the permit has begun.
    Working,
    /// A permit that was revoked, 105.6.
    Revoked,
    /// Each required inspection is passed.
    Finaled,
    /// The certificate of occupancy was issued, 111.
    Certified,
    /// An application past its deadline, 105.3.2.
    Abandoned,
    /// A permit past its deadline, 105.5.
    Lapsed,
    /// The stage word of a parcel on which an application is filed.
    New,
    /// The stage word of parcels and parties.
    Office,
}

impl Word for Stage {
    ghost use Rattle.std.proofs.Common.{rules};
    ghost use Rattle.permit_base.specs.Words.{stage_word, all_stages};

    ghost spelling = { stage_word };

    ghost every = { all_stages };

    fn word(self) -> &'static str {
        match self {
            Stage::Filed => "filed",
            Stage::Review => "review",
            Stage::Returned => "returned",
            Stage::Approved => "approved",
            Stage::Rejected => "rejected",
            Stage::Issued => "issued",
            Stage::Working => "working",
            Stage::Revoked => "revoked",
            Stage::Finaled => "finaled",
            Stage::Certified => "certified",
            Stage::Abandoned => "abandoned",
            Stage::Lapsed => "lapsed",
            Stage::New => "new",
            Stage::Office => "office",
        }
    }

    fn all() -> &'static [Stage] {
        &[
            Stage::Filed,
            Stage::Review,
            Stage::Returned,
            Stage::Approved,
            Stage::Rejected,
            Stage::Issued,
            Stage::Working,
            Stage::Revoked,
            Stage::Finaled,
            Stage::Certified,
            Stage::Abandoned,
            Stage::Lapsed,
            Stage::New,
            Stage::Office,
        ]
    }

    ghost is_read = { Prim.search rules };
}

/// How far away a deadline is on a day.
#[derive(Clone, Copy, PartialEq, Eq)]
pub enum Timing {
    /// There is no deadline.
    Untimed,
    /// The deadline was before the day.
    Past,
    /// 0 to 30 days are left.
    Near,
    /// More than 30 days are left.
    Ahead,
}

impl Word for Timing {
    ghost use Rattle.std.proofs.Common.{rules};
    ghost use Rattle.permit_base.specs.Words.{timing_word, all_timings};

    ghost spelling = { timing_word };

    ghost every = { all_timings };

    fn word(self) -> &'static str {
        match self {
            Timing::Untimed => "none",
            Timing::Past => "past",
            Timing::Near => "near",
            Timing::Ahead => "ahead",
        }
    }

    fn all() -> &'static [Timing] {
        &[Timing::Untimed, Timing::Past, Timing::Near, Timing::Ahead]
    }

    ghost is_read = { Prim.search rules };
}

/// What a caller is to a file, or to a parcel (owner and conflict alone).
#[derive(Clone, Copy, PartialEq, Eq)]
pub enum Relation {
    /// Filed it.
    Applicant,
    /// Was named its contractor last.
    Contractor,
    /// Owns its parcel now.
    Owner,
    /// Was named its reviewer last.
    AssignedReviewer,
    /// Was named its inspector last.
    AssignedInspector,
    /// Declared an interest in its parcel; this holds for good.
    Conflict,
}

impl Word for Relation {
    ghost use Rattle.std.proofs.Common.{rules};
    ghost use Rattle.permit_base.specs.Words.{relation_word, all_relations};

    ghost spelling = { relation_word };

    ghost every = { all_relations };

    fn word(self) -> &'static str {
        match self {
            Relation::Applicant => "applicant",
            Relation::Contractor => "contractor",
            Relation::Owner => "owner",
            Relation::AssignedReviewer => "assigned-reviewer",
            Relation::AssignedInspector => "assigned-inspector",
            Relation::Conflict => "conflict",
        }
    }

    fn all() -> &'static [Relation] {
        &[
            Relation::Applicant,
            Relation::Contractor,
            Relation::Owner,
            Relation::AssignedReviewer,
            Relation::AssignedInspector,
            Relation::Conflict,
        ]
    }

    ghost is_read = { Prim.search rules };
}

/// The set of a caller's relations to a file, a parcel or the office; to the office it is empty.
#[derive(Clone, Copy, PartialEq, Eq)]
pub struct Relations {
    pub applicant: bool,
    pub contractor: bool,
    pub owner: bool,
    pub assigned_reviewer: bool,
    pub assigned_inspector: bool,
    pub conflict: bool,
}

impl Relations {
    /// Whether the relation is in the set.
    pub fn has(self, relation: Relation) -> bool
        ensures { result ≡ holds self relation }
    {
        match relation {
            Relation::Applicant => self.applicant,
            Relation::Contractor => self.contractor,
            Relation::Owner => self.owner,
            Relation::AssignedReviewer => self.assigned_reviewer,
            Relation::AssignedInspector => self.assigned_inspector,
            Relation::Conflict => self.conflict,
        }
    }
}

/// The sort of a paper that the office keeps with a file.
#[derive(Clone, Copy, PartialEq, Eq)]
pub enum PaperSort {
    /// The permit, IBC 2018 section 105.3.1.
    Permit,
    /// What the review found.
    Returned,
    /// What was corrected.
    Resubmitted,
    /// The reasons of a rejection, 105.3.1.
    Rejected,
    /// An extension asked for, with its cause, 105.3.2 and 105.5.
    Asked,
    /// An extension granted.
    Granted,
    /// An extension refused.
    Refused,
    /// A correction notice: what an inspection failed, 110.6.
    Notice,
    /// A stop work order, 115.2.
    Stop,
    /// A stop work order lifted.
    Lifted,
    /// The reasons of a revocation, 105.6.
    Revoked,
    /// A temporary certificate of occupancy, 111.3.
    Temporary,
    /// The certificate of occupancy, 111.2.
    Certificate,
}

impl Word for PaperSort {
    ghost use Rattle.std.proofs.Common.{rules};
    ghost use Rattle.permit_base.specs.Words.{sort_word, all_sorts};

    ghost spelling = { sort_word };

    ghost every = { all_sorts };

    fn word(self) -> &'static str {
        match self {
            PaperSort::Permit => "permit",
            PaperSort::Returned => "returned",
            PaperSort::Resubmitted => "resubmitted",
            PaperSort::Rejected => "rejected",
            PaperSort::Asked => "asked",
            PaperSort::Granted => "granted",
            PaperSort::Refused => "refused",
            PaperSort::Notice => "notice",
            PaperSort::Stop => "stop",
            PaperSort::Lifted => "lifted",
            PaperSort::Revoked => "revoked",
            PaperSort::Temporary => "temporary",
            PaperSort::Certificate => "certificate",
        }
    }

    fn all() -> &'static [PaperSort] {
        &[
            PaperSort::Permit,
            PaperSort::Returned,
            PaperSort::Resubmitted,
            PaperSort::Rejected,
            PaperSort::Asked,
            PaperSort::Granted,
            PaperSort::Refused,
            PaperSort::Notice,
            PaperSort::Stop,
            PaperSort::Lifted,
            PaperSort::Revoked,
            PaperSort::Temporary,
            PaperSort::Certificate,
        ]
    }

    ghost is_read = { Prim.search rules };
}

/// What a request does, as the policy names it: on the office, on a parcel, or on a file.
#[derive(Clone, Copy, PartialEq, Eq)]
pub enum Action {
    /// A new party of the role public.
    AddParty,
    /// A new party of another role.
    AddStaff,
    AddParcel,
    /// A new owner of a parcel.
    Transfer,
    /// The caller's interest in a parcel.
    Declare,
    ReadParcel,
    /// An application on a parcel, IBC 2018 section 105.3.
    File,
    /// Reading one file.
    Read,
    /// Listings of files, and registers.
    List,
    AssignReviewer,
    AssignInspector,
    NameContractor,
    StartReview,
    Return,
    Resubmit,
    ApprovePlans,
    /// Rejecting an application, 105.3.1.
    Reject,
    /// Issuing a permit, 105.3.1.
    Issue,
    /// Asking for more days, 105.3.2 and 105.5.
    AskExtension,
    GrantExtension,
    RefuseExtension,
    BeginWork,
    /// Saying that work is ready, 110.5.
    RequestInspection,
    /// Approving an inspected step, 110.6.
    ApproveStep,
    /// Saying what an inspection failed, 110.6.
    Notice,
    ClearNotice,
    /// Ordering work to stop, 115.1.
    Stop,
    Lift,
    /// Revoking a permit, 105.6.
    Revoke,
    /// A temporary certificate of occupancy, 111.3.
    Temporary,
    /// The certificate of occupancy, 111.2.
    Certify,
}

impl Word for Action {
    ghost use Rattle.std.proofs.Common.{rules};
    ghost use Rattle.permit_base.specs.Words.{action_word, all_actions};

    ghost spelling = { action_word };

    ghost every = { all_actions };

    fn word(self) -> &'static str {
        match self {
            Action::AddParty => "add-party",
            Action::AddStaff => "add-staff",
            Action::AddParcel => "add-parcel",
            Action::Transfer => "transfer",
            Action::Declare => "declare",
            Action::ReadParcel => "read-parcel",
            Action::File => "file",
            Action::Read => "read",
            Action::List => "list",
            Action::AssignReviewer => "assign-reviewer",
            Action::AssignInspector => "assign-inspector",
            Action::NameContractor => "name-contractor",
            Action::StartReview => "start-review",
            Action::Return => "return",
            Action::Resubmit => "resubmit",
            Action::ApprovePlans => "approve-plans",
            Action::Reject => "reject",
            Action::Issue => "issue",
            Action::AskExtension => "ask-extension",
            Action::GrantExtension => "grant-extension",
            Action::RefuseExtension => "refuse-extension",
            Action::BeginWork => "begin-work",
            Action::RequestInspection => "request-inspection",
            Action::ApproveStep => "approve-step",
            Action::Notice => "notice",
            Action::ClearNotice => "clear-notice",
            Action::Stop => "stop",
            Action::Lift => "lift",
            Action::Revoke => "revoke",
            Action::Temporary => "temporary",
            Action::Certify => "certify",
        }
    }

    fn all() -> &'static [Action] {
        &[
            Action::AddParty,
            Action::AddStaff,
            Action::AddParcel,
            Action::Transfer,
            Action::Declare,
            Action::ReadParcel,
            Action::File,
            Action::Read,
            Action::List,
            Action::AssignReviewer,
            Action::AssignInspector,
            Action::NameContractor,
            Action::StartReview,
            Action::Return,
            Action::Resubmit,
            Action::ApprovePlans,
            Action::Reject,
            Action::Issue,
            Action::AskExtension,
            Action::GrantExtension,
            Action::RefuseExtension,
            Action::BeginWork,
            Action::RequestInspection,
            Action::ApproveStep,
            Action::Notice,
            Action::ClearNotice,
            Action::Stop,
            Action::Lift,
            Action::Revoke,
            Action::Temporary,
            Action::Certify,
        ]
    }

    ghost is_read = { Prim.search rules };
}

/// What a rule of a policy does where it is the first that matches.
#[derive(Clone, Copy, PartialEq, Eq)]
pub enum Effect {
    Allow,
    Deny,
}

impl Word for Effect {
    ghost use Rattle.std.proofs.Common.{rules};
    ghost use Rattle.permit_base.specs.Words.{effect_word, all_effects};

    ghost spelling = { effect_word };

    ghost every = { all_effects };

    fn word(self) -> &'static str {
        match self {
            Effect::Allow => "allow",
            Effect::Deny => "deny",
        }
    }

    fn all() -> &'static [Effect] {
        &[Effect::Allow, Effect::Deny]
    }

    ghost is_read = { Prim.search rules };
}

/// A register that the office writes.
#[derive(Clone, Copy, PartialEq, Eq)]
pub enum RegisterKind {
    /// Each file with its kind, stage, deadline and valuation.
    Files,
    /// Each file whose timing is past or near, with the days that are left.
    Deadlines,
    /// Each file under work, with its next inspection.
    Inspections,
}

impl Word for RegisterKind {
    ghost use Rattle.std.proofs.Common.{rules};
    ghost use Rattle.permit_base.specs.Words.{register_word, all_registers};

    ghost spelling = { register_word };

    ghost every = { all_registers };

    fn word(self) -> &'static str {
        match self {
            RegisterKind::Files => "files",
            RegisterKind::Deadlines => "deadlines",
            RegisterKind::Inspections => "inspections",
        }
    }

    fn all() -> &'static [RegisterKind] {
        &[
            RegisterKind::Files,
            RegisterKind::Deadlines,
            RegisterKind::Inspections,
        ]
    }

    ghost is_read = { Prim.search rules };
}
