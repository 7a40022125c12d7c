//! What the rules say of each stage: the department's table of stages, one line a stage.

ghost use Rattle.std.specs.Prelude.{◌≡◌};
ghost use Rattle.permit_base.specs.Stages.{stage_facts, is_running, past_stage};

use crate::words::Stage;

/// What expires in a stage where nothing is done (IBC 2018, sections 105.3.2 and 105.5).
#[derive(Clone, Copy, PartialEq, Eq)]
pub enum Expiry {
    /// Nothing: there is no deadline.
    Never,
    /// The application: it has a deadline, past which the application is abandoned.
    Application,
    /// The permit: it has a deadline, past which the permit has lapsed.
    Permit,
}

/// What is so of a file in a stage, and which commands the stage admits. A command that is admitted in one stage alone names
/// that stage itself.
#[derive(Clone, Copy)]
pub struct StageFacts {
    /// A file can be in it on some day.
    pub of_file: bool,
    /// A file's row keeps it. Abandoned and lapsed follow from the deadline, and are kept by none.
    pub stored: bool,
    /// Whose deadline runs in it.
    pub expiry: Expiry,
    /// The work is over: each step is approved, and no notice is open.
    pub complete: bool,
    /// The certificate is given, and no stop work order is in force.
    pub certified: bool,
    /// A row keeps it before a permit is issued: a pending ask is of the days of an application.
    pub unissued: bool,
    /// Work began in it, or its permit was revoked: some step is not approved, and a request or notice may be open.
    pub begun: bool,
    /// A stop work order may be in force.
    pub stopped: bool,
    /// A temporary certificate may be kept.
    pub occupied: bool,
    /// A reviewer is assigned in it.
    pub reviewing: bool,
    /// An inspector is assigned in it.
    pub inspecting: bool,
    /// A stop work order is given and lifted in it.
    pub stoppable: bool,
    /// A permit is revoked in it.
    pub revocable: bool,
}

/// A stage that a row keeps, and of which nothing else is so.
const PLAIN: StageFacts = StageFacts {
    of_file: true,
    stored: true,
    expiry: Expiry::Never,
    complete: false,
    certified: false,
    unissued: false,
    begun: false,
    stopped: false,
    occupied: false,
    reviewing: false,
    inspecting: false,
    stoppable: false,
    revocable: false,
};

/// A stage before the plans are approved.
const REVIEWED: StageFacts = StageFacts {
    expiry: Expiry::Application,
    unissued: true,
    reviewing: true,
    ..PLAIN
};

/// The stage word of what is no file.
const OTHER: StageFacts = StageFacts {
    of_file: false,
    stored: false,
    ..PLAIN
};

impl Expiry {
    /// Whether there is a deadline.
    pub fn is_timed(self) -> bool
        ensures { result ≡ is_running self }
    {
        self != Expiry::Never
    }
}

impl Stage {
    /// What is so of a file in the stage.
    pub fn facts(self) -> StageFacts
        ensures { result ≡ stage_facts self }
    {
        match self {
            Stage::Filed | Stage::Review | Stage::Returned => REVIEWED,
            Stage::Approved => StageFacts {
                expiry: Expiry::Application,
                unissued: true,
                inspecting: true,
                ..PLAIN
            },
            Stage::Rejected => StageFacts {
                unissued: true,
                ..PLAIN
            },
            Stage::Issued => StageFacts {
                expiry: Expiry::Permit,
                stopped: true,
                inspecting: true,
                stoppable: true,
                revocable: true,
                ..PLAIN
            },
            Stage::Working => StageFacts {
                expiry: Expiry::Permit,
                begun: true,
                stopped: true,
                occupied: true,
                inspecting: true,
                stoppable: true,
                revocable: true,
                ..PLAIN
            },
            Stage::Revoked => StageFacts {
                begun: true,
                stopped: true,
                occupied: true,
                stoppable: true,
                ..PLAIN
            },
            Stage::Finaled => StageFacts {
                complete: true,
                stopped: true,
                occupied: true,
                stoppable: true,
                ..PLAIN
            },
            Stage::Certified => StageFacts {
                complete: true,
                certified: true,
                occupied: true,
                ..PLAIN
            },
            Stage::Abandoned => StageFacts {
                stored: false,
                ..PLAIN
            },
            Stage::Lapsed => StageFacts {
                stored: false,
                stoppable: true,
                revocable: true,
                ..PLAIN
            },
            Stage::New | Stage::Office => OTHER,
        }
    }

    /// The stage of a file in this one once its deadline is past.
    pub fn expired(self) -> Stage
        ensures { result ≡ past_stage self }
    {
        match self.facts().expiry {
            Expiry::Never => self,
            Expiry::Application => Stage::Abandoned,
            Expiry::Permit => Stage::Lapsed,
        }
    }
}
