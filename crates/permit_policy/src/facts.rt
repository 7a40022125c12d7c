//! What a policy decides by.

ghost use Rattle.std.specs.Prelude.{◌≡◌};
ghost use Rattle.permit_model.specs.Facts.{office_facts};

use permit_base::words::{Action, Relations, Role, Stage, Timing};
use std::marker::Model;

/// The facts of one request on one object, by which a policy decides.
#[derive(Clone, Copy)]
pub struct Facts {
    /// The caller's role.
    pub role: Role,
    /// The full set of what the caller is to the object.
    pub relations: Relations,
    /// What is asked.
    pub action: Action,
    /// The object's stage on the day: `new` for a filing, `office` for what is no file.
    pub stage: Stage,
    /// Whether a stop work order is in force (IBC 2018, section 115).
    pub stopped: bool,
    /// How near the object's deadline is on the day.
    pub timing: Timing,
}

impl Model for Facts {
    ghost use Rattle.permit_model.specs.Facts.{Facts as TheFacts};

    ghost Value = { TheFacts };

    ghost view = { λ f. record { role = f.role; relations = f.relations; action = f.action; stage = f.stage; stopped = f.stopped; timing = f.timing } };

    ghost inverse = { λ f. record { role = f.role; relations = f.relations; action = f.action; stage = f.stage; stopped = f.stopped; timing = f.timing } };
}

impl Facts {
    /// The facts of a request on the office: no relation, the stage `office`, no deadline.
    pub fn office(role: Role, action: Action) -> Facts
        ensures { result ≡ office_facts role action }
    {
        Facts {
            role,
            relations: Relations {
                applicant: false,
                contractor: false,
                owner: false,
                assigned_reviewer: false,
                assigned_inspector: false,
                conflict: false,
            },
            action,
            stage: Stage::Office,
            stopped: false,
            timing: Timing::Untimed,
        }
    }
}
