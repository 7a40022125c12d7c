//! What is ordered on a file whose history is measured, and by whom.

use crate::office::{party, text};
use anyhow::{Result, anyhow};
use permit_base::request::Command;
use permit_base::values::{Days, PaperNumber, Text};
use permit_base::words::Step;
use std::alloc::Global;

/// Who orders.
#[derive(Clone, Copy)]
pub enum Caller {
    Official,
    Reviewer,
    Inspector,
    Public,
}

/// A command on a file, whose texts are yet to be made.
#[derive(Clone, Copy)]
pub enum Order {
    AssignReviewer,
    StartReview,
    ApprovePlans,
    AssignInspector,
    Issue,
    BeginWork,
    AskExtension,
    GrantExtension,
    RefuseExtension,
    RequestInspection(Step),
    ApproveStep(Step),
    Notice,
    /// Clears the notice that the order before it made.
    ClearNotice,
    Stop,
    Lift,
    NameContractor,
    Temporary,
    Certify,
}

/// From the filing to work that has begun.
pub const BEGINNING: [Order; 6] = [
    Order::AssignReviewer,
    Order::StartReview,
    Order::ApprovePlans,
    Order::AssignInspector,
    Order::Issue,
    Order::BeginWork,
];

/// From there to the certificate.
pub const COMPLETION: [Order; 15] = [
    Order::AskExtension,
    Order::GrantExtension,
    Order::RequestInspection(Step::Footing),
    Order::ApproveStep(Step::Footing),
    Order::RequestInspection(Step::Slab),
    Order::ApproveStep(Step::Slab),
    Order::RequestInspection(Step::Frame),
    Order::ApproveStep(Step::Frame),
    Order::RequestInspection(Step::Energy),
    Order::ApproveStep(Step::Energy),
    Order::RequestInspection(Step::Lath),
    Order::ApproveStep(Step::Lath),
    Order::RequestInspection(Step::Final),
    Order::ApproveStep(Step::Final),
    Order::Certify,
];

/// What a file at work can go through again and again, since it stays as it was but for its papers: an inspection that
/// fails and its correction, an extension that is refused, a stop and its end, people who are named anew, and a
/// temporary certificate.
pub const ROUND: [Order; 10] = [
    Order::RequestInspection(Step::Footing),
    Order::Notice,
    Order::ClearNotice,
    Order::AskExtension,
    Order::RefuseExtension,
    Order::Stop,
    Order::Lift,
    Order::NameContractor,
    Order::AssignInspector,
    Order::Temporary,
];

impl Order {
    /// Who gives the order.
    pub fn caller(self) -> Caller {
        match self {
            Order::StartReview | Order::ApprovePlans => Caller::Reviewer,
            Order::ApproveStep(_) | Order::Notice | Order::ClearNotice | Order::Stop =>
                Caller::Inspector,
            Order::BeginWork | Order::AskExtension | Order::RequestInspection(_) => Caller::Public,
            _ => Caller::Official,
        }
    }

    /// The command of the order, where the order before it made the paper of this number.
    pub fn command(self, alloc: Global, made: Option<u32>) -> Result<Command> {
        match self {
            Order::AssignReviewer => Ok(Command::AssignReviewer { party: party(2)? }),
            Order::AssignInspector => Ok(Command::AssignInspector { party: party(3)? }),
            Order::NameContractor => Ok(Command::NameContractor { party: party(4)? }),
            Order::ClearNotice => clear_notice(made),
            Order::StartReview => Ok(Command::StartReview),
            Order::ApprovePlans => Ok(Command::ApprovePlans),
            Order::Issue => Ok(Command::Issue),
            Order::BeginWork => Ok(Command::BeginWork),
            Order::GrantExtension => Ok(Command::GrantExtension),
            Order::RequestInspection(step) => Ok(Command::RequestInspection { step }),
            Order::ApproveStep(step) => Ok(Command::ApproveStep { step }),
            Order::Lift => Ok(Command::Lift),
            Order::Certify => Ok(Command::Certify),
            Order::AskExtension => ask_extension(alloc),
            Order::RefuseExtension => refuse_extension(alloc),
            Order::Notice => notice(alloc),
            Order::Stop => stop(alloc),
            Order::Temporary => temporary(alloc),
        }
    }
}

fn days(count: u32) -> Result<Days> {
    Days::new(count).ok_or(anyhow!("no days"))
}

fn clear_notice(made: Option<u32>) -> Result<Command> {
    let paper = made.and_then(PaperNumber::new).ok_or(anyhow!("no notice"))?;
    Ok(Command::ClearNotice { paper })
}

fn ask_extension(alloc: Global) -> Result<Command> {
    Ok(Command::AskExtension {
        days: days(30)?,
        text: text(alloc, "Late delivery")?,
    })
}

fn refuse_extension(alloc: Global) -> Result<Command> {
    Ok(Command::RefuseExtension {
        text: text(alloc, "No cause")?,
    })
}

fn notice(alloc: Global) -> Result<Command> {
    Ok(Command::Notice {
        text: text(alloc, "Rebar is short")?,
    })
}

fn stop(alloc: Global) -> Result<Command> {
    Ok(Command::Stop {
        text: text(alloc, "No fence")?,
        conditions: text(alloc, "A fence stands")?,
    })
}

fn temporary(alloc: Global) -> Result<Command> {
    Ok(Command::Temporary {
        days: days(60)?,
        text: text(alloc, "Ground floor")?,
    })
}
