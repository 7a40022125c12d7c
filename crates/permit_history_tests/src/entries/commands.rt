//! The commands on a file.

use crate::entries::makers::{days, on_file, paper};
use permit_base::request::Command;
use permit_base::words::Step;
use permit_history::entry::Entry;
use permit_samples::makers::{party, text};
use std::alloc::Global;
use std::test::Fail;

/// The lines of `command`, in its order.
pub const LINES: [&str; 22] = [
    r#"{"body":{"party":3},"caller":4,"day":19901,"done":"assign-reviewer","id":1,"number":null}"#,
    r#"{"body":{"party":4},"caller":4,"day":19901,"done":"assign-inspector","id":1,"number":null}"#,
    r#"{"body":{"party":6},"caller":4,"day":19901,"done":"name-contractor","id":1,"number":null}"#,
    r#"{"body":{},"caller":4,"day":19901,"done":"start-review","id":1,"number":null}"#,
    r#"{"body":{"text":"Say which rafters"},"caller":4,"day":19901,"done":"return","id":1,"number":1}"#,
    r#"{"body":{"text":"All of them"},"caller":4,"day":19901,"done":"resubmit","id":1,"number":2}"#,
    r#"{"body":{},"caller":4,"day":19901,"done":"approve-plans","id":1,"number":null}"#,
    r#"{"body":{"text":"No access"},"caller":4,"day":19901,"done":"reject","id":1,"number":3}"#,
    r#"{"body":{},"caller":4,"day":19901,"done":"issue","id":1,"number":4}"#,
    r#"{"body":{"days":90,"text":"Ill"},"caller":4,"day":19901,"done":"ask-extension","id":1,"number":5}"#,
    r#"{"body":{},"caller":4,"day":19901,"done":"grant-extension","id":1,"number":6}"#,
    r#"{"body":{"text":"Too late"},"caller":4,"day":19901,"done":"refuse-extension","id":1,"number":7}"#,
    r#"{"body":{},"caller":4,"day":19901,"done":"begin-work","id":1,"number":null}"#,
    r#"{"body":{"step":"footing"},"caller":4,"day":19901,"done":"request-inspection","id":1,"number":null}"#,
    r#"{"body":{"step":"energy"},"caller":4,"day":19901,"done":"approve-step","id":1,"number":null}"#,
    r#"{"body":{"text":"Two rafters are cracked"},"caller":4,"day":19901,"done":"notice","id":1,"number":8}"#,
    r#"{"body":{"paper":8},"caller":4,"day":19901,"done":"clear-notice","id":1,"number":null}"#,
    r#"{"body":{"conditions":"A rail all round","text":"Unsafe scaffold"},"caller":4,"day":19901,"done":"stop","id":1,"number":9}"#,
    r#"{"body":{},"caller":4,"day":19901,"done":"lift","id":1,"number":10}"#,
    r#"{"body":{"text":"Another shed"},"caller":4,"day":19901,"done":"revoke","id":1,"number":11}"#,
    r#"{"body":{"days":30,"text":"The ground floor"},"caller":4,"day":19901,"done":"temporary","id":1,"number":12}"#,
    r#"{"body":{},"caller":4,"day":19901,"done":"certify","id":1,"number":9999}"#,
];

/// The entry of this place in `LINES`.
pub fn command(alloc: Global, place: usize) -> Result<Entry, Fail> {
    match place {
        0 => on_file(Command::AssignReviewer { party: party(3)? }, 0),
        1 => on_file(Command::AssignInspector { party: party(4)? }, 0),
        2 => on_file(Command::NameContractor { party: party(6)? }, 0),
        3 => on_file(Command::StartReview, 0),
        6 => on_file(Command::ApprovePlans, 0),
        8 => on_file(Command::Issue, 4),
        10 => on_file(Command::GrantExtension, 6),
        12 => on_file(Command::BeginWork, 0),
        13 => on_file(
            Command::RequestInspection {
                step: Step::Footing,
            },
            0,
        ),
        14 => on_file(Command::ApproveStep { step: Step::Energy }, 0),
        16 => on_file(Command::ClearNotice { paper: paper(8)? }, 0),
        18 => on_file(Command::Lift, 10),
        21 => on_file(Command::Certify, 9999),
        _ => with_text(alloc, place),
    }
}

/// Likewise, of a command whose body has a text alone.
fn with_text(alloc: Global, place: usize) -> Result<Entry, Fail> {
    let (letters, number) = match place {
        4 => ("Say which rafters", 1),
        5 => ("All of them", 2),
        7 => ("No access", 3),
        11 => ("Too late", 7),
        15 => ("Two rafters are cracked", 8),
        19 => ("Another shed", 11),
        _ => return with_more(alloc, place),
    };
    let text = text(alloc, letters)?;
    let command = match place {
        4 => Command::Return { text },
        5 => Command::Resubmit { text },
        7 => Command::Reject { text },
        11 => Command::RefuseExtension { text },
        15 => Command::Notice { text },
        _ => Command::Revoke { text },
    };
    on_file(command, number)
}

/// Likewise, of a command whose body has days or conditions beside a text.
fn with_more(alloc: Global, place: usize) -> Result<Entry, Fail> {
    if place == 17 {
        let conditions = text(alloc, "A rail all round")?;
        let text = text(alloc, "Unsafe scaffold")?;
        return on_file(Command::Stop { text, conditions }, 9);
    }
    if place == 9 {
        let days = days(90)?;
        let text = text(alloc, "Ill")?;
        return on_file(Command::AskExtension { days, text }, 5);
    }
    let days = days(30)?;
    let text = text(alloc, "The ground floor")?;
    on_file(Command::Temporary { days, text }, 12)
}
