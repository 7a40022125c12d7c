//! What the standard policy lets staff do who have an interest in the parcel.

use permit_base::words::{Action, Relations, Role, Stage, Timing, Word};
use permit_policy::decide::decide;
use permit_policy::facts::Facts;
use permit_policy::{Policy, read_policy};
use permit_samples::held::Held;
use permit_samples::standard::POLICY;
use std::test::Fail;

/// Each action with the staff who may do it, first without an interest in the parcel and then with one: `c` for a
/// clerk, `r` for the assigned reviewer, `i` for the assigned inspector, `o` for an official, in that order, and a
/// hyphen in the place of who may not. It is read off the twelve rules by hand: a new action needs a line here, and
/// with it the answer whether `no-conflict` is to list it.
const STAFF: &[(Action, &str, &str)] = &[
    (Action::AddParty, "c--o", "c--o"),
    (Action::AddStaff, "---o", "---o"),
    (Action::AddParcel, "c--o", "c--o"),
    (Action::Transfer, "c--o", "c--o"),
    (Action::Declare, "crio", "crio"),
    (Action::ReadParcel, "c--o", "c--o"),
    (Action::File, "---o", "---o"),
    (Action::Read, "crio", "crio"),
    (Action::List, "crio", "crio"),
    (Action::AssignReviewer, "c--o", "c--o"),
    (Action::AssignInspector, "c--o", "c--o"),
    (Action::NameContractor, "c--o", "c--o"),
    (Action::StartReview, "-r-o", "----"),
    (Action::Return, "-r-o", "----"),
    (Action::Resubmit, "---o", "---o"),
    (Action::ApprovePlans, "-r-o", "----"),
    (Action::Reject, "-r-o", "----"),
    (Action::Issue, "---o", "----"),
    (Action::AskExtension, "---o", "---o"),
    (Action::GrantExtension, "---o", "---o"),
    (Action::RefuseExtension, "---o", "---o"),
    (Action::BeginWork, "---o", "---o"),
    (Action::RequestInspection, "---o", "---o"),
    (Action::ApproveStep, "--io", "----"),
    (Action::Notice, "--io", "----"),
    (Action::ClearNotice, "--io", "----"),
    (Action::Stop, "--io", "--io"),
    (Action::Lift, "---o", "---o"),
    (Action::Revoke, "---o", "---o"),
    (Action::Temporary, "---o", "----"),
    (Action::Certify, "---o", "----"),
];

/// The letter where the policy allows, else a hyphen.
fn letter(policy: &Policy, letter: u8, role: Role, action: Action, conflict: bool) -> u8 {
    let facts = Facts {
        role,
        relations: Relations {
            applicant: false,
            contractor: false,
            owner: false,
            assigned_reviewer: role == Role::Reviewer,
            assigned_inspector: role == Role::Inspector,
            conflict,
        },
        action,
        stage: Stage::Working,
        stopped: false,
        timing: Timing::Ahead,
    };
    if decide(policy, &facts).is_allow() {
        letter
    } else {
        b'-'
    }
}

/// The letters of the staff who may.
fn allowed(policy: &Policy, action: Action, conflict: bool) -> [u8; 4] {
    [
        letter(policy, b'c', Role::Clerk, action, conflict),
        letter(policy, b'r', Role::Reviewer, action, conflict),
        letter(policy, b'i', Role::Inspector, action, conflict),
        letter(policy, b'o', Role::Official, action, conflict),
    ]
}

#[test]
fn staff_with_an_interest(rt: HostRuntime) -> Result<(), Fail> {
    let policy = Held::new(read_policy(rt.alloc(), POLICY)?);
    assert_eq!(rt; STAFF.len(), Action::all().len());
    for (place, action) in Action::all().iter().enumerate() {
        let word = action.word();
        let (of, without, with) = STAFF.get(place).ok_or("an action without a line")?;
        assert!(rt; of == action, "{word}");
        assert!(rt;
            allowed(&policy.value, *action, false).as_slice() == without.as_bytes(),
            "{word}"
        );
        assert!(rt;
            allowed(&policy.value, *action, true).as_slice() == with.as_bytes(),
            "{word}"
        );
    }
    Ok(())
}
