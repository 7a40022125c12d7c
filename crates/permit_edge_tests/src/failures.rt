//! The lines of what can be wrong with a history.

use permit_subcommands::explaining::{Unread, line_reason, since_reason};
use permit_subcommands::failure::{Failure, HistoryFailure, LineReason};
use std::test::Fail;

#[test]
fn a_history_that_can_not_be_used(rt: HostRuntime) -> Result<(), Fail> {
    for (why, line) in [
        (HistoryFailure::Differs, "history: differs"),
        (HistoryFailure::Changed, "history: differs"),
        (
            HistoryFailure::Line(3, LineReason::Clock),
            "history: line 3",
        ),
        (HistoryFailure::Short, "history: short"),
        (HistoryFailure::Exists, "history: exists"),
        (HistoryFailure::Copy, "history: copy"),
        (HistoryFailure::Itself, "history: copy"),
        (HistoryFailure::Unused, "history: unused"),
        (HistoryFailure::Store, "history: store"),
    ] {
        let failure = Failure::History(why);
        let printed = format!(in rt.alloc(); "{failure}")?;
        assert_eq!(rt; printed.as_str(), line);
        assert_eq!(rt; failure.status(), 2);
    }
    Ok(())
}

#[test]
fn a_line_that_is_refused(rt: HostRuntime) -> Result<(), Fail> {
    for (reason, word) in [
        (LineReason::Long, "long"),
        (LineReason::Syntax, "syntax"),
        (LineReason::Fields, "fields"),
        (LineReason::Form, "form"),
        (LineReason::NoFounding, "no founding"),
        (LineReason::SecondBeginning, "second beginning"),
        (LineReason::SecondFounding, "second founding"),
        (LineReason::FirstEdition, "first edition"),
        (LineReason::UpgradeDay, "upgrade day"),
        (LineReason::SecondUpgrade, "second upgrade"),
        (LineReason::Caller, "caller"),
        (LineReason::Clock, "clock"),
        (LineReason::Record, "record"),
        (LineReason::NotAdmitted, "not admitted"),
        (LineReason::Number, "number"),
    ] {
        let (_, said) = line_reason(reason).split_once(": ").ok_or("a word")?;
        assert_eq!(rt; said, word);
    }
    assert!(rt; since_reason().starts_with("--since takes a date"));
    assert_eq!(rt;
        Unread::SecondName.line(),
        "the file has a second name, a hard link"
    );
    Ok(())
}
