//! What the words of a command line say of a history.

use permit_args::plan::{Keeping, Plan, PlanFault};
use permit_args::words::plan;
use permit_base::values::Digest;
use std::alloc::Global;
use std::test::Fail;

const DIGEST: &str = "8e4ad670e47c05c90fb8f36b87c0fe417be8208108542e1427ab9f9bc402fc97";

/// The words of a line.
fn words_of(alloc: Global, line: &str) -> Result<Vec<String>, Fail> {
    let mut words = Vec::new(alloc);
    for word in line.split(' ') {
        words.push(String::from_str(alloc, word)?)?;
    }
    Ok(words)
}

/// The line that says why words are bad; empty where they aren't.
fn refusal(alloc: Global, line: &str) -> Result<String, Fail> {
    let words = words_of(alloc, line)?;
    match plan(alloc, words.as_slice()) {
        Err(PlanFault::Words(text)) => Ok(text),
        _ => Ok(String::new(alloc)),
    }
}

#[test]
fn a_history_is_named_or_none_is_kept(rt: HostRuntime) -> Result<(), Fail> {
    let alloc = rt.alloc();
    for (line, named, without) in [
        ("upgrade --db a.db", None, false),
        ("upgrade --db a.db --no-history", None, true),
        ("upgrade --db a.db --history b", Some("b"), false),
    ] {
        let words = words_of(alloc, line)?;
        let Ok(Plan::Upgrade(upgrade)) = plan(alloc, words.as_slice()) else {
            return Err(Fail::new("no upgrade"));
        };
        assert_eq!(rt; upgrade.history.named(), named);
        assert_eq!(rt; matches!(upgrade.history, Keeping::Without), without);
    }
    Ok(())
}

#[test]
fn a_history_that_is_named_is_kept(rt: HostRuntime) -> Result<(), Fail> {
    let alloc = rt.alloc();
    for line in [
        "upgrade --db a.db --history b --no-history",
        "act --db a.db --policy p --token t --history b --no-history GET /files",
        "import --db a.db --policy p --token t --no-history --history b records",
        "serve --db a.db --policy p --listen l --no-history --history b --from c",
        "renew-token --db a.db --party 2 --token t --history b --no-history",
    ] {
        let text = refusal(alloc, line)?;
        assert!(rt;
            text.as_str().starts_with(
                "error: the argument '--history <PATH>' cannot be used with '--no-history'\n",
            )
        );
    }
    Ok(())
}

#[test]
fn lines_are_verified(rt: HostRuntime) -> Result<(), Fail> {
    let alloc = rt.alloc();
    let sha256 = Digest::read(DIGEST).ok_or("a digest")?;
    for lines in [1, 2, 18446744073709551615] {
        let line = format!(in alloc; "history --history a --verify {lines} {DIGEST}")?;
        let words = words_of(alloc, line.as_str())?;
        let Ok(Plan::History(history)) = plan(alloc, words.as_slice()) else {
            return Err(Fail::new("no history"));
        };
        let verify = history.verify.ok_or("lines")?;
        assert!(rt; verify.lines == lines && verify.sha256 == sha256);
    }
    let words = words_of(alloc, "history --history a")?;
    let Ok(Plan::History(history)) = plan(alloc, words.as_slice()) else {
        return Err(Fail::new("no history"));
    };
    assert!(rt; history.verify.is_none());
    Ok(())
}

#[test]
fn lines_that_are_none(rt: HostRuntime) -> Result<(), Fail> {
    let alloc = rt.alloc();
    for lines in ["0", "+2", "02", "two", "18446744073709551616"] {
        let line = format!(in alloc; "history --history a --verify {lines} {DIGEST}")?;
        let text = refusal(alloc, line.as_str())?;
        let said = format!(in alloc;
            "error: invalid value '{lines}' for '--verify <LINES> <SHA256>'\n"
        )?;
        assert!(rt; text.as_str().starts_with(said.as_str()));
    }
    for digest in [
        "8e4ad670e47c05c9",
        "8E4AD670E47C05C90FB8F36B87C0FE417BE8208108542E1427AB9F9BC402FC97",
        "8e4ad670e47c05c90fb8f36b87c0fe417be8208108542e1427ab9f9bc402fc9g",
    ] {
        let line = format!(in alloc; "history --history a --verify 2 {digest}")?;
        let text = refusal(alloc, line.as_str())?;
        let said = format!(in alloc;
            "error: invalid value '{digest}' for '--verify <LINES> <SHA256>'\n"
        )?;
        assert!(rt; text.as_str().starts_with(said.as_str()));
    }
    let text = refusal(alloc, "history --history a --verify 2")?;
    assert!(rt;
        text.as_str().starts_with(
            "error: 2 values required for '--verify <LINES> <SHA256>' but 1 was provided\n"
        )
    );
    Ok(())
}

#[test]
fn lines_are_verified_alone(rt: HostRuntime) -> Result<(), Fail> {
    let alloc = rt.alloc();
    for (chosen, name) in [
        ("--file 1", "--file <N>"),
        ("--parcel 1", "--parcel <N>"),
        ("--party 1", "--party <N>"),
        ("--since 2023-12-09", "--since <DAY>"),
        ("--db b.db", "--db <PATH>"),
    ] {
        let line = format!(in alloc; "history --history a {chosen} --verify 2 {DIGEST}")?;
        let text = refusal(alloc, line.as_str())?;
        let said = format!(in alloc;
            "error: the argument '{name}' cannot be used with '--verify <LINES> <SHA256>'\n"
        )?;
        assert!(rt; text.as_str().starts_with(said.as_str()));
    }
    Ok(())
}

#[test]
fn a_database_is_named_beside_a_history(rt: HostRuntime) -> Result<(), Fail> {
    let alloc = rt.alloc();
    for (line, db) in [
        ("history --history a", None),
        ("history --history a --db b.db --file 1", Some("b.db")),
    ] {
        let words = words_of(alloc, line)?;
        let Ok(Plan::History(history)) = plan(alloc, words.as_slice()) else {
            return Err(Fail::new("no history"));
        };
        assert_eq!(rt; history.db, db);
    }
    Ok(())
}

#[test]
fn the_last_line_is_replayed_where_it_is_settled(rt: HostRuntime) -> Result<(), Fail> {
    let alloc = rt.alloc();
    for (line, settled) in [
        ("replay --db a.db --history b", false),
        ("replay --db a.db --history b --settled", true),
    ] {
        let words = words_of(alloc, line)?;
        let Ok(Plan::Replay(replay)) = plan(alloc, words.as_slice()) else {
            return Err(Fail::new("no replay"));
        };
        assert_eq!(rt; replay.settled, settled);
    }
    Ok(())
}
