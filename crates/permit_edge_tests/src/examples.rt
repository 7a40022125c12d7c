//! The examples of the doc comments of what reads a command line, what its subcommands do, why a policy is refused and
//! what ends the serving, line by line as they are written there.

use permit_args::checking::explained_text;
use permit_args::facts::{FactsFault, facts_fault, read_facts};
use permit_args::plan::{Plan, TokenWords};
use permit_args::words::plan;
use permit_base::request::Filter;
use permit_base::words::{Action, Role, Timing};
use permit_policy::{
    Facts, TableForm, changes_text, differences, read_policy, table_of, table_text,
};
use permit_reasons::policy_reason;
use permit_samples::ask::TOKENS;
use permit_samples::makers::{day, token};
use permit_samples::offices::over_vectors;
use permit_sockets::serving::{Ends, any_stopped};
use permit_sockets::stop::Stop;
use permit_subcommands::answering::{ask, show};
use permit_subcommands::explaining::{founder_reason, name_reason, token_reason};
use permit_subcommands::founding::founder;
use permit_subcommands::listing::{list, listing_text};
use permit_subcommands::printing::print_about;
use std::alloc::Global;
use std::process::Abort;
use std::sync::Arc;
use std::sync::atomic::{AtomicBool, Ordering};
use std::test::Fail;

fn words(rt: &impl Abort, alloc: Global) -> Result<(), Fail> {
    let mut words = Vec::new(alloc);
    for word in ["check-db", "--db", "office.db"] {
        words.push(String::from_str(alloc, word)?)?;
    }
    let planned = plan(alloc, words.as_slice());
    assert!(rt; matches!(planned, Ok(Plan::CheckDb(_))));
    Ok(())
}

fn policies(rt: &impl Abort, alloc: Global) -> Result<(), Fail> {
    let text = "reviewer,assigned-reviewer,approve-plans,review,no,ahead";
    let facts = read_facts(alloc, text)?.ok_or("facts")?;
    assert!(rt; facts.role == Role::Reviewer);
    assert!(rt; read_facts(alloc, "reviewer")?.is_none());
    let text = "public,applicant/owner+not-conflict,read,-,-,past/near";
    let facts = read_facts(alloc, text)?.ok_or("facts")?;
    assert!(rt; facts.relations.applicant && facts.timing == Timing::Past);
    Ok(())
}

fn explanations(rt: &impl Abort, alloc: Global) -> Result<(), Fail> {
    let facts = Facts::office(Role::Reviewer, Action::ReadParcel);
    let text = "[[rule]]\nname = \"plans\"\neffect = \"allow\"\nrole = [\"reviewer\"]\n";
    let policy = read_policy(alloc, text)?;
    let explained = explained_text(alloc, &policy, &facts)?;
    assert!(rt; explained.as_str() == "plans match\ndecided plans allow\n");
    Ok(())
}

fn changes(rt: &impl Abort, alloc: Global) -> Result<(), Fail> {
    let text = "[[rule]]\nname = \"plans\"\neffect = \"allow\"\nrole = [\"reviewer\"]\n";
    let new = read_policy(alloc, text)?;
    let old = read_policy(alloc, "")?;
    let all = differences(alloc, &new, &old)?;
    let said = changes_text(alloc, &all)?;
    assert!(rt; said.as_str().ends_with("opens 222208 closes 0\n"));
    let rows = table_of(alloc, &new)?;
    let table = table_text(alloc, &rows, TableForm::Csv)?;
    let head = "action,public,clerk,reviewer,inspector,official\r\nadd-party,no,no,yes,no,no\r\n";
    assert!(rt; table.as_str().starts_with(head));
    Ok(())
}

fn faults(rt: &impl Abort, alloc: Global) -> Result<(), Fail> {
    let text = "reviewer,friend,approve-plans,review,maybe,ahead";
    assert!(rt; facts_fault(alloc, text)? == Some(FactsFault::Relations));
    assert!(rt; facts_fault(alloc, "reviewer")? == Some(FactsFault::Count));
    assert!(rt; facts_fault(alloc, "clerk,-,list,filed,no,near")?.is_none());
    Ok(())
}

fn words_taken(rt: &impl Abort, alloc: Global) {
    let words = TokenWords::File("chief.token");
    assert_eq!(rt; founder_reason("", &words), name_reason());
    assert_eq!(rt; founder_reason("Ada", &words), token_reason(&words));
    let mut err = Vec::new(alloc);
    assert!(rt; print_about(&mut err, "office.db", "no such file or folder").is_ok());
    assert!(rt; err.as_slice() == b"office.db: no such file or folder\n".as_slice());
}

fn reasons(rt: &impl Abort, alloc: Global) -> Result<(), Fail> {
    let text = "[[rule]]\nname = \"plans\"\neffect = \"alow\"\n";
    let Err(error) = read_policy(alloc, text) else {
        return Err(Fail::new("a policy"));
    };
    let line = policy_reason(alloc, text, &error)?;
    assert!(rt; line.as_str() == "rule 1 `plans`: effect `alow`: allow or deny");
    Ok(())
}

fn founders(rt: &impl Abort, alloc: Global) -> Result<(), Fail> {
    let day = day(19700)?;
    let Ok(founder) = founder(alloc, "Ada", "abcdefghijklmnopqrstuvwxyz", day) else {
        return Err(Fail::new("no founder"));
    };
    assert!(rt; founder.name.as_str() == "Ada");
    Ok(())
}

fn offices(rt: &impl Abort, alloc: Global) -> Result<(), Fail> {
    let (day, office) = (day(19700)?, &mut over_vectors(alloc)?);
    let request = "GET /files HTTP/1.1\r\nHost: office\r\n\r\n";
    let answer = ask(alloc, office, request, day)?;
    let mut out = Vec::new(alloc);
    assert!(rt; show(alloc, &answer, &mut out).is_err());
    assert!(rt; out.as_slice() == b"{\"refused\":\"caller\"}\n".as_slice());
    let token = token(alloc, TOKENS[0])?;
    let Ok(listing) = list(office, token, Filter::All, day) else {
        return Err(Fail::new("no listing"));
    };
    assert!(rt; listing_text(alloc, &listing)?.as_str() == "read 0\n");
    Ok(())
}

fn flags(rt: &impl Abort, alloc: Global) -> Result<(), Fail> {
    let flag = Arc::new(alloc, AtomicBool::new(false))?;
    assert!(rt; Stop::seen(&flag).is_none());
    flag.store(true, Ordering::SeqCst);
    assert!(rt; Stop::seen(&flag).is_some());
    Ok(())
}

fn ends(rt: &impl Abort, alloc: Global) -> Result<(), Fail> {
    let mut ends: Ends<HostRuntime> = Vec::new(alloc);
    ends.push(None)?;
    assert!(rt; !any_stopped(&ends));
    Ok(())
}

#[test]
fn examples_hold(rt: HostRuntime) -> Result<(), Fail> {
    let alloc = rt.alloc();
    words(&rt, alloc)?;
    policies(&rt, alloc)?;
    explanations(&rt, alloc)?;
    changes(&rt, alloc)?;
    faults(&rt, alloc)?;
    words_taken(&rt, alloc);
    reasons(&rt, alloc)?;
    founders(&rt, alloc)?;
    offices(&rt, alloc)
}

#[test]
fn examples_of_serving_hold(rt: HostRuntime) -> Result<(), Fail> {
    let alloc = rt.alloc();
    flags(&rt, alloc)?;
    ends(&rt, alloc)
}
