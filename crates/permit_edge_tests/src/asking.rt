//! What is printed for a request to an office over vectors, and of an answer that is a refusal.

use permit_answer::answer::Answer;
use permit_args::plan::{ActWords, DayWords, Keeping, OfficeWords, TokenWords};
use permit_base::refusal::{Reason, Refusal};
use permit_base::values::RuleName;
use permit_base::words::Action;
use permit_http::fault::Fault;
use permit_office::office::Office;
use permit_office::reply::Reply;
use permit_samples::ask::TOKENS;
use permit_samples::makers::day;
use permit_samples::offices::{FOUNDED, office_over};
use permit_store::plain::PlainStore;
use permit_subcommands::answering::{ask, show};
use permit_subcommands::founding::founder;
use permit_subcommands::request::request;
use std::alloc::Global;
use std::test::Fail;

/// An office under a policy without rules, founded as the program founds one.
fn office(alloc: Global) -> Result<Office<PlainStore>, Fail> {
    let founder = founder(alloc, "Chief", TOKENS[0], day(FOUNDED)?)
        .ok()
        .ok_or("founder")?;
    office_over(alloc, PlainStore::create(alloc, &founder)?, "")
}

/// Bytes that are to be text.
fn text(bytes: Vec<u8>) -> Result<String, Fail> {
    Ok(String::from_utf8(bytes).ok().ok_or("text")?)
}

/// What is printed of an answer, and the line of the refusal that it is.
fn shown(alloc: Global, answer: &Answer) -> Result<(String, String), Fail> {
    let mut out = Vec::new(alloc);
    let line = match show(alloc, answer, &mut out) {
        Ok(()) => String::new(alloc),
        Err(fault) => fault.to_string(alloc)?,
    };
    Ok((text(out)?, line))
}

/// What is printed for a request, and the line of its fault.
fn asked<'x>(
    rt: &HostRuntime,
    office: &mut Office<PlainStore>,
    method: &'x str,
    path: &'x str,
    token: &'x str,
) -> Result<(String, String), Fail> {
    let alloc = rt.alloc();
    let words = ActWords {
        office: OfficeWords {
            db: "",
            policy: "",
            token: TokenWords::Given(token),
            days: DayWords {
                day: None,
                zone: None,
            },
            why: false,
        },
        history: Keeping::Unsaid,
        method,
        path,
        body: None,
    };
    match request(alloc, &words, token) {
        Ok(request) => shown(alloc, &ask(alloc, office, request.as_str(), day(FOUNDED)?)?),
        Err(fault) => Ok((String::new(alloc), fault.to_string(alloc)?)),
    }
}

#[test]
fn requests_are_answered(rt: HostRuntime) -> Result<(), Fail> {
    let mut office = office(rt.alloc())?;
    for (method, path, token, body, line) in [
        (
            "GET",
            "/files/1",
            "0000000000000000",
            "{\"refused\":\"caller\"}\n",
            "refused: caller",
        ),
        (
            "GET",
            "/nowhere",
            TOKENS[0],
            "{\"refused\":\"route\"}\n",
            "refused: route",
        ),
        (
            "GET",
            "/files/1",
            TOKENS[0],
            "{\"refused\":\"record\"}\n",
            "refused: record",
        ),
        ("GET", "/files/1", "short", "", "refused: caller"),
        ("GET", "/files/1 ", TOKENS[0], "", "refused: syntax"),
        ("", "/files/1", TOKENS[0], "", "refused: syntax"),
    ] {
        let (out, told) = asked(&rt, &mut office, method, path, token)?;
        assert_eq!(rt; (out.as_str(), told.as_str()), (body, line));
    }
    Ok(())
}

/// The answer that a refusal of a new parcel is.
fn refusal(why: Refusal) -> Result<Answer, Fail> {
    Ok(Answer::Replied {
        reply: Reply::Refused(why),
        action: Action::AddParcel,
        day: day(FOUNDED)?,
    })
}

#[test]
fn refusals_are_shown(rt: HostRuntime) -> Result<(), Fail> {
    let rule = RuleName::new("own-work").ok_or("rule")?;
    for (answer, body, line) in [
        (
            Answer::Fault(Fault::Large),
            "{\"refused\":\"large\"}\n",
            "refused: large",
        ),
        (
            refusal(Refusal::Denied(rule))?,
            "{\"refused\":\"denied\",\"rule\":\"own-work\"}\n",
            "refused: denied by own-work",
        ),
        (
            refusal(Refusal::NotAdmitted(Reason::Far))?,
            "{\"reason\":\"far\",\"refused\":\"not-admitted\"}\n",
            "refused: not admitted, far",
        ),
        (
            refusal(Refusal::Store)?,
            "{\"refused\":\"store\"}\n",
            "refused: store",
        ),
    ] {
        let (out, told) = shown(rt.alloc(), &answer)?;
        assert_eq!(rt; (out.as_str(), told.as_str()), (body, line));
    }
    Ok(())
}
