//! The worked answers' bytes, and writers that fail.

use crate::streams::Narrow;
use permit_answer::answer::Answer;
use permit_answer::{WriteFault, write_reply};
use permit_base::refusal::{Reason, Refusal};
use permit_base::values::{Cents, PaperNumber, RuleName};
use permit_base::words::{Action, Edition, Kind, PaperSort, Stage, Timing};
use permit_core::row::{FileRow, FileView};
use permit_core::shared::SharedText;
use permit_core::state::FileState;
use permit_http::fault::Fault;
use permit_office::reply::Reply;
use permit_samples::held::Held;
use permit_samples::makers::{day, file, lot, parcel, party, text};
use permit_store::rows::{Paper, Parcel};
use std::alloc::Global;
use std::process::Abort;
use std::test::Fail;

/// What goes out where a read finds no memory.
const STORE_REFUSAL: &str =
    "HTTP/1.1 500 Internal Server Error\r\nContent-Type: application/json\r\nContent-Length: 19\r\nConnection: close\r\n\r\n{\"refused\":\"store\"}";

/// The answer to the first filing.
const FILED: &str =
    "HTTP/1.1 200 OK\r\nContent-Type: application/json\r\nContent-Length: 38\r\n\r\n{\"day\":19723,\"done\":\"file\",\"number\":1}";

/// The answer to reading that file on its deadline day.
const HOUSE: &str =
    "HTTP/1.1 200 OK\r\nContent-Type: application/json\r\nContent-Length: 336\r\n\r\n{\"applicant\":5,\"ask\":null,\"contractor\":null,\"deadline\":19903,\"description\":\"House\",\"done\":[],\"filed\":19723,\"id\":1,\"inspector\":null,\"kind\":\"construct\",\"next\":\"footing\",\"notices\":0,\"papers\":[],\"parcel\":1,\"request\":null,\"requested\":null,\"reviewer\":null,\"stage\":\"filed\",\"stopped\":false,\"temporary\":null,\"timing\":\"near\",\"valuation\":25000000}";

fn refused(why: Refusal) -> Result<Answer, Fail> {
    let day = day(19903)?;
    Ok(Answer::Replied {
        reply: Reply::Refused(why),
        action: Action::Read,
        day,
    })
}

fn done(number: Option<u32>, action: Action) -> Result<Answer, Fail> {
    let day = day(19723)?;
    Ok(Answer::Replied {
        reply: Reply::Done { number },
        action,
        day,
    })
}

fn filed() -> Result<Answer, Fail> {
    done(Some(1), Action::File)
}

fn filing() -> Result<FileState, Fail> {
    let (applicant, parcel, day) = (party(5)?, parcel(1)?, day(19723)?);
    Ok(FileState::file(applicant, parcel, Kind::Construct, Edition::Second, day))
}

fn house_file(alloc: Global) -> Result<FileView, Fail> {
    let (id, state) = (file(1)?, filing()?);
    let valuation = Cents::new(25000000).ok_or("cents")?;
    let row = FileRow {
        id,
        state,
        valuation,
        description: SharedText::new(alloc, text(alloc, "House")?)?,
    };
    Ok(FileView {
        row,
        stage: Stage::Filed,
        timing: Timing::Near,
    })
}

fn house(alloc: Global, papers: Vec<Paper>) -> Result<Answer, Fail> {
    let day = day(19903)?;
    Ok(Answer::Replied {
        reply: Reply::File(house_file(alloc)?, papers),
        action: Action::Read,
        day,
    })
}

fn land_parcel(alloc: Global) -> Result<Parcel, Fail> {
    let (id, owner) = (parcel(1)?, party(5)?);
    Ok(Parcel {
        id,
        lot: lot(alloc, "A-1")?,
        address: text(alloc, "1 \"Main\" St")?,
        owner,
    })
}

fn land(alloc: Global) -> Result<Answer, Fail> {
    let day = day(19903)?;
    Ok(Answer::Replied {
        reply: Reply::Parcel(land_parcel(alloc)?),
        action: Action::ReadParcel,
        day,
    })
}

/// What goes out for an answer, and whether the connection closes.
fn written(alloc: Global, answer: &Answer, close: bool) -> Result<(String, bool), Fail> {
    let mut bytes = Vec::new(alloc);
    let closes = write_reply(alloc, answer, close, &mut bytes).map_err(|_| "write")?;
    Ok((String::from_utf8(bytes).map_err(|_| "text")?, closes))
}

/// An answer has this text, and the connection closes where that is asked for.
fn goes_out(
    rt: &impl Abort,
    alloc: Global,
    answer: Answer,
    close: bool,
    wanted: &str,
) -> Result<(), Fail> {
    let answer = Held::new(answer);
    let (text, closes) = written(alloc, &answer.value, close)?;
    assert!(rt; text.as_str() == wanted && closes == close, "{wanted}");
    Ok(())
}

#[test]
fn refusals_go_out(rt: HostRuntime) -> Result<(), Fail> {
    let rule = RuleName::new("closed-to-public").ok_or("name")?;
    let cases = [
        (
            Refusal::Caller,
            "HTTP/1.1 401 Unauthorized\r\nContent-Type: application/json\r\nContent-Length: 20\r\nWWW-Authenticate: Bearer\r\n\r\n{\"refused\":\"caller\"}",
        ),
        (
            Refusal::Record,
            "HTTP/1.1 404 Not Found\r\nContent-Type: application/json\r\nContent-Length: 20\r\n\r\n{\"refused\":\"record\"}",
        ),
        (
            Refusal::Denied(rule),
            "HTTP/1.1 403 Forbidden\r\nContent-Type: application/json\r\nContent-Length: 46\r\n\r\n{\"refused\":\"denied\",\"rule\":\"closed-to-public\"}",
        ),
        (
            Refusal::NotAdmitted(Reason::Days),
            "HTTP/1.1 409 Conflict\r\nContent-Type: application/json\r\nContent-Length: 42\r\n\r\n{\"reason\":\"days\",\"refused\":\"not-admitted\"}",
        ),
        (
            Refusal::Clock,
            "HTTP/1.1 503 Service Unavailable\r\nContent-Type: application/json\r\nContent-Length: 19\r\n\r\n{\"refused\":\"clock\"}",
        ),
    ];
    for (why, wanted) in cases {
        goes_out(&rt, rt.alloc(), refused(why)?, false, wanted)?;
    }
    Ok(())
}

#[test]
fn faults_go_out(rt: HostRuntime) -> Result<(), Fail> {
    let cases = [
        (
            Fault::Large,
            "HTTP/1.1 413 Content Too Large\r\nContent-Type: application/json\r\nContent-Length: 19\r\nConnection: close\r\n\r\n{\"refused\":\"large\"}",
        ),
        (
            Fault::Caller,
            "HTTP/1.1 401 Unauthorized\r\nContent-Type: application/json\r\nContent-Length: 20\r\nWWW-Authenticate: Bearer\r\nConnection: close\r\n\r\n{\"refused\":\"caller\"}",
        ),
        (Fault::Memory, STORE_REFUSAL),
    ];
    for (fault, wanted) in cases {
        goes_out(&rt, rt.alloc(), Answer::Fault(fault), true, wanted)?;
    }
    Ok(())
}

#[test]
fn commands_that_are_done_go_out(rt: HostRuntime) -> Result<(), Fail> {
    let transferred =
        "HTTP/1.1 200 OK\r\nContent-Type: application/json\r\nContent-Length: 45\r\nConnection: close\r\n\r\n{\"day\":19723,\"done\":\"transfer\",\"number\":null}";
    goes_out(&rt, rt.alloc(), filed()?, false, FILED)?;
    goes_out(
        &rt,
        rt.alloc(),
        done(None, Action::Transfer)?,
        true,
        transferred,
    )
}

#[test]
fn a_file_goes_out(rt: HostRuntime) -> Result<(), Fail> {
    let answer = house(rt.alloc(), Vec::new(rt.alloc()))?;
    goes_out(&rt, rt.alloc(), answer, false, HOUSE)
}

#[test]
fn a_parcel_goes_out(rt: HostRuntime) -> Result<(), Fail> {
    let wanted =
        "HTTP/1.1 200 OK\r\nContent-Type: application/json\r\nContent-Length: 56\r\n\r\n{\"address\":\"1 \\\"Main\\\" St\",\"id\":1,\"lot\":\"A-1\",\"owner\":5}";
    let answer = land(rt.alloc())?;
    goes_out(&rt, rt.alloc(), answer, false, wanted)
}

/// An ask of party 5 on file 1.
fn ask(alloc: Global) -> Result<Paper, Fail> {
    Ok(Paper {
        file: file(1)?,
        number: PaperNumber::new(1).ok_or("paper")?,
        day: day(19903)?,
        author: party(5)?,
        sort: PaperSort::Asked,
        days: 90,
        text: String::from_str(alloc, "Ill")?,
        terms: String::new(alloc),
        is_open: false,
    })
}

const PAPERS: &str =
    ",\"papers\":[{\"author\":5,\"day\":19903,\"days\":90,\"number\":1,\"open\":false,\"sort\":\"asked\",\"terms\":\"\",\"text\":\"Ill\"}],";

#[test]
fn a_paper_goes_out_with_its_file(rt: HostRuntime) -> Result<(), Fail> {
    let mut papers = Vec::new(rt.alloc());
    papers.push(ask(rt.alloc())?)?;
    let answer = Held::new(house(rt.alloc(), papers)?);
    let (shown, closes) = written(rt.alloc(), &answer.value, false)?;
    assert!(rt; shown.as_str().contains(PAPERS) && !closes);
    Ok(())
}

/// Writes an answer that keeps the connection, and gives whether it closes.
fn write(alloc: Global, answer: &Answer, writer: &mut Narrow) -> Result<bool, WriteFault> {
    write_reply(alloc, answer, false, writer)
}

#[test]
fn a_writer_takes_one_byte_at_a_time(rt: HostRuntime) -> Result<(), Fail> {
    let mut writer = Narrow::new(1, 1000);
    let answer = Held::new(filed()?);
    let closes = write(rt.alloc(), &answer.value, &mut writer).map_err(|_| "write")?;
    assert!(rt; !closes);
    assert_eq!(rt; writer.taken(), FILED.as_bytes());
    Ok(())
}

#[test]
fn a_write_that_fails_is_a_fault(rt: HostRuntime) -> Result<(), Fail> {
    let answer = Held::new(filed()?);
    for taken in [0, 1, 50, FILED.len() - 1] {
        let mut writer = Narrow::new(40, taken);
        assert!(rt; write(rt.alloc(), &answer.value, &mut writer).is_err());
        assert!(rt; FILED.as_bytes().starts_with(writer.taken()));
        assert_eq!(rt; writer.taken().len(), taken);
    }
    Ok(())
}

#[test]
fn a_write_that_takes_no_byte_is_a_fault(rt: HostRuntime) -> Result<(), Fail> {
    let mut writer = Narrow::new(0, 1000);
    let answer = Held::new(filed()?);
    assert!(rt; write(rt.alloc(), &answer.value, &mut writer).is_err());
    assert!(rt; writer.taken().is_empty());
    Ok(())
}

/// With `--fail-alloc` each allocation of the answer is refused in turn.
#[test]
fn a_read_without_memory_is_the_stores_refusal(rt: HostRuntime) -> Result<(), Fail> {
    let answer = Held::new(house(rt.alloc(), Vec::new(rt.alloc()))?);
    let mut writer = Narrow::new(1000, 1000);
    let closes = write(rt.alloc(), &answer.value, &mut writer).map_err(|_| "write")?;
    let wanted = if closes { STORE_REFUSAL } else { HOUSE };
    assert_eq!(rt; writer.taken(), wanted.as_bytes());
    Ok(())
}
