//! Calls of an office that no script makes, over vectors and over a database alike: requests that are too large or cut
//! short, a step by digest, and a run whose clock goes back.

use crate::database::over_database;
use permit_base::refusal::Refusal;
use permit_base::request::{Asked, Request};
use permit_base::values::Day;
use permit_office::office::Office;
use permit_office::reply::Reply;
use permit_samples::ask::{Ask, TOKENS};
use permit_samples::exchange::{request, serve};
use permit_samples::filing::{FILED, HOUSE};
use permit_samples::held::Held;
use permit_samples::makers::{day, digest_of, file, lot, parcel, party, text, token};
use permit_samples::offices::over_vectors;
use permit_samples::opening::OPENING;
use permit_samples::script::play;
use permit_store::store::Store;
use permit_wire::serve::Served;
use std::alloc::Global;
use std::test::Fail;

/// What an office says that has no file.
const NO_FILE: &str = r#"
> 1 19723 GET /files/1
< 404 Not Found {"refused":"record"}
"#;

/// The answer to a body past its limit.
const LARGE: &str =
    "HTTP/1.1 413 Content Too Large\r\nContent-Type: application/json\r\nContent-Length: 19\r\nConnection: close\r\n\r\n{\"refused\":\"large\"}";

/// Fails where the bytes aren't served and answered as wanted on the day of the filing.
fn answers<S: Store + Drop>(
    alloc: Global,
    office: &mut Office<S>,
    bytes: &[u8],
    wanted: (Served, &str),
) -> Result<(), Fail> {
    let (served, written) = serve(alloc, office, bytes, day(19723)?)?;
    if (served, written.as_str()) == wanted {
        return Ok(());
    }
    let size = bytes.len();
    Err(Fail::new(format!(in alloc; "{size} bytes: {written}")?))
}

/// A filing with a body past its limit.
fn large<S: Store + Drop>(alloc: Global, office: &mut Office<S>) -> Result<(), Fail> {
    let token = TOKENS[4];
    let head = format!(in alloc;
        "POST /files HTTP/1.1\r\nHost: localhost\r\nAuthorization: Bearer {token}\r\nContent-Length: 16385\r\n\r\n{HOUSE}"
    )?;
    answers(
        alloc,
        office,
        head.as_str().as_bytes(),
        (Served::Closed, LARGE),
    )
}

/// A filing that is cut short anywhere.
fn cut<S: Store + Drop>(alloc: Global, office: &mut Office<S>) -> Result<(), Fail> {
    let ask = Ask {
        token: TOKENS[4],
        day: 19723,
        method: "POST",
        path: "/files",
        body: HOUSE,
    };
    let whole = request(alloc, &ask)?;
    let bytes = whole.as_str().as_bytes();
    answers(alloc, office, b"", (Served::Ended, ""))?;
    for place in 1..bytes.len() {
        answers(alloc, office, &bytes[..place], (Served::ReadFailed, ""))?;
    }
    Ok(())
}

/// What a reply is, in a word.
fn word_of(reply: &Reply) -> &'static str {
    match reply {
        Reply::Done { .. } => "done",
        Reply::Parcel(_) => "parcel",
        Reply::File(shown, papers)
            if shown.row.description.as_str() == "House" && papers.is_empty() => { "house" }
        Reply::File(..) => "file",
        Reply::Listed(_) => "listing",
        Reply::Register { .. } => "register",
        Reply::Refused(Refusal::Clock) => "clock",
        Reply::Refused(_) => "refused",
    }
}

/// A request of the official: a parcel of party 1 on a lot.
fn parcel_on(alloc: Global, letters: &str) -> Result<Asked, Fail> {
    let owner = party(1)?;
    let token = token(alloc, TOKENS[0])?;
    let lot = lot(alloc, letters)?;
    let address = text(alloc, "1 High St")?;
    let request = Request::AddParcel {
        lot,
        address,
        owner,
    };
    Ok(Asked { token, request })
}

/// A request of the official to read parcel 1.
fn read_parcel(alloc: Global) -> Result<Asked, Fail> {
    let parcel = parcel(1)?;
    let token = token(alloc, TOKENS[0])?;
    let request = Request::ReadParcel { parcel };
    Ok(Asked { token, request })
}

/// Requests of which the second is on a day before the first's, and the last on a day before the third's.
fn requests_that_go_back(alloc: Global) -> Result<Vec<(Asked, Day)>, Fail> {
    let mut requests = Vec::new(alloc);
    for (letters, on) in [("B-1", 20000), ("B-2", 19990)] {
        let on = day(on)?;
        requests.push((parcel_on(alloc, letters)?, on))?;
    }
    for on in [20001, 20000] {
        let on = day(on)?;
        requests.push((read_parcel(alloc)?, on))?;
    }
    Ok(requests)
}

/// What the official's reading of file 1 by digest gives, in a word.
fn word_by_digest<S: Store + Drop>(
    alloc: Global,
    office: &mut Office<S>,
) -> Result<&'static str, Fail> {
    let (digest, file, on) = (digest_of(alloc, TOKENS[0])?, file(1)?, day(19723)?);
    let request = Request::ReadFile { file };
    let reply = office.step_as(&digest, &request, on);
    drop(request);
    let word = word_of(&reply);
    drop(reply);
    Ok(word)
}

/// What each reply is, in words.
fn words_of(alloc: Global, replies: &[Reply]) -> Result<Vec<&'static str>, Fail> {
    let mut words = Vec::new(alloc);
    for reply in replies {
        words.push(word_of(reply))?;
    }
    Ok(words)
}

/// What each request of the run gives, in words.
fn words<S: Store + Drop>(
    alloc: Global,
    office: &mut Office<S>,
) -> Result<Vec<&'static str>, Fail> {
    let requests = requests_that_go_back(alloc)?;
    let replies = office.run(alloc, requests.as_slice())?;
    drop(requests);
    words_of(alloc, replies.as_slice())
}

/// Fails where a call isn't answered as wanted in an office after its founding. No file is there after the requests that
/// are too large or cut.
fn hold<S: Store + Drop>(alloc: Global, office: Office<S>) -> Result<(), Fail> {
    let office = &mut Held::new(office).value;
    play(alloc, office, OPENING)?;
    large(alloc, office)?;
    cut(alloc, office)?;
    play(alloc, office, NO_FILE)?;
    play(alloc, office, FILED)?;
    let by_digest = word_by_digest(alloc, office)?;
    let words = words(alloc, office)?;
    if by_digest == "house"
        && words.as_slice() == ["done", "clock", "parcel", "parcel"].as_slice()
    {
        return Ok(());
    }
    Err(Fail::new("the step by digest or the run"))
}

#[test]
fn calls_are_answered(rt: HostRuntime) -> Result<(), Fail> {
    hold(rt.alloc(), over_vectors(rt.alloc())?)?;
    hold(rt.alloc(), over_database(rt.alloc())?)
}
