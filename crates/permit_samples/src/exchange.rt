//! One request as bytes, and the answer as bytes.

use crate::ask::Ask;
use crate::makers::day;
use permit_base::values::Day;
use permit_http::inbox::Inbox;
use permit_office::office::Office;
use permit_store::store::Store;
use permit_wire::serve::{Served, serve_one};
use std::alloc::Global;
use std::test::Fail;

/// The bytes of a request with its token and a JSON body.
pub fn request(alloc: Global, ask: &Ask<'_>) -> Result<String, Fail> {
    let Ask {
        token,
        method,
        path,
        body,
        ..
    } = *ask;
    let size = body.len();
    Ok(format!(in alloc;
        "{method} {path} HTTP/1.1\r\nHost: localhost\r\nAuthorization: Bearer {token}\r\nContent-Length: {size}\r\n\r\n{body}"
    )?)
}

/// The bytes of an answer that keeps the connection: its status line's end, and its body.
pub fn answer(alloc: Global, status: &str, body: &str) -> Result<String, Fail> {
    let size = body.len();
    let challenge = if status == "401 Unauthorized" {
        "WWW-Authenticate: Bearer\r\n"
    } else {
        ""
    };
    Ok(format!(in alloc;
        "HTTP/1.1 {status}\r\nContent-Type: application/json\r\nContent-Length: {size}\r\n{challenge}\r\n{body}"
    )?)
}

/// What is written for a prefix of a connection's bytes, on a day, and how it ended.
pub fn serve<S: Store + Drop>(
    alloc: Global,
    office: &mut Office<S>,
    bytes: &[u8],
    day: Day,
) -> Result<(Served, String), Fail> {
    let mut inbox = Inbox::new();
    let mut reader = bytes;
    let mut written = Vec::new(alloc);
    let served = serve_one(alloc, office, &mut inbox, &mut reader, &mut written, day);
    Ok((
        served,
        String::from_utf8(written).ok().ok_or("an answer is text")?,
    ))
}

/// What is written for one whole request.
pub fn asked<S: Store + Drop>(
    alloc: Global,
    office: &mut Office<S>,
    ask: &Ask<'_>,
) -> Result<String, Fail> {
    let bytes = request(alloc, ask)?;
    let (_, written) = serve(alloc, office, bytes.as_str().as_bytes(), day(ask.day)?)?;
    Ok(written)
}
