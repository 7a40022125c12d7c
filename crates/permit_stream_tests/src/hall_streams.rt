//! Connections with hostile bytes, and with readers and writers that fail. Whatever one does, its door goes on with the
//! next one, which is served as if it were alone.

use crate::calendar::always;
use crate::hall::{DONE, NOT_ADMITTED, REQUESTED, approval_text, with_pending_frame};
use crate::memory_doors::{
    MemoryDoor, NO_TROUBLE, Trouble, collected, connection, new_record, written,
};
use crate::messages::{fields, padded};
use permit_samples::exchange::answer;
use permit_samples::script::agree;
use std::alloc::Global;
use std::sync::Wait;
use std::test::*;
use std::thread::Threads;

const BAD: &str = "400 Bad Request";

const SYNTAX: &str = r#"{"refused":"syntax"}"#;

/// Bytes that are no head, or one with a fault, which closes the connection.
const FAULTY_HEADS: [&[u8]; 11] = [
    b"\x16\x03\x01\x02\x00\x01\x00\x01\xfc\x03\x03",
    b"\xff\xfe\x00\x00",
    b"G\x01T",
    b"GET / HTTP/1.0\r\nHost: a\r\n\r\n",
    b"GET / HTTP/1.1\r\n\r\n",
    b"GET / HTTP/1.1\r\nHost: a\r\nhost: b\r\n\r\n",
    b"GET / HTTP/1.1\r\nHost: a\r\nExpect: 100-continue\r\n\r\n",
    b"GET / HTTP/1.1\r\nHost: a\r\nTransfer-Encoding: chunked\r\n\r\n",
    b"GET / HTTP/1.1\r\nHost: a\r\nContent-Length: 1\r\nContent-Length: 1\r\n\r\n",
    b"GET / HTTP/1.1\r\nHost: a\r\nContent-Length: 0000000005\r\n\r\n",
    b"GET / HTTP/1.1\r\nHost: a\r\nContent-Length: +5\r\n\r\n",
];

/// The head of a body of one byte too many.
const LARGE: &[u8] = b"POST /files HTTP/1.1\r\nHost: a\r\nContent-Length: 16385\r\n\r\n";

/// Requests with a fault that leaves the connection open, and their answers.
const KEPT_FAULTS: [(&[u8], &str, &str); 5] = [
    (
        b"BREW /files HTTP/1.1\r\nHost: a\r\n\r\n",
        "404 Not Found",
        r#"{"refused":"route"}"#,
    ),
    (
        b"GET /nothing HTTP/1.1\r\nHost: a\r\n\r\n",
        "404 Not Found",
        r#"{"refused":"route"}"#,
    ),
    (
        b"GET /files/1 HTTP/1.1\r\nHost: a\r\n\r\n",
        "401 Unauthorized",
        r#"{"refused":"caller"}"#,
    ),
    (
        b"GET /files/1 HTTP/1.1\r\nHost: a\r\nAuthorization: Bearer  0000000000000000\r\n\r\n",
        "401 Unauthorized",
        r#"{"refused":"caller"}"#,
    ),
    (
        b"GET /files/1 HTTP/1.1\r\nHost: a\r\nAuthorization: Bearer 0000000000000000\r\nContent-Length: 1\r\n\r\n!",
        BAD,
        SYNTAX,
    ),
];

/// A connection that goes wrong, and what it comes to.
#[derive(Clone, Copy)]
struct Case<'x> {
    /// What comes in.
    bytes: &'x [u8],
    trouble: Trouble,
    /// What goes out.
    written: &'x str,
    /// Whether an approval by party 4 reaches the office.
    approves: bool,
}

/// The answer that closes the connection.
fn closing(alloc: Global, status: &str, body: &str) -> Result<String, Fail> {
    let size = body.len();
    Ok(format!(in alloc;
        "HTTP/1.1 {status}\r\nContent-Type: application/json\r\nContent-Length: {size}\r\nConnection: close\r\n\r\n{body}"
    )?)
}

/// The bytes, followed by an approval by party 4.
fn with_approval(alloc: Global, bytes: &[u8]) -> Result<Vec<u8>, Fail> {
    let mut all = Vec::from_slice(alloc, bytes)?;
    all.extend_from_slice(approval_text(alloc, 4)?.as_bytes())?;
    Ok(all)
}

/// One door gives the connection of the case and then a good one, on which party 1 approves: it is done where the first
/// hasn't approved, and else nothing is pending any more.
fn is_followed<R: Threads + Wait + Copy + Drop + Send + 'static>(
    rt: R,
    alloc: Global,
    case: &Case<'_>,
) -> Result<(), Fail> {
    let (first, next) = (new_record(alloc)?, new_record(alloc)?);
    let approval = approval_text(alloc, 1)?.into_bytes();
    let bytes = Vec::from_slice(alloc, case.bytes)?;
    let mut connections = Vec::new(alloc);
    connections.push(connection(rt, &next, approval, NO_TROUBLE)?)?;
    connections.push(connection(rt, &first, bytes, case.trouble)?)?;
    let door = MemoryDoor {
        connections,
        waits_for: None,
    };
    let (doors, calendar) = (vec![in alloc; door]?, always(REQUESTED)?);
    let counts = collected(rt, alloc, with_pending_frame(alloc)?, doors, calendar)?;
    let (count, after) = if case.approves {
        (2, answer(alloc, "409 Conflict", NOT_ADMITTED)?)
    } else {
        (1, answer(alloc, "200 OK", DONE)?)
    };
    agree(alloc, written(&rt, alloc, &first)?.as_str(), case.written)?;
    agree(alloc, written(&rt, alloc, &next)?.as_str(), after.as_str())?;
    if counts.as_slice() == [count].as_slice() {
        Ok(())
    } else {
        Err(Fail::new("the session's count of answers"))
    }
}

/// After a fault that closes comes a good request, which isn't read.
fn closes<R: Threads + Wait + Copy + Drop + Send + 'static>(
    rt: R,
    alloc: Global,
    fault: &[u8],
    status: &str,
    body: &str,
) -> Result<(), Fail> {
    let bytes = with_approval(alloc, fault)?;
    let wanted = closing(alloc, status, body)?;
    let case = Case {
        bytes: bytes.as_slice(),
        trouble: NO_TROUBLE,
        written: wanted.as_str(),
        approves: false,
    };
    is_followed(rt, alloc, &case)
}

#[test]
fn each_fault_of_a_head_is_followed(rt: HostRuntime) -> Result<(), Fail> {
    let alloc = rt.alloc();
    for head in FAULTY_HEADS {
        closes(rt, alloc, head, BAD, SYNTAX)?;
    }
    Ok(())
}

/// A head of one byte too many, one of one field too many, and a body of one byte too many.
#[test]
fn an_oversized_request_is_followed(rt: HostRuntime) -> Result<(), Fail> {
    let alloc = rt.alloc();
    closes(rt, alloc, padded(alloc, 8193)?.as_slice(), BAD, SYNTAX)?;
    closes(rt, alloc, fields(alloc, 33)?.as_slice(), BAD, SYNTAX)?;
    closes(
        rt,
        alloc,
        LARGE,
        "413 Content Too Large",
        r#"{"refused":"large"}"#,
    )
}

/// After a fault that keeps the connection comes a good request, which is served.
#[test]
fn each_kept_fault_is_followed(rt: HostRuntime) -> Result<(), Fail> {
    let alloc = rt.alloc();
    let done = answer(alloc, "200 OK", DONE)?;
    for (fault, status, body) in KEPT_FAULTS {
        let bytes = with_approval(alloc, fault)?;
        let mut wanted = answer(alloc, status, body)?;
        wanted.push_str(done.as_str())?;
        let case = Case {
            bytes: bytes.as_slice(),
            trouble: NO_TROUBLE,
            written: wanted.as_str(),
            approves: true,
        };
        is_followed(rt, alloc, &case)?;
    }
    Ok(())
}

/// The reader ends or fails after so many bytes of an approval: in its head, after its head, and in its body.
#[test]
fn a_reader_that_stops_is_followed(rt: HostRuntime) -> Result<(), Fail> {
    let alloc = rt.alloc();
    let approval = approval_text(alloc, 4)?;
    let whole = approval.as_bytes();
    let (head, _) = approval.as_str().split_once("\r\n\r\n").ok_or("a head")?;
    let body = head.len().wrapping_add(4);
    for stop in [1, 20, 60, body, body.wrapping_add(1), body.wrapping_add(15)] {
        for reader_fails in [false, true] {
            let case = Case {
                bytes: whole.get(..stop).ok_or("a beginning")?,
                trouble: Trouble {
                    reader_fails,
                    ..NO_TROUBLE
                },
                written: "",
                approves: false,
            };
            is_followed(rt, alloc, &case)?;
        }
    }
    Ok(())
}

/// A reader that fails after whole requests has them answered.
#[test]
fn a_reader_that_fails_after_a_request_is_followed(rt: HostRuntime) -> Result<(), Fail> {
    let alloc = rt.alloc();
    let approval = approval_text(alloc, 4)?;
    let done = answer(alloc, "200 OK", DONE)?;
    let case = Case {
        bytes: approval.as_bytes(),
        trouble: Trouble {
            reader_fails: true,
            ..NO_TROUBLE
        },
        written: done.as_str(),
        approves: true,
    };
    is_followed(rt, alloc, &case)
}

/// What the office did remains in effect where its answer doesn't go out whole. A writer that takes one byte in one write and
/// never fails has it all.
#[test]
fn a_writer_that_stops_is_followed(rt: HostRuntime) -> Result<(), Fail> {
    let alloc = rt.alloc();
    let approval = approval_text(alloc, 4)?;
    let done = answer(alloc, "200 OK", DONE)?;
    let last = done.len().wrapping_sub(1);
    for (at_once, fails_at) in [
        (1000, 0),
        (0, 1000),
        (1, 1),
        (1000, 50),
        (7, 50),
        (1000, last),
        (1, last),
        (1, 1000),
    ] {
        let taken = if at_once == 0 {
            0
        } else {
            fails_at.min(done.len())
        };
        let case = Case {
            bytes: approval.as_bytes(),
            trouble: Trouble {
                at_once,
                fails_at,
                ..NO_TROUBLE
            },
            written: done.as_str().get(..taken).ok_or("a beginning")?,
            approves: true,
        };
        is_followed(rt, alloc, &case)?;
    }
    Ok(())
}

/// Where the answer to a fault that keeps the connection doesn't go out, the request after it isn't read.
#[test]
fn a_fault_whose_answer_is_cut_is_followed(rt: HostRuntime) -> Result<(), Fail> {
    let alloc = rt.alloc();
    let bytes = with_approval(alloc, b"GET /nothing HTTP/1.1\r\nHost: a\r\n\r\n")?;
    let case = Case {
        bytes: bytes.as_slice(),
        trouble: Trouble {
            fails_at: 9,
            ..NO_TROUBLE
        },
        written: "HTTP/1.1 ",
        approves: false,
    };
    is_followed(rt, alloc, &case)
}
