//! When the first fault of a message's head comes, and what whole requests give.

use crate::streams::Trickle;
use permit_http::error::WireError;
use permit_http::fault::Fault;
use permit_http::inbox::Inbox;
use std::alloc::{AllocError, Global};

/// What reading one message gives, `None` for the end.
fn outcome(text: &[u8], fails: bool) -> Option<Result<(), WireError>> {
    let mut inbox = Inbox::new();
    let mut reader = Trickle { rest: text, fails };
    match inbox.read_message(&mut reader) {
        Ok(None) => None,
        Ok(Some(_)) => Some(Ok(())),
        Err(error) => Some(Err(error)),
    }
}

/// The outcome is the same whether the input ends or the reader fails after these bytes.
fn answers_at_once(text: &[u8], fault: Fault) -> bool {
    let told = Some(Err(WireError::Fault(fault)));
    outcome(text, false) == told && outcome(text, true) == told
}

/// A request whose head has so many bytes.
pub fn padded(alloc: Global, size: usize) -> Result<Vec<u8>, AllocError> {
    let mut text = Vec::from_slice(
        alloc,
        b"POST /files HTTP/1.1\r\nHost: a\r\nContent-Length: 2\r\nX: ",
    )?;
    for _ in text.len()..size.saturating_sub(4) {
        text.push(b'a')?;
    }
    text.extend_from_slice(b"\r\n\r\n{}")?;
    Ok(text)
}

/// A head with so many fields, `Host` among them.
pub fn fields(alloc: Global, count: usize) -> Result<Vec<u8>, AllocError> {
    let mut text = Vec::from_slice(alloc, b"GET /files HTTP/1.1\r\nHost: a\r\n")?;
    for _ in 1..count {
        text.extend_from_slice(b"X: y\r\n")?;
    }
    text.extend_from_slice(b"\r\n")?;
    Ok(text)
}

#[test]
fn heads_up_to_the_limits(rt: HostRuntime) {
    for size in [60usize, 200, 1000, 4000, 8192] {
        let text = padded(rt.alloc(), size).expect(&rt, "memory");
        assert!(rt; outcome(text.as_slice(), false) == Some(Ok(())));
    }
    let text = padded(rt.alloc(), 8193).expect(&rt, "memory");
    assert!(rt; answers_at_once(text.as_slice(), Fault::Head));
    let text = fields(rt.alloc(), 32).expect(&rt, "memory");
    assert!(rt; outcome(text.as_slice(), false) == Some(Ok(())));
    let text = fields(rt.alloc(), 33).expect(&rt, "memory");
    assert!(rt; answers_at_once(text.as_slice(), Fault::Head));
}

#[test]
fn faults_of_heads(rt: HostRuntime) {
    assert!(rt; answers_at_once(b"G\x01T", Fault::Head));
    assert!(rt; answers_at_once(b"GET / HTTP/1.0\r\nHost: a\r\n\r\n", Fault::Version));
    assert!(rt; answers_at_once(b"GET / HTTP/1.1\r\n\r\n", Fault::Version));
    assert!(rt;
        answers_at_once(
            b"GET / HTTP/1.1\r\nHost: a\r\nhost: b\r\n\r\n",
            Fault::Version
        )
    );
    assert!(rt;
        answers_at_once(
            b"GET / HTTP/1.1\r\nHost: a\r\nExpect: 100-continue\r\n\r\n",
            Fault::Version
        )
    );
    assert!(rt;
        answers_at_once(
            b"GET / HTTP/1.1\r\nHost: a\r\nTransfer-Encoding: chunked\r\n\r\n",
            Fault::Length
        )
    );
    assert!(rt;
        answers_at_once(
            b"GET / HTTP/1.1\r\nHost: a\r\nContent-Length: 1\r\nContent-Length: 1\r\n\r\n",
            Fault::Length
        )
    );
    assert!(rt;
        answers_at_once(
            b"GET / HTTP/1.1\r\nHost: a\r\nContent-Length: 0000000005\r\n\r\n",
            Fault::Length
        )
    );
    assert!(rt;
        answers_at_once(
            b"GET / HTTP/1.1\r\nHost: a\r\nContent-Length: +5\r\n\r\n",
            Fault::Length
        )
    );
    assert!(rt;
        answers_at_once(
            b"GET / HTTP/1.1\r\nHost: a\r\nContent-Length: 16385\r\n\r\n",
            Fault::Large
        )
    );
}

#[test]
fn ends_and_failures(rt: HostRuntime) {
    assert!(rt; outcome(b"", false) == None);
    assert!(rt; outcome(b"", true) == Some(Err(WireError::ReadFailed)));
    assert!(rt; outcome(b"\r\n", false) == Some(Err(WireError::Ended)));
    let text = b"GET / HTTP/1.1\r\nHost: a\r\nContent-Length: 000000005\r\n\r\n12345";
    for at in 1..text.len() {
        assert!(rt; outcome(&text[..at], false) == Some(Err(WireError::Ended)));
        assert!(rt; outcome(&text[..at], true) == Some(Err(WireError::ReadFailed)));
    }
    assert!(rt; outcome(text, true) == Some(Ok(())));
}

#[test]
fn parts_of_two_messages(rt: HostRuntime) {
    let text =
        b"POST /files HTTP/1.1\r\nHost: a\r\nAuthorization: Bearer t \r\nContent-Length: 2\r\n\r\n{}GET /files HTTP/1.1\r\nHost: a\r\nCONNECTION: Close\r\n\r\nmore";
    let mut inbox = Inbox::new();
    let mut reader = text.as_slice();
    let Ok(Some(spans)) = inbox.read_message(&mut reader) else {
        return assert!(rt; false);
    };
    let message = inbox.message(&spans);
    assert!(rt;
        message.method == b"POST".as_slice()
            && message.path == b"/files".as_slice()
            && message.body == b"{}".as_slice()
    );
    assert!(rt; message.authorization == Some(b"Bearer t".as_slice()) && !message.closes);
    inbox.let_go(&spans);
    assert!(rt; !inbox.is_closed());
    let Ok(Some(spans)) = inbox.read_message(&mut reader) else {
        return assert!(rt; false);
    };
    let message = inbox.message(&spans);
    assert!(rt; message.method == b"GET".as_slice() && message.body.is_empty());
    assert!(rt; message.authorization.is_none() && message.closes);
    inbox.let_go(&spans);
    assert!(rt; inbox.is_closed() && inbox.as_slice() == b"more".as_slice());
}
