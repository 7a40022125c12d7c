//! The time to read a request whose head of 8192 bytes comes one byte at a time, and all at once.

use anyhow::Result;
use permit_http::inbox::Inbox;
use std::alloc::Global;
use std::io;
use std::io::Read;
use std::time::{Clock, Instant};

/// A reader that gives one byte at a time.
#[derive(Drop)]
struct OneByte<'a> {
    rest: &'a [u8],
}

impl Read for OneByte<'_> {
    fn read(&mut self, buf: &mut [u8]) -> io::Result<usize> {
        match (self.rest.split_first(), buf.first_mut()) {
            (Some((first, rest)), Some(place)) => {
                *place = *first;
                self.rest = rest;
                Ok(1)
            }
            _ => Ok(0),
        }
    }
}

/// A request whose head has 8192 bytes.
fn long_head(alloc: Global) -> Result<Vec<u8>> {
    let mut text = Vec::from_slice(alloc, b"GET /files/1 HTTP/1.1\r\nHost: localhost\r\nX: ")?;
    for _ in text.len()..8188 {
        text.push(b'a')?;
    }
    text.extend_from_slice(b"\r\n\r\n")?;
    Ok(text)
}

/// Measures the reading of a long head.
pub fn measure(rt: &(impl Clock + Print + AllocGlobal)) -> Result<()> {
    let text = long_head(rt.alloc())?;
    let start = Instant::now(rt)?;
    let mut inbox = Inbox::new();
    let slow = inbox
        .read_message(&mut OneByte {
            rest: text.as_slice(),
        })
        .is_ok();
    let slow_time = start.elapsed(rt)?.as_micros();
    let start = Instant::now(rt)?;
    let mut inbox = Inbox::new();
    let fast = inbox.read_message(&mut text.as_slice()).is_ok();
    let fast_time = start.elapsed(rt)?.as_micros();
    println!(rt;
        "head of 8192 bytes: byte by byte {slow_time} microseconds (read {slow}), at once {fast_time} (read {fast})"
    )?;
    Ok(())
}
