//! The head of a request: whether it is there, and what its fields say.

ghost use Rattle.std.specs.Prelude.{◌≡◌, ℕ, ◌≤◌, ◌+◌, All, take, map, length, option_map, IfOk, IfErr, IfSome, Ok, Err};
ghost use Rattle.std.specs.List.{list_all};
ghost use Rattle.std.specs.Char.{is_ascii_digit};
ghost use Rattle.std.specs.Str.{str_eq_ignore_ascii_case};
ghost use Rattle.httparse.specs.Grammar.{RequestHead};
ghost use Rattle.httparse.specs.Spans.{header_bytes, span_bytes, IsWithin, IsHeaderWithin, IsRequestWithin};
ghost use Rattle.permit_http.specs.Head.{IsHeadFault, values_named, count_named, only, is_length, length_in, limited, is_served, body_length, judged};
ghost use Rattle.permit_http.specs.Head.{closes, pairs_of};
ghost use Rattle.permit_http.specs.Spans.{LooksAt, IsFound, AreOrdered, Covers};

use crate::fault::Fault;
use crate::message::MessageSpans;
use httparse::Status;
use httparse::spans::{HeaderSpan, RequestSpans, Span, parse_request};

/// The bytes of a head, its empty line among them, are at most this many.
const HEAD_LIMIT: usize = 8192;

/// The bytes of a body are at most this many.
const BODY_LIMIT: u32 = 16384;

/// What the bytes say of a head at their front.
#[derive(Clone, Copy)]
pub enum Look {
    /// A head is there.
    Found(RequestSpans),
    /// None is there yet.
    Open,
    /// None within the limits is there, whatever bytes follow.
    Never,
}

/// The first bytes, as many as a head may have.
fn front(bytes: &[u8]) -> &[u8]
    ensures { result.now ≡ take 8192 bytes.now }
{
    if bytes.len() < HEAD_LIMIT {
        bytes
    } else {
        &bytes[..HEAD_LIMIT]
    }
}

/// Looks for a head within the limits at the front of the bytes.
pub fn look_at(bytes: &[u8], headers: &mut [HeaderSpan; 32]) -> Look
    ensures { LooksAt bytes.now headers.new result }
{
    match parse_request(front(bytes), headers) {
        Ok(Status::Complete(spans)) => Look::Found(spans),
        Ok(Status::Partial) => {
            if bytes.len() < HEAD_LIMIT {
                Look::Open
            } else {
                Look::Never
            }
        }
        Err(_) => Look::Never,
    }
}

fn has_name(bytes: &[u8], header: &HeaderSpan, name: &[u8]) -> bool
    requires { IsHeaderWithin (length bytes.now) header.now }
    ensures { result ≡ str_eq_ignore_ascii_case (header_bytes bytes.now header.now).0 name.now }
{
    header.name.of(bytes).eq_ignore_ascii_case(name)
}

/// How many fields have this name, in any case.
fn count_fields(bytes: &[u8], headers: &[HeaderSpan], name: &[u8]) -> usize
    requires { All (IsHeaderWithin (length bytes.now)) headers.now }
    ensures { result ≡ count_named name.now (map (header_bytes bytes.now) headers.now) }
{
    let mut count = 0;
    for header in headers {
        if has_name(bytes, header, name) {
            count += 1;
        }
    }
    count
}

/// Where the value of the one field of this name is.
fn only_field(bytes: &[u8], headers: &[HeaderSpan], name: &[u8]) -> Option<Span>
    requires { All (IsHeaderWithin (length bytes.now)) headers.now }
    ensures value { option_map (λ v. span_bytes bytes.now v) result ≡ only (values_named name.now (map (header_bytes bytes.now) headers.now)) }
    ensures within { IfSome result (λ v. IsWithin (length bytes.now) v) }
{
    let mut found = None;
    for header in headers {
        if has_name(bytes, header, name) {
            if found.is_some() {
                return None;
            }
            found = Some(header.value);
        }
    }
    found
}

fn is_close(bytes: &[u8], header: &HeaderSpan) -> bool
    requires { IsHeaderWithin (length bytes.now) header.now }
    ensures { result ≡ Rattle.permit_http.specs.Head.is_close (header_bytes bytes.now header.now) }
{
    has_name(bytes, header, b"connection") && header.value.of(bytes).eq_ignore_ascii_case(b"close")
}

/// Whether a field asks to close the connection.
fn asks_to_close(bytes: &[u8], headers: &[HeaderSpan]) -> bool
    requires { All (IsHeaderWithin (length bytes.now)) headers.now }
    ensures { result ≡ closes (map (header_bytes bytes.now) headers.now) }
{
    for header in headers {
        if is_close(bytes, header) {
            return true;
        }
    }
    false
}

fn are_digits(bytes: &[u8]) -> bool
    ensures { result ≡ list_all is_ascii_digit bytes.now }
{
    bytes.iter().all(|b| b.is_ascii_digit())
}

fn is_length(value: &[u8]) -> bool
    ensures { result ≡ is_length value.now }
{
    1 <= value.len() && value.len() <= 9 && are_digits(value)
}

/// The number that a value of 1 to 9 digits writes.
fn length_value(value: &[u8]) -> Option<u32>
    ensures { result ≡ length_in value.now }
{
    if !is_length(value) {
        return None;
    }
    match str::from_utf8(value) {
        Ok(text) => text.parse::<u32>().ok(),
        Err(_) => None,
    }
}

/// Whether the version is 1.1 with one Host and nothing is expected.
fn is_served(bytes: &[u8], headers: &[HeaderSpan], minor: u8) -> bool
    requires { All (IsHeaderWithin (length bytes.now)) headers.now }
    ensures { result ≡ is_served minor (map (header_bytes bytes.now) headers.now) }
{
    let hosts = count_fields(bytes, headers, b"host");
    let expects = count_fields(bytes, headers, b"expect");
    minor == 1 && hosts == 1 && expects == 0
}

/// The number of bytes that a value of Content-Length writes, within the limit.
fn limited_length(value: &[u8]) -> Result<u32, Fault>
    ensures value { result ≡ limited (length_in value.now) }
    ensures small { IfOk result (λ n. n ≤ 16384) }
    ensures kind { IfErr result IsHeadFault }
{
    match length_value(value) {
        None => Err(Fault::Length),
        Some(length) if length <= BODY_LIMIT => Ok(length),
        Some(_) => Err(Fault::Large),
    }
}

/// The number of bytes of the body.
fn body_length(bytes: &[u8], headers: &[HeaderSpan]) -> Result<u32, Fault>
    requires { All (IsHeaderWithin (length bytes.now)) headers.now }
    ensures value { result ≡ body_length (map (header_bytes bytes.now) headers.now) }
    ensures small { IfOk result (λ n. n ≤ 16384) }
    ensures kind { IfErr result IsHeadFault }
{
    if count_fields(bytes, headers, b"transfer-encoding") != 0 {
        return Err(Fault::Length);
    }
    if 1 < count_fields(bytes, headers, b"content-length") {
        return Err(Fault::Length);
    }
    match only_field(bytes, headers, b"content-length") {
        None => Ok(0),
        Some(value) => limited_length(value.of(bytes)),
    }
}

/// The first fault of a head, or the number of bytes of its body.
fn judge(bytes: &[u8], headers: &[HeaderSpan], minor: u8) -> Result<u32, Fault>
    requires { All (IsHeaderWithin (length bytes.now)) headers.now }
    ensures value { result ≡ judged minor (map (header_bytes bytes.now) headers.now) }
    ensures small { IfOk result (λ n. n ≤ 16384) }
    ensures kind { IfErr result IsHeadFault }
{
    if is_served(bytes, headers, minor) {
        body_length(bytes, headers)
    } else {
        Err(Fault::Version)
    }
}

/// Where the parts of a message are whose head was found, or the first fault of the head.
pub fn parts_of(
    bytes: &[u8],
    headers: &[HeaderSpan; 32],
    found: RequestSpans,
) -> Result<MessageSpans, Fault>
    requires { IsRequestWithin (take 8192 bytes.now) headers.now found }
    ensures ordered { IfOk result (λ s. AreOrdered (length bytes.now) s) }
    ensures parts { IfOk result (λ s. (h : RequestHead) → IsFound bytes.now headers.now found h → Covers bytes.now s h) }
    ensures kind { IfErr result IsHeadFault }
    ensures fault { IfErr result (λ e. (h : RequestHead) → IsFound bytes.now headers.now found h → judged h.minor (pairs_of h) ≡ Err e) }
{
    let head = front(bytes);
    let fields = &headers[..found.headers];
    let length = judge(head, fields, found.version)?;
    let authorization = only_field(head, fields, b"authorization");
    let closes = asks_to_close(head, fields);
    Ok(MessageSpans {
        method: found.method,
        path: found.path,
        authorization,
        closes,
        body: Span {
            start: found.len,
            end: found.len + length as usize,
        },
    })
}
