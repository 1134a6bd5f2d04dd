// Reads the heads of requests.
ghost use Rattle.std.specs.Prelude.{◌≡◌, ◌==◌, ◌||◌, ◌≤◌, length, IfOk, IfSome, option_map, codes};
ghost use Rattle.httparse.specs.Spans.{span_bytes, IsWithin as IsSpanWithin, IsRequestWithin, IsRequestAt};
ghost use Rattle.httparse.specs.Grammar.{RequestHead as Head};
ghost use Rattle.http_frame.specs.Forms.{request_line, request_said, request_form};
ghost use Rattle.http_frame.specs.inside.Fields.{values_in, AreWithin};
ghost use Rattle.http_frame.specs.inside.Heads.{SaysHead, HeadCause};

use crate::errors::FrameError;
use crate::fields::{asks_close, read_fields};
use crate::framing::framing_of_request;
use crate::head::{HeadRead, HeadStep};
use crate::limits::{MOST_LINES, front_of, limit_of, line_feeds};
use crate::messages::RequestHead;
use http_header::{HOST, HeaderMap, USER_AGENT};
use httparse::spans::{EMPTY_HEADER_SPAN, HeaderSpan, RequestSpans, Span, parse_request};
use httparse::{Error, Status};
use std::alloc::Global;
use text_base::{Bytes, OutOfMemory};

// Returns the request line, with one space between its parts.
fn line_of(alloc: Global, method: &[u8], target: &[u8], minor: u8) -> Result<Bytes, OutOfMemory>
    requires { minor ≤ 1 }
    ensures { IfOk result (λ line. line ≡ request_line method.now target.now minor) }
{
    // 10 bytes are the two spaces and the version. A line that is kept takes no more memory than it needs.
    let len = method.len().saturating_add(target.len()).saturating_add(10);
    let mut line = Vec::with_capacity(alloc, len)?;
    line.extend_from_slice(method)?;
    line.extend_from_slice(b" ")?;
    line.extend_from_slice(target)?;
    line.extend_from_slice(b" HTTP/1.")?;
    line.extend_from_slice(&[b'0' + minor])?;
    Ok(Bytes::from_vec(line))
}

// Returns a copy of what `span` covers, if there is a span.
fn copy_of(alloc: Global, front: &[u8], span: Option<Span>) -> Result<Option<Bytes>, OutOfMemory>
    requires { IfSome span (IsSpanWithin (length front.now)) }
    ensures { IfOk result (λ bytes. bytes ≡ option_map (span_bytes front.now) span) }
{
    match span {
        Some(span) => Ok(Some(Bytes::from_slice(alloc, span.of(front))?)),
        None => Ok(None),
    }
}

// Returns whether the connection closes after the request, as it always does at version 1.0.
fn closes_after(minor: u8, asks: bool) -> bool
    ensures { result ≡ (minor == 0 || asks) }
{
    minor == 0 || asks
}

// Returns what a head says, by its parts.
fn head_of(
    alloc: Global,
    front: &[u8],
    method: &[u8],
    target: &[u8],
    minor: u8,
    fields: &HeaderMap<Span>,
) -> Result<RequestHead, OutOfMemory>
    requires minor { minor ≤ 1 }
    requires within { AreWithin front.now fields.now }
    ensures { IfOk result (λ head. head ≡ request_said method.now target.now minor
        (values_in front.now fields.now (codes "host"))
        (values_in front.now fields.now (codes "user-agent"))
        (values_in front.now fields.now (codes "connection"))) }
{
    let line = line_of(alloc, method, target, minor)?;
    let host = copy_of(alloc, front, fields.get(HOST).copied())?;
    let agent = copy_of(alloc, front, fields.get(USER_AGENT).copied())?;
    let closes = closes_after(minor, asks_close(front, fields));
    Ok(RequestHead {
        line,
        host,
        agent,
        head_only: method == b"HEAD".as_slice(),
        closes,
    })
}

// Returns what reading a whole head gives, by the spans of its parts. `fields` becomes the map of its
// fields. Returns `OutOfMemory` if an allocation fails.
fn request_step(
    alloc: Global,
    fields: &mut HeaderMap<Span>,
    front: &[u8],
    headers: &[HeaderSpan],
    spans: &RequestSpans,
) -> Result<HeadStep<RequestHead>, OutOfMemory>
    requires within { IsRequestWithin front.now headers.now spans.now }
    requires few { length headers.now ≤ 100 }
    ensures { IfOk result (λ step. (h : Head) → IsRequestAt front.now headers.now spans.now h
        → SaysHead request_form h spans.now.len step) }
{
    read_fields(front, &headers[..spans.headers], fields)?;
    let method = spans.method.of(front);
    match framing_of_request(front, method, fields) {
        Ok(framing) => {
            let head = head_of(
                alloc,
                front,
                method,
                spans.path.of(front),
                spans.version,
                fields,
            )?;
            Ok(HeadStep::Head(HeadRead {
                len: spans.len,
                framing,
                head,
            }))
        }
        Err(error) => Ok(HeadStep::Fault(error)),
    }
}

/// Reads the head at the front of `bytes`. `fields` becomes the map of its fields; a caller keeps it from head to head
/// for its memory. Returns `OutOfMemory` if an allocation fails.
pub fn read_request(
    alloc: Global,
    fields: &mut HeaderMap<Span>,
    bytes: &[u8],
) -> Result<HeadStep<RequestHead>, OutOfMemory>
    ensures { IfOk result (HeadCause request_form bytes.now) }
{
    let front = front_of(bytes);
    let mut headers = [EMPTY_HEADER_SPAN; 100];
    match parse_request(front, &mut headers) {
        Ok(Status::Complete(spans)) => {
            if line_feeds(&front[..spans.len]) > MOST_LINES {
                return Ok(HeadStep::Fault(FrameError::TooManyHeaders));
            }
            request_step(alloc, fields, front, &headers, &spans)
        }
        Ok(Status::Partial) => match limit_of(bytes) {
            Some(error) => Ok(HeadStep::Fault(error)),
            None => Ok(HeadStep::More),
        },
        Err(Error::TooManyHeaders) => Ok(HeadStep::Fault(FrameError::TooManyHeaders)),
        Err(_) => match limit_of(bytes) {
            Some(error) => Ok(HeadStep::Fault(error)),
            None => Ok(HeadStep::Fault(FrameError::BadHead)),
        },
    }
}
