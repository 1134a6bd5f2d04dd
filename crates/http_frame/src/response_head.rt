// Reads the heads of responses.
ghost use Rattle.std.specs.Prelude.{◌≡◌, ◌≤◌, ◌||◌, length, IfOk, All, codes};
ghost use Rattle.httparse.specs.Spans.{IsWithin as IsSpanWithin, IsResponseWithin, IsResponseAt};
ghost use Rattle.httparse.specs.Grammar.{ResponseHead as Answer};
ghost use Rattle.http_header.specs.HeaderMap.{get_all};
ghost use Rattle.http_frame.specs.Forms.{ends_late, response_said, response_form};
ghost use Rattle.http_frame.specs.inside.Fields.{values_in};
ghost use Rattle.http_frame.specs.inside.Heads.{SaysHead, HeadCause};

use crate::errors::FrameError;
use crate::fields::{asks_close, read_fields};
use crate::framing::{Framing, framing_of_response};
use crate::head::{HeadRead, HeadStep};
use crate::limits::{MOST_LINES, front_of, limit_of, line_feeds};
use crate::messages::ResponseHead;
use http_header::HeaderMap;
use httparse::spans::{EMPTY_HEADER_SPAN, HeaderSpan, ResponseSpans, Span, parse_response};
use httparse::{Error, Status};
use text_base::OutOfMemory;

// Returns whether the connection closes after the response, as it always does where the body ends with the input.
fn closes_after(framing: Framing, asks: bool) -> bool
    ensures { result ≡ (ends_late framing || asks) }
{
    match framing {
        Framing::Length(_) => asks,
        Framing::Chunked => asks,
        Framing::ToEnd => true,
    }
}

// Returns what a head says, by its parts.
fn head_of(front: &[u8], framing: Framing, status: u16, fields: &HeaderMap<Span>) -> ResponseHead
    requires { All (IsSpanWithin (length front.now)) (get_all fields.now (codes "connection")) }
    ensures { result ≡ response_said framing status (values_in front.now fields.now (codes "connection")) }
{
    let closes = closes_after(framing, asks_close(front, fields));
    ResponseHead { status, closes }
}

// Returns what reading a whole head gives, by the spans of its parts. `fields` becomes the map of its
// fields. Returns `OutOfMemory` if an allocation fails.
fn response_step(
    fields: &mut HeaderMap<Span>,
    to_head: bool,
    front: &[u8],
    headers: &[HeaderSpan],
    spans: &ResponseSpans,
) -> Result<HeadStep<ResponseHead>, OutOfMemory>
    requires within { IsResponseWithin front.now headers.now spans.now }
    requires few { length headers.now ≤ 100 }
    ensures { IfOk result (λ step. (h : Answer) → IsResponseAt front.now headers.now spans.now h
        → SaysHead (response_form to_head) h spans.now.len step) }
{
    read_fields(front, &headers[..spans.headers], fields)?;
    match framing_of_response(front, to_head, spans.code, fields) {
        Ok(framing) => Ok(HeadStep::Head(HeadRead {
            len: spans.len,
            framing,
            head: head_of(front, framing, spans.code, fields),
        })),
        Err(error) => Ok(HeadStep::Fault(error)),
    }
}

/// Reads the head at the front of `bytes`, of a response to a HEAD request (`to_head`) or to another. `fields` becomes
/// the map of its fields; a caller keeps it from head to head for its memory. Returns `OutOfMemory` if an allocation
/// fails.
pub fn read_response(
    fields: &mut HeaderMap<Span>,
    to_head: bool,
    bytes: &[u8],
) -> Result<HeadStep<ResponseHead>, OutOfMemory>
    ensures { IfOk result (HeadCause (response_form to_head) bytes.now) }
{
    let front = front_of(bytes);
    let mut headers = [EMPTY_HEADER_SPAN; 100];
    match parse_response(front, &mut headers) {
        Ok(Status::Complete(spans)) => {
            if line_feeds(&front[..spans.len]) > MOST_LINES {
                return Ok(HeadStep::Fault(FrameError::TooManyHeaders));
            }
            response_step(fields, to_head, front, &headers, &spans)
        }
        Ok(Status::Partial) => match limit_of(bytes) {
            Some(error) => Ok(HeadStep::Fault(error)),
            None => Ok(HeadStep::More),
        },
        Err(Error::TooManyHeaders) => Ok(HeadStep::Fault(FrameError::TooManyHeaders)),
        Err(_) => match limit_of(bytes) {
            Some(error) => Ok(HeadStep::Fault(error)),
            None => Ok(HeadStep::Fault(FrameError::BadHead)),
        },
    }
}
