// Finds the first message of bytes that are all there.
ghost use Rattle.std.specs.Prelude.{IfOk};
ghost use Rattle.http_frame.specs.Runs.{FirstRequest, FirstResponse};

use crate::messages::{Request, Response};
use crate::pending::Outcome;
use crate::request_frames::advance as advance_request;
use crate::response_frames::advance as advance_response;
use http_header::HeaderMap;
use std::alloc::Global;
use text_base::{Bytes, OutOfMemory};

/// Returns the request at the front, or `None` exactly where the bytes begin with none. Returns `OutOfMemory` where an
/// allocation fails.
pub fn first_request(alloc: Global, bytes: &[u8]) -> Result<Option<Request>, OutOfMemory>
    ensures { IfOk result (FirstRequest bytes.now) }
{
    let mut fields = HeaderMap::empty(alloc);
    let (_, outcome) = advance_request(alloc, &mut fields, bytes, None);
    match outcome {
        Ok(Outcome::Message(found)) => {
            let bytes = Bytes::from_slice(alloc, &bytes[..found.len])?;
            Ok(Some(Request {
                head: found.head,
                bytes,
            }))
        }
        Ok(Outcome::More) => Ok(None),
        Ok(Outcome::Fault(_)) => Ok(None),
        Err(error) => Err(error),
    }
}

/// Returns the response at the front, to a HEAD request (`to_head`) or to another, or `None` exactly where the bytes
/// begin with none. The input ends with the bytes. Returns `OutOfMemory` where an allocation fails.
pub fn first_response(
    alloc: Global,
    to_head: bool,
    bytes: &[u8],
) -> Result<Option<Response>, OutOfMemory>
    ensures { IfOk result (FirstResponse to_head bytes.now) }
{
    let mut fields = HeaderMap::empty(alloc);
    let (_, outcome) = advance_response(&mut fields, to_head, true, bytes, None);
    match outcome {
        Ok(Outcome::Message(found)) => {
            let bytes = Bytes::from_slice(alloc, &bytes[..found.len])?;
            Ok(Some(Response {
                head: found.head,
                bytes,
            }))
        }
        Ok(Outcome::More) => Ok(None),
        Ok(Outcome::Fault(_)) => Ok(None),
        Err(error) => Err(error),
    }
}
