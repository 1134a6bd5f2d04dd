// Makes a record of the bytes of one request and one response.
ghost use Rattle.std.specs.Prelude.{IfOk};
ghost use Rattle.record_store.specs.inside.Exchanges.{OneRequest, OneResponse, OneExchange};

use crate::record::Record;
use http_frame::{Request, Response, first_request, first_response};
use std::alloc::Global;
use text_base::OutOfMemory;

/// Returns the record of the bytes, or `None` exactly where they aren't one whole request and one whole response to it
/// with a status of 200 or more. Returns `OutOfMemory` where an allocation fails.
pub fn exchange_of(
    alloc: Global,
    port: u16,
    request: &[u8],
    response: &[u8],
) -> Result<Option<Record>, OutOfMemory>
    ensures { IfOk result (OneExchange port request.now response.now) }
{
    match one_request(alloc, request)? {
        Some(request) => match one_response(alloc, request.head.head_only, response)? {
            Some(response) => Ok(Some(Record {
                port,
                request,
                response,
            })),
            None => Ok(None),
        },
        None => Ok(None),
    }
}

// Returns the request that all the bytes are, or `None` where they aren't one.
fn one_request(alloc: Global, bytes: &[u8]) -> Result<Option<Request>, OutOfMemory>
    ensures { IfOk result (OneRequest bytes.now) }
{
    match first_request(alloc, bytes)? {
        Some(request) => {
            if request.bytes.len() == bytes.len() {
                Ok(Some(request))
            } else {
                Ok(None)
            }
        }
        None => Ok(None),
    }
}

// Returns the response that all the bytes are, to a HEAD request (`to_head`) or to another, with a status of 200 or
// more, or `None` where they aren't one.
fn one_response(alloc: Global, to_head: bool, bytes: &[u8]) -> Result<Option<Response>, OutOfMemory>
    ensures { IfOk result (OneResponse to_head bytes.now) }
{
    match first_response(alloc, to_head, bytes)? {
        Some(response) => {
            if response.bytes.len() == bytes.len() && response.head.status >= 200 {
                Ok(Some(response))
            } else {
                Ok(None)
            }
        }
        None => Ok(None),
    }
}
