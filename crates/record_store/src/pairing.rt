// Pairs a client's requests with a server's responses.
ghost use Rattle.std.specs.Prelude.{◌≡◌, ◌≢◌, List, [], Result, Err, IfOk, IfErr};
ghost use Rattle.record_store.specs.declared.errors.PairError.{PairError as ErrorValue};
ghost use Rattle.record_store.specs.declared.errors.PairError.TheVariants as errors;
ghost use Rattle.record_store.specs.declared.record.Record.{Record as RecordValue};
ghost use Rattle.http_frame.specs.Runs.{AreRequests};
ghost use Rattle.record_store.specs.Pairs.{Pairs, RefusesRequests};

use crate::errors::PairError;
use crate::record::{Record, Store};
use crate::server::{answer_at, from_place};
use http_frame::{Request, first_request};
use std::alloc::Global;

// Returns the requests that the bytes are, or `BadRequest` for the first that is refused or cut off.
fn requests_of(alloc: Global, client: &[u8]) -> Result<Vec<Request>, PairError>
    ensures ok { IfOk result (λ requests. AreRequests client.now requests.items []) }
    ensures err { IfErr result (RefusesRequests client.now) }
{
    let mut requests = Vec::new(alloc);
    let mut place = 0;
    'requests: while place < client.len() {
        match first_request(alloc, from_place(client, place))? {
            Some(request) => {
                place += request.bytes.len();
                requests.push(request)?;
            }
            None => {
                return Err(PairError::BadRequest {
                    n: requests.as_slice().len() as u64 + 1,
                });
            }
        }
    }
    Ok(requests)
}

/// Returns the store of a client's requests, in their order, each with the first of the server's responses that isn't
/// interim. Each record has the port `port`.
///
/// Returns the first refusal: of a request, then for each request of its response, and then of bytes that are left. Two
/// streams always have the same result, but for `OutOfMemory`, which is returned where an allocation fails.
pub fn pair(alloc: Global, client: &[u8], server: &[u8], port: u16) -> Result<Store, PairError>
    ensures pairs { Pairs client.now server.now port result }
    ensures exact { (other : Result (List RecordValue) ErrorValue) → Pairs client.now server.now port other
        → other ≢ Err errors.OutOfMemory → result ≢ Err errors.OutOfMemory → result ≡ other }
{
    pair_streams(alloc, client, server, port)
}

// Pairs the streams.
fn pair_streams(alloc: Global, client: &[u8], server: &[u8], port: u16) -> Result<Store, PairError>
    ensures { Pairs client.now server.now port result }
{
    let requests = requests_of(alloc, client)?;
    let mut store = Store::new(alloc);
    let mut place = 0;
    'answers: for request in requests {
        let n = store.records().len() as u64 + 1;
        let answer = answer_at(alloc, n, request.head.head_only, from_place(server, place))?;
        place += answer.end;
        store.add(Record {
            port,
            request,
            response: answer.response,
        })?;
    }
    if place < server.len() {
        return Err(PairError::ExtraResponse);
    }
    Ok(store)
}
