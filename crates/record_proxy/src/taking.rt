// Bytes that are taken of either side.
ghost use Rattle.std.specs.Prelude.{◌≡◌, ◌≢◌, ◌<◌, ◌≤◌, ◌+◌, ℕ, [], false, List, Option, None, Some, length, IfNone};
ghost use Rattle.std.specs.Prelude.{IfSome, Ok};
ghost use Rattle.http_frame.specs.Runs.{BeginsWithNone};
ghost use Rattle.mm_base.specs.Link.{LinkBytes, CountsLinkFaults};
ghost use Rattle.record_store.specs.declared.record.Record.{Record as RecordValue};
ghost use Rattle.replay_server.specs.Sessions.{MayGoOn, most};
ghost use Rattle.record_proxy.specs.Courses.{NeedsMore};
ghost use Rattle.record_proxy.specs.Links.{Links, HasFaultCause, links};
ghost use Rattle.record_proxy.specs.inside.Progress.{Progress, GoesOn, IsEndAt, to_do};
ghost use Rattle.http_frame.specs.declared.messages.Request.{Request as RequestValue};

use crate::ends::ProxyEnd;
use crate::proxy_state::ProxyState;
use mm_base::{EndError, Link};
use text_base::OutOfMemory;
use text_base::limits::MOST_CONNECTION_BYTES;

// How many bytes are taken of a side at most.
const MOST: usize = MOST_CONNECTION_BYTES as usize;

/// How a proxied connection ends when one side refuses a call.
pub fn refused(fault: ProxyEnd, error: EndError) -> Result<ProxyEnd, OutOfMemory>
    ensures { IsEndAt fault error result }
{
    match error {
        EndError::Failed => Ok(fault),
        EndError::OutOfMemory => Err(OutOfMemory),
    }
}

// How a connection ends where the client's input did.
fn left(rest: &[u8]) -> ProxyEnd
    ensures between { rest.now ≡ [] → result ≡ ProxyEnd.Closed }
    ensures within { 0 < length rest.now → result ≡ ProxyEnd.BadRequest }
{
    if rest.is_empty() {
        ProxyEnd::Closed
    } else {
        ProxyEnd::BadRequest
    }
}

// Takes more bytes of the client into `piece`.
fn read_client<L: Link>(
    state: &mut ProxyState,
    client: &mut L,
    piece: &mut [u8],
) -> Option<Result<ProxyEnd, OutOfMemory>>
    requires room { 0 < length piece.old }
    requires few { state.old.client_taken + length piece.old ≤ most }
    ensures goes_on { (port : ℕ) (start : Links) (server : Option LinkBytes) (before records : List RecordValue)
        → Progress port start (links (L.view client.old).told server) before records state.old
        → state.old.due ≡ None → BeginsWithNone state.old.requests.unread → MayGoOn state.old.requests.unread
        → GoesOn port start (links (L.view client.new).told server) before records state.new result }
    ensures less { IfNone result (to_do state.new < to_do state.old) }
    ensures counts { CountsLinkFaults (L.view client.old) (L.view client.new) }
    ensures cause { IfSome result (HasFaultCause ProxyEnd.ClientFault (L.view client.old) (L.view client.new)) }
    ensures server_cause { IfSome result (λ r. r ≢ Ok ProxyEnd.ServerFault) }
{
    match client.read(piece) {
        Ok(0) => Some(Ok(left(state.requests.unread()))),
        Ok(count) => match state.requests.feed(&piece[..count]) {
            Ok(()) => {
                state.client_taken += count;
                None
            }
            Err(error) => Some(Err(error)),
        },
        Err(error) => Some(refused(ProxyEnd::ClientFault, error)),
    }
}

/// Takes more bytes of the client, where all is passed on that is due, and no request is there.
pub fn take_of_client<L: Link>(
    state: &mut ProxyState,
    client: &mut L,
    buf: &mut [u8],
) -> Option<Result<ProxyEnd, OutOfMemory>>
    requires { 0 < length buf.old }
    ensures goes_on { (port : ℕ) (start : Links) (server : Option LinkBytes) (before records : List RecordValue)
        → Progress port start (links (L.view client.old).told server) before records state.old
        → state.old.due ≡ None → BeginsWithNone state.old.requests.unread → MayGoOn state.old.requests.unread
        → GoesOn port start (links (L.view client.new).told server) before records state.new result }
    ensures less { IfNone result (to_do state.new < to_do state.old) }
    ensures counts { CountsLinkFaults (L.view client.old) (L.view client.new) }
    ensures cause { IfSome result (HasFaultCause ProxyEnd.ClientFault (L.view client.old) (L.view client.new)) }
    ensures server_cause { IfSome result (λ r. r ≢ Ok ProxyEnd.ServerFault) }
{
    if state.client_taken >= MOST {
        return Some(Ok(ProxyEnd::Full));
    }
    let room = buf.len().min(MOST - state.client_taken);
    read_client(state, client, &mut buf[..room])
}

// Takes more bytes of the server into `piece`, or learns that there are no more.
fn read_server<L: Link>(
    state: &mut ProxyState,
    server: &mut L,
    piece: &mut [u8],
) -> Option<Result<ProxyEnd, OutOfMemory>>
    requires room { 0 < length piece.old }
    requires few { state.old.server_taken + length piece.old ≤ most }
    requires running { state.old.server_ended ≡ false }
    requires open { state.old.responses.ended ≡ false }
    ensures goes_on { (port : ℕ) (start : Links) (client : Option LinkBytes) (before records : List RecordValue)
        (request : RequestValue)
        → Progress port start (links client (L.view server.old).told) before records state.old
        → state.old.due ≡ Some request
        → NeedsMore request.head.head_only state.old.server_ended state.old.responses.unread
        → GoesOn port start (links client (L.view server.new).told) before records state.new result }
    ensures less { IfNone result (to_do state.new < to_do state.old) }
    ensures counts { CountsLinkFaults (L.view server.old) (L.view server.new) }
    ensures cause { IfSome result (HasFaultCause ProxyEnd.ServerFault (L.view server.old) (L.view server.new)) }
    ensures client_cause { IfSome result (λ r. r ≢ Ok ProxyEnd.ClientFault) }
{
    match server.read(piece) {
        Ok(0) => {
            state.responses.end();
            state.server_ended = true;
            None
        }
        Ok(count) => match state.responses.feed(&piece[..count]) {
            Ok(()) => {
                state.server_taken += count;
                None
            }
            Err(error) => Some(Err(error)),
        },
        Err(error) => Some(refused(ProxyEnd::ServerFault, error)),
    }
}

/// Takes more bytes of the server, where a response is due and not there; or learns that there are no more.
pub fn take_of_server<L: Link>(
    state: &mut ProxyState,
    server: &mut L,
    buf: &mut [u8],
) -> Option<Result<ProxyEnd, OutOfMemory>>
    requires room { 0 < length buf.old }
    requires tied { state.old.responses.ended ≡ state.old.server_ended }
    ensures goes_on { (port : ℕ) (start : Links) (client : Option LinkBytes) (before records : List RecordValue)
        (request : RequestValue)
        → Progress port start (links client (L.view server.old).told) before records state.old
        → state.old.due ≡ Some request
        → NeedsMore request.head.head_only state.old.server_ended state.old.responses.unread
        → GoesOn port start (links client (L.view server.new).told) before records state.new result }
    ensures less { IfNone result (to_do state.new < to_do state.old) }
    ensures counts { CountsLinkFaults (L.view server.old) (L.view server.new) }
    ensures cause { IfSome result (HasFaultCause ProxyEnd.ServerFault (L.view server.old) (L.view server.new)) }
    ensures client_cause { IfSome result (λ r. r ≢ Ok ProxyEnd.ClientFault) }
{
    if state.server_ended {
        return Some(Ok(ProxyEnd::BadResponse));
    }
    if state.server_taken >= MOST {
        return Some(Ok(ProxyEnd::Full));
    }
    let room = buf.len().min(MOST - state.server_taken);
    read_server(state, server, &mut buf[..room])
}
