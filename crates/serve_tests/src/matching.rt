// Requests that are answered from a store of many records of one path.
ghost use Rattle.std.specs.Prelude.{◌≤◌};

use crate::frames::request_in;
use crate::store::paired;
use crate::texts::copies;
use http_frame::Request;
use record_store::{PairError, Store};
use request_match::{Index, best};
use std::alloc::Global;
use std::process::Abort;
use text_base::{Bytes, OutOfMemory};

/// What `best` returns. No test needs what its contract says of that, and so this has none.
fn best_of(records: &Store, asked: &Request) -> Option<usize> {
    best(records, &asked.head, None)
}

/// Whether the record at that place is what `best` and an index answer to a request.
fn agree(
    alloc: Global,
    records: &Store,
    asked: &Request,
    place: usize,
) -> Result<bool, OutOfMemory> {
    let index = Index::new(alloc, records, None)?;
    Ok(index.best(&asked.head) == Some(place) && best_of(records, asked) == Some(place))
}

/// A request of `/a` with that number as its query.
fn numbered(alloc: Global, number: u32) -> Result<String, OutOfMemory> {
    Ok(format!(in alloc; "GET /a?{number} HTTP/1.1\r\nHost: a\r\n\r\n")?)
}

/// Adds the request of that number.
fn add_numbered(alloc: Global, client: &mut Bytes, number: u32) -> Result<(), OutOfMemory> {
    let request = numbered(alloc, number)?;
    client.append(request.as_bytes())
}

/// So many requests of one path, in an order of their own.
fn shuffled(alloc: Global, count: u32) -> Result<Bytes, OutOfMemory>
    requires { count ≤ 2_000 }
{
    let mut client = Bytes::new(alloc);
    for i in 0..count {
        add_numbered(alloc, &mut client, i * 7 % 2_000)?;
    }
    Ok(client)
}

const ANSWERS: &[u8] =
    b"HTTP/1.1 200 OK\r\nContent-Length: 1\r\n\r\naHTTP/1.1 200 OK\r\nContent-Length: 1\r\n\r\nb";

/// Two thousand records of one path.
fn many_records(alloc: Global) -> Result<Store, PairError> {
    let client = shuffled(alloc, 2_000)?;
    let server = copies(alloc, b"", ANSWERS, 1_000)?;
    paired(alloc, client.as_slice(), server.as_slice(), 0)
}

// The number of a request, and the place of the record that answers it.
static PLACES: [(u32, usize); 4] = [(0, 0), (7, 1), (1_999, 857), (2_000, 600)];

/// Whether the request of this number is answered by the record at this place.
fn is_found(
    alloc: Global,
    records: &Store,
    number: u32,
    place: usize,
) -> Result<bool, OutOfMemory> {
    let asked = numbered(alloc, number)?;
    match request_in(alloc, asked.as_bytes()) {
        Some(asked) => agree(alloc, records, &asked, place),
        None => Ok(false),
    }
}

/// Each of these requests is answered by the record at its place.
fn are_found(rt: &impl Abort, alloc: Global, records: &Store) {
    for &(number, place) in &PLACES {
        assert!(rt;
            is_found(alloc, records, number, place) == Ok(true),
            "at {number}"
        );
    }
}

#[test]
fn an_index_of_many_records(rt: HostRuntime) {
    let records = many_records(rt.alloc()).expect(&rt, "pairs");
    are_found(&rt, rt.alloc(), &records);
}
