// Stores of two streams, printed at once and in pieces.
use crate::links::{REQUEST, RESPONSE};
use record_store::{PairError, Store, StorePieces, pair, print_store};
use std::alloc::Global;
use text_base::OutOfMemory;

/// What `pair` returns. No test needs what its contract says of that, and so this has none.
pub(crate) fn paired(
    alloc: Global,
    client: &[u8],
    server: &[u8],
    port: u16,
) -> Result<Store, PairError> {
    pair(alloc, client, server, port)
}

const PRINTED: &[u8] =
    b"MMSTORE 2\nrecord http 0 27 40\nGET / HTTP/1.1\r\nHost: a\r\n\r\nHTTP/1.1 200 OK\r\nContent-Length: 2\r\n\r\nhi\n";

// A store may be sent and shared.
fn crosses<T: Send + Sync>(_value: &T) {}

/// Whether the pieces of a store are put together to that.
fn has_pieces(alloc: Global, store: &Store, wanted: &[u8]) -> Result<bool, OutOfMemory> {
    let mut rest = wanted;
    let mut pieces = StorePieces::new(alloc, store);
    'pieces: while pieces.next()? {
        let Some(after) = rest.strip_prefix(pieces.piece()) else {
            return Ok(false);
        };
        rest = after;
    }
    Ok(rest.is_empty())
}

/// Whether that is printed of a store, at once and in pieces.
fn is_printed(alloc: Global, store: &Store, wanted: &[u8]) -> bool {
    match print_store(alloc, store) {
        Ok(text) => text.as_slice() == wanted && has_pieces(alloc, store, wanted) == Ok(true),
        Err(_) => false,
    }
}

/// Whether that is printed of the store of one pair, which may be sent and shared.
fn is_printed_of_one(alloc: Global, wanted: &[u8]) -> bool {
    match paired(alloc, REQUEST.as_bytes(), RESPONSE.as_bytes(), 0) {
        Ok(store) => {
            crosses(&store);
            is_printed(alloc, &store, wanted)
        }
        Err(_) => false,
    }
}

#[test]
fn a_store_is_printed(rt: HostRuntime) {
    assert!(rt; is_printed_of_one(rt.alloc(), PRINTED));
}
