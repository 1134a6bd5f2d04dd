// Serving a store in memory to the links of a port in memory.
ghost use Rattle.std.specs.Prelude.{IfOk};
ghost use Rattle.mm_base.specs.MemLink.{IsUnused};

use crate::case::{Case, leaves_at, status_by};
use crate::exchange::{CLIENT, OLD, SERVER};
use mm_base::{MemLink, MemPort, NoPace};
use std::alloc::Global;
use std::marker::Sync;
use std::sync::Wait;
use std::thread::Threads;
use test_outside::{TestOutside, words_of};
use text_base::{Bytes, OutOfMemory};

// The store of an exchange that was recorded from port 80.
const STORE_OF_80: &str =
    "MMSTORE 2\nrecord http 80 27 40\nGET / HTTP/1.1\r\nHost: a\r\n\r\nHTTP/1.1 200 OK\r\nContent-Length: 2\r\n\r\n\
        hi\n";

// Two requests, of which the store answers the first.
const TWO: &str = "GET / HTTP/1.1\r\nHost: a\r\n\r\nGET /x HTTP/1.1\r\nHost: a\r\n\r\n";

const MISSING: &str = "HTTP/1.1 404 Not Found\r\nContent-Length: 0\r\n\r\n";

fn link(alloc: Global, input: &str, fails: &[u64]) -> Result<MemLink, OutOfMemory>
    ensures { IfOk result IsUnused }
{
    let input = Bytes::from_slice(alloc, input.as_bytes())?;
    Ok(MemLink::new(alloc, input, 1, fails.to_vec(alloc)?))
}

// A port with two links. Its call of this number fails, and the third of the first link.
fn port_of_two(alloc: Global, fails: u64) -> Result<MemPort, OutOfMemory> {
    let fails = vec![in alloc; fails]?;
    let first = link(alloc, TWO, &[3])?;
    let second = link(alloc, TWO, &[])?;
    let links = vec![in alloc; first, second]?;
    Ok(MemPort::new(alloc, links, fails))
}

// The words, which calls of the disk, of `out` and of the port fail, the status, and what is printed. The store stays
// as it is.
type Row = (&'static str, (u64, u64), u64, u8, &'static str);

// Whether `replay` leaves what a row states.
fn replays<R: Threads + Wait + Sync>(
    rt: &R,
    alloc: Global,
    row: &Row,
) -> Result<bool, OutOfMemory> {
    let (words, fails, port_fails, status, printed) = *row;
    let case = Case {
        words,
        files: &[("s", OLD)],
        fails,
        status,
        printed,
        left: &[("s", OLD)],
    };
    let mut port = port_of_two(alloc, port_fails)?;
    leaves_at(rt, alloc, &case, &mut port)
}

const SERVED: &str = "closed 1 bad 0 broken 1 full 0\n";

const NET_FAULT: &str = "mm: net fault\n";

const SERVE_TWO: &str = "replay --store s --port 80 --connections 2";

// The calls of the port are listening, two of accepting, and two of finishing.
static SERVINGS: [Row; 10] = [
    (SERVE_TWO, (0, 0), 0, 0, SERVED),
    (
        "replay --connections=3 --port=0080 --store=s",
        (0, 0),
        0,
        0,
        SERVED,
    ),
    (
        "replay --store s --port 80 --connections 1",
        (0, 0),
        0,
        0,
        "closed 0 bad 0 broken 1 full 0\n",
    ),
    (SERVE_TWO, (0, 1), 0, 7, ""),
    (SERVE_TWO, (1, 0), 0, 6, "mm: read fault s\n"),
    (SERVE_TWO, (0, 0), 1, 8, NET_FAULT),
    (SERVE_TWO, (0, 0), 2, 8, NET_FAULT),
    (SERVE_TWO, (0, 0), 3, 8, NET_FAULT),
    (SERVE_TWO, (0, 0), 4, 8, NET_FAULT),
    (SERVE_TWO, (0, 0), 5, 8, NET_FAULT),
];

#[test]
fn a_serving_prints_how_connections_ended(rt: HostRuntime) {
    for row in &SERVINGS {
        let is_left = replays(&rt, rt.alloc(), row).expect(&rt, "memory");
        assert!(rt; is_left, "at {}: {}", row.0, row.4);
    }
}

// A port with a link that asks once.
pub(crate) fn port_of_one(alloc: Global) -> Result<MemPort, OutOfMemory> {
    let only = link(alloc, CLIENT, &[])?;
    let links = vec![in alloc; only]?;
    Ok(MemPort::new(alloc, links, Vec::new(alloc)))
}

// Whether the first link of a port that is finished was given this.
fn was_given(port: &MemPort, said: &[u8]) -> bool {
    match port.finished().first() {
        Some(link) => link.given() == said,
        None => false,
    }
}

// Whether these words, over the store of port 80 and a link with a request, give this answer.
fn gives<R: Threads + Wait + Sync>(
    rt: &R,
    alloc: Global,
    words: &str,
    said: &str,
) -> Result<bool, OutOfMemory> {
    let words = words_of(alloc, words)?;
    let mut outside = TestOutside::new(alloc, &[("s", STORE_OF_80)], &[], &[])?;
    let mut port = port_of_one(alloc)?;
    let status = status_by(rt, alloc, &words, &mut outside, &mut port, &NoPace);
    Ok(status == 0 && was_given(&port, said.as_bytes()))
}

// The words, and what is answered.
static SITES: [(&str, &str); 4] = [
    ("replay --store s --port 80 --connections 1", SERVER),
    ("replay --store s --port 8080 --connections 1", MISSING),
    (
        "replay --store s --port 8080 --connections 1 --site-port 80",
        SERVER,
    ),
    (
        "replay --store s --port 80 --connections 1 --site-port 443",
        MISSING,
    ),
];

#[test]
fn requests_are_asked_at_the_port_of_the_site(rt: HostRuntime) {
    for &(words, said) in &SITES {
        let is_given = gives(&rt, rt.alloc(), words, said);
        assert!(rt; is_given.expect(&rt, "memory"), "at {words}");
    }
}
