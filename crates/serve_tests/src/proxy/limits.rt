// Long connections.
ghost use Rattle.std.specs.Prelude.{◌≤◌};

use super::{Seen, Talk, seen_of};
use crate::links::{REQUEST, RESPONSE};
use crate::texts::long_messages;
use record_proxy::ProxyEnd;
use std::alloc::Global;
use text_base::OutOfMemory;

// A message's head, how many letters its body has, and how often it comes.
type Many = (&'static str, usize, u32);

// What a client and a server say.
struct Case {
    asked: Many,
    said: Many,
}

// What is seen of such a connection, where a read brings at most `most` bytes.
fn seen_where(alloc: Global, case: &Case, most: usize) -> Result<Seen, OutOfMemory>
    requires { 1 ≤ most }
{
    let asked = long_messages(alloc, case.asked.0.as_bytes(), case.asked.1, case.asked.2)?;
    let said = long_messages(alloc, case.said.0.as_bytes(), case.said.1, case.said.2)?;
    let talk = Talk {
        asked: asked.as_slice(),
        said: said.as_slice(),
        most,
        client_fail: 0,
        server_fail: 0,
    };
    seen_of(alloc, &talk, 80)
}

static EXCHANGES: Case = Case {
    asked: (REQUEST, 0, 5_000),
    said: (RESPONSE, 0, 5_000),
};

#[test]
fn thousands_of_exchanges_are_recorded(rt: HostRuntime) {
    let seen = seen_where(rt.alloc(), &EXCHANGES, 65_536).expect(&rt, "memory");
    assert!(rt; seen.end == ProxyEnd::Closed && seen.records == 5_000);
    assert!(rt; seen.said == Some(200_000));
}

// Each read of the client brings a request of 65,535 bytes. After 1,024 of them it brings 1,024 bytes more.
static LONG_REQUESTS: Case = Case {
    asked: (
        "POST / HTTP/1.1\r\nHost: a\r\nContent-Length: 65484\r\n\r\n",
        65_484,
        1_025,
    ),
    said: ("HTTP/1.1 204 No Content\r\n\r\n", 0, 1_025),
};

#[test]
fn a_client_brings_no_more_than_its_limit(rt: HostRuntime) {
    let seen = seen_where(rt.alloc(), &LONG_REQUESTS, 65_535).expect(&rt, "memory");
    assert!(rt; seen.end == ProxyEnd::Full && seen.records == 1_024);
}

static LONG_RESPONSES: Case = Case {
    asked: (REQUEST, 0, 1_025),
    said: (
        "HTTP/1.1 200 OK\r\nContent-Length: 65495\r\n\r\n",
        65_495,
        1_025,
    ),
};

#[test]
fn a_server_brings_no_more_than_its_limit(rt: HostRuntime) {
    let seen = seen_where(rt.alloc(), &LONG_RESPONSES, 65_536).expect(&rt, "memory");
    assert!(rt; seen.end == ProxyEnd::Full && seen.records == 1_023);
}

static GREATEST: Case = Case {
    asked: (REQUEST, 0, 1),
    said: (
        "HTTP/1.1 200 OK\r\nContent-Length: 16777216\r\n\r\n",
        16_777_216,
        1,
    ),
};

static GREATER: Case = Case {
    asked: (REQUEST, 0, 1),
    said: (
        "HTTP/1.1 200 OK\r\nContent-Length: 16777217\r\n\r\n",
        16_777_217,
        1,
    ),
};

#[test]
fn a_body_of_the_greatest_length_passes(rt: HostRuntime) {
    let greatest = seen_where(rt.alloc(), &GREATEST, 65_536).expect(&rt, "memory");
    let greater = seen_where(rt.alloc(), &GREATER, 65_536).expect(&rt, "memory");
    assert!(rt; greatest.end == ProxyEnd::Closed);
    assert!(rt; greater.end == ProxyEnd::BadResponse);
}
