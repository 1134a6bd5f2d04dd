// The message at the front of bytes.
use super::request_in;
use http_frame::{Request, first_response};
use std::alloc::Global;
use text_base::Bytes;

// A request and four bytes more.
const ASKED: &str =
    "\r\nHEAD /a?b HTTP/1.1\nHOST: \t127.0.0.1:8080 \r\nHost: other\r\nUser-Agent: curl/8.5.0\r\n\
        Connection: keep-alive ,\t Close\r\n\r\nrest";

const LINE: &[u8] = b"HEAD /a?b HTTP/1.1";

/// Whether a field is there and has this value.
fn is_value(field: &Option<Bytes>, value: &str) -> bool {
    match field {
        Some(said) => said.as_slice() == value.as_bytes(),
        None => false,
    }
}

/// Whether a request is the front of `ASKED`, and says what stands there.
fn says_all(request: &Request) -> bool {
    request.bytes.len() == 117
        && request.head.line.as_slice() == LINE
        && is_value(&request.head.host, "127.0.0.1:8080")
        && is_value(&request.head.agent, "curl/8.5.0")
        && request.head.head_only
        && request.head.closes
}

/// Whether the request at the front of `ASKED` says all. `None`: no request, or no memory.
fn is_all_said(alloc: Global) -> Option<bool> {
    let request = request_in(alloc, ASKED.as_bytes())?;
    Some(says_all(&request))
}

#[test]
fn what_a_request_says(rt: HostRuntime) {
    assert!(rt; is_all_said(rt.alloc()) == Some(true));
}

/// The bytes of the request at the front, and whether it closes. `None`: no request, or no memory.
fn request_of(alloc: Global, text: &str) -> Option<(usize, bool)> {
    let request = request_in(alloc, text.as_bytes())?;
    Some((request.bytes.len(), request.head.closes))
}

// A text, and what `request_of` returns.
type Row = (&'static str, Option<(usize, bool)>);

/// Whether each row holds.
fn hold(alloc: Global, rows: &[Row]) -> bool {
    for row in rows {
        if request_of(alloc, row.0) != row.1 {
            return false;
        }
    }
    true
}

static CLOSED: [Row; 3] = [
    (
        "GET / HTTP/1.0\r\nConnection: closed\r\n\r\n",
        Some((38, true)),
    ),
    (
        "GET / HTTP/1.1\r\nConnection: closed\r\n\r\n",
        Some((38, false)),
    ),
    ("GET / HT", None),
];

#[test]
fn old_requests_close(rt: HostRuntime) {
    assert!(rt; hold(rt.alloc(), &CLOSED));
}

/// The bytes of the response at the front, where the input ends with the text. `None`: no response, or no memory.
fn response_length(alloc: Global, text: &str) -> Option<usize> {
    match first_response(alloc, false, text.as_bytes()) {
        Ok(response) => Some(response?.bytes.len()),
        Err(_) => None,
    }
}

static TWO: [Row; 1] = [(
    "GET / HTTP/1.1\r\n\r\nGET /b HTTP/1.1\r\n\r\n",
    Some((18, false)),
)];

#[test]
fn first_messages(rt: HostRuntime) {
    let alloc = rt.alloc();
    assert!(rt; hold(alloc, &TWO));
    assert!(rt; response_length(alloc, "HTTP/1.1 200 OK\r\n\r\nabc") == Some(22));
    assert!(rt; response_length(alloc, "HTTP/1.1 101 S\r\n\r\n") == None);
}
