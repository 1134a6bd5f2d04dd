// Requests that come in any pieces, and many of one reader.
ghost use Rattle.std.specs.Prelude.{◌≤◌, length};

use super::{answer_to, fault_number, feed_copies, request_answer};
use http_frame::{RequestFrames, Step};
use std::alloc::Global;

/// The first answer but More to a piece and a rest in pieces of `size` bytes, or else 0.
fn first_answer(frames: &mut RequestFrames, first: &[u8], rest: &[u8], size: usize) -> u64
    requires { 1 ≤ size }
{
    let early = answer_to(frames, first);
    if early > 0 {
        return early;
    }
    for piece in rest.chunks(size) {
        let answer = answer_to(frames, piece);
        if answer > 0 {
            return answer;
        }
    }
    0
}

/// The same of a request that is cut at a place, and from there on into pieces of `size` bytes.
fn answer_cut(alloc: Global, text: &[u8], cut: usize, size: usize) -> u64
    requires within { cut ≤ length text.now }
    requires some { 1 ≤ size }
{
    let mut frames = RequestFrames::new(alloc);
    let (first, rest) = text.split_at(cut);
    first_answer(&mut frames, first, rest, size)
}

/// Whether that is the answer to a request cut at each place, whole and byte by byte.
fn is_request_answer(alloc: Global, text: &[u8], expected: u64) -> bool {
    for cut in 0..text.len() {
        if answer_cut(alloc, text, cut, text.len()) != expected {
            return false;
        }
    }
    answer_cut(alloc, text, text.len(), 1) == expected
        && answer_cut(alloc, text, text.len().min(1), 1) == expected
}

static REQUESTS: [(&str, u64); 12] = [
    (
        "GET / HTTP/1.1\r\nHost: 127.0.0.1:8080\r\nUser-Agent: curl/8.5.0\r\nAccept: */*\r\n\r\n",
        1077,
    ),
    (
        "POST / HTTP/1.1\r\nContent-Length: 2\r\nContent-Length: 2\r\n\r\nhi",
        1059,
    ),
    (
        "POST / HTTP/1.1\r\nContent-Length: 2\r\nContent-Length: 3\r\n\r\n",
        4,
    ),
    (
        "POST / HTTP/1.1\r\nTransfer-Encoding: chunked\r\nContent-Length: 2\r\n\r\n",
        5,
    ),
    ("CONNECT a:1 HTTP/1.1\r\n\r\n", 8),
    ("POST / HTTP/1.1\r\nContent-Length: 16777217\r\n\r\n", 7),
    (
        "POST / HTTP/1.1\r\nTransfer-Encoding: chunked\r\n\r\n1000001\r\n",
        7,
    ),
    (
        "POST / HTTP/1.1\r\nTransfer-Encoding: chunked\r\n\r\n5x\r\n",
        6,
    ),
    (
        "POST / HTTP/1.1\r\nTransfer-Encoding: Chunked\r\n\r\n2;a\r\nhi\r\n0\r\nA: b\r\n\r\n",
        1067,
    ),
    (
        "POST / HTTP/1.1\r\nTransfer-Encoding: chunked\r\n\r\n2\r\nhi\r",
        0,
    ),
    ("POST / HTTP/1.1\r\nTransfer-Encoding: gzip\r\n\r\n", 5),
    ("GET /\r\n", 1),
];

#[test]
fn requests_in_any_pieces(rt: HostRuntime) {
    for row in &REQUESTS {
        assert!(rt;
            is_request_answer(rt.alloc(), row.0.as_bytes(), row.1),
            "at {}",
            row.0
        );
    }
}

/// 1000 and the bytes of the request line of a head that is given alone; 0 for More; the number of an error.
fn head_answer(frames: &mut RequestFrames) -> u64 {
    match frames.next_head() {
        Ok(Step::Message(head)) => 1000u64.saturating_add(head.line.len() as u64),
        Ok(Step::More) => 0,
        Err(fault) => fault_number(fault),
    }
}

const POST: &[u8] = b"POST /b HTTP/1.1\r\nContent-Length: 2\r\n\r\nhi";

/// Whether a request and a head alone are taken, ten times each.
fn gives_ten_of_both(frames: &mut RequestFrames) -> bool {
    for _ in 0..10 {
        if request_answer(frames) != 1041 || head_answer(frames) != 1016 {
            return false;
        }
    }
    true
}

/// Whether a reader gives the twenty requests that it is fed, and then refuses a bad line each time.
fn gives_twenty(frames: &mut RequestFrames) -> bool {
    feed_copies(frames, POST, 20)
        && gives_ten_of_both(frames)
        && head_answer(frames) == 0
        && feed_copies(frames, b"GET /\r\n", 1)
        && head_answer(frames) == 1
        && head_answer(frames) == 1
}

/// Whether a new reader gives twenty.
fn reader_gives_twenty(alloc: Global) -> bool {
    let mut frames = RequestFrames::new(alloc);
    gives_twenty(&mut frames)
}

#[test]
fn twenty_requests_of_one_reader(rt: HostRuntime) {
    assert!(rt; reader_gives_twenty(rt.alloc()));
}
