// Heads and bodies at their limits.
use super::{NO_MEMORY, answer_to, feed_copies};
use crate::texts::{copies, long_field, long_message};
use http_frame::RequestFrames;
use std::alloc::Global;
use text_base::OutOfMemory;

const REQUEST_LINE: &[u8] = b"GET / HTTP/1.1\r\n";

const SHORT_FIELD: &[u8] = b"A: 1\r\n";

/// The answer to a request line, `count` lines after it and a piece of one more line.
fn answer_after(alloc: Global, count: u32, line: &[u8], piece: &[u8]) -> u64 {
    let mut frames = RequestFrames::new(alloc);
    if feed_copies(&mut frames, REQUEST_LINE, 1) && feed_copies(&mut frames, line, count) {
        answer_to(&mut frames, piece)
    } else {
        NO_MEMORY
    }
}

/// The answer to a request line, 65 lines of a thousand bytes and `letters` letters of one more line.
fn answer_after_long(alloc: Global, letters: u32) -> Result<u64, OutOfMemory> {
    let line = long_field(alloc, b" ")?;
    let piece = copies(alloc, b"", b"x", letters)?;
    Ok(answer_after(alloc, 65, line.as_slice(), piece.as_slice()))
}

#[test]
fn limits_of_heads(rt: HostRuntime) {
    let alloc = rt.alloc();
    assert!(rt; answer_after_long(alloc, 519) == Ok(0));
    assert!(rt; answer_after_long(alloc, 520) == Ok(2));
    assert!(rt; answer_after(alloc, 100, SHORT_FIELD, b"A: 1") == 0);
    assert!(rt; answer_after(alloc, 101, SHORT_FIELD, b"") == 3);
}

/// The first answer but More to a start and `count` times a piece, without one to the start, or else 0.
fn answer_to_copies(frames: &mut RequestFrames, start: &[u8], piece: &[u8], count: u32) -> u64 {
    if frames.feed(start).is_err() {
        return NO_MEMORY;
    }
    for _ in 0..count {
        let early = answer_to(frames, piece);
        if early > 0 {
            return early;
        }
    }
    0
}

/// The first answer but More to a start, `count` times a piece, and an end.
fn answer_in_pieces(alloc: Global, start: &[u8], piece: &[u8], count: u32, end: &[u8]) -> u64 {
    let mut frames = RequestFrames::new(alloc);
    let early = answer_to_copies(&mut frames, start, piece, count);
    if early > 0 {
        early
    } else {
        answer_to(&mut frames, end)
    }
}

/// The answer to a head of sixty lines of a thousand bytes.
fn answer_to_great_head(alloc: Global) -> Result<u64, OutOfMemory> {
    let line = long_field(alloc, b" ")?;
    Ok(answer_in_pieces(alloc, REQUEST_LINE, line.as_slice(), 60, b"\r\n"))
}

const GREATEST: &[u8] = b"POST / HTTP/1.1\r\nContent-Length: 16777216\r\n\r\n";

/// The answer to a body of the greatest length, in pieces of 4,096 bytes.
fn answer_to_great_body(alloc: Global) -> Result<u64, OutOfMemory> {
    let piece = long_message(alloc, b"", 4_096)?;
    let piece = piece.as_slice();
    Ok(answer_in_pieces(alloc, GREATEST, piece, 4_095, piece))
}

const CHUNKED: &[u8] = b"POST / HTTP/1.1\r\nTransfer-Encoding: chunked\r\n\r\n";

/// The answer to a body of as many chunks of 4,095 bytes as there may be.
fn answer_to_great_chunks(alloc: Global) -> Result<u64, OutOfMemory> {
    let mut chunk = long_message(alloc, b"fff\r\n", 4_095)?;
    chunk.append(b"\r\n")?;
    Ok(answer_in_pieces(alloc, CHUNKED, chunk.as_slice(), 4_089, b"0\r\n\r\n"))
}

#[test]
fn great_heads_and_bodies(rt: HostRuntime) {
    let alloc = rt.alloc();
    assert!(rt; answer_to_great_head(alloc) == Ok(1000 + 60018));
    assert!(rt; answer_to_great_body(alloc) == Ok(1000 + 45 + 16777216));
    assert!(rt; answer_to_great_chunks(alloc) == Ok(1000 + 47 + 4089 * 4102 + 5));
}
