// Messages cut out of streams, and at the front of bytes, by the answers of their readers.
mod first;
mod long;
mod requests;
mod responses;

use http_frame::{FrameFault, Request, RequestFrames, Step, first_request};
use std::alloc::Global;

/// The answer where memory is wanting.
const NO_MEMORY: u64 = 99;

/// The number of an error.
fn fault_number(fault: FrameFault) -> u64 {
    match fault {
        FrameFault::OutOfMemory => NO_MEMORY,
        FrameFault::Frame(error) => u64::from(error.number()),
    }
}

/// The next request. No test needs what the contract of `next` says of it, and so this has none.
fn next_request(frames: &mut RequestFrames) -> Result<Step<Request>, FrameFault> {
    frames.next()
}

/// 1000 and the bytes of a message; 0 for More; the number of an error.
fn request_answer(frames: &mut RequestFrames) -> u64 {
    match next_request(frames) {
        Ok(Step::Message(message)) => 1000u64.saturating_add(message.bytes.len() as u64),
        Ok(Step::More) => 0,
        Err(fault) => fault_number(fault),
    }
}

/// The answer after a piece more.
fn answer_to(frames: &mut RequestFrames, piece: &[u8]) -> u64 {
    match frames.feed(piece) {
        Ok(()) => request_answer(frames),
        Err(_) => NO_MEMORY,
    }
}

/// Feeds `count` copies of a piece, and returns whether there was memory for them.
fn feed_copies(frames: &mut RequestFrames, piece: &[u8], count: u32) -> bool {
    for _ in 0..count {
        if frames.feed(piece).is_err() {
            return false;
        }
    }
    true
}

/// The request at the front. `None`: no request, or no memory.
pub(crate) fn request_in(alloc: Global, text: &[u8]) -> Option<Request> {
    match first_request(alloc, text) {
        Ok(request) => request,
        Err(_) => None,
    }
}
