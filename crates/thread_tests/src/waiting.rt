// Waiting for a number that other threads raise.
use std::sync::atomic::{AtomicU64, Ordering};
use std::thread::yield_now;

// How often one who waits gives way before the test gives up.
const LIMIT: u32 = 10_000_000;

// Waits until a number is reached. False at the limit.
pub fn reached(number: &AtomicU64, goal: u64) -> bool {
    for _ in 0..LIMIT {
        if number.load(Ordering::SeqCst) >= goal {
            return true;
        }
        yield_now();
    }
    false
}

// Whether a number is this.
pub fn is_at(number: &AtomicU64, wanted: u64) -> bool {
    number.load(Ordering::SeqCst) == wanted
}

// Gives way for long enough that a thread that may go on does.
pub fn give_way() {
    for _ in 0..10_000 {
        yield_now();
    }
}
