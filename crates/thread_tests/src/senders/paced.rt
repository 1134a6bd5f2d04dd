// Senders whose threads are held back until others have come so far.
use super::{Call, Fed, are_numbers, count_packets, feed_all, senders_from};
use crate::checks::check;
use crate::waiting::{is_at, reached};
use mm_base::{Pace, Role};
use packet_record::Item;
use std::alloc::Global;
use std::marker::Sync;
use std::process::Abort;
use std::sync::Wait;
use std::sync::atomic::{AtomicU64, Ordering};
use std::thread::Threads;

// Feeds what senders of these texts send up to 5, at this pace: what came out. The end came last of what went down.
fn feed_texts_at<Q: Pace + Sync, R: Threads + Wait + Sync + Abort>(
    rt: &R,
    alloc: Global,
    texts: &[&[u8]],
    pace: &Q,
) -> Fed {
    let mut senders = senders_from(rt, alloc, texts);
    let fed = feed_all(rt, alloc, &mut senders, 5, Call::FeedAt, pace);
    check(
        rt,
        fed.downs.last() == Some(&Item::End),
        "the end of what goes down",
    );
    fed
}

// The first turn of each sender waits until two have begun.
#[derive(Drop)]
struct Together {
    begun: AtomicU64,
    limits: AtomicU64,
}

impl Pace for Together {
    fn turn<R: Wait>(&self, _rt: &R, role: Role, count: u64) {
        if role != Role::Source || count != 1 {
            return;
        }
        self.begun.fetch_add(1, Ordering::SeqCst);
        if !reached(&self.begun, 2) {
            self.limits.fetch_add(1, Ordering::SeqCst);
        }
    }
}

static TWO: [&[u8]; 2] = [b"0 up 100\n", b"0 up 200\n"];

// Whether both are there before one goes on.
fn run_together<R: Threads + Wait + Sync + Abort>(rt: &R, alloc: Global) -> bool {
    let pace = Together {
        begun: AtomicU64::new(0),
        limits: AtomicU64::new(0),
    };
    let fed = feed_texts_at(rt, alloc, &TWO, &pace);
    are_numbers(&fed.ups, &[1, 2]) && is_at(&pace.begun, 2) && is_at(&pace.limits, 0)
}

#[test]
fn two_senders_run_beside_each_other(rt: HostRuntime) {
    check(&rt, run_together(&rt, rt.alloc()), "two senders");
}

// No sender comes to its third row before an item has come out of the merge.
#[derive(Drop)]
struct Soon {
    received: AtomicU64,
    limits: AtomicU64,
}

impl Pace for Soon {
    fn turn<R: Wait>(&self, _rt: &R, role: Role, count: u64) {
        match role {
            Role::Collector { up: true } => self.received.store(count, Ordering::SeqCst),
            Role::Source if count == 3 && !reached(&self.received, 1) => {
                self.limits.fetch_add(1, Ordering::SeqCst);
            }
            _ => {}
        }
    }
}

const FOUR_ROWS: &[u8] = b"1 up 100\n1 up 100\n1 up 100\n1 up 100\n";

static TWO_OF_FOUR: [&[u8]; 2] = [FOUR_ROWS, FOUR_ROWS];

// Whether packets come out while both senders are held.
fn give_soon<R: Threads + Wait + Sync + Abort>(rt: &R, alloc: Global) -> bool {
    let pace = Soon {
        received: AtomicU64::new(0),
        limits: AtomicU64::new(0),
    };
    let fed = feed_texts_at(rt, alloc, &TWO_OF_FOUR, &pace);
    count_packets(&fed.ups) == 8 && is_at(&pace.limits, 0)
}

// A merge takes of each sender only what it needs, and gives it on while both go on.
#[test]
fn packets_are_given_before_a_sender_has_ended(rt: HostRuntime) {
    check(&rt, give_soon(&rt, rt.alloc()), "eight packets");
}
