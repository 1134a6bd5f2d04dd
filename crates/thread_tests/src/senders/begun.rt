// Senders that can't all begin beside each other.
use super::senders_from;
use crate::checks::check;
use crate::ways::open_ways;
use mark_channel::{Begun, FeedEnd};
use mm_base::NoPace;
use packet_record::Item;
use std::alloc::Global;
use std::marker::Sync;
use std::process::Abort;
use std::sync::Wait;
use std::thread::Threads;

// A sender of one packet up and one down.
const TEXT: &[u8] = b"0 up 100\n3 down 100\n";

// One, two and sixteen of them.
static TEXTS: [&[&[u8]]; 3] = [&[TEXT], &[TEXT; 2], &[TEXT; 16]];

// Feeds what senders of these texts send, and waits for one thread more than there are: how it ended, and what came out
// first in both directions.
fn feed_without_one<R: Threads + Wait + Sync + Abort>(
    rt: &R,
    alloc: Global,
    texts: &[&[u8]],
) -> (FeedEnd, Item, Item) {
    let mut senders = senders_from(rt, alloc, texts);
    let mut ways = open_ways(alloc, 64, 10).expect(rt, "memory");
    let begun = Begun::with_rests(senders.threads().saturating_add(1), 5);
    let end = senders.feed_at(rt, 10, begun, &mut ways.up, &mut ways.down, &NoPace);
    (end, ways.up_end.recv(rt), ways.down_end.recv(rt))
}

const BROKEN: (FeedEnd, Item, Item) = (FeedEnd::OutOfMemory, Item::Broken, Item::Broken);

#[test]
fn senders_that_cannot_all_begin_are_broken_off(rt: HostRuntime) {
    for texts in &TEXTS {
        check(
            &rt,
            feed_without_one(&rt, rt.alloc(), texts) == BROKEN,
            "broken off",
        );
    }
}
