// Merges of flows, and senders that feed two channels beside two threads that receive.
ghost use Rattle.std.specs.Prelude.{◌≡◌};
ghost use Rattle.std.specs.Thread.{IsSync};
ghost use Rattle.packet_record.specs.declared.item.FlowEnd.TheVariants.{Open};
ghost use Rattle.packet_record.specs.Streams.{no_items};
ghost use Rattle.mark_channel.specs.Ends.{IsSameEnd};

mod begun;
mod feeds;
mod merges;
mod paced;

use crate::checks::check;
use crate::ways::{open_ways, settle_ways};
use mark_channel::{Begun, FeedEnd, Feeds, Receiver, Sender};
use mm_base::{NoPace, Pace, Role};
use packet_record::{Item, Schedule, read_schedule};
use sender_merge::{Senders, count_rows};
use std::alloc::Global;
use std::marker::Sync;
use std::process::Abort;
use std::sync::Wait;
use std::thread::{Threads, join_mut};

// Senders of these schedules.
fn senders_of(rt: &impl Abort, alloc: Global, schedules: Vec<Schedule>) -> Senders {
    assert!(rt; !schedules.is_empty() && schedules.len() <= 16);
    let lines = count_rows(schedules.as_slice());
    assert!(rt; lines <= 1_000_000);
    Senders::new(alloc, schedules).expect(rt, "memory")
}

// The schedules that these texts are.
fn schedules_of(rt: &impl Abort, alloc: Global, texts: &[&[u8]]) -> Vec<Schedule> {
    let mut schedules = Vec::new(alloc);
    for text in texts {
        let schedule = read_schedule(alloc, text).expect(rt, "a schedule");
        schedules.push(schedule).expect(rt, "memory");
    }
    schedules
}

// Senders of them.
fn senders_from(rt: &impl Abort, alloc: Global, texts: &[&[u8]]) -> Senders {
    senders_of(rt, alloc, schedules_of(rt, alloc, texts))
}

// What came out of the two channels.
#[derive(Drop)]
struct Fed {
    pub ups: Vec<Item>,
    pub downs: Vec<Item>,
}

// Receives what goes up, or what goes down, until the end, and gathers the items. The pace is asked after each.
fn receive_all<Q: Pace, R: Wait>(
    rt: &R,
    from: &mut Receiver,
    items: &mut Vec<Item>,
    up: bool,
    pace: &Q,
)
    requires { from.old.flow.end ≡ Open }
    ensures same { IsSameEnd from.old from.new }
{
    for _ in rt.forever() {
        let item = from.recv(rt);
        let _ = items.push(item);
        pace.turn(rt, Role::Collector { up }, items.len() as u64);
        match item {
            Item::Packet(_) | Item::Mark(_) => {}
            Item::End | Item::Broken => return,
        }
    }
    unreachable!()
}

// Receives from both channels beside each other.
fn receive_both<Q: Pace + Sync, R: Threads + Wait + Sync>(
    rt: &R,
    up: &mut Receiver,
    down: &mut Receiver,
    fed: &mut Fed,
    pace: &Q,
)
    requires { (up.old.flow.end ≡ Open) × (down.old.flow.end ≡ Open) }
    ensures same { IsSameEnd up.old up.new × IsSameEnd down.old down.new }
{
    let ups = &mut fed.ups;
    let downs = &mut fed.downs;
    join_mut(
        rt,
        &mut ||
            requires { (up.now.flow.end ≡ Open) × IsSync R.row × IsSync Q.row }
            ensures same { IsSameEnd up.entry.now up.exit.now }
        { receive_all(rt, up, ups, true, pace) },
        &mut ||
            requires { (down.now.flow.end ≡ Open) × IsSync R.row × IsSync Q.row }
            ensures same { IsSameEnd down.entry.now down.exit.now }
        { receive_all(rt, down, downs, false, pace) },
    );
}

// Which call feeds: that of all who feed, or the one at a pace that each sender asks before a row.
#[derive(Clone, Copy)]
enum Call {
    Feed,
    FeedAt,
}

// Feeds two channels by this call. It says of them only what closing them needs.
fn feed_by<Q: Pace + Sync, R: Threads + Wait + Sync>(
    rt: &R,
    senders: &mut Senders,
    horizon: u64,
    up: &mut Sender,
    down: &mut Sender,
    call: Call,
    pace: &Q,
) -> FeedEnd
    requires empty { (up.old.flow ≡ no_items) × (down.old.flow ≡ no_items) }
    requires within { (up.old.horizon ≡ horizon) × (down.old.horizon ≡ horizon) }
    ensures same { IsSameEnd up.old up.new × IsSameEnd down.old down.new }
{
    match call {
        Call::Feed => senders.feed(rt, horizon, up, down),
        Call::FeedAt => {
            let begun = Begun::new(senders.threads());
            senders.feed_at(rt, horizon, begun, up, down, pace)
        }
    }
}

// Feeds two channels beside two threads that receive.
fn feed_beside<Q: Pace + Sync, R: Threads + Wait + Sync>(
    rt: &R,
    senders: &mut Senders,
    horizon: u64,
    up: &mut Sender,
    down: &mut Sender,
    up_end: &mut Receiver,
    down_end: &mut Receiver,
    fed: &mut Fed,
    call: Call,
    pace: &Q,
) -> FeedEnd
    requires empty { (up.old.flow ≡ no_items) × (down.old.flow ≡ no_items) }
    requires within { (up.old.horizon ≡ horizon) × (down.old.horizon ≡ horizon) }
    requires going { (up_end.old.flow.end ≡ Open) × (down_end.old.flow.end ≡ Open) }
    ensures up { IsSameEnd up.old up.new × IsSameEnd up_end.old up_end.new }
    ensures down { IsSameEnd down.old down.new × IsSameEnd down_end.old down_end.new }
{
    let (end, _) = join_mut(
        rt,
        &mut || -> FeedEnd
            requires { (up.now.flow ≡ no_items) × (down.now.flow ≡ no_items) × (up.now.horizon ≡ horizon)
                × (down.now.horizon ≡ horizon) × IsSync R.row × IsSync Q.row }
            ensures same { IsSameEnd up.entry.now up.exit.now × IsSameEnd down.entry.now down.exit.now }
        { feed_by(rt, senders, horizon, up, down, call, pace) },
        &mut ||
            requires { (up_end.now.flow.end ≡ Open) × (down_end.now.flow.end ≡ Open) × IsSync R.row × IsSync Q.row }
            ensures same { IsSameEnd up_end.entry.now up_end.exit.now
                × IsSameEnd down_end.entry.now down_end.exit.now }
        { receive_both(rt, up_end, down_end, fed, pace) },
    );
    end
}

// Feeds two channels up to a horizon: what came out, where all was fed.
fn feed_all<Q: Pace + Sync, R: Threads + Wait + Sync + Abort>(
    rt: &R,
    alloc: Global,
    senders: &mut Senders,
    horizon: u64,
    call: Call,
    pace: &Q,
) -> Fed {
    let mut ways = open_ways(alloc, 64, horizon).expect(rt, "memory");
    let mut fed = Fed {
        ups: Vec::new(alloc),
        downs: Vec::new(alloc),
    };
    let end = feed_beside(
        rt,
        senders,
        horizon,
        &mut ways.up,
        &mut ways.down,
        &mut ways.up_end,
        &mut ways.down_end,
        &mut fed,
        call,
        pace,
    );
    settle_ways(ways);
    check(rt, end == FeedEnd::Ended, "all fed");
    fed
}

// Whether the packets among items have these numbers.
fn are_numbers(items: &[Item], numbers: &[u32]) -> bool {
    let mut place = 0usize;
    for item in items {
        if let Item::Packet(timed) = item {
            if numbers.get(place) != Some(&timed.packet.id) {
                return false;
            }
            place = place.saturating_add(1);
        }
    }
    place == numbers.len()
}

// How many of the items are packets.
fn count_packets(items: &[Item]) -> u64 {
    let mut count = 0u64;
    for item in items {
        if let Item::Packet(_) = item {
            count = count.saturating_add(1);
        }
    }
    count
}

// Whether the packets that were fed have these numbers, up and down.
fn has_numbers(fed: &Fed, ups: &[u32], downs: &[u32]) -> bool {
    are_numbers(fed.ups.as_slice(), ups) && are_numbers(fed.downs.as_slice(), downs)
}

// What the senders of the schedules that these texts are feed up to a horizon.
fn feed_texts<R: Threads + Wait + Sync + Abort>(
    rt: &R,
    alloc: Global,
    texts: &[&[u8]],
    horizon: u64,
) -> Fed {
    let mut senders = senders_from(rt, alloc, texts);
    feed_all(rt, alloc, &mut senders, horizon, Call::Feed, &NoPace)
}
