// A channel in one thread and between two, and the types that may cross threads.
ghost use Rattle.std.specs.Prelude.{◌≡◌, ◌≤◌};
ghost use Rattle.std.specs.Bool.{OnTrue};
ghost use Rattle.packet_record.specs.declared.item.FlowEnd.TheVariants.{Open};
ghost use Rattle.packet_record.specs.Streams.{IsUpTo, MayFollow, after, no_items};
ghost use Rattle.mark_channel.specs.Ends.{IsSameEnd};

mod begun;
mod fed;

use crate::checks::check;
use crate::packets::timed;
use crate::waiting::{give_way, reached};
use mark_channel::{Receiver, Sender, open, settle};
use packet_record::{Item, Packet, Timed};
use std::alloc::Global;
use std::process::Abort;
use std::sync::Wait;
use std::sync::atomic::{AtomicU64, Ordering};
use std::thread::{Threads, join_mut};

// An end may be sent to another thread.
fn moves<T: Send>(_end: &T) {}

// Sends an item. It says of the end only what a next send needs.
fn send_to<R: Wait>(rt: &R, sender: &mut Sender, item: Item)
    requires follows { MayFollow sender.old.flow item }
    requires within { IsUpTo sender.old.horizon item }
    ensures flow { sender.new.flow ≡ after sender.old.flow item }
    ensures same { IsSameEnd sender.old sender.new }
{
    sender.send(rt, item);
}

// Whether this item is received. False at the end.
fn receives<R: Wait>(rt: &R, receiver: &mut Receiver, wanted: Item) -> bool
    requires { receiver.old.flow.end ≡ Open }
    ensures open { OnTrue result (receiver.new.flow.end ≡ Open) }
    ensures same { IsSameEnd receiver.old receiver.new }
{
    let item = receiver.recv(rt);
    match item {
        Item::Packet(_) | Item::Mark(_) => item == wanted,
        Item::End | Item::Broken => false,
    }
}

// Whether these items are received, and then the last one.
fn receives_each<R: Wait>(rt: &R, receiver: &mut Receiver, items: &[Item], last: Item) -> bool
    requires { receiver.old.flow.end ≡ Open }
    ensures same { IsSameEnd receiver.old receiver.new }
{
    for item in items {
        if !receives(rt, receiver, *item) {
            return false;
        }
    }
    receiver.recv(rt) == last
}

const FIRST: [Item; 1] = [Item::Packet(Timed {
    moment: 0,
    packet: Packet { id: 1, size: 100 },
})];

// Whether a channel carries a packet and the end.
fn carries_packet<R: Wait + Abort>(rt: &R, alloc: Global) -> bool {
    let (mut sender, mut receiver) = open(alloc, 2, 20).expect(rt, "memory");
    moves(&sender);
    moves(&receiver);
    send_to(rt, &mut sender, Item::Packet(timed(1, 0)));
    send_to(rt, &mut sender, Item::End);
    let carried = receives_each(rt, &mut receiver, &FIRST, Item::End);
    settle(sender, receiver);
    carried
}

#[test]
fn carries_two(rt: HostRuntime) {
    check(&rt, carries_packet(&rt, rt.alloc()), "a packet and the end");
}

// Sends two marks at one moment, and a packet at it.
fn send_marks<R: Wait>(rt: &R, sender: &mut Sender)
    requires empty { sender.old.flow ≡ no_items }
    requires horizon { sender.old.horizon ≡ 20 }
    ensures same { IsSameEnd sender.old sender.new }
{
    send_to(rt, sender, Item::Mark(5));
    send_to(rt, sender, Item::Mark(5));
    send_to(rt, sender, Item::Packet(timed(1, 5)));
    send_to(rt, sender, Item::Broken);
}

const MARKS: [Item; 3] = [
    Item::Mark(5),
    Item::Mark(5),
    Item::Packet(Timed {
        moment: 5,
        packet: Packet { id: 1, size: 100 },
    }),
];

// Whether a channel carries both marks and the packet.
fn carries_marks<R: Wait + Abort>(rt: &R, alloc: Global) -> bool {
    let (mut sender, mut receiver) = open(alloc, 4, 20).expect(rt, "memory");
    send_marks(rt, &mut sender);
    let carried = receives_each(rt, &mut receiver, &MARKS, Item::Broken);
    settle(sender, receiver);
    carried
}

// A mark at the moment of the one before is an item of its own.
#[test]
fn carries_each_mark_once(rt: HostRuntime) {
    check(
        &rt,
        carries_marks(&rt, rt.alloc()),
        "two marks and a packet",
    );
}

// Sends packets at the moments below `count`, and then the end. `begun` counts the sends that have begun.
fn send_all<R: Wait>(rt: &R, sender: &mut Sender, count: u32, begun: &AtomicU64)
    requires empty { sender.old.flow ≡ no_items }
    requires within { count ≤ sender.old.horizon }
    ensures same { IsSameEnd sender.old sender.new }
{
    for number in 0..count {
        begun.fetch_add(1, Ordering::SeqCst);
        send_to(rt, sender, Item::Packet(timed(number, number as u64)));
    }
    send_to(rt, sender, Item::End);
}

// Receives until the end, and counts the packets that come in their order.
fn receive_all<R: Wait>(rt: &R, receiver: &mut Receiver) -> u32
    requires open { receiver.old.flow.end ≡ Open }
    ensures same { IsSameEnd receiver.old receiver.new }
{
    let mut count = 0u32;
    for _ in rt.forever() {
        match receiver.recv(rt) {
            Item::Packet(t) => {
                if t.packet.id == count {
                    count = count.saturating_add(1);
                }
            }
            Item::Mark(_) => {}
            Item::End | Item::Broken => return count,
        }
    }
    unreachable!()
}

// Waits until `goal` sends have begun, gives way, and looks how many have begun. 0 where fewer did.
fn count_held(begun: &AtomicU64, goal: u64) -> u64 {
    let full = reached(begun, goal);
    give_way();
    if full {
        begun.load(Ordering::SeqCst)
    } else {
        0
    }
}

// Waits until `goal` sends have begun, and then receives all.
fn receive_late<R: Wait>(
    rt: &R,
    receiver: &mut Receiver,
    begun: &AtomicU64,
    goal: u64,
) -> (u64, u32)
    requires open { receiver.old.flow.end ≡ Open }
    ensures same { IsSameEnd receiver.old receiver.new }
{
    let held = count_held(begun, goal);
    (held, receive_all(rt, receiver))
}

fn meet<R: Threads + Wait + Sync>(
    rt: &R,
    sender: &mut Sender,
    receiver: &mut Receiver,
    goal: u64,
) -> (u64, u32)
    requires empty { sender.old.flow ≡ no_items }
    requires within { 1000 ≤ sender.old.horizon }
    requires open { receiver.old.flow.end ≡ Open }
    ensures sender { IsSameEnd sender.old sender.new }
    ensures receiver { IsSameEnd receiver.old receiver.new }
{
    let begun = AtomicU64::new(0);
    let (_, seen) = join_mut(
        rt,
        &mut || send_all(rt, sender, 1000, &begun),
        &mut || receive_late(rt, receiver, &begun, goal),
    );
    seen
}

// Sends a thousand packets: how many sends begin while nothing is received, and how many packets come then.
fn hold<R: Threads + Wait + Sync + Abort>(rt: &R, alloc: Global, capacity: u32) -> (u64, u32)
    requires some { 1 ≤ capacity }
    requires most { capacity ≤ 64 }
{
    let (mut sender, mut receiver) = open(alloc, capacity, 1000).expect(rt, "memory");
    let seen = meet(rt, &mut sender, &mut receiver, u64::from(capacity) + 1);
    settle(sender, receiver);
    seen
}

// As many items as the channel holds are sent while nothing is received, and one send more waits.
#[test]
fn holds_its_capacity_and_one_waits(rt: HostRuntime) {
    check(
        &rt,
        hold(&rt, rt.alloc(), 2) == (3, 1000),
        "room for two items",
    );
    check(
        &rt,
        hold(&rt, rt.alloc(), 64) == (65, 1000),
        "room for 64 items",
    );
}
