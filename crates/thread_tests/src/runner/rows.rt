// What a source sends first of a row.
ghost use Rattle.std.specs.Prelude.{◌≡◌};
ghost use Rattle.std.specs.Thread.{IsSync};
ghost use Rattle.packet_record.specs.declared.item.FlowEnd.TheVariants.{Open};
ghost use Rattle.packet_record.specs.Streams.{no_items};

use super::parts::send_all;
use crate::waiting::{give_way, reached};
use crate::ways::{Ways, open_ways};
use mark_channel::{Receiver, Sender};
use packet_record::{Item, Schedule, read_schedule};
use std::alloc::Global;
use std::marker::Sync;
use std::sync::Wait;
use std::sync::atomic::{AtomicU64, Ordering};
use std::test::Fail;
use std::thread::{Threads, join_mut};

// Receives to the end, and counts the marks.
fn count_marks<R: Wait>(rt: &R, from: &mut Receiver, marks: &AtomicU64)
    requires { from.old.flow.end ≡ Open }
{
    for _ in rt.forever() {
        match from.recv(rt) {
            Item::Mark(_) => {
                marks.fetch_add(1, Ordering::SeqCst);
            }
            Item::Packet(_) => {}
            Item::End | Item::Broken => return,
        }
    }
    unreachable!()
}

// Receives to the end, once a mark came out of the other direction. How many did long after that.
fn receive_late<R: Wait>(rt: &R, from: &mut Receiver, marks: &AtomicU64) -> u64
    requires { from.old.flow.end ≡ Open }
{
    let some = reached(marks, 1);
    give_way();
    let count = marks.load(Ordering::SeqCst);
    for _ in rt.forever() {
        if let Item::End | Item::Broken = from.recv(rt) {
            return if some { count } else { 0 };
        }
    }
    unreachable!()
}

// Receives both directions beside each other, the one up late. How many marks came out of the one down before.
fn receive_both<R: Threads + Wait + Sync>(rt: &R, up: &mut Receiver, down: &mut Receiver) -> u64
    requires { (up.old.flow.end ≡ Open) × (down.old.flow.end ≡ Open) }
{
    let marks = AtomicU64::new(0);
    let ((), early) = join_mut(
        rt,
        &mut ||
            requires { (down.now.flow.end ≡ Open) × IsSync R.row }
        { count_marks(rt, down, &marks) },
        &mut || -> u64
            requires { (up.now.flow.end ≡ Open) × IsSync R.row }
        { receive_late(rt, up, &marks) },
    );
    early
}

// Sends a schedule beside that.
fn send_beside<R: Threads + Wait + Sync>(rt: &R, schedule: &Schedule, ways: &mut Ways) -> u64
    requires empty { (ways.old.up.flow ≡ no_items) × (ways.old.down.flow ≡ no_items) }
    requires horizon { (ways.old.up.horizon ≡ 10) × (ways.old.down.horizon ≡ 10) }
    requires ends { (ways.old.up_end.flow.end ≡ Open) × (ways.old.down_end.flow.end ≡ Open) }
{
    let Ways {
        up,
        up_end,
        down,
        down_end,
    } = ways;
    let (early, ()) = join_mut(
        rt,
        &mut || -> u64
            requires { (up_end.now.flow.end ≡ Open) × (down_end.now.flow.end ≡ Open) × IsSync R.row }
        { receive_both(rt, up_end, down_end) },
        &mut ||
            requires { (up.now.flow ≡ no_items) × (down.now.flow ≡ no_items) × (up.now.horizon ≡ 10)
                × (down.now.horizon ≡ 10) × IsSync R.row }
        { send_all(rt, schedule, 10, up, down) },
    );
    early
}

// Both channels hold one item. While nothing is received of the one up, its second packet finds no room; so just the
// first row's mark is sent down.
#[test]
fn a_row_sends_its_packet_before_its_mark(rt: HostRuntime) -> Result<(), Fail> {
    let alloc = rt.alloc();
    let schedule = read_schedule(alloc, b"1 up 100\n2 up 100\n3 up 100\n")?;
    let mut ways = open_ways(alloc, 1, 10)?;
    assert!(rt; send_beside(&rt, &schedule, &mut ways) == 1);
    Ok(())
}
