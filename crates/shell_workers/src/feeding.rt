// The feeder of a direction of a shell: from the channel before it to the shell's state.
ghost use Rattle.std.specs.Prelude.{◌≡◌, ◌≢◌, true};
ghost use Rattle.packet_record.specs.declared.item.FlowEnd.TheVariants.{Open, Ended as IsOver, Broken as IsCut};
ghost use Rattle.packet_record.specs.Streams.{no_items};
ghost use Rattle.mark_channel.specs.Ends.{IsSameEnd};
ghost use Rattle.shell_cell.specs.Seats.{IsSameSeat};
ghost use Rattle.shell_workers.specs.Ends.{IfEnded, IfBroken, IfWants};

use crate::ends::WorkEnd;
use mark_channel::Receiver;
use mm_base::{Pace, Role};
use packet_record::Item;
use shell_cell::{FeedSeat, ShellCell};
use std::sync::Wait;

/// Feeds what it receives to the state, until the end, `Item::Broken` or out of memory. The pace is asked before each
/// feed, with the count of feeds from 1. A state that the drain broke off takes nothing more, but the rest is received.
///
/// Returns `Ended` after the end, and `Broken` after `Item::Broken`. Out of memory it breaks the state off and returns
/// `OutOfMemory`, once it has received the rest: a sender whose receiver is gone would wait forever.
pub fn feeder<Q: Pace, R: Wait>(
    rt: &R,
    cell: &ShellCell,
    seat: &mut FeedSeat,
    from: &mut Receiver,
    role: Role,
    pace: &Q,
) -> WorkEnd
    requires own { seat.old.cell ≡ cell.now }
    requires empty { (seat.old.flow ≡ no_items) × (from.old.flow ≡ no_items) }
    requires horizon { from.old.horizon ≡ seat.old.horizon }
    ensures over { from.new.flow.end ≢ Open }
    ensures fed { seat.new.flow.end ≡ IsOver → seat.new.flow ≡ from.new.flow }
    ensures ended { IfEnded result (from.new.flow.end ≡ IsOver) }
    ensures broken { IfBroken result ((from.new.flow.end ≡ IsCut) × (seat.new.broken ≡ true)) }
    ensures wants { IfWants result (seat.new.broken ≡ true) }
    ensures same { IsSameEnd from.old from.new × IsSameSeat seat.old seat.new }
{
    let mut count = 0u64;
    for _ in rt.forever() {
        let item = from.recv(rt);
        count = count.saturating_add(1);
        pace.turn(rt, role, count);
        if cell.feed(rt, seat, item).is_err() {
            break_fed(rt, cell, seat);
            if let Item::Packet(_) | Item::Mark(_) = item {
                receive_rest(rt, from);
            }
            return WorkEnd::OutOfMemory;
        }
        match item {
            Item::End => return WorkEnd::Ended,
            Item::Broken => return WorkEnd::Broken,
            Item::Packet(_) | Item::Mark(_) => {}
        }
    }
    unreachable!()
}

// Breaks the state off from the feeder's side. Such a feed is never refused.
fn break_fed<R: Wait>(rt: &R, cell: &ShellCell, seat: &mut FeedSeat)
    requires own { seat.old.cell ≡ cell.now }
    requires open { seat.old.flow.end ≡ Open }
    ensures over { seat.new.flow.end ≢ IsOver }
    ensures broken { seat.new.broken ≡ true }
    ensures same { IsSameSeat seat.old seat.new }
{
    let _ = cell.feed(rt, seat, Item::Broken);
}

// Receives until the end or `Item::Broken`, and drops what it receives.
fn receive_rest<R: Wait>(rt: &R, from: &mut Receiver)
    requires { from.old.flow.end ≡ Open }
    ensures over { from.new.flow.end ≢ Open }
    ensures same { IsSameEnd from.old from.new }
{
    for _ in rt.forever() {
        if let Item::End | Item::Broken = from.recv(rt) {
            return;
        }
    }
    unreachable!()
}
