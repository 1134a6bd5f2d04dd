// The drain of a direction of a shell: from the shell's state to the channel behind it.
ghost use Rattle.std.specs.Prelude.{◌≡◌, ◌≢◌, ◌≤◌, true};
ghost use Rattle.packet_record.specs.declared.item.FlowEnd.TheVariants.{Open, Broken as IsCut};
ghost use Rattle.packet_record.specs.Streams.{no_items};
ghost use Rattle.mark_channel.specs.Ends.{IsSameEnd};
ghost use Rattle.shell_cell.specs.Seats.{IsSameSeat};
ghost use Rattle.shell_workers.specs.Ends.{IfEnded, IfBroken, IfWants, IsPassedOn};

use crate::ends::WorkEnd;
use mark_channel::Sender;
use mm_base::{Pace, Role};
use packet_record::Item;
use shell_cell::{DrainSeat, ShellCell};
use shell_state::Taken;
use std::sync::Wait;

/// Takes from the state and sends what it takes, until the end, `Item::Broken` or out of memory. Each take burns at
/// most `most` opportunities; `most` is at least 1. If there is nothing to take yet, it waits for a feed. The pace is
/// asked before each take, with the count of takes from 1.
///
/// Returns `Ended` after the end, and `Broken` after `Item::Broken`. Out of memory it breaks the state off, sends
/// `Item::Broken` and returns `OutOfMemory`.
pub fn drain<Q: Pace, R: Wait>(
    rt: &R,
    cell: &ShellCell,
    seat: &mut DrainSeat,
    to: &mut Sender,
    role: Role,
    most: u32,
    pace: &Q,
) -> WorkEnd
    requires own { seat.old.cell ≡ cell.now }
    requires empty { (seat.old.flow ≡ no_items) × (to.old.flow ≡ no_items) }
    requires horizon { to.old.horizon ≡ seat.old.horizon }
    requires most { 1 ≤ most }
    ensures over { to.new.flow.end ≢ Open }
    ensures ended { IfEnded result (IsPassedOn seat.new.flow to.new.flow) }
    ensures broken { IfBroken result ((seat.new.flow.end ≡ IsCut) × (to.new.flow ≡ seat.new.flow)) }
    ensures wants { IfWants result ((seat.new.broken ≡ true) × (to.new.flow.end ≡ IsCut)) }
    ensures same { IsSameEnd to.old to.new × IsSameSeat seat.old seat.new }
{
    let mut count = 0u64;
    for _ in rt.forever() {
        count = count.saturating_add(1);
        pace.turn(rt, role, count);
        let Ok(taken) = cell.take(rt, seat, most) else {
            cell.break_off(rt, seat);
            to.send(rt, Item::Broken);
            return WorkEnd::OutOfMemory;
        };
        match taken {
            Taken::Item(item) => {
                to.send(rt, item);
                match item {
                    Item::End => return WorkEnd::Ended,
                    Item::Broken => return WorkEnd::Broken,
                    Item::Packet(_) | Item::Mark(_) => {}
                }
            }
            Taken::Again { .. } => {}
            Taken::NotYet { .. } => cell.wait(rt, seat),
        }
    }
    unreachable!()
}
