// The collector of a direction: it receives what has passed all shells.
ghost use Rattle.std.specs.Prelude.{◌≡◌, ◌≢◌};
ghost use Rattle.packet_record.specs.declared.item.FlowEnd.TheVariants.{Open, Ended as IsOver, Broken as IsCut};
ghost use Rattle.packet_record.specs.Streams.{no_items};
ghost use Rattle.mark_channel.specs.Ends.{IsSameEnd};
ghost use Rattle.shell_workers.specs.Ends.{IfEnded, IfBroken, IfWants};

use crate::ends::WorkEnd;
use mark_channel::Receiver;
use mm_base::{Pace, Role};
use packet_record::Item;
use std::sync::Wait;

/// Receives until the end or `Item::Broken`. The pace is asked after each packet, with the count of packets from 1. It
/// keeps nothing, since the states of the shells have all that departed, and takes no memory: it never returns
/// `OutOfMemory`.
pub fn collector<Q: Pace, R: Wait>(rt: &R, from: &mut Receiver, role: Role, pace: &Q) -> WorkEnd
    requires empty { from.old.flow ≡ no_items }
    ensures over { from.new.flow.end ≢ Open }
    ensures ended { IfEnded result (from.new.flow.end ≡ IsOver) }
    ensures broken { IfBroken result (from.new.flow.end ≡ IsCut) }
    ensures never { IfWants result ⊥ }
    ensures same { IsSameEnd from.old from.new }
{
    let mut count = 0u64;
    for _ in rt.forever() {
        match from.recv(rt) {
            Item::Packet(_) => {
                count = count.saturating_add(1);
                pace.turn(rt, role, count);
            }
            Item::Mark(_) => {}
            Item::End => return WorkEnd::Ended,
            Item::Broken => return WorkEnd::Broken,
        }
    }
    unreachable!()
}
