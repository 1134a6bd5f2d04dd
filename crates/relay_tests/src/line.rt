// A line with ample memory.
ghost use Rattle.std.specs.Prelude.{◌≡◌, IfOk};
ghost use Rattle.packet_record.specs.declared.item.FlowEnd.TheVariants.{Open};

use crate::nests::nest_of;
use live_relay::Line;
use nest_spec::Nest;
use packet_record::{Direction, Item, Packet, Timed};
use std::alloc::Global;
use std::process::Abort;
use text_base::OutOfMemory;

// Whether the packet has left at this moment, and no other.
fn left_at(line: &Line, moment: u64) -> bool {
    match line.departed() {
        [packet] => packet.moment == moment && packet.packet.id == 1 && packet.packet.size == 100,
        _ => false,
    }
}

// A line of a nest, to which a packet came at 1, and then a mark at 4.
fn fed_line(rt: &impl Abort, alloc: Global, nest: &Nest) -> Result<Line, OutOfMemory>
    requires { nest.now.horizon ≡ 20 }
    ensures { IfOk result (λ line. line.fed.end ≡ Open) }
{
    let line = Line::new(alloc, nest, Direction::Down)?;
    assert!(rt; line.departed().is_empty());
    let packet = Packet { id: 1, size: 100 };
    let line = line.feed(Item::Packet(Timed { moment: 1, packet }))?;
    line.feed(Item::Mark(4))
}

// A packet down a delay of 2 ms and a link. Down, the first shell comes first: the packet comes to the link at 3.
fn pass(rt: &impl Abort, alloc: Global) -> Result<(), OutOfMemory> {
    let nest = nest_of(rt, alloc, "mm-delay 2 mm-link t t", 20);
    assert!(rt; nest.horizon() == 20);
    let line = fed_line(rt, alloc, &nest)?;
    assert!(rt; left_at(&line, 4));
    let line = line.feed(Item::End)?;
    assert!(rt; left_at(&line, 4));
    assert!(rt; line.states().len() == 2);
    Ok(())
}

#[test]
fn a_packet_passes_a_delay_and_a_link(rt: HostRuntime) {
    pass(&rt, rt.alloc()).expect(&rt, "memory");
}

// Whether a shell of a line, counted from 0, has lost the packet and no other.
fn has_lost(line: &Line, shell: usize) -> bool {
    match line.lost(shell) {
        [packet] => packet.moment == 3 && packet.packet.id == 1,
        _ => false,
    }
}

// A packet down a delay of 2 ms and a loss of all, to which it comes at 3.
fn lose(rt: &impl Abort, alloc: Global) -> Result<(), OutOfMemory> {
    let nest = nest_of(rt, alloc, "mm-delay 2 mm-loss downlink 1", 20);
    assert!(rt; nest.horizon() == 20);
    let line = fed_line(rt, alloc, &nest)?;
    assert!(rt; line.departed().is_empty());
    assert!(rt; has_lost(&line, 1));
    assert!(rt; line.lost(0).is_empty() && line.lost(2).is_empty());
    Ok(())
}

#[test]
fn a_packet_is_lost_in_one_shell(rt: HostRuntime) {
    lose(&rt, rt.alloc()).expect(&rt, "memory");
}
