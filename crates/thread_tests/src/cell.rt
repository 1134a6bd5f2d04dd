// The cell in one thread and between two.
ghost use Rattle.std.specs.Prelude.{◌≡◌, ◌≤◌, true, IfOk, IsOk, OnErr, OnOk};
ghost use Rattle.packet_record.specs.declared.item.FlowEnd.TheVariants.{Open};
ghost use Rattle.packet_record.specs.Streams.{IsUpTo, no_items};
ghost use Rattle.shell_cell.specs.Seats.{Fed, FindsBroken, IsSameSeat, MayFeedAt, Took};

mod alone;
mod beside;

use packet_queue::{QueueKind, QueueSpec};
use packet_record::Item;
use shell_cell::{DrainSeat, FeedSeat, ShellCell, open};
use shell_state::{DirSpec, ShellState, Taken};
use std::alloc::Global;
use std::process::Abort;
use std::sync::Wait;
use text_base::OutOfMemory;
use trace_reader::read_trace;

// A link with the trace 5, 5, 9 and no limit on its queue.
#[tactic(auto, unfolding(shell_state::specs::Shells::opportunities))]
fn link(rt: &impl Abort, alloc: Global) -> ShellState
    ensures { (result.fed ≡ no_items) × (result.taken ≡ no_items) × (result.horizon ≡ 20) }
{
    let trace = read_trace(alloc, b"5\n5\n9\n").expect(rt, "a trace");
    assert!(rt; trace.count_to(20, false) <= 16_000_000);
    let queue = QueueSpec {
        kind: QueueKind::Infinite,
        packets: None,
        bytes: None,
    };
    let spec = DirSpec::Link {
        trace,
        once: false,
        queue,
    };
    ShellState::new(alloc, spec, 20).expect(rt, "memory")
}

// A delay of one millisecond.
#[tactic(auto, unfolding(shell_state::specs::Shells::opportunities))]
fn delay(rt: &impl Abort, alloc: Global) -> ShellState
    ensures { (result.fed ≡ no_items) × (result.taken ≡ no_items) × (result.horizon ≡ 2000) }
{
    ShellState::new(alloc, DirSpec::Delay { ms: 1 }, 2000).expect(rt, "memory")
}

// A cell, with its seats.
#[derive(Drop)]
struct Seated {
    cell: ShellCell,
    feed: FeedSeat,
    drain: DrainSeat,
}

// A cell of a new state.
fn seat(rt: &impl Abort, alloc: Global, state: ShellState) -> Seated
    requires { (state.fed ≡ no_items) × (state.taken ≡ no_items) }
    ensures cells { (result.feed.cell ≡ result.cell) × (result.drain.cell ≡ result.cell) }
    ensures flows { (result.feed.flow ≡ no_items) × (result.drain.flow ≡ no_items) }
    ensures horizon { result.feed.horizon ≡ state.horizon }
{
    let (cell, feed, drain) = open(alloc, state).expect(rt, "memory");
    Seated { cell, feed, drain }
}

// Feeds the cell. It says of the seat only what a next feed needs.
fn feed_to<R: Wait>(
    rt: &R,
    cell: &ShellCell,
    seat: &mut FeedSeat,
    item: Item,
) -> Result<(), OutOfMemory>
    requires own { seat.old.cell ≡ cell.now }
    requires follows { MayFeedAt seat.old item }
    requires within { IsUpTo seat.old.horizon item }
    ensures fed { OnOk result (Fed seat.old item seat.new) }
    ensures broken { seat.old.broken ≡ true → IsOk result × FindsBroken seat.old seat.new }
    ensures err { OnErr result (seat.new ≡ seat.old) }
    ensures same { IsSameSeat seat.old seat.new }
{
    cell.feed(rt, seat, item)
}

// Takes from the cell. It says of the seat only what a next take needs.
fn take_from<R: Wait>(
    rt: &R,
    cell: &ShellCell,
    seat: &mut DrainSeat,
    most: u32,
) -> Result<Taken, OutOfMemory>
    requires own { seat.old.cell ≡ cell.now }
    requires most { 1 ≤ most }
    requires open { seat.old.flow.end ≡ Open }
    ensures took { IfOk result (λ answer. Took seat.old answer seat.new) }
    ensures same { IsSameSeat seat.old seat.new }
{
    cell.take(rt, seat, most)
}

// The state that a cell leaves. It says nothing of it, so that a test has only what it looks at.
fn close(seated: Seated) -> ShellState
    requires { (seated.feed.cell ≡ seated.cell) × (seated.drain.cell ≡ seated.cell) }
{
    let Seated { cell, feed, drain } = seated;
    cell.close(feed, drain)
}
