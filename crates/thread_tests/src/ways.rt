// Two channels, one for each direction.
ghost use Rattle.std.specs.Prelude.{◌≡◌, ◌≤◌, [], IfOk};
ghost use Rattle.packet_record.specs.Streams.{no_items};

use mark_channel::{Receiver, Sender, open, settle};
use std::alloc::Global;
use text_base::OutOfMemory;

// The ends of both channels.
#[derive(Drop)]
pub struct Ways {
    pub up: Sender,
    pub up_end: Receiver,
    pub down: Sender,
    pub down_end: Receiver,
}

// Two channels in which nothing was sent.
pub fn open_ways(alloc: Global, capacity: u32, horizon: u64) -> Result<Ways, OutOfMemory>
    requires some { 1 ≤ capacity }
    requires most { capacity ≤ 64 }
    ensures up { IfOk result (λ w. (w.up.flow ≡ no_items) × (w.up.items ≡ []) × (w.up.horizon ≡ horizon)
        × (w.up_end.flow ≡ no_items) × (w.up_end.horizon ≡ horizon) × (w.up.channel ≡ w.up_end.channel)) }
    ensures down { IfOk result (λ w. (w.down.flow ≡ no_items) × (w.down.items ≡ []) × (w.down.horizon ≡ horizon)
        × (w.down_end.flow ≡ no_items) × (w.down_end.horizon ≡ horizon) × (w.down.channel ≡ w.down_end.channel)) }
{
    let (up, up_end) = open(alloc, capacity, horizon)?;
    let (down, down_end) = open(alloc, capacity, horizon)?;
    Ok(Ways {
        up,
        up_end,
        down,
        down_end,
    })
}

// Settles both channels.
pub fn settle_ways(ways: Ways)
    requires { (ways.up.channel ≡ ways.up_end.channel) × (ways.down.channel ≡ ways.down_end.channel) }
{
    let Ways {
        up,
        up_end,
        down,
        down_end,
    } = ways;
    settle(up, up_end);
    settle(down, down_end);
}
