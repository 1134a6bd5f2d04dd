// What was fed or taken, as a state lends it.
ghost use Rattle.std.specs.Prelude.{◌≡◌, ◌↔◌, IsTrue};
ghost use Rattle.packet_record.specs.Streams.{MayFollow};
ghost use Rattle.packet_record.specs.views.Flow.{stream_to};

use packet_record::{FlowEnd, Item, Reach, Timed};
use std::marker::Model;

/// A stream of items by the list of its packets, which a state keeps, and how far it has come. Contracts see it as a
/// `Stream`.
#[derive(Drop)]
pub struct StreamView<'a> {
    packets: &'a [Timed],
    reach: Reach,
}

impl<'a> Model for StreamView<'a> {
    ghost use Rattle.packet_record.specs.Streams.{Stream};

    ghost Value = { Stream };

    ghost use Rattle.packet_record.specs.views.Flow.{stream_to};

    ghost view = { λ v. stream_to v.reach v.packets.now };
}

impl<'a> StreamView<'a> {
    pub(crate) fn new(packets: &'a [Timed], reach: Reach) -> StreamView<'a>
        ensures { result ≡ stream_to reach packets.now }
    {
        StreamView { packets, reach }
    }

    /// The packets in order.
    pub fn packets(&self) -> &'a [Timed]
        ensures { result.now ≡ self.now.packets }
    {
        self.packets
    }

    /// The greatest moment that any item named, in milliseconds; 0 at first.
    pub fn bound(&self) -> u64
        ensures { result ≡ self.now.bound }
    {
        self.reach.bound
    }

    /// How the stream ended, if it did.
    pub fn end(&self) -> FlowEnd
        ensures { result ≡ self.now.end }
    {
        self.reach.end
    }

    /// Whether the item may come next: the stream is open, and a packet's or a mark's moment is at least the bound.
    pub fn may_follow(&self, item: &Item) -> bool
        ensures { IsTrue result ↔ MayFollow self.now item.now }
    {
        self.reach.may_follow(item)
    }
}
