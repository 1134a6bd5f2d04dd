// How far a stream of items has come, without its packets.
ghost use Rattle.std.specs.Prelude.{◌≡◌, ◌↔◌, IsTrue};
ghost use Rattle.packet_record.specs.Reaches.{nowhere, reach_after, IsNext};

use crate::{FlowEnd, Item};

/// How far a stream of items has come.
#[derive(Clone, Copy, PartialEq, Eq)]
pub struct Reach {
    /// The greatest moment that any item named, in milliseconds; 0 at first.
    pub bound: u64,
    /// How the stream ended, if it did.
    pub end: FlowEnd,
}

impl Reach {
    /// An open stream without items.
    pub fn new() -> Reach
        ensures { result ≡ nowhere }
    {
        Reach {
            bound: 0,
            end: FlowEnd::Open,
        }
    }

    /// Whether the item may come next: the stream is open, and a packet's or a mark's moment is at least the bound.
    pub fn may_follow(&self, item: &Item) -> bool
        ensures { IsTrue result ↔ IsNext self.now item.now }
    {
        if self.end != FlowEnd::Open {
            return false;
        }
        match *item {
            Item::Packet(t) => self.bound <= t.moment,
            Item::Mark(m) => self.bound <= m,
            Item::End | Item::Broken => true,
        }
    }

    /// Goes on to the item that comes next.
    pub fn add(&mut self, item: Item)
        requires { IsNext self.old item }
        ensures { self.new ≡ reach_after self.old item }
    {
        match item {
            Item::Packet(t) => self.bound = t.moment,
            Item::Mark(m) => self.bound = m,
            Item::End => self.end = FlowEnd::Ended,
            Item::Broken => self.end = FlowEnd::Broken,
        }
    }
}
