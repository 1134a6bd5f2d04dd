// The receiving end of one sender in a direction.
ghost use Rattle.std.specs.Prelude.{◌≡◌, ◌↔◌, IsTrue};
ghost use Rattle.packet_record.specs.declared.item.FlowEnd.TheVariants.{Open};
ghost use Rattle.packet_record.specs.Streams.{after, no_items, IsUpTo, MayFollow};
ghost use Rattle.mark_channel.specs.Ends.{IsSameEnd};

use mark_channel::Receiver;
use packet_record::{FlowEnd, Item, Reach};
use std::sync::Wait;

// A receiving end of one sender, and how far its flow has come.
#[derive(Drop)]
pub(crate) struct Inlet {
    pub from: Receiver,
    pub reach: Reach,
    pub ghost bound: { from.flow.bound ≡ reach.bound },
    pub ghost end: { from.flow.end ≡ reach.end },
}

impl Inlet {
    // Returns an inlet from which nothing was received.
    pub fn new(from: Receiver) -> Self
        requires { from.flow ≡ no_items }
        ensures { result.from ≡ from }
    {
        Inlet {
            from,
            reach: Reach::new(),
        }
    }

    // Returns whether more may come.
    pub fn is_open(&self) -> bool
        ensures { IsTrue result ↔ (self.now.from.flow.end ≡ Open) }
    {
        self.reach.end == FlowEnd::Open
    }

    // Waits for the next item and returns it.
    pub fn receive<R: Wait>(&mut self, rt: &R) -> Item
        requires { self.old.from.flow.end ≡ Open }
        ensures follows { MayFollow self.old.from.flow result }
        ensures within { IsUpTo self.old.from.horizon result }
        ensures flow { self.new.from.flow ≡ after self.old.from.flow result }
        ensures same { IsSameEnd self.old.from self.new.from }
    {
        let item = self.from.recv(rt);
        self.reach.add(item);
        item
    }
}
