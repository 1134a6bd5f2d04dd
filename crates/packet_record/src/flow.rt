// What a stream of items was, kept with its packets.
ghost use Rattle.std.specs.Prelude.{◌≡◌, ◌≤◌, ◌↔◌, max, IsTrue, IsOk, OnOk, OnErr};
ghost use Rattle.packet_record.specs.Streams.{no_items, after, MayFollow};
ghost use Rattle.packet_record.specs.Takes.{spare_after, NeedsRoom, HasRoomFor};

use crate::{FlowEnd, Item, Reach, Timed};
use std::alloc::Global;
use std::marker::Model;
use text_base::OutOfMemory;

/// What a stream of items was: its packets in order, the greatest moment that any item named (0 at first), and how it
/// ended. Contracts see these three as a `Stream`, and beside it a number `spare`: as many more packets take no memory.
#[derive(Drop)]
pub struct Flow {
    packets: Vec<Timed>,
    reach: Reach,
    spare: usize,
}

impl Model for Flow {
    ghost use Rattle.packet_record.specs.Flows.{FlowView};

    ghost Value = { FlowView };

    ghost use Rattle.packet_record.specs.views.Flow.{flow_view};
    ghost use Rattle.packet_record.specs.inside.Views.{HasRoom};

    ghost view = { flow_view };

    ghost invariant = { HasRoom };
}

impl Flow {
    /// An open flow without items and without spare room.
    pub fn new(alloc: Global) -> Flow
        ensures { (result.stream ≡ no_items) × (result.spare ≡ 0) }
    {
        Flow {
            packets: Vec::new(alloc),
            reach: Reach::new(),
            spare: 0,
        }
    }

    /// The packets in order.
    pub fn packets(&self) -> &[Timed]
        ensures { result.now ≡ self.now.stream.packets }
    {
        self.packets.as_slice()
    }

    /// The greatest moment that any item named, in milliseconds.
    pub fn bound(&self) -> u64
        ensures { result ≡ self.now.stream.bound }
    {
        self.reach.bound
    }

    /// How the stream ended, if it did.
    pub fn end(&self) -> FlowEnd
        ensures { result ≡ self.now.stream.end }
    {
        self.reach.end
    }

    /// Whether the item may come next: the flow is open, and a packet's or a mark's moment is at least the bound.
    pub fn may_follow(&self, item: &Item) -> bool
        ensures { IsTrue result ↔ MayFollow self.now.stream item.now }
    {
        self.reach.may_follow(item)
    }

    /// Makes room for `count` more packets, or runs out of memory. It takes none if there is that room.
    pub fn reserve(&mut self, count: usize) -> Result<(), OutOfMemory>
        ensures same { self.new.stream ≡ self.old.stream }
        ensures ok { OnOk result (self.new.spare ≡ max self.old.spare count) }
        ensures err { OnErr result (self.new ≡ self.old) }
        ensures enough { count ≤ self.old.spare → IsOk result }
    {
        if self.spare < count {
            match self.packets.reserve(count) {
                Ok(()) => self.spare = count,
                Err(_) => return Err(OutOfMemory),
            }
        }
        Ok(())
    }

    /// Adds an item which takes no room, or for which there is room.
    pub fn add(&mut self, item: Item)
        requires follows { MayFollow self.old.stream item }
        requires room { HasRoomFor self.old.spare item }
        ensures stream { self.new.stream ≡ after self.old.stream item }
        ensures spare { self.new.spare ≡ spare_after self.old.spare item }
    {
        if let Item::Packet(t) = item {
            self.spare -= 1;
            self.packets.push_reserved(t);
        }
        self.reach.add(item);
    }

    /// Adds an item. Only a packet takes memory, and only if there is no spare room; else it takes one of it.
    pub fn push(&mut self, item: Item) -> Result<(), OutOfMemory>
        requires { MayFollow self.old.stream item }
        ensures stream { OnOk result ((self.new.stream ≡ after self.old.stream item)
            × (self.new.spare ≡ spare_after self.old.spare item)) }
        ensures err { OnErr result ((self.new ≡ self.old) × NeedsRoom self.old.spare item) }
    {
        if let Item::Packet(_) = item {
            self.reserve(1)?;
        }
        self.add(item);
        Ok(())
    }
}
