// One sender's flow as far as it was added to a merge.
ghost use Rattle.std.specs.Prelude.{◌≡◌, ◌↔◌, IfOk, OnOk, OnErr, IsSome, IsTrue, replicate};
ghost use Rattle.packet_record.specs.Streams.{MayFollow};
ghost use Rattle.packet_record.specs.Takes.{IsPacket};

use packet_record::{FlowEnd, Item, Reach, Timed};
use std::alloc::Global;
use std::collections::VecDeque;
use std::marker::Model;
use text_base::OutOfMemory;

// The flow of one sender, and how many of the packets that it keeps were given.
#[derive(Drop)]
pub(crate) struct Incoming {
    packets: VecDeque<Timed>,
    reach: Reach,
    passed: usize,
}

impl Model for Incoming {
    ghost use Rattle.sender_merge.specs.Inflows.{Inflow};

    ghost Value = { Inflow };

    ghost use Rattle.sender_merge.specs.views.Inflow.{inflow_view};

    ghost view = { inflow_view };
}

impl Incoming {
    ghost use Rattle.sender_merge.specs.Inflows.{fresh, has_ended, head_of, is_broken, with_item, with_passed};
    ghost use Rattle.sender_merge.specs.inside.Thins.{without_first};

    // Returns a sender of which nothing was added.
    pub fn new(alloc: Global) -> Self
        ensures { result ≡ fresh }
    {
        Incoming {
            packets: VecDeque::new(alloc),
            reach: Reach::new(),
            passed: 0,
        }
    }

    // Returns `count` senders of which nothing was added. Returns `OutOfMemory` if an allocation fails.
    pub fn new_list(alloc: Global, count: u32) -> Result<Vec<Incoming>, OutOfMemory>
        ensures { IfOk result (λ senders. senders.items ≡ replicate count fresh) }
    {
        let mut senders = Vec::with_capacity(alloc, count as usize)?;
        for _ in 0..count {
            senders.push(Incoming::new(alloc))?;
        }
        Ok(senders)
    }

    // Returns the greatest moment that its flow named, in milliseconds.
    pub fn bound(&self) -> u64
        ensures { result ≡ self.now.flow.bound }
    {
        self.reach.bound
    }

    // Returns whether its flow came to its end.
    pub fn has_ended(&self) -> bool
        ensures { result ≡ has_ended self.now }
    {
        self.reach.end == FlowEnd::Ended
    }

    // Returns whether its flow was broken off.
    pub fn is_broken(&self) -> bool
        ensures { result ≡ is_broken self.now }
    {
        self.reach.end == FlowEnd::Broken
    }

    // Returns its head: the first packet that wasn't given.
    pub fn head(&self) -> Option<Timed>
        ensures { result ≡ head_of self.now }
    {
        self.packets.get(self.passed).copied()
    }

    // Returns whether `item` may come next.
    pub fn may_follow(&self, item: &Item) -> bool
        ensures { IsTrue result ↔ MayFollow self.now.flow item.now }
    {
        self.reach.may_follow(item)
    }

    // Adds an item. Only a packet takes memory; out of memory nothing changes.
    pub fn add(&mut self, item: Item) -> Result<(), OutOfMemory>
        requires { MayFollow self.old.flow item }
        ensures ok { OnOk result (self.new ≡ with_item self.old item) }
        ensures err { OnErr result ((self.new ≡ self.old) × IsPacket item) }
    {
        if let Item::Packet(packet) = item {
            self.packets.push_back(packet)?;
        }
        self.reach.add(item);
        Ok(())
    }

    // Counts its head as given.
    pub fn pass(&mut self)
        requires { IsSome (head_of self.old) }
        ensures { self.new ≡ with_passed self.old }
    {
        if self.passed < self.packets.len() {
            self.passed += 1;
        }
    }

    // Forgets the first packet that it keeps.
    pub fn forget(&mut self)
        ensures { self.new ≡ without_first self.old }
    {
        self.packets.pop_front();
    }
}
