// A bounded channel of items, held as a queue.
ghost use Rattle.std.specs.Prelude.{◌≡◌, IsTrue, IfOk};
ghost use Rattle.nest_core.specs.Channels.{new_channel, has_room, with_last, first_of, without_first};

use packet_record::Item;
use std::alloc::Global;
use std::collections::VecDeque;
use std::marker::Model;
use text_base::OutOfMemory;

// The items that were sent and not received, the oldest first, and how many there may be.
#[derive(Drop)]
pub(crate) struct Channel {
    items: VecDeque<Item>,
    capacity: usize,
}

impl Model for Channel {
    ghost use Rattle.nest_core.specs.Channels.{ChannelParts};

    ghost Value = { ChannelParts };

    ghost use Rattle.nest_core.specs.views.Channel.{channel_view};
    ghost use Rattle.nest_core.specs.inside.ChannelViews.{HasPlaces};

    ghost view = { channel_view };

    ghost invariant = { HasPlaces };
}

impl Channel {
    // Makes an empty channel, with all the memory that it will need.
    pub(crate) fn new(alloc: Global, capacity: usize) -> Result<Channel, OutOfMemory>
        ensures { IfOk result (λ c. c ≡ new_channel capacity) }
    {
        Ok(Channel {
            items: VecDeque::with_capacity(alloc, capacity)?,
            capacity,
        })
    }

    // Returns whether another item can be sent.
    pub(crate) fn has_room(&self) -> bool
        ensures { result ≡ has_room self.now }
    {
        self.items.len() < self.capacity
    }

    // Adds an item at the back.
    pub(crate) fn send(&mut self, item: Item)
        requires { IsTrue (has_room self.old) }
        ensures { self.new ≡ with_last self.old item }
    {
        self.items.push_back_reserved(item);
    }

    // Returns the oldest item, which stays in the channel.
    pub(crate) fn first(&self) -> Option<Item>
        ensures { result ≡ first_of self.now.items }
    {
        self.items.front().copied()
    }

    // Removes the oldest item and returns it.
    pub(crate) fn receive(&mut self) -> Option<Item>
        ensures first { result ≡ first_of self.old.items }
        ensures rest { self.new ≡ without_first self.old }
    {
        self.items.pop_front()
    }
}
