// The bells by which the two ends of a channel wake each other.
use crate::bell::{Bell, Ringer};
use packet_record::Item;
use std::alloc::Global;
use std::sync::Arc;
use text_base::OutOfMemory;

// The bells of a channel. At each one end sleeps until the other end rings.
#[derive(Drop)]
pub(crate) struct Bells {
    // Rung after items were sent.
    pub sent: Bell,
    // Rung after items were received, which makes room.
    pub received: Bell,
}

// What an end has of the bells: both bells, and its own ringer.
#[derive(Drop)]
pub(crate) struct EndBells {
    pub shared: Arc<Bells>,
    pub ringer: Ringer,
}

impl EndBells {
    // Rings after `item` was sent, at once if it is the last.
    pub fn ring_for(&mut self, item: &Item) {
        match item {
            Item::Packet(_) | Item::Mark(_) => self.ringer.add(&self.shared.sent),
            Item::End | Item::Broken => self.ringer.end(&self.shared.sent),
        }
    }

    // Rings if any items, however few, were sent since the sleeping receiver was last rung for.
    pub fn ring_owed(&self) {
        self.ringer.ring_owed(&self.shared.sent);
    }

    // Rings after an item was received.
    pub fn ring_for_room(&mut self) {
        self.ringer.add(&self.shared.received);
    }
}

// Makes the bells of both ends of a channel that holds `capacity` items. An end rings once it has filled, or emptied,
// three quarters of the places.
pub(crate) fn open_bells(
    alloc: Global,
    capacity: u32,
) -> Result<(EndBells, EndBells), OutOfMemory> {
    let bells = Bells {
        sent: Bell::new(),
        received: Bell::new(),
    };
    let Ok(shared) = Arc::new(alloc, bells) else {
        return Err(OutOfMemory);
    };
    let Ok(other) = Arc::try_clone(&shared) else {
        return Err(OutOfMemory);
    };
    let batch = (capacity / 4 * 3).max(1);
    let sending = EndBells {
        shared,
        ringer: Ringer::new(batch),
    };
    let receiving = EndBells {
        shared: other,
        ringer: Ringer::new(batch),
    };
    Ok((sending, receiving))
}
