// What a merge does next.
use packet_record::{Item, Timed};

/// The head of a sender: its first packet that wasn't given.
#[derive(Clone, Copy, PartialEq, Eq)]
pub(crate) struct Head {
    /// The number of the sender, counted from 1.
    pub sender: u32,
    /// The packet.
    pub packet: Timed,
}

/// What a merge does next.
#[derive(Clone, Copy, PartialEq, Eq)]
pub enum MergeStep {
    /// It gives this item.
    Item(Item),
    /// It gives nothing before the next item of a sender is added.
    Need {
        /// The number of the sender, counted from 1.
        sender: u32,
    },
}
