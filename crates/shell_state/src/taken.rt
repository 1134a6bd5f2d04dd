// What a take of a state returns.
use packet_record::Item;

/// What a take returns.
#[derive(Clone, Copy, PartialEq, Eq)]
pub enum Taken {
    /// The next item of the stream of what leaves.
    Item(Item),
    /// This take burnt as many opportunities as it was allowed to, and there may be more to burn.
    Again { burnt: u32 },
    /// There is nothing to say before more is fed. It carries the bound of what was fed.
    NotYet { bound: u64 },
}
