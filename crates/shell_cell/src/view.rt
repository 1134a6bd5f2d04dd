// What a seat at the table knows. These types are for proofs; the program makes values of `Call` and `DrainCall`
// alone.
use packet_record::Item;
use shell_state::{ShellState, Taken};
use std::collections::LinkedList;

/// What the feeder did in a turn: it fed an item.
pub struct FeedTurn {
    /// The number of the turn, from 1.
    pub number: u64,
    /// The item.
    pub item: Item,
}

/// What the drain does in a turn.
#[derive(Clone, Copy)]
pub enum DrainCall {
    /// A take: the most opportunities that it may burn, and its answer.
    Takes(u32, Taken),
    /// It breaks the state.
    Breaks,
}

/// What the drain did in a turn.
pub struct DrainTurn {
    /// The number of the turn, from 1.
    pub number: u64,
    /// The call.
    pub call: DrainCall,
}

/// A call that spends a turn.
#[derive(Clone, Copy)]
pub enum Call {
    Feeds(Item),
    Drains(DrainCall),
}

/// Who sits at a seat.
pub enum SeatRole {
    /// Both, before the seats are split.
    Whole,
    /// The feeder.
    Feeder,
    /// The drain.
    Drain,
    /// Both, after the seats were joined.
    Joined,
    /// Nobody: the seat was joined to the other.
    Spent,
}

/// The turn, as the seat that has it knows it.
pub struct Note {
    /// How many turns were spent before it.
    pub spent: u64,
    /// The state that they left.
    pub state: ShellState,
}

/// What a seat knows.
pub struct View {
    /// Who sits at the seat.
    pub role: SeatRole,
    /// The state that the cell was opened with.
    pub opening: ShellState,
    /// The turns that the feeder spent, if the seat is the feeder's.
    pub fed: LinkedList<FeedTurn>,
    /// The turns that the drain spent, if the seat is the drain's.
    pub drained: LinkedList<DrainTurn>,
    /// Whether the seat has found the state broken.
    pub broken: bool,
    /// The turn, if the seat has it.
    pub note: Option<Note>,
}
