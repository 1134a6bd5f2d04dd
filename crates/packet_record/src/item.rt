// Items that pass between shells, and how a stream of them ends.
use crate::Timed;

/// What a shell is fed and what is taken from it.
#[derive(Clone, Copy, PartialEq, Eq)]
pub enum Item {
    /// A packet at its moment.
    Packet(Timed),
    /// No later packet has a moment below this one, in milliseconds.
    Mark(u64),
    /// Nothing follows: the stream is whole.
    End,
    /// Nothing follows: the stream was broken off.
    Broken,
}

/// How a stream of items ended, if it did.
#[derive(Clone, Copy, PartialEq, Eq)]
pub enum FlowEnd {
    /// It goes on.
    Open,
    /// Its last item is `End`.
    Ended,
    /// Its last item is `Broken`.
    Broken,
}
