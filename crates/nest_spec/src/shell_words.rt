// What the words of a link say of one direction, and the places of words.
ghost use Rattle.std.specs.Prelude.{◌≡◌, ◌+◌};
ghost use Rattle.nest_spec.specs.Words.{next};

use packet_queue::QueueSpec;

/// One direction of a link, as its words state it.
#[derive(Clone, Copy, PartialEq, Eq)]
pub struct LinkSide {
    /// The queue.
    pub queue: QueueSpec,
    /// Whether a log's name is given, so that the direction is logged.
    pub logged: bool,
}

// Returns the place after `place`, at most 4294967295.
pub(crate) fn next(place: u32) -> u32
    ensures { result ≡ next place }
{
    place.saturating_add(1)
}
