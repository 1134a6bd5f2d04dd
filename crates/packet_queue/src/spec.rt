// Which queue a link has.
ghost use Rattle.std.specs.Prelude.{◌≡◌, ◌&&◌};
ghost use Rattle.packet_queue.specs.Queues.{is_within};

/// What a queue does if a packet would pass its limits.
#[derive(Clone, Copy, PartialEq, Eq)]
pub enum QueueKind {
    /// It has no limit.
    Infinite,
    /// It drops the new packet.
    DropTail,
    /// It drops from its head until it is within its limits, and may so drop the new packet too.
    DropHead,
}

/// A queue's kind and its limits, in packets and in bytes. A limit of 0 is the same as none.
#[derive(Clone, Copy, PartialEq, Eq)]
pub struct QueueSpec {
    pub kind: QueueKind,
    pub packets: Option<u64>,
    pub bytes: Option<u64>,
}

impl QueueSpec {
    // Whether as many packets and bytes are within both limits.
    pub(crate) fn fits(&self, packets: u64, size: u64) -> bool
        ensures { result ≡ (is_within self.now.packets packets && is_within self.now.bytes size) }
    {
        within(self.packets, packets) && within(self.bytes, size)
    }
}

/// Why a kind and its arguments are no queue, numbered 1 to 4.
#[derive(Clone, Copy, Debug, PartialEq, Eq)]
pub enum QueueError {
    /// 1: the kind is none of `infinite`, `droptail` and `drophead`.
    UnknownKind,
    /// 2: an item is neither `packets=N` nor `bytes=N`, or a name stands twice.
    BadArgs,
    /// 3: a queue that drops has no limit above 0.
    NoLimit,
    /// 4: an infinite queue has arguments.
    LimitOnInfinite,
}

impl QueueError {
    ghost use Rattle.packet_queue.specs.Faults.{number_of_fault};

    /// The number of this refusal, from 1.
    pub fn number(self) -> u32
        ensures { result ≡ number_of_fault self }
    {
        match self {
            QueueError::UnknownKind => 1,
            QueueError::BadArgs => 2,
            QueueError::NoLimit => 3,
            QueueError::LimitOnInfinite => 4,
        }
    }
}

// Whether a number is within a limit; 0 is no limit.
fn within(limit: Option<u64>, n: u64) -> bool
    ensures { result ≡ is_within limit n }
{
    match limit {
        None => true,
        Some(limit) => limit == 0 || n <= limit,
    }
}
