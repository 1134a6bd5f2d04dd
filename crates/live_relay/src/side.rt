// The two sides of a relay.
ghost use Rattle.std.specs.Prelude.{◌≡◌};

use packet_record::Direction;

/// A side of a relay.
#[derive(Clone, Copy, PartialEq, Eq)]
pub enum Side {
    /// What it sends goes up.
    Client,
    /// What it sends goes down.
    Server,
}

impl Side {
    ghost use Rattle.live_relay.specs.Stamped.{direction_of};

    /// Where its datagrams go.
    pub(crate) fn direction(self) -> Direction
        ensures { result ≡ direction_of self }
    {
        match self {
            Side::Client => Direction::Up,
            Side::Server => Direction::Down,
        }
    }
}
