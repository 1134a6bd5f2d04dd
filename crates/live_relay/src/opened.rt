// At which ports a wire was asked to open.
ghost use Rattle.std.specs.Prelude.{◌≡◌};
ghost use Rattle.live_relay.specs.Opened.{never, opened_at, refused_at};

/// At which ports a wire was asked to open. Each call of `open` counts. Of two ports the first is the one at which the
/// wire listens, and the second the server's.
#[derive(Clone, Copy, Debug, PartialEq, Eq)]
pub struct Opened {
    /// How often it was asked, up to the last value of a `u64`.
    pub times: u64,
    /// The ports of the last call. None before the first.
    pub last: Option<(u16, u16)>,
    /// The ports of the last call that wasn't refused. None before the first.
    pub current: Option<(u16, u16)>,
}

impl Opened {
    /// Of a wire that was never asked.
    pub fn never() -> Self
        ensures { result ≡ never }
    {
        Opened {
            times: 0,
            last: None,
            current: None,
        }
    }

    /// The wire was asked once more, at these ports, and is open there.
    pub fn open(&mut self, listen: u16, to: u16)
        ensures { self.new ≡ opened_at listen to self.old }
    {
        self.refuse(listen, to);
        self.current = Some((listen, to));
    }

    /// The wire was asked once more, at these ports, and refused.
    pub fn refuse(&mut self, listen: u16, to: u16)
        ensures { self.new ≡ refused_at listen to self.old }
    {
        self.times = self.times.saturating_add(1);
        self.last = Some((listen, to));
    }
}
