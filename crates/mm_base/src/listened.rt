// What a port was asked to listen at.
ghost use Rattle.std.specs.Prelude.{◌≡◌};
ghost use Rattle.mm_base.specs.Listened.{never, listened_at, refused_at};

/// What a port was asked to listen at. Each call of `listen` counts.
#[derive(Clone, Copy, Debug, PartialEq, Eq)]
pub struct Listened {
    /// How often it was asked, up to the last value of a `u64`.
    pub times: u64,
    /// The number that it was asked last. None before the first.
    pub last: Option<u16>,
    /// The number of the last call that wasn't refused. None before the first.
    pub listening: Option<u16>,
}

impl Listened {
    /// Of a port that was never asked.
    pub fn never() -> Self
        ensures { result ≡ never }
    {
        Listened {
            times: 0,
            last: None,
            listening: None,
        }
    }

    /// The port was asked once more, at `number`, and listens there.
    pub fn listen(&mut self, number: u16)
        ensures { self.new ≡ listened_at number self.old }
    {
        self.refuse(number);
        self.listening = Some(number);
    }

    /// The port was asked once more, at `number`, and refused.
    pub fn refuse(&mut self, number: u16)
        ensures { self.new ≡ refused_at number self.old }
    {
        self.times = self.times.saturating_add(1);
        self.last = Some(number);
    }
}
