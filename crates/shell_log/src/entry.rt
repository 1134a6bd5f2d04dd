// What happened at one direction of a link.
ghost use Rattle.std.specs.Prelude.{◌≡◌};

/// One line of a log, at a moment in milliseconds from the start of the run. Sizes are in bytes. Every number of an
/// entry in a log has at most ten digits, so that what is printed is read again.
#[derive(Clone, Copy, PartialEq, Eq)]
pub enum Entry {
    /// A packet of 1 to 1504 bytes came in.
    Arrival {
        moment: u64,
        size: u16,
    },
    /// A delivery opportunity of 1 to 1000000 bytes came.
    Opportunity {
        moment: u64,
        bytes: u32,
    },
    /// A packet left, `delay` milliseconds after it came in.
    Departure {
        moment: u64,
        size: u16,
        delay: u64,
    },
    /// The queue dropped `packets` packets, of `bytes` bytes in all.
    Drop {
        moment: u64,
        packets: u64,
        bytes: u64,
    },
}

impl Entry {
    ghost use Rattle.shell_log.specs.Entries.{moment_of};

    /// The moment at which it happened.
    pub fn moment(&self) -> u64
        ensures { result ≡ moment_of self.now }
    {
        match *self {
            Entry::Arrival { moment, .. }
            | Entry::Opportunity { moment, .. }
            | Entry::Departure { moment, .. }
            | Entry::Drop { moment, .. } => moment,
        }
    }
}
