// What a report says.
ghost use Rattle.std.specs.Prelude.{◌≡◌};
ghost use Rattle.log_report.specs.declared.figures.ReportError.TheVariants as errors;

use text_base::OutOfMemory;

/// The delays of a log's departures, in milliseconds.
#[derive(Clone, Copy, PartialEq, Eq)]
pub struct Delays {
    /// Of `n` delays, the least first, the one at the rank `n / 2`, rounded up. Ranks count from 1.
    pub median: u64,
    /// The delay at the rank `95 n / 100`, rounded up.
    pub p95: u64,
    /// The greatest delay.
    pub most: u64,
}

/// What a log comes to. The first number of a pair counts packets, or opportunities, and the second their bytes.
#[derive(Clone, Copy, PartialEq, Eq)]
pub struct Report {
    /// How many entries there are.
    pub entries: u64,
    /// The moment of the first entry, in milliseconds.
    pub first: u64,
    /// The moment of the last entry, in milliseconds.
    pub last: u64,
    /// The packets that arrived.
    pub arrived: (u64, u64),
    /// The opportunities.
    pub offered: (u64, u64),
    /// The packets that departed.
    pub departed: (u64, u64),
    /// The packets that were dropped.
    pub dropped: (u64, u64),
    /// The departed bytes in thousandths of the offered bytes, rounded down, or `None` if no byte was offered.
    pub used: Option<u64>,
    /// The delays of the departures, or `None` if nothing departed.
    pub delays: Option<Delays>,
}

/// Why a log has no report.
#[derive(Clone, Copy, Debug, PartialEq, Eq)]
pub enum ReportError {
    /// The log has no entry.
    Empty,
    /// Out of memory.
    OutOfMemory,
}

impl From<OutOfMemory> for ReportError {
    ghost from_gives = { λ _ e. e ≡ errors.OutOfMemory };

    fn from(_: OutOfMemory) -> Self {
        ReportError::OutOfMemory
    }
}
