// What became of a packet in a run.
use packet_record::Direction;

/// What became of one packet of a run. Moments are milliseconds from the run's start, and shells are numbered from 1,
/// the outermost first.
#[derive(Clone, Copy, PartialEq, Eq)]
pub enum Fate {
    /// It departed from its last shell at `moment`.
    Departed { moment: u64 },
    /// `shell` dropped it at `moment`.
    Dropped { shell: u32, moment: u64 },
    /// It was inside `shell` when the run ended.
    Inside { shell: u32 },
    /// Its moment is after the horizon of the run.
    Unsent,
}

/// A packet's number and direction, with its fate.
#[derive(Clone, Copy, PartialEq, Eq)]
pub struct FateRow {
    /// The packet's number.
    pub id: u32,
    /// The direction in which it goes.
    pub direction: Direction,
    /// What became of it.
    pub fate: Fate,
}
