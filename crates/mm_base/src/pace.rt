// Who works when threads run beside each other.
use std::sync::Wait;

/// Who takes a turn. Shells are counted from 1, outermost first, and connections from 1 in the order in which they
/// came.
#[derive(Clone, Copy, PartialEq, Eq)]
pub enum Role {
    Source,
    Feeder { up: bool, shell: u32 },
    Drain { up: bool, shell: u32 },
    Collector { up: bool },
    Connection { number: u32 },
}

/// Something that is asked before each turn of a thread, and may wait. It touches nothing of the run.
pub trait Pace {
    /// The turn of this role with this count comes next.
    fn turn<R: Wait>(&self, rt: &R, role: Role, count: u64);
}

/// A pace that lets every turn begin at once.
#[derive(Clone, Copy, PartialEq, Eq)]
pub struct NoPace;

impl Pace for NoPace {
    fn turn<R: Wait>(&self, _rt: &R, _role: Role, _count: u64) {}
}
