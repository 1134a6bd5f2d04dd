// One lap of a trace that is played again and again.
ghost use Rattle.std.specs.Prelude.{◌≡◌, ◌+◌, ◌<◌, ◌≤◌, ◌↔◌, IsTrue, Some, length, IfSome};
ghost use Rattle.trace_reader.specs.Opps.{entry};
ghost use Rattle.link_core.specs.inside.Laps.{IsLap};

use text_base::limits::{HOUR, MOST_OPPORTUNITIES};
use trace_reader::{Opportunity, Trace};

/// The lap that begins with opportunity number `first`, counted from 0, at the moment `start`.
#[derive(Clone, Copy)]
pub struct Lap {
    pub first: u32,
    pub start: u64,
}

impl Lap {
    /// The lap of opportunity number `j`.
    pub fn of(trace: &Trace, j: u32) -> Lap
        requires { j < MOST_OPPORTUNITIES }
        ensures lap { IsLap trace.now.opportunities result.first result.start }
        ensures low { result.first ≤ j }
        ensures high { j < result.first + length trace.now.opportunities }
    {
        let count = trace.len() as u32;
        let number = j / count;
        Lap {
            first: number * count,
            start: u64::from(number) * trace.last_moment(),
        }
    }

    /// Whether opportunity number `j` is in this lap, which has `count` opportunities.
    pub fn has(self, j: u32, count: usize) -> bool
        ensures { IsTrue result ↔ ((self.first ≤ j) × (j < self.first + count)) }
    {
        self.first <= j && ((j - self.first) as usize) < count
    }

    /// Opportunity number `j`, which is in this lap.
    pub fn opportunity(self, trace: &Trace, j: u32) -> Opportunity
        requires lap { IsLap trace.now.opportunities self.first self.start }
        requires low { self.first ≤ j }
        requires high { j < self.first + length trace.now.opportunities }
        requires within { IfSome (entry trace.now.opportunities j) (λ o. o.moment ≤ HOUR) }
        ensures { Some result ≡ entry trace.now.opportunities j }
    {
        let found = trace.at((j - self.first) as usize);
        Opportunity {
            moment: found.moment + self.start,
            bytes: found.bytes,
        }
    }
}
