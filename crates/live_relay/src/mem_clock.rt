// A clock in memory, which returns the moments of a list.
ghost use Rattle.std.specs.Prelude.{◌≡◌, ◌≤◌, ◌∷◌, [], None, Some, length};
ghost use Rattle.mm_base.specs.Counts.{one_more};
ghost use Rattle.live_relay.specs.Clocks.{Reads};
ghost use Rattle.live_relay.specs.MemClocks.{MemClockState, NeverFall, answer_at, is_over, mem_clock_view};

use crate::Clock;
use std::alloc::Global;
use std::marker::Model;

/// A clock in memory. It returns the moments of its list in turn, and then the last one again and again. It tells its
/// answers, until its count of calls stands at the last value of a `u64`. Its user may end at one of its calls.
#[derive(Drop)]
pub struct MemClock {
    moments: Vec<u64>,
    calls: u64,
    ends: Option<u64>,
}

impl Model for MemClock {
    ghost use Rattle.std.specs.Prelude.{◌≤◌, length};
    ghost use Rattle.live_relay.specs.MemClocks.{MemClockState, NeverFall};

    ghost Value = { MemClockState };

    ghost view = { λ c. record { moments = c.moments.items; calls = c.calls; ends = c.ends } };

    ghost invariant = { λ c. (1 ≤ length c.moments.items) × NeverFall 0 c.moments.items };
}

impl MemClock {
    /// A clock with these moments, of which there is one at least, and none is before the one before it.
    pub fn new(_alloc: Global, moments: Vec<u64>) -> Self
        requires some { 1 ≤ length moments.items }
        requires never_fall { NeverFall 0 moments.items }
        ensures { result ≡ record { moments = moments.items; calls = 0; ends = None } }
    {
        MemClock {
            moments,
            calls: 0,
            ends: None,
        }
    }

    /// The clock, whose user ends at the call of this number, counted from 1.
    pub fn ending_at(self, call: u64) -> Self
        ensures { result ≡ record { moments = self.moments; calls = self.calls; ends = Some call } }
    {
        MemClock {
            ends: Some(call),
            ..self
        }
    }
}

impl Clock for MemClock {
    ghost view = { mem_clock_view };

    fn now(&mut self) -> u64
        ensures exact { result ≡ answer_at self.old.moments self.old.calls }
        ensures call { self.new ≡ record { moments = self.old.moments; calls = one_more self.old.calls; ends = self.old.ends } }
        ensures latest { (mem_clock_view self.new).latest ≡ result }
        ensures never_falls { (mem_clock_view self.old).latest ≤ result }
        ensures told { Reads (result ∷ []) (mem_clock_view self.old).moments (mem_clock_view self.new).moments }
    {
        let moment = answer_of(self.moments.as_slice(), self.calls);
        self.calls = self.calls.saturating_add(1);
        moment
    }

    fn has_ended(&self) -> bool
        ensures ended { result ≡ is_over self.now.ends self.now.calls }
    {
        match self.ends {
            Some(call) => call <= self.calls,
            None => false,
        }
    }
}

// The answer of a call, counted from 0.
fn answer_of(moments: &[u64], call: u64) -> u64
    requires { 1 ≤ length moments.now }
    ensures { result ≡ answer_at moments.now call }
{
    let last = moments.len() - 1;
    moments[usize::try_from(call).unwrap_or(last).min(last)]
}
