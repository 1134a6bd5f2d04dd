// The delays of departures, kept as far as their ranks need it.
ghost use Rattle.std.specs.Prelude.{◌≡◌, ◌≤◌, ◌<◌, ◌+◌, ◌++◌, ◌∷◌, ℕ, List, [], length, sum, OnOk, IfOk};
ghost use Rattle.log_report.specs.Ranks.{at_rank, delays_of};
ghost use Rattle.log_report.specs.declared.delays.TheConstants.{SHORT};

use crate::Delays;
use std::alloc::Global;
use text_base::OutOfMemory;

// Delays below this number of milliseconds are counted by value.
const SHORT: usize = 65_536;

// The delays so far.
#[derive(Drop)]
pub(crate) struct DelayCounts {
    // How many delays there are.
    pub count: u64,
    // How often each delay below `SHORT` came.
    pub short: Vec<u32>,
    // The other delays.
    pub long: Vec<u64>,
    ghost few: { count ≤ 134217728 },
    ghost short_len: { length short.items ≡ SHORT },
    ghost all: { sum short.items + length long.items ≡ count },
}

impl DelayCounts {
    ghost use Rattle.log_report.specs.Counted.{AreCounts};
    ghost use Rattle.log_report.specs.inside.Counted.{AreRanked};

    // The counts of no delay.
    pub(crate) fn new(alloc: Global) -> Result<Self, OutOfMemory>
        ensures { IfOk result (AreCounts []) }
    {
        Ok(DelayCounts {
            count: 0,
            short: vec![in alloc; 0u32; SHORT]?,
            long: Vec::new(alloc),
        })
    }

    // Counts one more delay, in milliseconds.
    #[inline]
    pub(crate) fn add(&mut self, delay: u64) -> Result<(), OutOfMemory>
        requires { self.old.count < 134217728 }
        ensures counts { OnOk result ((delays : List ℕ) → AreCounts delays self.old
            → AreCounts (delays ++ delay ∷ []) self.new) }
        ensures count { self.new.count ≤ self.old.count + 1 }
    {
        if delay < SHORT as u64 {
            self.short[delay as usize] += 1;
            self.count += 1;
            return Ok(());
        }
        self.long.push(delay)?;
        self.count += 1;
        Ok(())
    }

    // Returns the median, the 95th percentile and the greatest of the delays, or `None` if there is none.
    pub(crate) fn ranks(mut self) -> Option<Delays>
        ensures { (delays : List ℕ) → AreCounts delays self → result ≡ delays_of delays }
    {
        if self.count == 0 {
            return None;
        }
        self.long.sort_unstable();
        Some(Delays {
            median: self.at((self.count + 1) / 2),
            p95: self.at((95 * self.count + 99) / 100),
            most: self.at(self.count),
        })
    }

    // Returns the delay at a rank, counted from 1. The long delays are sorted.
    fn at(&self, rank: u64) -> u64
        requires some { 1 ≤ rank }
        requires within { rank ≤ self.now.count }
        ensures { (delays : List ℕ) → AreRanked delays self.now → result ≡ at_rank delays rank }
    {
        let mut seen = 0;
        for (delay, count) in self.short.iter().enumerate() {
            let more = seen + u64::from(*count);
            if rank <= more {
                return delay as u64;
            }
            seen = more;
        }
        self.long[(rank - seen - 1) as usize]
    }
}
