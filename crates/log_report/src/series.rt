// The bins of a log, one after the other.
ghost use Rattle.std.specs.Prelude.{◌≡◌, ◌≤◌, ◌<◌, ◌+◌, ◌*◌, ◌++◌, ◌∷◌, ℕ, List, [], length, IfOk, OnErr};
ghost use Rattle.std.specs.Prelude.{MatchOption};
ghost use Rattle.shell_log.specs.Entries.{IsLog};
ghost use Rattle.log_report.specs.Bins.{series_of, AreFromBin, AreFromBin-prop, IsLog-prop};
ghost use Rattle.log_report.specs.inside.Places.{AreInBin};

use crate::bins::{Bin, sum_bin};
use shell_log::{Entry, Log};
use std::alloc::Global;
use text_base::OutOfMemory;

// Sums over more entries might not fit 64 bits, so more entries count as out of memory.
const MOST_ENTRIES: usize = 134_217_728;

/// The bins of a log, from the one that begins at moment 0 to the one of the last entry, each made as it is asked for.
#[derive(Drop)]
pub struct Series<'a> {
    every: u64,
    // The number of the next bin, from 0.
    number: u64,
    // The moment at which the next bin begins.
    from: u64,
    // The entries from the next bin on.
    rest: &'a [Entry],
    ghost some: { 1 ≤ every },
    ghost most: { every ≤ 3600000 },
    ghost begins: { from ≡ number * every },
    ghost near: { from ≤ 10003599999 },
    ghost log: { IsLog rest.now } by { IsLog-prop rest.now },
    ghost few: { length rest.now ≤ 134217728 },
    ghost later: { AreFromBin every number rest.now } by { AreFromBin-prop every number rest.now },
}

impl<'a> Series<'a> {
    ghost use Rattle.log_report.specs.Series.{still_of};

    /// Returns the series of a log in bins of `every` milliseconds, 1 to 3,600,000. Returns `OutOfMemory` for a log of
    /// more than 134,217,728 entries.
    pub fn new(log: &'a Log, every: u64) -> Result<Self, OutOfMemory>
        requires some { 1 ≤ every }
        requires most { every ≤ 3600000 }
        ensures { IfOk result (λ series. still_of series ≡ series_of every log.now.entries) }
    {
        let rest = log.entries();
        if rest.len() > MOST_ENTRIES {
            return Err(OutOfMemory);
        }
        Ok(Series {
            every,
            number: 0,
            from: 0,
            rest,
        })
    }

    /// Returns the next bin, or `None` after the last one. Returns `OutOfMemory` if an allocation fails; there is a
    /// next bin then, which is still to come.
    pub fn next(&mut self, alloc: Global) -> Result<Option<Bin>, OutOfMemory>
        ensures ok { IfOk result (λ next. MatchOption next (still_of self.old ≡ [])
            (λ bin. still_of self.old ≡ bin ∷ still_of self.new)) }
        ensures err { OnErr result ((self.new ≡ self.old) × (0 < length (still_of self.old))) }
    {
        if self.rest.is_empty() {
            return Ok(None);
        }
        let (own, after) = split_bin(self.rest, self.every, self.number);
        let bin = sum_bin(alloc, own, self.from, self.every)?;
        self.number += 1;
        self.from += self.every;
        self.rest = after;
        Ok(Some(bin))
    }
}

// Returns the entries of a bin, and those after them. No entry is in an earlier bin.
fn split_bin(entries: &[Entry], every: u64, number: u64) -> (&[Entry], &[Entry])
    requires some { 1 ≤ every }
    requires log { IsLog entries.now }
    requires later { AreFromBin every number entries.now }
    ensures all { entries.now ≡ result.0.now ++ result.1.now }
    ensures own { AreInBin every number result.0.now }
    ensures after { AreFromBin every (number + 1) result.1.now }
{
    let mut count = 0;
    'own: while count < entries.len() && entries[count].moment() / every == number {
        count += 1;
    }
    entries.split_at(count)
}
