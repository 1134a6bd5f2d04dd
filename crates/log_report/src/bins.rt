// What the entries of one bin of a series come to.
ghost use Rattle.std.specs.Prelude.{◌≡◌, ◌≤◌, ◌<◌, ◌+◌, ◌*◌, ◌++◌, ◌∷◌, List, [], length, OnOk, IfOk};
ghost use Rattle.shell_log.specs.declared.entry.Entry.{Entry as EntryValue};
ghost use Rattle.shell_log.specs.Entries.{IsEntry, IsLog};
ghost use Rattle.log_report.specs.Bins.{bin_over, rate_of};

use crate::Delays;
use crate::few_delays::rank_delays;
use shell_log::Entry;
use std::alloc::Global;
use text_base::OutOfMemory;

/// What happened in one bin of a series.
#[derive(Clone, Copy, PartialEq, Eq)]
pub struct Bin {
    /// The first moment of the bin, in milliseconds.
    pub from: u64,
    /// The first moment after it.
    pub to: u64,
    /// The bytes of the opportunities.
    pub offered: u64,
    /// The bytes that arrived.
    pub arrived: u64,
    /// The bytes that departed.
    pub departed: u64,
    /// How many packets were dropped.
    pub dropped: u64,
    /// The rate of the departed bytes in thousandths of a Mbit/s, rounded to the nearest, up from the middle.
    pub rate: u64,
    /// The delays of what departed, or `None` if nothing did.
    pub delays: Option<Delays>,
}

// The sums over the entries of a bin so far.
#[derive(Drop)]
pub(crate) struct BinSums {
    // How many entries there are.
    pub entries: u64,
    // The bytes of the opportunities.
    pub offered: u64,
    // The bytes that arrived.
    pub arrived: u64,
    // The bytes that departed.
    pub departed: u64,
    // How many packets were dropped.
    pub dropped: u64,
    // The delays of the packets that departed.
    pub delays: Vec<u64>,
    ghost few: { entries ≤ 134217728 },
    ghost offered_within: { offered ≤ 1000000 * entries },
    ghost arrived_within: { arrived ≤ 1504 * entries },
    ghost departed_within: { departed ≤ 1504 * entries },
    ghost dropped_within: { dropped ≤ 9999999999 * entries },
    ghost delays_within: { length delays.items ≤ entries },
}

impl BinSums {
    ghost use Rattle.log_report.specs.inside.BinSums.{AreBinSums};

    // The sums over no entry.
    fn new(alloc: Global) -> Self
        ensures { AreBinSums [] result }
    {
        BinSums {
            entries: 0,
            offered: 0,
            arrived: 0,
            departed: 0,
            dropped: 0,
            delays: Vec::new(alloc),
        }
    }

    // Adds one entry.
    fn add(&mut self, entry: Entry) -> Result<(), OutOfMemory>
        requires form { IsEntry entry }
        requires room { self.old.entries < 134217728 }
        ensures sums { OnOk result ((es : List EntryValue) → AreBinSums es self.old
            → AreBinSums (es ++ entry ∷ []) self.new) }
        ensures entries { self.new.entries ≤ self.old.entries + 1 }
    {
        self.entries += 1;
        match entry {
            Entry::Arrival { size, .. } => self.arrived += u64::from(size),
            Entry::Opportunity { bytes, .. } => self.offered += u64::from(bytes),
            Entry::Departure { size, delay, .. } => {
                self.delays.push(delay)?;
                self.departed += u64::from(size);
            }
            Entry::Drop { packets, .. } => self.dropped += packets,
        }
        Ok(())
    }

    // Returns what the entries come to, in the bin of `every` milliseconds that begins at `from`.
    fn bin(self, from: u64, every: u64) -> Bin
        requires some { 1 ≤ every }
        requires most { every ≤ 3600000 }
        requires near { from ≤ 10003599999 }
        ensures { (es : List EntryValue) → AreBinSums es self → result ≡ bin_over every from es }
    {
        Bin {
            from,
            to: from + every,
            offered: self.offered,
            arrived: self.arrived,
            departed: self.departed,
            dropped: self.dropped,
            rate: rate_of(self.departed, every),
            delays: rank_delays(self.delays),
        }
    }
}

// Returns the rate of bytes over milliseconds in thousandths of a Mbit/s, rounded to the nearest, up from the middle.
fn rate_of(bytes: u64, every: u64) -> u64
    requires few { bytes ≤ 201863462912 }
    requires some { 1 ≤ every }
    requires most { every ≤ 3600000 }
    ensures { result ≡ rate_of bytes every }
{
    (16 * bytes + every) / (2 * every)
}

// Returns what these entries come to, which are those in the bin of `every` milliseconds that begins at `from`.
pub(crate) fn sum_bin(
    alloc: Global,
    entries: &[Entry],
    from: u64,
    every: u64,
) -> Result<Bin, OutOfMemory>
    requires log { IsLog entries.now }
    requires few { length entries.now ≤ 134217728 }
    requires some { 1 ≤ every }
    requires most { every ≤ 3600000 }
    requires near { from ≤ 10003599999 }
    ensures { IfOk result (λ bin. bin ≡ bin_over every from entries.now) }
{
    let mut sums = BinSums::new(alloc);
    for entry in entries {
        sums.add(*entry)?;
    }
    Ok(sums.bin(from, every))
}
