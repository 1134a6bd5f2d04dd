// Sums over the entries of a log.
ghost use Rattle.std.specs.Prelude.{◌≡◌, ◌≤◌, ◌<◌, ◌+◌, ◌*◌, ◌^◌, ◌==◌, ◌++◌, ◌∷◌, List, [], OnOk, IfOk};
ghost use Rattle.std.specs.Prelude.{if◌then◌else◌};
ghost use Rattle.shell_log.specs.declared.entry.Entry.{Entry as EntryValue};
ghost use Rattle.shell_log.specs.Entries.{IsEntry};
ghost use Rattle.log_report.specs.Reports.{report_of, thousandths};

use crate::Report;
use crate::delays::DelayCounts;
use shell_log::Entry;
use std::alloc::Global;
use text_base::OutOfMemory;

// Sums over more entries might not fit 64 bits, so more entries count as out of memory.
const MOST_ENTRIES: u64 = 134_217_728;

// How many there are, and how many bytes they have.
#[derive(Clone, Copy)]
pub(crate) struct Sum {
    pub count: u64,
    pub bytes: u64,
}

impl Sum {
    // The sum over nothing.
    const NOTHING: Sum = Sum { count: 0, bytes: 0 };
}

// The sums over the entries so far.
#[derive(Drop)]
pub(crate) struct Sums {
    // How many entries there are.
    pub entries: u64,
    // The moment of the first entry, or 0.
    pub first: u64,
    // The moment of the last entry, or 0.
    pub last: u64,
    // The packets that arrived.
    pub arrived: Sum,
    // The opportunities.
    pub offered: Sum,
    // The packets that departed.
    pub departed: Sum,
    // The packets that were dropped.
    pub dropped: Sum,
    // The delays of the packets that departed.
    pub delays: DelayCounts,
    ghost few: { entries ≤ 134217728 },
    ghost delays_few: { delays.count ≤ entries },
    ghost arrived_within: { (arrived.count ≤ entries) × (arrived.bytes ≤ 1504 * entries) },
    ghost offered_within: { (offered.count ≤ entries) × (offered.bytes ≤ 1000000 * entries) },
    ghost departed_within: { (departed.count ≤ entries) × (departed.bytes ≤ 1504 * entries) },
    ghost dropped_within: { (dropped.count ≤ 9999999999 * entries) × (dropped.bytes ≤ 9999999999 * entries) },
}

impl Sums {
    ghost use Rattle.log_report.specs.Summed.{AreSums};

    // The sums over no entry.
    pub(crate) fn new(alloc: Global) -> Result<Self, OutOfMemory>
        ensures { IfOk result (AreSums []) }
    {
        Ok(Sums {
            entries: 0,
            first: 0,
            last: 0,
            arrived: Sum::NOTHING,
            offered: Sum::NOTHING,
            departed: Sum::NOTHING,
            dropped: Sum::NOTHING,
            delays: DelayCounts::new(alloc)?,
        })
    }

    // Adds one entry.
    #[inline]
    pub(crate) fn add(&mut self, entry: Entry) -> Result<(), OutOfMemory>
        requires { IsEntry entry }
        ensures { OnOk result ((es : List EntryValue) → AreSums es self.old → AreSums (es ++ entry ∷ []) self.new) }
    {
        if self.entries >= MOST_ENTRIES {
            return Err(OutOfMemory);
        }
        self.first = self.first_with(entry.moment());
        self.last = entry.moment();
        self.entries += 1;
        match entry {
            Entry::Arrival { size, .. } => {
                self.arrived.count += 1;
                self.arrived.bytes += u64::from(size);
            }
            Entry::Opportunity { bytes, .. } => {
                self.offered.count += 1;
                self.offered.bytes += u64::from(bytes);
            }
            Entry::Departure { size, delay, .. } => {
                self.delays.add(delay)?;
                self.departed.count += 1;
                self.departed.bytes += u64::from(size);
            }
            Entry::Drop { packets, bytes, .. } => {
                self.dropped.count += packets;
                self.dropped.bytes += bytes;
            }
        }
        Ok(())
    }

    // Returns the moment of the first entry, where the next one has `moment`.
    #[inline]
    fn first_with(&self, moment: u64) -> u64
        ensures { result ≡ (if self.now.entries == 0 then moment else self.now.first) }
    {
        if self.entries == 0 {
            moment
        } else {
            self.first
        }
    }

    // Returns the report of the entries, or `None` if there is none.
    pub(crate) fn report(self) -> Option<Report>
        ensures { (es : List EntryValue) → AreSums es self → result ≡ report_of es }
    {
        if self.entries == 0 {
            return None;
        }
        let used = thousandths(self.departed.bytes, self.offered.bytes);
        Some(Report {
            entries: self.entries,
            first: self.first,
            last: self.last,
            arrived: (self.arrived.count, self.arrived.bytes),
            offered: (self.offered.count, self.offered.bytes),
            departed: (self.departed.count, self.departed.bytes),
            dropped: (self.dropped.count, self.dropped.bytes),
            used,
            delays: self.delays.ranks(),
        })
    }
}

// Returns `part` in thousandths of `whole`, rounded down, or `None` if `whole` is 0.
fn thousandths(part: u64, whole: u64) -> Option<u64>
    requires { 1000 * part < 2 ^ 64 }
    ensures { result ≡ thousandths part whole }
{
    (part * 1000).checked_div(whole)
}
