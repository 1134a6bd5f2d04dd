// Counts over the fates of a run, for its summary.
ghost use Rattle.std.specs.Prelude.{◌≡◌, ◌≤◌, fold, length, option_to_list};
ghost use Rattle.command_report.specs.Summaries.{bytes_of, departed_at, departed_bytes, departures, greatest, how_many};
ghost use Rattle.command_report.specs.Summaries.{is_departed, is_dropped, is_inside, is_unsent, or_greater};

use nest_spec::{Fate, FateRow};
use packet_record::Row;

// Returns how many packets departed.
pub(crate) fn count_departed(fates: &[FateRow]) -> usize
    ensures { result ≡ how_many is_departed fates.now }
{
    fates.iter().filter(|row| is_departed(row.fate)).count()
}

// Returns whether the packet departed.
fn is_departed(fate: Fate) -> bool
    ensures { result ≡ is_departed fate }
{
    matches!(fate, Fate::Departed { .. })
}

// Returns how many packets were dropped.
pub(crate) fn count_dropped(fates: &[FateRow]) -> usize
    ensures { result ≡ how_many is_dropped fates.now }
{
    fates.iter().filter(|row| is_dropped(row.fate)).count()
}

// Returns whether the packet was dropped.
fn is_dropped(fate: Fate) -> bool
    ensures { result ≡ is_dropped fate }
{
    matches!(fate, Fate::Dropped { .. })
}

// Returns how many packets were inside a shell at the end.
pub(crate) fn count_inside(fates: &[FateRow]) -> usize
    ensures { result ≡ how_many is_inside fates.now }
{
    fates.iter().filter(|row| is_inside(row.fate)).count()
}

// Returns whether the packet was inside a shell at the end.
fn is_inside(fate: Fate) -> bool
    ensures { result ≡ is_inside fate }
{
    matches!(fate, Fate::Inside { .. })
}

// Returns how many packets weren't sent.
pub(crate) fn count_unsent(fates: &[FateRow]) -> usize
    ensures { result ≡ how_many is_unsent fates.now }
{
    fates.iter().filter(|row| is_unsent(row.fate)).count()
}

// Returns whether the packet wasn't sent.
fn is_unsent(fate: Fate) -> bool
    ensures { result ≡ is_unsent fate }
{
    matches!(fate, Fate::Unsent)
}

// Returns how many bytes the packets have that departed, all together.
#[tactic(auto, using(crate::proofs::Totals::bytes_more, crate::proofs::Totals::bytes_end))]
pub(crate) fn sum_departed(rows: &[Row], fates: &[FateRow]) -> u64
    requires same { length fates.now ≡ length rows.now }
    requires few { length rows.now ≤ 1000000 }
    ensures { result ≡ departed_bytes rows.now fates.now }
{
    let mut bytes = 0;
    for i in 0..rows.len() {
        bytes += bytes_of(&rows[i], fates[i].fate);
    }
    bytes
}

// Returns the size of a packet in bytes if it departed, else 0.
fn bytes_of(row: &Row, fate: Fate) -> u64
    ensures value { result ≡ bytes_of row.now fate }
    ensures most { result ≤ 65535 }
{
    if is_departed(fate) {
        u64::from(row.timed.packet.size)
    } else {
        0
    }
}

// Returns the greatest moment of a departure, or `None` if no packet departed.
#[tactic(auto, using(crate::proofs::Totals::last_more, crate::proofs::Totals::last_end))]
pub(crate) fn last_departure(fates: &[FateRow]) -> Option<u64>
    ensures { result ≡ greatest (departures fates.now) }
{
    let mut last = None;
    for row in fates {
        last = later(last, row.fate);
    }
    last
}

// Returns the greater of `last` and the moment of the fate, if that is a departure.
fn later(last: Option<u64>, fate: Fate) -> Option<u64>
    ensures { result ≡ fold or_greater last (option_to_list (departed_at fate)) }
{
    let Fate::Departed { moment } = fate else {
        return last;
    };
    match last {
        Some(greatest) => Some(greatest.max(moment)),
        None => Some(moment),
    }
}
