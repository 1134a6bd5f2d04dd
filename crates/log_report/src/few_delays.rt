// The ranks of the delays of a bin.
ghost use Rattle.std.specs.Prelude.{◌≡◌, ◌≤◌, ℕ, List, length, IsPermutation, IsSorted};
ghost use Rattle.std.specs.Ordering.{nat_cmp};
ghost use Rattle.log_report.specs.Ranks.{at_rank, delays_of};

use crate::Delays;

// Returns the median, the 95th percentile and the greatest of the delays, or `None` if there is none.
pub(crate) fn rank_delays(mut delays: Vec<u64>) -> Option<Delays>
    requires { length delays.items ≤ 134217728 }
    ensures { result ≡ delays_of delays.items }
{
    let count = delays.len();
    if count == 0 {
        return None;
    }
    delays.sort_unstable();
    let sorted = delays.as_slice();
    Some(Delays {
        median: delay_at(sorted, (count + 1) / 2),
        p95: delay_at(sorted, (95 * count + 99) / 100),
        most: delay_at(sorted, count),
    })
}

// Returns the delay at a rank, counted from 1.
fn delay_at(sorted: &[u64], rank: usize) -> u64
    requires some { 1 ≤ rank }
    requires within { rank ≤ length sorted.now }
    ensures { (delays : List ℕ) → IsPermutation delays sorted.now → IsSorted nat_cmp sorted.now
        → result ≡ at_rank delays rank }
{
    sorted[rank - 1]
}
