// The search for the entries of a key.
ghost use Rattle.std.specs.Prelude.{◌≡◌, ◌<◌, ◌≤◌, ℕ, true, length, slice_index_or};
ghost use Rattle.request_match.specs.inside.Index.{Entry, InOrder};

use std::alloc::Global;
use text_base::OutOfMemory;

/// Where entries begin whose keys have the same highest bits. Only the speed of a search depends on it: what it says is
/// tried before it is relied on.
#[derive(Drop)]
pub(crate) struct Starts {
    places: Vec<usize>,
    shift: u32,
    ghost few: { shift < 64 },
}

// The fewest bits that are left out: there are a million places at most.
const LEAST_SHIFT: u32 = 44;

// Returns how many of a key's lowest bits are left out, so that there are about as many places as entries.
fn shift_for(count: usize) -> u32
    ensures { result < 64 }
{
    let mut shift = 63;
    let mut places = 2usize;
    while shift > LEAST_SHIFT && places < count {
        shift -= 1;
        places = places.saturating_mul(2);
    }
    shift
}

// Returns the first place from `start` on whose entry's key has at least these highest bits, or the end.
fn next_start(entries: &[(u64, usize)], start: usize, shift: u32, bits: u64) -> usize
    requires { shift < 64 }
{
    let mut place = start;
    while place < entries.len() && entries[place].0 >> shift < bits {
        place += 1;
    }
    place
}

impl Starts {
    /// Finds where the entries begin. Returns `OutOfMemory` where an allocation fails.
    pub(crate) fn new(alloc: Global, entries: &[(u64, usize)]) -> Result<Starts, OutOfMemory> {
        let shift = shift_for(entries.len());
        let mut places = Vec::new(alloc);
        let mut place = 0;
        for bits in 0..=u64::MAX >> shift {
            place = next_start(entries, place, shift, bits);
            places.push(place)?;
        }
        places.push(entries.len())?;
        Ok(Starts { places, shift })
    }

    // Returns two places with the entries of `key` between them: where the entries begin whose keys have the same
    // highest bits as `key`, and where those begin whose highest bits are greater. Where no such places are known it
    // returns 0 and the greatest number. Both are tried before they are relied on.
    fn around(&self, key: u64) -> (usize, usize) {
        let bits = (key >> self.shift) as usize;
        match (
            self.places.get(bits),
            self.places.get(bits.saturating_add(1)),
        ) {
            (Some(low), Some(high)) => (*low, *high),
            _ => (0, usize::MAX),
        }
    }
}

// Returns whether all entries before `place` have lesser keys.
fn is_past_lesser(entries: &[(u64, usize)], place: usize, key: u64) -> bool
    requires { InOrder entries.now }
    ensures { result ≡ true → (place ≤ length entries.now)
        × ((k : ℕ) (d : Entry) → k < place → (slice_index_or entries.now k d).0 < key) }
{
    if place == 0 {
        return true;
    }
    place <= entries.len() && entries[place - 1].0 < key
}

// Returns whether all entries from `place` on have keys that are no less.
fn is_before_rest(entries: &[(u64, usize)], place: usize, key: u64) -> bool
    requires { InOrder entries.now }
    ensures { result ≡ true → (place ≤ length entries.now)
        × ((k : ℕ) (d : Entry) → place ≤ k → k < length entries.now → key ≤ (slice_index_or entries.now k d).0) }
{
    if place == entries.len() {
        return true;
    }
    place < entries.len() && key <= entries[place].0
}

// Returns the place of the first entry whose key is at least `key`. It isn't before `low`, and not past `high`.
fn first_within(entries: &[(u64, usize)], low: usize, high: usize, key: u64) -> usize
    requires ordered { InOrder entries.now }
    requires low { low ≤ length entries.now }
    requires high { high ≤ length entries.now }
    requires below { (k : ℕ) (d : Entry) → k < low → (slice_index_or entries.now k d).0 < key }
    requires from { (k : ℕ) (d : Entry) → high ≤ k → k < length entries.now
        → key ≤ (slice_index_or entries.now k d).0 }
    ensures bound { result ≤ length entries.now }
    ensures below { (k : ℕ) (d : Entry) → k < result → (slice_index_or entries.now k d).0 < key }
    ensures from { (k : ℕ) (d : Entry) → result ≤ k → k < length entries.now
        → key ≤ (slice_index_or entries.now k d).0 }
{
    let mut low = low;
    let mut high = high;
    while low < high {
        let middle = low + (high - low) / 2;
        if entries[middle].0 < key {
            low = middle + 1;
        } else {
            high = middle;
        }
    }
    low
}

/// Returns the place of the first entry whose key is at least `key`.
pub(crate) fn first_from(entries: &[(u64, usize)], starts: &Starts, key: u64) -> usize
    requires { InOrder entries.now }
    ensures bound { result ≤ length entries.now }
    ensures below { (k : ℕ) (d : Entry) → k < result → (slice_index_or entries.now k d).0 < key }
    ensures from { (k : ℕ) (d : Entry) → result ≤ k → k < length entries.now
        → key ≤ (slice_index_or entries.now k d).0 }
{
    let (low, high) = starts.around(key);
    if is_past_lesser(entries, low, key) && is_before_rest(entries, high, key) {
        return first_within(entries, low, high, key);
    }
    first_within(entries, 0, entries.len(), key)
}
