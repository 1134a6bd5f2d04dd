// Rings a bell after each batch of things.
use crate::bell::Bell;

// How many words fill a cache line.
const LINE: usize = 8;

/// Rings a bell once a batch of things was done for the thread that sleeps there.
///
/// It writes its counts for each thing, and may lie beside values that another thread reads. The unused words before
/// and after keep those out of the cache line of the counts.
#[derive(Drop)]
pub struct Ringer {
    _before: [u64; LINE],
    // How many things make a batch.
    batch: u32,
    // How many things it has done for a sleeper since it last rang for a batch or for the last thing.
    owed: u32,
    _after: [u64; LINE],
}

impl Ringer {
    /// A ringer whose batch is `batch` things.
    pub fn new(batch: u32) -> Ringer {
        Ringer {
            _before: [0; LINE],
            batch,
            owed: 0,
            _after: [0; LINE],
        }
    }

    /// Counts one thing that was done, if somebody sleeps, and rings if that makes a batch.
    pub fn add(&mut self, bell: &Bell) {
        if !bell.has_sleeper() {
            self.owed = 0;
            return;
        }
        self.owed = self.owed.saturating_add(1);
        if self.owed >= self.batch {
            self.owed = 0;
            bell.ring();
        }
    }

    /// Rings for what was done and makes no whole batch yet, if somebody sleeps. The count goes on.
    pub fn ring_owed(&self, bell: &Bell) {
        if self.owed > 0 && bell.has_sleeper() {
            bell.ring();
        }
    }

    /// Rings after the last thing.
    pub fn end(&mut self, bell: &Bell) {
        self.owed = 0;
        if bell.has_sleeper() {
            bell.ring();
        }
    }
}
