// Counts the workers of a run that have begun. Whoever sends first waits until all have.
ghost use Rattle.std.specs.Prelude.{◌≡◌, OnErr, OnOk};
ghost use Rattle.packet_record.specs.declared.item.FlowEnd.TheVariants.{Open};
ghost use Rattle.packet_record.specs.Streams.{after};
ghost use Rattle.mark_channel.specs.Ends.{IsSameEnd};

use crate::Sender;
use packet_record::Item;
use std::sync::Wait;
use std::sync::atomic::{AtomicU64, Ordering};
use std::time::Duration;
use text_base::OutOfMemory;

// How many milliseconds a waiting source sleeps at a time, unless the last worker begins meanwhile. On a busy machine a
// thread gets a processor some milliseconds late after each sleep, so a few long sleeps are better than many short
// ones.
const REST_MILLISECONDS: u64 = 100;

// How often a waiting source sleeps before the run is given up: two seconds in all.
const RESTS: u32 = 20;

// Some workers have yet to begin.
const AWAITED: u32 = 0;

// All workers have begun.
const ALL_BEGUN: u32 = 1;

// The run was given up before all workers had begun.
const GIVEN_UP: u32 = 2;

/// How many workers of a run have begun, and how many must.
///
/// If no thread can be made for a worker, it begins only once what runs beside it has ended. So a source that sent
/// before all workers have begun could wait forever for room.
#[derive(Drop)]
pub struct Begun {
    // How many must begin.
    workers: u64,
    // How many have begun.
    count: AtomicU64,
    // Whether all have begun, or the run was given up. It changes once.
    state: AtomicU64,
    // How often a waiting source sleeps at most.
    rests: u32,
}

impl Begun {
    /// A run of `workers` workers, none of which has begun. Whoever waits for two seconds gives it up.
    pub fn new(workers: u64) -> Begun
        ensures { result.workers ≡ workers }
    {
        Begun::with_rests(workers, RESTS)
    }

    /// As `new`, but whoever waits for `rests` tenths of a second gives it up.
    pub fn with_rests(workers: u64, rests: u32) -> Begun
        ensures { result.workers ≡ workers }
    {
        let state = if workers == 0 { ALL_BEGUN } else { AWAITED };
        Begun {
            workers,
            count: AtomicU64::new(0),
            state: AtomicU64::new(u64::from(state)),
            rests,
        }
    }

    /// Counts a worker that begins. The last one wakes all who wait.
    pub fn raise(&self) {
        let before = self.count.fetch_add(1, Ordering::SeqCst);
        if before.saturating_add(1) >= self.workers {
            self.settle(ALL_BEGUN);
        }
    }

    /// Waits until all workers have begun. It sleeps meanwhile, and takes no memory.
    ///
    /// If they haven't begun two seconds after somebody began to wait, the run is given up. Then each source that
    /// waits, now or later, breaks both directions off and returns `OutOfMemory`.
    pub fn wait<R: Wait>(
        &self,
        rt: &R,
        up: &mut Sender,
        down: &mut Sender,
    ) -> Result<(), OutOfMemory>
        requires open { (up.old.flow.end ≡ Open) × (down.old.flow.end ≡ Open) }
        ensures unsent { OnOk result ((up.new ≡ up.old) × (down.new ≡ down.old)) }
        ensures broken { OnErr result ((up.new.flow ≡ after up.old.flow Item.Broken)
            × (down.new.flow ≡ after down.old.flow Item.Broken)) }
        ensures same { IsSameEnd up.old up.new × IsSameEnd down.old down.new }
    {
        if self.have_all_begun(rt) {
            return Ok(());
        }
        up.send(rt, Item::Broken);
        down.send(rt, Item::Broken);
        Err(OutOfMemory)
    }

    // Sleeps until all workers have begun. Returns false if the run was given up, or gives it up after the last sleep.
    fn have_all_begun<R: Wait>(&self, rt: &R) -> bool {
        for _ in 0..self.rests {
            if self.state.load(Ordering::SeqCst) != u64::from(AWAITED) {
                break;
            }
            let rest = Duration::from_millis(REST_MILLISECONDS);
            self.state.park_timeout(rt, AWAITED, rest);
        }
        self.settle(GIVEN_UP);
        self.state.load(Ordering::SeqCst) == u64::from(ALL_BEGUN)
    }

    // Ends the wait in this state, unless it has ended, and wakes all who wait.
    fn settle(&self, state: u32) {
        let awaited = u64::from(AWAITED);
        let settled = self.state.compare_exchange(
            awaited,
            u64::from(state),
            Ordering::SeqCst,
            Ordering::SeqCst,
        );
        if settled.is_ok() {
            self.state.wake_all();
        }
    }
}
