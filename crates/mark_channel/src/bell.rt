//! Bells, at which one thread sleeps until another has enough for it.
//!
//! A thread that waits here never yields: if other programs are busy too, it would get a processor back only after a
//! whole time slice, some milliseconds. A thread that is woken mostly gets one at once. So it sleeps. If the other
//! thread may need it soon, it first looks `LOOKS` times, with pauses of some microseconds in all. If the other thread
//! goes on without it, it sleeps at once.
//!
//! It is woken for a batch and not for each thing: sleeping and waking take some microseconds, in which many things
//! could be done. For less than a batch it is woken only after the last thing (`Ringer::end`), or by a thread that is
//! about to sleep itself and first rings for what it owes (`Ringer::ring_owed`). Otherwise its sleep ends by itself,
//! after 1 millisecond the first time and at most 64 later on.
//!
//! Nothing is promised of when a call that waits returns.

mod looks;
mod ringer;

pub use looks::{LOOKS, pause};
pub use ringer::Ringer;
use std::sync::Wait;
use std::sync::atomic::{AtomicU64, Ordering};
use std::time::Duration;

// A sleep ends by itself after a millisecond, and each sleep is twice as long as the one before, up to 2^6
// milliseconds, until a sleeper finds what it looked for. So less than a batch is seen a little late if the thread that
// did it waits elsewhere.
const DOUBLINGS: u64 = 6;

/// A bell at which a thread sleeps until another one has enough for it. To sleep, a thread calls `listen`, then looks
/// whether it must wait, and then calls `sleep`, or `leave` if it doesn't have to.
///
/// No wake is lost. A sleeper is counted before it looks, and the ringing thread has done what the sleeper looks for
/// before it asks whether anyone sleeps. So either the sleeper finds it, or the sleeper is seen. A ring between a look
/// and the sleep has raised the count of rings, which the system compares before it lets the sleeper sleep. Sleepers
/// are counted, and not marked by a flag that a ring clears. Each uncounts itself once it is awake, so a thread that
/// was rung for and sleeps on is still seen.
#[derive(Drop)]
pub struct Bell {
    rings: AtomicU64,
    sleepers: AtomicU64,
    // How many sleeps began since a listening thread last found what it looked for.
    naps: AtomicU64,
}

impl Bell {
    /// A bell at which nobody sleeps, and which wasn't rung.
    pub fn new() -> Bell {
        Bell {
            rings: AtomicU64::new(0),
            sleepers: AtomicU64::new(0),
            naps: AtomicU64::new(0),
        }
    }

    /// Counts the caller as a sleeper, and returns the number of rings so far, which `sleep` takes.
    pub fn listen(&self) -> u64 {
        self.sleepers.fetch_add(1, Ordering::SeqCst);
        self.rings.load(Ordering::SeqCst)
    }

    /// Sleeps until the bell is rung after the caller's `listen`, which returned `heard`, or for 1 to 64 milliseconds.
    /// It may return early. The caller is no longer counted as a sleeper.
    pub fn sleep<R: Wait>(&self, rt: &R, heard: u64) {
        let naps = self.naps.fetch_add(1, Ordering::SeqCst);
        let nap = Duration::from_millis(1 << naps.min(DOUBLINGS));
        self.rings.park_timeout(rt, (heard % (1 << 32)) as u32, nap);
        self.sleepers.fetch_sub(1, Ordering::SeqCst);
    }

    /// The caller, which called `listen`, has found what it looked for. It is no longer counted as a sleeper.
    pub fn leave(&self) {
        self.naps.store(0, Ordering::SeqCst);
        self.sleepers.fetch_sub(1, Ordering::SeqCst);
    }

    // Returns whether anyone sleeps, or is about to.
    pub(crate) fn has_sleeper(&self) -> bool {
        self.sleepers.load(Ordering::SeqCst) > 0
    }

    // Wakes all who sleep.
    pub(crate) fn ring(&self) {
        self.rings.fetch_add(1, Ordering::SeqCst);
        self.rings.wake_all();
    }
}
