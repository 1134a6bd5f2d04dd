// The workers of a pool: how many have begun, and what they say.
ghost use Rattle.std.specs.Prelude.{◌≡◌, ◌≤◌, min, max};

use crossbeam_channel::{Receiver, Sender};
use std::sync::Wait;
use std::sync::atomic::{AtomicU64, Ordering};
use std::time::Duration;

// How often the one who waits looks whether the workers have begun.
const LOOKS: u32 = 1_000;

// How many milliseconds lie between two looks.
const REST_MILLISECONDS: u64 = 1;

/// What a worker says to the one who gives it work.
#[derive(Drop)]
pub enum Said<T> {
    /// It has begun.
    Begun,
    /// This is done.
    Done(T),
}

/// The workers of a pool, each in a thread: how many there are to be, and how many have begun.
///
/// No clause says how many have begun, since other threads raise that count meanwhile.
#[derive(Drop)]
pub struct Crew {
    most: u32,
    begun: AtomicU64,
}

// How much work so many workers may have at a time, of `most` in all: one piece each, and at least one in all.
fn places_of(begun: u64, most: u32) -> u32
    ensures { result ≡ max 1 (min begun most) }
{
    let working = begun.min(u64::from(most));
    (working as u32).max(1)
}

impl Crew {
    /// A crew of `most` workers, none of which has begun.
    pub fn new(most: u32) -> Crew
        ensures { result.most ≡ most }
    {
        Crew {
            most,
            begun: AtomicU64::new(0),
        }
    }

    /// Returns how many workers there are to be.
    pub fn most(&self) -> u32
        ensures { result ≡ self.now.most }
    {
        self.most
    }

    /// Counts a worker that begins, and says so to the one who waits for work to be done. There has to be room for what
    /// every worker says here, beside what each may have done.
    pub fn begin<T: Drop, R: Wait>(&self, rt: &R, to: &Sender<Said<T>>) {
        self.begun.fetch_add(1, Ordering::SeqCst);
        let _ = to.send(rt, Said::Begun);
    }

    /// Waits until all workers have begun, but at most about a second. Returns whether any has begun. Where no thread
    /// can be made, none has.
    pub fn has_begun<R: Wait>(&self, rt: &R) -> bool {
        for _ in 0..LOOKS {
            let begun = self.begun.load(Ordering::SeqCst);
            if begun >= u64::from(self.most) {
                return true;
            }
            self.begun
                .park_timeout(rt, begun as u32, Duration::from_millis(REST_MILLISECONDS));
        }
        self.begun.load(Ordering::SeqCst) > 0
    }

    /// Returns how much work may be with the workers at a time: one piece for each that has begun, and at least one.
    pub fn at_a_time(&self) -> u32
        ensures some { 1 ≤ result }
        ensures most { result ≤ max 1 self.now.most }
    {
        places_of(self.begun.load(Ordering::SeqCst), self.most)
    }

    /// Returns what is done next, or `None` where nothing is. While the workers have as much work as they may, and
    /// `out` is how much, it waits until one has done something or one more has begun.
    pub fn next_done<T: Drop, R: Wait>(
        &self,
        rt: &R,
        back: &Receiver<Said<T>>,
        out: u32,
    ) -> Option<T> {
        for _ in rt.forever() {
            let said = if out < self.at_a_time() {
                back.try_recv(rt).ok()
            } else {
                back.recv(rt).ok()
            };
            match said {
                Some(Said::Done(done)) => return Some(done),
                Some(Said::Begun) => {}
                None => return None,
            }
        }
        unreachable!()
    }

    /// Waits until a worker has done something, and returns that. `None`: nobody is left who works.
    pub fn wait_done<T: Drop, R: Wait>(&self, rt: &R, back: &Receiver<Said<T>>) -> Option<T> {
        for _ in rt.forever() {
            match back.recv(rt).ok() {
                Some(Said::Done(done)) => return Some(done),
                Some(Said::Begun) => {}
                None => return None,
            }
        }
        unreachable!()
    }
}
