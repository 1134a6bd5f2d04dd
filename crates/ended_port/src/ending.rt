// How long a connection waits for its peer, before and after its user has asked it to end.
ghost use Rattle.std.specs.Prelude.{◌≤◌, ◌<◌, length, IfOk};

use crate::watch::{EndWatch, Waking, Wanted, wait_for};
use mm_base::{EndError, GIVING_WAITS, TcpLink};
use std::os::fd::RawFd;
use std::time::{Clock, Duration, Instant};

// For how many milliseconds a peer that says nothing is waited for, once the user has asked for the end.
const LAST_SILENCE: u64 = 2_000;

// For how many milliseconds a connection goes on in all, once it has seen the end.
const LAST_WHOLE: u64 = 5_000;

// In how many waits in a row a peer may take nothing, once the user has asked for the end. Of the programs' limits each
// is a second.
const LAST_GIVING_WAITS: u32 = 2;

// How many nanoseconds a millisecond has.
const NANOS: u128 = 1_000_000;

// How often something was seen of the watched descriptor in one wait. No run meets it.
const TRIES: u64 = u64::MAX;

// What became of a wait for something that the peer says.
#[derive(Clone, Copy, PartialEq, Eq)]
pub(crate) enum Wait {
    Ready,
    // The limit of the connection is over.
    Late,
    // The user has asked for the end, and the peer was waited for long enough.
    Over,
}

// What a connection waits by.
#[derive(Drop)]
pub(crate) struct Ending<'a, K: Clock + Copy + Drop> {
    pub clock: K,
    pub descriptor: RawFd,
    pub watch: &'a EndWatch,
    // When the end was seen here first.
    pub seen: Option<Instant>,
}

// Whole milliseconds, as a wait takes them: what is begun counts.
fn in_milliseconds(limit: Duration) -> i32 {
    i32::try_from(limit.as_nanos().div_ceil(NANOS)).unwrap_or(i32::MAX)
}

impl<'a, K: Clock + Copy + Drop> Ending<'a, K> {
    /// Whether the user can ask for the end.
    pub fn can_end(&self) -> bool {
        self.watch.can_end()
    }

    // How many milliseconds have passed since the end was seen here first.
    fn since_end(&mut self) -> u64 {
        if self.seen.is_none() {
            self.seen = Instant::now(&self.clock).ok();
        }
        match &self.seen {
            Some(seen) => match seen.elapsed(&self.clock) {
                Ok(elapsed) => u64::try_from(elapsed.as_millis()).unwrap_or(u64::MAX),
                Err(_) => u64::MAX,
            },
            None => u64::MAX,
        }
    }

    // How many milliseconds are left of a limit, negative for none. Where the clock has no time to give, all are.
    fn left_of(&self, limit: Option<Duration>, begun: &Option<Instant>) -> i32 {
        let Some(limit) = limit else {
            return -1;
        };
        let passed = match begun {
            Some(begun) => begun.elapsed(&self.clock).unwrap_or(Duration::ZERO),
            None => Duration::ZERO,
        };
        in_milliseconds(limit.saturating_sub(passed))
    }

    // Waits until the peer says something, once the user has asked for the end.
    fn wait_last(&mut self) -> Wait {
        let left = LAST_WHOLE.saturating_sub(self.since_end());
        let limit = i32::try_from(left.min(LAST_SILENCE)).unwrap_or(0);
        if left != 0 && wait_for(self.descriptor, Wanted::Input, limit) {
            Wait::Ready
        } else {
            Wait::Over
        }
    }

    // Waits until the peer says something, within a limit, until the user has asked for the end. None: that is so.
    fn wait_open(&self, limit: Option<Duration>) -> Option<Wait> {
        let begun = Instant::now(&self.clock).ok();
        for _ in 0..TRIES {
            if self.watch.is_at_end() {
                return None;
            }
            let left = self.left_of(limit, &begun);
            match self.watch.wait_beside(self.descriptor, Wanted::Input, left) {
                Waking::Ready => return Some(Wait::Ready),
                Waking::Late => return Some(Wait::Late),
                Waking::Watched => {}
            }
        }
        Some(Wait::Late)
    }

    /// Waits until the peer says something, within a limit. Where the end can't come there is no wait.
    pub fn wait(&mut self, limit: Option<Duration>) -> Wait {
        if !self.can_end() {
            return Wait::Ready;
        }
        match self.wait_open(limit) {
            Some(wait) => wait,
            None => self.wait_last(),
        }
    }

    // Whether a peer that took nothing in the last `waits` waits, once the user has asked for the end, is waited for.
    // When it has gone on long enough it is given only what there is room for at once.
    fn may_give(&mut self, waits: u32) -> bool {
        if self.since_end() < LAST_WHOLE {
            waits < LAST_GIVING_WAITS
        } else {
            wait_for(self.descriptor, Wanted::Room, 0)
        }
    }

    /// Gives bytes of the front of a piece, and waits for room as the link does: in short waits, after each of which
    /// the end is looked for.
    pub fn give(&mut self, link: &mut TcpLink<K>, piece: &[u8]) -> Result<usize, EndError>
        ensures within { IfOk result (λ n. n ≤ length piece.now) }
        ensures some { IfOk result (λ n. 0 < length piece.now → 0 < n) }
    {
        let mut last_waits = 0u32;
        'waits: for _ in 0..GIVING_WAITS {
            if self.watch.is_at_end() {
                if !self.may_give(last_waits) {
                    return Err(EndError::Failed);
                }
                last_waits = last_waits.saturating_add(1);
            }
            if let Some(count) = link.write_in_one_wait(piece)? {
                return Ok(count);
            }
        }
        Err(EndError::Failed)
    }
}
