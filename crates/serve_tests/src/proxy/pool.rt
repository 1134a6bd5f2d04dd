// Recordings until ended: clients that wait for each other.
ghost use Rattle.std.specs.Prelude.{◌==◌, None, false, IfOk, IsErrOf};
ghost use Rattle.mm_base.specs.Link.{IsFresh};
ghost use Rattle.mm_base.specs.MemLink.{mem_link_view};

use super::status_of;
use super::watched::{WatchedNet, length_of};
use crate::links::{REQUEST, RESPONSE};
use mm_base::{EndError, Link, Listened, MemLink, Port};
use std::alloc::Global;
use std::marker::Sync;
use std::sync::Wait;
use std::sync::atomic::{AtomicU64, Ordering};
use std::thread::{self, Threads};
use test_outside::TestOutside;
use text_base::Bytes;

// How many clients come.
const CLIENTS: u64 = 7;

// What a client waits for before it asks: that this many others have ended, that this many were there at a time, and
// no more than this many looks.
#[derive(Clone, Copy)]
struct Goal {
    ended: u64,
    crowd: u64,
    looks: u32,
}

const NO_GOAL: Goal = Goal {
    ended: 0,
    crowd: 0,
    looks: 1,
};

// How many clients are accepted and not finished, the most that were at a time, how many have ended their output, and
// how many waited in vain.
#[derive(Drop)]
pub struct Hall {
    now: AtomicU64,
    most: AtomicU64,
    ended: AtomicU64,
    in_vain: AtomicU64,
}

impl Hall {
    fn new() -> Self {
        Hall {
            now: AtomicU64::new(0),
            most: AtomicU64::new(0),
            ended: AtomicU64::new(0),
            in_vain: AtomicU64::new(0),
        }
    }

    fn enter(&self) {
        let now = self.now.fetch_add(1, Ordering::SeqCst).saturating_add(1);
        self.most.fetch_max(now, Ordering::SeqCst);
    }

    fn leave(&self) {
        self.now.fetch_sub(1, Ordering::SeqCst);
    }

    fn has_reached(&self, goal: &Goal) -> bool {
        self.ended.load(Ordering::SeqCst) >= goal.ended
            && self.most.load(Ordering::SeqCst) >= goal.crowd
    }

    fn wait_for(&self, goal: &Goal) {
        for _ in 0..goal.looks {
            if self.has_reached(goal) {
                return;
            }
            thread::yield_now();
        }
        self.in_vain.fetch_add(1, Ordering::SeqCst);
    }
}

// A client that asks once its goal is reached.
#[derive(Drop)]
pub struct Guest<'a> {
    link: MemLink,
    hall: &'a Hall,
    goal: Option<Goal>,
}

impl Link for Guest<'_> {
    ghost view = { λ g. mem_link_view g.link };

    fn read(&mut self, buf: &mut [u8]) -> Result<usize, EndError> {
        if let Some(goal) = self.goal.take() {
            self.hall.wait_for(&goal);
        }
        self.link.read(buf)
    }

    fn write(&mut self, piece: &[u8]) -> Result<usize, EndError> {
        self.link.write(piece)
    }

    fn close_output(&mut self) {
        self.hall.ended.fetch_add(1, Ordering::SeqCst);
        self.link.close_output();
    }
}

// A port of such clients: what the first waits for, and what the others do.
#[derive(Drop)]
pub struct Door<'a> {
    alloc: Global,
    hall: &'a Hall,
    first: Goal,
    others: Goal,
    given: u64,
    listened: Listened,
}

impl<'a> Door<'a> {
    fn new(alloc: Global, hall: &'a Hall, first: Goal, others: Goal) -> Self {
        Door {
            alloc,
            hall,
            first,
            others,
            given: 0,
            listened: Listened::never(),
        }
    }

    // The next client. No memory is all that it may lack.
    fn guest(&self) -> Result<Guest<'a>, EndError>
        ensures fresh { IfOk result (λ g. IsFresh (mem_link_view g.link)) }
        ensures only { ¬ (IsErrOf result EndError.Failed) }
    {
        let input = Bytes::from_slice(self.alloc, REQUEST.as_bytes())?;
        let goal = if self.given == 0 {
            self.first
        } else {
            self.others
        };
        Ok(Guest {
            link: MemLink::new(self.alloc, input, 65_536, Vec::new(self.alloc)),
            hall: self.hall,
            goal: Some(goal),
        })
    }
}

impl<'a> Port for Door<'a> {
    type Conn = Guest<'a>;

    ghost view = { λ p. record {
      listened = p.listened;
      finished = None;
      accepted = p.given;
      drained = p.given == 7;
      faults = 0;
      never_fails = false;
    } };

    fn listen(&mut self, number: u16) -> Result<(), EndError> {
        self.listened.listen(number);
        Ok(())
    }

    fn accept(&mut self) -> Result<Option<Guest<'a>>, EndError> {
        if self.given == CLIENTS {
            return Ok(None);
        }
        if self.given > CLIENTS {
            return Err(EndError::OutOfMemory);
        }
        let guest = self.guest()?;
        self.hall.enter();
        self.given += 1;
        Ok(Some(guest))
    }

    fn finish(&mut self, _conn: Guest<'a>) -> Result<(), EndError> {
        self.hall.leave();
        Ok(())
    }
}

// Whether all clients are recorded with these words.
fn records_all<R: Threads + Wait + Sync>(
    rt: &R,
    alloc: Global,
    words: &str,
    door: &mut Door<'_>,
) -> bool {
    let Ok(mut outside) = TestOutside::new(alloc, &[], &[], &[]) else {
        return false;
    };
    let mut dialer = WatchedNet::new(alloc, RESPONSE, REQUEST, 0);
    status_of(rt, alloc, words, &mut outside, door, &mut dialer) == Ok(0)
        && outside.is_left("closed 7 bad 0 broken 0 full 0\n", &[])
        && length_of(&outside, "s") == Some(10 + 7 * 91)
}

// Whether two clients at a time are recorded, six of the seven while the first is silent.
fn records_past_a_silent_one<R: Threads + Wait + Sync>(rt: &R, alloc: Global) -> bool {
    let words = "--port 80 --to 8080 --connections 2 --out s --until-ended";
    let hall = Hall::new();
    let goal = Goal {
        ended: CLIENTS - 1,
        crowd: 0,
        looks: 10_000_000,
    };
    let mut door = Door::new(alloc, &hall, goal, NO_GOAL);
    records_all(rt, alloc, words, &mut door) && hall.in_vain.load(Ordering::SeqCst) == 0
}

#[test]
fn a_silent_client_keeps_no_other_waiting(rt: HostRuntime) {
    assert!(rt; records_past_a_silent_one(&rt, rt.alloc()));
}

// Whether all clients are recorded with these words, and never more at a time than that. Each waits some time for one
// more to be there.
fn records_at_a_time<R: Threads + Wait + Sync>(
    rt: &R,
    alloc: Global,
    words: &str,
    clients: u64,
) -> bool {
    let hall = Hall::new();
    let goal = Goal {
        ended: 0,
        crowd: clients.saturating_add(1),
        looks: 20_000,
    };
    let mut door = Door::new(alloc, &hall, goal, goal);
    records_all(rt, alloc, words, &mut door) && hall.most.load(Ordering::SeqCst) <= clients
}

// Words, and how many clients may be there at a time.
static AT_A_TIME: [(&str, u64); 3] = [
    (
        "--port 80 --to 8080 --connections 1 --out s --until-ended",
        1,
    ),
    (
        "--port 80 --to 8080 --connections 3 --out s --until-ended",
        3,
    ),
    (
        "--port 80 --to 8080 --connections 64 --out s --until-ended",
        7,
    ),
];

#[test]
fn no_more_clients_than_that_are_recorded_at_a_time(rt: HostRuntime) {
    for row in &AT_A_TIME {
        assert!(rt;
            records_at_a_time(&rt, rt.alloc(), row.0, row.1),
            "at {}",
            row.0
        );
    }
}
