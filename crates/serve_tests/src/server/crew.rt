// The workers of a pool, and the one who waits for what they have done.
use crossbeam_channel::{Sender, bounded};
use replay_server::{Crew, Said};
use std::alloc::Global;
use std::marker::Sync;
use std::sync::Wait;
use std::sync::atomic::{AtomicU64, Ordering};
use std::thread::{self, Threads, join_mut};

// How often a worker gives way before it begins late, and how often it looks whether the wait for it has ended.
const EARLY_LOOKS: u32 = 10_000;

const LOOKS: u32 = 10_000_000;

// Whether what one of two workers has done is taken while the other one may have work, and nothing before that.
fn takes_what_is_done<R: Wait>(rt: &R, alloc: Global) -> Option<bool> {
    let crew = Crew::new(2);
    let (to, back) = bounded::<Said<u32>, Global>(alloc, 4).ok()?;
    crew.begin(rt, &to);
    crew.begin(rt, &to);
    let is_nothing = crew.next_done(rt, &back, 1).is_none();
    to.send(rt, Said::Done(7)).ok()?;
    Some(is_nothing && crew.next_done(rt, &back, 1) == Some(7))
}

#[test]
fn what_is_done_is_taken_without_a_wait(rt: HostRuntime) {
    assert!(rt; takes_what_is_done(&rt, rt.alloc()) == Some(true));
}

// Begins late, and where the wait for it doesn't end, has done something.
fn begin_late<R: Wait>(rt: &R, crew: &Crew, to: &Sender<Said<u32>>, has_ended: &AtomicU64) {
    for _ in 0..EARLY_LOOKS {
        thread::yield_now();
    }
    crew.begin(rt, to);
    for _ in 0..LOOKS {
        if has_ended.load(Ordering::SeqCst) > 0 {
            return;
        }
        thread::yield_now();
    }
    let _ = to.send(rt, Said::Done(7));
}

// Whether the wait for the work of one worker ends when a second one begins.
fn is_woken_by_a_late_one<R: Threads + Wait + Sync>(rt: &R, alloc: Global) -> Option<bool> {
    let crew = Crew::new(2);
    let (to, back) = bounded::<Said<u32>, Global>(alloc, 4).ok()?;
    let has_ended = AtomicU64::new(0);
    crew.begin(rt, &to);
    let (done, ()) = join_mut(
        rt,
        &mut || -> Option<u32> {
            let done = crew.next_done(rt, &back, 1);
            has_ended.store(1, Ordering::SeqCst);
            done
        },
        &mut || begin_late(rt, &crew, &to, &has_ended),
    );
    Some(done.is_none())
}

#[test]
fn a_late_worker_ends_the_wait_for_the_others(rt: HostRuntime) {
    assert!(rt; is_woken_by_a_late_one(&rt, rt.alloc()) == Some(true));
}
