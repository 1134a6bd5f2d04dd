// Paces that hold some turns until others have begun.
use super::{Call, Case, agrees_at, case_of, many_of};
use crate::checks::check;
use crate::waiting::{give_way, is_at, reached};
use mm_base::{Pace, Role};
use std::alloc::Global;
use std::marker::Sync;
use std::process::Abort;
use std::sync::Wait;
use std::sync::atomic::{AtomicU64, Ordering};
use std::thread::Threads;

// The first turns of the four workers of one shell wait until all four have begun.
#[derive(Drop)]
struct Together {
    begun: AtomicU64,
    limits: AtomicU64,
}

impl Pace for Together {
    fn turn<R: Wait>(&self, _rt: &R, role: Role, count: u64) {
        if let Role::Feeder { .. } | Role::Drain { .. } = role
            && count == 1
        {
            self.begun.fetch_add(1, Ordering::SeqCst);
            if !reached(&self.begun, 4) {
                self.limits.fetch_add(1, Ordering::SeqCst);
            }
        }
    }
}

const TWO_ROWS: Case<'static> = Case {
    nest: "mm-delay 20",
    trace: b"1\n",
    horizon: 100,
    schedule: b"5 up 100\n6 up 100\n",
    fates: b"1 up departed 25\n2 up departed 26\n",
};

// Whether all four are there before one goes on.
fn runs_together<R: Threads + Wait + Abort + Sync>(rt: &R, alloc: Global, call: Call) -> bool {
    let pace = Together {
        begun: AtomicU64::new(0),
        limits: AtomicU64::new(0),
    };
    agrees_at(rt, alloc, call, &TWO_ROWS, &pace) && is_at(&pace.begun, 4) && is_at(&pace.limits, 0)
}

#[test]
fn four_workers_run_beside_each_other(rt: HostRuntime) {
    check(
        &rt,
        runs_together(&rt, rt.alloc(), Call::Threads),
        "four from memory",
    );
    check(
        &rt,
        runs_together(&rt, rt.alloc(), Call::Stream),
        "four from a file",
    );
}

// The source waits at its third row until the up collector has a packet.
#[derive(Drop)]
struct HeldSource {
    collected: AtomicU64,
    limits: AtomicU64,
}

impl Pace for HeldSource {
    fn turn<R: Wait>(&self, _rt: &R, role: Role, count: u64) {
        match role {
            Role::Source => {
                if count == 3 && !reached(&self.collected, 1) {
                    self.limits.fetch_add(1, Ordering::SeqCst);
                }
            }
            Role::Collector { up: true } => self.collected.store(count, Ordering::SeqCst),
            _ => {}
        }
    }
}

const ONE_UP_TWO_DOWN: Case<'static> = Case {
    nest: "mm-link t t",
    trace: b"5\n",
    horizon: 20,
    schedule: b"0 up 100\n10 down 100\n15 down 100\n",
    fates: b"1 up departed 5\n2 down departed 15\n3 down departed 20\n",
};

// Whether a packet is collected while the source is held.
fn goes_on_by_marks<R: Threads + Wait + Abort + Sync>(rt: &R, alloc: Global, call: Call) -> bool {
    let pace = HeldSource {
        collected: AtomicU64::new(0),
        limits: AtomicU64::new(0),
    };
    agrees_at(rt, alloc, call, &ONE_UP_TWO_DOWN, &pace) && is_at(&pace.limits, 0)
}

#[test]
fn a_mark_lets_a_link_go_on(rt: HostRuntime) {
    check(
        &rt,
        goes_on_by_marks(&rt, rt.alloc(), Call::Threads),
        "from memory",
    );
    check(
        &rt,
        goes_on_by_marks(&rt, rt.alloc(), Call::Stream),
        "from a file",
    );
}

// The up feeder begins once the source has begun the row after those that the channel and its own hands hold; the up
// drain once all was fed, and the up collector once the channel behind the drain is full. Counts are the last turns.
#[derive(Drop)]
struct FullChannels {
    source: AtomicU64,
    feeder: AtomicU64,
    drain: AtomicU64,
    // The limits that were met, and the turns that began though the channel before them was full.
    limits: AtomicU64,
    early: AtomicU64,
}

// One row, or take, more than a channel holds beside the one that is in hand.
const ONE_TOO_MANY: u64 = 66;

impl FullChannels {
    // Waits until a count has come to where its channel is full, and looks that it stays there.
    fn wait_full(&self, count: &AtomicU64) {
        if !reached(count, ONE_TOO_MANY) {
            self.limits.fetch_add(1, Ordering::SeqCst);
        }
        give_way();
        if count.load(Ordering::SeqCst) > ONE_TOO_MANY {
            self.early.fetch_add(1, Ordering::SeqCst);
        }
    }

    // A turn of the up feeder.
    fn feed(&self, count: u64) {
        if count == 1 {
            self.wait_full(&self.source);
        }
        self.feeder.store(count, Ordering::SeqCst);
    }

    // A turn of the up drain.
    fn take(&self, count: u64) {
        if count == 1 && !reached(&self.feeder, 1_001) {
            self.limits.fetch_add(1, Ordering::SeqCst);
        }
        self.drain.store(count, Ordering::SeqCst);
    }

    // A turn of the up collector.
    fn collect(&self, count: u64) {
        if count == 1 {
            self.wait_full(&self.drain);
        }
    }
}

impl Pace for FullChannels {
    fn turn<R: Wait>(&self, _rt: &R, role: Role, count: u64) {
        match role {
            Role::Source => self.source.store(count, Ordering::SeqCst),
            Role::Feeder { up: true, .. } => self.feed(count),
            Role::Drain { up: true, .. } => self.take(count),
            Role::Collector { up: true } => self.collect(count),
            _ => {}
        }
    }
}

// Whether a thousand rows over a delay, at this pace, have their fates.
fn agrees_with_thousand<Q: Pace + Sync, R: Threads + Wait + Abort + Sync>(
    rt: &R,
    alloc: Global,
    call: Call,
    pace: &Q,
) -> bool {
    let many = many_of(rt, alloc, 1_000);
    agrees_at(rt, alloc, call, &case_of(&many, 2_000), pace)
}

// Whether each channel is filled, and nobody goes on past that.
fn fills_channels<R: Threads + Wait + Abort + Sync>(rt: &R, alloc: Global, call: Call) -> bool {
    let pace = FullChannels {
        source: AtomicU64::new(0),
        feeder: AtomicU64::new(0),
        drain: AtomicU64::new(0),
        limits: AtomicU64::new(0),
        early: AtomicU64::new(0),
    };
    agrees_with_thousand(rt, alloc, call, &pace) && is_at(&pace.limits, 0) && is_at(&pace.early, 0)
}

#[test]
fn channels_hold_sixty_four_items(rt: HostRuntime) {
    check(
        &rt,
        fills_channels(&rt, rt.alloc(), Call::Threads),
        "from memory",
    );
    check(
        &rt,
        fills_channels(&rt, rt.alloc(), Call::Stream),
        "from a file",
    );
}

// Notes which shells' feeders have had a turn in a nest of two, and counts the turns of a second shell that come before
// those of the first one: up, shell 2 is the first. No shell of the nest sends anything before it was fed.
#[derive(Drop)]
struct PassingOrder {
    first_up: AtomicU64,
    first_down: AtomicU64,
    seconds: AtomicU64,
    early: AtomicU64,
}

impl PassingOrder {
    // A packet comes to the second shell of a direction once its first one was fed.
    fn second(&self, first: &AtomicU64) {
        self.seconds.fetch_add(1, Ordering::SeqCst);
        if first.load(Ordering::SeqCst) == 0 {
            self.early.fetch_add(1, Ordering::SeqCst);
        }
    }
}

impl Pace for PassingOrder {
    fn turn<R: Wait>(&self, _rt: &R, role: Role, count: u64) {
        match role {
            Role::Feeder { up: true, shell: 2 } => self.first_up.store(count, Ordering::SeqCst),
            Role::Feeder { up: true, shell: 1 } => self.second(&self.first_up),
            Role::Feeder {
                up: false,
                shell: 1,
            } => self.first_down.store(count, Ordering::SeqCst),
            Role::Feeder {
                up: false,
                shell: 2,
            } => self.second(&self.first_down),
            _ => {}
        }
    }
}

const TWO_SHELLS: Case<'static> = Case {
    nest: "mm-loss uplink 0 mm-loss uplink 0",
    trace: b"1\n",
    horizon: 9,
    schedule: b"5 up 100\n5 down 100\n",
    fates: b"1 up departed 5\n2 down departed 5\n",
};

// Whether each second shell is fed a packet, perhaps marks, and the end, and none before the first one.
fn has_numbers<R: Threads + Wait + Abort + Sync>(rt: &R, alloc: Global, call: Call) -> bool {
    let pace = PassingOrder {
        first_up: AtomicU64::new(0),
        first_down: AtomicU64::new(0),
        seconds: AtomicU64::new(0),
        early: AtomicU64::new(0),
    };
    agrees_at(rt, alloc, call, &TWO_SHELLS, &pace)
        && pace.seconds.load(Ordering::SeqCst) >= 4
        && is_at(&pace.early, 0)
}

#[test]
fn shells_have_their_numbers(rt: HostRuntime) {
    check(
        &rt,
        has_numbers(&rt, rt.alloc(), Call::Threads),
        "from memory",
    );
    check(
        &rt,
        has_numbers(&rt, rt.alloc(), Call::Stream),
        "from a file",
    );
}

// The source waits at its second row until the up drain has had a turn, gives way for long, and notes the drain's last
// turn.
#[derive(Drop)]
struct IdleDrain {
    takes: AtomicU64,
    idle: AtomicU64,
    limits: AtomicU64,
}

impl Pace for IdleDrain {
    fn turn<R: Wait>(&self, _rt: &R, role: Role, count: u64) {
        match role {
            Role::Source if count == 2 => {
                if !reached(&self.takes, 1) {
                    self.limits.fetch_add(1, Ordering::SeqCst);
                }
                give_way();
                self.idle
                    .store(self.takes.load(Ordering::SeqCst), Ordering::SeqCst);
            }
            Role::Drain { up: true, .. } => self.takes.store(count, Ordering::SeqCst),
            _ => {}
        }
    }
}

// The most takes of a drain of which little was fed: of nothing, of a packet, and some that found nothing.
const FEW_TAKES: u64 = 10;

fn drain_rests<R: Threads + Wait + Abort + Sync>(rt: &R, alloc: Global, call: Call) {
    let pace = IdleDrain {
        takes: AtomicU64::new(0),
        idle: AtomicU64::new(0),
        limits: AtomicU64::new(0),
    };
    check(
        rt,
        agrees_at(rt, alloc, call, &TWO_ROWS, &pace),
        "the fates",
    );
    let idle = pace.idle.load(Ordering::SeqCst);
    check(rt, 1 <= idle && idle <= FEW_TAKES, "few takes");
    check(rt, is_at(&pace.limits, 0), "no limit met");
}

#[test]
fn a_drain_rests_while_nothing_is_fed(rt: HostRuntime) {
    drain_rests(&rt, rt.alloc(), Call::Threads);
    drain_rests(&rt, rt.alloc(), Call::Stream);
}

// Notes the last turns of the up drain and of the source.
#[derive(Drop)]
struct LastTurns {
    takes: AtomicU64,
    rows: AtomicU64,
}

impl Pace for LastTurns {
    fn turn<R: Wait>(&self, _rt: &R, role: Role, count: u64) {
        match role {
            Role::Source => self.rows.store(count, Ordering::SeqCst),
            Role::Drain { up: true, .. } => self.takes.store(count, Ordering::SeqCst),
            _ => {}
        }
    }
}

const NARROW_LINK: Case<'static> = Case {
    nest: "mm-link t t",
    trace: b"# mm-trace 2\n1 1\n",
    horizon: 10_000,
    schedule: b"0 up 1504\n0 up 1504\n0 up 1504\n0 up 1504\n",
    fates: b"1 up departed 1504\n2 up departed 3008\n3 up departed 4512\n4 up departed 6016\n",
};

// How many opportunities a take burns at most, and how many takes burn those of the narrow link.
const BURNT_AT_MOST: u64 = 256;

const BURNING_TAKES: u64 = 10_000 / BURNT_AT_MOST;

// Whether the drain of a link of 10,000 opportunities, each of one byte, takes as often as it has to burn them, beside
// a take for each packet and the end and some that found nothing, and the source has a turn for each row.
fn burns_in_parts<R: Threads + Wait + Abort + Sync>(rt: &R, alloc: Global, call: Call) {
    let pace = LastTurns {
        takes: AtomicU64::new(0),
        rows: AtomicU64::new(0),
    };
    check(
        rt,
        agrees_at(rt, alloc, call, &NARROW_LINK, &pace),
        "the fates",
    );
    let takes = pace.takes.load(Ordering::SeqCst);
    check(
        rt,
        BURNING_TAKES <= takes && takes <= BURNING_TAKES + 2 * FEW_TAKES,
        "as many takes as burn",
    );
    check(rt, is_at(&pace.rows, 4), "a turn for each row");
}

#[test]
fn a_take_burns_256_opportunities(rt: HostRuntime) {
    burns_in_parts(&rt, rt.alloc(), Call::Threads);
    burns_in_parts(&rt, rt.alloc(), Call::Stream);
}
