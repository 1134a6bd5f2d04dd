// Runs over threads some of whose turns are held.
use super::{leaves_by, numbered};
use crate::case::Case;
use mm_base::{Pace, Role};
use std::alloc::{AllocError, Global};
use std::fmt::Write;
use std::marker::Sync;
use std::process::Abort;
use std::sync::Wait;
use std::sync::atomic::{AtomicU64, Ordering};
use std::thread::{Threads, yield_now};
use text_base::OutOfMemory;

// How often a turn that is held gives way before the test gives up.
const LIMIT: u32 = 10_000_000;

// How often a turn gives way further, to see that another role stays where it is.
const FURTHER: u32 = 10_000;

const UP_FEEDER: Role = Role::Feeder { up: true, shell: 1 };

const UP_DRAIN: Role = Role::Drain { up: true, shell: 1 };

const DOWN_FEEDER: Role = Role::Feeder {
    up: false,
    shell: 1,
};

const DOWN_DRAIN: Role = Role::Drain {
    up: false,
    shell: 1,
};

pub(super) const UP_COLLECTOR: Role = Role::Collector { up: true };

// A turn of a role, which waits until another role has come to a count, and looks whether it then stays there.
#[derive(Clone, Copy)]
pub(super) struct Hold {
    pub role: Role,
    pub count: u64,
    pub other: Role,
    pub goal: u64,
    pub stays: bool,
}

// The count of the last turn of each role in a nest of one shell. How often a limit was met, and how often a role went
// on that was to stay.
#[derive(Drop)]
pub(super) struct Turns {
    source: AtomicU64,
    up_feeder: AtomicU64,
    up_drain: AtomicU64,
    up_collector: AtomicU64,
    down_feeder: AtomicU64,
    down_drain: AtomicU64,
    down_collector: AtomicU64,
    limits: AtomicU64,
    early: AtomicU64,
}

impl Turns {
    pub fn new() -> Self {
        Turns {
            source: AtomicU64::new(0),
            up_feeder: AtomicU64::new(0),
            up_drain: AtomicU64::new(0),
            up_collector: AtomicU64::new(0),
            down_feeder: AtomicU64::new(0),
            down_drain: AtomicU64::new(0),
            down_collector: AtomicU64::new(0),
            limits: AtomicU64::new(0),
            early: AtomicU64::new(0),
        }
    }

    fn counter(&self, role: Role) -> &AtomicU64 {
        match role {
            Role::Source | Role::Connection { .. } => &self.source,
            Role::Feeder { up: true, .. } => &self.up_feeder,
            Role::Feeder { .. } => &self.down_feeder,
            Role::Drain { up: true, .. } => &self.up_drain,
            Role::Drain { .. } => &self.down_drain,
            Role::Collector { up: true } => &self.up_collector,
            Role::Collector { .. } => &self.down_collector,
        }
    }

    // Where a role is.
    pub fn count(&self, role: Role) -> u64 {
        self.counter(role).load(Ordering::SeqCst)
    }

    // Whether a role comes to a count before the limit.
    fn comes_to(&self, role: Role, goal: u64) -> bool {
        for _ in 0..LIMIT {
            if self.count(role) >= goal {
                return true;
            }
            yield_now();
        }
        false
    }

    // Whether a role is at no greater count after it had some time.
    fn stays_at(&self, role: Role, goal: u64) -> bool {
        for _ in 0..FURTHER {
            yield_now();
        }
        self.count(role) <= goal
    }

    // Holds a turn.
    fn hold(&self, hold: &Hold) {
        if !self.comes_to(hold.other, hold.goal) {
            self.limits.fetch_add(1, Ordering::SeqCst);
        }
        if hold.stays && !self.stays_at(hold.other, hold.goal) {
            self.early.fetch_add(1, Ordering::SeqCst);
        }
    }

    // Whether no limit was met and no role went on that was to stay.
    pub fn were_kept(&self) -> bool {
        self.limits.load(Ordering::SeqCst) == 0 && self.early.load(Ordering::SeqCst) == 0
    }
}

// A pace that holds these turns.
#[derive(Drop)]
pub(super) struct Held<'a> {
    pub holds: &'a [Hold],
    pub turns: Turns,
}

impl Pace for Held<'_> {
    fn turn<R: Wait>(&self, _rt: &R, role: Role, count: u64) {
        self.turns.counter(role).store(count, Ordering::SeqCst);
        for hold in self.holds {
            if hold.role == role && hold.count == count {
                self.turns.hold(hold);
            }
        }
    }
}

// Whether a run leaves what it is to leave while these turns are held.
fn is_kept<R: Threads + Wait + Sync>(
    rt: &R,
    alloc: Global,
    case: &Case<'_>,
    holds: &[Hold],
) -> Result<bool, OutOfMemory> {
    let pace = Held {
        holds,
        turns: Turns::new(),
    };
    let is_left = leaves_by(rt, alloc, case, &pace)?;
    Ok(is_left && pace.turns.were_kept())
}

// A run of this schedule, and a trace of one line, leaves these fates while these turns are held.
fn keeps<'a, R: Abort + Threads + Wait + Sync>(
    rt: &R,
    alloc: Global,
    words: &'static str,
    schedule: &'a str,
    holds: &[Hold],
    fates: &'a str,
) {
    let case = Case {
        words,
        files: &[("t", "5\n"), ("s", schedule)],
        fails: (0, 0),
        status: 0,
        printed: "",
        left: &[("f", fates)],
    };
    assert!(rt; is_kept(rt, alloc, &case, holds).expect(rt, "memory"));
}

// The first turn of a role waits until another has begun.
const fn begins_with(role: Role, other: Role) -> Hold {
    Hold {
        role,
        count: 1,
        other,
        goal: 1,
        stays: false,
    }
}

static WORKERS: [Role; 4] = [UP_FEEDER, UP_DRAIN, DOWN_FEEDER, DOWN_DRAIN];

fn push_beginnings(holds: &mut Vec<Hold>, role: Role) -> Result<(), OutOfMemory> {
    for other in &WORKERS {
        holds.push(begins_with(role, *other))?;
    }
    Ok(())
}

// The first turn of each worker waits until all have begun.
fn beginnings(alloc: Global) -> Result<Vec<Hold>, OutOfMemory> {
    let mut holds = Vec::new(alloc);
    for role in &WORKERS {
        push_beginnings(&mut holds, *role)?;
    }
    Ok(holds)
}

#[test]
fn four_workers_run_beside_each_other(rt: HostRuntime) {
    let alloc = rt.alloc();
    let holds = beginnings(alloc).expect(&rt, "memory");
    let schedule = "5 up 100\n6 up 100\n";
    let fates = "1 up departed 25\n2 up departed 26\n";
    let words = "--schedule s --out f --until 100 -- mm-delay 20";
    keeps(&rt, alloc, words, schedule, holds.as_slice(), fates);
}

// The source waits at its third line until the up collector has a packet.
static THIRD_LINE: [Hold; 1] = [Hold {
    role: Role::Source,
    count: 3,
    other: UP_COLLECTOR,
    goal: 1,
    stays: false,
}];

#[test]
fn a_mark_lets_a_link_go_on(rt: HostRuntime) {
    let words = "--schedule s --out f --until 20 -- mm-link t t";
    let schedule = "0 up 100\n10 down 100\n15 down 100\n";
    let fates = "1 up departed 5\n2 down departed 15\n3 down departed 20\n";
    keeps(&rt, rt.alloc(), words, schedule, &THIRD_LINE, fates);
}

// The up feeder begins once the source has begun the line after those that the channel and its own hands hold; the up
// drain once all was fed, and the up collector once the channel behind the drain is full.
static FULL_CHANNELS: [Hold; 3] = [
    Hold {
        role: UP_FEEDER,
        count: 1,
        other: Role::Source,
        goal: 66,
        stays: true,
    },
    Hold {
        role: UP_DRAIN,
        count: 1,
        other: UP_FEEDER,
        goal: 1_001,
        stays: false,
    },
    Hold {
        role: UP_COLLECTOR,
        count: 1,
        other: UP_DRAIN,
        goal: 66,
        stays: true,
    },
];

// The fates of a thousand packets, one a millisecond from 1 on, past a delay of 20.
fn thousand_fates(alloc: Global) -> Result<String, AllocError> {
    let mut fates = String::new(alloc);
    for moment in 1..1_001u32 {
        let departed = moment + 20;
        writeln!(fates, "{moment} up departed {departed}")?;
    }
    Ok(fates)
}

#[test]
fn channels_hold_sixty_four_items(rt: HostRuntime) {
    let alloc = rt.alloc();
    let lines = numbered(alloc, 1_000, " up 100\n").expect(&rt, "memory");
    let fates = thousand_fates(alloc).expect(&rt, "memory");
    keeps(
        &rt,
        alloc,
        "--schedule s --out f --until 2000 -- mm-delay 20",
        lines.as_str(),
        &FULL_CHANNELS,
        fates.as_str(),
    );
}
