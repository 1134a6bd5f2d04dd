// Tests one run of eight shells of all kinds in both directions. Its fates and logs are counted by means that know no
// shell's rule.
use crate::checks::check;
use crate::nests::{Coming, Prepared, Trip, plain_run, prepare, stepped_run};
use nest_spec::{Fate, FateRow, NamedLog, RunResult};
use packet_record::{Direction, Row};
use shell_log::{Entry, Log};
use std::alloc::Global;
use std::process::Abort;

// The horizon in milliseconds. The load's last row is at about 15,000 ms.
const HORIZON: u64 = 14_000;

// 1504 bytes every second millisecond on the average, in a lap of 60 ms with a gap.
const TRACE: &[u8] =
    b"# mm-trace 2\n0 700\n4 3000\n9 1504\n10 6000\n22 4000\n23 9000\n35 1504\n50 20000\n60 800\n";

// Delays, losses in both directions, and links with all three queues, each of which has a log in both directions.
const WORDS: &str = "mm-delay 7 \
    mm-loss uplink 0.02 \
    mm-link t t --uplink-log 3u --downlink-log 3d --uplink-queue=droptail --uplink-queue-args=packets=12 \
    --downlink-queue=drophead --downlink-queue-args=bytes=9000 -- \
    mm-delay 40 \
    mm-link t t --uplink-log 5u --downlink-log 5d --uplink-queue=drophead --uplink-queue-args=packets=9 \
    --downlink-queue=droptail --downlink-queue-args=bytes=7000 -- \
    mm-loss downlink 0.03 \
    mm-link t t --uplink-log 7u --downlink-log 7d \
    mm-delay 11";

static TRIP: Trip = Trip {
    nest: WORDS,
    trace: TRACE,
    horizon: HORIZON,
    coming: Coming::Load(9, 10_000),
};

// The sum of all delays, in milliseconds.
const DELAYS: u64 = 58;

// How many packets of a direction had each kind of fate.
#[derive(Clone, Copy)]
struct Counts {
    departed: u64,
    dropped: u64,
    inside: u64,
    unsent: u64,
}

// The counts of no fate.
const NONE: Counts = Counts {
    departed: 0,
    dropped: 0,
    inside: 0,
    unsent: 0,
};

// Returns one more than `count`, where `counts`.
fn more(count: u64, counts: bool) -> u64 {
    if counts {
        count.saturating_add(1)
    } else {
        count
    }
}

// Adds a fate. Drops and packets inside count only at `shells`.
fn with(counts: Counts, fate: Fate, shells: &[u32]) -> Counts {
    match fate {
        Fate::Departed { .. } => Counts {
            departed: more(counts.departed, true),
            ..counts
        },
        Fate::Dropped { shell, .. } => Counts {
            dropped: more(counts.dropped, shells.contains(&shell)),
            ..counts
        },
        Fate::Inside { shell } => Counts {
            inside: more(counts.inside, shells.contains(&shell)),
            ..counts
        },
        Fate::Unsent => Counts {
            unsent: more(counts.unsent, true),
            ..counts
        },
    }
}

// Returns the counts of a direction. Drops and packets inside count only at `shells`.
fn counted(fates: &[FateRow], direction: Direction, shells: &[u32]) -> Counts {
    let mut counts = NONE;
    for row in fates {
        if row.direction == direction {
            counts = with(counts, row.fate, shells);
        }
    }
    counts
}

// Returns whether the fate can be that of the row: unsent exactly after the horizon, departed neither before all delays
// have passed nor before `last`, the last departure of its direction.
fn is_its_own(row: &Row, fate: &FateRow, last: u64) -> bool {
    let late = row.timed.moment > HORIZON;
    let moment = match fate.fate {
        Fate::Departed { moment } => moment,
        Fate::Dropped { moment, .. } => return !late
            && row.timed.moment <= moment
            && moment <= HORIZON,
        Fate::Inside { shell } => return !late && 1 <= shell && shell <= 8,
        Fate::Unsent => return late,
    };
    !late
        && moment >= row.timed.moment.saturating_add(DELAYS)
        && moment >= last
        && moment <= HORIZON
}

// Returns the moment of a departure, else 0.
fn moment_of(fate: Fate) -> u64 {
    match fate {
        Fate::Departed { moment } => moment,
        Fate::Dropped { .. } | Fate::Inside { .. } | Fate::Unsent => 0,
    }
}

// Returns whether the fate has the number and direction of the row.
fn is_of(fate: &FateRow, row: &Row) -> bool {
    row.timed.packet.id == fate.id && row.direction == fate.direction
}

// Returns whether each row of a direction has its own fate, and the departures of the direction are in order.
fn are_their_own(rows: &[Row], fates: &[FateRow], direction: Direction) -> bool {
    let mut last = 0;
    for i in 0..rows.len().min(fates.len()) {
        if !is_of(&fates[i], &rows[i]) {
            return false;
        }
        if rows[i].direction == direction {
            if !is_its_own(&rows[i], &fates[i], last) {
                return false;
            }
            last = moment_of(fates[i].fate).max(last);
        }
    }
    rows.len() == fates.len()
}

// Returns how many rows go in a direction.
fn count_rows(rows: &[Row], direction: Direction) -> u64 {
    let mut count = 0;
    for row in rows {
        count = more(count, row.direction == direction);
    }
    count
}

static ALL: [u32; 8] = [1, 2, 3, 4, 5, 6, 7, 8];

// Returns whether each packet of the direction has departed, was dropped, is inside or is unsent, and there are some of
// each.
fn add_up(rows: &[Row], fates: &[FateRow], direction: Direction) -> bool {
    let counts = counted(fates, direction, &ALL);
    let all = counts
        .departed
        .saturating_add(counts.dropped)
        .saturating_add(counts.inside)
        .saturating_add(counts.unsent);
    let some = counts
        .departed
        .min(counts.dropped)
        .min(counts.inside)
        .min(counts.unsent);
    all == count_rows(rows, direction) && some > 0
}

// Returns how many packets arrived, departed and were dropped, by a log.
fn lines(log: &Log) -> (u64, u64, u64) {
    let (mut arrived, mut departed, mut dropped) = (0, 0, 0u64);
    for entry in log.entries() {
        match *entry {
            Entry::Arrival { .. } => arrived = more(arrived, true),
            Entry::Departure { .. } => departed = more(departed, true),
            Entry::Drop { packets, .. } => dropped = dropped.saturating_add(packets),
            Entry::Opportunity { .. } => {}
        }
    }
    (arrived, departed, dropped)
}

// One direction of a link, and the shells that its packets pass after it.
#[derive(Clone, Copy)]
struct Side {
    number: u32,
    direction: Direction,
    later: &'static [u32],
}

// The directions of the links, in the order of their logs.
static SIDES: [Side; 6] = [
    Side {
        number: 3,
        direction: Direction::Up,
        later: &[1, 2],
    },
    Side {
        number: 3,
        direction: Direction::Down,
        later: &[4, 5, 6, 7, 8],
    },
    Side {
        number: 5,
        direction: Direction::Up,
        later: &[1, 2, 3, 4],
    },
    Side {
        number: 5,
        direction: Direction::Down,
        later: &[6, 7, 8],
    },
    Side {
        number: 7,
        direction: Direction::Up,
        later: &[1, 2, 3, 4, 5, 6],
    },
    Side {
        number: 7,
        direction: Direction::Down,
        later: &[8],
    },
];

// Returns whether the fates agree with the log of a link's direction.
fn is_as_logged(side: Side, log: &Log, fates: &[FateRow]) -> bool {
    let here = counted(fates, side.direction, &[side.number]);
    let later = counted(fates, side.direction, side.later);
    let passed = later
        .departed
        .saturating_add(later.dropped)
        .saturating_add(later.inside);
    let arrived = passed
        .saturating_add(here.dropped)
        .saturating_add(here.inside);
    lines(log) == (arrived, passed, here.dropped)
}

// Returns whether the fates agree with all logs.
fn are_as_logged(logs: &[NamedLog], fates: &[FateRow]) -> bool {
    for i in 0..logs.len().min(SIDES.len()) {
        if !is_as_logged(SIDES[i], &logs[i].log, fates) {
            return false;
        }
    }
    logs.len() == SIDES.len()
}

// Returns whether two logs have the same name and entries.
fn is_same(this: &NamedLog, that: &NamedLog) -> bool {
    this.name.as_str() == that.name.as_str() && this.log.entries() == that.log.entries()
}

// Returns whether both lists have the same logs.
fn are_same(these: &[NamedLog], those: &[NamedLog]) -> bool {
    for i in 0..these.len().min(those.len()) {
        if !is_same(&these[i], &those[i]) {
            return false;
        }
    }
    these.len() == those.len()
}

// Returns whether each row of a direction has its own fate, and there are fates of all kinds.
fn is_whole(rows: &[Row], run: &RunResult, direction: Direction) -> bool {
    are_their_own(rows, run.fates(), direction) && add_up(rows, run.fates(), direction)
}

// Returns whether each row has its own fate, and the logs agree with the fates.
fn is_as_said(rows: &[Row], run: &RunResult) -> bool {
    is_whole(rows, run, Direction::Up)
        && is_whole(rows, run, Direction::Down)
        && are_as_logged(run.logs(), run.fates())
}

// Returns whether two runs have the same result.
fn agree(this: &RunResult, that: &RunResult) -> bool {
    this.fates() == that.fates() && are_same(this.logs(), that.logs())
}

// Returns whether each row of a run has its own fate, and a run by steps has the same result.
fn has_one_fate_each(rt: &impl Abort, alloc: Global, prepared: &Prepared) -> bool {
    let run = plain_run(rt, alloc, prepared);
    is_as_said(prepared.schedule.rows(), &run)
        && agree(&stepped_run(rt, alloc, prepared, &[]), &run)
}

#[test]
fn each_packet_of_a_long_run_has_one_fate(rt: HostRuntime) {
    let prepared = prepare(&rt, rt.alloc(), &TRIP);
    check(
        &rt,
        has_one_fate_each(&rt, rt.alloc(), &prepared),
        "one fate each",
    );
}
