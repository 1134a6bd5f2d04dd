// Runs whose rows are fed.
ghost use Rattle.std.specs.Prelude.{◌≡◌};
ghost use Rattle.packet_record.specs.declared.item.FlowEnd.TheVariants.{Open, Broken as IsCut};
ghost use Rattle.packet_record.specs.Streams.{no_items};
ghost use Rattle.mark_channel.specs.Ends.{IsSameEnd};

use super::{CASES, Case, nest_in, schedule_of};
use crate::checks::check;
use mark_channel::{FeedEnd, Feeds, Sender};
use mm_base::{NoPace, Pace};
use nest_runner::run_feeds;
use nest_runner::work::source;
use nest_spec::{Nest, RunResult};
use packet_record::{Direction, Item, Row, Schedule};
use std::alloc::Global;
use std::marker::Sync;
use std::process::Abort;
use std::sync::Wait;
use std::thread::Threads;
use text_base::OutOfMemory;

// Sends that the stream is broken off in both directions.
fn cut_both<R: Wait>(rt: &R, up: &mut Sender, down: &mut Sender)
    requires open { (up.old.flow.end ≡ Open) × (down.old.flow.end ≡ Open) }
    ensures broken { (up.new.flow.end ≡ IsCut) × (down.new.flow.end ≡ IsCut) }
    ensures same { IsSameEnd up.old up.new × IsSameEnd down.old down.new }
{
    up.send(rt, Item::Broken);
    down.send(rt, Item::Broken);
}

// Sends the packets of a schedule in their directions, up to `horizon`, and no end.
fn send_packets<R: Wait>(
    rt: &R,
    schedule: &Schedule,
    horizon: u64,
    up: &mut Sender,
    down: &mut Sender,
)
    requires empty { (up.old.flow ≡ no_items) × (down.old.flow ≡ no_items) }
    requires within { (up.old.horizon ≡ horizon) × (down.old.horizon ≡ horizon) }
    ensures open { (up.new.flow.end ≡ Open) × (down.new.flow.end ≡ Open) }
    ensures same { IsSameEnd up.old up.new × IsSameEnd down.old down.new }
{
    let mut bound = 0;
    for row in schedule.rows() {
        let moment = row.timed.moment;
        if bound <= moment && moment <= horizon {
            match row.direction {
                Direction::Up => up.send(rt, Item::Packet(row.timed)),
                Direction::Down => down.send(rt, Item::Packet(row.timed)),
            }
            bound = moment;
        }
    }
}

// How a feeding ends.
#[derive(Clone, Copy)]
enum Ending {
    // By the end, after its rows.
    Whole,
    // The same, and yet memory was wanting.
    Wanting,
    // It is broken off before its rows.
    Cut,
    // It is broken off after all their packets.
    CutLate,
}

// Feeds the rows of a schedule, and ends so. It counts its calls.
#[derive(Drop)]
struct FedSchedule {
    schedule: Schedule,
    ending: Ending,
    calls: u32,
}

impl Feeds for FedSchedule {
    ghost fed_rows = { λ f. f.schedule };

    fn rows(&self) -> &[Row] {
        self.schedule.rows()
    }

    fn feed<R: Threads + Wait + Sync>(
        &mut self,
        rt: &R,
        horizon: u64,
        up: &mut Sender,
        down: &mut Sender,
    ) -> FeedEnd {
        self.calls = self.calls.saturating_add(1);
        match self.ending {
            Ending::Cut => {
                cut_both(rt, up, down);
                return FeedEnd::OutOfMemory;
            }
            Ending::CutLate => {
                send_packets(rt, &self.schedule, horizon, up, down);
                cut_both(rt, up, down);
                return FeedEnd::OutOfMemory;
            }
            Ending::Whole | Ending::Wanting => {}
        }
        source(rt, self.schedule.rows(), horizon, up, down, &NoPace);
        match self.ending {
            Ending::Whole => FeedEnd::Ended,
            Ending::Wanting | Ending::Cut | Ending::CutLate => FeedEnd::OutOfMemory,
        }
    }
}

fn fed_of(rt: &impl Abort, alloc: Global, schedule: &[u8], ending: Ending) -> FedSchedule {
    FedSchedule {
        schedule: schedule_of(rt, alloc, schedule),
        ending,
        calls: 0,
    }
}

// The result of a run that is fed. It says nothing of it.
fn run_fed<Q: Pace + Sync, R: Threads + Wait + Sync>(
    rt: &R,
    alloc: Global,
    nest: &Nest,
    fed: &mut FedSchedule,
    pace: &Q,
) -> Result<RunResult, OutOfMemory> {
    run_feeds(rt, alloc, nest, fed, pace)
}

// The result of a schedule whose rows are fed, which is done once.
pub(super) fn run_from_feeds<Q: Pace + Sync, R: Threads + Wait + Abort + Sync>(
    rt: &R,
    alloc: Global,
    nest: &Nest,
    schedule: &[u8],
    pace: &Q,
) -> RunResult {
    let mut fed = fed_of(rt, alloc, schedule, Ending::Whole);
    let result = run_fed(rt, alloc, nest, &mut fed, pace).expect(rt, "memory");
    check(rt, fed.calls == 1, "one feeding");
    result
}

// Whether a case that is fed once, and ends so, has no result.
fn wants<R: Threads + Wait + Abort + Sync>(
    rt: &R,
    alloc: Global,
    case: &Case<'_>,
    ending: Ending,
) -> bool {
    let nest = nest_in(rt, alloc, case);
    let mut fed = fed_of(rt, alloc, case.schedule, ending);
    run_fed(rt, alloc, &nest, &mut fed, &NoPace).is_err() && fed.calls == 1
}

// No case that is fed and ends so has a result.
fn all_want<R: Threads + Wait + Abort + Sync>(rt: &R, alloc: Global, ending: Ending) {
    for case in &CASES {
        check(rt, wants(rt, alloc, case, ending), case.nest);
    }
}

#[test]
fn want_of_memory_while_feeding_is_answered(rt: HostRuntime) {
    all_want(&rt, rt.alloc(), Ending::Wanting);
    all_want(&rt, rt.alloc(), Ending::Cut);
    all_want(&rt, rt.alloc(), Ending::CutLate);
}
