// The parts of a run, called one after another: what is in their channels fits there.
ghost use Rattle.std.specs.Prelude.{◌≡◌, ◌≤◌, length, IfOk};
ghost use Rattle.packet_record.specs.Streams.{no_items};
ghost use Rattle.shell_state.specs.Shells.{IsInRange, opportunities};
ghost use Rattle.nest_spec.specs.Nests.{AllFit};
ghost use Rattle.shell_workers.specs.Stages.{AllFresh, IsFresh};

use super::{nest_of, schedule_of};
use crate::checks::check;
use crate::ways::{Ways, open_ways};
use mark_channel::{Receiver, Sender, open};
use mm_base::{NoPace, Role};
use nest_runner::work::{Stage, WorkEnd, collector, source, stages};
use nest_spec::Nest;
use packet_record::{Direction, Schedule};
use shell_state::{DirSpec, ShellState};
use std::alloc::Global;
use std::marker::Sync;
use std::process::Abort;
use std::sync::Wait;
use std::thread::Threads;
use text_base::OutOfMemory;

// How many items a channel holds.
const CAPACITY: u32 = 64;

// A new stage of a shell, which receives here, and the receiver of the channel behind it.
fn open_stage(
    alloc: Global,
    horizon: u64,
    spec: DirSpec,
    from: Receiver,
) -> Result<(Stage, Receiver), OutOfMemory>
    requires fits { IsInRange spec × (length (opportunities spec horizon) ≤ 16000000) }
    requires horizon { horizon ≤ 3600000 }
    requires from { (from.flow ≡ no_items) × (from.horizon ≡ horizon) }
    ensures fresh { IfOk result (λ r. IsFresh r.0) }
    ensures next { IfOk result (λ r. (r.1.flow ≡ no_items) × (r.1.horizon ≡ horizon)) }
{
    let state = ShellState::new(alloc, spec, horizon)?;
    let (cell, feed, drain) = shell_cell::open(alloc, state)?;
    let (to, next) = open(alloc, CAPACITY, horizon)?;
    let stage = Stage {
        cell,
        feed,
        drain,
        from,
        to,
    };
    Ok((stage, next))
}

// The new stages of shells that do this, the first of which receives here, and the receiver behind the last.
fn open_path(
    alloc: Global,
    horizon: u64,
    specs: Vec<DirSpec>,
    first: Receiver,
) -> Result<(Vec<Stage>, Receiver), OutOfMemory>
    requires fit { AllFit horizon specs.items }
    requires horizon { horizon ≤ 3600000 }
    requires first { (first.flow ≡ no_items) × (first.horizon ≡ horizon) }
    ensures fresh { IfOk result (λ path. AllFresh path.0.items × (path.1.flow ≡ no_items)) }
{
    let mut list = Vec::with_capacity(alloc, specs.len())?;
    let mut last = first;
    for spec in specs {
        let (stage, next) = open_stage(alloc, horizon, spec, last)?;
        list.push(stage)?;
        last = next;
    }
    Ok((list, last))
}

pub(super) fn send_all<R: Wait>(
    rt: &R,
    schedule: &Schedule,
    horizon: u64,
    up: &mut Sender,
    down: &mut Sender,
)
    requires empty { (up.old.flow ≡ no_items) × (down.old.flow ≡ no_items) }
    requires horizon { (up.old.horizon ≡ horizon) × (down.old.horizon ≡ horizon) }
{
    source(rt, schedule.rows(), horizon, up, down, &NoPace);
}

// Runs the stages of a direction, and its collector after them.
fn run_parts<R: Threads + Wait + Sync>(
    rt: &R,
    list: &mut [Stage],
    last: &mut Receiver,
    up: bool,
    first: u32,
) -> (WorkEnd, WorkEnd)
    requires fresh { AllFresh list.old × (last.old.flow ≡ no_items) }
    requires few { length list.old ≤ 8 }
{
    let passed = stages(rt, list, up, first, 256, &NoPace);
    let collected = collector(rt, last, Role::Collector { up }, &NoPace);
    (passed, collected)
}

// Whether the parts of a direction come to their ends, where its packets are in this channel.
fn end_way<R: Threads + Wait + Abort + Sync>(
    rt: &R,
    alloc: Global,
    nest: &Nest,
    direction: Direction,
    first: u32,
    from: Receiver,
) -> bool
    requires { (from.flow ≡ no_items) × (from.horizon ≡ nest.now.horizon) }
{
    let specs = nest.directions(direction).expect(rt, "memory");
    let (mut list, mut last) = open_path(alloc, nest.horizon(), specs, from).expect(rt, "memory");
    assert!(rt; list.len() <= 8);
    let up = direction == Direction::Up;
    run_parts(rt, list.as_mut_slice(), &mut last, up, first) == (WorkEnd::Ended, WorkEnd::Ended)
}

// Sends a schedule, and then runs the parts of both directions. Whether all come to their ends.
fn end_both<R: Threads + Wait + Abort + Sync>(
    rt: &R,
    alloc: Global,
    nest: &Nest,
    schedule: &Schedule,
) -> bool {
    let horizon = nest.horizon();
    let Ways {
        mut up,
        up_end,
        mut down,
        down_end,
    } = open_ways(alloc, CAPACITY, horizon).expect(rt, "memory");
    send_all(rt, schedule, horizon, &mut up, &mut down);
    let ended = end_way(rt, alloc, nest, Direction::Up, nest.shells(), up_end);
    end_way(rt, alloc, nest, Direction::Down, 1, down_end) && ended
}

// Whether the parts of a nest of a delay and a link come to their ends.
fn parts_end<R: Threads + Wait + Abort + Sync>(rt: &R, alloc: Global) -> bool {
    let nest = nest_of(rt, alloc, "mm-delay 10 mm-link t t", b"4\n", 100);
    end_both(
        rt,
        alloc,
        &nest,
        &schedule_of(rt, alloc, b"0 up 100\n0 down 100\n"),
    )
}

#[test]
fn the_parts_of_a_run_come_to_their_ends(rt: HostRuntime) {
    check(&rt, parts_end(&rt, rt.alloc()), "parts that have ended");
}

#[test]
fn no_stages_have_ended(rt: HostRuntime) {
    let end = stages(&rt, &mut [], true, 1, 256, &NoPace);
    check(&rt, end == WorkEnd::Ended, "stages that have ended");
}
