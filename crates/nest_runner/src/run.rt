// Runs of a nest over threads, whose schedule is in memory.
ghost use Rattle.std.specs.Prelude.{◌≡◌, ◌≢◌, ◌≤◌, length, OnOk, IfOk};
ghost use Rattle.std.specs.Thread.{IsSync};
ghost use Rattle.packet_record.specs.declared.item.FlowEnd.TheVariants.{Open};
ghost use Rattle.packet_record.specs.Rows.{Rises, entering};
ghost use Rattle.packet_record.specs.Streams.{no_items};
ghost use Rattle.mark_channel.specs.Boths.{BothKeep, ByDirection, OfBoth};
ghost use Rattle.mark_channel.specs.Ends.{IsSameEnd};
ghost use Rattle.mark_channel.specs.Feedings.{HasSentRows};
ghost use Rattle.nest_spec.specs.Nests.{result_of};
ghost use Rattle.nest_spec.specs.Once.{HaveOneFate};
ghost use Rattle.shell_workers.specs.Ends.{IfEnded};
ghost use Rattle.nest_runner.specs.Lanes.{HasCarried, HasRun, IsDonePath, IsFreshLane, IsFreshPath, IsSamePath};
ghost use Rattle.nest_runner.specs.Lanes.{workers_in};
ghost use Rattle.nest_runner.specs.inside.Lanes.{HasEnded, IsSameLane};
ghost use Rattle.nest_runner.specs.inside.Lanes.{lanes_of};

use crate::begun::none_begun;
use crate::gathering::gather_lanes;
use crate::lane::Lane;
use crate::lanes::Lanes;
use crate::paths::run_paths;
use mark_channel::{Run, Sender};
use mm_base::Pace;
use nest_plain::NestRun;
use nest_spec::{Nest, RunResult};
use packet_record::{Both, Row, Schedule};
use shell_workers::{WorkEnd, source_rows};
use std::alloc::Global;
use std::marker::Sync;
use std::sync::Wait;
use std::thread::{Threads, join_mut};
use text_base::OutOfMemory;

/// Runs `schedule` through `nest` over threads: a source, a feeder and a drain for each direction of each shell, and a
/// collector for each direction, beside each other. The result is that of the composition of the shells, for every
/// order in which the threads get their turns. The logs aren't written out. The pace is asked before the turns of the
/// threads.
///
/// Returns `OutOfMemory` where memory runs out in any thread, or for a thread. The source sends nothing before all
/// other threads have begun, and where one can't begin beside the others the source breaks the run off.
pub fn run_nest_threads<Q: Pace + Sync, R: Threads + Wait + Sync>(
    rt: &R,
    alloc: Global,
    nest: &Nest,
    schedule: &Schedule,
    pace: &Q,
) -> Result<NestRun, OutOfMemory>
    ensures value { IfOk result (λ r. r ≡ result_of nest.now schedule.now) }
    ensures once { OnOk result (HaveOneFate nest.now schedule.now) }
{
    let rows = schedule.rows();
    let Both { up, down } = run_rows(rt, alloc, nest, rows, pace)?;
    gather_lanes(alloc, nest, schedule, up, down)
}

/// Runs `schedule` through `nest` as `run_nest_threads` does, and writes the logs out.
pub fn run_threads<Q: Pace + Sync, R: Threads + Wait + Sync>(
    rt: &R,
    alloc: Global,
    nest: &Nest,
    schedule: &Schedule,
    pace: &Q,
) -> Result<RunResult, OutOfMemory>
    ensures value { IfOk result (λ r. r ≡ result_of nest.now schedule.now) }
    ensures once { OnOk result (HaveOneFate nest.now schedule.now) }
{
    run_nest_threads(rt, alloc, nest, schedule, pace)?.into_result()
}

// Runs rows through both directions of a nest. Returns the lanes, in which every stream came to its end. Returns
// `OutOfMemory` where a stream was broken off.
fn run_rows<Q: Pace + Sync, R: Threads + Wait + Sync>(
    rt: &R,
    alloc: Global,
    nest: &Nest,
    rows: &[Row],
    pace: &Q,
) -> Result<Both<Lane>, OutOfMemory>
    requires rises { Rises 0 rows.now }
    ensures ended { IfOk result (λ lanes. OfBoth HasEnded lanes) }
    ensures ran { IfOk result (λ lanes. ByDirection (λ d lane. HasRun d nest.now rows.now lane) lanes) }
{
    let mut lanes = Lanes::open(alloc, nest)?;
    let shells = nest.shells();
    let begun = none_begun(shells);
    let run = Run {
        rt,
        pace,
        begun: &begun,
    };
    let end = run_lanes(&run, rows, nest.horizon(), &mut lanes, shells);
    let WorkEnd::Ended = end else {
        return Err(OutOfMemory);
    };
    Ok(lanes.into_both())
}

// Runs the source beside the paths of both directions. `shells` is how many shells the nest has. Returns the worse of
// their ends.
fn run_lanes<Q: Pace + Sync, R: Threads + Wait + Sync>(
    run: &Run<'_, Q, R>,
    rows: &[Row],
    horizon: u64,
    lanes: &mut Lanes,
    shells: u32,
) -> WorkEnd
    requires waits { run.now.begun.now.workers ≡ workers_in lanes.old.paths }
    requires fresh { OfBoth (IsFreshLane horizon) (lanes_of lanes.old) }
    requires few { OfBoth (λ path. length path.stages.items ≤ 8) lanes.old.paths }
    requires rises { Rises 0 rows.now }
    ensures carried { IfEnded result
        (ByDirection (λ d lane. HasCarried (entering d horizon rows.now) lane) (lanes_of lanes.new)) }
    ensures same { BothKeep IsSameLane (lanes_of lanes.old) (lanes_of lanes.new) }
{
    let Lanes { heads, paths } = lanes;
    // The paths stand first, since they go on only once the source does.
    let (passed, sent) = join_mut(
        run.rt,
        &mut || -> WorkEnd
            requires { (run.now.begun.now.workers ≡ workers_in paths.now) × OfBoth IsFreshPath paths.now
                × OfBoth (λ path. length path.stages.items ≤ 8) paths.now × IsSync R.row × IsSync Q.row }
            ensures done { IfEnded result (OfBoth IsDonePath paths.exit.now) }
            ensures same { BothKeep IsSamePath paths.entry.now paths.exit.now }
        { run_paths(run, paths, shells) },
        &mut || -> WorkEnd
            requires { OfBoth (λ head. head.flow ≡ no_items) heads.now
                × OfBoth (λ head. head.horizon ≡ horizon) heads.now
                × Rises 0 rows.now × IsSync R.row × IsSync Q.row }
            ensures sent { IfEnded result
                (ByDirection (λ d head. HasSentRows d horizon rows.entry.now head.flow) heads.exit.now) }
            ensures same { BothKeep IsSameEnd heads.entry.now heads.exit.now }
        { run_source(run, rows, horizon, heads) },
    );
    sent.worse(passed)
}

// Runs the source once all other workers have begun. Breaks both directions off where they can't.
fn run_source<Q: Pace, R: Wait>(
    run: &Run<'_, Q, R>,
    rows: &[Row],
    horizon: u64,
    heads: &mut Both<Sender>,
) -> WorkEnd
    requires empty { OfBoth (λ head. head.flow ≡ no_items) heads.old }
    requires horizon { OfBoth (λ head. head.horizon ≡ horizon) heads.old }
    requires rises { Rises 0 rows.now }
    ensures sent { IfEnded result
        (ByDirection (λ d head. HasSentRows d horizon rows.now head.flow) heads.new) }
    ensures over { OfBoth (λ head. head.flow.end ≢ Open) heads.new }
    ensures same { BothKeep IsSameEnd heads.old heads.new }
{
    let Both { up, down } = heads;
    if run.begun.wait(run.rt, up, down).is_err() {
        return WorkEnd::OutOfMemory;
    }
    source_rows(run, rows, horizon, heads);
    WorkEnd::Ended
}
