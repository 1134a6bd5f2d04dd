// Runs of a nest over threads, whose rows come from a `Feeds`.
ghost use Rattle.std.specs.Prelude.{◌≡◌, ◌≢◌, ◌≤◌, length, IfOk, OnOk};
ghost use Rattle.std.specs.Thread.{IsSync};
ghost use Rattle.packet_record.specs.declared.item.FlowEnd.TheVariants.{Open};
ghost use Rattle.packet_record.specs.Rows.{entering};
ghost use Rattle.packet_record.specs.Streams.{no_items};
ghost use Rattle.mark_channel.specs.Boths.{BothKeep, ByDirection, OfBoth};
ghost use Rattle.mark_channel.specs.Ends.{IsSameEnd};
ghost use Rattle.mark_channel.specs.Feedings.{HasSentRows};
ghost use Rattle.nest_spec.specs.Nests.{result_of};
ghost use Rattle.nest_spec.specs.Once.{HaveOneFate};
ghost use Rattle.shell_workers.specs.Ends.{IfEnded};
ghost use Rattle.nest_runner.specs.Lanes.{HasCarried, HasRun, IsDonePath, IsFreshLane, IsFreshPath, IsSamePath};
ghost use Rattle.nest_runner.specs.Lanes.{workers_in};
ghost use Rattle.nest_runner.specs.inside.Lanes.{HasEnded, IsSameLane};
ghost use Rattle.nest_runner.specs.inside.Feeding.{end_of_feed};
ghost use Rattle.nest_runner.specs.inside.Lanes.{lanes_of};

use crate::begun::none_begun;
use crate::gathering::gather_marked;
use crate::lane::Lane;
use crate::lanes::Lanes;
use crate::paths::run_paths;
use mark_channel::{FeedEnd, Feeds, Run, Sender};
use mm_base::Pace;
use nest_plain::NestRun;
use nest_spec::{Marking, Nest, RunResult};
use packet_record::Both;
use shell_workers::WorkEnd;
use std::alloc::Global;
use std::marker::{Send, Sync};
use std::sync::Wait;
use std::thread::{Threads, join_mut};
use text_base::OutOfMemory;

/// Runs the rows that `feeds` sends through `nest` over threads, as `run_nest_threads` runs those of a schedule. The
/// feeding takes the place of the source. The result is that of the composition of the shells over these rows, for
/// every order in which the threads get their turns. The logs aren't written out. The pace is asked before the turns of
/// the shells' threads.
///
/// Returns `OutOfMemory` where memory runs out in any thread, or for a thread. The feeding begins once all other
/// threads have, and where one can't begin beside the others the run is broken off.
pub fn run_nest_feeds<F: Feeds + Send, Q: Pace + Sync, R: Threads + Wait + Sync>(
    rt: &R,
    alloc: Global,
    nest: &Nest,
    feeds: &mut F,
    pace: &Q,
) -> Result<NestRun, OutOfMemory>
    ensures value { IfOk result (λ r. r ≡ result_of nest.now (F.fed_rows feeds.old)) }
    ensures once { OnOk result (HaveOneFate nest.now (F.fed_rows feeds.old)) }
    ensures rows { F.fed_rows feeds.new ≡ F.fed_rows feeds.old }
{
    let Both { up, down } = run_fed(rt, alloc, nest, feeds, pace)?;
    let marking = Marking::new(alloc, feeds.rows())?;
    gather_marked(alloc, nest, marking, up, down)
}

/// Runs the rows that `feeds` sends as `run_nest_feeds` does, and writes the logs out.
pub fn run_feeds<F: Feeds + Send, Q: Pace + Sync, R: Threads + Wait + Sync>(
    rt: &R,
    alloc: Global,
    nest: &Nest,
    feeds: &mut F,
    pace: &Q,
) -> Result<RunResult, OutOfMemory>
    ensures value { IfOk result (λ r. r ≡ result_of nest.now (F.fed_rows feeds.old)) }
    ensures once { OnOk result (HaveOneFate nest.now (F.fed_rows feeds.old)) }
    ensures rows { F.fed_rows feeds.new ≡ F.fed_rows feeds.old }
{
    run_nest_feeds(rt, alloc, nest, feeds, pace)?.into_result()
}

// Runs the rows that `feeds` sends through both directions of a nest. Returns the lanes, in which every stream came to
// its end. Returns `OutOfMemory` where a stream was broken off.
fn run_fed<F: Feeds + Send, Q: Pace + Sync, R: Threads + Wait + Sync>(
    rt: &R,
    alloc: Global,
    nest: &Nest,
    feeds: &mut F,
    pace: &Q,
) -> Result<Both<Lane>, OutOfMemory>
    ensures ended { IfOk result (λ lanes. OfBoth HasEnded lanes) }
    ensures ran { IfOk result (λ lanes. ByDirection (λ d lane. HasRun d nest.now (F.fed_rows feeds.old) lane) lanes) }
    ensures rows { F.fed_rows feeds.new ≡ F.fed_rows feeds.old }
{
    let mut lanes = Lanes::open(alloc, nest)?;
    let shells = nest.shells();
    let begun = none_begun(shells);
    let run = Run {
        rt,
        pace,
        begun: &begun,
    };
    let end = feed_lanes(&run, feeds, nest.horizon(), &mut lanes, shells);
    let WorkEnd::Ended = end else {
        return Err(OutOfMemory);
    };
    Ok(lanes.into_both())
}

// Returns how a feeding ended, as the end of a worker.
fn end_of_feed(end: FeedEnd) -> WorkEnd
    ensures { result ≡ end_of_feed end }
{
    match end {
        FeedEnd::Ended => WorkEnd::Ended,
        FeedEnd::OutOfMemory => WorkEnd::OutOfMemory,
    }
}

// Runs the feeding once all other workers have begun. Breaks both directions off where they can't.
fn feed_begun<F: Feeds, Q: Pace, R: Threads + Wait + Sync>(
    run: &Run<'_, Q, R>,
    feeds: &mut F,
    horizon: u64,
    heads: &mut Both<Sender>,
) -> WorkEnd
    requires shared { IsSync R.row }
    requires empty { OfBoth (λ head. head.flow ≡ no_items) heads.old }
    requires within { OfBoth (λ head. head.horizon ≡ horizon) heads.old }
    ensures sent { IfEnded result
        (ByDirection (λ d head. HasSentRows d horizon (F.fed_rows feeds.old) head.flow) heads.new) }
    ensures rows { F.fed_rows feeds.new ≡ F.fed_rows feeds.old }
    ensures over { OfBoth (λ head. head.flow.end ≢ Open) heads.new }
    ensures same { BothKeep IsSameEnd heads.old heads.new }
{
    let Both { up, down } = heads;
    if run.begun.wait(run.rt, up, down).is_err() {
        return WorkEnd::OutOfMemory;
    }
    end_of_feed(feeds.feed(run.rt, horizon, up, down))
}

// Runs the feeding beside the paths of both directions. `shells` is how many shells the nest has. Returns the worse of
// their ends.
fn feed_lanes<F: Feeds + Send, Q: Pace + Sync, R: Threads + Wait + Sync>(
    run: &Run<'_, Q, R>,
    feeds: &mut F,
    horizon: u64,
    lanes: &mut Lanes,
    shells: u32,
) -> WorkEnd
    requires waits { run.now.begun.now.workers ≡ workers_in lanes.old.paths }
    requires fresh { OfBoth (IsFreshLane horizon) (lanes_of lanes.old) }
    requires few { OfBoth (λ path. length path.stages.items ≤ 8) lanes.old.paths }
    ensures carried { IfEnded result
        (ByDirection (λ d lane. HasCarried (entering d horizon (F.fed_rows feeds.old)) lane) (lanes_of lanes.new)) }
    ensures rows { F.fed_rows feeds.new ≡ F.fed_rows feeds.old }
    ensures same { BothKeep IsSameLane (lanes_of lanes.old) (lanes_of lanes.new) }
{
    let Lanes { heads, paths } = lanes;
    // The paths stand first, since they go on only once the feeding does.
    let (passed, fed) = join_mut(
        run.rt,
        &mut || -> WorkEnd
            requires { (run.now.begun.now.workers ≡ workers_in paths.now) × OfBoth IsFreshPath paths.now
                × OfBoth (λ path. length path.stages.items ≤ 8) paths.now × IsSync R.row × IsSync Q.row }
            ensures done { IfEnded result (OfBoth IsDonePath paths.exit.now) }
            ensures same { BothKeep IsSamePath paths.entry.now paths.exit.now }
        { run_paths(run, paths, shells) },
        &mut || -> WorkEnd
            requires { OfBoth (λ head. head.flow ≡ no_items) heads.now
                × OfBoth (λ head. head.horizon ≡ horizon) heads.now × IsSync R.row }
            ensures sent { IfEnded result
                (ByDirection (λ d head. HasSentRows d horizon (F.fed_rows feeds.entry.now) head.flow) heads.exit.now) }
            ensures rows { F.fed_rows feeds.exit.now ≡ F.fed_rows feeds.entry.now }
            ensures same { BothKeep IsSameEnd heads.entry.now heads.exit.now }
        { feed_begun(run, feeds, horizon, heads) },
    );
    fed.worse(passed)
}
