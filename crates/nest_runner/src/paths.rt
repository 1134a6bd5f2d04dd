// Both directions of a run, each a path through its shells with a thread for each worker.
ghost use Rattle.std.specs.Prelude.{◌≡◌, ◌≤◌, length};
ghost use Rattle.std.specs.Thread.{IsSync};
ghost use Rattle.packet_record.specs.declared.item.FlowEnd.TheVariants.{Ended as IsOver};
ghost use Rattle.packet_record.specs.Streams.{no_items};
ghost use Rattle.mark_channel.specs.Boths.{BothKeep, OfBoth};
ghost use Rattle.mark_channel.specs.Ends.{IsSameEnd};
ghost use Rattle.shell_workers.specs.Ends.{IfEnded};
ghost use Rattle.shell_workers.specs.Stages.{AllDone, AllFresh, AllSame};
ghost use Rattle.nest_runner.specs.Lanes.{IsDonePath, IsFreshPath, IsSamePath, workers_in};

use crate::lane::Path;
use mark_channel::Run;
use mm_base::{Pace, Role};
use packet_record::Both;
use shell_workers::{WorkEnd, collector, run_stages};
use std::marker::Sync;
use std::sync::Wait;
use std::thread::{Threads, join_mut};

// How many opportunities a take burns at most.
const MOST: u32 = 256;

// Runs the workers of the paths of both directions beside each other: a feeder and a drain for each shell, and a
// collector behind the last. `shells` is how many shells the nest has. Each worker counts itself among those that have
// begun, and the run waits for as many as there are. Returns the worse of the ends of the two paths, as
// `WorkEnd::worse` does.
pub(crate) fn run_paths<Q: Pace + Sync, R: Threads + Wait + Sync>(
    run: &Run<'_, Q, R>,
    paths: &mut Both<Path>,
    shells: u32,
) -> WorkEnd
    requires waits { run.now.begun.now.workers ≡ workers_in paths.old }
    requires fresh { OfBoth IsFreshPath paths.old }
    requires few { OfBoth (λ path. length path.stages.items ≤ 8) paths.old }
    ensures done { IfEnded result (OfBoth IsDonePath paths.new) }
    ensures same { BothKeep IsSamePath paths.old paths.new }
{
    let Both { up, down } = paths;
    let (up_end, down_end) = join_mut(
        run.rt,
        &mut || -> WorkEnd
            requires { IsFreshPath up.now × (length up.now.stages.items ≤ 8) × IsSync R.row × IsSync Q.row }
            ensures done { IfEnded result (IsDonePath up.exit.now) }
            ensures same { IsSamePath up.entry.now up.exit.now }
        { run_path(run, up, true, shells) },
        &mut || -> WorkEnd
            requires { IsFreshPath down.now × (length down.now.stages.items ≤ 8) × IsSync R.row × IsSync Q.row }
            ensures done { IfEnded result (IsDonePath down.exit.now) }
            ensures same { IsSamePath down.entry.now down.exit.now }
        { run_path(run, down, false, 1) },
    );
    up_end.worse(down_end)
}

// Runs the stages of a direction beside its collector. `first` is the number of the first shell in passing order. Each
// worker counts itself among those that have begun.
fn run_path<Q: Pace + Sync, R: Threads + Wait + Sync>(
    run: &Run<'_, Q, R>,
    path: &mut Path,
    up: bool,
    first: u32,
) -> WorkEnd
    requires fresh { IsFreshPath path.old }
    requires few { length path.old.stages.items ≤ 8 }
    ensures done { IfEnded result (IsDonePath path.new) }
    ensures same { IsSamePath path.old path.new }
{
    let Path { stages: list, last } = path;
    let list = list.as_mut_slice();
    let (collected, passed) = join_mut(
        run.rt,
        &mut || -> WorkEnd
            requires { (last.now.flow ≡ no_items) × IsSync R.row × IsSync Q.row }
            ensures ended { IfEnded result (last.exit.now.flow.end ≡ IsOver) }
            ensures same { IsSameEnd last.entry.now last.exit.now }
        {
            run.begun.raise();
            collector(run.rt, last, Role::Collector { up }, run.pace)
        },
        &mut || -> WorkEnd
            requires { AllFresh list.now × (length list.now ≤ 8) × IsSync R.row × IsSync Q.row }
            ensures ended { IfEnded result (AllDone list.exit.now) }
            ensures same { AllSame list.entry.now list.exit.now }
        { run_stages(run, list, up, first, MOST) },
    );
    collected.worse(passed)
}
