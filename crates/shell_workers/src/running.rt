// All shells of one direction, with a thread for each worker.
ghost use Rattle.std.specs.Prelude.{◌≡◌, ◌≤◌, ◌<◌, ◌+◌, ◌-◌, ◌^◌, IsFalse, IsTrue, length};
ghost use Rattle.std.specs.Thread.{IsSync};
ghost use Rattle.shell_workers.specs.Ends.{IfEnded, IfBroken, IfWants};
ghost use Rattle.shell_workers.specs.Stages.{AllClosed, AllDone, AllFresh, AllSame, IsBroken, IsClosed, IsDone, IsFresh};
ghost use Rattle.shell_workers.specs.Stages.{IsGivenUp, IsSame, SomeBroken, SomeGivenUp};

use crate::ends::WorkEnd;
use crate::stage::{Stage, run_stage};
use mark_channel::{Begun, Run};
use mm_base::Pace;
use std::marker::Sync;
use std::sync::Wait;
use std::thread::{Threads, join_mut};

// Returns the number of the next shell in passing order.
fn next_shell(up: bool, shell: u32) -> u32
    ensures up { IsTrue up → result ≡ shell - 1 }
    ensures down { IsFalse up → shell + 1 < 2 ^ 32 → result ≡ shell + 1 }
{
    if up {
        shell.saturating_sub(1)
    } else {
        shell.saturating_add(1)
    }
}

/// Runs the workers of the stages in `list`, at most 8 in passing order, beside each other. `shell` is the number of
/// the first one's shell; the next has one less on the way up and one more on the way down. Each take burns at most
/// `most` opportunities; `most` is at least 1.
///
/// Returns `Ended` if every worker did, otherwise `OutOfMemory` if one ran out of memory, otherwise `Broken`. Each
/// stage keeps its cell, seats and ends, and nothing more comes in or goes out of it.
pub fn stages<Q: Pace + Sync, R: Threads + Wait + Sync>(
    rt: &R,
    list: &mut [Stage],
    up: bool,
    shell: u32,
    most: u32,
    pace: &Q,
) -> WorkEnd
    requires few { length list.old ≤ 8 }
    requires fresh { AllFresh list.old }
    requires most { 1 ≤ most }
    ensures ended { IfEnded result (AllDone list.new) }
    ensures broken { IfBroken result (SomeBroken list.new) }
    ensures wants { IfWants result (SomeGivenUp list.new) }
    ensures closed { AllClosed list.new }
    ensures same { AllSame list.old list.new }
{
    let begun = Begun::new(0);
    let run = Run {
        rt,
        pace,
        begun: &begun,
    };
    run_stages(&run, list, up, shell, most)
}

/// Runs the workers of the stages as `stages` does. Each counts itself among those that have begun.
pub fn run_stages<Q: Pace + Sync, R: Threads + Wait + Sync>(
    run: &Run<'_, Q, R>,
    list: &mut [Stage],
    up: bool,
    shell: u32,
    most: u32,
) -> WorkEnd
    requires few { length list.old ≤ 8 }
    requires fresh { AllFresh list.old }
    requires most { 1 ≤ most }
    ensures ended { IfEnded result (AllDone list.new) }
    ensures broken { IfBroken result (SomeBroken list.new) }
    ensures wants { IfWants result (SomeGivenUp list.new) }
    ensures closed { AllClosed list.new }
    ensures same { AllSame list.old list.new }
{
    let Some((first, rest)) = list.split_first_mut() else {
        return WorkEnd::Ended;
    };
    if rest.is_empty() {
        return run_stage(run, first, up, shell, most);
    }
    // The later stages stand first, since they go on only once the first one does.
    let (others, one) = join_mut(
        run.rt,
        &mut || -> WorkEnd
            requires { (length rest.now ≤ 8) × AllFresh rest.now × (1 ≤ most) × IsSync R.row × IsSync Q.row }
            ensures ended { IfEnded result (AllDone rest.exit.now) }
            ensures broken { IfBroken result (SomeBroken rest.exit.now) }
            ensures wants { IfWants result (SomeGivenUp rest.exit.now) }
            ensures closed { AllClosed rest.exit.now }
            ensures same { AllSame rest.entry.now rest.exit.now }
        { run_stages(run, rest, up, next_shell(up, shell), most) },
        &mut || -> WorkEnd
            requires { IsFresh first.now × (1 ≤ most) × IsSync R.row × IsSync Q.row }
            ensures ended { IfEnded result (IsDone first.exit.now) }
            ensures broken { IfBroken result (IsBroken first.exit.now) }
            ensures wants { IfWants result (IsGivenUp first.exit.now) }
            ensures closed { IsClosed first.exit.now }
            ensures same { IsSame first.entry.now first.exit.now }
        { run_stage(run, first, up, shell, most) },
    );
    one.worse(others)
}
