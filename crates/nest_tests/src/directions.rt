// Directions of shells made of static words, and the logs that they leave.
ghost use Rattle.std.specs.Prelude.{◌≤◌, length};
ghost use Rattle.shell_state.specs.Shells.{IsInRange, opportunities};

use crate::inputs::{queue_of, rate_of, trace_of};
use shell_log::Log;
use shell_state::{DirSpec, Passage};
use std::alloc::Global;
use std::process::Abort;
use text_base::limits::{HOUR, MOST_OPPORTUNITIES};

// What a direction does.
#[derive(Clone, Copy)]
pub enum Kind {
    // Packets pass at once.
    Pass,
    // A delay in milliseconds.
    Delay(u64),
    // A loss: its rate, its seed and its stream.
    Loss(&'static str, u64, u64),
    // A link: its trace, which is played again and again, its queue, and the queue's arguments.
    Link(&'static [u8], &'static str, &'static str),
}

// Returns a link whose trace is played again and again. `queue` is the queue's name and its arguments.
#[tactic(auto, unfolding(shell_state::specs::Shells::opportunities))]
fn link_of(
    rt: &impl Abort,
    alloc: Global,
    trace: &[u8],
    queue: (&str, &str),
    horizon: u64,
) -> DirSpec
    requires horizon { horizon ≤ 3600000 }
    ensures range { IsInRange result }
    ensures few { length (opportunities result horizon) ≤ 16000000 }
{
    let trace = trace_of(rt, alloc, trace);
    assert!(rt; trace.count_to(horizon, false) <= MOST_OPPORTUNITIES);
    DirSpec::Link {
        trace,
        once: false,
        queue: queue_of(rt, queue.0, queue.1),
    }
}

// Returns the direction of a kind, for a run up to `horizon`.
#[tactic(auto, unfolding(shell_state::specs::Shells::opportunities))]
pub fn direction_of(rt: &impl Abort, alloc: Global, kind: Kind, horizon: u64) -> DirSpec
    requires horizon { horizon ≤ 3600000 }
    ensures range { IsInRange result }
    ensures few { length (opportunities result horizon) ≤ 16000000 }
{
    match kind {
        Kind::Pass => DirSpec::Pass,
        Kind::Delay(ms) => {
            assert!(rt; ms <= HOUR);
            DirSpec::Delay { ms }
        }
        Kind::Loss(rate, seed, stream) => DirSpec::Loss {
            rate: rate_of(rt, rate),
            seed,
            stream,
        },
        Kind::Link(trace, queue, args) => link_of(rt, alloc, trace, (queue, args), horizon),
    }
}

// Returns the log of a passage, written out.
pub fn log_of(rt: &impl Abort, passage: Passage) -> Log {
    passage
        .log
        .expect(rt, "a log")
        .into_log()
        .expect(rt, "memory")
}
