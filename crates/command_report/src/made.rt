// Makes the nest of a run from its number.
ghost use Rattle.std.specs.Prelude.{◌≡◌, ◌≤◌, [], ◌∷◌, IfOk};
ghost use Rattle.trace_reader.specs.Traces.{IsTrace};
ghost use Rattle.command_report.specs.Made.{IsMadeNest};

use crate::words::read_words;
use nest_spec::{Nest, build};
use std::alloc::Global;
use text_base::OutOfMemory;
use trace_reader::{Trace, make_trace};

// Returns the stated nest, with the trace for `number` in both directions of its link and `number` as its seed.
pub(crate) fn made_nest(alloc: Global, number: u64, horizon: u64) -> Result<Nest, OutOfMemory>
    requires { horizon ≤ 3001000 }
    ensures { IfOk result (IsMadeNest number horizon) }
{
    let words = read_words(alloc)?;
    let trace = make_trace(alloc, number)?;
    let traces = twice(alloc, trace)?;
    build(alloc, words, traces, number, horizon)
}

// Returns a trace and its copy.
fn twice(alloc: Global, trace: Trace) -> Result<Vec<Trace>, OutOfMemory>
    ensures traces { IfOk result (λ traces. traces.items ≡ trace ∷ trace ∷ []) }
    ensures trace { IsTrace trace }
{
    prove!(trace.len() > 0);
    let mut traces = Vec::with_capacity(alloc, 2)?;
    traces.push(trace.copy()?)?;
    traces.push(trace)?;
    Ok(traces)
}
