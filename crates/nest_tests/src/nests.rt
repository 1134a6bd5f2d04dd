// Nests made of words, and their runs.
ghost use Rattle.std.specs.Prelude.{◌≡◌, ◌≤◌, length};
ghost use Rattle.std.specs.Bool.{OnTrue};
ghost use Rattle.nest_spec.specs.Nests.{opportunities_of};

use crate::inputs::{load_of, schedule_of, trace_of};
use nest_core::run_order;
use nest_plain::run_plain;
use nest_spec::{Nest, NestWords, RunResult, build, read_nest};
use packet_record::Schedule;
use std::alloc::Global;
use std::process::Abort;
use text_base::limits::{HOUR, MOST_OPPORTUNITIES};
use trace_reader::Trace;

// What arrives at a nest.
#[derive(Clone, Copy)]
pub enum Coming {
    // The rows of a schedule's text.
    Rows(&'static [u8]),
    // The load of a number, and how many rows it has.
    Load(u64, u32),
}

// The words of a nest, the text of the trace that all its links have, its horizon in milliseconds, and what arrives.
pub struct Trip {
    pub nest: &'static str,
    pub trace: &'static [u8],
    pub horizon: u64,
    pub coming: Coming,
}

// A nest, and the schedule that goes through it.
#[derive(Drop)]
pub struct Prepared {
    pub nest: Nest,
    pub schedule: Schedule,
}

// Returns the words of a text, which spaces part.
pub fn words_of(rt: &impl Abort, alloc: Global, text: &str) -> Vec<String> {
    let mut words = Vec::new(alloc);
    for word in text.split(' ') {
        let word = String::from_str(alloc, word).expect(rt, "memory");
        words.push(word).expect(rt, "memory");
    }
    words
}

// Returns the nest that the words of a text state.
pub fn nest_words_of(rt: &impl Abort, alloc: Global, text: &str) -> NestWords {
    read_nest(alloc, words_of(rt, alloc, text).as_slice()).expect(rt, "a nest")
}

// Returns `count` traces of the same text.
fn traces_of(rt: &impl Abort, alloc: Global, count: usize, text: &[u8]) -> Vec<Trace> {
    let mut traces = Vec::new(alloc);
    for _ in 0..count {
        let trace = trace_of(rt, alloc, text);
        traces.push(trace).expect(rt, "memory");
    }
    traces
}

// Returns whether there is a trace for each name in the words, and horizon and opportunities are within their limits.
fn fit(words: &NestWords, traces: &[Trace], horizon: u64) -> bool
    ensures traces { OnTrue result (length traces.now ≡ length words.now.traces) }
    ensures horizon { OnTrue result (horizon ≤ 3600000) }
    ensures few { OnTrue result (opportunities_of horizon words.now.shells traces.now ≤ 16000000) }
{
    horizon <= HOUR
        && traces.len() == words.traces().len()
        && words.opportunities(traces, horizon) <= MOST_OPPORTUNITIES
}

// Returns the nest of words with traces.
fn built(
    rt: &impl Abort,
    alloc: Global,
    words: NestWords,
    traces: Vec<Trace>,
    horizon: u64,
) -> Nest {
    assert!(rt; fit(&words, &traces, horizon));
    build(alloc, words, traces, 0, horizon).expect(rt, "memory")
}

// Returns the nest of a trip.
fn nest_of(rt: &impl Abort, alloc: Global, trip: &Trip) -> Nest {
    let words = nest_words_of(rt, alloc, trip.nest);
    let traces = traces_of(rt, alloc, words.traces().len(), trip.trace);
    built(rt, alloc, words, traces, trip.horizon)
}

// Returns the schedule of what arrives.
fn schedule_for(rt: &impl Abort, alloc: Global, coming: Coming) -> Schedule {
    match coming {
        Coming::Rows(text) => schedule_of(rt, alloc, text),
        Coming::Load(number, rows) => load_of(rt, alloc, number, rows),
    }
}

// Returns the nest and the schedule of a trip.
pub fn prepare(rt: &impl Abort, alloc: Global, trip: &Trip) -> Prepared {
    Prepared {
        nest: nest_of(rt, alloc, trip),
        schedule: schedule_for(rt, alloc, trip.coming),
    }
}

// Returns the result of a run over whole lists, shell by shell.
pub fn plain_run(rt: &impl Abort, alloc: Global, prepared: &Prepared) -> RunResult {
    run_plain(alloc, &prepared.nest, &prepared.schedule).expect(rt, "memory")
}

// Returns the result of a run by single steps in an order.
pub fn stepped_run(rt: &impl Abort, alloc: Global, prepared: &Prepared, order: &[u8]) -> RunResult {
    run_order(alloc, &prepared.nest, &prepared.schedule, order).expect(rt, "memory")
}
