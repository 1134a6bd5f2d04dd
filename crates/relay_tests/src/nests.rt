// Nests by their words, whose traces are of one opportunity each 4 ms.
use nest_spec::{Nest, NestWords, build, read_nest};
use std::alloc::Global;
use std::process::Abort;
use test_outside::words_of;
use text_base::OutOfMemory;
use trace_reader::{Trace, read_trace};

fn nest_words_of(rt: &impl Abort, alloc: Global, text: &str) -> NestWords {
    let words = words_of(alloc, text).expect(rt, "memory");
    read_nest(alloc, words.as_slice()).expect(rt, "a nest")
}

fn sparse_trace(rt: &impl Abort, alloc: Global) -> Trace {
    read_trace(alloc, b"4\n").expect(rt, "a trace")
}

fn traces_of(rt: &impl Abort, alloc: Global, count: usize) -> Result<Vec<Trace>, OutOfMemory> {
    let mut traces = Vec::new(alloc);
    for _ in 0..count {
        traces.push(sparse_trace(rt, alloc))?;
    }
    Ok(traces)
}

pub fn nest_of(rt: &impl Abort, alloc: Global, nest: &str, horizon: u64) -> Nest {
    let words = nest_words_of(rt, alloc, nest);
    let traces = traces_of(rt, alloc, words.traces().len()).expect(rt, "memory");
    assert!(rt; horizon <= 3_600_000);
    assert!(rt; traces.len() == words.traces().len());
    let opportunities = words.opportunities(traces.as_slice(), horizon);
    assert!(rt; opportunities <= 16_000_000);
    build(alloc, words, traces, 0, horizon).expect(rt, "memory")
}
