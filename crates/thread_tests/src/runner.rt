// Runs over threads, with paces that hold some turns until others have begun.
ghost use Rattle.std.specs.Prelude.{◌≡◌, ◌≤◌, length};
ghost use Rattle.std.specs.Bool.{OnTrue};
ghost use Rattle.nest_spec.specs.Nests.{opportunities_of};

mod fed;
mod paced;
mod parts;
mod rows;

use crate::checks::check;
use fed::run_from_feeds;
use mm_base::{MemDisk, NoPace, Pace};
use nest_runner::{run_stream, run_threads};
use nest_spec::{Nest, NestWords, RunResult, build, print_fates, read_nest};
use packet_record::{Schedule, read_schedule};
use std::alloc::{AllocError, Global};
use std::marker::Sync;
use std::process::Abort;
use std::sync::Wait;
use std::thread::Threads;
use text_base::limits::{HOUR, MOST_OPPORTUNITIES};
use text_base::{Bytes, Text};
use trace_reader::{Trace, read_trace};

// The words between the spaces of a text.
fn words_of(rt: &impl Abort, alloc: Global, text: &str) -> Vec<String> {
    let mut words = Vec::new(alloc);
    for word in text.split(' ') {
        let word = String::from_str(alloc, word).expect(rt, "memory");
        words.push(word).expect(rt, "memory");
    }
    words
}

// A nest's words.
fn nest_words_of(rt: &impl Abort, alloc: Global, nest: &str) -> NestWords {
    read_nest(alloc, words_of(rt, alloc, nest).as_slice()).expect(rt, "a nest")
}

// So many times this trace.
fn traces_of(rt: &impl Abort, alloc: Global, trace: &[u8], count: usize) -> Vec<Trace> {
    let mut traces = Vec::new(alloc);
    for _ in 0..count {
        let trace = read_trace(alloc, trace).expect(rt, "a trace");
        traces.push(trace).expect(rt, "memory");
    }
    traces
}

// Whether these are as many traces as the words have, and have few enough opportunities up to the horizon.
fn fit(words: &NestWords, traces: &[Trace], horizon: u64) -> bool
    ensures traces { OnTrue result (length traces.now ≡ length words.now.traces) }
    ensures horizon { OnTrue result (horizon ≤ 3600000) }
    ensures few { OnTrue result (opportunities_of horizon words.now.shells traces.now ≤ 16000000) }
{
    horizon <= HOUR
        && traces.len() == words.traces().len()
        && words.opportunities(traces, horizon) <= MOST_OPPORTUNITIES
}

// The nest of these words with these traces.
fn built(
    rt: &impl Abort,
    alloc: Global,
    words: NestWords,
    traces: Vec<Trace>,
    horizon: u64,
) -> Nest {
    assert!(rt; fit(&words, &traces, horizon));
    build(alloc, words, traces, 0, horizon).expect(rt, "memory")
}

// The nest of these words, each of whose traces is this one.
fn nest_of(rt: &impl Abort, alloc: Global, nest: &str, trace: &[u8], horizon: u64) -> Nest {
    let words = nest_words_of(rt, alloc, nest);
    let traces = traces_of(rt, alloc, trace, words.traces().len());
    built(rt, alloc, words, traces, horizon)
}

fn schedule_of(rt: &impl Abort, alloc: Global, text: &[u8]) -> Schedule {
    read_schedule(alloc, text).expect(rt, "a schedule")
}

// Which call runs a schedule.
#[derive(Clone, Copy)]
enum Call {
    // The schedule is in memory.
    Threads,
    // It is read from a file.
    Stream,
    // Its rows are fed.
    Feeds,
}

// The result of a schedule in memory.
fn run_from_memory<Q: Pace + Sync, R: Threads + Wait + Abort + Sync>(
    rt: &R,
    alloc: Global,
    nest: &Nest,
    schedule: &[u8],
    pace: &Q,
) -> RunResult {
    let schedule = schedule_of(rt, alloc, schedule);
    run_threads(rt, alloc, nest, &schedule, pace).expect(rt, "memory")
}

// A disk whose one file is `s`.
fn disk_of(rt: &impl Abort, alloc: Global, bytes: &[u8]) -> MemDisk {
    let name = Text::from_text(alloc, "s").expect(rt, "memory");
    let bytes = Bytes::from_slice(alloc, bytes).expect(rt, "memory");
    let mut files = Vec::new(alloc);
    files.push((name, bytes)).expect(rt, "memory");
    MemDisk::new(alloc, files, Vec::new(alloc))
}

// The result of a schedule in the file `s`.
fn run_from_file<Q: Pace + Sync, R: Threads + Wait + Abort + Sync>(
    rt: &R,
    alloc: Global,
    nest: &Nest,
    schedule: &[u8],
    pace: &Q,
) -> RunResult {
    let mut disk = disk_of(rt, alloc, schedule);
    run_stream(rt, alloc, nest, &mut disk, "s", pace).expect(rt, "a run")
}

fn run_by<Q: Pace + Sync, R: Threads + Wait + Abort + Sync>(
    rt: &R,
    alloc: Global,
    call: Call,
    nest: &Nest,
    schedule: &[u8],
    pace: &Q,
) -> RunResult {
    match call {
        Call::Threads => run_from_memory(rt, alloc, nest, schedule, pace),
        Call::Stream => run_from_file(rt, alloc, nest, schedule, pace),
        Call::Feeds => run_from_feeds(rt, alloc, nest, schedule, pace),
    }
}

// Whether this is the text of the fates of a run.
fn has_fates(rt: &impl Abort, alloc: Global, run: &RunResult, fates: &[u8]) -> bool {
    print_fates(alloc, run.fates())
        .expect(rt, "memory")
        .as_slice()
        == fates
}

// A nest, the trace of its links, its horizon, a schedule, and the fates that the composition of the shells gives.
#[derive(Clone, Copy)]
struct Case<'a> {
    nest: &'a str,
    trace: &'a [u8],
    horizon: u64,
    schedule: &'a [u8],
    fates: &'a [u8],
}

const CASES: [Case<'static>; 4] = [
    Case {
        nest: "mm-delay 20",
        trace: b"1\n",
        horizon: 100,
        schedule: b"80 up 100\n81 up 100\n101 up 100\n",
        fates: b"1 up departed 100\n2 up inside 1\n3 up unsent\n",
    },
    Case {
        nest: "mm-delay 10 mm-link t t",
        trace: b"4\n",
        horizon: 100,
        schedule: b"0 up 100\n0 down 100\n",
        fates: b"1 up departed 14\n2 down departed 12\n",
    },
    Case {
        nest: "mm-link t t --uplink-queue=droptail --uplink-queue-args=bytes=250",
        trace: b"10\n",
        horizon: 10,
        schedule: b"0 up 100\n0 up 200\n0 up 150\n",
        fates: b"1 up departed 10\n2 up dropped 1 0\n3 up departed 10\n",
    },
    Case {
        nest: "mm-delay 1",
        trace: b"1\n",
        horizon: 10,
        schedule: b"",
        fates: b"",
    },
];

fn nest_in(rt: &impl Abort, alloc: Global, case: &Case<'_>) -> Nest {
    nest_of(rt, alloc, case.nest, case.trace, case.horizon)
}

// Whether a case over threads at this pace gives its fates.
fn agrees_at<Q: Pace + Sync, R: Threads + Wait + Abort + Sync>(
    rt: &R,
    alloc: Global,
    call: Call,
    case: &Case<'_>,
    pace: &Q,
) -> bool {
    let nest = nest_in(rt, alloc, case);
    let result = run_by(rt, alloc, call, &nest, case.schedule, pace);
    has_fates(rt, alloc, &result, case.fates)
}

// Each case gives its fates by this call.
fn all_agree<R: Threads + Wait + Abort + Sync>(
    rt: &R,
    alloc: Global,
    call: Call,
    cases: &[Case<'_>],
) {
    for case in cases {
        check(rt, agrees_at(rt, alloc, call, case, &NoPace), case.nest);
    }
}

#[test]
fn threads_give_the_composition(rt: HostRuntime) {
    all_agree(&rt, rt.alloc(), Call::Threads, &CASES);
}

#[test]
fn a_schedule_in_a_file_gives_the_composition(rt: HostRuntime) {
    all_agree(&rt, rt.alloc(), Call::Stream, &CASES);
}

#[test]
fn fed_rows_give_the_composition(rt: HostRuntime) {
    all_agree(&rt, rt.alloc(), Call::Feeds, &CASES);
}

// So many rows, one a millisecond.
fn rows_of(alloc: Global, count: u32) -> Result<String, AllocError> {
    let mut text = String::new(alloc);
    for moment in 1..=count {
        text.push_str(format!(in alloc; "{moment} up 100\n")?.as_str())?;
    }
    Ok(text)
}

// Their fates behind a delay of 20.
fn fates_of(alloc: Global, count: u32) -> Result<String, AllocError> {
    let mut text = String::new(alloc);
    for moment in 1..=count {
        let departed = moment.saturating_add(20);
        text.push_str(format!(in alloc; "{moment} up departed {departed}\n")?.as_str())?;
    }
    Ok(text)
}

// Many rows, and their fates behind a delay of 20.
#[derive(Drop)]
struct Many {
    schedule: String,
    fates: String,
}

fn many_of(rt: &impl Abort, alloc: Global, count: u32) -> Many {
    Many {
        schedule: rows_of(alloc, count).expect(rt, "memory"),
        fates: fates_of(alloc, count).expect(rt, "memory"),
    }
}

// The case of many rows up to a horizon.
fn case_of(many: &Many, horizon: u64) -> Case<'_> {
    Case {
        nest: "mm-delay 20",
        trace: b"1\n",
        horizon,
        schedule: many.schedule.as_bytes(),
        fates: many.fates.as_bytes(),
    }
}

// A case gives its fates by each call.
fn agrees_throughout<R: Threads + Wait + Abort + Sync>(rt: &R, alloc: Global, case: Case<'_>) {
    let cases = [case];
    all_agree(rt, alloc, Call::Threads, &cases);
    all_agree(rt, alloc, Call::Stream, &cases);
    all_agree(rt, alloc, Call::Feeds, &cases);
}

// More rows than fit in a piece of a file.
#[test]
fn many_rows_pass(rt: HostRuntime) {
    let many = many_of(&rt, rt.alloc(), 10_000);
    agrees_throughout(&rt, rt.alloc(), case_of(&many, 20_000));
}
