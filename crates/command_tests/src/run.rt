// `run` at a pace, and over disks of the tests' own.
mod paced;
mod streamed;

use crate::case::{Case, is_left, outside_of};
use command_ends::{Cause, Host, conclude};
use command_run::answer_run;
use mm_base::{Disk, MemSink, Pace};
use std::alloc::{AllocError, Global};
use std::fmt::Write;
use std::marker::Sync;
use std::sync::Wait;
use std::thread::Threads;
use test_outside::words_of;
use text_base::OutOfMemory;

// The answer of `run`, without what its contract says of it.
fn answered<R: Threads + Wait + Sync, D: Disk, Q: Pace + Sync>(
    rt: &R,
    alloc: Global,
    words: &[String],
    disk: &mut D,
    pace: &Q,
) -> Result<(), Cause> {
    answer_run(&Host { threads: rt, alloc }, words, disk, pace)
}

// Whether an answer has this status, and this line on `out`.
fn concludes(alloc: Global, answer: Result<(), Cause>, status: u8, line: &str) -> bool {
    let mut out = MemSink::new(alloc, Vec::new(alloc));
    conclude(&answer, &mut out) == status && out.written() == line.as_bytes()
}

// Whether a run at a pace leaves what it is to leave. The words of the case are those after `run`.
fn leaves_by<R: Threads + Wait + Sync, Q: Pace + Sync>(
    rt: &R,
    alloc: Global,
    case: &Case<'_>,
    pace: &Q,
) -> Result<bool, OutOfMemory> {
    let words = words_of(alloc, case.words)?;
    let mut outside = outside_of(alloc, case)?;
    let answer = answered(rt, alloc, &words, &mut outside.disk, pace);
    let status = conclude(&answer, &mut outside.out);
    Ok(is_left(case, status, &outside))
}

// So many lines, each a number from 1 on and this text.
fn numbered(alloc: Global, count: u32, text: &str) -> Result<String, AllocError> {
    let mut lines = String::new(alloc);
    for number in 1..=count {
        write!(lines, "{number}{text}")?;
    }
    Ok(lines)
}
